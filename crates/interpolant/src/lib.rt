// The interpolant: a form Q in y and z over the polynomials in x, not zero, of bounded weighted degree, with a root of given multiplicity at each
// of given places. Kötter's iteration finds it without elimination on the whole system: the constraints are met one by one, in three loops.
#![tactic(auto)]

ghost use Rattle.std.specs.Prelude.{◌≡◌, ℕ, suc, ◌+◌, ◌-◌, ◌*◌, ◌^◌, ◌<◌, ◌≤◌, length, slice_index};
ghost use Rattle.fields.specs.Numbers.{AllBelow};
ghost use Rattle.functionals.specs.Tables.{point, Proper, TaylorTable, WeightTable};
ghost use Rattle.elimination.specs.Tableaus.{Fits, SameAreas};
ghost use Rattle.interpolant.specs.Places.{Placed};
ghost use Rattle.interpolant.specs.States.{Orders, Passed, Done};
ghost use Rattle.interpolant.specs.Problems.{problem, basis_problem, Solution, Ratios, Decodes, FirstRows, FirstRanks, Enough, room as cells};

use elimination::{Tableau, fetch};
use fields::Field;
use functionals::{Slope, slope_of, taylor_table, weight_table};
use polynomials::evaluate;

// What is asked of an interpolant: its degree in y and z, the multiplicity of its roots, the weights of z and y, and the bound on its weighted degrees.
#[derive(Clone, Copy)]
pub struct Shape {
    pub degree: usize,
    pub multiplicity: usize,
    pub w1: usize,
    pub w2: usize,
    pub bound: usize,
}

// The places of the roots: at x = points[i] the ratio y : z is ys[i] : zs[i].
#[derive(Clone, Copy)]
pub struct Places<'a> {
    pub points: &'a [u16],
    pub ys: &'a [u16],
    pub zs: &'a [u16],
}

// The numbers of a place: the Taylor rows at its point, and the weights at its slope.
#[derive(Drop)]
struct Tables<'a> {
    taylor: &'a mut [u16],
    weights: &'a mut [u16],
}

impl Tables<'_> {
    // Fills both for the place (alpha; slope), where a row has count runs of bound numbers.
    fn fill<F: Field>(&mut self, alpha: u16, slope: Slope, count: usize, bound: usize)
        requires point { alpha < F.Field.numbers.q }
        requires proper { Proper F.Field.numbers slope }
        requires rank { 0 < count }
        requires some { 0 < bound }
        ensures taylor { TaylorTable F.Field.numbers alpha bound self.new.taylor.now }
        ensures weights { WeightTable F.Field.numbers (point F.Field.numbers slope) count self.new.weights.now }
        ensures tall { length self.new.taylor.now ≡ length self.old.taylor.now }
        ensures wide { length self.new.weights.now ≡ length self.old.weights.now }
    {
        taylor_table::<F>(self.taylor, bound, alpha);
        weight_table::<F>(self.weights, count, slope);
    }
}

// The constraints (0, b), .., (count - 1, b) at the place alpha, where cs has the weights at the order b.
fn meet_orders<F: Field>(
    tableau: &mut Tableau,
    alpha: u16,
    taylor: &[u16],
    cs: &[u16],
    bound: usize,
    count: usize,
)
    requires point { alpha < F.Field.numbers.q }
    requires some { 0 < bound }
    requires taylor { TaylorTable F.Field.numbers alpha bound taylor.now }
    requires weights { AllBelow F.Field.numbers.q cs.now }
    requires fits { Fits F.Field.numbers.q (length cs.now) bound tableau.old }
    requires orders { count * bound ≤ length taylor.now }
    ensures fits { Fits F.Field.numbers.q (length cs.now) bound tableau.new }
    ensures areas { SameAreas tableau.old tableau.new }
    ensures met { Orders F.Field.numbers bound alpha cs.now count tableau.old.rows.now tableau.old.ranks.now tableau.new.rows.now tableau.new.ranks.now }
{
    for xs in taylor.chunks_exact(bound).take(count) {
        tableau.step::<F>(alpha, xs, cs);
    }
}

// All constraints at the place alpha, whose tables are given.
fn meet_place<F: Field>(tableau: &mut Tableau, shape: Shape, alpha: u16, tables: &Tables)
    requires point { alpha < F.Field.numbers.q }
    requires some { 0 < shape.bound }
    requires taylor { TaylorTable F.Field.numbers alpha shape.bound tables.now.taylor.now }
    requires weights { AllBelow F.Field.numbers.q tables.now.weights.now }
    requires fits { Fits F.Field.numbers.q (suc shape.degree) shape.bound tableau.old }
    requires tall { shape.multiplicity * shape.bound ≤ length tables.now.taylor.now }
    requires wide { shape.multiplicity * suc shape.degree ≤ length tables.now.weights.now }
    ensures fits { Fits F.Field.numbers.q (suc shape.degree) shape.bound tableau.new }
    ensures areas { SameAreas tableau.old tableau.new }
    ensures met { Passed F.Field.numbers (suc shape.degree) shape.bound alpha shape.multiplicity tables.now.weights.now tableau.old.rows.now tableau.old.ranks.now tableau.new.rows.now tableau.new.ranks.now }
{
    let count = tableau.ranks.len();
    let taylor = &*tables.taylor;
    let weights = &*tables.weights;
    for (b, cs) in weights
        .chunks_exact(count)
        .take(shape.multiplicity)
        .enumerate()
    {
        let orders = shape.multiplicity - b;
        meet_orders::<F>(tableau, alpha, taylor, cs, shape.bound, orders);
    }
}

// All constraints at the places. The tables are filled once for each place.
fn meet_places<F: Field>(tableau: &mut Tableau, tables: &mut Tables, shape: Shape, places: Places)
    requires places { Placed F.Field.numbers.q places }
    requires some { 0 < shape.bound }
    requires fits { Fits F.Field.numbers.q (suc shape.degree) shape.bound tableau.old }
    requires tall { shape.multiplicity * shape.bound ≤ length tables.old.taylor.now }
    requires wide { shape.multiplicity * suc shape.degree ≤ length tables.old.weights.now }
    ensures fits { Fits F.Field.numbers.q (suc shape.degree) shape.bound tableau.new }
    ensures areas { SameAreas tableau.old tableau.new }
    ensures met { Done F.Field.numbers (suc shape.degree) shape.bound shape.multiplicity places.entry.points.now places.entry.ys.now places.entry.zs.now tableau.old.rows.now tableau.old.ranks.now tableau.new.rows.now tableau.new.ranks.now }
{
    let count = tableau.ranks.len();
    let ratios = places.ys.iter().zip(places.zs);
    for (alpha, (y, z)) in places.points.iter().zip(ratios) {
        tables.fill::<F>(*alpha, slope_of::<F>(*y, *z), count, shape.bound);
        meet_place::<F>(tableau, shape, *alpha, tables);
    }
}

// The rows that the iteration starts from, y^j z^(degree - j): a 1 at the start of the run j of the row j.
fn start_rows<F: Field>(rows: &mut [u16], size: usize, bound: usize)
    requires some { 0 < size }
    requires fit { bound ≤ size }
    ensures { FirstRows F.Field.numbers size bound rows.new }
{
    for (i, x) in rows.iter_mut().enumerate() {
        *x = if i / size * bound == i % size { 1 } else { 0 };
    }
}

// The ranks of those rows: the weights of their positions.
fn start_ranks(ranks: &mut [usize], w1: usize, w2: usize)
    requires { (length ranks.old - 1) * (w1 + w2) < 2 ^ 64 }
    ensures { FirstRanks w1 w2 ranks.new }
{
    let count = ranks.len();
    for (j, rank) in ranks.iter_mut().enumerate() {
        *rank = j * w2 + (count - 1 - j) * w1;
    }
}

// The first row of the least rank.
fn least(ranks: &[usize]) -> usize
    requires { 0 < length ranks.now }
    ensures inside { result < length ranks.now }
    ensures least { (j : ℕ) → j < length ranks.now → slice_index ranks.now result ≤ slice_index ranks.now j }
{
    ranks
        .iter()
        .enumerate()
        .min_by_key(|(_, rank)| **rank)
        .map_or(0, |(j, _)| j)
}

// An interpolant for the places, written to out as degree + 1 runs of bound numbers. The rows, the tables and the values stand in the work area, whose
// numbers are of no use afterwards; ranks has room for a number for each row.
pub fn interpolate_points<F: Field>(
    shape: Shape,
    places: Places,
    out: &mut [u16],
    work: &mut [u16],
    ranks: &mut [usize],
)
    requires places { Placed F.Field.numbers.q places }
    requires size { length out.old ≡ suc shape.degree * shape.bound }
    requires ranked { length ranks.old ≡ suc shape.degree }
    requires space { cells shape ≤ length work.old }
    requires enough { Enough shape (length places.points.now) }
    ensures { Solution F.Field.numbers (problem F.Field.numbers shape places.entry.points.now places.entry.ys.now places.entry.zs.now) (length places.entry.points.now) shape.multiplicity out.new }
{
    let count = shape.degree + 1;
    let size = out.len();
    let (rows, rest) = work.split_at_mut(count * size);
    let (pivot, rest) = rest.split_at_mut(size);
    let (taylor, rest) = rest.split_at_mut(shape.multiplicity * shape.bound);
    let (weights, rest) = rest.split_at_mut(shape.multiplicity * count);
    let (values, _) = rest.split_at_mut(count);
    start_ranks(ranks, shape.w1, shape.w2);
    start_rows::<F>(rows, size, shape.bound);
    let mut tableau = Tableau {
        rows,
        ranks,
        values,
        pivot,
    };
    let mut tables = Tables { taylor, weights };
    meet_places::<F>(&mut tableau, &mut tables, shape, places);
    let best = least(tableau.ranks);
    fetch::<F>(out, tableau.rows, best);
}

// The ratios y : z of the points α, where y = h11(α) and z = -h21(α).
fn ratios<F: Field>(ys: &mut [u16], zs: &mut [u16], points: &[u16], h11: &[u16], h21: &[u16])
    requires all { AllBelow F.Field.numbers.q points.now }
    requires all_h11 { AllBelow F.Field.numbers.q h11.now }
    requires all_h21 { AllBelow F.Field.numbers.q h21.now }
    requires count_ys { length ys.old ≡ length points.now }
    requires count_zs { length zs.old ≡ length points.now }
    ensures { Ratios F.Field.numbers points.now h11.now h21.now ys.new zs.new }
{
    // By index in ys and zs: what a zip over `iter_mut` leaves in its slice is not known to a proof.
    for (i, alpha) in points.iter().enumerate() {
        ys[i] = evaluate::<F>(h11, *alpha);
        zs[i] = F::neg(evaluate::<F>(h21, *alpha));
    }
}

// The interpolant of a basis: the place of each point has the ratio that h11 and h21 have there. It is the one from which the codewords are found.
pub fn interpolate_basis<F: Field>(
    shape: Shape,
    points: &[u16],
    h11: &[u16],
    h21: &[u16],
    out: &mut [u16],
    work: &mut [u16],
    ranks: &mut [usize],
)
    requires all { AllBelow F.Field.numbers.q points.now }
    requires all_h11 { AllBelow F.Field.numbers.q h11.now }
    requires all_h21 { AllBelow F.Field.numbers.q h21.now }
    requires size { length out.old ≡ suc shape.degree * shape.bound }
    requires ranked { length ranks.old ≡ suc shape.degree }
    requires space { length points.now + length points.now + cells shape ≤ length work.old }
    requires enough { Enough shape (length points.now) }
    ensures solution { Solution F.Field.numbers (basis_problem F.Field.numbers shape points.now h11.now h21.now) (length points.now) shape.multiplicity out.new }
    ensures decodes { Decodes F.Field.numbers shape points.now h11.now h21.now out.new }
{
    let (ys, rest) = work.split_at_mut(points.len());
    let (zs, rest) = rest.split_at_mut(points.len());
    ratios::<F>(ys, zs, points, h11, h21);
    interpolate_points::<F>(shape, Places { points, ys, zs }, out, rest, ranks);
}
