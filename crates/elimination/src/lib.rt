// A step of Kötter's iteration. Of the rows that violate a constraint the least, the pivot, is taken from the others until they satisfy it, and is
// itself multiplied by x - alpha. A row is dead, and no longer looked at, once its rank reaches the bound; so no row outgrows its place.
#![tactic(auto)]

ghost use Rattle.std.specs.Prelude.{◌≡◌, ℕ, ◌+◌, ◌-◌, ◌*◌, ◌<◌, ◌≤◌, length, IfSome, MatchOption, slice_index};
ghost use Rattle.fields.specs.Numbers.{AllBelow};
ghost use Rattle.polynomials.specs.Series.{poly, Reads};
ghost use Rattle.functionals.specs.Runs.{run};
ghost use Rattle.elimination.specs.Choice.{Chosen, Better};
ghost use Rattle.elimination.specs.Rows.{Measured, Swept, Advanced, Stored, Pivoted};
ghost use Rattle.elimination.specs.Stepping.{Stepped};
ghost use Rattle.elimination.specs.Tableaus.{Fits, SameAreas};

use areas::put;
use fields::Field;
use functionals::discrepancy;
use polynomials::add_shifted_multiple;

// The values of the rows, which are runs of the given size. A dead row has none, and is given 0.
fn measure<F: Field>(
    values: &mut [u16],
    rows: &[u16],
    size: usize,
    ranks: &[usize],
    xs: &[u16],
    cs: &[u16],
)
    requires first { AllBelow F.Field.numbers.q rows.now }
    requires second { AllBelow F.Field.numbers.q xs.now }
    requires third { AllBelow F.Field.numbers.q cs.now }
    requires ranked { length values.old ≤ length ranks.now }
    requires room { length values.old * size ≤ length rows.now }
    requires fit { length cs.now * length xs.now ≤ size }
    ensures { Measured F.Field.numbers size rows.now ranks.now xs.now cs.now values.new }
{
    // The rows are cut off one by one, since their size may be 0; by index in ranks, since what a zip over `iter_mut` leaves in its slice is not known to a proof.
    let mut rest = rows;
    for (j, value) in values.iter_mut().enumerate() {
        let (row, tail) = rest.split_at(size);
        *value = if ranks[j] < xs.len() {
            discrepancy::<F>(row, xs, cs)
        } else {
            0
        };
        rest = tail;
    }
}

// The row j, or the row that was best before if it is no worse.
fn prefer(ranks: &[usize], best: Option<usize>, j: usize) -> usize
    requires inside { j < length ranks.now }
    requires before { IfSome best (λ p. p < length ranks.now) }
    ensures { MatchOption best (result ≡ j) (λ p. Better ranks.now j p result) }
{
    match best {
        Some(p) => { if ranks[j] < ranks[p] { j } else { p } }
        None => j,
    }
}

// The row to eliminate with: of the rows in use whose value is not 0 the first of the least rank.
fn choose(ranks: &[usize], values: &[u16], bound: usize) -> Option<usize>
    requires { length ranks.now ≤ length values.now }
    ensures { Chosen ranks.now values.now bound (length ranks.now) result }
{
    // A loop: of a chain by `filter` and `min_by_key` it could not be proved that it picks the first of the least rank.
    let mut best = None;
    for (j, rank) in ranks.iter().enumerate() {
        if *rank < bound && values[j] != 0 {
            best = Some(prefer(ranks, best, j));
        }
    }
    best
}

// Copies the row p to the pivot.
pub fn fetch<F: Field>(pivot: &mut [u16], rows: &[u16], p: usize)
    requires all { AllBelow F.Field.numbers.q rows.now }
    requires room { p * length pivot.old + length pivot.old ≤ length rows.now }
    ensures { Reads F.Field.numbers pivot.new (poly F.Field.numbers (run (length pivot.old) rows.now p)) }
{
    let at = p * pivot.len();
    pivot.copy_from_slice(&rows[at..at + pivot.len()]);
}

// Takes from each row but p the multiple of the pivot by the ratio of the values.
fn sweep<F: Field>(rows: &mut [u16], pivot: &[u16], values: &[u16], p: usize)
    requires first { AllBelow F.Field.numbers.q rows.old }
    requires second { AllBelow F.Field.numbers.q pivot.now }
    requires inside { p < length values.now }
    requires room { length values.now * length pivot.now ≤ length rows.old }
    ensures { Swept F.Field.numbers (length pivot.now) rows.old pivot.now values.now p rows.new }
{
    let inverse = F::inv(values[p]);
    // The rows by their offsets: what `chunks_exact_mut` leaves in its slice is not known to a proof.
    for (j, value) in values.iter().enumerate() {
        if j != p && *value != 0 {
            let ratio = F::mul(*value, inverse);
            add_shifted_multiple::<F>(rows, F::neg(ratio), j * pivot.len(), pivot);
        }
    }
}

// low - alpha x, at no product where x is 0.
fn linear<F: Field>(low: u16, alpha: u16, x: u16) -> u16
    requires first { low < F.Field.numbers.q }
    requires second { alpha < F.Field.numbers.q }
    ensures { result ≡ F.Field.numbers.add low (F.Field.numbers.neg (F.Field.numbers.mul alpha x)) }
{
    if x == 0 {
        return low;
    }
    F::add(low, F::neg(F::mul(alpha, x)))
}

// (x - alpha) row, in the place of the row: each of its runs for itself, without what would leave the run.
fn advance<F: Field>(row: &mut [u16], alpha: u16, bound: usize)
    requires point { alpha < F.Field.numbers.q }
    requires all { AllBelow F.Field.numbers.q row.old }
    requires some { 0 < bound }
    ensures { Advanced F.Field.numbers bound alpha row.old row.new }
{
    let mut last = 0;
    for (i, x) in row.iter_mut().enumerate() {
        let low = if i % bound == 0 { 0 } else { last };
        last = *x;
        *x = linear::<F>(low, alpha, last);
    }
}

// Copies the pivot to the row p.
fn store<F: Field>(rows: &mut [u16], pivot: &[u16], p: usize)
    requires first { AllBelow F.Field.numbers.q rows.old }
    requires second { AllBelow F.Field.numbers.q pivot.now }
    requires room { p * length pivot.now + length pivot.now ≤ length rows.old }
    ensures { Stored F.Field.numbers rows.old pivot.now p rows.new }
{
    put(rows, p * pivot.len(), pivot);
}

// The rows of the iteration and their ranks, with room to work in: for the value of each row, and for a copy of one.
#[derive(Drop)]
pub struct Tableau<'a> {
    pub rows: &'a mut [u16],
    pub ranks: &'a mut [usize],
    pub values: &'a mut [u16],
    pub pivot: &'a mut [u16],
}

impl Tableau<'_> {
    // Eliminates with the row p: the others lose their multiple of it, and it goes on to (x - alpha) row unless it dies by that.
    fn pivot_on<F: Field>(&mut self, p: usize, alpha: u16, bound: usize)
        requires point { alpha < F.Field.numbers.q }
        requires fits { Fits F.Field.numbers.q (length self.old.values.now) bound self.old }
        requires values { AllBelow F.Field.numbers.q self.old.values.now }
        requires inside { p < length self.old.values.now }
        requires live { slice_index self.old.ranks.now p < bound }
        ensures fits { Fits F.Field.numbers.q (length self.old.values.now) bound self.new }
        ensures areas { SameAreas self.old self.new }
        ensures pivoted { Pivoted F.Field.numbers (length self.old.pivot.now) bound alpha self.old.rows.now self.old.ranks.now self.old.values.now p self.new.rows.now self.new.ranks.now }
    {
        let rows = &mut *self.rows;
        let ranks = &mut *self.ranks;
        let values = &mut *self.values;
        let pivot = &mut *self.pivot;
        fetch::<F>(pivot, rows, p);
        sweep::<F>(rows, pivot, values, p);
        ranks[p] += 1;
        if ranks[p] < bound {
            advance::<F>(pivot, alpha, bound);
            store::<F>(rows, pivot, p);
        }
    }

    // A step of the iteration at the place alpha, for the constraint whose Taylor row is xs and whose weights are cs. There are as many rows as weights,
    // each with as many runs of as many numbers as xs has.
    pub fn step<F: Field>(&mut self, alpha: u16, xs: &[u16], cs: &[u16])
        requires point { alpha < F.Field.numbers.q }
        requires orders { AllBelow F.Field.numbers.q xs.now }
        requires weights { AllBelow F.Field.numbers.q cs.now }
        requires fits { Fits F.Field.numbers.q (length cs.now) (length xs.now) self.old }
        ensures fits { Fits F.Field.numbers.q (length cs.now) (length xs.now) self.new }
        ensures areas { SameAreas self.old self.new }
        ensures stepped { Stepped F.Field.numbers alpha xs.now cs.now self.old.rows.now self.old.ranks.now self.new.rows.now self.new.ranks.now }
    {
        let size = self.pivot.len();
        let rows = &mut *self.rows;
        let ranks = &mut *self.ranks;
        let values = &mut *self.values;
        measure::<F>(values, rows, size, ranks, xs, cs);
        if let Some(p) = choose(ranks, values, xs.len()) {
            self.pivot_on::<F>(p, alpha, xs.len());
        }
    }
}
