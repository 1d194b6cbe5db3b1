// The functionals of a root of multiplicity s at a place (alpha; y : z): the coefficient of u^a v^b in the expansion of a homogeneous Q about the
// place. Their numbers stand in two tables, which are filled once for each place: the Taylor rows at alpha and the weights of the positions.
#![tactic(auto)]

ghost use Rattle.std.specs.Prelude.{◌≡◌, ℕ, ◌+◌, ◌-◌, ◌*◌, ◌/◌, ◌%◌, ◌<◌, ◌≤◌, length, slice_index};
ghost use Rattle.algebra.specs.Sums.{sum as total};
ghost use Rattle.fields.specs.Numbers.{AllBelow, elem, times, ring_of, field_of};
ghost use Rattle.polynomials.specs.Series.{poly};
ghost use Rattle.decoding.specs.Multiplicity.{slope as ratio};
ghost use Rattle.functionals.specs.Tables.{coefficient, point, Proper, TaylorTable, WeightTable, Discrepancy};

use fields::Field;

// A point (y : z) of the projective line, by the ratio y / z. An enum of its own and no Option: the point at the infinite slope is not the lack of one.
#[derive(Clone, Copy)]
pub enum Slope {
    Finite(u16),
    Infinite,
}

// The slope of the point (y : z). A place where z is 0 has one too.
pub fn slope_of<F: Field>(y: u16, z: u16) -> Slope
    requires first { y < F.Field.numbers.q }
    requires second { z < F.Field.numbers.q }
    ensures proper { Proper F.Field.numbers result }
    ensures is { point F.Field.numbers result ≡ ratio (field_of F.Field.numbers) (elem F.Field.numbers y) (elem F.Field.numbers z) }
{
    if z == 0 {
        return Slope::Infinite;
    }
    Slope::Finite(F::mul(y, F::inv(z)))
}

// The number i of a Taylor table: in the row of the order i / size the one at i % size, from the numbers before it.
fn entry<F: Field>(table: &[u16], size: usize, alpha: u16, i: usize) -> u16
    requires some { 0 < size }
    requires inside { i ≤ length table.now }
    requires before { (k : ℕ) → k < i → slice_index table.now k ≡ coefficient F.Field.numbers alpha (k % size) (k / size) }
    ensures { result ≡ coefficient F.Field.numbers alpha (i % size) (i / size) }
{
    if i == 0 {
        return 1;
    }
    if i % size == 0 {
        return 0;
    }
    let scaled = F::mul(alpha, table[i - 1]);
    if i < size {
        scaled
    } else {
        F::add(table[i - size - 1], scaled)
    }
}

// The Taylor rows at alpha, of the orders 0, 1, .. as many as there is room for. Row a has the coefficients of u^a in the powers of u + alpha;
// they are no derivatives, which would vanish too early in a field of characteristic 2.
pub fn taylor_table<F: Field>(out: &mut [u16], size: usize, alpha: u16)
    requires some { 0 < size }
    requires point { alpha < F.Field.numbers.q }
    ensures { TaylorTable F.Field.numbers alpha size out.new }
{
    // By index: each number is made of those before it in the same slice.
    for i in 0..out.len() {
        out[i] = entry::<F>(out, size, alpha, i);
    }
}

// The weights at the point (1 : 0): at the order b only the position size - 1 - b counts.
fn unit_table<F: Field>(out: &mut [u16], size: usize)
    requires { 0 < size }
    ensures { WeightTable F.Field.numbers (point F.Field.numbers Slope.Infinite) size out.new }
{
    for (i, weight) in out.iter_mut().enumerate() {
        *weight = if i % size + i / size == size - 1 {
            1
        } else {
            0
        };
    }
}

// The weights of the positions at the slope, in rows for the orders 0, 1, .. as many as there is room for.
pub fn weight_table<F: Field>(out: &mut [u16], size: usize, slope: Slope)
    requires some { 0 < size }
    requires proper { Proper F.Field.numbers slope }
    ensures { WeightTable F.Field.numbers (point F.Field.numbers slope) size out.new }
{
    match slope {
        Slope::Finite(beta) => taylor_table::<F>(out, size, beta),
        Slope::Infinite => unit_table::<F>(out, size),
    }
}

// a b, at no multiplication where a is 1: the first number of a table, and every number at an infinite slope.
fn product<F: Field>(a: u16, b: u16) -> u16
    requires { b < F.Field.numbers.q }
    ensures { result ≡ F.Field.numbers.mul a b }
{
    if a == 1 {
        return b;
    }
    F::mul(a, b)
}

// The sum of the products of the coefficients of p with the numbers of x. Most coefficients are 0, and cost no product.
fn dot<F: Field>(p: &[u16], x: &[u16]) -> u16
    requires first { AllBelow F.Field.numbers.q p.now }
    requires second { AllBelow F.Field.numbers.q x.now }
    requires room { length p.now ≤ length x.now }
    ensures below { result < F.Field.numbers.q }
    ensures is { elem F.Field.numbers result ≡ total (ring_of F.Field.numbers) (length p.now) (λ m. times F.Field.numbers (poly F.Field.numbers x.now m) (poly F.Field.numbers p.now m)) }
{
    let mut sum = 0;
    for (coefficient, number) in p.iter().zip(x) {
        if *coefficient != 0 {
            sum = F::add(sum, product::<F>(*number, *coefficient));
        }
    }
    sum
}

// The value of a functional at a row: xs is a Taylor row, and cs has the coefficients of the positions.
pub fn discrepancy<F: Field>(row: &[u16], xs: &[u16], cs: &[u16]) -> u16
    requires first { AllBelow F.Field.numbers.q row.now }
    requires second { AllBelow F.Field.numbers.q xs.now }
    requires third { AllBelow F.Field.numbers.q cs.now }
    requires room { length cs.now * length xs.now ≤ length row.now }
    ensures below { result < F.Field.numbers.q }
    ensures is { Discrepancy F.Field.numbers row.now xs.now cs.now result }
{
    let mut sum = 0;
    // The runs are cut off one by one: xs may be empty, and `chunks_exact` does not take the length 0.
    let mut rest = row;
    for weight in cs {
        let (run, tail) = rest.split_at(xs.len());
        if *weight != 0 {
            sum = F::add(sum, product::<F>(*weight, dot::<F>(run, xs)));
        }
        rest = tail;
    }
    sum
}
