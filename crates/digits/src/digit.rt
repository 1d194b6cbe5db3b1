// The polynomial whose roots are the next digits.
ghost use Rattle.std.specs.Prelude.{◌≡◌, ℕ, suc, ◌+◌, ◌-◌, ◌*◌, ◌<◌, ◌≤◌, length};
ghost use Rattle.algebra.specs.Poly.{at as value_at};
ghost use Rattle.fields.specs.Numbers.{AllBelow, Element, elem, ring_of};
ghost use Rattle.polynomials.specs.Series.{poly, Reads, value};
ghost use Rattle.digits.specs.Runs.{runs as runs_of, Held};
ghost use Rattle.digits.specs.Digits.{column, Allowed, Decides, Among};

use super::Shape;
use fields::Field;
use polynomials::{clear, size};
use std::ops::Range;

// Writes the coefficients of x^m in x^(tb) T_b, for each b.
fn gather<F: Field>(runs: &[u16], shape: Shape, t: usize, m: usize, out: &mut [u16])
    requires held { Held F.Field.numbers shape runs.now }
    requires inside { m < shape.width }
    requires long { length out.old ≡ shape.degree + 1 }
    ensures { Reads F.Field.numbers out.new (column (ring_of F.Field.numbers) t m (runs_of F.Field.numbers shape.width runs.now)) }
{
    out[0] = runs[m];
    if shape.degree == 0 {
        return;
    }
    if m < t {
        clear::<F>(&mut out[1..]);
        return;
    }
    let width = shape.width;
    gather::<F>(&runs[width..], shape.rest(), t, m - t, &mut out[1..]);
}

// Writes the polynomial whose roots are the allowed digits: that of the first place at which some layer has a coefficient.
fn digit_polynomial<F: Field>(runs: &[u16], shape: Shape, t: usize, out: &mut [u16])
    requires held { Held F.Field.numbers shape runs.now }
    requires place { t ≤ shape.depth }
    requires long { length out.old ≡ shape.degree + 1 }
    ensures all { AllBelow F.Field.numbers.q out.new }
    ensures decides { Decides (ring_of F.Field.numbers) shape.degree t (runs_of F.Field.numbers shape.width runs.now) (suc shape.degree) (poly F.Field.numbers out.new) }
{
    clear::<F>(out);
    // A power of x, which stands at another place in each run.
    for m in 0..shape.size {
        gather::<F>(runs, shape, t, m, out);
        if size::<F>(out) > 0 {
            return;
        }
    }
}

// The same in an array, for at most nine runs.
pub(crate) fn next_digit<F: Field>(runs: &[u16], shape: Shape, t: usize) -> [u16; 9]
    requires held { Held F.Field.numbers shape runs.now }
    requires place { t ≤ shape.depth }
    requires few { shape.degree < 9 }
    ensures long { length result ≡ 9 }
    ensures all { AllBelow F.Field.numbers.q result }
    ensures decides { Decides (ring_of F.Field.numbers) shape.degree t (runs_of F.Field.numbers shape.width runs.now) 9 (poly F.Field.numbers result) }
{
    let mut out = [0; 9];
    let n = shape.degree + 1;
    digit_polynomial::<F>(runs, shape, t, &mut out[0..n]);
    out
}

// Where the roots of p are: nowhere if it is a constant other than 0, at one place if it is linear, and else anywhere.
pub(crate) fn root_range<F: Field>(p: &[u16]) -> Range<u16>
    requires { AllBelow F.Field.numbers.q p.now }
    ensures { Among F.Field.numbers (length p.now) (poly F.Field.numbers p.now) result.start result.end }
{
    let q = F::Q;
    let n = size::<F>(p);
    if n == 1 {
        return 0..0;
    }
    if n == 2 {
        let root = F::neg(F::mul(p[0], F::inv(p[1])));
        return root..root + 1;
    }
    0..q
}
