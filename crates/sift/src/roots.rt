// The locator of a pair, and its roots among the points.
ghost use Rattle.std.specs.Prelude.{◌≡◌, ◌+◌, ◌<◌, ◌≤◌, ◌==◌, T, count_by, length};
ghost use Rattle.decoding.specs.Sift.{located};
ghost use Rattle.fields.specs.Numbers.{AllBelow, ring_of};
ghost use Rattle.polynomials.specs.Series.{poly, Reads};
ghost use Rattle.sift.specs.Roots.{Values, Splits};

use fields::Field;
use polynomials::{add_shifted_multiple, evaluate, multiply_into, size};

// f1 h1 + f2 h2, written to out.
pub fn locate<F: Field>(out: &mut [u16], f1: &[u16], h1: &[u16], f2: &[u16], h2: &[u16])
    requires first { AllBelow F.Field.numbers.q f1.now }
    requires first_run { AllBelow F.Field.numbers.q h1.now }
    requires second { AllBelow F.Field.numbers.q f2.now }
    requires second_run { AllBelow F.Field.numbers.q h2.now }
    requires room { length f1.now + length h1.now ≤ length out.old + 1 }
    requires room_too { length f2.now + length h2.now ≤ length out.old + 1 }
    ensures { Reads F.Field.numbers out.new (located (ring_of F.Field.numbers) (poly F.Field.numbers h1.now) (poly F.Field.numbers h2.now) (poly F.Field.numbers f1.now) (poly F.Field.numbers f2.now)) }
{
    multiply_into::<F>(out, f1, h1);
    for (i, factor) in f2.iter().enumerate() {
        add_shifted_multiple::<F>(out, *factor, i, h2);
    }
}

// The values of p at the points, written to out.
pub fn values_at<F: Field>(out: &mut [u16], p: &[u16], points: &[u16])
    requires all { AllBelow F.Field.numbers.q p.now }
    requires points { AllBelow F.Field.numbers.q points.now }
    requires each { length out.old ≡ length points.now }
    ensures { Values F.Field.numbers p.now points.now out.new }
{
    // By index in out: what is written through a zip of `iter_mut` is not known to a proof.
    for (j, point) in points.iter().enumerate() {
        out[j] = evaluate::<F>(p, *point);
    }
}

// How many of the numbers are 0.
fn zeros(values: &[u16]) -> usize
    ensures { result ≡ count_by (λ x. x == 0) values.now }
{
    values.iter().filter(|value| **value == 0).count()
}

// Whether p has as many roots among the points as its degree; its values there are written to values.
pub fn splits<F: Field>(p: &[u16], points: &[u16], values: &mut [u16]) -> bool
    requires all { AllBelow F.Field.numbers.q p.now }
    requires points { AllBelow F.Field.numbers.q points.now }
    requires each { length values.old ≡ length points.now }
    ensures written { Values F.Field.numbers p.now points.now values.new }
    ensures yes { T result → Splits F.Field.numbers points.now (poly F.Field.numbers p.now) }
    ensures no { (T result → ⊥) → Splits F.Field.numbers points.now (poly F.Field.numbers p.now) → ⊥ }
{
    values_at::<F>(values, p, points);
    size::<F>(p) == zeros(values) + 1
}
