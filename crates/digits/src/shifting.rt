// The coefficients of Q (y + e x^t), in the place of those of Q.
ghost use Rattle.std.specs.Prelude.{◌≡◌, ℕ, suc, ◌+◌, ◌-◌, ◌*◌, ◌<◌, ◌≤◌, length, take, drop};
ghost use Rattle.algebra.specs.Poly.{conv};
ghost use Rattle.algebra.specs.PolyRing.{Poly};
ghost use Rattle.algebra.specs.Taylor.{taylor};
ghost use Rattle.algebra.proofs.Sweep.{sweep as swept};
ghost use Rattle.fields.specs.Numbers.{AllBelow, elem, ring_of};
ghost use Rattle.polynomials.specs.Series.{poly, Reads, plus_shifted};
ghost use Rattle.digits.specs.Runs.{runs as runs_of, term, Held};

use super::Shape;
use fields::Field;
use polynomials::add_shifted_multiple;

// Adds e x^t times the first `size` numbers of the second run to the first run.
fn add_next<F: Field>(runs: &mut [u16], width: usize, size: usize, e: u16, t: usize)
    requires digit { e < F.Field.numbers.q }
    requires all { AllBelow F.Field.numbers.q runs.old }
    requires room { t + size ≤ width }
    requires long { width + size ≤ length runs.old }
    ensures first { Reads F.Field.numbers (take width runs.new) (plus_shifted F.Field.numbers (poly F.Field.numbers (take width runs.old)) e t (poly F.Field.numbers (take size (drop width runs.old)))) }
    ensures rest { drop width runs.new ≡ drop width runs.old }
{
    let (run, next) = runs.split_at_mut(width);
    add_shifted_multiple::<F>(run, e, t, &next[..size]);
}

// One pass T_b += e x^t T_(b+1), from the last run but one to the first.
fn sweep<F: Field>(runs: &mut [u16], shape: Shape, e: u16, t: usize)
    requires digit { e < F.Field.numbers.q }
    requires place { t ≤ shape.depth }
    requires held { Held F.Field.numbers shape runs.old }
    ensures held { Held F.Field.numbers shape runs.new }
    ensures is { runs_of F.Field.numbers shape.width runs.new ≡ swept (Poly (ring_of F.Field.numbers)) (term (ring_of F.Field.numbers) (elem F.Field.numbers e) t) shape.degree (runs_of F.Field.numbers shape.width runs.old) }
{
    if shape.degree == 0 {
        return;
    }
    let width = shape.width;
    let rest = shape.rest();
    sweep::<F>(&mut runs[width..], rest, e, t);
    add_next::<F>(runs, width, rest.size, e, t);
}

// The coefficients of Q (y + e x^t), in the place of those of Q.
pub(crate) fn shift<F: Field>(runs: &mut [u16], shape: Shape, e: u16, t: usize)
    requires digit { e < F.Field.numbers.q }
    requires place { t ≤ shape.depth }
    requires held { Held F.Field.numbers shape runs.old }
    ensures held { Held F.Field.numbers shape runs.new }
    ensures is { runs_of F.Field.numbers shape.width runs.new ≡ taylor (Poly (ring_of F.Field.numbers)) (suc shape.degree) (term (ring_of F.Field.numbers) (elem F.Field.numbers e) t) (runs_of F.Field.numbers shape.width runs.old) }
{
    if shape.degree == 0 {
        return;
    }
    sweep::<F>(runs, shape, e, t);
    let width = shape.width;
    shift::<F>(&mut runs[width..], shape.rest(), e, t);
}
