ghost use Rattle.std.specs.Prelude.{◌≡◌, ℕ, ◌<◌, ◌≤◌, length, ◌≢◌};
ghost use Rattle.fields.specs.Numbers.{AllBelow, elem, plus, times};
ghost use Rattle.polynomials.specs.Series.{poly, value};
ghost use Rattle.sift.specs.Interpolation.{Distinct, Interpolates};

use fields::Field;
use polynomials::{add_multiple, clear, evaluate, mul_linear_in_place};

// The factor c for which p + c node has the value y at x, where node has no root.
fn factor<F: Field>(p: &[u16], node: &[u16], x: u16, y: u16) -> u16
    requires first { AllBelow F.Field.numbers.q p.now }
    requires second { AllBelow F.Field.numbers.q node.now }
    requires point { x < F.Field.numbers.q }
    requires aim { y < F.Field.numbers.q }
    requires apart { value F.Field.numbers (length node.now) (poly F.Field.numbers node.now) x ≢ elem F.Field.numbers 0 }
    ensures below { result < F.Field.numbers.q }
    ensures meets { plus F.Field.numbers (value F.Field.numbers (length p.now) (poly F.Field.numbers p.now) x) (times F.Field.numbers (elem F.Field.numbers result) (value F.Field.numbers (length node.now) (poly F.Field.numbers node.now) x)) ≡ elem F.Field.numbers y }
{
    let gap = F::add(y, F::neg(evaluate::<F>(p, x)));
    F::mul(gap, F::inv(evaluate::<F>(node, x)))
}

// The polynomial of a degree below the count of points that has the given values there, written to out: Newton's rule, one point more
// in each turn. In node stands the product of x - a over the points a so far.
pub fn interpolate<F: Field>(out: &mut [u16], points: &[u16], values: &[u16], node: &mut [u16])
    requires points { AllBelow F.Field.numbers.q points.now }
    requires values { AllBelow F.Field.numbers.q values.now }
    requires distinct { Distinct points.now }
    requires each { length values.now ≡ length points.now }
    requires room { length points.now < length node.old }
    requires wide { length node.old ≤ length out.old }
    ensures { Interpolates F.Field.numbers points.now values.now out.new }
{
    clear::<F>(out);
    clear::<F>(node);
    node[0] = 1;
    for (point, value) in points.iter().zip(values) {
        let c = factor::<F>(out, node, *point, *value);
        add_multiple::<F>(out, c, node);
        mul_linear_in_place::<F>(node, *point);
    }
}
