// The walk: every series of digits, each allowed after those before it.
ghost use Rattle.std.specs.Prelude.{◌≡◌, ℕ, ◌+◌, ◌<◌, ◌≤◌, List, length, take};
ghost use Rattle.fields.specs.Numbers.{AllBelow};
ghost use Rattle.digits.specs.Runs.{runs as runs_of, Held};
ghost use Rattle.digits.specs.Walks.{Taken, Walked, Ends};

use super::Shape;
use super::digit::{next_digit, root_range};
use super::shifting::shift;
use fields::Field;
use polynomials::evaluate;

// What is done with each series.
pub trait Leaf {
    // The digits that may be handed to a leaf.
    ghost takes: { Self → List ℕ → Type 0 };

    // A visit: the leaf before it, the digits, and the leaf after it.
    ghost visits: { Self → List ℕ → Self → Type 0 };

    fn visit(&mut self, digits: &[u16])
        requires { takes self.old digits.now }
        ensures visited { visits self.old digits.now self.new }
        ensures kept { (ds : List ℕ) → takes self.old ds → takes self.new ds };
}

// Visits each series that goes on from the first t digits, and leaves the runs as they were.
pub fn walk<F: Field, L: Leaf>(
    runs: &mut [u16],
    shape: Shape,
    digits: &mut [u16],
    t: usize,
    leaf: &mut L,
)
    requires held { Held F.Field.numbers shape runs.old }
    requires few { shape.degree < 9 }
    requires place { t ≤ length digits.old }
    requires deep { length digits.old ≤ shape.depth }
    requires all { AllBelow F.Field.numbers.q digits.old }
    requires takes { Taken F.Field.numbers L.Leaf.takes (length digits.old) leaf.old }
    ensures held { Held F.Field.numbers shape runs.new }
    ensures same { runs_of F.Field.numbers shape.width runs.new ≡ runs_of F.Field.numbers shape.width runs.old }
    ensures front { take t digits.new ≡ take t digits.old }
    ensures all { AllBelow F.Field.numbers.q digits.new }
    ensures takes { Taken F.Field.numbers L.Leaf.takes (length digits.old) leaf.new }
    ensures walked { Walked L.Leaf.visits (Ends F.Field.numbers shape.degree (length digits.old) t (take t digits.old) (runs_of F.Field.numbers shape.width runs.old)) leaf.old leaf.new }
{
    if t == digits.len() {
        leaf.visit(digits);
        return;
    }
    let polynomial = next_digit::<F>(runs, shape, t);
    let range = root_range::<F>(&polynomial);
    // By its ends, so that what holds after a digit can be said of the digit.
    for e in range.start..range.end {
        if evaluate::<F>(&polynomial, e) == 0 {
            digits[t] = e;
            shift::<F>(runs, shape, e, t);
            walk::<F, L>(runs, shape, digits, t + 1, leaf);
            shift::<F>(runs, shape, F::neg(e), t);
        }
    }
}
