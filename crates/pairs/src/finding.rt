// From the basis of received shares to the pairs that are sifted.
ghost use Rattle.std.specs.Prelude.{◌≡◌, ◌≤◌, length, take};
ghost use Rattle.fields.specs.Numbers.{AllBelow};
ghost use Rattle.stages.specs.Basis.{basis as basis_of};
ghost use Rattle.basis.specs.Found.{Finds};
ghost use Rattle.interpolant.specs.Problems.{Enough};
ghost use Rattle.pairs.specs.Stage.{unit_pair, RootsOf, Fits, Listable, ToSift};

use basis::Basis;
use codes::Setting;
use fields::Field;
use interpolant::{Shape, interpolate_basis};
use interpolating::shape;
use leaves::Pair;
use received::Received;
use roots::{Question, list_roots};

// The pair f1 = 0, f2 = 1: its locator is h21 itself.
fn unit_pair() -> Pair
    ensures { result ≡ unit_pair }
{
    let first = [0; 32];
    let mut second = [0; 32];
    second[0] = 1;
    Pair { first, second }
}

// Lists the roots of an interpolant, which stands in the front of the work area.
fn interpolate_roots<F: Field>(
    shape: Shape,
    points: &[u16],
    h11: &[u16],
    h21: &[u16],
    pairs: &mut [Pair],
    work: &mut [u16],
) -> usize
    requires points { AllBelow F.Field.numbers.q points.now }
    requires first { AllBelow F.Field.numbers.q h11.now }
    requires second { AllBelow F.Field.numbers.q h21.now }
    requires enough { Enough shape (length points.now) }
    requires fits { Fits shape (length points.now) (length work.old) }
    requires records { shape.degree ≤ length pairs.old }
    ensures { RootsOf F.Field.numbers shape points.now h11.now h21.now result pairs.new }
{
    let count = shape.degree + 1;
    let (form, rest) = work.split_at_mut(count * shape.bound);
    let mut ranks = [0; 9];
    interpolate_basis::<F>(shape, points, h11, h21, form, rest, &mut ranks[..count]);
    let question = Question {
        form,
        degree: shape.degree,
        length: shape.bound,
        w1: shape.w1,
        w2: shape.w2,
    };
    list_roots::<F>(question, pairs, rest)
}

// Writes the pairs of the basis to the front of the area, and answers how many there are: none where w2 is negative, since then no codeword is within the
// radius, the pair (0, 1) where w1 is, and else the roots of an interpolant.
pub fn find_pairs<F: Field>(
    received: &Received<'_, F>,
    threshold: usize,
    setting: Setting,
    basis: &Basis,
    pairs: &mut [Pair],
    work: &mut [u16],
) -> usize
    requires given { Listable F.Field.numbers received.now.points.now received.now.multipliers.now threshold received.now.shares.now setting }
    requires found { Finds (basis_of F.Field.numbers received.now.points.now received.now.multipliers.now threshold received.now.shares.now) setting.radius basis.now }
    requires records { setting.list_limit ≤ length pairs.old }
    requires numbers { 32000 ≤ length work.old }
    ensures count { result ≤ setting.list_limit }
    ensures pairs { ToSift F.Field.numbers received.now.points.now received.now.multipliers.now threshold received.now.shares.now setting (take result pairs.new) }
{
    if basis.w2 < 0 {
        return 0;
    }
    if basis.w1 < 0 {
        pairs[0] = unit_pair();
        return 1;
    }
    interpolate_roots::<F>(
        shape(setting, basis.w1, basis.w2),
        received.points,
        &basis.h11[..basis.d],
        &basis.h21[..basis.d],
        pairs,
        work,
    )
}
