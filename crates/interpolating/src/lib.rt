// Interpolating as a public call: from the shares of a source to the interpolant, in a lent area.
#![tactic(auto)]

ghost use Rattle.std.specs.Prelude.{◌≡◌, suc, ◌+◌, ◌*◌, ◌≤◌, length, take, drop, pos, ◌≤ℤ◌, IfOk};
ghost use Rattle.areas.specs.Zeros.{AllZero};
ghost use Rattle.fields.specs.Numbers.{AllBelow};
ghost use Rattle.codes.specs.Opening.{fault_of};
ghost use Rattle.decoding.specs.Setting.{Accepted};
ghost use Rattle.collections.specs.Standing.{standing};
ghost use Rattle.interpolant.specs.Problems.{basis_problem, Solution, Decodes, Enough, room as cells};
ghost use Rattle.interpolating.specs.Interpolation.{shape_of, weight_fault, room_fault, shares_fault, Written, interpolating_fault, WrittenBy};

use areas::Wipe;
use basis::{Basis, find_basis};
use codes::Setting;
use collections::Collection;
use collections::source::Source;
use faults::ListingFault;
use fields::Field;
use gathering::gather;
use interpolant::{Shape, interpolate_basis};
use received::Received;

// The shape of the interpolant, where neither weight is negative.
pub fn shape(setting: Setting, w1: i16, w2: i16) -> Shape
    requires first { pos 0 ≤ℤ w1 }
    requires second { pos 0 ≤ℤ w2 }
    ensures { result ≡ shape_of setting w1 w2 }
{
    let multiplicity = usize::from(setting.multiplicity);
    Shape {
        degree: usize::from(setting.list_limit),
        multiplicity,
        w1: w1 as usize,
        w2: w2 as usize,
        bound: multiplicity * usize::from(setting.radius),
    }
}

// The same, refused if a weight is negative.
fn weigh(setting: Setting, basis: &Basis) -> Result<Shape, ListingFault>
    ensures fault { fault_of result ≡ weight_fault basis.now.w1 basis.now.w2 }
    ensures shape { IfOk result (λ s. s ≡ shape_of setting basis.now.w1 basis.now.w2) }
{
    if basis.w1 < 0 || basis.w2 < 0 {
        return Err(ListingFault::NegativeWeight);
    }
    Ok(shape(setting, basis.w1, basis.w2))
}

// Refuses a result area that has less than is wanted, and then a work area that is too short for a code of n places.
pub fn check_areas(
    n: u8,
    setting: Setting,
    wanted: usize,
    out: usize,
    work: usize,
) -> Result<(), ListingFault>
    ensures { fault_of result ≡ room_fault n setting wanted out work }
{
    if out < wanted {
        return Err(ListingFault::ResultArea { length: out });
    }
    if work < setting.work_area(n) {
        return Err(ListingFault::WorkArea { length: work });
    }
    Ok(())
}

// Writes the interpolant to the front of the area.
fn write<F: Field>(
    shape: Shape,
    points: &[u16],
    h11: &[u16],
    h21: &[u16],
    out: &mut [u16],
    work: &mut [u16],
)
    requires points { AllBelow F.Field.numbers.q points.now }
    requires first { AllBelow F.Field.numbers.q h11.now }
    requires second { AllBelow F.Field.numbers.q h21.now }
    requires degree { shape.degree ≤ 8 }
    requires size { suc shape.degree * shape.bound ≤ length out.old }
    requires space { length points.now + length points.now + cells shape ≤ length work.old }
    requires enough { Enough shape (length points.now) }
    ensures solution { Solution F.Field.numbers (basis_problem F.Field.numbers shape points.now h11.now h21.now) (length points.now) shape.multiplicity (take (suc shape.degree * shape.bound) out.new) }
    ensures decodes { Decodes F.Field.numbers shape points.now h11.now h21.now (take (suc shape.degree * shape.bound) out.new) }
    ensures rest { drop (suc shape.degree * shape.bound) out.new ≡ drop (suc shape.degree * shape.bound) out.old }
{
    let count = shape.degree + 1;
    let mut ranks = [0; 9];
    interpolate_basis::<F>(
        shape,
        points,
        h11,
        h21,
        &mut out[0..count * shape.bound],
        work,
        &mut ranks[..count],
    );
}

// Interpolates the shares of a code: the basis first, then the checks of weights and areas.
fn interpolate_shares<F: Field>(
    received: &Received<'_, F>,
    threshold: u8,
    setting: Setting,
    out: &mut [u16],
    work: &mut [u16],
) -> Result<(), ListingFault>
    requires short { length received.now.points.now ≤ 32 }
    requires accepted { Accepted (length received.now.points.now) threshold setting.radius setting.multiplicity setting.list_limit }
    ensures fault { fault_of result ≡ shares_fault F.Field.numbers received.now.points.now received.now.multipliers.now threshold setting received.now.shares.now (length out.old) (length work.old) }
    ensures area { Written F.Field.numbers received.now.points.now received.now.multipliers.now threshold setting received.now.shares.now result out.old out.new }
{
    let points = received.points;
    let basis = find_basis(received, usize::from(threshold), setting.radius);
    let shape = weigh(setting, &basis)?;
    let wanted = (shape.degree + 1) * shape.bound;
    check_areas(points.len() as u8, setting, wanted, out.len(), work.len())?;
    write::<F>(
        shape,
        points,
        &basis.h11[..basis.d],
        &basis.h21[..basis.d],
        out,
        work,
    );
    Ok(())
}

// Writes an interpolant for the shares of the source, as list_limit + 1 runs of multiplicity times radius numbers, with the code and setting of the
// collection. The work area is overwritten with zeros on every way out.
pub fn interpolate<F: Field, S: Source>(
    collection: &Collection<F>,
    source: &S,
    out: &mut [u16],
    work: &mut [u16],
) -> Result<(), ListingFault>
    ensures fault { fault_of result ≡ interpolating_fault F.Field.numbers (standing collection.now.kept) (S.Source.told source.now) (length out.old) (length work.old) }
    ensures area { WrittenBy F.Field.numbers (standing collection.now.kept) (S.Source.told source.now) result out.old out.new }
    ensures wiped { AllZero work.new }
{
    let guard = Wipe { area: work };
    let opened = collection.opened()?;
    let code = &opened.code;
    let n = code.count();
    let shares = gather(source, n, F::Q)?;
    let received = Received::<F>::new(code.points(), code.multipliers(), &shares[..n]);
    interpolate_shares(&received, code.threshold(), opened.setting, out, guard.area)
}
