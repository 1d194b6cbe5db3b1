ghost use Rattle.std.specs.Prelude.{◌≡◌, length, take, IfOk};
ghost use Rattle.fields.specs.Numbers.{AllBelow};
ghost use Rattle.codes.specs.Opening.{fault_of};
ghost use Rattle.codes.specs.Codewords.{area_after};
ghost use Rattle.collections.specs.Standing.{standing};
ghost use Rattle.stages.specs.Basis.{basis as the_basis, runs};
ghost use Rattle.basis.specs.Found.{Finds};
ghost use Rattle.basis_call.specs.Calls.{basis_fault, basis_of, Weighs};

use crate::Weights;
use basis::{Basis, find_basis};
use collections::source::Source;
use collections::{Collection, Opened};
use faults::ListingFault;
use fields::Field;
use gathering::gather;
use received::Received;

// The basis of shares for the code and the radius that a collection was opened with.
fn basis_for<F: Field>(opened: &Opened, shares: &[u16]) -> Basis
    requires over { opened.now.code.q ≡ F.Field.numbers.q }
    requires all { AllBelow F.Field.numbers.q shares.now }
    requires told { length shares.now ≡ opened.now.code.count }
    ensures { Finds (the_basis F.Field.numbers (take opened.now.code.count opened.now.code.points) (take opened.now.code.count opened.now.code.multipliers) opened.now.code.threshold shares.now) opened.now.setting.radius result }
{
    let code = &opened.code;
    let received = Received::<F>::new(code.points(), code.multipliers(), shares);
    find_basis(
        &received,
        usize::from(code.threshold()),
        opened.setting.radius,
    )
}

// Writes S, h10, h11, h20 and h21 for the collection's code and the source's shares, d numbers each, the lowest coefficient first, and answers the weights.
pub fn write_basis<F: Field, S: Source>(
    collection: &Collection<F>,
    source: &S,
    out: &mut [u16],
) -> Result<Weights, ListingFault>
    ensures fault { fault_of result ≡ basis_fault F.Field.numbers.q (standing collection.now.kept) (S.Source.told source.now) (length out.old) }
    ensures area { out.new ≡ area_after (fault_of result) (runs (basis_of F.Field.numbers (standing collection.now.kept) (S.Source.told source.now))) out.old }
    ensures weights { IfOk result (Weighs F.Field.numbers (standing collection.now.kept) (S.Source.told source.now)) }
{
    let opened = *collection.opened()?;
    let n = opened.code.count();
    let shares = gather(source, n, F::Q)?;
    let length = out.len();
    if length < 5 * (n - usize::from(opened.code.threshold()) + 1) {
        return Err(ListingFault::ResultArea { length });
    }
    let basis = basis_for::<F>(&opened, &shares[..n]);
    basis.write(out);
    Ok(Weights {
        w1: basis.w1,
        w2: basis.w2,
    })
}
