// Listing: every message whose codeword is within the radius of the shares that a source tells, with the code and the setting of an open collection. The shares
// are gathered and the areas measured first; then the stages are run one after another, by numbers alone.
#![tactic(auto)]

ghost use Rattle.std.specs.Prelude.{◌≡◌, ◌≤◌, length, take, None};
ghost use Rattle.areas.specs.Zeros.{AllZero};
ghost use Rattle.fields.specs.Numbers.{AllBelow};
ghost use Rattle.codes.specs.Opening.{first_fault, fault_of};
ghost use Rattle.collections.specs.Standing.{given_of, standing};
ghost use Rattle.listings.specs.Calls.{area_fault, listing_fault, Outcome, Answered};

use areas::Wipe;
use candidates::Candidate;
use collections::source::Source;
use collections::{Collection, Opened};
use faults::ListingFault;
use fields::Field;
use gathering::gather;
use interpolating::check_areas;
use pairs::list_shares;
use received::Received;

// Lists all codewords within the radius of the shares, where both areas are long enough.
fn list_opened<F: Field>(
    opened: &Opened,
    shares: &[u16],
    out: &mut [Candidate],
    work: &mut [u16],
) -> Result<usize, ListingFault>
    requires passed { first_fault F.Field.numbers.q (given_of opened.now) ≡ None }
    requires below { AllBelow F.Field.numbers.q shares.now }
    requires told { length shares.now ≡ length (given_of opened.now).points }
    ensures fault { fault_of result ≡ area_fault (length (given_of opened.now).points) opened.now.setting (length out.old) (length work.old) }
    ensures area { Outcome F.Field.numbers (given_of opened.now) shares.now result out.old out.new }
{
    let code = &opened.code;
    let points = code.points();
    let wanted = usize::from(opened.setting.list_limit);
    check_areas(
        points.len() as u8,
        opened.setting,
        wanted,
        out.len(),
        work.len(),
    )?;
    let received = Received::<F>::new(points, code.multipliers(), shares);
    Ok(list_shares(received, code.threshold(), opened.setting, out, work))
}

// Lists all codewords within the radius of the source's shares, each with its message and its distance, in dictionary order of the words, and answers how many
// there are. Blank records follow them in the result area. The work area is overwritten with zeros on every way out.
pub fn list<F: Field, S: Source>(
    collection: &Collection<F>,
    source: &S,
    out: &mut [Candidate],
    work: &mut [u16],
) -> Result<usize, ListingFault>
    ensures fault { fault_of result ≡ listing_fault F.Field.numbers.q (standing collection.now.kept) (S.Source.told source.now) (length out.old) (length work.old) }
    ensures area { Answered F.Field.numbers (standing collection.now.kept) (S.Source.told source.now) result out.old out.new }
    ensures wiped { AllZero work.new }
{
    let guard = Wipe { area: work };
    let opened = collection.opened()?;
    let n = opened.code.count();
    let shares = gather(source, n, F::Q)?;
    list_opened::<F>(opened, &shares[..n], out, guard.area)
}
