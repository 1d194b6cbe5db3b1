ghost use Rattle.std.specs.Prelude.{◌≡◌, min, map, length, take, drop};
ghost use Rattle.areas.specs.Zeros.{AllZero};
ghost use Rattle.collections.specs.Standing.{standing, shares};
ghost use Rattle.listings.specs.Calls.{listing_fault};
ghost use Rattle.runs.specs.Law.{RightList, ListedBy, Answered, WorkAfter, Runs, reply, listing_reply};
ghost use Rattle.runs.specs.History.{Law};
ghost use Rattle.runs.specs.Kinds.{Befits, EachBefits};

use crate::{Answer, Call, Found, Outcome};
use areas::Wipe;
use candidates::Candidate;
use collections::Collection;
use faults::ListingFault;
use fields::Field;

// Lists the collection's own shares, into as many of the records as the answer has.
fn list_own<F: Field>(
    c: &Collection<F>,
    records: usize,
    work: &mut [u16],
) -> Result<Found, ListingFault>
    ensures { RightList F.Field.numbers (standing c.now.kept) (listing_fault F.Field.numbers.q (standing c.now.kept) (shares (standing c.now.kept)) records (length work.old)) (listing_reply result) }
{
    let mut out = [Candidate::BLANK; 8];
    let room = records.min(8);
    let count = recovery::list(c, c, &mut out[..room], work)?;
    Ok(Found {
        count,
        records: out,
    })
}

// The same in as many numbers of the work area as it has, which is all zero afterwards.
fn list_within<F: Field>(
    c: &Collection<F>,
    records: usize,
    numbers: usize,
    work: &mut [u16],
) -> Result<Found, ListingFault>
    ensures law { ListedBy F.Field.numbers (standing c.now.kept) records (min numbers (length work.old)) (listing_reply result) (standing c.now.kept) }
    ensures wiped { AllZero work.new }
{
    let guard = Wipe { area: work };
    let room = numbers.min(guard.area.len());
    list_own(c, records, &mut guard.area[..room])
}

// Makes one call. By a match over an enum, since a run is a list of calls and the law speaks of each.
pub fn perform<F: Field>(c: &mut Collection<F>, call: Call<'_>, work: &mut [u16]) -> Answer
    ensures law { Answered F.Field.numbers.q F.Field.numbers F.Field.SHEET_NUMBER (length work.old) (standing c.old.kept) call.entry (reply result) (standing c.new.kept) }
    ensures kind { Befits call.entry result }
    ensures area { WorkAfter call.entry work.old work.new }
{
    match call {
        Call::Open(opening) => c.open(opening)?,
        Call::Load(bytes) => transfer::load(c, bytes)?,
        Call::Enter { place, value } => c.enter(place, value)?,
        Call::Withdraw { place } => c.withdraw(place)?,
        Call::Read { place } => return Ok(Outcome::Told(c.read(place)?)),
        Call::List { records, numbers } => {
            return Ok(Outcome::Listed(list_within(c, records, numbers, work)?));
        }
    }
    Ok(Outcome::Done)
}

// Makes the calls in order and writes the answer of each, as many as there is room for; answers how many.
pub fn run<F: Field>(
    c: &mut Collection<F>,
    calls: &[Call<'_>],
    answers: &mut [Answer],
    work: &mut [u16],
) -> usize
    ensures count { result ≡ min (length calls.now) (length answers.old) }
    ensures runs { Runs F.Field.numbers.q F.Field.numbers F.Field.SHEET_NUMBER (length work.old) (standing c.old.kept) (take result calls.now) (map reply (take result answers.new)) (standing c.new.kept) }
    ensures kinds { EachBefits (take result calls.now) (take result answers.new) }
    ensures rest { drop result answers.new ≡ drop result answers.old }
    ensures wiped { AllZero work.new }
{
    let guard = Wipe { area: work };
    let made = calls.len().min(answers.len());
    // Not zipped with the answers: a proof knows nothing of what is written through such a zip.
    for (i, call) in calls[..made].iter().enumerate() {
        answers[i] = perform(c, *call, guard.area);
    }
    made
}

// The same on a blank collection, which is returned as the calls left it. It asks nothing, and its answers obey the whole law.
pub fn run_blank<F: Field>(
    calls: &[Call<'_>],
    answers: &mut [Answer],
    work: &mut [u16],
) -> Collection<F>
    ensures law { let made = min (length calls.now) (length answers.old) in Law F.Field.numbers F.Field.SHEET_NUMBER (length work.old) (take made calls.now) (map reply (take made answers.new)) (standing result.kept) }
    ensures kinds { let made = min (length calls.now) (length answers.old) in EachBefits (take made calls.now) (take made answers.new) }
    ensures rest { let made = min (length calls.now) (length answers.old) in drop made answers.new ≡ drop made answers.old }
    ensures wiped { AllZero work.new }
{
    let mut c = Collection::<F>::new();
    run(&mut c, calls, answers, work);
    c
}
