#![tactic(auto)]

ghost use Rattle.std.specs.Prelude.{◌≡◌};
ghost use Rattle.runs.specs.declared.CallFault.TheVariants.{Collection as by_collection, Sheet as by_sheet, Listing as by_listing};
ghost use Rattle.runs.specs.Faults.{call_refusal};
ghost use Rattle.runs.specs.Law.{found};

pub mod calls;
#[cfg(test)]
mod tests;
pub mod theorems;

use candidates::Candidate;
use codes::Opening;
use collections::Place;
use faults::{CollectionFault, ListingFault, Refusal, SheetFault};

// A call on a collection. A listing has a result area of so many records and a work area of so many numbers, as far as the run has them.
#[derive(Clone, Copy)]
pub enum Call<'a> {
    Open(Opening<'a>),
    Load(&'a [u8]),
    Enter { place: usize, value: u16 },
    Withdraw { place: usize },
    Read { place: usize },
    List { records: usize, numbers: usize },
}

// The candidates of a listing: the first `count` of the records. No accepted setting has a list limit above 8.
// A count beside an array: nothing here stands on the heap.
#[derive(Clone, Copy)]
pub struct Found {
    pub count: usize,
    pub records: [Candidate; 8],
}

impl Found {
    // The candidates, all records if there are not so many.
    pub fn candidates(&self) -> &[Candidate]
        ensures { result.now ≡ found self.now }
    {
        &self.records[..self.count.min(8)]
    }
}

// What an accepted call answers.
#[derive(Clone, Copy)]
pub enum Outcome {
    Done,
    Told(Place),
    Listed(Found),
}

// What refuses a call: the collection, the sheet that was to be loaded, or the listing.
#[derive(Clone, Copy)]
pub enum CallFault {
    Collection(CollectionFault),
    Sheet(SheetFault),
    Listing(ListingFault),
}

// What a call answers.
pub type Answer = Result<Outcome, CallFault>;

// By hand, like the two below: a derived conversion has no contract.
impl From<CollectionFault> for CallFault {
    ghost from_gives = { λ e r. r ≡ by_collection e };

    fn from(fault: CollectionFault) -> CallFault {
        CallFault::Collection(fault)
    }
}

impl From<SheetFault> for CallFault {
    ghost from_gives = { λ e r. r ≡ by_sheet e };

    fn from(fault: SheetFault) -> CallFault {
        CallFault::Sheet(fault)
    }
}

impl From<ListingFault> for CallFault {
    ghost from_gives = { λ e r. r ≡ by_listing e };

    fn from(fault: ListingFault) -> CallFault {
        CallFault::Listing(fault)
    }
}

impl CallFault {
    // The number, the place and the layer of the fault.
    pub fn refusal(self) -> Refusal
        ensures { result ≡ call_refusal self }
    {
        match self {
            CallFault::Collection(e) => e.refusal(),
            CallFault::Sheet(e) => e.refusal(),
            CallFault::Listing(e) => e.refusal(),
        }
    }
}
