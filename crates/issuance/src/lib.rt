// Issuing a message by a share sheet: over the field and by the code that the sheet names.
#![tactic(auto)]

ghost use Rattle.std.specs.Prelude.{◌≡◌, length};
ghost use Rattle.issuance.specs.declared.IssueFault.TheVariants.{Sheet as by_sheet, Listing as by_listing};
ghost use Rattle.faults.specs.declared.SheetFault.TheVariants.{Collection as by_collection};
ghost use Rattle.faults.specs.declared.CollectionFault.TheVariants.{Code as by_code};

mod issuing;
mod lines;

use codes::Code;
use faults::{CodeFault, CollectionFault, ListingFault, SheetFault};
pub use issuing::issue_sheet;

// What refuses to issue: the sheet, or the message.
#[derive(Clone, Copy, PartialEq, Eq, Debug)]
pub enum IssueFault {
    Sheet(SheetFault),
    Listing(ListingFault),
}

// The conversions are by hand: what a derive writes has no contract, and the contracts here name the fault that `?` makes.
impl From<SheetFault> for IssueFault {
    ghost from_gives = { λ e r. r ≡ by_sheet e };

    fn from(e: SheetFault) -> IssueFault {
        IssueFault::Sheet(e)
    }
}

impl From<CodeFault> for IssueFault {
    ghost from_gives = { λ e r. r ≡ by_sheet (by_collection (by_code e)) };

    fn from(e: CodeFault) -> IssueFault {
        IssueFault::Sheet(SheetFault::Collection(CollectionFault::Code(e)))
    }
}

impl From<ListingFault> for IssueFault {
    ghost from_gives = { λ e r. r ≡ by_listing e };

    fn from(e: ListingFault) -> IssueFault {
        IssueFault::Listing(e)
    }
}

// The code of a sheet, and the codeword of a message at the front of an array, as long as any code: fixed memory, without a heap.
#[derive(Clone, Copy)]
pub struct Issued {
    field: u8,
    code: Code,
    word: [u16; 32],
    ghost room: { length word ≡ 32 },
}

// What one place is given.
#[derive(Clone, Copy, PartialEq, Eq, Debug)]
pub struct Share {
    place: usize,
    point: u16,
    multiplier: u16,
    share: u16,
}
