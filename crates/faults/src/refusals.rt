ghost use Rattle.std.specs.Prelude.{◌≡◌};
ghost use Rattle.faults.specs.Faults.{code_refusal, collection_refusal, listing_refusal, sheet_refusal, sheet_byte, code_byte, collection_byte, refusal};

use crate::{CodeFault, CollectionFault, Layer, ListingFault, Refusal, SheetFault};

// A match for each enum, since the numbers are the format's and follow no rule.
fn refused(number: u8, place: usize, layer: Layer) -> Refusal
    ensures { result ≡ refusal number place layer }
{
    Refusal {
        number,
        place,
        layer,
    }
}

impl CodeFault {
    // The number, the place and the layer of the fault.
    pub fn refusal(self) -> Refusal
        ensures { result ≡ code_refusal self }
    {
        match self {
            CodeFault::PlaceCount { .. } => refused(1, 0, Layer::Code),
            CodeFault::Threshold { .. } => refused(2, 0, Layer::Code),
            CodeFault::Point { place } => refused(3, place, Layer::Code),
            CodeFault::RepeatedPoint { place } => refused(4, place, Layer::Code),
            CodeFault::Multiplier { place } => refused(5, place, Layer::Code),
            CodeFault::Setting { .. } => refused(6, 0, Layer::Code),
            CodeFault::NoSetting => refused(12, 0, Layer::Code),
        }
    }

    // Where in a sheet the fault stands.
    fn byte(self) -> u128
        ensures { result ≡ code_byte self }
    {
        match self {
            CodeFault::PlaceCount { .. } => 4,
            CodeFault::Threshold { .. } => 5,
            CodeFault::Point { place } => 9 + 6 * place as u128,
            CodeFault::RepeatedPoint { place } => 9 + 6 * place as u128,
            CodeFault::Multiplier { place } => 11 + 6 * place as u128,
            CodeFault::Setting { .. } => 6,
            CodeFault::NoSetting => 0,
        }
    }
}

impl CollectionFault {
    // The number, the place and the layer of the fault.
    pub fn refusal(self) -> Refusal
        ensures { result ≡ collection_refusal self }
    {
        match self {
            CollectionFault::Blank => refused(20, 0, Layer::Collection),
            CollectionFault::AlreadyOpen => refused(21, 0, Layer::Collection),
            CollectionFault::Code(e) => e.refusal(),
            CollectionFault::NoSuchPlace { place } => refused(7, place, Layer::Collection),
            CollectionFault::NotAnElement { place, .. } => refused(8, place, Layer::Collection),
            CollectionFault::OtherValue { place, .. } => refused(22, place, Layer::Collection),
            CollectionFault::NothingThere { place } => refused(23, place, Layer::Collection),
        }
    }

    // Where in a sheet the fault stands.
    fn byte(self) -> u128
        ensures { result ≡ collection_byte self }
    {
        match self {
            CollectionFault::Code(e) => e.byte(),
            CollectionFault::NotAnElement { place, .. } => 13 + 6 * place as u128,
            _ => 0,
        }
    }
}

impl ListingFault {
    // The number, the place and the layer of the fault.
    pub fn refusal(self) -> Refusal
        ensures { result ≡ listing_refusal self }
    {
        match self {
            ListingFault::Collection(e) => e.refusal(),
            ListingFault::SourceCount { .. } => refused(9, 0, Layer::Listing),
            ListingFault::EmptyPlace { place } => refused(24, place, Layer::Listing),
            ListingFault::NotAnElement { place, .. } => refused(8, place, Layer::Listing),
            ListingFault::NegativeWeight => refused(25, 0, Layer::Listing),
            ListingFault::ResultArea { .. } => refused(10, 0, Layer::Listing),
            ListingFault::WorkArea { .. } => refused(11, 0, Layer::Listing),
            ListingFault::ZeroForm => refused(16, 0, Layer::Listing),
            ListingFault::MessageLength { .. } => refused(17, 0, Layer::Listing),
            ListingFault::Shape => refused(17, 0, Layer::Listing),
        }
    }
}

impl SheetFault {
    // The number, the place and the layer of the fault.
    pub fn refusal(self) -> Refusal
        ensures { result ≡ sheet_refusal self }
    {
        match self {
            SheetFault::Version => refused(13, 0, Layer::Sheet),
            SheetFault::Length => refused(14, 1, Layer::Sheet),
            SheetFault::OtherField { .. } => refused(15, 3, Layer::Sheet),
            SheetFault::Collection(e) => e.refusal(),
        }
    }

    // The byte of the sheet at which the fault stands.
    pub fn byte(self) -> u128
        ensures { result ≡ sheet_byte self }
    {
        match self {
            SheetFault::Version => 0,
            SheetFault::Length => 1,
            SheetFault::OtherField { .. } => 3,
            SheetFault::Collection(e) => e.byte(),
        }
    }
}
