#![tactic(auto)]

ghost use Rattle.std.specs.Prelude.{◌≡◌};
ghost use Rattle.faults.specs.declared.CollectionFault.TheVariants.{Code as the_code};
ghost use Rattle.faults.specs.declared.ListingFault.TheVariants.{Collection as the_collection};
ghost use Rattle.faults.specs.declared.SheetFault.TheVariants.{Collection as the_loaded};

mod refusals;
mod shown;

// Which part of the engine refuses.
#[derive(Clone, Copy, PartialEq, Eq, Debug)]
pub enum Layer {
    Code,
    Collection,
    Listing,
    Sheet,
}

// What a refusal says to its reader. The number is part of the format that readers of answers and lines go by.
#[derive(Clone, Copy, PartialEq, Eq, Debug)]
pub struct Refusal {
    pub number: u8,
    pub place: usize,
    pub layer: Layer,
}

// What is wrong with a code or a setting.
#[derive(Clone, Copy, PartialEq, Eq, Debug)]
pub enum CodeFault {
    PlaceCount {
        points: usize,
        multipliers: usize,
    },
    Threshold {
        threshold: u8,
    },
    Point {
        place: usize,
    },
    RepeatedPoint {
        place: usize,
    },
    Multiplier {
        place: usize,
    },
    Setting {
        radius: u8,
        multiplicity: u8,
        list_limit: u8,
    },
    NoSetting,
}

// What is wrong with a call of a collection.
#[derive(Clone, Copy, PartialEq, Eq, Debug)]
pub enum CollectionFault {
    Blank,
    AlreadyOpen,
    Code(CodeFault),
    NoSuchPlace { place: usize },
    NotAnElement { place: usize, value: u16 },
    OtherValue { place: usize, held: u16 },
    NothingThere { place: usize },
}

// What is wrong with a listing or with one of its stages.
#[derive(Clone, Copy, PartialEq, Eq, Debug)]
pub enum ListingFault {
    Collection(CollectionFault),
    SourceCount { count: usize },
    EmptyPlace { place: usize },
    NotAnElement { place: usize, value: u16 },
    NegativeWeight,
    ResultArea { length: usize },
    WorkArea { length: usize },
    ZeroForm,
    MessageLength { length: usize },
    Shape,
}

// What is wrong with a sheet, or with loading it.
#[derive(Clone, Copy, PartialEq, Eq, Debug)]
pub enum SheetFault {
    Version,
    Length,
    OtherField { number: u8 },
    Collection(CollectionFault),
}

// The conversions are by hand: what a derive writes has no contract, and the contracts of the callers name the fault that `?` makes.
impl From<CodeFault> for CollectionFault {
    ghost from_gives = { λ e r. r ≡ the_code e };

    fn from(e: CodeFault) -> CollectionFault {
        CollectionFault::Code(e)
    }
}

impl From<CollectionFault> for ListingFault {
    ghost from_gives = { λ e r. r ≡ the_collection e };

    fn from(e: CollectionFault) -> ListingFault {
        ListingFault::Collection(e)
    }
}

impl From<CollectionFault> for SheetFault {
    ghost from_gives = { λ e r. r ≡ the_loaded e };

    fn from(e: CollectionFault) -> SheetFault {
        SheetFault::Collection(e)
    }
}

impl From<CodeFault> for SheetFault {
    ghost from_gives = { λ e r. r ≡ the_loaded (the_code e) };

    fn from(e: CodeFault) -> SheetFault {
        SheetFault::Collection(CollectionFault::Code(e))
    }
}
