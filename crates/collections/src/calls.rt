ghost use Rattle.std.specs.Prelude.{◌≡◌};
ghost use Rattle.codes.specs.Opening.{given, fault_of};
ghost use Rattle.collections.specs.Book.{Right, unopened, blank_check, opening, entering, withdrawing, reading};
ghost use Rattle.collections.specs.Standing.{standing, said_place, Sound, Judged, TellsOpened};
ghost use Rattle.collections.specs.Single.{Sound-prop};

use crate::{Kept, Opened, Place};
use codes::Opening;
use faults::CollectionFault;
use fields::Field;
use std::marker::PhantomData;

// A collection of shares over the field F. Its code was checked against this field, and every value is an element of it.
#[derive(Drop)]
pub struct Collection<F: Field> {
    pub(crate) kept: Kept,
    field: PhantomData<F>,
    pub ghost sound: { Sound F.Field.numbers.q kept } by { Sound-prop F.Field.numbers.q kept },
}

impl<F: Field> Collection<F> {
    // A blank collection.
    pub fn new() -> Self
        ensures { standing result.kept ≡ unopened }
    {
        Collection {
            kept: Kept::new(),
            field: PhantomData,
        }
    }

    // Gives the collection its code and setting, once.
    pub fn open(&mut self, o: Opening<'_>) -> Result<(), CollectionFault>
        ensures { Judged F.Field.numbers.q self.old.kept (opening (given o.entry)) result self.new.kept }
    {
        self.kept.open(F::Q, o)
    }

    // Puts a value at a place; an equal value there already is accepted without effect.
    pub fn enter(&mut self, place: usize, value: u16) -> Result<(), CollectionFault>
        ensures { Judged F.Field.numbers.q self.old.kept (entering place value) result self.new.kept }
    {
        self.kept.enter(F::Q, place, value)
    }

    // Empties a place.
    pub fn withdraw(&mut self, place: usize) -> Result<(), CollectionFault>
        ensures { Judged F.Field.numbers.q self.old.kept (withdrawing place) result self.new.kept }
    {
        self.kept.withdraw(place)
    }

    // What a place has.
    pub fn read(&self, place: usize) -> Result<Place, CollectionFault>
        ensures { Right F.Field.numbers.q (standing self.now.kept) (reading place) (said_place result) (standing self.now.kept) }
    {
        self.kept.read(place)
    }

    // Refuses a collection that is open.
    pub fn still_blank(&self) -> Result<(), CollectionFault>
        ensures { fault_of result ≡ blank_check (standing self.now.kept) }
    {
        self.kept.still_blank()
    }

    // What the collection was opened with, refused while it is blank.
    pub fn opened(&self) -> Result<&Opened, CollectionFault>
        ensures { TellsOpened self.now.kept result }
    {
        self.kept.opened()
    }
}
