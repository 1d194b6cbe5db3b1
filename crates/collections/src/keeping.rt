ghost use Rattle.std.specs.Prelude.{◌≡◌, ℕ, None};
ghost use Rattle.codes.specs.Opening.{given, fault_of};
ghost use Rattle.collections.specs.Book.{unopened, blank_check, place_check, putting, opening, entering, withdrawing};
ghost use Rattle.collections.specs.Standing.{standing, opened_in, Sound, Judged, TellsPage, TellsOpened, TellsPlace};

use crate::{Kept, Opened, Page, Place, Places};
use codes::Opening;
use faults::CollectionFault;

impl Kept {
    pub(crate) fn new() -> Self
        ensures { standing result ≡ unopened }
    {
        Kept { page: None }
    }

    fn page(&self) -> Result<&Page, CollectionFault>
        ensures { TellsPage self.now result }
    {
        self.page.as_ref().ok_or(CollectionFault::Blank)
    }

    // What the collection was opened with.
    pub(crate) fn opened(&self) -> Result<&Opened, CollectionFault>
        ensures { TellsOpened self.now result }
    {
        Ok(&self.page()?.opened)
    }

    // Refuses a collection that is open.
    pub(crate) fn still_blank(&self) -> Result<(), CollectionFault>
        ensures { fault_of result ≡ blank_check (standing self.now) }
    {
        match self.page {
            Some(_) => Err(CollectionFault::AlreadyOpen),
            None => Ok(()),
        }
    }

    // What a place has.
    pub(crate) fn read(&self, place: usize) -> Result<Place, CollectionFault>
        ensures { TellsPlace (standing self.now) place result }
    {
        let page = self.page()?;
        if place >= page.opened.code.count() {
            return Err(CollectionFault::NoSuchPlace { place });
        }
        Ok(page.places.get(place))
    }

    // Writes what a place has.
    fn put(&mut self, place: usize, x: Place)
        requires { place_check (standing self.old) place ≡ None }
        ensures book { standing self.new ≡ putting (standing self.old) place x }
        ensures opened { opened_in self.new.page ≡ opened_in self.old.page }
    {
        if let Some(page) = &mut self.page {
            page.places.put(place, x);
        }
    }

    pub(crate) fn open(&mut self, q: u16, o: Opening<'_>) -> Result<(), CollectionFault>
        ensures judged { Judged q self.old (opening (given o.entry)) result self.new }
        ensures sound { Sound q self.old → Sound q self.new }
    {
        self.still_blank()?;
        let code = o.check(q)?;
        let opened = Opened {
            code,
            setting: o.setting,
        };
        self.page = Some(Page {
            opened,
            places: Places::new(),
        });
        Ok(())
    }

    pub(crate) fn enter(&mut self, q: u16, place: usize, value: u16) -> Result<(), CollectionFault>
        ensures judged { Judged q self.old (entering place value) result self.new }
        ensures sound { Sound q self.old → Sound q self.new }
    {
        let found = self.read(place)?;
        if value >= q {
            return Err(CollectionFault::NotAnElement { place, value });
        }
        match found {
            Place::Filled(held) => {
                if held != value {
                    return Err(CollectionFault::OtherValue { place, held });
                }
            }
            Place::Empty => self.put(place, Place::Filled(value)),
        }
        Ok(())
    }

    pub(crate) fn withdraw(&mut self, place: usize) -> Result<(), CollectionFault>
        ensures judged { (q : ℕ) → Judged q self.old (withdrawing place) result self.new }
        ensures sound { (q : ℕ) → Sound q self.old → Sound q self.new }
    {
        match self.read(place)? {
            Place::Filled(_) => {
                self.put(place, Place::Empty);
                Ok(())
            }
            Place::Empty => Err(CollectionFault::NothingThere { place }),
        }
    }
}
