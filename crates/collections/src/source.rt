ghost use Rattle.std.specs.Prelude.{◌≡◌, ℕ, List, length, None, Option, slice_index_or};
ghost use Rattle.collections.specs.Standing.{standing, share, shares};

use crate::{Collection, Kept, Place};
use fields::Field;

// What tells shares, place by place; telling changes nothing.
pub trait Source {
    ghost told: { Self → List (Option ℕ) };

    // The number of places.
    fn count(&self) -> usize
        ensures { result ≡ length (told self.now) };

    // The share of place i; none beyond the count.
    fn place(&self, i: usize) -> Option<u16>
        ensures { result ≡ slice_index_or (told self.now) i None };
}

// The share of a place, if it has one.
impl From<Place> for Option<u16> {
    ghost from_gives = { λ place r. r ≡ share place };

    fn from(place: Place) -> Self {
        match place {
            Place::Empty => None,
            Place::Filled(value) => Some(value),
        }
    }
}

impl Kept {
    fn count(&self) -> usize
        ensures { result ≡ length (shares (standing self.now)) }
    {
        match &self.page {
            Some(page) => page.opened.code.count(),
            None => 0,
        }
    }

    fn place(&self, i: usize) -> Option<u16>
        ensures { result ≡ slice_index_or (shares (standing self.now)) i None }
    {
        match self.read(i) {
            Ok(place) => place.into(),
            Err(_) => None,
        }
    }
}

impl<F: Field> Source for Collection<F> {
    ghost told = { λ c. shares (standing c.kept) };

    fn count(&self) -> usize {
        self.kept.count()
    }

    fn place(&self, i: usize) -> Option<u16> {
        self.kept.place(i)
    }
}
