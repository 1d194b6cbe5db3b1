// Binary fields through two tables: the powers of 2, and for each element its place among them.
ghost use Rattle.std.specs.Prelude.{◌≡◌, ℕ, suc, ◌^◌, ◌<◌, length};
ghost use Rattle.binary.proofs.Powers.{Primitive, powers};
ghost use Rattle.binary.proofs.Tables.{logs};
ghost use Rattle.binary.specs.Tables.{looked_up, looked_up_inverse};
ghost use Rattle.fields.specs.Binaries.{binary};
ghost use Rattle.fields.specs.Total.{on_elements, on_nonzero, numbers_of};

use crate::Field;
use std::marker::PhantomData;

// The two tables of a field; the number of places is that of the elements.
#[derive(Clone, Copy)]
pub struct Tables {
    // The powers of 2, from 1 on.
    pub powers: &'static [u16],

    // The place of each element among the powers of 2; there is none for 0.
    pub places: &'static [u16],

    ghost some: { 0 < length powers.now },
}

impl Tables {
    fn product(self, a: u16, b: u16) -> u16
        ensures { result ≡ on_elements (length self.places.now) (looked_up (length self.powers.now) self.powers.now self.places.now) a b }
    {
        let Tables { powers, places } = self;
        if usize::from(a) < places.len() && usize::from(b) < places.len() {
            if a == 0 || b == 0 {
                0
            } else {
                let sum = usize::from(places[usize::from(a)]) + usize::from(places[usize::from(b)]);
                powers[sum % powers.len()]
            }
        } else {
            0
        }
    }

    fn inverse(self, a: u16) -> u16
        ensures { result ≡ on_nonzero (length self.places.now) (looked_up_inverse (length self.powers.now) self.powers.now self.places.now) a }
    {
        let Tables { powers, places } = self;
        if 0 < a && usize::from(a) < places.len() {
            let place = usize::from(places[usize::from(a)]);
            powers[powers.len().saturating_sub(place) % powers.len()]
        } else {
            0
        }
    }
}

// A field of 2^(highest + 1) elements whose products are reduced by a polynomial of that degree, with its tables. That 2 runs through all
// elements other than 0 is all that it has to show beside them.
pub trait Tabled {
    // The number of elements.
    const Q: u16;

    ghost Q: { ℕ };

    // The number that stands for the field in a share sheet.
    const SHEET_NUMBER: u8;

    ghost SHEET_NUMBER: { ℕ };

    // The place of an element's highest bit.
    ghost highest: { ℕ };

    ghost polynomial: { ℕ };

    ghost primitive: { Primitive highest polynomial };

    ghost size: { Q ≡ 2 ^ suc highest };

    fn tables() -> Tables
        ensures powers { result.powers.now ≡ powers highest polynomial }
        ensures places { result.places.now ≡ logs highest polynomial };
}

// The field of the tables that T gives.
pub struct Binary<T>(PhantomData<T>);

impl<T: Tabled> Field for Binary<T> {
    const Q: u16 = T::Q;

    const SHEET_NUMBER: u8 = T::SHEET_NUMBER;

    ghost Q = { T.Tabled.Q };

    ghost SHEET_NUMBER = { T.Tabled.SHEET_NUMBER };

    ghost numbers = { numbers_of (binary T.Tabled.highest T.Tabled.polynomial T.Tabled.primitive) };

    fn add(a: u16, b: u16) -> u16 {
        if a < T::Q && b < T::Q { a ^ b } else { 0 }
    }

    // Each element is its own opposite.
    fn neg(a: u16) -> u16 {
        if a < T::Q { a } else { 0 }
    }

    fn mul(a: u16, b: u16) -> u16 {
        T::tables().product(a, b)
    }

    fn inv(a: u16) -> u16 {
        T::tables().inverse(a)
    }

    ghost counts = { T.Tabled.size };
}
