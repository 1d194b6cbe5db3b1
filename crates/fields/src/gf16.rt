// The binary field of 16 elements: a sum is an exclusive or, a product is that of binary polynomials reduced by x^4 + x + 1
// (0x13).
ghost use Rattle.std.specs.Prelude.{refl};
ghost use Rattle.fields.specs.Fields.{primitive16};

use crate::{Binary, Tabled, Tables};

pub struct Sixteen;

// The powers of 2, from 1 on.
const POWERS: [u16; 15] = [1, 2, 4, 8, 3, 6, 12, 11, 5, 10, 7, 14, 15, 13, 9];

// The place of each element among the powers of 2; there is none for 0.
const PLACES: [u16; 16] = [0, 0, 1, 4, 2, 8, 5, 10, 3, 14, 9, 7, 6, 13, 11, 12];

impl Tabled for Sixteen {
    const Q: u16 = 16;

    const SHEET_NUMBER: u8 = 2;

    ghost Q = { 16 };

    ghost SHEET_NUMBER = { 2 };

    ghost highest = { 3 };

    ghost polynomial = { 0x13 };

    ghost primitive = { primitive16 };

    ghost size = { refl };

    // Written out in each field, since the tables are arrays of the field's own lengths.
    fn tables() -> Tables {
        Tables {
            powers: &POWERS,
            places: &PLACES,
        }
    }
}

pub type Gf16 = Binary<Sixteen>;
