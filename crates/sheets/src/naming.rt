ghost use Rattle.std.specs.Prelude.{◌≡◌};
ghost use Rattle.sheets.specs.Named.{naming};

use crate::FieldName;
use faults::SheetFault;
use fields::{Field, Gf16, Gf256, Mod7, Mod929};

// The field that a sheet names by a number. By guards, since no pattern can name a constant of a trait.
impl TryFrom<u8> for FieldName {
    type Error = SheetFault;

    ghost try_from_gives = { λ number r. r ≡ naming number };

    fn try_from(number: u8) -> Result<Self, SheetFault> {
        match number {
            n if n == Mod7::SHEET_NUMBER => Ok(FieldName::Mod7),
            n if n == Gf16::SHEET_NUMBER => Ok(FieldName::Gf16),
            n if n == Gf256::SHEET_NUMBER => Ok(FieldName::Gf256),
            n if n == Mod929::SHEET_NUMBER => Ok(FieldName::Mod929),
            _ => Err(SheetFault::OtherField { number }),
        }
    }
}
