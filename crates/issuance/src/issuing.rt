ghost use Rattle.std.specs.Prelude.{◌≡◌, IfOk};
ghost use Rattle.codes.specs.Opening.{first_fault, fault_of, Holds};
ghost use Rattle.sheets.specs.Sheet.{given_in};
ghost use Rattle.sheets.specs.Reading.{meant};
ghost use Rattle.issuance.specs.Issuance.{over_fault, Issues, sheet_fault, SheetIssues};

use crate::{IssueFault, Issued};
use codes::{Code, Opening, issue};
use faults::CodeFault;
use fields::{Field, Gf16, Gf256, Mod7, Mod929};
use sheets::{FieldName, Reader};

// The code of a sheet over a field of q elements.
fn check_sheet(sheet: &Reader, q: u16) -> Result<Code, CodeFault>
    ensures fault { fault_of result ≡ first_fault q (given_in (meant sheet.now)) }
    ensures code { IfOk result (Holds q (given_in (meant sheet.now))) }
{
    let n = sheet.places();
    let (points, multipliers) = (sheet.points(), sheet.multipliers());
    let opening = Opening {
        points: &points[..n],
        multipliers: &multipliers[..n],
        threshold: sheet.threshold(),
        setting: sheet.setting(),
    };
    opening.check(q)
}

// Issues a message over the field F by the code of the sheet.
fn issue_over<F: Field>(sheet: &Reader, message: &[u16]) -> Result<Issued, IssueFault>
    ensures fault { fault_of result ≡ over_fault F.Field.numbers (meant sheet.now) message.now }
    ensures issues { IfOk result (Issues F.Field.numbers (meant sheet.now) message.now) }
{
    let code = check_sheet(sheet, F::Q)?;
    let mut word = [0; 32];
    issue::<F>(&code, message, &mut word)?;
    Ok(Issued {
        field: sheet.field(),
        code,
        word,
    })
}

// Issues a message by a sheet, over the field that the sheet names. By a match, since a value picks a type here.
pub fn issue_sheet(bytes: &[u8], message: &[u16]) -> Result<Issued, IssueFault>
    ensures fault { fault_of result ≡ sheet_fault bytes.now message.now }
    ensures issues { IfOk result (SheetIssues bytes.now message.now) }
{
    let sheet = Reader::new(bytes)?;
    match FieldName::try_from(sheet.field())? {
        FieldName::Mod7 => issue_over::<Mod7>(&sheet, message),
        FieldName::Gf16 => issue_over::<Gf16>(&sheet, message),
        FieldName::Gf256 => issue_over::<Gf256>(&sheet, message),
        FieldName::Mod929 => issue_over::<Mod929>(&sheet, message),
    }
}
