ghost use Rattle.std.specs.Prelude.{◌≡◌, ◌⊎◌, min, length, IfOk, IfErr, Err};
ghost use Rattle.runs.specs.Law.{reply};
ghost use Rattle.console.specs.Lines.{report_text};
ghost use Rattle.console.specs.Output.{PrintsSheet, PrintsHeaded, Prints};
ghost use Rattle.console.specs.Replies.{answers_text, ToListing};
ghost use Rattle.console.specs.Reports.{OfSheetOrListing};

use crate::{Header, Listed, Report, read_header};
use fields::{Field, Gf16, Gf256, Mod7, Mod929};
use runs::calls::run_blank;
use runs::{Answer, Call, CallFault, Outcome};
use sheets::FieldName;
use std::alloc::{AllocError, Global};

// Numbers of work area: enough for a small setting.
const WORK: usize = 32_000;

// What a sheet lists, or what refuses it, by the answers to its loading and its listing.
fn listed(header: Header, loading: Answer, listing: Answer) -> Result<Listed, CallFault>
    requires { ToListing (reply listing) }
    ensures text { report_text result ≡ answers_text header.threshold header.places (reply loading) (reply listing) }
    ensures fault { IfErr result (λ f. (loading ≡ Err f) ⊎ (listing ≡ Err f)) }
{
    loading?;
    match listing? {
        Outcome::Listed(found) => Ok(Listed {
            threshold: header.threshold,
            places: header.places,
            found,
        }),
        Outcome::Done | Outcome::Told(_) => unreachable(),
    }
}

// Loads a sheet into a blank collection over the field F, and lists its candidates.
fn list_over<F: Field>(header: Header, bytes: &[u8], work: &mut [u16]) -> Result<Listed, CallFault>
    ensures prints { PrintsSheet F.Field.numbers F.Field.SHEET_NUMBER header.threshold header.places (min 32000 (length work.old)) bytes.now (report_text result) }
    ensures kind { IfErr result OfSheetOrListing }
{
    let calls = [
        Call::Load(bytes),
        Call::List {
            records: 8,
            numbers: WORK,
        },
    ];
    let mut answers = [Ok(Outcome::Done); 2];
    let _ = run_blank::<F>(&calls, &mut answers, work);
    listed(header, answers[0], answers[1])
}

// By a match, since a value picks a type here.
fn list_headed(header: Header, bytes: &[u8], work: &mut [u16]) -> Result<Listed, CallFault>
    ensures prints { PrintsHeaded header (min 32000 (length work.old)) bytes.now (report_text result) }
    ensures kind { IfErr result OfSheetOrListing }
{
    match header.field {
        FieldName::Mod7 => list_over::<Mod7>(header, bytes, work),
        FieldName::Gf16 => list_over::<Gf16>(header, bytes, work),
        FieldName::Gf256 => list_over::<Gf256>(header, bytes, work),
        FieldName::Mod929 => list_over::<Mod929>(header, bytes, work),
    }
}

// The candidates of a sheet, or what refuses it.
pub fn list_sheet(heap: Global, bytes: &[u8]) -> Result<Report, AllocError>
    ensures prints { IfOk result (λ x. Prints bytes.now (report_text x.0)) }
    ensures kind { IfOk result (λ x. IfErr x.0 OfSheetOrListing) }
{
    match read_header(bytes) {
        Ok(header) => {
            let mut work = vec![in heap; 0; WORK]?;
            Ok(Report(list_headed(header, bytes, &mut work)))
        }
        Err(fault) => Ok(Report(Err(CallFault::from(fault)))),
    }
}
