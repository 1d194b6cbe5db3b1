ghost use Rattle.std.specs.Prelude.{◌≡◌};
ghost use Rattle.console.specs.Headers.{header_in, FirstBytesTell};

use crate::Header;
use faults::SheetFault;
use sheets::{FieldName, Reader};

// The most bytes that may be a sheet. Of a longer input a program need read only one byte more (`first_bytes_tell`).
pub const LONGEST: u64 = 2048;

// The header of an input. A sheet has 255 places and 1,539 bytes at most, so the reader refuses every longer input.
pub fn read_header(bytes: &[u8]) -> Result<Header, SheetFault>
    ensures { result ≡ header_in bytes.now }
{
    let sheet = Reader::new(bytes)?;
    let field = FieldName::try_from(sheet.field())?;
    Ok(Header {
        field,
        places: sheet.places(),
        threshold: usize::from(sheet.threshold()),
    })
}

// A longer input is refused as its first 2,049 bytes are.
pub fn first_bytes_tell()
    ensures { FirstBytesTell }
{}
