// The console: which field the header of a sheet names, the listing of a sheet, and what is printed of it.
//
// In order: the header of an input (headers), the lines of a report (lines), and the report of a sheet (listing).
#![tactic(auto)]

mod headers;
mod lines;
mod listing;
#[cfg(test)]
mod tests;

pub use headers::{LONGEST, first_bytes_tell, read_header};
pub use listing::list_sheet;
use runs::{CallFault, Found};
pub use sheets::FieldName;

// What is to be known of a sheet before it is loaded.
#[derive(Clone, Copy)]
pub struct Header {
    pub field: FieldName,
    pub places: usize,
    pub threshold: usize,
}

// The candidates of a sheet, each with a message of `threshold` numbers and a word of `places` values.
#[derive(Clone, Copy)]
pub struct Listed {
    pub threshold: usize,
    pub places: usize,
    pub found: Found,
}

// What came of a sheet: what it lists, or what refuses it. A type of its own, so that it can be printed.
#[derive(Clone, Copy)]
pub struct Report(pub Result<Listed, CallFault>);
