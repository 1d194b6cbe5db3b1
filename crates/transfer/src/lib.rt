// A collection from a share sheet, and a share sheet from a collection.
#![tactic(auto)]

mod loading;
mod writing;

pub use loading::load;
pub use writing::write;
