// Candidates: the words that are sifted from a list of pairs, each once and in order.
//
// In order: the record of a candidate and its order (records), and what is sifted from pairs (sifting).
#![tactic(auto)]

mod records;
mod sifting;

pub use records::Candidate;
pub use sifting::{sift_pair, sift_pairs};
