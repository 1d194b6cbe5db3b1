// From received shares to candidates: the pairs that stand for the codewords near the shares, and what is sifted from them.
//
// In order: the pairs of a basis (finding), and a listing of shares as a whole (listing).
#![tactic(auto)]

mod finding;
mod listing;

pub use finding::find_pairs;
pub use listing::list_shares;
