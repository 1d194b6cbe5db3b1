// All rational roots of a form: coprime pairs (f1, f2) within bounds at which Σ Q_j y^j z^(ℓ - j) vanishes, at y = f2, z = f1.
//
// In order: the question and its refusals (asking), copies of the form's runs (spreading), the leaf that enters what it finds into a roll, with
// the walks of both charts (finding), and the call (listing).
#![tactic(auto)]

mod asking;
mod finding;
mod listing;
mod spreading;

pub use asking::check;
pub use leaves::Question;
pub use listing::{list_roots, roots};
