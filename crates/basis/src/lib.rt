// The first stage of a listing: the syndrome, Euclid's rows and the weights.
#![tactic(auto)]

ghost use Rattle.std.specs.Prelude.{◌≡◌, ◌≤◌, length};

mod euclid;
mod stage;
mod syndromes;

pub use euclid::{LastRows, Stop};
pub use stage::find_basis;
pub use syndromes::syndrome;

// What the first stage of a listing finds: the syndrome S, the rows (h10, h11) and (h20, h21) at which Euclid's algorithm stops, each the first d
// numbers of an array, the lowest coefficient first, and the weights, which may be negative. Arrays with a count beside them, since there is no heap.
#[derive(Clone, Copy)]
pub struct Basis {
    pub d: usize,
    pub s: [u16; 32],
    pub h10: [u16; 32],
    pub h11: [u16; 32],
    pub h20: [u16; 32],
    pub h21: [u16; 32],
    pub w1: i16,
    pub w2: i16,
    ghost width: { d ≤ 32 },
    ghost s_length: { length s ≡ 32 },
    ghost h10_length: { length h10 ≡ 32 },
    ghost h11_length: { length h11 ≡ 32 },
    ghost h20_length: { length h20 ≡ 32 },
    ghost h21_length: { length h21 ≡ 32 },
}
