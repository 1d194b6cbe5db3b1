// The basis call: what the first stage of a listing finds for the shares of a source, written to the caller's area.
#![tactic(auto)]

mod calling;
#[cfg(test)]
mod tests;

pub use calling::write_basis;

// The bounds on the degrees of a pair (f1, f2); negative where there is no such f1 or f2 but zero.
#[derive(Clone, Copy, PartialEq, Eq, Debug)]
pub struct Weights {
    pub w1: i16,
    pub w2: i16,
}
