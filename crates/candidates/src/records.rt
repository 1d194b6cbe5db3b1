// Candidates as records, and their order. Only `sift_pair` writes the parts of a record, and only `precedes` compares them, by the derived order.
ghost use Rattle.std.specs.Prelude.{◌≡◌};
ghost use Rattle.candidates.specs.Order.{in_order};
ghost use Rattle.candidates.specs.Orders.{in_order_total};

use rolls::Ordered;

// A word that may have been issued: its values, how far it is from the shares, and its message, with zeros beyond the values and the message.
// Candidates are in dictionary order of the values, then by the distance, then in dictionary order of the message.
#[derive(Clone, Copy, PartialEq, Eq, PartialOrd, Ord)]
pub struct Candidate {
    pub word: [u16; 32],
    pub distance: u8,
    pub message: [u16; 32],
}

impl Candidate {
    // What stands where there is no candidate.
    pub const BLANK: Candidate = Candidate {
        word: [0; 32],
        distance: 0,
        message: [0; 32],
    };
}

impl Ordered for Candidate {
    ghost less = { in_order };

    ghost order = { in_order_total };

    fn precedes(&self, other: &Candidate) -> bool {
        *self < *other
    }
}
