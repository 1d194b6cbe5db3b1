// Pairs of polynomials as records, and their order.
ghost use Rattle.std.specs.Prelude.{◌≡◌};
ghost use Rattle.leaves.specs.Order.{in_order, arranged};
ghost use Rattle.leaves.specs.Ordering.{pair_order};

use rolls::Ordered;

// 32 coefficients of f1 and 32 of f2, the lowest first. Pairs are in dictionary order of f1, and then of f2.
#[derive(Clone, Copy, PartialEq, Eq, PartialOrd, Ord)]
pub struct Pair {
    pub first: [u16; 32],
    pub second: [u16; 32],
}

impl Pair {
    // What stands where there is no pair.
    pub const BLANK: Pair = Pair {
        first: [0; 32],
        second: [0; 32],
    };
}

impl Ordered for Pair {
    ghost less = { in_order };

    ghost order = { pair_order };

    fn precedes(&self, other: &Pair) -> bool {
        *self < *other
    }
}

// The charts of the walk: in the direct one the digits are those of f2 / f1, and in the turned one those of f1 / f2.
#[derive(Clone, Copy)]
pub enum Chart {
    Direct,
    Turned,
}

impl Chart {
    // The pair with its polynomials in the order of the chart.
    pub(crate) fn arrange(self, pair: Pair) -> Pair
        ensures { result ≡ arranged self pair }
    {
        match self {
            Chart::Direct => pair,
            Chart::Turned => {
                let first = pair.second;
                let second = pair.first;
                Pair { first, second }
            }
        }
    }
}
