// Theorems on insertion and on dictionary order.
ghost use Rattle.std.specs.Cmp.Lexicographic.{slice_cmp};
ghost use Rattle.std.specs.Ordering.{nat_cmp};
ghost use Rattle.rolls.specs.Order.{Compares, InsertionExact, OrderUnique, TotalOrder, dictionary};

use super::ordered::Ordered;

// An insertion keeps the order and gives exactly the union; and the list of given items in order is only one.
pub fn insertion_is_exact<T: Ordered>()
    ensures exact { InsertionExact T.Ordered.less }
    ensures unique { OrderUnique T.Ordered.less }
{}

// Dictionary order is a total order, and std's order of lists of numbers is this one.
pub fn dictionary_is_total()
    ensures total { TotalOrder dictionary }
    ensures compares { Compares (slice_cmp nat_cmp) dictionary }
{}
