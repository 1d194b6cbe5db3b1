// What the walk over the digits of a series does at a leaf: the pair of polynomials that the digits come to, and whether it is a root of the form.
//
// In order: pair records and their order (pairs), the question (questions), the check that a form vanishes at a pair (forms), normalisation (normal), and the leaf as a whole (reaching).
#![tactic(auto)]

mod forms;
mod normal;
mod pairs;
mod questions;
mod reaching;

pub use normal::normalise;
pub use pairs::{Chart, Pair};
pub use questions::Question;

#[cfg(test)]
mod tests {
    use super::*;
    use fields::Mod7;

    // Modulo 7 the form (2 + x) y - (3 + x) z has the root f1 = 2 + x, f2 = 3 + x, whose series begins with 5 + 5 x + x^2.
    #[test]
    fn a_series_gives_its_root(rt: HostRuntime) {
        let mut first = [0; 32];
        first[0] = 2;
        first[1] = 1;
        let mut second = [0; 32];
        second[0] = 3;
        second[1] = 1;
        let question = Question {
            form: &[4, 6, 2, 1],
            degree: 1,
            length: 2,
            w1: 1,
            w2: 1,
        };
        let found = question.root_at_leaf::<Mod7>(Chart::Direct, &[5, 5, 1], &mut [0; 99]);
        assert!(rt; found == Some(Pair { first, second }));
    }
}
