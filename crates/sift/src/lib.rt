// The sift: from a pair of polynomials to the one word that it may stand for.
//
// A pair (f1, f2) and the runs h1, h2 of two rows give the locator f1 h1 + f2 h2. It counts if it has as many roots among the points as its degree; the
// message is then read off the shares away from the roots, and its codeword has to be the shares there.
#![tactic(auto)]

mod interpolation;
mod roots;
mod sieve;
mod sifting;
mod words;

pub use interpolation::interpolate;
pub use sieve::Sieve;

#[cfg(test)]
mod tests {
    use super::*;
    use fields::Mod7;
    use received::Received;

    // Modulo 7 the pair f1 = 2, f2 = 3 + x stands for the word of 1 + x, which is three places away from the shares.
    #[test]
    fn a_pair_gives_its_word(rt: HostRuntime) {
        let received = Received::<Mod7>::new(
            &[1, 2, 3, 4, 5, 6],
            &[1, 1, 1, 1, 1, 1],
            &[0, 0, 0, 5, 6, 0],
        );
        let sieve = Sieve {
            received,
            threshold: 2,
            radius: 3,
            h1: &[6, 6],
            h2: &[4, 1, 3],
        };
        let mut work = [0; 20];
        let mut message = [9; 3];
        let mut word = [9; 7];
        let found = sieve.sift(&[2], &[3, 1], &mut work, &mut message, &mut word);
        assert!(rt; found == Some(3));
        assert!(rt; message == [1, 1, 0]);
        assert!(rt; word == [2, 3, 4, 5, 6, 0, 0]);
    }
}
