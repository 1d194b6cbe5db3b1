// The message that is read off the shares away from the roots, its codeword, and how that compares with the shares.
ghost use Rattle.std.specs.Prelude.{◌≡◌, ◌+◌, ◌<◌, ◌≤◌, length};
ghost use Rattle.algebra.specs.Sums.{count};
ghost use Rattle.fields.specs.Numbers.{AllBelow};
ghost use Rattle.sift.specs.Roots.{vanishes};
ghost use Rattle.sift.specs.Reading.{Gathered, Issued, Recovered, Compared};

use crate::interpolation::interpolate;
use crate::sieve::Sieve;
use fields::Field;
use polynomials::{clear, evaluate};
use received::Received;

// Looks for the first places where `values` is not 0, as many as xs has room for: writes their points to xs and the quotients of share and
// multiplier to ys.
fn gather<F: Field>(received: &Received<'_, F>, values: &[u16], xs: &mut [u16], ys: &mut [u16])
    requires each { length values.now ≡ length received.now.points.now }
    requires room { length ys.old ≡ length xs.old }
    requires enough { length xs.old + count (length received.now.points.now) (vanishes values.now) ≤ length received.now.points.now }
    ensures { Gathered F.Field.numbers received.now.points.now received.now.multipliers.now received.now.shares.now values.now (length received.now.points.now) (length xs.old) xs.new ys.new }
{
    // By index in xs and ys: what is written through a zip of `iter_mut` is not known to a proof.
    let mut i = 0;
    for (j, value) in values.iter().enumerate() {
        if i < xs.len() && *value != 0 {
            xs[i] = received.points[j];
            ys[i] = F::mul(received.shares[j], F::inv(received.multipliers[j]));
            i += 1;
        }
    }
}

// The codeword of the message, a multiplier times the message's value at the point for each place, and 0 beyond the places.
fn encode<F: Field>(word: &mut [u16], received: &Received<'_, F>, message: &[u16])
    requires message { AllBelow F.Field.numbers.q message.now }
    requires room { length received.now.points.now ≤ length word.old }
    ensures { Issued F.Field.numbers received.now.points.now received.now.multipliers.now message.now word.new }
{
    clear::<F>(word);
    // By index in word: what is written through a zip of `iter_mut` is not known to a proof.
    for (j, multiplier) in received.multipliers.iter().enumerate() {
        word[j] = F::mul(*multiplier, evaluate::<F>(message, received.points[j]));
    }
}

// How many places of the word differ from the shares, if it is the shares wherever `values` is not 0.
pub fn compare(word: &[u16], shares: &[u16], values: &[u16]) -> Option<usize>
    requires room { length shares.now ≤ length word.now }
    requires each { length values.now ≡ length shares.now }
    ensures { Compared word.now shares.now values.now result }
{
    let mut distance = 0;
    for (j, share) in shares.iter().enumerate() {
        if word[j] != *share {
            if values[j] != 0 {
                return None;
            }
            distance += 1;
        }
    }
    Some(distance)
}

impl<F: Field> Sieve<'_, F> {
    // Reads the message off the shares at the first places where `values` is not 0, as many as xs has room for, and writes its codeword.
    pub(crate) fn recover(
        &self,
        values: &[u16],
        xs: &mut [u16],
        ys: &mut [u16],
        node: &mut [u16],
        message: &mut [u16],
        word: &mut [u16],
    )
        requires each { length values.now ≡ length self.now.received.points.now }
        requires enough { length xs.old + count (length self.now.received.points.now) (vanishes values.now) ≤ length self.now.received.points.now }
        requires room { length ys.old ≡ length xs.old }
        requires node_room { length xs.old < length node.old }
        requires message_room { length node.old ≤ length message.old }
        requires word_room { length self.now.received.points.now ≤ length word.old }
        ensures { Recovered F.Field.numbers self.now.received.points.now self.now.received.multipliers.now self.now.received.shares.now values.now (length xs.old) message.new word.new }
    {
        gather(&self.received, values, xs, ys);
        interpolate::<F>(message, xs, ys, node);
        encode(word, &self.received, message);
    }
}
