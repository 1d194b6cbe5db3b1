// The sift by a pair, and by its locator.
ghost use Rattle.std.specs.Prelude.{◌≡◌, ◌+◌, ◌-◌, ◌*◌, ◌<◌, ◌≤◌, length};
ghost use Rattle.algebra.specs.Poly.{Below};
ghost use Rattle.decoding.specs.Code.{Code};
ghost use Rattle.decoding.specs.Sift.{located};
ghost use Rattle.fields.specs.Numbers.{AllBelow, ring_of, field_of};
ghost use Rattle.polynomials.specs.Series.{poly};
ghost use Rattle.sift.specs.Received.{Describes, Found, Sifted};

use crate::roots::{locate, splits};
use crate::sieve::Sieve;
use crate::words::compare;
use fields::Field;
use polynomials::clear;

impl<F: Field> Sieve<'_, F> {
    // The sift by a locator of a degree of n - k at most. The message and the word that pass are written to their areas; the answer is how far the
    // word is from the shares.
    fn sift_by(
        &self,
        locator: &[u16],
        work: &mut [u16],
        message: &mut [u16],
        word: &mut [u16],
    ) -> Option<usize>
        requires locator { AllBelow F.Field.numbers.q locator.now }
        requires low { Below (ring_of F.Field.numbers) (length self.now.received.points.now - self.now.threshold + 1) (poly F.Field.numbers locator.now) }
        requires room { length self.now.received.points.now + 3 * self.now.threshold + 1 ≤ length work.old }
        requires message_room { self.now.threshold < length message.old }
        requires word_room { length self.now.received.points.now ≤ length word.old }
        ensures { (C : Code (field_of F.Field.numbers)) → Describes F.Field.numbers self.now.received.points.now self.now.received.multipliers.now C → Found F.Field.numbers C self.now.threshold self.now.radius (poly F.Field.numbers self.now.received.shares.now) (poly F.Field.numbers locator.now) result message.new word.new }
    {
        let received = &self.received;
        let (values, rest) = work.split_at_mut(received.points.len());
        if !splits::<F>(locator, received.points, values) {
            return None;
        }
        let (xs, rest) = rest.split_at_mut(self.threshold);
        let (ys, rest) = rest.split_at_mut(self.threshold);
        let (node, _) = rest.split_at_mut(self.threshold + 1);
        self.recover(values, xs, ys, node, message, word);
        let distance = compare(word, received.shares, values)?;
        if distance <= self.radius {
            Some(distance)
        } else {
            None
        }
    }

    // The sift by the pair (f1, f2): writes the message and the word that passes, with zeros beyond them, and answers how far the word is from the
    // shares. If no word passes it answers None and writes zeros.
    pub fn sift(
        &self,
        f1: &[u16],
        f2: &[u16],
        work: &mut [u16],
        message: &mut [u16],
        word: &mut [u16],
    ) -> Option<usize>
        requires first { AllBelow F.Field.numbers.q f1.now }
        requires second { AllBelow F.Field.numbers.q f2.now }
        requires low { Below (ring_of F.Field.numbers) (length self.now.received.points.now - self.now.threshold + 1) (located (ring_of F.Field.numbers) (poly F.Field.numbers self.now.h1.now) (poly F.Field.numbers self.now.h2.now) (poly F.Field.numbers f1.now) (poly F.Field.numbers f2.now)) }
        requires room { length f1.now + length self.now.h1.now + length self.now.received.points.now + 3 * self.now.threshold + 1 ≤ length work.old }
        requires room_too { length f2.now + length self.now.h2.now + length self.now.received.points.now + 3 * self.now.threshold + 1 ≤ length work.old }
        requires message_room { self.now.threshold < length message.old }
        requires word_room { length self.now.received.points.now ≤ length word.old }
        ensures code { (C : Code (field_of F.Field.numbers)) × Describes F.Field.numbers self.now.received.points.now self.now.received.multipliers.now C }
        ensures sifted { (C : Code (field_of F.Field.numbers)) → Describes F.Field.numbers self.now.received.points.now self.now.received.multipliers.now C → Sifted F.Field.numbers C self.now.threshold self.now.radius (poly F.Field.numbers self.now.received.shares.now) (located (ring_of F.Field.numbers) (poly F.Field.numbers self.now.h1.now) (poly F.Field.numbers self.now.h2.now) (poly F.Field.numbers f1.now) (poly F.Field.numbers f2.now)) result message.new word.new }
    {
        let count = (f1.len() + self.h1.len()).max(f2.len() + self.h2.len());
        let (locator, rest) = work.split_at_mut(count);
        locate::<F>(locator, f1, self.h1, f2, self.h2);
        match self.sift_by(locator, rest, message, word) {
            Some(distance) => Some(distance),
            None => {
                clear::<F>(message);
                clear::<F>(word);
                None
            }
        }
    }
}
