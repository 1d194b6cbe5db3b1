// From pairs to candidates: one pair, one pair into a roll, and a list of pairs.
ghost use Rattle.std.specs.Prelude.{◌≡◌, ◌+◌, ◌-◌, ◌<◌, ◌≤◌, ◌++◌, length, take, replicate};
ghost use Rattle.rolls.specs.Order.{Ascending, Has};
ghost use Rattle.candidates.specs.Order.{in_order};
ghost use Rattle.candidates.specs.Telling.{blank};
ghost use Rattle.candidates.specs.Sifting.{Usable, Roomy, SiftedFrom, Enters, ListsSifted, ListsNear};

use crate::records::Candidate;
use fields::Field;
use leaves::Pair;
use rolls::Roll;
use sift::Sieve;

// The candidate of the word that passes the sift by the pair, if one does.
pub fn sift_pair<F: Field>(sieve: &Sieve<'_, F>, pair: &Pair, work: &mut [u16]) -> Option<Candidate>
    requires roomy { Roomy (length sieve.now.received.points.now) sieve.now.threshold (length sieve.now.h1.now) (length sieve.now.h2.now) (length work.old) }
    requires usable { Usable F.Field.numbers (length sieve.now.received.points.now) sieve.now.threshold sieve.now.h1.now sieve.now.h2.now pair.now }
    ensures { SiftedFrom F.Field.numbers sieve.now.received.points.now sieve.now.received.multipliers.now sieve.now.received.shares.now sieve.now.h1.now sieve.now.h2.now sieve.now.threshold sieve.now.radius pair.now result }
{
    let mut found = Candidate::BLANK;
    let distance = sieve.sift(
        &pair.first,
        &pair.second,
        work,
        &mut found.message,
        &mut found.word,
    )?;
    found.distance = distance as u8;
    Some(found)
}

// Sifts the pair, and enters the candidate of the word that passes into the roll.
fn enter<F: Field>(
    sieve: &Sieve<'_, F>,
    pair: &Pair,
    work: &mut [u16],
    roll: &mut Roll<'_, Candidate>,
)
    requires roomy { Roomy (length sieve.now.received.points.now) sieve.now.threshold (length sieve.now.h1.now) (length sieve.now.h2.now) (length work.old) }
    requires usable { Usable F.Field.numbers (length sieve.now.received.points.now) sieve.now.threshold sieve.now.h1.now sieve.now.h2.now pair.now }
    requires space { roll.old.len < length roll.old.slots.now }
    requires ascending { Ascending in_order (take roll.old.len roll.old.slots.now) }
    ensures entered { Enters F.Field.numbers sieve.now.received.points.now sieve.now.received.multipliers.now sieve.now.received.shares.now sieve.now.h1.now sieve.now.h2.now sieve.now.threshold sieve.now.radius pair.now (take roll.old.len roll.old.slots.now) (take roll.new.len roll.new.slots.now) }
    ensures grows { roll.new.len ≤ roll.old.len + 1 }
    ensures room { length roll.new.slots.now ≡ length roll.old.slots.now }
    ensures lender { roll.new.slots.ghost_name ≡ roll.old.slots.ghost_name }
{
    let Some(found) = sift_pair(sieve, pair, work) else {
        return;
    };
    // There is a free slot, so the answer is never that the roll is full.
    let _ = roll.insert(found);
}

// The candidates of the words that pass the sift by one of the pairs, in order and each once, written to the slots; blank records follow them. The
// answer is how many there are.
pub fn sift_pairs<F: Field>(
    sieve: &Sieve<'_, F>,
    pairs: &[Pair],
    work: &mut [u16],
    slots: &mut [Candidate],
) -> usize
    requires roomy { Roomy (length sieve.now.received.points.now) sieve.now.threshold (length sieve.now.h1.now) (length sieve.now.h2.now) (length work.old) }
    requires usable { (p : Pair) → Has p pairs.now → Usable F.Field.numbers (length sieve.now.received.points.now) sieve.now.threshold sieve.now.h1.now sieve.now.h2.now p }
    requires space { length pairs.now ≤ length slots.old }
    ensures count { result ≤ length pairs.now }
    ensures sifted { ListsSifted F.Field.numbers sieve.now.received.points.now sieve.now.received.multipliers.now sieve.now.received.shares.now sieve.now.h1.now sieve.now.h2.now sieve.now.threshold sieve.now.radius pairs.now (take result slots.new) }
    ensures near { ListsNear F.Field.numbers sieve.now.received.points.now sieve.now.received.multipliers.now sieve.now.received.shares.now sieve.now.h1.now sieve.now.h2.now sieve.now.threshold sieve.now.radius pairs.now (take result slots.new) }
    ensures beyond { slots.new ≡ take result slots.new ++ replicate (length slots.old - result) blank }
{
    let mut roll = Roll::new(slots);
    for pair in pairs {
        enter(sieve, pair, work, &mut roll);
    }
    roll.close(Candidate::BLANK)
}
