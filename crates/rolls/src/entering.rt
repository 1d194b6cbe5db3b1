// What changes a roll.
ghost use Rattle.std.specs.Prelude.{◌≡◌, ◌≤◌, length};
ghost use Rattle.rolls.specs.Insertion.{Inserted, cleared};

use super::Roll;
use super::ordered::Ordered;
use super::slots::{RollFault, place};

impl<T: Ordered> Roll<'_, T> {
    // Enters x in its place; true where it is new.
    pub fn insert(&mut self, x: T) -> Result<bool, RollFault>
        ensures inserted { Inserted T.Ordered.less x self.old.slots.now self.old.len result self.new.slots.now self.new.len }
        ensures fits { self.new.len ≤ length self.new.slots.now }
        ensures lender { self.new.slots.ghost_name ≡ self.old.slots.ghost_name }
    {
        // A count beyond the slots, as `resume` may have been given, stands for all of them.
        let len = self.len.min(self.slots.len());
        self.len = len;
        let added = place(self.slots, len, x)?;
        if added {
            self.len = len + 1;
        }
        Ok(added)
    }
}

impl<T: Copy> Roll<'_, T> {
    // Writes `blank` beyond the items, and answers how many items there are.
    pub fn close(self, blank: T) -> usize
        ensures count { result ≡ self.entry.len }
        ensures holds { self.exit.0.now ≡ cleared blank self.entry.len self.entry.slots.now }
    {
        let Roll { slots, len } = self;
        let from = len.min(slots.len());
        slots[from..].fill_with(|| blank);
        len
    }
}
