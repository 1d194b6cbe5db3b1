// An ordered roll without repeats over slots that the caller lends.
#![tactic(auto)]

ghost use Rattle.std.specs.Prelude.{◌≡◌};

mod entering;
mod laws;
mod ordered;
mod slots;

pub use laws::{dictionary_is_total, insertion_is_exact};
pub use ordered::Ordered;
pub use slots::RollFault;

// The first `len` slots are the items, and all slots where there are not so many. A slice and a count, since there is no heap: the slots are the caller's.
#[derive(Drop)]
pub struct Roll<'a, T> {
    slots: &'a mut [T],
    len: usize,
}

impl<'a, T> Roll<'a, T> {
    pub fn new(slots: &'a mut [T]) -> Self
        ensures empty { result.len ≡ 0 }
        ensures lender { result.slots.ghost_name ≡ slots.entry.ghost_name }
        ensures same { result.slots.now ≡ slots.old }
    {
        Roll { slots, len: 0 }
    }

    // The roll whose items are the first `len` slots, to go on with.
    pub fn resume(slots: &'a mut [T], len: usize) -> Self
        ensures count { result.len ≡ len }
        ensures lender { result.slots.ghost_name ≡ slots.entry.ghost_name }
        ensures same { result.slots.now ≡ slots.old }
    {
        Roll { slots, len }
    }

    pub fn len(&self) -> usize
        ensures { result ≡ self.now.len }
    {
        self.len
    }
}

#[cfg(test)]
mod tests {
    use super::*;

    // A new item, one that is there already, a smaller one, and one for which there is no room.
    #[test]
    fn keeps_order(rt: HostRuntime) {
        let mut area = [9u16; 3];
        let mut roll = Roll::new(&mut area[0..2]);
        let _ = roll.insert(5);
        let _ = roll.insert(5);
        let _ = roll.insert(3);
        assert!(rt; roll.insert(4).is_err());
        assert!(rt; area == [3, 5, 9]);
    }

    #[test]
    fn compares_from_the_first_number_on(rt: HostRuntime) {
        let [shorter, longer]: [&[u16]; 2] = [&[1], &[1, 0]];
        assert!(rt; [1u16, 2] < [1u16, 3]);
        assert!(rt; shorter < longer);
    }
}
