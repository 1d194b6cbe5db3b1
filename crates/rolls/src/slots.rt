// The roll's work, on plain slots.
ghost use Rattle.std.specs.Prelude.{◌≡◌, ℕ, ◌+◌, ◌-◌, ◌<◌, ◌≤◌, ◌∷◌, length, take};
ghost use Rattle.std.specs.List.{prefix_len};
ghost use Rattle.rolls.specs.Insertion.{Inserted, grown};

use super::ordered::Ordered;

#[derive(Clone, Copy)]
pub enum RollFault {
    Full,
}

// How many items from the first on come before x.
fn lower<T: Ordered>(items: &[T], x: &T) -> usize
    ensures bound { result ≤ length items.now }
    ensures value { result ≡ prefix_len (λ item. T.Ordered.less item x.now) items.now }
{
    items.iter().take_while(|item| item.precedes(x)).count()
}

// Opens a place at the front of the row, which loses its last element, and writes x there.
fn open_front<T: Copy>(row: &mut [T], x: T)
    requires { 0 < length row.old }
    ensures { row.new ≡ x ∷ take (length row.old - 1) row.old }
{
    row.rotate_right(1);
    row[0] = x;
}

// Puts x in its place among the first `len` slots; true where it is new.
pub(crate) fn place<T: Ordered>(slots: &mut [T], len: usize, x: T) -> Result<bool, RollFault>
    requires { len ≤ length slots.old }
    ensures { Inserted T.Ordered.less x slots.old len result slots.new (grown len result) }
{
    let i = lower(&slots[0..len], &x);
    if i < len && !x.precedes(&slots[i]) {
        return Ok(false);
    }
    if len == slots.len() {
        return Err(RollFault::Full);
    }
    open_front(&mut slots[i..len + 1], x);
    Ok(true)
}
