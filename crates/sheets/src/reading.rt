ghost use Rattle.std.specs.Prelude.{◌≡◌, ◌+◌, ◌*◌, ◌/◌, ◌≤◌, length, take, IfOk};
ghost use Rattle.codes.specs.Opening.{fault_of};
ghost use Rattle.sheets.specs.Sheet.{number as number_in, column as column_in, share_in, shares_in, given_in, header_fault, field_fault};
ghost use Rattle.sheets.specs.Reading.{meant, Reads};

use crate::Reader;
use codes::Setting;
use collections::source::Source;
use faults::SheetFault;

// What stands for the share of an empty place.
pub const EMPTY: u16 = 0xFFFF;

// The share that a number of a sheet means.
fn share(number: u16) -> Option<u16>
    ensures { result ≡ share_in number }
{
    if number == EMPTY { None } else { Some(number) }
}

impl<'a> Reader<'a> {
    // Reads a sheet without copying it, or says what is wrong with its form.
    pub fn new(bytes: &'a [u8]) -> Result<Self, SheetFault>
        ensures fault { fault_of result ≡ header_fault bytes.now }
        ensures reads { IfOk result (Reads bytes.now) }
    {
        let [
            version,
            high,
            low,
            field,
            n,
            threshold,
            radius,
            multiplicity,
            list_limit,
            entries @ ..,
        ] = bytes
        else {
            return Err(SheetFault::Version);
        };
        if *version != 1 {
            return Err(SheetFault::Version);
        }
        let size = 6 * usize::from(*n);
        if usize::from(u16::from_be_bytes([*high, *low])) != 6 + size || entries.len() != size {
            return Err(SheetFault::Length);
        }
        Ok(Reader {
            field: *field,
            threshold: *threshold,
            setting: Setting {
                radius: *radius,
                multiplicity: *multiplicity,
                list_limit: *list_limit,
            },
            entries,
        })
    }

    // Refuses a sheet of another field than that with this sheet number.
    pub fn check_field(&self, tag: u8) -> Result<(), SheetFault>
        ensures { fault_of result ≡ field_fault tag (meant self.now) }
    {
        let number = self.field;
        if number != tag {
            return Err(SheetFault::OtherField { number });
        }
        Ok(())
    }

    pub fn field(&self) -> u8
        ensures { result ≡ (meant self.now).field }
    {
        self.field
    }

    pub fn threshold(&self) -> u8
        ensures { result ≡ (meant self.now).threshold }
    {
        self.threshold
    }

    // The number of places.
    pub fn places(&self) -> usize
        ensures is { result ≡ (meant self.now).count }
        ensures few { result ≤ 255 }
    {
        self.entries.len() / 6
    }

    pub fn setting(&self) -> Setting
        ensures { result ≡ (meant self.now).setting }
    {
        self.setting
    }

    // The points of all places; what stands behind them means nothing: a fixed array, since a reader has no heap.
    pub fn points(&self) -> [u16; 255]
        ensures length { length result ≡ 255 }
        ensures front { take (meant self.now).count result ≡ (given_in (meant self.now)).points }
    {
        self.column(0)
    }

    // The multipliers of all places; what stands behind them means nothing.
    pub fn multipliers(&self) -> [u16; 255]
        ensures length { length result ≡ 255 }
        ensures front { take (meant self.now).count result ≡ (given_in (meant self.now)).multipliers }
    {
        self.column(2)
    }
}

impl Reader<'_> {
    // The number of the entry of place p that begins at the entry's byte `part`.
    fn number(&self, part: usize, p: usize) -> u16
        requires part_bound { part ≤ 4 }
        requires p_in_bounds { 6 * p + 6 ≤ length self.now.entries.now }
        ensures { result ≡ number_in self.now.entries.now part p }
    {
        let at = 6 * p + part;
        u16::from_be_bytes([self.entries[at], self.entries[at + 1]])
    }

    // One number of each entry, in place order.
    fn column(&self, part: usize) -> [u16; 255]
        requires { part ≤ 4 }
        ensures length { length result ≡ 255 }
        ensures front { take (meant self.now).count result ≡ column_in self.now.entries.now part (meant self.now).count }
    {
        let mut numbers = [0; 255];
        for (p, number) in numbers[..self.places()].iter_mut().enumerate() {
            *number = self.number(part, p);
        }
        numbers
    }
}

impl Source for Reader<'_> {
    ghost told = { λ r. shares_in (meant r) };

    fn count(&self) -> usize {
        self.places()
    }

    fn place(&self, i: usize) -> Option<u16> {
        if i >= self.places() {
            return None;
        }
        share(self.number(4, i))
    }
}
