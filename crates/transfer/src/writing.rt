ghost use Rattle.std.specs.Prelude.{◌≡◌, ◌+◌, ◌*◌, ◌<◌, ◌≤◌, ◌++◌, length, take, drop, IfOk, None, slice_index, slice_index_or};
ghost use Rattle.codes.specs.Codewords.{area_after};
ghost use Rattle.codes.specs.Opening.{fault_of};
ghost use Rattle.collections.specs.Book.{unopened};
ghost use Rattle.collections.specs.Standing.{standing, shares, given_of};
ghost use Rattle.transfer.specs.Loading.{Loads, done};
ghost use Rattle.transfer.specs.Writing.{pair, as_number, header_bytes, entry_bytes, sheet_bytes, bytes_of, write_fault};

use areas::put;
use collections::source::Source;
use collections::{Collection, Opened};
use faults::ListingFault;
use fields::Field;
use sheets::EMPTY;

fn header(tag: u8, opened: &Opened) -> [u8; 9]
    ensures { result ≡ header_bytes tag (given_of opened.now) }
{
    let n = opened.code.count() as u8;
    let [high, low] = (6 + 6 * u16::from(n)).to_be_bytes();
    let setting = opened.setting;
    [
        1,
        high,
        low,
        tag,
        n,
        opened.code.threshold(),
        setting.radius,
        setting.multiplicity,
        setting.list_limit,
    ]
}

// The point, the multiplier and the share of a place.
fn entry(point: u16, multiplier: u16, share: Option<u16>) -> [u8; 6]
    ensures { result ≡ pair point ++ (pair multiplier ++ pair (as_number share)) }
{
    let [a, b] = point.to_be_bytes();
    let [c, d] = multiplier.to_be_bytes();
    let [e, f] = share.unwrap_or(EMPTY).to_be_bytes();
    [a, b, c, d, e, f]
}

// Writes the sheet of an open collection into the front of the area.
fn write_sheet<F: Field>(c: &Collection<F>, opened: &Opened, out: &mut [u8])
    requires room { 9 + 6 * opened.now.code.count ≤ length out.old }
    ensures { out.new ≡ sheet_bytes F.Field.SHEET_NUMBER (given_of opened.now) (shares (standing c.now.kept)) ++ drop (9 + 6 * opened.now.code.count) out.old }
{
    put(out, 0, &header(F::SHEET_NUMBER, opened));
    let code = &opened.code;
    // By offset: of chunks that are written in turn a proof knows the length alone.
    for (p, (point, multiplier)) in code.points().iter().zip(code.multipliers()).enumerate() {
        put(out, 9 + 6 * p, &entry(*point, *multiplier, c.place(p)));
    }
}

// Writes the sheet of the collection into the front of the area, and answers the count of its bytes.
pub fn write<F: Field>(c: &Collection<F>, out: &mut [u8]) -> Result<usize, ListingFault>
    ensures fault { fault_of result ≡ write_fault (standing c.now.kept) (length out.old) }
    ensures area { out.new ≡ area_after (fault_of result) (bytes_of F.Field.SHEET_NUMBER (standing c.now.kept)) out.old }
    ensures count { IfOk result (λ n. n ≡ length (bytes_of F.Field.SHEET_NUMBER (standing c.now.kept))) }
    ensures again { IfOk result (λ n. Loads F.Field.numbers.q F.Field.SHEET_NUMBER unopened (take n out.new) done (standing c.now.kept)) }
{
    let opened = c.opened()?;
    let size = 9 + 6 * opened.code.count();
    let length = out.len();
    if length < size {
        return Err(ListingFault::ResultArea { length });
    }
    write_sheet(c, opened, out);
    Ok(size)
}
