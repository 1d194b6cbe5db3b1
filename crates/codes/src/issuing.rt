ghost use Rattle.std.specs.Prelude.{◌≡◌, ◌<◌, ◌≤◌, ◌++◌, length, drop, IfSome};
ghost use Rattle.codes.specs.Opening.{fault_of};
ghost use Rattle.codes.specs.Codewords.{value as value_of, codeword, codeword_of, first_beyond, message_fault, issue_fault, area_after};

use crate::Code;
use faults::ListingFault;
use fields::Field;

// The value of the message at x.
fn value<F: Field>(x: u16, message: &[u16]) -> u16
    ensures { result ≡ value_of F.Field.numbers x message.now }
{
    message
        .iter()
        .rev()
        .fold(0, |sum, c| F::add(*c, F::mul(x, sum)))
}

// Writes the codeword of the message at the front of the area.
fn write_codeword<F: Field>(points: &[u16], multipliers: &[u16], message: &[u16], out: &mut [u16])
    requires same { length multipliers.now ≡ length points.now }
    requires room { length points.now ≤ length out.old }
    ensures { out.new ≡ codeword F.Field.numbers points.now multipliers.now message.now ++ drop (length points.now) out.old }
{
    for (i, place) in out[..points.len()].iter_mut().enumerate() {
        *place = F::mul(multipliers[i], value::<F>(points[i], message));
    }
}

// The first place of a number that is no element of a field of q elements.
pub fn first_beyond(q: u16, xs: &[u16]) -> Option<usize>
    ensures is { result ≡ first_beyond q xs.now }
    ensures within { IfSome result (λ i. i < length xs.now) }
{
    xs.iter().position(|x| *x >= q)
}

fn check_message(q: u16, threshold: u8, message: &[u16]) -> Result<(), ListingFault>
    ensures { fault_of result ≡ message_fault q threshold message.now }
{
    let length = message.len();
    if length != usize::from(threshold) {
        return Err(ListingFault::MessageLength { length });
    }
    if let Some(place) = first_beyond(q, message) {
        return Err(ListingFault::NotAnElement {
            place,
            value: message[place],
        });
    }
    Ok(())
}

// Issues a message: its codeword into the front of the area.
pub fn issue<F: Field>(code: &Code, message: &[u16], out: &mut [u16]) -> Result<(), ListingFault>
    ensures fault { fault_of result ≡ issue_fault F.Field.numbers.q code.now.count code.now.threshold (length out.old) message.now }
    ensures area { out.new ≡ area_after (fault_of result) (codeword_of F.Field.numbers code.now message.now) out.old }
{
    check_message(F::Q, code.threshold(), message)?;
    let length = out.len();
    if length < code.count() {
        return Err(ListingFault::ResultArea { length });
    }
    write_codeword::<F>(code.points(), code.multipliers(), message, out);
    Ok(())
}
