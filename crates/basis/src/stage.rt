ghost use Rattle.std.specs.Prelude.{◌≡◌, ℕ, ◌+◌, ◌-◌, ◌*◌, ◌<◌, ◌≤◌, ◌++◌, length, take, drop, pos, ◌-ℤ◌};
ghost use Rattle.fields.specs.Numbers.{AllBelow};
ghost use Rattle.stages.specs.Coefficients.{degree as degree_of};
ghost use Rattle.stages.specs.Basis.{basis as basis_of};
ghost use Rattle.basis.specs.Found.{Filled, Finds, laid};
ghost use Rattle.basis.specs.Rows.{Room};
ghost use Rattle.stages.specs.Euclid.{row, two_rows};

use crate::Basis;
use crate::euclid::{LastRows, Stop};
use crate::syndromes::syndrome;
use areas::put;
use fields::Field;
use polynomials::degree;
use received::Received;

// The most coefficients that an entry of a row has: as many as the longest code has places.
const WIDTH: usize = 32;

// w1 = τ - deg h10 - 1, where the zero polynomial has the degree -1.
fn first_weight<F: Field>(radius: u8, rows: &LastRows) -> i16
    requires all { AllBelow F.Field.numbers.q rows.now.pa.now }
    requires short { length rows.now.pa.now ≤ 32 }
    ensures { result ≡ pos radius -ℤ degree_of rows.now.pa.now -ℤ pos 1 }
{
    let h10 = &*rows.pa;
    i16::from(radius) - degree::<F>(h10) - 1
}

// w2 = τ - deg h21.
fn second_weight<F: Field>(radius: u8, rows: &LastRows) -> i16
    requires all { AllBelow F.Field.numbers.q rows.now.lb.now }
    requires short { length rows.now.lb.now ≤ 32 }
    ensures { result ≡ pos radius -ℤ degree_of rows.now.lb.now }
{
    let h21 = &*rows.lb;
    i16::from(radius) - degree::<F>(h21)
}

// Writes the syndrome to s and the rows to the other four, all of d numbers, and answers the weights.
fn fill<F: Field>(
    received: &Received<'_, F>,
    radius: u8,
    s: &mut [u16],
    h10: &mut [u16],
    h11: &mut [u16],
    h20: &mut [u16],
    h21: &mut [u16],
) -> (i16, i16)
    requires some { 0 < length s.old }
    requires short { length s.old ≤ 32 }
    requires lengths { Room (length s.old) h10.old h11.old h20.old h21.old }
    ensures { Filled F.Field.numbers received.now.points.now received.now.multipliers.now received.now.shares.now radius s.new (two_rows (row h10.new h11.new) (row h20.new h21.new)) result.0 result.1 }
{
    syndrome::<F>(received.points, received.multipliers, received.shares, s);
    let mut rows = LastRows {
        pa: h10,
        pb: h11,
        la: h20,
        lb: h21,
    };
    rows.find::<F>(Stop::Crossing, s);
    (
        first_weight::<F>(radius, &rows),
        second_weight::<F>(radius, &rows),
    )
}

// The basis of the shares, for a code with these points and multipliers and this threshold.
pub fn find_basis<F: Field>(received: &Received<'_, F>, threshold: usize, radius: u8) -> Basis
    requires some { 1 ≤ threshold }
    requires fewer { threshold ≤ length received.now.points.now }
    requires short { length received.now.points.now ≤ 32 }
    ensures { Finds (basis_of F.Field.numbers received.now.points.now received.now.multipliers.now threshold received.now.shares.now) radius result }
{
    let d = received.points.len() - threshold + 1;
    let mut s = [0; WIDTH];
    let mut h10 = [0; WIDTH];
    let mut h11 = [0; WIDTH];
    let mut h20 = [0; WIDTH];
    let mut h21 = [0; WIDTH];
    let (w1, w2) = fill(
        received,
        radius,
        &mut s[..d],
        &mut h10[..d],
        &mut h11[..d],
        &mut h20[..d],
        &mut h21[..d],
    );
    Basis {
        d,
        s,
        h10,
        h11,
        h20,
        h21,
        w1,
        w2,
    }
}

impl Basis {
    // Writes S, h10, h11, h20 and h21 in this order, d numbers each.
    pub fn write(&self, out: &mut [u16])
        requires { 5 * self.now.d ≤ length out.old }
        ensures { out.new ≡ laid self.now ++ drop (5 * self.now.d) out.old }
    {
        let d = self.d;
        put(out, 0, &self.s[..d]);
        put(out, d, &self.h10[..d]);
        put(out, 2 * d, &self.h11[..d]);
        put(out, 3 * d, &self.h20[..d]);
        put(out, 4 * d, &self.h21[..d]);
    }
}
