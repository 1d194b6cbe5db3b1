// What a leaf of the walk comes to: the pair (-b, a) of the row (a, b) at which Euclid's algorithm on x^N and the digits stops, if it is a root.
ghost use Rattle.std.specs.Prelude.{◌≡◌, suc, ◌+◌, ◌-◌, ◌*◌, ◌<◌, ◌≤◌, T, ◌↔◌, length, ◌≢◌};
ghost use Rattle.algebra.specs.Poly.{pzero, Below, Degree};
ghost use Rattle.algebra.specs.PolyRing.{Poly};
ghost use Rattle.algebra.specs.Taylor.{form};
ghost use Rattle.fields.specs.Numbers.{AllBelow, elem, ring_of};
ghost use Rattle.polynomials.specs.Series.{poly, Reads};
ghost use Rattle.basis.specs.Rows.{Room};
ghost use Rattle.digits.specs.Runs.{runs as runs_of};
ghost use Rattle.leaves.specs.Formed.{Formed};
ghost use Rattle.leaves.specs.Normalised.{Normalised};
ghost use Rattle.leaves.specs.Reached.{Reconstructs, Candidate, Full, Reached, Exact};

use super::normal::normalise;
use super::pairs::{Chart, Pair};
use super::questions::Question;
use basis::{LastRows, Stop};
use fields::Field;
use polynomials::{pad, scale};

// More numbers than the longest series of digits has.
const WIDTH: usize = 64;

// The pair (-b, a) of the row (a, b) at which Euclid's algorithm stops: the first whose a has the degree w2 at most. The other areas have the series and the row before.
fn reconstruct<F: Field>(
    digits: &[u16],
    w1: usize,
    w2: usize,
    s: &mut [u16],
    pa: &mut [u16],
    pb: &mut [u16],
    f1: &mut [u16],
    f2: &mut [u16],
)
    requires all { AllBelow F.Field.numbers.q digits.now }
    requires long { length digits.now ≡ suc (w1 + w2) }
    requires series { length s.old ≡ length digits.now + 1 }
    requires areas { Room (length digits.now + 1) pa.old pb.old f2.old f1.old }
    ensures { Reconstructs F.Field.numbers w1 w2 digits.now f1.new f2.new }
{
    pad::<F>(s, digits);
    let mut rows = LastRows {
        pa,
        pb,
        la: f2,
        lb: f1,
    };
    rows.find::<F>(Stop::Short(w2 + 1), s);
    scale::<F>(rows.lb, F::neg(1));
}

// The first n numbers of p, which has no further coefficients, and zeros after them.
fn front<F: Field>(p: &[u16], n: usize) -> [u16; 32]
    requires all { AllBelow F.Field.numbers.q p.now }
    requires inside { n ≤ length p.now }
    requires fits { n ≤ 32 }
    requires small { Below (ring_of F.Field.numbers) n (poly F.Field.numbers p.now) }
    ensures long { length result ≡ 32 }
    ensures is { Reads F.Field.numbers result (poly F.Field.numbers p.now) }
{
    let mut out = [0; 32];
    pad::<F>(&mut out, &p[..n]);
    out
}

// The pair that the digits come to, as a record.
fn candidate<F: Field>(digits: &[u16], w1: usize, w2: usize) -> Pair
    requires all { AllBelow F.Field.numbers.q digits.now }
    requires long { length digits.now ≡ suc (w1 + w2) }
    requires first { w1 < 32 }
    requires second { w2 < 32 }
    ensures { Candidate F.Field.numbers w1 w2 digits.now result }
{
    let n = digits.len() + 1;
    let mut s = [0; WIDTH];
    let mut pa = [0; WIDTH];
    let mut pb = [0; WIDTH];
    let mut f1 = [0; WIDTH];
    let mut f2 = [0; WIDTH];
    reconstruct::<F>(
        digits,
        w1,
        w2,
        &mut s[0..n],
        &mut pa[0..n],
        &mut pb[0..n],
        &mut f1[0..n],
        &mut f2[0..n],
    );
    let first = front::<F>(&f1, w1 + 1);
    let second = front::<F>(&f2, w2 + 1);
    Pair { first, second }
}

// The pair divided by the constant that makes it normal.
fn normal_pair<F: Field>(pair: Pair) -> Pair
    requires full { Full F.Field.numbers.q pair }
    requires proper { poly F.Field.numbers pair.second ≡ pzero (ring_of F.Field.numbers) → Degree (ring_of F.Field.numbers) 0 (poly F.Field.numbers pair.first) }
    ensures full { Full F.Field.numbers.q result }
    ensures is { Normalised F.Field.numbers pair.first pair.second result.first result.second }
{
    let mut first = pair.first;
    let mut second = pair.second;
    normalise::<F>(&mut first, &mut second);
    Pair { first, second }
}

impl Question<'_> {
    // Whether f1 has a constant coefficient and the form vanishes at the pair, whose polynomials have n coefficients.
    fn is_root<F: Field>(self, f1: &[u16], f2: &[u16], n: usize, work: &mut [u16]) -> bool
        requires formed { Formed F.Field.numbers.q self }
        requires first { AllBelow F.Field.numbers.q f1.now }
        requires second { AllBelow F.Field.numbers.q f2.now }
        requires some { 0 < n }
        requires first_long { n ≤ length f1.now }
        requires second_long { n ≤ length f2.now }
        requires first_small { Below (ring_of F.Field.numbers) n (poly F.Field.numbers f1.now) }
        requires second_small { Below (ring_of F.Field.numbers) n (poly F.Field.numbers f2.now) }
        requires work { 3 * (self.length + self.degree * (n - 1)) ≤ length work.old }
        ensures { T result ↔ ((poly F.Field.numbers f1.now 0 ≢ elem F.Field.numbers 0) × (form (Poly (ring_of F.Field.numbers)) self.entry.degree (runs_of F.Field.numbers self.entry.length self.entry.form.now) (poly F.Field.numbers f2.now) (poly F.Field.numbers f1.now) ≡ pzero (ring_of F.Field.numbers))) }
    {
        f1[0] != 0 && self.vanishes::<F>(&f1[..n], &f2[..n], work)
    }

    // The root of the form whose series begins with the digits, or nothing if there is none.
    pub fn root_at_leaf<F: Field>(
        self,
        chart: Chart,
        digits: &[u16],
        work: &mut [u16],
    ) -> Option<Pair>
        requires formed { Formed F.Field.numbers.q self }
        requires digits { AllBelow F.Field.numbers.q digits.now }
        requires depth { length digits.now ≡ suc (self.w1 + self.w2) }
        requires first { self.w1 < 32 }
        requires second { self.w2 < 32 }
        requires work { 3 * (self.length + self.degree * 31) ≤ length work.old }
        ensures leaf { Reached F.Field.numbers chart self.entry.degree self.entry.w1 self.entry.w2 (runs_of F.Field.numbers self.entry.length self.entry.form.now) digits.now result }
        ensures exact { Exact F.Field.numbers chart self.entry.degree self.entry.w1 self.entry.w2 (runs_of F.Field.numbers self.entry.length self.entry.form.now) digits.now result }
    {
        let pair = candidate::<F>(digits, self.w1, self.w2);
        let n = self.w1.max(self.w2) + 1;
        if self.is_root::<F>(&pair.first, &pair.second, n, work) {
            Some(normal_pair::<F>(chart.arrange(pair)))
        } else {
            None
        }
    }
}
