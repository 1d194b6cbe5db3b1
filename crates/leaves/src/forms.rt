// Whether a form Σ Q_t y^t z^(ℓ - t) vanishes at a pair of polynomials, by Horner's rule in the form.
ghost use Rattle.std.specs.Prelude.{◌≡◌, ◌+◌, ◌-◌, ◌*◌, ◌<◌, ◌≤◌, T, ◌↔◌, length, take};
ghost use Rattle.algebra.specs.Poly.{conv, padd, pzero, const};
ghost use Rattle.algebra.specs.PolyRing.{Poly};
ghost use Rattle.algebra.specs.Sums.{pow};
ghost use Rattle.algebra.specs.Taylor.{form};
ghost use Rattle.fields.specs.Numbers.{AllBelow, elem, ring_of};
ghost use Rattle.polynomials.specs.Series.{poly, Reads};
ghost use Rattle.digits.specs.Runs.{runs as runs_of};
ghost use Rattle.leaves.specs.Formed.{Formed};

use super::questions::Question;
use fields::Field;
use polynomials::{add_multiple, multiply_into, size};

// The first n coefficients of p times g, in the place of p, with room for the product.
fn multiply_by<F: Field>(p: &mut [u16], n: usize, g: &[u16], room: &mut [u16])
    requires first { AllBelow F.Field.numbers.q (take n p.old) }
    requires second { AllBelow F.Field.numbers.q g.now }
    requires inside { n ≤ length p.old }
    requires fits { n + length g.now ≤ length p.old + 1 }
    requires long { length p.old ≤ length room.old }
    ensures { Reads F.Field.numbers p.new (conv (ring_of F.Field.numbers) (poly F.Field.numbers (take n p.old)) (poly F.Field.numbers g.now)) }
{
    let product = &mut room[0..p.len()];
    multiply_into::<F>(product, &p[0..n], g);
    p.copy_from_slice(product);
}

// p + g h, in the place of p.
fn add_product<F: Field>(p: &mut [u16], g: &[u16], h: &[u16], room: &mut [u16])
    requires first { AllBelow F.Field.numbers.q p.old }
    requires second { AllBelow F.Field.numbers.q g.now }
    requires third { AllBelow F.Field.numbers.q h.now }
    requires fits { length g.now + length h.now ≤ length p.old + 1 }
    requires long { length p.old ≤ length room.old }
    ensures { Reads F.Field.numbers p.new (padd (ring_of F.Field.numbers) (poly F.Field.numbers p.old) (conv (ring_of F.Field.numbers) (poly F.Field.numbers g.now) (poly F.Field.numbers h.now))) }
{
    let product = &mut room[0..p.len()];
    multiply_into::<F>(product, g, h);
    add_multiple::<F>(p, 1, product);
}

// z^0 is 1, and the form of the degree 0 is Q_0.
fn begin<F: Field>(run: &[u16], sum: &mut [u16], power: &mut [u16])
    requires all { AllBelow F.Field.numbers.q run.now }
    requires sum_long { length sum.old ≡ length run.now }
    requires power_long { length power.old ≡ 1 }
    ensures sum { Reads F.Field.numbers sum.new (poly F.Field.numbers run.now) }
    ensures power { Reads F.Field.numbers power.new (const (ring_of F.Field.numbers) (elem F.Field.numbers 1)) }
{
    sum.copy_from_slice(run);
    power[0] = 1;
}

// The form with these runs of `width` numbers as its Q_0 to Q_degree, at the pair y, z, written to sum, and z^degree, written to power.
// It takes runs and no question, since it goes on with the rest of them, to which no bounds belong.
fn evaluate_form<F: Field>(
    runs: &[u16],
    width: usize,
    degree: usize,
    y: &[u16],
    z: &[u16],
    sum: &mut [u16],
    power: &mut [u16],
    room: &mut [u16],
)
    requires all { AllBelow F.Field.numbers.q runs.now }
    requires long { length runs.now ≡ (degree + 1) * width }
    requires wide { 0 < width }
    requires y_all { AllBelow F.Field.numbers.q y.now }
    requires z_all { AllBelow F.Field.numbers.q z.now }
    requires same { length y.now ≡ length z.now }
    requires some { 0 < length z.now }
    requires sum_long { length sum.old ≡ width + degree * (length z.now - 1) }
    requires power_long { length power.old ≡ 1 + degree * (length z.now - 1) }
    requires room_long { length sum.old ≤ length room.old }
    ensures sum { Reads F.Field.numbers sum.new (form (Poly (ring_of F.Field.numbers)) degree (runs_of F.Field.numbers width runs.now) (poly F.Field.numbers y.now) (poly F.Field.numbers z.now)) }
    ensures power { Reads F.Field.numbers power.new (pow (Poly (ring_of F.Field.numbers)) (poly F.Field.numbers z.now) degree) }
{
    if degree == 0 {
        begin::<F>(runs, sum, power);
        return;
    }
    let n = sum.len() - (z.len() - 1);
    let m = power.len() - (z.len() - 1);
    evaluate_form::<F>(
        &runs[width..],
        width,
        degree - 1,
        y,
        z,
        &mut sum[0..n],
        &mut power[0..m],
        room,
    );
    multiply_by::<F>(power, m, z, room);
    multiply_by::<F>(sum, n, y, room);
    add_product::<F>(sum, power, &runs[0..width], room);
}

impl Question<'_> {
    // Whether the form vanishes at y = f2, z = f1.
    pub fn vanishes<F: Field>(self, f1: &[u16], f2: &[u16], work: &mut [u16]) -> bool
        requires formed { Formed F.Field.numbers.q self }
        requires first { AllBelow F.Field.numbers.q f1.now }
        requires second { AllBelow F.Field.numbers.q f2.now }
        requires same { length f2.now ≡ length f1.now }
        requires some { 0 < length f1.now }
        requires work { 3 * (self.length + self.degree * (length f1.now - 1)) ≤ length work.old }
        ensures { T result ↔ (form (Poly (ring_of F.Field.numbers)) self.entry.degree (runs_of F.Field.numbers self.entry.length self.entry.form.now) (poly F.Field.numbers f2.now) (poly F.Field.numbers f1.now) ≡ pzero (ring_of F.Field.numbers)) }
    {
        let rise = self.degree * (f1.len() - 1);
        let (sum, rest) = work.split_at_mut(self.length + rise);
        let (power, room) = rest.split_at_mut(1 + rise);
        evaluate_form::<F>(
            self.form,
            self.length,
            self.degree,
            f2,
            f1,
            sum,
            power,
            room,
        );
        size::<F>(sum) == 0
    }
}
