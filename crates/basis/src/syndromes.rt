ghost use Rattle.std.specs.Prelude.{◌≡◌, ℕ, ◌+◌, ◌-◌, ◌<◌, ◌≤◌, length};
ghost use Rattle.fields.specs.Numbers.{AllBelow};
ghost use Rattle.stages.specs.Coefficients.{listed, power};
ghost use Rattle.stages.specs.Syndrome.{dual as dual_of, syndrome as syndrome_of};
ghost use Rattle.basis.specs.Powers.{with_powers};

use fields::Field;

// 1 / (v_j times the product of α_j - α_h over the other places h).
fn dual<F: Field>(points: &[u16], multipliers: &[u16], j: usize) -> u16
    requires place { j < length points.now }
    requires same { length multipliers.now ≡ length points.now }
    ensures { result ≡ dual_of F.Field.numbers points.now multipliers.now j }
{
    let mut product = 1;
    for (h, point) in points.iter().enumerate() {
        if h != j {
            product = F::mul(product, F::add(points[j], F::neg(*point)));
        }
    }
    F::mul(F::inv(multipliers[j]), F::inv(product))
}

// Adds t α^(n - 1 - i) to the number at each place i of the n.
fn add_powers<F: Field>(sums: &mut [u16], t: u16, alpha: u16)
    requires factor { t < F.Field.numbers.q }
    requires point { alpha < F.Field.numbers.q }
    ensures { sums.new ≡ with_powers F.Field.numbers t alpha sums.old }
{
    let mut power = t;
    // By index: it goes backwards, and what is written through a reversed `iter_mut` is not known to a proof.
    for i in (0..sums.len()).rev() {
        sums[i] = F::add(sums[i], power);
        power = F::mul(power, alpha);
    }
}

// The syndrome of the shares, written to out: its D coefficients and a zero. It takes the three lists apart, since it asks less of them than `Received` says.
pub fn syndrome<F: Field>(points: &[u16], multipliers: &[u16], shares: &[u16], out: &mut [u16])
    requires all { AllBelow F.Field.numbers.q points.now }
    requires same { length multipliers.now ≡ length points.now }
    requires told { length shares.now ≡ length points.now }
    requires some { 0 < length out.old }
    ensures { out.new ≡ syndrome_of F.Field.numbers points.now multipliers.now (length out.old - 1) shares.now }
{
    out.fill(0);
    let last = out.len() - 1;
    for (j, share) in shares.iter().enumerate() {
        let t = F::mul(*share, dual::<F>(points, multipliers, j));
        add_powers::<F>(&mut out[..last], t, points[j]);
    }
}
