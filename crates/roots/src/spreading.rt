// The runs of a form, each with room for more coefficients: in their order, and turned, the last one first.
ghost use Rattle.std.specs.Prelude.{◌≡◌, ℕ, ◌+◌, ◌-◌, ◌*◌, ◌<◌, ◌≤◌, length};
ghost use Rattle.fields.specs.Numbers.{AllBelow};
ghost use Rattle.polynomials.specs.Series.{poly, Reads};
ghost use Rattle.digits.specs.Runs.{runs as runs_of};

use fields::Field;
use polynomials::pad;

// The runs of `narrow` numbers as runs of `width`.
// By recursion: what a loop over `chunks_exact_mut` has written is not known to a proof once the loop is over.
pub(crate) fn spread<F: Field>(
    form: &[u16],
    narrow: usize,
    degree: usize,
    width: usize,
    out: &mut [u16],
)
    requires all { AllBelow F.Field.numbers.q form.now }
    requires runs { length form.now ≡ (degree + 1) * narrow }
    requires room { length out.old ≡ (degree + 1) * width }
    requires wide { narrow ≤ width }
    ensures all { AllBelow F.Field.numbers.q out.new }
    ensures is { runs_of F.Field.numbers width out.new ≡ runs_of F.Field.numbers narrow form.now }
{
    pad::<F>(&mut out[0..width], &form[0..narrow]);
    if degree == 0 {
        return;
    }
    spread::<F>(
        &form[narrow..],
        narrow,
        degree - 1,
        width,
        &mut out[width..],
    );
}

// The same with the last run first. The two stay apart, since an order that both took would be a test at each run.
pub(crate) fn spread_turned<F: Field>(
    form: &[u16],
    narrow: usize,
    degree: usize,
    width: usize,
    out: &mut [u16],
)
    requires all { AllBelow F.Field.numbers.q form.now }
    requires runs { length form.now ≡ (degree + 1) * narrow }
    requires room { length out.old ≡ (degree + 1) * width }
    requires wide { narrow ≤ width }
    ensures all { AllBelow F.Field.numbers.q out.new }
    ensures is { (t : ℕ) → t ≤ degree → runs_of F.Field.numbers width out.new t ≡ runs_of F.Field.numbers narrow form.now (degree - t) }
{
    let last = form.len() - narrow;
    pad::<F>(&mut out[0..width], &form[last..]);
    if degree == 0 {
        return;
    }
    spread_turned::<F>(&form[0..last], narrow, degree - 1, width, &mut out[width..]);
}
