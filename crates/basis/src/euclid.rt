ghost use Rattle.std.specs.Prelude.{◌≡◌, ℕ, ◌+◌, ◌-◌, ◌<◌, ◌≤◌, not, length, nat_le};
ghost use Rattle.fields.specs.Numbers.{AllBelow};
ghost use Rattle.stages.specs.Coefficients.{less, size as size_of};
ghost use Rattle.stages.specs.Euclid.{row, two_rows, divide, next, run as run_of, start as start_of, rows as rows_of};
ghost use Rattle.basis.specs.Rows.{Fits, Room, SameAreas, limit as limit_of};

use fields::Field;
use polynomials::{add_shifted_multiple, size};

// Where a run of Euclid's rows stops. An enum and no closure: there are two rules, and a contract names the rule of each as a function (`limit`).
#[derive(Clone, Copy, Drop)]
pub enum Stop {
    // at the first row whose a has a lower degree than its b
    Crossing,
    // at the first row whose a has fewer coefficients than this, up to its last that is not zero, or as many
    Short(usize),
}

impl Stop {
    // What the size of a row's a must not pass for the run to stop there, where its b has the degree l.
    fn limit(self, l: usize) -> usize
        ensures { result ≡ limit_of self l }
    {
        match self {
            Stop::Crossing => l,
            Stop::Short(size) => size,
        }
    }

    // Whether the run goes on past a last row of these sizes.
    fn goes_on(self, a: usize, b: usize) -> bool
        ensures { result ≡ not (nat_le a (limit_of self (b - 1))) }
    {
        a > self.limit(b.saturating_sub(1))
    }
}

// p - c x^k g, in the place of p.
fn take_multiple<F: Field>(p: &mut [u16], c: u16, k: usize, g: &[u16])
    requires first { AllBelow F.Field.numbers.q p.old }
    requires second { AllBelow F.Field.numbers.q g.now }
    requires same { length g.now ≡ length p.old }
    requires room { k ≤ length p.old }
    ensures { p.new ≡ less F.Field.numbers c k g.now p.old }
{
    let kept = p.len() - k;
    add_shifted_multiple::<F>(p, F::neg(c), k, &g[..kept]);
}

// Takes from the row (a, b) its quotient by the row (la, lb), whose a has the degree m, times that row.
fn divide_row<F: Field>(
    a: &mut [u16],
    b: &mut [u16],
    la: &[u16],
    lb: &[u16],
    m: usize,
    turns: usize,
)
    requires first { Fits F.Field.numbers.q (length a.old) (row a.old b.old) }
    requires second { Fits F.Field.numbers.q (length a.old) (row la.now lb.now) }
    requires top { m < length a.old }
    requires room { turns + m ≤ length a.old }
    ensures { row a.new b.new ≡ divide F.Field.numbers m (row la.now lb.now) turns (row a.old b.old) }
{
    let inverse = F::inv(la[m]);
    // By index: k is a power of x, and a[k + m] is what the turns before have left there.
    for k in (0..turns).rev() {
        let c = F::mul(a[k + m], inverse);
        take_multiple::<F>(a, c, k, la);
        take_multiple::<F>(b, c, k, lb);
    }
}

// The last two rows of a run, in lent areas: (la, lb) is the last and (pa, pb) the one before.
#[derive(Drop)]
pub struct LastRows<'a> {
    pub pa: &'a mut [u16],
    pub pb: &'a mut [u16],
    pub la: &'a mut [u16],
    pub lb: &'a mut [u16],
}

impl LastRows<'_> {
    // Whether the run goes on past these rows.
    fn goes_on<F: Field>(&self, stop: Stop) -> bool
        requires first { AllBelow F.Field.numbers.q self.now.la.now }
        requires second { AllBelow F.Field.numbers.q self.now.lb.now }
        ensures { result ≡ not (nat_le (size_of self.now.la.now) (limit_of stop (size_of self.now.lb.now - 1))) }
    {
        let la = &*self.la;
        let lb = &*self.lb;
        stop.goes_on(size::<F>(la), size::<F>(lb))
    }

    // One step: the last row becomes the one before, and the next row the last.
    fn step<F: Field>(&mut self)
        requires first { Fits F.Field.numbers.q (length self.old.la.now) (row self.old.pa.now self.old.pb.now) }
        requires second { Fits F.Field.numbers.q (length self.old.la.now) (row self.old.la.now self.old.lb.now) }
        requires some { 0 < size_of self.old.la.now }
        ensures areas { SameAreas self.old self.new }
        ensures before { row self.new.pa.now self.new.pb.now ≡ row self.old.la.now self.old.lb.now }
        ensures last { row self.new.la.now self.new.lb.now ≡ next F.Field.numbers (row self.old.pa.now self.old.pb.now) (row self.old.la.now self.old.lb.now) }
    {
        let pa = &mut *self.pa;
        let pb = &mut *self.pb;
        let la = &mut *self.la;
        let lb = &mut *self.lb;
        let m = size::<F>(la) - 1;
        let turns = size::<F>(pa).saturating_sub(m);
        divide_row::<F>(pa, pb, la, lb, m, turns);
        pa.swap_with_slice(la);
        pb.swap_with_slice(lb);
    }

    // The run of the rows from these on, in their place.
    fn run<F: Field>(&mut self, stop: Stop)
        requires first { Fits F.Field.numbers.q (length self.old.la.now) (row self.old.pa.now self.old.pb.now) }
        requires second { Fits F.Field.numbers.q (length self.old.la.now) (row self.old.la.now self.old.lb.now) }
        ensures areas { SameAreas self.old self.new }
        ensures run { two_rows (row self.new.pa.now self.new.pb.now) (row self.new.la.now self.new.lb.now) ≡ run_of F.Field.numbers (limit_of stop) (length self.old.la.now) (two_rows (row self.old.pa.now self.old.pb.now) (row self.old.la.now self.old.lb.now)) }
    {
        while self.goes_on::<F>(stop) {
            self.step::<F>();
        }
    }

    // Writes the first two rows, (x^D, 0) and (S, -1), for an s of D + 1 numbers.
    fn start<F: Field>(&mut self, s: &[u16])
        requires some { 0 < length s.now }
        requires lengths { Room (length s.now) self.old.pa.now self.old.pb.now self.old.la.now self.old.lb.now }
        ensures areas { SameAreas self.old self.new }
        ensures lengths { Room (length s.now) self.new.pa.now self.new.pb.now self.new.la.now self.new.lb.now }
        ensures start { two_rows (row self.new.pa.now self.new.pb.now) (row self.new.la.now self.new.lb.now) ≡ start_of F.Field.numbers (length s.now - 1) s.now }
    {
        let pa = &mut *self.pa;
        let pb = &mut *self.pb;
        let la = &mut *self.la;
        let lb = &mut *self.lb;
        pa.fill(0);
        pa[s.len() - 1] = 1;
        pb.fill(0);
        la.copy_from_slice(s);
        lb.fill(0);
        lb[0] = F::neg(1);
    }

    // Writes the rows at which Euclid's algorithm on x^D and S stops, for an s of D + 1 numbers, whatever stood in the areas.
    pub fn find<F: Field>(&mut self, stop: Stop, s: &[u16])
        requires some { 0 < length s.now }
        requires all { AllBelow F.Field.numbers.q s.now }
        requires lengths { Room (length s.now) self.old.pa.now self.old.pb.now self.old.la.now self.old.lb.now }
        ensures areas { SameAreas self.old self.new }
        ensures rows { two_rows (row self.new.pa.now self.new.pb.now) (row self.new.la.now self.new.lb.now) ≡ rows_of F.Field.numbers (limit_of stop) (length s.now - 1) s.now }
    {
        self.start::<F>(s);
        self.run::<F>(stop);
    }
}
