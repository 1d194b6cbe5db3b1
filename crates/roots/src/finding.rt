// A leaf that holds its question and the roll of what it finds, and the walks of both charts by it.
ghost use Rattle.std.specs.Prelude.{◌≡◌, ℕ, suc, ◌+◌, ◌*◌, ◌<◌, ◌≤◌, List, [], length};
ghost use Rattle.leaves.specs.declared.pairs.Chart.TheVariants.{Turned};
ghost use Rattle.digits.specs.Runs.{runs as runs_of};
ghost use Rattle.digits.specs.Walks.{Ends, Walked};
ghost use Rattle.roots.specs.Asked.{asked};
ghost use Rattle.roots.specs.Desk.{desk, desk_of, loans, Seated, Ready, Visit, Entered};

use super::spreading::spread;
use digits::{Leaf, Shape, walk};
use fields::Field;
use leaves::{Chart, Pair, Question};
use polynomials::clear;
use rolls::Roll;
use std::marker::PhantomData;

// The chart, the question in it, an area to work in, and the roll of the roots found so far.
#[derive(Drop)]
pub(crate) struct Finder<'f, 'w, 'r, 's, F> {
    pub chart: Chart,
    pub question: Question<'f>,
    pub work: &'w mut [u16],
    pub roll: &'r mut Roll<'s, Pair>,
    pub field: PhantomData<F>,
}

// Enters what was found.
fn enter(roll: &mut Roll<Pair>, found: Option<Pair>)
    ensures entered { Entered found roll.old.slots.now roll.old.len roll.new.slots.now roll.new.len }
    ensures fits { roll.old.len ≤ length roll.old.slots.now → roll.new.len ≤ length roll.new.slots.now }
    ensures lender { roll.new.slots.ghost_name ≡ roll.old.slots.ghost_name }
{
    if let Some(pair) = found {
        let _ = roll.insert(pair);
    }
}

impl<F: Field> Leaf for Finder<'_, '_, '_, '_, F> {
    ghost takes = { λ s ds. Ready F.Field.numbers.q (desk_of s) ds };

    ghost visits = { λ s ds s'. Visit F.Field.numbers (desk_of s) ds (desk_of s') × (loans s' ≡ loans s) };

    fn visit(&mut self, digits: &[u16]) {
        let found = self
            .question
            .root_at_leaf::<F>(self.chart, digits, self.work);
        enter(self.roll, found);
    }
}

// Visits the ends of the walk over the digits of the finder's question, with these runs and digits to work in.
pub(crate) fn walk_question<F: Field>(finder: &mut Finder<F>, runs: &mut [u16], digits: &mut [u16])
    requires seated { Seated F.Field.numbers.q (desk_of finder.old) }
    requires depth { length digits.old ≡ suc (finder.old.question.w1 + finder.old.question.w2) }
    requires room { length runs.old ≡ (finder.old.question.degree + 1) * (finder.old.question.length + finder.old.question.degree * length digits.old) }
    ensures walked { Walked (Visit F.Field.numbers) (Ends F.Field.numbers finder.old.question.degree (length digits.old) 0 [] (runs_of F.Field.numbers finder.old.question.length finder.old.question.form.now)) (desk_of finder.old) (desk_of finder.new) }
    ensures lenders { loans finder.new ≡ loans finder.old }
{
    let depth = digits.len();
    let question = finder.question;
    let degree = question.degree;
    let width = question.length + degree * depth;
    spread::<F>(question.form, question.length, degree, width, runs);
    clear::<F>(digits);
    let shape = Shape {
        width,
        degree,
        size: width,
        depth,
    };
    walk::<F, Finder<F>>(runs, shape, digits, 0, finder);
}

// The same for the turned form: the finder goes on with its question, and keeps the roll.
pub(crate) fn walk_turned<'f, F: Field>(
    finder: &mut Finder<'f, '_, '_, '_, F>,
    turned: Question<'f>,
    runs: &mut [u16],
    digits: &mut [u16],
)
    requires seated { Seated F.Field.numbers.q (desk Turned (asked turned) (length finder.old.work.now) finder.old.roll.now.slots.now finder.old.roll.now.len) }
    requires depth { length digits.old ≡ suc (turned.w1 + turned.w2) }
    requires room { length runs.old ≡ (turned.degree + 1) * (turned.length + turned.degree * length digits.old) }
    ensures walked { Walked (Visit F.Field.numbers) (Ends F.Field.numbers turned.entry.degree (length digits.old) 0 [] (runs_of F.Field.numbers turned.entry.length turned.entry.form.now)) (desk Turned (asked turned.entry) (length finder.old.work.now) finder.old.roll.now.slots.now finder.old.roll.now.len) (desk_of finder.new) }
    ensures lenders { loans finder.new ≡ loans finder.old }
{
    finder.chart = Chart::Turned;
    finder.question = turned;
    walk_question::<F>(finder, runs, digits);
}
