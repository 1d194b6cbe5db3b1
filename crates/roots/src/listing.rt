// Both charts, and the roots call.
ghost use Rattle.std.specs.Prelude.{◌≡◌, suc, ◌+◌, ◌*◌, ◌≤◌, length};
ghost use Rattle.areas.specs.Zeros.{AllZero};
ghost use Rattle.codes.specs.Opening.{fault_of};
ghost use Rattle.roots.specs.Asked.{asked, roots_fault, need, Answerable};
ghost use Rattle.roots.specs.Answer.{Listed, Answered};
ghost use Rattle.roots.specs.Desk.{Turns};

use super::asking::check;
use super::finding::{Finder, walk_question, walk_turned};
use super::spreading::spread_turned;
use areas::Wipe;
use faults::ListingFault;
use fields::Field;
use leaves::{Chart, Pair, Question};
use rolls::Roll;
use std::marker::PhantomData;

// Lists what both charts come to, in one roll: a root with f1(0) not zero is found with the form, any other with the turned form.
// The three areas are cut once, by `list_roots`, and each has a length of its own.
fn collect_roots<'f, F: Field>(
    direct: Question<'f>,
    turned: Question<'f>,
    out: &mut [Pair],
    runs: &mut [u16],
    digits: &mut [u16],
    room: &mut [u16],
) -> usize
    requires sized { Answerable F.Field.numbers.q (asked direct) (length out.old) (need (asked direct)) }
    requires turns { Turns F.Field.numbers (asked direct) (asked turned) }
    requires depth { length digits.old ≡ suc (direct.w1 + direct.w2) }
    requires runs { length runs.old ≡ (direct.degree + 1) * (direct.length + direct.degree * length digits.old) }
    requires work { 3 * (direct.length + direct.degree * 31) ≤ length room.old }
    ensures { Listed F.Field.numbers (asked direct.entry) result out.new }
{
    let mut roll = Roll::new(out);
    let mut finder = Finder::<F> {
        chart: Chart::Direct,
        question: direct,
        work: room,
        roll: &mut roll,
        field: PhantomData,
    };
    walk_question::<F>(&mut finder, runs, digits);
    walk_turned::<F>(&mut finder, turned, runs, digits);
    roll.close(Pair::BLANK)
}

// Lists the roots that a question asks for, in order and each once, with blank records beyond them, and answers how many there are. The work area
// is cut into the runs, the digits, the turned form and what a leaf works with.
pub fn list_roots<F: Field>(question: Question<'_>, out: &mut [Pair], work: &mut [u16]) -> usize
    requires { Answerable F.Field.numbers.q (asked question) (length out.old) (length work.old) }
    ensures { Listed F.Field.numbers (asked question.entry) result out.new }
{
    let degree = question.degree;
    let depth = question.w1 + question.w2 + 1;
    let (runs, rest) = work.split_at_mut((degree + 1) * (question.length + degree * depth));
    let (digits, rest) = rest.split_at_mut(depth);
    let (copy, room) = rest.split_at_mut((degree + 1) * question.length);
    spread_turned::<F>(
        question.form,
        question.length,
        degree,
        question.length,
        copy,
    );
    let turned = Question {
        form: copy,
        degree,
        length: question.length,
        w1: question.w2,
        w2: question.w1,
    };
    collect_roots::<F>(question, turned, out, runs, digits, room)
}

// Every coprime pair within the bounds at which the form vanishes, each once, normalised and in order, or the first check that refuses.
pub fn roots<F: Field>(
    question: Question<'_>,
    out: &mut [Pair],
    work: &mut [u16],
) -> Result<usize, ListingFault>
    ensures fault { fault_of result ≡ roots_fault F.Field.numbers.q (asked question.entry) (length out.old) (length work.old) }
    ensures answered { Answered F.Field.numbers (asked question.entry) out.old result out.new }
    ensures wiped { AllZero work.new }
{
    let guard = Wipe { area: work };
    check::<F>(question, out.len(), guard.area.len())?;
    Ok(list_roots::<F>(question, out, guard.area))
}
