// The question that the roots call is asked, and what is wrong with it.
ghost use Rattle.std.specs.Prelude.{◌≡◌, ℕ, ◌<◌, length, IfSome};
ghost use Rattle.codes.specs.Opening.{fault_of};
ghost use Rattle.roots.specs.Asked.{asked, all_zero, shape_fault, numbers_fault, areas_fault, roots_fault};

use codes::first_beyond;
use faults::ListingFault;
use fields::Field;
use leaves::Question;

// What the work area of the roots call needs.
pub const WORK: usize = 400_000;

// Whether all numbers are zero.
fn is_zero(xs: &[u16]) -> bool
    ensures { result ≡ all_zero xs.now }
{
    xs.iter().all(|x| *x == 0)
}

// 17: a size, a bound or the length of the form is wrong.
fn check_shape(question: Question<'_>) -> Result<(), ListingFault>
    ensures { fault_of result ≡ shape_fault (asked question.entry) }
{
    if question.degree == 0
        || question.degree > 8
        || question.length == 0
        || question.length > 400
    {
        return Err(ListingFault::Shape);
    }
    if question.w1 > 31 || question.w2 > 31 {
        return Err(ListingFault::Shape);
    }
    if question.form.len() != (question.degree + 1) * question.length {
        return Err(ListingFault::Shape);
    }
    Ok(())
}

// 8 and 16: a number is no element, or all are zero.
fn check_numbers(question: Question<'_>, q: u16) -> Result<(), ListingFault>
    ensures { fault_of result ≡ numbers_fault q (asked question.entry) }
{
    let form = question.form;
    if let Some(place) = first_beyond(q, form) {
        return Err(ListingFault::NotAnElement {
            place,
            value: form[place],
        });
    }
    if is_zero(form) {
        return Err(ListingFault::ZeroForm);
    }
    Ok(())
}

// 10 and 11: an area is too short. Not the check of a listing: here the work area follows no setting.
fn check_areas(question: Question<'_>, records: usize, numbers: usize) -> Result<(), ListingFault>
    ensures { fault_of result ≡ areas_fault (asked question.entry) records numbers }
{
    if records < question.degree {
        return Err(ListingFault::ResultArea { length: records });
    }
    if numbers < WORK {
        return Err(ListingFault::WorkArea { length: numbers });
    }
    Ok(())
}

// What refuses the question, with a result area of so many records and a work area of so many numbers.
pub fn check<F: Field>(
    question: Question<'_>,
    records: usize,
    numbers: usize,
) -> Result<(), ListingFault>
    ensures { fault_of result ≡ roots_fault F.Field.numbers.q (asked question.entry) records numbers }
{
    check_shape(question)?;
    check_numbers(question, F::Q)?;
    check_areas(question, records, numbers)
}
