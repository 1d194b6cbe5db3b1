// The shares of a source, gathered for a listing: a source is asked once for each place, and what the stages work on are plain numbers.
#![tactic(auto)]

ghost use Rattle.std.specs.Prelude.{◌≡◌, ◌≤◌, length, IfOk, OnOk};
ghost use Rattle.codes.specs.First.{or_else};
ghost use Rattle.codes.specs.Opening.{fault_of};
ghost use Rattle.fields.specs.Numbers.{AllBelow};
ghost use Rattle.gathering.specs.Shares.{numbers, count_fault, empty_fault, element_fault, gathering_fault, Gathered};

use codes::first_beyond;
use collections::source::Source;
use faults::ListingFault;

// Refuses a source that has not so many places.
fn check_count<S: Source>(source: &S, count: usize) -> Result<(), ListingFault>
    ensures { fault_of result ≡ count_fault count (S.Source.told source.now) }
{
    let told = source.count();
    if told != count {
        return Err(ListingFault::SourceCount { count: told });
    }
    Ok(())
}

// Writes the shares of the first places, up to the first that is empty.
fn copy<S: Source>(source: &S, out: &mut [u16]) -> Result<(), ListingFault>
    requires { length (S.Source.told source.now) ≡ length out.old }
    ensures fault { fault_of result ≡ empty_fault (S.Source.told source.now) }
    ensures shares { OnOk result (out.new ≡ numbers (S.Source.told source.now)) }
{
    for (place, number) in out.iter_mut().enumerate() {
        *number = source
            .place(place)
            .ok_or(ListingFault::EmptyPlace { place })?;
    }
    Ok(())
}

// Refuses numbers that are no elements of a field of q elements.
#[tactic(auto, using(crate::proofs::Copies::elements_first))]
fn check_elements(q: u16, xs: &[u16]) -> Result<(), ListingFault>
    ensures { fault_of result ≡ element_fault q xs.now }
{
    match first_beyond(q, xs) {
        Some(place) => Err(ListingFault::NotAnElement {
            place,
            value: xs[place],
        }),
        None => Ok(()),
    }
}

// Writes the shares of the source, which are elements of a field of q elements.
fn fill<S: Source>(source: &S, q: u16, out: &mut [u16]) -> Result<(), ListingFault>
    requires { length (S.Source.told source.now) ≡ length out.old }
    ensures fault { fault_of result ≡ or_else (empty_fault (S.Source.told source.now)) (element_fault q (numbers (S.Source.told source.now))) }
    ensures shares { OnOk result (out.new ≡ numbers (S.Source.told source.now)) }
    ensures below { OnOk result (AllBelow q out.new) }
{
    copy(source, out)?;
    check_elements(q, out)
}

// The shares of a source, at the front of an array, for a code of so many places over a field of q elements. The array has a fixed size, since there is no heap.
pub fn gather<S: Source>(source: &S, count: usize, q: u16) -> Result<[u16; 32], ListingFault>
    requires { count ≤ 32 }
    ensures fault { fault_of result ≡ gathering_fault q count (S.Source.told source.now) }
    ensures gathered { IfOk result (Gathered q count (S.Source.told source.now)) }
{
    check_count(source, count)?;
    let mut shares = [0; 32];
    fill(source, q, &mut shares[0..count])?;
    Ok(shares)
}
