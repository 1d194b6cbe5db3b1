// What came in for the places of a code.
#![tactic(auto)]

ghost use Rattle.std.specs.Prelude.{◌≡◌, length, ⊤};
ghost use Rattle.fields.specs.Numbers.{AllBelow};

use fields::Field;
use std::alloc::AllocError;
use std::marker::PhantomData;

// A point, a multiplier and a share for each place, all of them elements of the field.
pub struct Received<'a, F: Field> {
    pub points: &'a [u16],
    pub multipliers: &'a [u16],
    pub shares: &'a [u16],
    field: PhantomData<F>,
    pub ghost points_below: { AllBelow F.Field.numbers.q points.now },
    pub ghost multipliers_below: { AllBelow F.Field.numbers.q multipliers.now },
    pub ghost shares_below: { AllBelow F.Field.numbers.q shares.now },
    pub ghost a_multiplier_each: { length multipliers.now ≡ length points.now },
    pub ghost a_share_each: { length shares.now ≡ length points.now },
}

// By hand, since none is derived for a struct with both a type parameter and ghost fields. As a derived one, it gives the same value and does not fail.
impl<'a, F: Field> Clone for Received<'a, F> {
    ghost is_clone = { λ x y. y ≡ x };

    ghost is_infallible = { λ _. ⊤ };

    fn clone(&self) -> Result<Received<'a, F>, AllocError> {
        Ok(*self)
    }
}

impl<'a, F: Field> Copy for Received<'a, F> {}

impl<'a, F: Field> Received<'a, F> {
    // The three lists as they are.
    pub fn new(points: &'a [u16], multipliers: &'a [u16], shares: &'a [u16]) -> Received<'a, F>
        requires points { AllBelow F.Field.numbers.q points.now }
        requires multipliers { AllBelow F.Field.numbers.q multipliers.now }
        requires shares { AllBelow F.Field.numbers.q shares.now }
        requires a_multiplier_each { length multipliers.now ≡ length points.now }
        requires a_share_each { length shares.now ≡ length points.now }
        ensures points { result.points.now ≡ points.now }
        ensures multipliers { result.multipliers.now ≡ multipliers.now }
        ensures shares { result.shares.now ≡ shares.now }
    {
        Received {
            points,
            multipliers,
            shares,
            field: PhantomData,
        }
    }
}
