// What pairs are sifted by.
ghost use Rattle.std.specs.Prelude.{◌≡◌, ◌≤◌, length, ⊤};
ghost use Rattle.fields.specs.Numbers.{AllBelow};
ghost use Rattle.sift.specs.Interpolation.{Distinct};
ghost use Rattle.sift.specs.Received.{NonZero};

use fields::Field;
use received::Received;
use std::alloc::AllocError;

// What came in for the places of a code, the threshold and the radius, and the second entries h1, h2 of the two rows at which Euclid's algorithm stops.
// The points are distinct, and no point and no multiplier is 0.
pub struct Sieve<'a, F: Field> {
    pub received: Received<'a, F>,
    pub threshold: usize,
    pub radius: usize,
    pub h1: &'a [u16],
    pub h2: &'a [u16],
    pub ghost distinct: { Distinct received.points.now },
    pub ghost points_nonzero: { NonZero received.points.now },
    pub ghost multipliers_nonzero: { NonZero received.multipliers.now },
    pub ghost fewer: { threshold ≤ length received.points.now },
    pub ghost first_row: { AllBelow F.Field.numbers.q h1.now },
    pub ghost second_row: { AllBelow F.Field.numbers.q h2.now },
}

// By hand, as that of `Received`.
impl<'a, F: Field> Clone for Sieve<'a, F> {
    ghost is_clone = { λ x y. y ≡ x };

    ghost is_infallible = { λ _. ⊤ };

    fn clone(&self) -> Result<Sieve<'a, F>, AllocError> {
        Ok(*self)
    }
}

impl<'a, F: Field> Copy for Sieve<'a, F> {}
