// One pair of all that differ by a constant factor.
ghost use Rattle.std.specs.Prelude.{◌≡◌};
ghost use Rattle.algebra.specs.Poly.{pzero, Degree};
ghost use Rattle.fields.specs.Numbers.{AllBelow, ring_of};
ghost use Rattle.polynomials.specs.Series.{poly};
ghost use Rattle.leaves.specs.Normalised.{Leads, Normalised};

use fields::Field;
use polynomials::{scale, size};

// The coefficient that becomes 1: the leading one of f2, or the constant f1 where f2 is zero.
fn leading<F: Field>(f1: &[u16], f2: &[u16]) -> u16
    requires first { AllBelow F.Field.numbers.q f1.now }
    requires second { AllBelow F.Field.numbers.q f2.now }
    requires proper { poly F.Field.numbers f2.now ≡ pzero (ring_of F.Field.numbers) → Degree (ring_of F.Field.numbers) 0 (poly F.Field.numbers f1.now) }
    ensures { Leads F.Field.numbers f1.now f2.now result }
{
    let n = size::<F>(f2);
    if n > 0 { f2[n - 1] } else { f1[0] }
}

// Divides both polynomials by a constant, so that f2 has the leading coefficient 1, or f1 = 1 where f2 = 0.
pub fn normalise<F: Field>(f1: &mut [u16], f2: &mut [u16])
    requires first { AllBelow F.Field.numbers.q f1.old }
    requires second { AllBelow F.Field.numbers.q f2.old }
    requires proper { poly F.Field.numbers f2.old ≡ pzero (ring_of F.Field.numbers) → Degree (ring_of F.Field.numbers) 0 (poly F.Field.numbers f1.old) }
    ensures { Normalised F.Field.numbers f1.old f2.old f1.new f2.new }
{
    let inverse = F::inv(leading::<F>(f1, f2));
    scale::<F>(f1, inverse);
    scale::<F>(f2, inverse);
}
