// The integers modulo a prime: sums, opposites, products and inverses, each 0 for an operand of q or more.
ghost use Rattle.std.specs.Prelude.{◌≡◌, refl, ℕ, ◌*◌, ◌%◌, ◌^◌, ◌<◌};
ghost use Rattle.fields.specs.Laws.{Laws};
ghost use Rattle.fields.specs.Modular.{add_mod, neg_mod, mul_mod, inv_mod};
ghost use Rattle.fields.specs.Total.{numbers_of};

use crate::Field;
use std::marker::PhantomData;

// A prime below 2^16. That the integers modulo it obey the laws of a field is all that it has to show.
pub trait Modulus {
    // The prime itself.
    const Q: u16;

    ghost Q: { ℕ };

    // The number that stands for its field in a share sheet.
    const SHEET_NUMBER: u8;

    ghost SHEET_NUMBER: { ℕ };

    ghost laws: { Laws Q (add_mod Q) (neg_mod Q) (mul_mod Q) (inv_mod Q) };
}

// The field of the integers modulo M::Q.
pub struct Modular<M>(PhantomData<M>);

impl<M: Modulus> Field for Modular<M> {
    const Q: u16 = M::Q;

    const SHEET_NUMBER: u8 = M::SHEET_NUMBER;

    ghost Q = { M.Modulus.Q };

    ghost SHEET_NUMBER = { M.Modulus.SHEET_NUMBER };

    ghost numbers = { numbers_of M.Modulus.laws };

    fn add(a: u16, b: u16) -> u16 {
        if a < M::Q && b < M::Q {
            ((u32::from(a) + u32::from(b)) % u32::from(M::Q)) as u16
        } else {
            0
        }
    }

    fn neg(a: u16) -> u16 {
        if a < M::Q { (M::Q - a) % M::Q } else { 0 }
    }

    fn mul(a: u16, b: u16) -> u16 {
        if a < M::Q && b < M::Q {
            product(M::Q, a, b)
        } else {
            0
        }
    }

    fn inv(a: u16) -> u16 {
        if 0 < a && a < M::Q {
            power(M::Q, a, M::Q - 2)
        } else {
            0
        }
    }

    ghost counts = { refl };
}

// a·b modulo q.
fn product(q: u16, a: u16, b: u16) -> u16
    requires { 0 < q }
    ensures { result ≡ a * b % q }
{
    ((u32::from(a) * u32::from(b)) % u32::from(q)) as u16
}

// base^exponent modulo q: the factors are base, base^2, base^4, .. as the bits of the exponent say.
// By a loop that halves the exponent: no index is counted, and it ends at the highest bit.
fn power(q: u16, base: u16, exponent: u16) -> u16
    requires { 1 < q }
    ensures { result ≡ base ^ exponent % q }
{
    let mut result = 1;
    let mut factor = base;
    let mut rest = exponent;
    while rest > 0 {
        if rest % 2 == 1 {
            result = product(q, result, factor);
        }
        factor = product(q, factor, factor);
        rest /= 2;
    }
    result
}
