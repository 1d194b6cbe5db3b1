// The integers modulo 929.
ghost use Rattle.std.proofs.Common.{lit<};
ghost use Rattle.fields.specs.Modular.{modular};

use crate::{Modular, Modulus};

pub struct NineTwentyNine;

impl Modulus for NineTwentyNine {
    const Q: u16 = 929;

    const SHEET_NUMBER: u8 = 4;

    ghost Q = { 929 };

    ghost SHEET_NUMBER = { 4 };

    ghost laws = { modular 929 (lit< tt) tt };
}

pub type Mod929 = Modular<NineTwentyNine>;
