// The integers modulo 7.
ghost use Rattle.std.proofs.Common.{lit<};
ghost use Rattle.fields.specs.Modular.{modular};

use crate::{Modular, Modulus};

pub struct Seven;

impl Modulus for Seven {
    const Q: u16 = 7;

    const SHEET_NUMBER: u8 = 1;

    ghost Q = { 7 };

    ghost SHEET_NUMBER = { 1 };

    ghost laws = { modular 7 (lit< tt) tt };
}

pub type Mod7 = Modular<Seven>;
