// Types with a total order that tells any two values apart.
ghost use Rattle.std.specs.Prelude.{◌≡◌, Bool, nat_lt};
ghost use Rattle.rolls.specs.Order.{TotalOrder};
ghost use Rattle.std.proofs.Common.{rules};

pub trait Ordered: Copy {
    ghost less: { Self → Self → Bool };

    fn precedes(&self, other: &Self) -> bool
        ensures { result ≡ less self.now other.now };

    ghost order: { TotalOrder less };
}

impl Ordered for u16 {
    ghost less = { nat_lt };

    ghost order = { Prim.search rules };

    fn precedes(&self, other: &u16) -> bool {
        *self < *other
    }
}
