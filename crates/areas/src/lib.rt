// The areas that a caller lends: a work area that is overwritten with zeros when it is let go, on every way out of the call that works in it, and a
// run that is written into an area.
#![tactic(auto)]

ghost use Rattle.std.specs.Prelude.{◌≡◌, ◌+◌, ◌≤◌, ◌++◌, length, take, drop};
ghost use Rattle.areas.specs.Zeros.{AllZero};

// Made around a lent area at the start of a call: `let guard = Wipe { area: work };`. The call works in `guard.area`.
pub struct Wipe<'a> {
    pub area: &'a mut [u16],
}

impl Drop for Wipe<'_> {
    fn drop(self)
        ensures { AllZero self.exit.0.now }
    {
        self.area.fill(0);
        let Wipe { area: _ } = self;
    }
}

// Writes a run from the place `at` on.
pub fn put<T: Copy>(out: &mut [T], at: usize, run: &[T])
    requires { at + length run.now ≤ length out.old }
    ensures { out.new ≡ take at out.old ++ (run.now ++ drop (at + length run.now) out.old) }
{
    out[at..at + run.len()].copy_from_slice(run);
}

#[cfg(test)]
mod tests {
    use super::*;

    #[test]
    fn wipes_what_was_written(rt: HostRuntime) {
        let mut work = [5u16; 3];
        {
            let guard = Wipe { area: &mut work };
            guard.area[1] = 7;
        }
        assert!(rt; work == [0, 0, 0]);
    }
}
