ghost use Rattle.std.specs.Prelude.{◌≡◌, ◌<◌, ◌≤◌, length, take, IfOk};
ghost use Rattle.decoding.specs.Setting.{Accepted};
ghost use Rattle.codes.specs.Opening.{given, first_unfit, first_repeat, count_fault, threshold_fault, place_fault, setting_fault, first_fault, fault_of, Holds};

use crate::{Code, Opening, Setting};
use faults::CodeFault;

// The first place whose number is 0 or no element of a field of q elements.
fn first_unfit(q: u16, xs: &[u16]) -> Option<usize>
    ensures { result ≡ first_unfit q xs.now }
{
    xs.iter().position(|x| *x == 0 || *x >= q)
}

// The first place whose number stands at an earlier place too.
fn first_repeat(xs: &[u16]) -> Option<usize>
    ensures { result ≡ first_repeat xs.now }
{
    (0..xs.len()).find(|i| xs[..*i].contains(&xs[*i]))
}

// The numbers with zeros behind them.
fn padded(xs: &[u16]) -> [u16; 32]
    requires { length xs.now ≤ 32 }
    ensures length { length result ≡ 32 }
    ensures front { take (length xs.now) result ≡ xs.now }
{
    let mut at = [0; 32];
    at[..xs.len()].copy_from_slice(xs);
    at
}

impl Opening<'_> {
    fn check_count(self, q: u16) -> Result<(), CodeFault>
        ensures { fault_of result ≡ count_fault q (given self.entry) }
    {
        let (points, multipliers) = (self.points.len(), self.multipliers.len());
        if points < 2 || points > 32 || points >= usize::from(q) || multipliers != points {
            return Err(CodeFault::PlaceCount {
                points,
                multipliers,
            });
        }
        Ok(())
    }

    fn check_threshold(self) -> Result<(), CodeFault>
        ensures { fault_of result ≡ threshold_fault (given self.entry) }
    {
        let threshold = self.threshold;
        if threshold == 0 || usize::from(threshold) >= self.points.len() {
            return Err(CodeFault::Threshold { threshold });
        }
        Ok(())
    }

    fn check_places(self, q: u16) -> Result<(), CodeFault>
        ensures { fault_of result ≡ place_fault q (given self.entry) }
    {
        if let Some(place) = first_unfit(q, self.points) {
            return Err(CodeFault::Point { place });
        }
        if let Some(place) = first_repeat(self.points) {
            return Err(CodeFault::RepeatedPoint { place });
        }
        if let Some(place) = first_unfit(q, self.multipliers) {
            return Err(CodeFault::Multiplier { place });
        }
        Ok(())
    }

    fn check_setting(self) -> Result<(), CodeFault>
        requires { length self.points.now ≤ 32 }
        ensures { fault_of result ≡ setting_fault (given self.entry) }
    {
        let n = self.points.len() as u8;
        if self.setting.is_accepted(n, self.threshold) {
            return Ok(());
        }
        let Setting {
            radius,
            multiplicity,
            list_limit,
        } = self.setting;
        Err(CodeFault::Setting {
            radius,
            multiplicity,
            list_limit,
        })
    }

    // The code over a field of q elements, or what is wrong with it or with the setting.
    pub fn check(self, q: u16) -> Result<Code, CodeFault>
        ensures fault { fault_of result ≡ first_fault q (given self.entry) }
        ensures code { IfOk result (λ c. Holds q (given self.entry) c) }
        ensures accepted { IfOk result (λ c. Accepted c.count c.threshold self.entry.setting.radius self.entry.setting.multiplicity self.entry.setting.list_limit) }
    {
        self.check_count(q)?;
        self.check_threshold()?;
        self.check_places(q)?;
        self.check_setting()?;
        Ok(Code {
            q,
            count: self.points.len(),
            points: padded(self.points),
            multipliers: padded(self.multipliers),
            threshold: self.threshold,
        })
    }
}
