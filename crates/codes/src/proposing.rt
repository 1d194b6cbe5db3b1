ghost use Rattle.std.specs.Prelude.{◌≡◌};
ghost use Rattle.codes.specs.Settings.{least_limit, least_setting, proposal, Proposed};

use crate::Setting;
use faults::CodeFault;

// What a setting is proposed for: the number of places n, the threshold k and a radius.
#[derive(Clone, Copy)]
struct Wanted {
    n: u8,
    k: u8,
    radius: u8,
}

impl Wanted {
    // The setting with the least list limit for this multiplicity.
    fn least_limit(self, multiplicity: u8) -> Option<Setting>
        ensures { result ≡ least_limit self.n self.k self.radius multiplicity }
    {
        let Wanted { n, k, radius } = self;
        (1..9)
            .map(|list_limit| Setting {
                radius,
                multiplicity,
                list_limit,
            })
            .find(|setting| setting.is_accepted(n, k))
    }

    // The setting with the least multiplicity, and for it the least list limit.
    fn least_setting(self) -> Option<Setting>
        ensures { result ≡ least_setting self.n self.k self.radius }
    {
        (1..9).find_map(|multiplicity| self.least_limit(multiplicity))
    }
}

// Proposes a setting for a code of n places with the threshold k and for a radius.
pub fn propose(n: u8, k: u8, radius: u8) -> Result<Setting, CodeFault>
    ensures is { result ≡ proposal n k radius }
    ensures means { Proposed n k radius result }
{
    if n < 2 || n > 32 {
        let points = usize::from(n);
        return Err(CodeFault::PlaceCount {
            points,
            multipliers: points,
        });
    }
    if k == 0 || k >= n {
        return Err(CodeFault::Threshold { threshold: k });
    }
    Wanted { n, k, radius }
        .least_setting()
        .ok_or(CodeFault::NoSetting)
}
