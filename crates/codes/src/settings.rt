ghost use Rattle.std.specs.Prelude.{◌≡◌, ◌<◌, ◌≤◌, true, Decides};
ghost use Rattle.codes.specs.Settings.{conditions, workable, reaches, accepts, small, work_area, Consequences};
ghost use Rattle.decoding.specs.Setting.{Accepted};

use crate::Setting;

impl Setting {
    // The number of conditions on an interpolant for a code of n places.
    fn conditions(self, n: u8) -> u32
        ensures { result ≡ conditions n self.multiplicity }
    {
        let s = u32::from(self.multiplicity);
        u32::from(n) * (s * (s + 1)) / 2
    }

    // Whether 1 ≤ s ≤ ℓ ≤ 8, with few enough conditions.
    fn is_workable(self, n: u8) -> bool
        ensures { result ≡ workable n self.multiplicity self.list_limit }
    {
        let (s, l) = (self.multiplicity, self.list_limit);
        1 <= s && s <= l && l <= 8 && self.conditions(n) <= 400
    }

    // Whether the radius is within half the distance d, or an interpolant has more coefficients than conditions.
    fn reaches(self, n: u8, d: u8) -> bool
        ensures { result ≡ reaches n d self.radius self.multiplicity self.list_limit }
    {
        let (n, d, tau) = (u32::from(n), u32::from(d), u32::from(self.radius));
        let s = u32::from(self.multiplicity);
        let l = u32::from(self.list_limit);
        2 * tau < d || n * (s * (s + 1)) + l * (l + 1) * (2 * tau - d) < 2 * (l + 1) * (s * tau)
    }

    fn passes(self, n: u8, k: u8) -> bool
        ensures { result ≡ accepts n k self.radius self.multiplicity self.list_limit }
    {
        1 <= k && k < n && self.is_workable(n) && self.reaches(n, n - k + 1)
    }

    // Whether the setting may be used with a code of n places and the threshold k.
    pub fn is_accepted(self, n: u8, k: u8) -> bool
        ensures computed { result ≡ accepts n k self.radius self.multiplicity self.list_limit }
        ensures follows { result ≡ true → Consequences n k self.radius self.multiplicity self.list_limit }
        ensures exact { Decides result (Accepted n k self.radius self.multiplicity self.list_limit) }
    {
        self.passes(n, k)
    }

    pub fn is_small(self, n: u8) -> bool
        ensures { result ≡ small n self.multiplicity }
    {
        n <= 16 && self.conditions(n) <= 120
    }

    // The length of the work area for a listing of a code of n places.
    pub fn work_area(self, n: u8) -> usize
        ensures { result ≡ work_area n self }
    {
        if self.is_small(n) { 32_000 } else { 400_000 }
    }
}
