#![tactic(auto)]

ghost use Rattle.std.specs.Prelude.{◌≡◌, length};
ghost use Rattle.codes.specs.Valid.{Places, Dimension, NonZero, Distinct};

mod checking;
mod issuing;
mod parts;
mod proposing;
mod settings;
pub mod theorems;

pub use issuing::{first_beyond, issue};
pub use proposing::propose;

// A radius τ, a multiplicity s and a list limit ℓ.
#[derive(Clone, Copy, PartialEq, Eq, Debug)]
pub struct Setting {
    pub radius: u8,
    pub multiplicity: u8,
    pub list_limit: u8,
}

// All that opening is given: a point and a multiplier for each place, the threshold k and the setting.
#[derive(Clone, Copy)]
pub struct Opening<'a> {
    pub points: &'a [u16],
    pub multipliers: &'a [u16],
    pub threshold: u8,
    pub setting: Setting,
}

// A code that was checked against a field of q elements. Beyond its places the arrays are zero.
// Arrays with their count: codes live in fixed memory, without a heap.
#[derive(Clone, Copy)]
pub struct Code {
    q: u16,
    count: usize,
    points: [u16; 32],
    multipliers: [u16; 32],
    threshold: u8,
    ghost points_length: { length points ≡ 32 },
    ghost multipliers_length: { length multipliers ≡ 32 },
    ghost places: { Places q count },
    ghost dimension: { Dimension count threshold },
    ghost points_non_zero: { NonZero q count points },
    ghost points_distinct: { Distinct count points },
    ghost multipliers_non_zero: { NonZero q count multipliers },
}

#[cfg(test)]
mod tests {
    use super::*;
    use faults::CodeFault;
    use fields::Mod7;

    // What is wrong with an opening modulo 7 with radius 3 and multiplicity 2, and its number.
    fn fault<'a>(
        points: &'a [u16],
        multipliers: &'a [u16],
        threshold: u8,
        list_limit: u8,
    ) -> Option<(u8, CodeFault)> {
        let setting = Setting {
            radius: 3,
            multiplicity: 2,
            list_limit,
        };
        let given = Opening {
            points,
            multipliers,
            threshold,
            setting,
        };
        match given.check(7) {
            Ok(_) => None,
            Err(e) => Some((e.refusal().number, e)),
        }
    }

    // Each check of opening before those that follow it.
    #[test]
    fn first_check_refuses(rt: HostRuntime) {
        let multipliers = [1, 1, 0, 1, 1, 1];
        let setting = CodeFault::Setting {
            radius: 3,
            multiplicity: 2,
            list_limit: 3,
        };
        let count = CodeFault::PlaceCount {
            points: 5,
            multipliers: 6,
        };
        assert_eq!(rt;
            fault(&[1, 7, 3, 1, 5], &multipliers, 6, 3),
            Some((1, count))
        );
        assert_eq!(rt;
            fault(&[1, 7, 3, 1, 5, 6], &multipliers, 6, 3),
            Some((2, CodeFault::Threshold { threshold: 6 }))
        );
        assert_eq!(rt;
            fault(&[1, 2, 3, 1, 5, 7], &multipliers, 2, 3),
            Some((3, CodeFault::Point { place: 5 }))
        );
        assert_eq!(rt;
            fault(&[1, 2, 3, 1, 5, 6], &multipliers, 2, 3),
            Some((4, CodeFault::RepeatedPoint { place: 3 }))
        );
        assert_eq!(rt;
            fault(&[1, 2, 3, 4, 5, 6], &multipliers, 2, 3),
            Some((5, CodeFault::Multiplier { place: 2 }))
        );
        assert_eq!(rt;
            fault(&[1, 2, 3, 4, 5, 6], &[1; 6], 2, 3),
            Some((6, setting))
        );
        assert_eq!(rt; fault(&[1, 2, 3, 4, 5, 6], &[1; 6], 2, 4), None);
    }

    // The area after issuing by a code of three places modulo 7, 9 where nothing was written.
    fn issued(message: &[u16]) -> [u16; 4] {
        let mut area = [9; 4];
        let setting = Setting {
            radius: 0,
            multiplicity: 1,
            list_limit: 1,
        };
        let given = Opening {
            points: &[1, 2, 3],
            multipliers: &[1, 2, 3],
            threshold: 2,
            setting,
        };
        if let Ok(code) = given.check(7) {
            let _ = issue::<Mod7>(&code, message, &mut area);
        }
        area
    }

    #[test]
    fn issues(rt: HostRuntime) {
        assert_eq!(rt; issued(&[1, 1]), [2, 6, 5, 9]);
        assert_eq!(rt; issued(&[1, 7]), [9; 4]);
        assert_eq!(rt; issued(&[1]), [9; 4]);
    }
}
