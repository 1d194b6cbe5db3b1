use crate::{Weights, write_basis};
use codes::{Opening, Setting};
use collections::Collection;
use faults::CollectionFault;
use fields::Mod7;

// S = 3 + x + x² + 6x³, h10 = 3 + 4x + 2x², h11 = 6 + 6x, h20 = 2, h21 = 4 + x + 3x², and what lay beyond them.
const WRITTEN: [u16; 26] = [
    3, 1, 1, 6, 0, 3, 4, 2, 0, 0, 6, 6, 0, 0, 0, 2, 0, 0, 0, 0, 4, 1, 3, 0, 0, 9,
];

// Six places modulo 7, k = 2, τ = 3, s = 2, ℓ = 4.
fn open(c: &mut Collection<Mod7>) -> Result<(), CollectionFault> {
    c.open(Opening {
        points: &[1, 2, 3, 4, 5, 6],
        multipliers: &[1, 1, 1, 1, 1, 1],
        threshold: 2,
        setting: Setting {
            radius: 3,
            multiplicity: 2,
            list_limit: 4,
        },
    })
}

// The weights, or the number of the refusal: refusals are known by their numbers.
fn written(c: &Collection<Mod7>, out: &mut [u16]) -> Result<Weights, u8> {
    write_basis(c, c, out).map_err(|fault| fault.refusal().number)
}

fn fill(c: &mut Collection<Mod7>) {
    for (place, value) in [0, 0, 0, 5, 6, 0].iter().enumerate() {
        let _ = c.enter(place, *value);
    }
}

#[test]
fn the_worked_basis(rt: HostRuntime) {
    let mut c = Collection::<Mod7>::new();
    let mut out = [9; 26];
    assert!(rt; written(&c, &mut out) == Err(20));
    assert!(rt; open(&mut c).is_ok());
    assert!(rt; written(&c, &mut out) == Err(24));
    fill(&mut c);
    assert!(rt; written(&c, &mut out[0..24]) == Err(10));
    assert!(rt; out == [9; 26]);
    assert!(rt; written(&c, &mut out) == Ok(Weights { w1: 0, w2: 1 }));
    assert!(rt; out == WRITTEN);
}
