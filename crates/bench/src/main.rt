// Lists the shares of a fixed set of codes many times, with as many planted errors as the radius: what was listed goes to standard output, and how many
// nanoseconds a listing took to standard error.
#![tactic(auto)]

use candidates::Candidate;
use codes::{Opening, propose};
use collections::Collection;
use collections::source::Source;
use faults::ListingFault;
use fields::{Field, Gf16, Gf256, Mod7, Mod929};
use recovery::list;
use std::io;
use std::time::Instant;

// The points 1 to 32; multipliers and message coefficients that are elements of every field.
const POINTS: [u16; 32] = [
    1, 2, 3, 4, 5, 6, 7, 8, 9, 10, 11, 12, 13, 14, 15, 16, 17, 18, 19, 20, 21, 22, 23, 24, 25, 26,
    27, 28, 29, 30, 31, 32,
];

const MULTIPLIERS: [u16; 32] = [
    1, 3, 2, 6, 4, 5, 2, 1, 6, 3, 5, 4, 1, 2, 5, 3, 6, 4, 2, 2, 3, 1, 5, 6, 4, 1, 3, 3, 2, 5, 1, 6,
];

const MESSAGE: [u16; 32] = [
    3, 1, 4, 1, 5, 2, 6, 5, 3, 5, 1, 2, 6, 4, 3, 2, 1, 6, 2, 5, 3, 4, 1, 5, 2, 6, 3, 4, 5, 1, 2, 3,
];

// A code of n places with the threshold k, the radius of its listings, and how often its shares are listed.
#[derive(Clone, Copy)]
struct Case {
    n: u8,
    k: u8,
    radius: u8,
    rounds: u32,
}

// Enters the word of the message, with an error at each of the first places, as many as the radius.
fn fill<F: Field>(c: &mut Collection<F>, case: Case) {
    let k = usize::from(case.k).min(32);
    let mut word = [0; 32];
    let _ = c.issue(&MESSAGE[..k], &mut word);
    let wrong = usize::from(case.radius);
    let shares = word.iter().zip(&MULTIPLIERS).take(usize::from(case.n));
    for (place, (value, error)) in shares.enumerate() {
        let error = if place < wrong { *error } else { 0 };
        let _ = c.enter(place, F::add(*value, error));
    }
}

// A collection with such shares, under the setting that is proposed.
fn prepare<F: Field>(case: Case) -> Collection<F> {
    let mut c = Collection::<F>::new();
    let count = usize::from(case.n).min(32);
    if let Ok(setting) = propose(case.n, case.k, case.radius) {
        let _ = c.open(Opening {
            points: &POINTS[0..count],
            multipliers: &MULTIPLIERS[0..count],
            threshold: case.k,
            setting,
        });
    }
    fill::<F>(&mut c, case);
    c
}

// Lists the shares so often; answers how many candidates the last listing found.
fn list_often<F: Field>(
    c: &Collection<F>,
    rounds: u32,
    out: &mut [Candidate],
    work: &mut [u16],
) -> Result<usize, ListingFault> {
    let mut count = 0;
    for _ in 0..rounds {
        count = list::<F, Collection<F>>(c, c, out, work)?;
    }
    Ok(count)
}

fn time<F: Field>(rt: &HostRuntime, case: Case, work: &mut [u16]) -> io::Result<()> {
    let c = prepare::<F>(case);
    let mut out = [Candidate::BLANK; 8];
    let start = Instant::now(rt)?;
    let listed = list_often::<F>(&c, case.rounds, &mut out, work);
    let took = start.elapsed(rt)?.as_nanos() / u128::from(case.rounds.max(1));
    let Case {
        n,
        k,
        radius,
        rounds,
    } = case;
    let q = F::Q;
    let Ok(count) = listed else {
        return println!(rt; "elements {q} places {n} threshold {k} radius {radius} refused");
    };
    println!(rt; "elements {q} places {n} threshold {k} radius {radius} candidates {count}")?;
    for found in out.iter().take(count) {
        let distance = found.distance;
        let root = found.message[0];
        println!(rt; "distance {distance} root {root}")?;
    }
    eprintln!(rt;
        "elements {q} places {n} threshold {k} radius {radius}: {took} ns, mean of {rounds}"
    )
}

fn planned(n: u8, k: u8, radius: u8, rounds: u32) -> Case {
    Case {
        n,
        k,
        radius,
        rounds,
    }
}

fn main(rt: HostRuntime) -> io::Result<()> {
    let mut work = vec![in rt.alloc(); 0; 400_000]?;
    time::<Mod7>(&rt, planned(6, 2, 3, 2_000), &mut work[0..32_000])?;
    time::<Gf16>(&rt, planned(15, 4, 7, 500), &mut work[0..32_000])?;
    time::<Gf256>(&rt, planned(16, 4, 8, 500), &mut work[0..32_000])?;
    time::<Gf256>(&rt, planned(20, 5, 10, 200), &mut work)?;
    time::<Gf256>(&rt, planned(32, 8, 15, 100), &mut work)?;
    time::<Gf256>(&rt, planned(32, 8, 16, 50), &mut work)?;
    time::<Mod929>(&rt, planned(20, 5, 10, 200), &mut work)?;
    time::<Mod929>(&rt, planned(32, 8, 16, 50), &mut work)
}
