// Compares the roots call with trying every pair, over the field of 7 elements: for each of eight planted pairs, the 64 forms of degree 3 that are the product of
// its factor with the factors of two planted pairs. Prints a line for each, with the number of roots of each form, or `!` where the two differ.
#![tactic(auto)]

mod plain;

use fields::Mod7;
use leaves::Pair;
use plain::{FORM, Lines, RUN, times};
use roots::{Question, roots};
use std::io;

// A pair with what is told of it.
#[derive(Clone, Copy)]
struct Planted {
    name: &'static str,
    pair: Lines,
}

const PLANTED: [Planted; 8] = [
    Planted {
        name: "1, 1",
        pair: Lines {
            first: [1, 0],
            second: [1, 0],
        },
    },
    Planted {
        name: "f1 zero at 0: x, 3 + x",
        pair: Lines {
            first: [0, 1],
            second: [3, 1],
        },
    },
    Planted {
        name: "f2 zero at 0: 2 + x, x",
        pair: Lines {
            first: [2, 1],
            second: [0, 1],
        },
    },
    Planted {
        name: "f1 = 0: 0, 1",
        pair: Lines {
            first: [0, 0],
            second: [1, 0],
        },
    },
    Planted {
        name: "f2 = 0: 1, 0",
        pair: Lines {
            first: [1, 0],
            second: [0, 0],
        },
    },
    Planted {
        name: "not normal: 3, 2 + 5 x",
        pair: Lines {
            first: [3, 0],
            second: [2, 5],
        },
    },
    Planted {
        name: "not coprime, a form divisible by x: x, 4 x",
        pair: Lines {
            first: [0, 1],
            second: [0, 4],
        },
    },
    Planted {
        name: "2 + x, 3 + x",
        pair: Lines {
            first: [2, 1],
            second: [3, 1],
        },
    },
];

// What was counted.
#[derive(Clone, Copy)]
struct Tally {
    listed: usize,
    tried: usize,
    both: usize,
}

// Tries every pair. By the numbers below 7^4, each of which stands for a pair; both counts are made in one pass.
fn try_all(form: &[u16; FORM], found: &[Pair]) -> Tally {
    let mut tried = 0;
    let mut both = 0;
    for n in 0..2401u16 {
        let pair = Lines {
            first: [n / 343, n / 49 % 7],
            second: [n / 7 % 7, n % 7],
        };
        if pair.is_root_of(form) {
            tried += 1;
            let Lines { first, second } = pair;
            if found.iter().any(|record| record.first.starts_with(&first)
                && record.second.starts_with(&second))
            {
                both += 1;
            }
        }
    }
    Tally {
        listed: found.len(),
        tried,
        both,
    }
}

// Lists the roots of a form, and tries every pair. Nothing refuses the forms that are made here.
fn compare(form: &[u16; FORM], work: &mut [u16]) -> Tally {
    let mut out = [Pair::BLANK; 3];
    let question = Question {
        form,
        degree: 3,
        length: RUN,
        w1: 1,
        w2: 1,
    };
    let count = roots::<Mod7>(question, &mut out, work).unwrap_or(0);
    try_all(form, &out[..count])
}

// How many roots the form has, or a mark where the call and trying differ.
fn print_form(rt: &impl Print, form: &[u16; FORM], work: &mut [u16]) -> io::Result<()> {
    let tally = compare(form, work);
    let listed = tally.listed;
    if tally.tried == listed && tally.both == listed {
        print!(rt; "{listed}")
    } else {
        print!(rt; "!")
    }
}

// Tries the products of a product of two factors with any third.
fn print_thirds(rt: &impl Print, two: &[u16; FORM], work: &mut [u16]) -> io::Result<()> {
    for third in PLANTED {
        print_form(rt, &times(two, &third.pair.factor()), work)?;
    }
    Ok(())
}

// A line for the products of the first factor with any two.
fn print_products(rt: &impl Print, first: Planted, work: &mut [u16]) -> io::Result<()> {
    let name = first.name;
    for second in PLANTED {
        let two = times(&first.pair.factor(), &second.pair.factor());
        print_thirds(rt, &two, work)?;
    }
    println!(rt; "  {name}")
}

fn main(rt: HostRuntime) -> io::Result<()> {
    let mut work = vec![in rt.alloc(); 0u16; 400_000]?;
    for first in PLANTED {
        print_products(&rt, first, work.as_mut_slice())?;
    }
    Ok(())
}
