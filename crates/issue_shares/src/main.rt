// Issues the shares of a message by a share sheet: the sheet comes on standard input, the message's numbers are the arguments.
#![tactic(auto)]

use issuance::{Issued, issue_sheet};
use std::io::Read;
use std::{env, io};

// The number that an argument spells. One that spells no number of 16 bits counts as the largest, which is no element of any field.
fn number(text: &str) -> u16 {
    text.parse().unwrap_or(u16::MAX)
}

// One line for the code, and one for each place.
fn print_issued(rt: &impl Print, issued: &Issued) -> io::Result<()> {
    println!(rt; "{issued}")?;
    // By place: there is no list of shares to go over, each is made when it is asked for.
    for place in 0..issued.count() {
        rt.println(issued.share(place))?;
    }
    Ok(())
}

fn main(rt: HostRuntime) -> io::Result<()> {
    let mut bytes = Vec::new(rt.alloc());
    rt.stdin().read_to_end(&mut bytes)?;
    let message: Vec<u16> = env::args(&rt)?
        .skip(1)
        .map(|word| number(&word))
        .collect(rt.alloc())?;
    match issue_sheet(&bytes, &message) {
        Ok(issued) => print_issued(&rt, &issued),
        Err(fault) => println!(rt; "{fault}"),
    }
}
