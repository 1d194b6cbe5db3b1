// Lists the candidates of a share sheet, which comes on standard input: every codeword that is near its shares.
#![tactic(auto)]

use console::{LONGEST, list_sheet};
use std::io;
use std::io::Read;

fn main(rt: HostRuntime) -> io::Result<()> {
    let mut bytes = Vec::new(rt.alloc());
    rt.stdin().take(LONGEST + 1).read_to_end(&mut bytes)?;
    let report = list_sheet(rt.alloc(), &bytes)?;
    print!(rt; "{report}")
}
