// Reads a sheet from standard input and says whether its image is accepted and how many addresses it
// covers, or which fault it has.
#![tactic(auto)]

use judge::judge;
use sheet::error::ReadError;
use std::io;
use std::io::Read;

fn main(rt: HostRuntime) -> io::Result<()> {
    let mut text = Vec::new(rt.alloc());
    rt.stdin().read_to_end(&mut text)?;
    match judge(rt.alloc(), text.as_slice()) {
        Ok(report) => println!(rt; "accepted: {report}"),
        Err(ReadError::Fault(e)) => println!(rt; "refused with fault {}, {e}", e.number()),
        Err(ReadError::OutOfMemory) => println!(rt; "not judged: out of memory"),
    }
}
