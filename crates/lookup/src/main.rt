// Reads a sheet, a site for each of its values, and queries from standard input, and answers each
// query in a line of its own. docs/FORMAT.md has the forms of both.
#![tactic(auto)]

use accept::accept::accept;
use accept::image::Image;
use keys::Key;
use nodes::error::ArchiveError;
use query::input::{Input, load};
use query::lines::Lines;
use query::response::respond;
use query::site::Site;
use sheet::error::ReadError;
use std::io;
use std::io::Read;

fn print_fault(rt: &HostRuntime, e: ArchiveError) -> io::Result<()> {
    let number = e.number();
    println!(rt; "fault {number}, {e}")
}

// Answers the lines of queries, which are counted from 1.
fn answer_lines<K: Key + Drop>(
    rt: &HostRuntime,
    image: &Image<Site>,
    queries: &[u8],
) -> io::Result<()> {
    for (number, line) in (1u64..).zip(Lines::of(queries)) {
        match respond::<K>(image, number, line) {
            Ok(answered) => println!(rt; "{answered}")?,
            Err(no_query) => println!(rt; "{no_query}")?,
        }
    }
    Ok(())
}

// Accepts the sheet's nodes with the sites as values, and answers the queries.
fn run<K: Key + Drop>(rt: &HostRuntime, input: &Input) -> io::Result<()> {
    let nodes = input.sheet.nodes.as_slice();
    let sites = input.sites.as_slice();
    match accept::<K, Site>(nodes, sites) {
        Ok(()) => answer_lines::<K>(rt, &Image::new::<K>(nodes, sites), input.queries),
        Err(e) => print_fault(rt, e),
    }
}

// A sheet's keys have 8, 16 or 32 bits.
fn main(rt: HostRuntime) -> io::Result<()> {
    let mut text = Vec::new(rt.alloc());
    rt.stdin().read_to_end(&mut text)?;
    match load(rt.alloc(), text.as_slice()) {
        Ok(input) => match input.sheet.width {
            8 => run::<u8>(&rt, &input),
            16 => run::<u16>(&rt, &input),
            _ => run::<u32>(&rt, &input),
        },
        Err(ReadError::Fault(e)) => print_fault(&rt, e),
        Err(ReadError::OutOfMemory) => println!(rt; "not answered: out of memory"),
    }
}
