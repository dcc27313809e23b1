// From the bytes of a text to the verdict on the image in it: 15 where it is no sheet's, the image's
// fault, or the sheet's head and how many addresses its image matches.
#![tactic(auto)]

ghost use Rattle.judge.specs.Judged.{CountsAccepted, JudgesSheet};
ghost use Rattle.sheet.specs.Sheets.{WritingIsInjective};
ghost use Rattle.std.specs.Prelude.{◌≡◌};

use crate::report::Report;
use accept::accept::accept;
use accept::image::Image;
use coverage::{AddressCount, address_count};
use keys::Key;
use nodes::error::ArchiveError;
use nodes::node::Node;
use sheet::error::ReadError;
use sheet::reading::read;
use sheet::sheet::Sheet;
use std::alloc::Global;

pub mod report;

// Accepts two lists under keys of this kind, and counts the addresses that their image matches.
fn count_accepted<K: Key>(nodes: &[Node], values: &[u32]) -> Result<AddressCount, ArchiveError>
    ensures { CountsAccepted K.Key.width nodes.now values.now result }
{
    accept::<K, u32>(nodes, values)?;
    Ok(address_count(&Image::new::<K>(nodes, values)))
}

// The same of the lists of a sheet, under keys of its width.
pub fn count_sheet(s: &Sheet) -> Result<AddressCount, ArchiveError>
    ensures count { CountsAccepted s.now.width s.now.nodes.items s.now.values.items result }
    ensures same { s.exit.now ≡ s.entry.now }
{
    let nodes = s.nodes.as_slice();
    let values = s.values.as_slice();
    match s.width {
        8 => count_accepted::<u8>(nodes, values),
        16 => count_accepted::<u16>(nodes, values),
        _ => count_accepted::<u32>(nodes, values),
    }
}

// The report on a sheet whose image is accepted, or why there is none. The clause `one` is a law of
// texts: so no text has two answers but for want of memory.
#[tactic(auto, using(crate::proofs::Images::accepted, crate::proofs::Images::faulty))]
pub fn judge(heap: Global, text: &[u8]) -> Result<Report, ReadError>
    ensures judged { JudgesSheet text.now result }
    ensures one { WritingIsInjective }
    ensures same { text.exit.now ≡ text.entry.now }
{
    let s = read(heap, text)?;
    let addresses = count_sheet(&s)?;
    Ok(Report {
        head: s.head(),
        addresses,
    })
}
