ghost use Rattle.query.specs.Inputs.{AtMostOneInput, LoadsInput};
ghost use Rattle.query.specs.Parts.{FindsInputParts, FollowsContents, LacksContents};
ghost use Rattle.sheet.specs.Sheets.{Malformed, Wellformed};
ghost use Rattle.std.specs.Bool.{MatchBool};
ghost use Rattle.std.specs.Prelude.{◌≡◌, ◌≤◌, IfSome, MatchOption, length};

use crate::site::Site;
use nodes::error::ArchiveError;
use nodes::node::Node;
use sheet::error::ReadError;
use sheet::head::Head;
use sheet::line::{Line, skip_lines};
use sheet::reading::{check, load_lines, read};
use sheet::sheet::Sheet;
use std::alloc::Global;

// What is read before the queries, and the queries' text.
#[derive(Drop)]
pub struct Input<'a> {
    pub sheet: Sheet,
    pub sites: Vec<Site>,
    pub queries: &'a [u8],
}

// The text of a sheet, how many values it has, the text of as many sites and more, and what follows
// the sites.
#[derive(Clone, Copy)]
struct Parts<'a> {
    sheet: &'a [u8],
    values: u32,
    sites: &'a [u8],
    queries: &'a [u8],
}

// The head of the sheet that a text begins with, whatever its width and its size, and what follows
// the sheet.
#[tactic(auto, using(crate::proofs::Inputs::skips))]
fn skip_sheet(text: &[u8]) -> Option<(Head, &[u8])>
    ensures skipped { MatchOption result (LacksContents text.now) (λ p. FollowsContents text.now p.0 p.1.now) }
    ensures shorter { IfSome result (λ p. length p.1.now ≤ length text.now) }
{
    let (head, nodes) = Head::parse(text)?;
    let values = skip_lines::<Node, 4>(nodes, head.nodes)?;
    let rest = skip_lines::<u32, 1>(values, head.values)?;
    Some((head, rest))
}

// Tells whether a text is a sheet's.
#[tactic(auto, using(crate::proofs::Inputs::headed_well))]
fn is_sheet(text: &[u8]) -> bool
    ensures { MatchBool result (Wellformed text.now) (Malformed text.now) }
{
    check(text).is_ok()
}

// The parts of a text that begins with a sheet and a site for each of its values.
#[tactic(auto, using(crate::proofs::Inputs::divides))]
fn divide(text: &[u8]) -> Option<Parts>
    ensures { FindsInputParts text.now result }
{
    let (head, sites) = skip_sheet(text)?;
    let sheet = &text[..text.len() - sites.len()];
    if !is_sheet(sheet) {
        return None;
    }
    let queries = skip_lines::<Site, 3>(sites, head.values)?;
    Some(Parts {
        sheet,
        values: head.values,
        sites,
        queries,
    })
}

// Reads a sheet and a site for each of its values, and hands back the text of the queries. A text
// without them is refused as such, whatever memory there is.
#[tactic(auto, using(crate::proofs::Inputs::loads))]
pub fn load(heap: Global, text: &[u8]) -> Result<Input, ReadError>
    ensures loaded { LoadsInput text.now result }
    ensures one { AtMostOneInput }
    ensures same { text.exit.now ≡ text.entry.now }
{
    let parts = divide(text).ok_or(ArchiveError::SheetMalformed)?;
    Ok(Input {
        sheet: read(heap, parts.sheet)?,
        sites: load_lines::<Site, 3>(heap, parts.sites, parts.values)?,
        queries: parts.queries,
    })
}
