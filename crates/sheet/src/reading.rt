ghost use Rattle.sheet.specs.Columns.{ParsesFront, line};
ghost use Rattle.sheet.specs.Entries.{IsAllowedHead, head_numbers};
ghost use Rattle.sheet.specs.Readings.{HasLines, LoadsLines, ReadsSheet};
ghost use Rattle.sheet.specs.Sheets.{ChecksSheet, FindsParts, WritingIsInjective};
ghost use Rattle.std.specs.Prelude.{◌≡◌, Decides};

use crate::error::ReadError;
use crate::head::Head;
use crate::line::{Line, skip_lines};
use crate::sheet::Sheet;
use nodes::error::ArchiveError;
use nodes::node::Node;
use std::alloc::Global;

// The most nodes that a sheet may have.
pub const MAX_NODES: u32 = 512;

// The most values that a sheet may have.
pub const MAX_VALUES: u32 = 1024;

// Tells whether a head is within the limits.
fn allowed(head: &Head) -> bool
    ensures { Decides result (IsAllowedHead head.now) }
{
    matches!(head.width, 8 | 16 | 32) && head.nodes <= MAX_NODES && head.values <= MAX_VALUES
}

// Reads the head's line from the front of a text, if it is within the limits.
#[tactic(auto, using(crate::proofs::Pages::heads))]
fn parse_head(text: &[u8]) -> Option<(Head, &[u8])>
    ensures { ParsesFront IsAllowedHead (λ h. line (head_numbers h)) text.now result }
{
    Head::parse(text).filter(|(head, _)| allowed(head))
}

// The head of a sheet's text, what follows its line, and what follows the nodes' lines; None of any
// other text.
#[tactic(auto, using(crate::proofs::Pages::surveys))]
fn survey(text: &[u8]) -> Option<(Head, &[u8], &[u8])>
    ensures surveyed { FindsParts text.now result }
    ensures one { WritingIsInjective }
{
    let (head, nodes) = parse_head(text)?;
    let values = skip_lines::<Node, 4>(nodes, head.nodes)?;
    let end = skip_lines::<u32, 1>(values, head.values)?;
    end.is_empty().then_some((head, nodes, values))
}

// Checks that a text is a sheet's, and gives its head. It allocates nothing.
#[tactic(auto, using(crate::proofs::Pages::checks))]
pub fn check(text: &[u8]) -> Result<Head, ArchiveError>
    ensures checked { ChecksSheet text.now result }
    ensures one { WritingIsInjective }
    ensures same { text.exit.now ≡ text.entry.now }
{
    survey(text)
        .map(|(head, _, _)| head)
        .ok_or(ArchiveError::SheetMalformed)
}

// Reads the `count` lines that a text begins with.
#[tactic(auto, using(crate::proofs::Rulings::listed))]
fn take_lines<L: Line<N>, const N: usize>(
    heap: Global,
    text: &[u8],
    count: u32,
) -> Result<Vec<L>, ReadError>
    requires { HasLines L.Line.numbers count text.now }
    ensures { LoadsLines L.Line.numbers count text.now result }
{
    let mut items = Vec::new(heap);
    let mut rest = text;
    for _ in 0..count {
        let (x, after) = L::parse(rest).ok_or(ArchiveError::SheetMalformed)?;
        items.push(x)?;
        rest = after;
    }
    Ok(items)
}

// Reads `count` lines from the front of a text. It looks for all of them before it keeps one, so that
// want of memory is answered only where they are there.
pub fn load_lines<L: Line<N>, const N: usize>(
    heap: Global,
    text: &[u8],
    count: u32,
) -> Result<Vec<L>, ReadError>
    ensures loaded { LoadsLines L.Line.numbers count text.now result }
    ensures same { text.exit.now ≡ text.entry.now }
{
    skip_lines::<L, N>(text, count).ok_or(ArchiveError::SheetMalformed)?;
    take_lines(heap, text, count)
}

// Reads a sheet. A text that is no sheet's is refused as such, whatever memory there is.
#[tactic(auto, using(crate::proofs::Pages::readings))]
pub fn read(heap: Global, text: &[u8]) -> Result<Sheet, ReadError>
    ensures read { ReadsSheet text.now result }
    ensures one { WritingIsInjective }
    ensures same { text.exit.now ≡ text.entry.now }
{
    let (head, nodes, values) = survey(text).ok_or(ArchiveError::SheetMalformed)?;
    let nodes = take_lines::<Node, 4>(heap, nodes, head.nodes)?;
    let values = take_lines::<u32, 1>(heap, values, head.values)?;
    Ok(Sheet {
        width: head.width,
        nodes,
        values,
    })
}
