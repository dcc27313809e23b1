ghost use Rattle.std.specs.Prelude.{◌≡◌, ◌≢◌, ◌+◌, ◌*◌, ◌<◌, ◌≤◌, ◌^◌, ◌++◌, ℕ, List, length, take, vec_len, vec_capacity, MatchOption, OnErr, OnOk};
ghost use Rattle.sheet.specs.Columns.{FitsLine, FitsLines, IsLineKind, IsRow, ParsesFront, ParsesFrontInto, SkipsLines, column, line, lines};
ghost use Rattle.sheet.specs.Entries.{head_numbers, node_numbers, value_numbers};
ghost use Rattle.std.specs.List.{flat_map};
ghost use Rattle.std.proofs.Common.{rules};

use crate::column::{format_column, parse_column};
use crate::head::Head;
use nodes::node::Node;
use std::alloc::AllocError;

// Reads a line from the front of a text, with as many columns as `columns` has room for.
#[tactic(auto, using(crate::proofs::Rulings::rows))]
pub fn parse_row_into<'a>(text: &'a [u8], columns: &mut [u32]) -> Option<&'a [u8]>
    ensures row { ParsesFrontInto text.entry.now columns.old columns.new result }
    ensures same { text.exit.now ≡ text.entry.now }
{
    let mut rest = text;
    for n in columns.iter_mut() {
        (*n, rest) = parse_column(rest)?;
    }
    rest.strip_prefix(b"\n")
}

// Reads a line of N columns from the front of a text.
pub fn parse_row<const N: usize>(text: &[u8]) -> Option<([u32; N], &[u8])>
    ensures row { ParsesFront (IsRow N) line text.now result }
    ensures same { text.exit.now ≡ text.entry.now }
{
    let mut columns = [0; N];
    let rest = parse_row_into(text, &mut columns)?;
    Some((columns, rest))
}

// Writes a line behind what `out` holds, or a part of it where memory runs out.
#[tactic(auto, using(crate::proofs::Rulings::row_pushed))]
fn push_row(out: &mut Vec<u8>, columns: &[u32]) -> Result<(), AllocError>
    ensures ok { OnOk result (FitsLine columns.now × (out.new.items ≡ out.old.items ++ line columns.now)) }
    ensures err { OnErr result (take (vec_len out.old) out.new.items ≡ out.old.items) }
    ensures full { OnErr result (vec_capacity out.old < vec_len out.old + length (line columns.now)) }
    ensures capacity { vec_capacity out.old ≤ vec_capacity out.new }
{
    for n in columns {
        out.extend_from_slice(&format_column(*n))?;
    }
    out.push(b'\n')?;
    Ok(())
}

// Writes a line of these columns behind what `out` holds. It fails only where `out` has too little
// room for the line, and then leaves what `out` holds.
pub fn append_row(out: &mut Vec<u8>, columns: &[u32]) -> Result<(), AllocError>
    ensures ok { OnOk result (FitsLine columns.now × (out.new.items ≡ out.old.items ++ line columns.now)) }
    ensures err { OnErr result (out.new.items ≡ out.old.items) }
    ensures full { OnErr result (vec_capacity out.old < vec_len out.old + length (line columns.now)) }
    ensures capacity { vec_capacity out.old ≤ vec_capacity out.new }
    ensures same { columns.exit.now ≡ columns.entry.now }
{
    let len = out.len();
    let pushed = push_row(out, columns);
    if pushed.is_err() {
        out.truncate(len);
    }
    pushed
}

// A kind of line: the N numbers of an entry, and the entry that they are the numbers of.
pub trait Line<const N: usize>: Copy {
    ghost numbers: { Self → List ℕ };

    // The entry with these numbers, if there is one.
    fn from_columns(columns: &[u32; N]) -> Option<Self>
        ensures entry { MatchOption result ((x : Self) → numbers x ≢ columns.now) (λ x. numbers x ≡ columns.now) }
        ensures same { columns.exit.now ≡ columns.entry.now };

    fn to_columns(self) -> [u32; N]
        ensures { result ≡ numbers self };

    #[tactic(auto, using(crate::proofs::Rulings::no_entry), unfolding(crate::specs::Columns::BeginsWithNone))]
    fn parse(text: &[u8]) -> Option<(Self, &[u8])>
        ensures entry { ParsesFront (λ x. FitsLine (numbers x)) (λ x. line (numbers x)) text.now result }
        ensures same { text.exit.now ≡ text.entry.now }
    {
        // Behind a reference, since the check does not cover `?` on an array of N numbers beside a text.
        let row = parse_row(text);
        let (columns, rest) = row.as_ref()?;
        Some((Self::from_columns(columns)?, *rest))
    }

    fn append(&self, out: &mut Vec<u8>) -> Result<(), AllocError>
        ensures ok { OnOk result (FitsLine (numbers self.now) × (out.new.items ≡ out.old.items ++ line (numbers self.now))) }
        ensures err { OnErr result (out.new.items ≡ out.old.items) }
        ensures full { OnErr result (vec_capacity out.old < vec_len out.old + length (line (numbers self.now))) }
        ensures capacity { vec_capacity out.old ≤ vec_capacity out.new }
        ensures same { self.exit.now ≡ self.entry.now }
    {
        append_row(out, &self.to_columns())
    }

    // An array of N numbers can stand in memory.
    ghost fits_memory: { N * 4 < 2 ^ 63 };

    ghost has_count: { (x : Self) → length (numbers x) ≡ N };

    ghost identified: { (x y : Self) → numbers x ≡ numbers y → x ≡ y };

    ghost line_kind: { IsLineKind numbers } = { record { count = N; has_count = has_count; identified = identified } };
}

impl Line<1> for u32 {
    ghost numbers = { value_numbers };

    ghost fits_memory = { Prim.search rules };

    ghost has_count = { Prim.search rules };

    ghost identified = { Prim.search rules };

    fn from_columns(columns: &[u32; 1]) -> Option<u32> {
        Some(columns[0])
    }

    fn to_columns(self) -> [u32; 1] {
        [self]
    }
}

impl Line<3> for Head {
    ghost numbers = { head_numbers };

    ghost fits_memory = { Prim.search rules };

    ghost has_count = { Prim.search rules };

    ghost identified = { Prim.search rules };

    fn from_columns(columns: &[u32; 3]) -> Option<Head> {
        Some(Head::from(*columns))
    }

    fn to_columns(self) -> [u32; 3] {
        <[u32; 3]>::from(self)
    }
}

impl Line<4> for Node {
    ghost numbers = { node_numbers };

    ghost fits_memory = { Prim.search rules };

    ghost has_count = { Prim.search rules };

    ghost identified = { Prim.search rules };

    fn from_columns(columns: &[u32; 4]) -> Option<Node> {
        Some(Node::from(*columns))
    }

    fn to_columns(self) -> [u32; 4] {
        <[u32; 4]>::from(self)
    }
}

// Reads `count` lines from the front of a text, and keeps none.
#[tactic(auto, using(crate::proofs::Rulings::skipped))]
pub fn skip_lines<L: Line<N>, const N: usize>(text: &[u8], count: u32) -> Option<&[u8]>
    ensures skipped { SkipsLines L.Line.numbers count text.now result }
    ensures same { text.exit.now ≡ text.entry.now }
{
    let mut rest = text;
    for _ in 0..count {
        (_, rest) = L::parse(rest)?;
    }
    Some(rest)
}

// Writes the lines of a list behind what `out` holds, or a part of them where memory runs out.
#[tactic(auto, using(crate::proofs::Rulings::lines_pushed))]
fn push_lines<L: Line<N>, const N: usize>(out: &mut Vec<u8>, xs: &[L]) -> Result<(), AllocError>
    ensures ok { OnOk result (FitsLines L.Line.numbers xs.now × (out.new.items ≡ out.old.items ++ lines L.Line.numbers xs.now)) }
    ensures err { OnErr result (take (vec_len out.old) out.new.items ≡ out.old.items) }
    ensures full { OnErr result (vec_capacity out.old < vec_len out.old + length (lines L.Line.numbers xs.now)) }
    ensures capacity { vec_capacity out.old ≤ vec_capacity out.new }
{
    for x in xs {
        x.append(out)?;
    }
    Ok(())
}

// Writes the lines of a list behind what `out` holds. It fails only where `out` has too little room
// for the lines, and then leaves what `out` holds.
pub fn append_lines<L: Line<N>, const N: usize>(
    out: &mut Vec<u8>,
    xs: &[L],
) -> Result<(), AllocError>
    ensures ok { OnOk result (FitsLines L.Line.numbers xs.now × (out.new.items ≡ out.old.items ++ lines L.Line.numbers xs.now)) }
    ensures err { OnErr result (out.new.items ≡ out.old.items) }
    ensures full { OnErr result (vec_capacity out.old < vec_len out.old + length (lines L.Line.numbers xs.now)) }
    ensures capacity { vec_capacity out.old ≤ vec_capacity out.new }
    ensures same { xs.exit.now ≡ xs.entry.now }
{
    let len = out.len();
    let pushed = push_lines(out, xs);
    if pushed.is_err() {
        out.truncate(len);
    }
    pushed
}
