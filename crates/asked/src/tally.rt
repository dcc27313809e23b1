// How many calls there were of each kind and answer, at each width.
ghost use Rattle.std.specs.Prelude.{◌≡◌, ◌+◌, ◌-◌, ◌^◌, min, ◌≢◌};

use crate::answer::{Answer, Answered, Entry, Kind, Refusal};
use nodes::error::ArchiveError;
use nodes::node::Node;
use std::fmt;
use tables::compared::{Compared, add_one};
use tables::row::{Row, position_of};
use tables::width::Width;

// The calls of the library. Those named after a span are made with one, the others of a block with a
// pair.
#[derive(Clone, Copy, PartialEq, Eq)]
pub enum Call {
    Exact,
    Longest,
    Shortest,
    SpanExact,
    SpanLongest,
    SpanShortest,
    Value,
    Coverage,
    SpanCoverage,
    Count,
}

impl Call {
    // What its rows call an answer that finds something, and one that does not.
    fn kinds(self) -> (&'static str, &'static str) {
        match self {
            Call::Coverage | Call::SpanCoverage => ("yes", "no"),
            Call::Count => ("a number", "whole"),
            _ => ("found", "none"),
        }
    }
}

impl fmt::Display for Call {
    fn fmt<W: fmt::Write>(&self, f: &mut fmt::Formatter<W>) -> fmt::Result {
        f.write_str(match self {
            Call::Exact => "exact match",
            Call::Longest => "longest match",
            Call::Shortest => "shortest match",
            Call::SpanExact => "exact match of a span",
            Call::SpanLongest => "longest match of a span",
            Call::SpanShortest => "shortest match of a span",
            Call::Value => "value",
            Call::Coverage => "covered",
            Call::SpanCoverage => "covered, of a span",
            Call::Count => "address count",
        })
    }
}

// A call's answers by what they are.
#[derive(Clone, Copy)]
struct Rows {
    found: Row,
    nothing: Row,
    refused: Row,
}

impl Rows {
    const NONE: Rows = Rows {
        found: Row::NONE,
        nothing: Row::NONE,
        refused: Row::NONE,
    };

    fn bump(&mut self, width: Width, kind: Kind) {
        match kind {
            Kind::Found => self.found.bump(width),
            Kind::Nothing => self.nothing.bump(width),
            Kind::Refused(_) => self.refused.bump(width),
        }
    }

    fn print<W: fmt::Write>(&self, call: Call, f: &mut fmt::Formatter<W>) -> fmt::Result {
        let (found, nothing) = call.kinds();
        print_row(&self.found, call, found, f)?;
        print_row(&self.nothing, call, nothing, f)?;
        print_row(&self.refused, call, "refused", f)
    }
}

fn print_row<W: fmt::Write>(
    row: &Row,
    call: Call,
    answer: &str,
    f: &mut fmt::Formatter<W>,
) -> fmt::Result {
    writeln!(f, "{row}  {call}, {answer}")
}

#[derive(Drop)]
pub struct Tally {
    images: Row,
    calls: [(Call, Rows); 10],
    // A row for each level of nodes: the level is the index.
    depths: [Row; 13],
    faults: [(ArchiveError, Row); 3],
    sections: u64,
    queries: Compared,
}

impl Tally {
    pub(crate) fn new() -> Tally
        ensures { (result.queries.answers ≡ 0) × (result.queries.differ ≡ 0) }
    {
        Tally {
            images: Row::NONE,
            calls: [
                (Call::Exact, Rows::NONE),
                (Call::Longest, Rows::NONE),
                (Call::Shortest, Rows::NONE),
                (Call::SpanExact, Rows::NONE),
                (Call::SpanLongest, Rows::NONE),
                (Call::SpanShortest, Rows::NONE),
                (Call::Value, Rows::NONE),
                (Call::Coverage, Rows::NONE),
                (Call::SpanCoverage, Rows::NONE),
                (Call::Count, Rows::NONE),
            ],
            depths: [Row::NONE; 13],
            faults: [
                (ArchiveError::LengthExceedsKey, Row::NONE),
                (ArchiveError::KeyWidthDiffers, Row::NONE),
                (ArchiveError::NoSuchPlace, Row::NONE),
            ],
            sections: 0,
            queries: Compared::NONE,
        }
    }

    pub(crate) fn count_image(&mut self, width: Width) {
        add_one(&mut self.sections);
        self.images.bump(width);
    }

    // An image that the library does not accept.
    pub(crate) fn count_refused_image(&mut self) {
        add_one(&mut self.queries.differ);
    }

    // Counts a call under the answer that the table has.
    pub(crate) fn count<A: Answered>(&mut self, width: Width, call: Call, theirs: &A, ours: &A)
        ensures queries { self.new.queries.answers ≡ min (self.old.queries.answers + 1) (2 ^ 64 - 1) }
        ensures agree { ours.now ≡ theirs.now → self.new.queries.differ ≡ self.old.queries.differ }
        ensures differ { (ours.now ≢ theirs.now) → self.new.queries.differ ≡ min (self.old.queries.differ + 1) (2 ^ 64 - 1) }
    {
        self.queries.count(ours == theirs);
        let kind = theirs.kind();
        if let Some(place) = position_of(&self.calls, &call) {
            self.calls[place].1.bump(width, kind);
        }
        if let Kind::Refused(Refusal(Ok(fault))) = kind {
            self.count_fault(width, fault);
        }
    }

    fn count_fault(&mut self, width: Width, fault: ArchiveError)
        ensures { self.new.queries ≡ self.old.queries }
    {
        if let Some(place) = position_of(&self.faults, &fault) {
            self.faults[place].1.bump(width);
        }
    }

    // A longest match of a pair, by the depth of the node that has it.
    pub(crate) fn count_depth(&mut self, width: Width, longest: &Answer<Entry>)
        ensures { self.new.queries ≡ self.old.queries }
    {
        if let Ok(Some(entry)) = longest.0
            && let Some(row) = self
                .depths
                .get_mut((u32::from(entry.len) / Node::STRIDE) as usize)
        {
            row.bump(width);
        }
    }
}

impl fmt::Display for Tally {
    fn fmt<W: fmt::Write>(&self, f: &mut fmt::Formatter<W>) -> fmt::Result {
        writeln!(f, "       8      16      32      64  bits")?;
        writeln!(f, "{}  images", self.images)?;
        for (call, rows) in &self.calls {
            rows.print(*call, f)?;
        }
        self.print_depths(f)?;
        self.print_faults(f)?;
        self.print_sums(f)
    }
}

impl Tally {
    fn print_depths<W: fmt::Write>(&self, f: &mut fmt::Formatter<W>) -> fmt::Result {
        let mut depth = 0u32;
        for row in &self.depths {
            writeln!(f, "{row}  longest match in a node at depth {depth}")?;
            depth = depth.saturating_add(Node::STRIDE);
        }
        Ok(())
    }

    fn print_faults<W: fmt::Write>(&self, f: &mut fmt::Formatter<W>) -> fmt::Result {
        for (fault, row) in &self.faults {
            writeln!(f, "{row}  refused with {}", fault.number())?;
        }
        Ok(())
    }

    fn print_sums<W: fmt::Write>(&self, f: &mut fmt::Formatter<W>) -> fmt::Result {
        write!(
            f,
            "{} images, {} queries, {} differ",
            self.sections, self.queries.answers, self.queries.differ
        )
    }
}
