// How many cases there were of each answer, at each width.
ghost use Rattle.std.specs.Prelude.{◌≡◌, ◌+◌, ◌-◌, ◌^◌, min, ◌≢◌};

use crate::answer::{Answer, FAULTS};
use nodes::error::ArchiveError;
use std::fmt;
use tables::compared::Compared;
use tables::row::{Row, position_of};
use tables::width::Width;

#[derive(Drop)]
pub struct Tally {
    accepted: Row,
    faults: [(ArchiveError, Row); 11],
    cases: Compared,
}

impl Tally {
    pub(crate) fn new() -> Tally
        ensures { (result.cases.answers ≡ 0) × (result.cases.differ ≡ 0) }
    {
        Tally {
            accepted: Row::NONE,
            faults: FAULTS.map(|fault| (fault, Row::NONE)),
            cases: Compared::NONE,
        }
    }

    // Counts a case under the answer that the table has.
    pub(crate) fn count(&mut self, width: Width, theirs: Answer, ours: Answer)
        ensures cases { self.new.cases.answers ≡ min (self.old.cases.answers + 1) (2 ^ 64 - 1) }
        ensures agree { ours ≡ theirs → self.new.cases.differ ≡ self.old.cases.differ }
        ensures differ { (ours ≢ theirs) → self.new.cases.differ ≡ min (self.old.cases.differ + 1) (2 ^ 64 - 1) }
    {
        self.cases.count(ours == theirs);
        match theirs.0 {
            Ok(()) => self.accepted.bump(width),
            Err(fault) => self.count_fault(fault, width),
        }
    }

    fn count_fault(&mut self, fault: ArchiveError, width: Width)
        ensures { self.new.cases ≡ self.old.cases }
    {
        if let Some(place) = position_of(&self.faults, &fault) {
            self.faults[place].1.bump(width);
        }
    }
}

impl fmt::Display for Tally {
    fn fmt<W: fmt::Write>(&self, f: &mut fmt::Formatter<W>) -> fmt::Result {
        writeln!(f, "  answer       8      16      32      64")?;
        writeln!(f, "      ok{}  accepted", self.accepted)?;
        for (fault, row) in &self.faults {
            writeln!(f, "{:>8}{row}  {fault:?}", fault.number())?;
        }
        write!(
            f,
            "{} cases, {} differ",
            self.cases.answers, self.cases.differ
        )
    }
}
