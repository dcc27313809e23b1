// What is said of two lists, `ok` or the number of a fault of acceptance.
use anyhow::bail;
use nodes::error::ArchiveError;
use std::fmt;

// The faults of acceptance in the order of their numbers.
pub(crate) const FAULTS: [ArchiveError; 11] = [
    ArchiveError::NodeListTooShort,
    ArchiveError::NodeListTooLong,
    ArchiveError::NodeListInconsistent,
    ArchiveError::NodeIndexOverflow,
    ArchiveError::DataListTooShort,
    ArchiveError::DataListTooLong,
    ArchiveError::DataListInconsistent,
    ArchiveError::DataIndexOverflow,
    ArchiveError::ContainsEmptyNode,
    ArchiveError::MissingRootNode,
    ArchiveError::DepthExceedsPrefixRepr,
];

#[derive(Clone, Copy, PartialEq, Eq)]
pub struct Answer(pub Result<(), ArchiveError>);

impl Answer {
    pub(crate) fn parse(word: &str) -> anyhow::Result<Answer> {
        if word == "ok" {
            return Ok(Answer(Ok(())));
        }
        match ArchiveError::try_from(word.parse::<u32>()?) {
            Ok(fault) if FAULTS.contains(&fault) => Ok(Answer(Err(fault))),
            _ => bail!("a fault is a number from 1 to 11"),
        }
    }
}

impl fmt::Display for Answer {
    fn fmt<W: fmt::Write>(&self, f: &mut fmt::Formatter<W>) -> fmt::Result {
        match &self.0 {
            Ok(()) => write!(f, "ok"),
            Err(fault) => write!(f, "{}", fault.number()),
        }
    }
}
