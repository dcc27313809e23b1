// Answers, of the table and of the library.
ghost use Rattle.std.specs.Prelude.{◌≡◌, true};
ghost use Rattle.std.proofs.Common.{rules};

use anyhow::{Context, bail};
use coverage::AddressCount;
use keys::Key;
use nodes::error::{ArchiveError, NoSuchFault};
use prefix::Prefix;
use std::fmt;
use std::num::ParseIntError;

// A refusal as the table names it: the fault with this number, or a number that no fault has.
#[derive(Clone, Copy, PartialEq, Eq)]
pub struct Refusal(pub Result<ArchiveError, NoSuchFault>);

impl Refusal {
    pub(crate) fn parse(word: &str) -> Result<Refusal, ParseIntError> {
        Ok(Refusal(ArchiveError::try_from(word.parse::<u32>()?)))
    }
}

impl From<ArchiveError> for Refusal {
    fn from(fault: ArchiveError) -> Refusal {
        Refusal(Ok(fault))
    }
}

impl fmt::Display for Refusal {
    fn fmt<W: fmt::Write>(&self, f: &mut fmt::Formatter<W>) -> fmt::Result {
        match &self.0 {
            Ok(fault) => write!(f, "fault {}", fault.number()),
            Err(unknown) => write!(f, "fault {}", unknown.0),
        }
    }
}

// An entry that a match gives: its block and its place.
#[derive(Clone, Copy, PartialEq, Eq)]
pub struct Entry {
    pub address: u64,
    pub len: u8,
    pub place: u32,
}

// What the library's matches give of a prefix and its place.
impl<P: Prefix> From<(P, u32)> for Entry {
    fn from(hit: (P, u32)) -> Entry {
        let (prefix, place) = hit;
        Entry {
            address: prefix.repr().widen(),
            len: prefix.prefix_len(),
            place,
        }
    }
}

impl fmt::Display for Entry {
    fn fmt<W: fmt::Write>(&self, f: &mut fmt::Formatter<W>) -> fmt::Result {
        write!(f, "{}/{}@{}", self.address, self.len, self.place)
    }
}

// What a call finds, a place or an entry.
pub trait Found: Copy + Eq + fmt::Display + Drop {
    fn parse(word: &str) -> anyhow::Result<Self>;

    // The place that it names.
    fn place(&self) -> u32;

    // Values that compare equal are the same.
    ghost same: { (x y : Self) → Self.eq x y ≡ true → x ≡ y };
}

impl Found for u32 {
    ghost same = { Prim.search rules };

    fn parse(word: &str) -> anyhow::Result<u32> {
        Ok(word.parse::<u32>()?)
    }

    fn place(&self) -> u32 {
        *self
    }
}

// `ADDRESS/LEN@PLACE`
impl Found for Entry {
    ghost same = { Prim.search rules };

    fn parse(word: &str) -> anyhow::Result<Entry> {
        let (block, place) = word
            .split_once('@')
            .context("an entry is ADDRESS/LEN@PLACE")?;
        let (address, len) = block.split_once('/').context("a block is ADDRESS/LEN")?;
        Ok(Entry {
            address: address.parse::<u64>()?,
            len: len.parse::<u8>()?,
            place: place.parse::<u32>()?,
        })
    }

    fn place(&self) -> u32 {
        self.place
    }
}

// What a call answers: what it finds, that it finds nothing, or a refusal.
#[derive(Clone, Copy, PartialEq, Eq)]
pub struct Answer<T>(pub Result<Option<T>, Refusal>);

impl<T: Found> Answer<T> {
    // `none`, or what is found
    pub(crate) fn parse(word: &str) -> anyhow::Result<Answer<T>> {
        match word {
            "none" => Ok(Answer(Ok(None))),
            _ => Ok(Answer(Ok(Some(T::parse(word)?)))),
        }
    }
}

impl<T: fmt::Display> fmt::Display for Answer<T> {
    fn fmt<W: fmt::Write>(&self, f: &mut fmt::Formatter<W>) -> fmt::Result {
        match &self.0 {
            Ok(None) => write!(f, "none"),
            Ok(Some(found)) => write!(f, "{found}"),
            Err(refusal) => write!(f, "{refusal}"),
        }
    }
}

// What an answer is counted as.
#[derive(Clone, Copy, PartialEq, Eq)]
pub enum Kind {
    Found,
    Nothing,
    Refused(Refusal),
}

// An answer of a call.
pub trait Answered: Copy + Eq + fmt::Display + Drop {
    fn kind(&self) -> Kind;

    // Answers that compare equal are the same.
    ghost same: { (x y : Self) → Self.eq x y ≡ true → x ≡ y };
}

impl<T: Found> Answered for Answer<T> {
    ghost same = { Prim.search rules };

    fn kind(&self) -> Kind {
        match &self.0 {
            Ok(Some(_)) => Kind::Found,
            Ok(None) => Kind::Nothing,
            Err(refusal) => Kind::Refused(*refusal),
        }
    }
}

// Whether a block is covered, `1` or `0`, or a refusal.
#[derive(Clone, Copy, PartialEq, Eq)]
pub struct Coverage(pub Result<bool, Refusal>);

impl Coverage {
    pub(crate) fn parse(word: &str) -> anyhow::Result<Coverage> {
        match word {
            "1" => Ok(Coverage(Ok(true))),
            "0" => Ok(Coverage(Ok(false))),
            _ => bail!("a block is covered, 1, or not, 0"),
        }
    }
}

impl fmt::Display for Coverage {
    fn fmt<W: fmt::Write>(&self, f: &mut fmt::Formatter<W>) -> fmt::Result {
        match &self.0 {
            Ok(covered) => write!(f, "{}", u8::from(*covered)),
            Err(refusal) => write!(f, "{refusal}"),
        }
    }
}

impl Answered for Coverage {
    ghost same = { Prim.search rules };

    fn kind(&self) -> Kind {
        match &self.0 {
            Ok(true) => Kind::Found,
            Ok(false) => Kind::Nothing,
            Err(refusal) => Kind::Refused(*refusal),
        }
    }
}

// How many addresses are matched: a number, or `whole`.
#[derive(Clone, Copy, PartialEq, Eq)]
pub struct Count(pub AddressCount);

impl Count {
    pub(crate) fn parse(word: &str) -> Result<Count, ParseIntError> {
        match word {
            "whole" => Ok(Count(AddressCount::Whole)),
            _ => Ok(Count(AddressCount::Number(word.parse::<u64>()?))),
        }
    }
}

impl fmt::Display for Count {
    fn fmt<W: fmt::Write>(&self, f: &mut fmt::Formatter<W>) -> fmt::Result {
        match &self.0 {
            AddressCount::Number(count) => write!(f, "{count}"),
            AddressCount::Whole => write!(f, "whole"),
        }
    }
}

impl Answered for Count {
    ghost same = { Prim.search rules };

    fn kind(&self) -> Kind {
        match &self.0 {
            AddressCount::Number(_) => Kind::Found,
            AddressCount::Whole => Kind::Nothing,
        }
    }
}
