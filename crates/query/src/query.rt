ghost use Rattle.query.specs.Spellings.{AtMostOneQuery, FitsQuery, ParsesWhole, query_text};
ghost use Rattle.std.specs.Prelude.{◌≡◌, Some};

use crate::address::Address;
use crate::number::parse_number;
use nodes::error::ArchiveError;
use std::str::FromStr;
use std::{fmt, str};

// A key, and how many of its first bits are asked for: all of them where no length is given.
#[derive(Clone, Copy, PartialEq, Eq, Debug)]
pub struct Query {
    pub address: Address,
    pub len: Option<u32>,
}

impl FromStr for Query {
    type Err = ArchiveError;

    ghost from_str_gives = { ParsesWhole FitsQuery query_text };

    #[tactic(auto, using(crate::proofs::Queries::queries))]
    fn from_str(text: &str) -> Result<Query, ArchiveError> {
        match text.split_once('/') {
            Some((address, len)) => Ok(Query {
                address: address.parse()?,
                len: Some(parse_number(len)?),
            }),
            None => Ok(Query {
                address: text.parse()?,
                len: None,
            }),
        }
    }
}

// Reads a query: a key, with a slash and a length behind it or without.
#[tactic(auto, using(crate::proofs::Queries::one_query, crate::proofs::Queries::no_text))]
pub fn parse_query(line: &[u8]) -> Result<Query, ArchiveError>
    ensures parsed { ParsesWhole FitsQuery query_text line.now result }
    ensures one { AtMostOneQuery }
    ensures same { line.exit.now ≡ line.entry.now }
{
    let text = str::from_utf8(line).map_err(|_| ArchiveError::SheetMalformed)?;
    text.parse()
}

impl fmt::Display for Query {
    ghost output = { λ q. Some (query_text q) };

    fn fmt<W: fmt::Write>(&self, f: &mut fmt::Formatter<W>) -> fmt::Result {
        let address = self.address;
        match self.len {
            Some(len) => write!(f, "{address}/{len}"),
            None => write!(f, "{address}"),
        }
    }
}
