ghost use Rattle.query.specs.Responses.{IsResponse, answered_text, no_query_text};
ghost use Rattle.query.specs.Spellings.{AtMostOneQuery};
ghost use Rattle.std.specs.Prelude.{◌≡◌, Some};

use crate::query::{Query, parse_query};
use crate::reply::{Match, Refusal, answer};
use crate::site::Site;
use accept::image::Image;
use keys::Key;
use std::error::Error;
use std::fmt;

// A query, and the reply to it.
#[derive(Clone, Copy, PartialEq, Eq, Debug)]
pub struct Answered {
    pub query: Query,
    pub reply: Result<Option<Match>, Refusal>,
}

// The number of a line that is no query.
#[derive(Clone, Copy, PartialEq, Eq, Debug)]
pub struct NoQuery {
    pub line: u64,
}

// Answers the line with this number.
pub fn respond<K: Key + Drop>(
    image: &Image<Site>,
    number: u64,
    line: &[u8],
) -> Result<Answered, NoQuery>
    ensures response { IsResponse K.Key.width image.now number line.now result }
    ensures one { AtMostOneQuery }
    ensures same { (image.exit.now ≡ image.entry.now) × (line.exit.now ≡ line.entry.now) }
{
    match parse_query(line) {
        Ok(query) => Ok(Answered {
            query,
            reply: answer::<K>(image, query),
        }),
        Err(_) => Err(NoQuery { line: number }),
    }
}

impl fmt::Display for Answered {
    ghost output = { λ a. Some (answered_text a) };

    fn fmt<W: fmt::Write>(&self, f: &mut fmt::Formatter<W>) -> fmt::Result {
        let query = self.query;
        match self.reply {
            Ok(Some(found)) => write!(f, "{query}: {found}"),
            Ok(None) => write!(f, "{query}: no match"),
            Err(refusal) => write!(f, "{query}: {refusal}"),
        }
    }
}

impl fmt::Display for NoQuery {
    ghost output = { λ e. Some (no_query_text e) };

    fn fmt<W: fmt::Write>(&self, f: &mut fmt::Formatter<W>) -> fmt::Result {
        let line = self.line;
        write!(f, "line {line}: fault 15, no query")
    }
}

impl Error for NoQuery {}
