ghost use Rattle.query.specs.Spellings.{FitsAddress, FitsNumber, ParsesWhole, address_text, quad_text};
ghost use Rattle.std.specs.Prelude.{Some};

use crate::number::parse_number;
use nodes::error::ArchiveError;
use std::fmt;
use std::net::Ipv4Addr;
use std::str::FromStr;

// How a key is written: as one number, or as four octets with dots between them.
#[derive(Clone, Copy, PartialEq, Eq, Debug)]
pub enum Style {
    Number,
    Quad,
}

// A key, and how it is written.
#[derive(Clone, Copy, PartialEq, Eq, Debug)]
pub struct Address {
    pub style: Style,
    pub key: u64,
}

// Reads four octets with dots between them.
#[tactic(auto, using(crate::proofs::Quads::quad_read))]
fn parse_quad(text: &str) -> Result<u32, ArchiveError>
    ensures { ParsesWhole FitsNumber quad_text text.now result }
{
    match text.parse::<Ipv4Addr>() {
        Ok(quad) => Ok(quad.to_bits()),
        Err(_) => Err(ArchiveError::SheetMalformed),
    }
}

impl FromStr for Address {
    type Err = ArchiveError;

    ghost from_str_gives = { ParsesWhole FitsAddress address_text };

    #[tactic(auto, using(crate::proofs::Queries::no_address))]
    fn from_str(text: &str) -> Result<Address, ArchiveError> {
        let (style, key) = match parse_number(text) {
            Ok(number) => (Style::Number, number),
            Err(_) => (Style::Quad, parse_quad(text)?),
        };
        Ok(Address {
            style,
            key: u64::from(key),
        })
    }
}

impl fmt::Display for Address {
    ghost output = { λ a. Some (address_text a) };

    fn fmt<W: fmt::Write>(&self, f: &mut fmt::Formatter<W>) -> fmt::Result {
        let key = self.key;
        match self.style {
            Style::Number => write!(f, "{key}"),
            Style::Quad => {
                let a = key >> 24;
                let b = key >> 16 & 0xff;
                let c = key >> 8 & 0xff;
                let d = key & 0xff;
                write!(f, "{a}.{b}.{c}.{d}")
            }
        }
    }
}
