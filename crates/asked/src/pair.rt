// A pair of a key of some width and a length, `KEY/LEN`.
use anyhow::Context;
use prefix::pair::Pair;
use prefix::span::Span;
use std::num::ParseIntError;
use tables::width::Width;

#[derive(Clone, Copy)]
pub enum AnyPair {
    Bits8(Pair<u8>),
    Bits16(Pair<u16>),
    Bits32(Pair<u32>),
    Bits64(Pair<u64>),
}

impl AnyPair {
    // Not `FromStr`, which takes no width. A width picks a type parameter, which takes an arm for each.
    pub(crate) fn parse(width: Width, word: &str) -> anyhow::Result<AnyPair> {
        let (key, len) = word.split_once('/').context("a pair is KEY/LEN")?;
        let len = len.parse::<u8>()?;
        Ok(AnyPair::new(width, key, len)?)
    }

    fn new(width: Width, key: &str, len: u8) -> Result<AnyPair, ParseIntError> {
        match width {
            Width::Bits8 => Ok(AnyPair::Bits8(Pair {
                repr: key.parse()?,
                len,
            })),
            Width::Bits16 => Ok(AnyPair::Bits16(Pair {
                repr: key.parse()?,
                len,
            })),
            Width::Bits32 => Ok(AnyPair::Bits32(Pair {
                repr: key.parse()?,
                len,
            })),
            Width::Bits64 => Ok(AnyPair::Bits64(Pair {
                repr: key.parse()?,
                len,
            })),
        }
    }

    // The span of the same addresses, where the key has 32 bits and those past the length are zero.
    pub(crate) fn to_span(&self) -> Option<Span> {
        match self {
            AnyPair::Bits32(pair) => span_of(pair),
            _ => None,
        }
    }
}

fn span_of(pair: &Pair<u32>) -> Option<Span> {
    let free = 32u32.checked_sub(u32::from(pair.len))?;
    let last = u64::from(pair.repr) + ((1u64 << free) - 1);
    Span::new(pair.repr, u32::try_from(last).ok()?)
}
