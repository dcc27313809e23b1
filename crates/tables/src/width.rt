ghost use Rattle.std.specs.Prelude.{◌≡◌, MatchResult};
ghost use Rattle.tables.specs.Words.{NamesWidth};

use std::str::FromStr;
use thiserror::Error;

// The width of a key in bits.
#[derive(Clone, Copy, PartialEq, Eq)]
pub enum Width {
    Bits8,
    Bits16,
    Bits32,
    Bits64,
}

// A word that is no width.
#[derive(Clone, Copy, Debug, Error)]
#[error("a width is 8, 16, 32 or 64")]
pub struct NoWidth;

impl FromStr for Width {
    type Err = NoWidth;

    ghost from_str_gives = { NamesWidth };

    #[tactic(auto, using(crate::proofs::Widths::width_texts, crate::proofs::Widths::no_width))]
    fn from_str(word: &str) -> Result<Width, NoWidth> {
        match word {
            "8" => Ok(Width::Bits8),
            "16" => Ok(Width::Bits16),
            "32" => Ok(Width::Bits32),
            "64" => Ok(Width::Bits64),
            _ => Err(NoWidth),
        }
    }
}
