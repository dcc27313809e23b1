ghost use Rattle.std.specs.Prelude.{◌≡◌, ◌≢◌, ◌+◌, ◌-◌, ◌^◌, ◌<◌, Some, MatchOption, length, min, ⊤};
ghost use Rattle.std.specs.List.{position};
ghost use Rattle.tables.specs.Rows.{count, row_text};

use crate::compared::add_one;
use crate::width::Width;
use std::fmt;

// A count for each width.
#[derive(Clone, Copy)]
pub struct Row {
    bits8: u64,
    bits16: u64,
    bits32: u64,
    bits64: u64,
}

impl Row {
    pub const NONE: Row = Row {
        bits8: 0,
        bits16: 0,
        bits32: 0,
        bits64: 0,
    };

    // One more at this width.
    pub fn bump(&mut self, width: Width)
        ensures here { count self.new width ≡ min (count self.old width + 1) (2 ^ 64 - 1) }
        ensures elsewhere { (w : Width) → w ≢ width → count self.new w ≡ count self.old w }
    {
        match width {
            Width::Bits8 => add_one(&mut self.bits8),
            Width::Bits16 => add_one(&mut self.bits16),
            Width::Bits32 => add_one(&mut self.bits32),
            Width::Bits64 => add_one(&mut self.bits64),
        }
    }
}

// The place of the first key that equals this one: what is counted under the key stands beside it.
pub fn position_of<K: PartialEq, C>(counts: &[(K, C)], key: &K) -> Option<usize>
    ensures first { result ≡ position (λ x. K.eq x.0 key.now) counts.now }
    ensures inside { MatchOption result ⊤ (λ i. i < length counts.now) }
    ensures same { (counts.exit.now ≡ counts.entry.now) × (key.exit.now ≡ key.entry.now) }
{
    counts.iter().position(|(of, _)| of == key)
}

// Each count in eight places, or more where it needs them.
impl fmt::Display for Row {
    ghost output = { λ r. Some (row_text r) };

    #[tactic(auto, using(crate::proofs::Cells::cell_padded))]
    fn fmt<W: fmt::Write>(&self, f: &mut fmt::Formatter<W>) -> fmt::Result {
        write!(
            f,
            "{:>8}{:>8}{:>8}{:>8}",
            self.bits8, self.bits16, self.bits32, self.bits64
        )
    }
}
