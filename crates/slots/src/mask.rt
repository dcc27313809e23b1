// Masks of the bits on a key's path through a node, and of the bits under a block of it.
ghost use Rattle.slots.specs.Masks.{follows, mask as mask_of, next_four};
ghost use Rattle.slots.specs.Rules.{rule_of};
ghost use Rattle.std.specs.Prelude.{◌≡◌, ◌-◌, ◌%◌, min, T};

use crate::pattern::{CHILD_COVER_PATTERN, DATA_COVER_PATTERN, DATA_LPM_PATTERN, Pattern};
use keys::wide::Wide;

// Which bits of a node a mask has: of the blocks that contain a block the data bits, of those that
// lie in it the data bits, or of the nodes that lie in it the child bits.
#[derive(Clone, Copy, PartialEq, Eq, Debug)]
pub enum Rule {
    OnPath,
    DataUnder,
    ChildUnder,
}

impl Rule {
    // The mask for the block of the key's first len bits, in a node at this depth on the key's path.
    pub fn mask(self, key: Wide, depth: u32, len: u32) -> u32
        ensures { result ≡ mask_of (rule_of self (min (len - depth) 4) (next_four key.width depth key.bits)) }
    {
        self.at(len.saturating_sub(depth), next_four(key, depth))
    }

    // The mask at a tier and at four bits of a key: the last tier where there is none so deep, and
    // the last four bits of the number.
    #[tactic(auto, using(crate::proofs::Tables::table_entry))]
    pub fn at(self, tier: u32, four: u32) -> u32
        ensures { result ≡ mask_of (rule_of self (min tier 4) (four % 16)) }
    {
        let table = self.table();
        table[(16 * tier.min(4) + four % 16) as usize]
    }

    // The rule's table.
    #[tactic(auto, unfolding(crate::specs::Masks::on_path, crate::specs::Masks::data_under, crate::specs::Masks::child_under))]
    fn table(self) -> &'static Pattern
        ensures { T (follows (rule_of self) result.now) }
    {
        match self {
            Rule::OnPath => &DATA_LPM_PATTERN,
            Rule::DataUnder => &DATA_COVER_PATTERN,
            Rule::ChildUnder => &CHILD_COVER_PATTERN,
        }
    }
}

// The four bits of the key after the depth, with zeros past its end.
#[tactic(auto, using(crate::proofs::Shifts::four_left, crate::proofs::Shifts::four_right, crate::proofs::Shifts::four_past))]
fn next_four(key: Wide, depth: u32) -> u32
    ensures { result ≡ next_four key.width depth key.bits }
{
    let rest = key.width.saturating_sub(depth);
    if rest < 4 {
        ((key.bits << (4 - rest)) % 16) as u32
    } else if rest < 68 {
        ((key.bits >> (rest - 4)) % 16) as u32
    } else {
        0
    }
}
