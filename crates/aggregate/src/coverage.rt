// Which slots of a node the set slots cover, from the top down and from the bottom up.
ghost use Rattle.aggregate.specs.Halves.{full_range, under_set};
ghost use Rattle.slots.specs.Masks.{mask};
ghost use Rattle.std.specs.Prelude.{◌≡◌, ◌+◌, ◌&&◌, nat_lt};

use crate::fold::{fold_children, fold_l1, fold_l2, fold_l3, fold_l4};
use crate::push::{push_l0, push_l1, push_l2, push_l3, push_l4};

// The data slots and the child slots that lie strictly under a set data slot. Bit 31 of the data
// slots is no slot, and is never marked.
#[tactic(auto, using(crate::proofs::Tiers::marked_first, crate::proofs::Tiers::marked_next, crate::proofs::Tiers::marked_data, crate::proofs::Tiers::marked_children))]
pub fn member_coverage(data_bitmap: u32) -> (u32, u32)
    ensures data { result.0 ≡ mask (λ b. nat_lt b 31 && under_set data_bitmap b) }
    ensures children { result.1 ≡ mask (λ c. under_set data_bitmap (31 + c)) }
{
    let mut covered = 0;
    covered |= push_l0(data_bitmap | covered);
    covered |= push_l1(data_bitmap | covered);
    covered |= push_l2(data_bitmap | covered);
    covered |= push_l3(data_bitmap | covered);
    let children = push_l4(data_bitmap | covered);
    (covered, children)
}

// The data slots whose whole range is covered by set data slots and covered child slots. Bit 31 is
// no slot, and stays as it is.
#[tactic(auto, using(crate::proofs::Tiers::gathered_first, crate::proofs::Tiers::gathered_next, crate::proofs::Tiers::gathered_data))]
pub fn fold_coverage(data_bitmap: u32, child_coverage: u32) -> u32
    ensures { result ≡ mask (full_range data_bitmap child_coverage) }
{
    let mut coverage = data_bitmap | fold_children(child_coverage);
    coverage |= fold_l4(coverage);
    coverage |= fold_l3(coverage);
    coverage |= fold_l2(coverage);
    coverage |= fold_l1(coverage);
    coverage
}
