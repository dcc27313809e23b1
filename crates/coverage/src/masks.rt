// Which children of a node the addresses of its data slots are left to.
ghost use Rattle.std.specs.Prelude.{◌≡◌, ◌+◌, ◌^◌, ◌<◌, ◌≤◌, ◌&&◌, not, false, bit_or};
ghost use Rattle.addresses.specs.Standing.{tier_of};
ghost use Rattle.aggregate.specs.Halves.{full_range, under_set};
ghost use Rattle.coverage.specs.Slots.{Needs, free_child, free_slot, in_slot, needs_child};
ghost use Rattle.nodes.specs.Bitmaps.{bit};
ghost use Rattle.slots.specs.Masks.{mask};

use aggregate::coverage::{fold_coverage, member_coverage};
use nodes::node::Node;
use slots::loc::has_bit;
use slots::mask::Rule;

// The tier of a data slot.
#[tactic(auto, using(addresses::proofs::Tiers::tier_log))]
pub(crate) fn tier(slot: u32) -> u32
    requires { slot < 31 }
    ensures tier { result ≡ tier_of slot }
    ensures last { result ≤ 4 }
    ensures begins { 2 ^ result ≤ slot + 1 }
{
    (slot + 1).ilog2()
}

// The child slots that lie in a data slot.
#[tactic(auto, using(crate::proofs::Bits::tier_pow, crate::proofs::Bits::range_is))]
fn child_range(slot: u32) -> u32
    requires { slot < 31 }
    ensures { result ≡ mask (in_slot slot) }
{
    let tier = tier(slot);
    let path = slot + 1 - (1 << tier);
    Rule::ChildUnder.at(tier, path << (Node::STRIDE - 1 - tier))
}

// The set slots of a node that are under no other, and its children that are under none.
#[tactic(auto, using(crate::proofs::Bits::slots_apart, crate::proofs::Bits::children_apart))]
pub(crate) fn free_parts(node: &Node) -> (u32, u32)
    ensures slots { result.0 ≡ mask (free_slot node.now) }
    ensures children { result.1 ≡ mask (free_child node.now) }
{
    let (slots, children) = member_coverage(node.data_bitmap);
    (node.data_bitmap & !slots, node.child_bitmap & !children)
}

// Whether the set slots, the children under set slots and all children that are there cover a data slot.
#[tactic(auto, using(crate::proofs::Bits::most_is))]
fn most_covered(node: &Node, under: u32, slot: u32) -> bool
    requires { slot < 31 }
    ensures { result ≡ full_range node.now.data_bitmap (bit_or under node.now.child_bitmap) slot }
{
    has_bit(
        fold_coverage(node.data_bitmap, under | node.child_bitmap),
        slot,
    )
}

// The children in a data slot that are under no set one.
#[tactic(auto, using(crate::proofs::Bits::free_is))]
fn free_children(node: &Node, under: u32, slot: u32) -> u32
    requires { slot < 31 }
    ensures { result ≡ mask (needs_child node.now.child_bitmap under slot) }
{
    node.child_bitmap & child_range(slot) & !under
}

// The children that a data slot under no set one needs covered, to be covered itself: none where it
// needs one that is not there.
#[tactic(auto, using(crate::proofs::Needs::found, crate::proofs::Needs::missing))]
pub(crate) fn needed_children(node: &Node, slot: u32) -> Option<u32>
    requires slot { slot < 31 }
    requires free { under_set node.now.data_bitmap slot ≡ false }
    ensures { Needs node.now.data_bitmap node.now.child_bitmap slot result }
{
    let (_, under) = member_coverage(node.data_bitmap);
    if most_covered(node, under, slot) {
        Some(free_children(node, under, slot))
    } else {
        None
    }
}
