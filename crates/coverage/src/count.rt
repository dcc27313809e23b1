// How many addresses are matched.
ghost use Rattle.std.specs.Prelude.{◌≡◌, ◌-◌, ◌^◌, ◌<◌, ◌≤◌, Some};
ghost use Rattle.addresses.specs.Sizes.{size};
ghost use Rattle.addresses.specs.Standing.{Standing, tier_of};
ghost use Rattle.addresses.specs.Sums.{bit_sum};
ghost use Rattle.register.specs.Register.{node_slot};

use crate::masks::{free_parts, tier};
use aggregate::ones::split_lowest;
use nodes::node::Node;
use slots::loc::child_loc;

// The addresses under a node, where the key has so many bits left: those of its set slots that are
// under no other, and those under its children that are under none.
pub(crate) fn address_count_at(nodes: &[Node], at: u32, rest: u32) -> u128
    requires { Standing nodes.now at rest }
    ensures { result ≡ size rest nodes.now (Some (node_slot at)) }
{
    let node = &nodes[at as usize];
    let (slots, children) = free_parts(node);
    let mut count = slot_addresses(slots, rest);
    let mut left = children;
    while let Some((child, others)) = split_lowest(left) {
        if let Some(loc) = child_loc(node, child) {
            count += address_count_at(nodes, loc.idx, rest - Node::STRIDE);
        }
        left = others;
    }
    count
}

// The addresses of a bitmap's data slots, added up as if none lay under another.
fn slot_addresses(slots: u32, rest: u32) -> u128
    requires rest { rest ≤ 64 }
    requires slots { slots < 2 ^ 31 }
    ensures { result ≡ bit_sum slots (λ b. 2 ^ (rest - tier_of b)) }
{
    let mut count = 0;
    let mut left = slots;
    while let Some((slot, others)) = split_lowest(left) {
        count += addresses_in(slot, rest);
        left = others;
    }
    count
}

// The addresses of a data slot.
#[tactic(auto, using(crate::proofs::Turns::slot_taken))]
fn addresses_in(slot: u32, rest: u32) -> u128
    requires rest { rest ≤ 64 }
    requires slot { slot < 31 }
    ensures { result ≡ 2 ^ (rest - tier_of slot) }
{
    1 << rest.saturating_sub(tier(slot))
}
