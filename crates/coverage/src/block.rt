// Whether each address of a block is matched.
ghost use Rattle.std.specs.Prelude.{◌≡◌, ◌<◌, false};
ghost use Rattle.addresses.specs.Addresses.{covered};
ghost use Rattle.addresses.specs.Standing.{Standing};
ghost use Rattle.aggregate.specs.Halves.{under_set};
ghost use Rattle.coverage.specs.Slots.{Ended, slot_covered};
ghost use Rattle.keys.specs.Blocks.{block_of};
ghost use Rattle.register.specs.Register.{places};
ghost use Rattle.tree.specs.Levels.{node_at};

use crate::masks::needed_children;
use aggregate::ones::split_lowest;
use descent::cursor::Cursor;
use descent::sought::Search;
use nodes::node::Node;
use slots::key::data_bit;
use slots::loc::child_loc;

// Whether each address of the query's block is matched: by an entry that contains the block, or by those inside it.
#[tactic(auto, using(descent::proofs::Ways::way_on, crate::proofs::Descents::hit_covers, crate::proofs::Descents::none_yet))]
#[inline(always)]
pub(crate) fn block_covered(query: &Search) -> bool
    ensures { result ≡ covered query.now.key.width (block_of query.now.key.width query.now.key.bits query.now.len) (places query.now.key.width query.now.nodes.now) }
{
    let mut cursor = query.start();
    loop {
        if cursor.has_hit() {
            return true;
        }
        match cursor.child() {
            Some(next) => cursor = next,
            None => return end_covered(&cursor),
        }
    }
}

// The same at the end of the way, where no entry contains the block.
#[tactic(auto, using(crate::proofs::Descents::stands, crate::proofs::Descents::slot_small, crate::proofs::Descents::slot_free, crate::proofs::Descents::past_end, crate::proofs::Descents::in_end))]
fn end_covered(cursor: &Cursor) -> bool
    requires { Ended cursor.now }
    ensures { result ≡ covered cursor.now.query.key.width (block_of cursor.now.query.key.width cursor.now.query.key.bits cursor.now.query.len) (places cursor.now.query.key.width cursor.now.query.nodes.now) }
{
    let query = &cursor.query;
    if cursor.depth + Node::STRIDE <= query.len {
        return false;
    }
    let rest = query.key.width - cursor.depth;
    bit_covered(query.nodes, cursor.at, rest, data_bit(query.key, query.len))
}

// Each address of a data slot, where the key has so many bits left at the slot's node: by the slot
// itself, by slots below it in the node, and by the nodes below.
fn bit_covered(nodes: &[Node], at: u32, rest: u32, slot: u32) -> bool
    requires stands { Standing nodes.now at rest }
    requires slot { slot < 31 }
    requires free { under_set (node_at nodes.now at).data_bitmap slot ≡ false }
    ensures { result ≡ slot_covered nodes.now at rest slot }
{
    let node = &nodes[at as usize];
    let Some(mut left) = needed_children(node, slot) else {
        return false;
    };
    while let Some((child, others)) = split_lowest(left) {
        let Some(loc) = child_loc(node, child) else {
            return false;
        };
        if !bit_covered(nodes, loc.idx, rest - Node::STRIDE, 0) {
            return false;
        }
        left = others;
    }
    true
}
