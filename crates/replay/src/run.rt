// A word of a case that has nodes: `NODE` is one node, and `NODE*N` a run of N nodes with its bitmaps,
// whose indexes move on by the bits that are set.
ghost use Rattle.std.specs.Prelude.{◌≡◌, ◌+◌, ◌%◌, ◌^◌, count_ones};

use nodes::node::Node;
use std::alloc::AllocError;
use std::iter::successors;
use tables::node_word::NodeWord;

#[derive(Clone, Copy)]
pub struct Run {
    first: Node,
    count: u32,
}

impl Run {
    pub(crate) fn parse(word: &str) -> anyhow::Result<Run> {
        match word.split_once('*') {
            None => Ok(Run {
                first: word.parse::<NodeWord>()?.0,
                count: 1,
            }),
            Some((node, count)) => Ok(Run {
                first: node.parse::<NodeWord>()?.0,
                count: count.parse::<u32>()?,
            }),
        }
    }

    // Adds its nodes to the list.
    pub(crate) fn push_to(&self, nodes: &mut Vec<Node>) -> Result<(), AllocError> {
        let run = successors(Some(self.first), |node| Some(behind(*node)));
        nodes.extend(run.take(self.count as usize))
    }
}

// The node that follows in a run.
fn behind(node: Node) -> Node
    ensures bitmaps { (result.data_bitmap ≡ node.data_bitmap) × (result.child_bitmap ≡ node.child_bitmap) }
    ensures indexes { (result.data_idx ≡ (node.data_idx + count_ones node.data_bitmap) % 2 ^ 32) × (result.children_idx ≡ (node.children_idx + count_ones node.child_bitmap) % 2 ^ 32) }
{
    Node {
        data_idx: node.data_idx.wrapping_add(node.data_bitmap.count_ones()),
        children_idx: node
            .children_idx
            .wrapping_add(node.child_bitmap.count_ones()),
        ..node
    }
}
