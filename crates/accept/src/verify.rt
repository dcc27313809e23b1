ghost use Rattle.std.specs.Prelude.{◌≡◌, ℕ, ◌+◌, ◌-◌, ◌*◌, ◌^◌, ◌<◌, ◌≤◌, min, ◌&&◌, [], ◌++◌, length, is_ok, if◌then◌else◌, nat_eq};
ghost use Rattle.tree.specs.Levels.{data_ones, child_ones};
ghost use Rattle.tree.specs.Meaning.{AcceptanceLaws};
ghost use Rattle.tree.specs.Verdict.{node_faults, faults_before, limit_faults, total_faults, first_fault, verdict};
ghost use Rattle.nodes.specs.Bitmaps.{ones32};
ghost use Rattle.nodes.specs.Faults.{number, outcome};

use nodes::error::ArchiveError;
use nodes::node::Node;

const MAX_NODES: usize = 1_048_576;

const MAX_VALUES: usize = 33_554_432;

// The smallest data bitmap with a slot behind tier m, for m from 0 to 4.
const DENIED_BITMAPS: [u32; 5] = [2, 8, 128, 32768, 2147483648];

// What the nodes before the present one call for, and how deep it stands.
#[derive(Clone, Copy)]
struct Cursors {
    data: u32,
    child: u32,
    depth: u32,
    next_level: u32,
}

impl Cursors {
    // The cursors at node i: one level deeper where the next level begins with it.
    fn enter(self, i: u32, node: &Node) -> Cursors
        requires { self.depth ≤ 2 ^ 30 }
        ensures values { result.«data» ≡ self.«data» }
        ensures children { result.child ≡ self.child }
        ensures depth { result.depth ≡ (if nat_eq i self.next_level then self.depth + 5 else self.depth) }
        ensures next_level { result.next_level ≡ (if nat_eq i self.next_level then node.now.children_idx else self.next_level) }
    {
        if i == self.next_level {
            Cursors {
                depth: self.depth + Node::STRIDE,
                next_level: node.children_idx,
                ..self
            }
        } else {
            self
        }
    }

    // The cursors behind the node.
    fn advance(self, node: &Node) -> Cursors
        requires few_values { self.«data» ≤ 2 ^ 30 }
        requires few_children { self.child ≤ 2 ^ 30 }
        ensures values { result.«data» ≡ self.«data» + ones32 node.now.data_bitmap }
        ensures children { result.child ≡ self.child + ones32 node.now.child_bitmap }
        ensures same_depth { result.depth ≡ self.depth }
        ensures same_next_level { result.next_level ≡ self.next_level }
    {
        Cursors {
            data: self.data + ones(node.data_bitmap),
            child: self.child + ones(node.child_bitmap),
            ..self
        }
    }
}

#[tactic(auto, using(nodes::proofs::Counts::ones32_all, nodes::proofs::Counts::ones32_le))]
fn ones(bitmap: u32) -> u32
    ensures all { result ≡ ones32 bitmap }
    ensures few { result ≤ 32 }
{
    bitmap.count_ones()
}

// The smallest data bitmap with a slot that is longer than `room` bits.
fn denied_from(room: u32) -> u32
    ensures { result ≡ 2 ^ (2 ^ (min 4 room + 1) - 1) }
{
    DENIED_BITMAPS[room.min(Node::STRIDE - 1) as usize]
}

fn is_empty(node: &Node) -> bool
    ensures { result ≡ (nat_eq node.now.data_bitmap 0 && nat_eq node.now.child_bitmap 0) }
{
    node.data_bitmap == 0 && node.child_bitmap == 0
}

// The tests of node i, in their order.
fn test_node(width: u32, i: u32, node: &Node, at: Cursors) -> Result<(), ArchiveError>
    ensures { outcome number result ≡ first_fault (node_faults width i at.depth at.«data» at.child node.now) }
{
    let empty = is_empty(node);
    if i > 0 && empty {
        return Err(ArchiveError::ContainsEmptyNode);
    }
    if at.depth > width {
        return Err(ArchiveError::DepthExceedsPrefixRepr);
    }
    let denied = denied_from(width - at.depth);
    if node.data_bitmap >= denied {
        return Err(ArchiveError::DepthExceedsPrefixRepr);
    }
    if node.data_idx != at.data {
        return Err(ArchiveError::DataListInconsistent);
    }
    if node.children_idx != at.child {
        return Err(ArchiveError::NodeListInconsistent);
    }
    Ok(())
}

// What the bitmaps called for in all, against the two lists.
fn test_totals(at: Cursors, nodes: u32, values: u32) -> Result<(), ArchiveError>
    ensures { outcome number result ≡ first_fault (total_faults at.child nodes at.«data» values) }
{
    if at.child < nodes {
        return Err(ArchiveError::NodeListTooShort);
    }
    if at.child > nodes {
        return Err(ArchiveError::NodeListTooLong);
    }
    if at.data < values {
        return Err(ArchiveError::DataListTooShort);
    }
    if at.data > values {
        return Err(ArchiveError::DataListTooLong);
    }
    Ok(())
}

fn test_limits(nodes: usize, values: usize) -> Result<(), ArchiveError>
    ensures { outcome number result ≡ first_fault (limit_faults nodes values) }
{
    if nodes > MAX_NODES {
        return Err(ArchiveError::NodeIndexOverflow);
    }
    if values > MAX_VALUES {
        return Err(ArchiveError::DataIndexOverflow);
    }
    if nodes == 0 {
        return Err(ArchiveError::MissingRootNode);
    }
    Ok(())
}

// The tests of the nodes one after another, and then of the totals.
#[tactic(auto, using(crate::proofs::Cursors::behind_none, crate::proofs::Cursors::data_ones_le, crate::proofs::Cursors::child_ones_le, crate::proofs::Cursors::behind_more, crate::proofs::Cursors::behind_all))]
fn verify_nodes(width: u32, nodes: &[Node], values: u32) -> Result<(), ArchiveError>
    requires { length nodes.now ≤ 1048576 }
    ensures { outcome number result ≡ first_fault (faults_before width nodes.now (length nodes.now) ++ total_faults (1 + child_ones nodes.now) (length nodes.now) (data_ones nodes.now) values) }
{
    let mut at = Cursors {
        data: 0,
        child: 1,
        depth: 0,
        next_level: 1,
    };
    for (i, node) in nodes.iter().enumerate() {
        let i = i as u32;
        let here = at.enter(i, node);
        test_node(width, i, node, here)?;
        at = here.advance(node);
    }
    test_totals(at, nodes.len() as u32, values)
}

// All tests, in their order.
#[tactic(auto, using(tree::proofs::Meaning::right))]
pub(crate) fn verify(width: u32, nodes: &[Node], values: usize) -> Result<(), ArchiveError>
    ensures verdict { outcome number result ≡ verdict width nodes.now values }
    ensures meaning { AcceptanceLaws width nodes.now values (is_ok result) }
{
    test_limits(nodes.len(), values)?;
    verify_nodes(width, nodes, values as u32)
}
