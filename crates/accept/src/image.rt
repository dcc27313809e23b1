ghost use Rattle.std.specs.Prelude.{◌≡◌, ◌≤◌, length};
ghost use Rattle.tree.specs.Levels.{data_ones};
ghost use Rattle.tree.specs.Verdict.{Accepted};

use keys::Key;
use nodes::node::Node;

// An accepted image: a node list and a value list of any one kind, both lent, and the width of its
// keys. Its nodes are accepted for as many values as their data bitmaps call for, and the list has
// as many. There is no other way to have one than from two lists with a good verdict.
#[derive(Drop)]
pub struct Image<'a, T> {
    nodes: &'a [Node],
    values: &'a [T],
    width: u32,
    ghost accepted: { Accepted width nodes.now (data_ones nodes.now) },
    ghost filled: { data_ones nodes.now ≡ length values.now },
    ghost narrow: { width ≤ 64 },
}

impl<'a, T> Image<'a, T> {
    ghost use Rattle.accept.specs.Images.{width_of, nodes_of, values_of};

    // The image of two lists that were accepted under keys of this kind.
    pub fn new<K: Key>(nodes: &'a [Node], values: &'a [T]) -> Image<'a, T>
        requires { Accepted K.Key.width nodes.now (length values.now) }
        ensures width { width_of result ≡ K.Key.width }
        ensures nodes { nodes_of result ≡ nodes.now }
        ensures values { values_of result ≡ values.now }
        ensures same { (nodes.exit.now ≡ nodes.entry.now) × (values.exit.now ≡ values.entry.now) }
    {
        Image {
            nodes,
            values,
            width: K::bits(),
        }
    }

    // The width of its keys in bits.
    pub fn width(&self) -> u32
        ensures width { result ≡ width_of self.now }
        ensures same { self.exit.now ≡ self.entry.now }
    {
        self.width
    }

    // The lent node list.
    pub fn nodes(&self) -> &'a [Node]
        ensures nodes { result.now ≡ nodes_of self.now }
        ensures same { self.exit.now ≡ self.entry.now }
    {
        self.nodes
    }

    // The lent value list.
    pub fn values(&self) -> &'a [T]
        ensures values { result.now ≡ values_of self.now }
        ensures same { self.exit.now ≡ self.entry.now }
    {
        self.values
    }
}
