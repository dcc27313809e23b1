// Nodes on the way of a key.
ghost use Rattle.descent.specs.Way.{LeadsTo};

use crate::sought::Search;

// The node that the key's first bits, as many as the depth, lead to.
#[derive(Clone, Copy)]
pub struct Cursor<'a> {
    pub query: Search<'a>,
    pub at: u32,
    pub depth: u32,
    ghost on_path: { LeadsTo query.key.width query.nodes.now query.key.bits query.len at depth },
}
