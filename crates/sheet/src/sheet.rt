ghost use Rattle.sheet.specs.Limits.{AreWithinLimits};
ghost use Rattle.std.specs.Prelude.{length};

use nodes::node::Node;

// A sheet in memory, within the limits. The width is a number, as every definition of keys takes it.
#[derive(Drop)]
pub struct Sheet {
    pub width: u32,
    pub nodes: Vec<Node>,
    pub values: Vec<u32>,
    ghost limits: { AreWithinLimits width (length nodes.items) (length values.items) },
}
