// The bits of a node: which bit a block or a child has, where its value stands, and the masks of a
// path. Each answer is the defined bit, place or mask, for every node, key, depth and length.
#![tactic(auto)]

pub mod common;
pub mod key;
pub mod loc;
pub mod mask;
mod pattern;
