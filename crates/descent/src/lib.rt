// The way down: a search on the nodes of an accepted image, along the bits of a key. For other crates
// of this repository.
#![tactic(auto)]

pub mod cursor;
mod find;
pub mod found;
pub mod sought;
