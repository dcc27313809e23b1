// What a node's set slots cover: the slots under a set slot, and the slots whose whole range is
// covered. Each answer is the defined mask, for every bitmap.
#![tactic(auto)]

pub mod coverage;
mod fold;
pub mod ones;
mod push;
