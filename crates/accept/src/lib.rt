// Acceptance of a node list and a value list, and the image that an accepted pair makes. `accept`
// answers the defined verdict on every two lists, and an `Image` exists only of two with a good one.
#![tactic(auto)]

pub mod accept;
pub mod image;
mod verify;
