// What a search meets and what it answers.

// A block on the path of a key that has a value: the node that has it, and its length.
#[derive(Clone, Copy)]
pub(crate) struct Hit {
    pub(crate) node: u32,
    pub(crate) len: u32,
}

// The place of the value, and the length of its block, whose bits are the key's.
#[derive(Clone, Copy)]
pub struct Found {
    pub place: u32,
    pub len: u32,
}
