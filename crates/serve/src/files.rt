// The files of a set. All numbers stand with the lowest byte first, and no file has a head. The bytes
// behind the last whole item of a file are left out.
use nodes::node::Node;
use std::alloc::{AllocError, Global};
use std::{fs, io};

#[derive(Drop)]
pub struct Lists {
    pub(crate) nodes: Vec<Node>,
    pub(crate) values: Vec<u32>,
    // the keys as they stand in their file, and a length for each, which is a file of its own
    pub(crate) keys: Vec<u8>,
    pub(crate) lens: Vec<u8>,
}

// The numbers of 32 bits that the bytes are.
pub(crate) fn numbers_of(heap: Global, bytes: &[u8]) -> Result<Vec<u32>, AllocError> {
    bytes
        .as_chunks::<4>()
        .0
        .iter()
        .map(|group| u32::from_le_bytes(*group))
        .collect(heap)
}

// The numbers of 64 bits that the bytes are.
pub(crate) fn long_numbers_of(heap: Global, bytes: &[u8]) -> Result<Vec<u64>, AllocError> {
    bytes
        .as_chunks::<8>()
        .0
        .iter()
        .map(|group| u64::from_le_bytes(*group))
        .collect(heap)
}

// The nodes that the bytes are, four numbers each.
fn nodes_of(heap: Global, bytes: &[u8]) -> Result<Vec<Node>, AllocError> {
    let numbers = bytes.as_chunks::<4>().0;
    numbers
        .as_chunks::<4>()
        .0
        .iter()
        .map(|group| Node::from(group.map(u32::from_le_bytes)))
        .collect(heap)
}

fn read_file(rt: &HostRuntime, folder: &str, set: &str, kind: &str) -> io::Result<Vec<u8>> {
    let path = format!(in rt.alloc(); "{folder}/{set}.{kind}")?;
    fs::read(rt, &path)
}

pub(crate) fn read_lists(rt: &HostRuntime, folder: &str, set: &str) -> io::Result<Lists> {
    let nodes = read_file(rt, folder, set, "nodes")?;
    let values = read_file(rt, folder, set, "values")?;
    Ok(Lists {
        nodes: nodes_of(rt.alloc(), &nodes)?,
        values: numbers_of(rt.alloc(), &values)?,
        keys: read_file(rt, folder, set, "keys")?,
        lens: read_file(rt, folder, set, "lens")?,
    })
}
