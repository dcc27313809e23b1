// An image of the table, `image WIDTH VALUES NODE..`, and the queries that follow it.
use crate::question::Question;
use anyhow::Context;
use nodes::node::Node;
use std::alloc::{AllocError, Global};
use std::str::SplitAsciiWhitespace;
use tables::node_word::NodeWord;
use tables::width::Width;

// A query and the number of its line.
#[derive(Clone, Copy)]
pub struct Asked {
    pub line: u64,
    pub question: Question,
}

#[derive(Drop)]
pub struct Section {
    pub line: u64,
    pub width: Width,
    pub nodes: Vec<Node>,
    // At each place the place.
    pub values: Vec<u32>,
    pub asked: Vec<Asked>,
}

impl Section {
    // The words behind `image`. Not `FromStr`, which takes no allocator and no line.
    pub(crate) fn parse(alloc: Global, line: u64, text: &str) -> anyhow::Result<Section> {
        let mut words = text.split_ascii_whitespace();
        let (width, count) = head(&mut words)?;
        Ok(Section {
            line,
            width,
            nodes: nodes_of(alloc, words)?,
            values: (0..count).collect(alloc)?,
            asked: Vec::new(alloc),
        })
    }

    pub(crate) fn push(&mut self, line: u64, question: Question) -> Result<(), AllocError> {
        Ok(self.asked.push(Asked { line, question })?)
    }
}

// The width, and the number of values.
fn head(words: &mut SplitAsciiWhitespace<'_>) -> anyhow::Result<(Width, u32)> {
    let width = words.next().context("no width")?.parse::<Width>()?;
    let count = words.next().context("no number of values")?.parse::<u32>()?;
    Ok((width, count))
}

// The nodes that the words are.
fn nodes_of(alloc: Global, words: SplitAsciiWhitespace<'_>) -> anyhow::Result<Vec<Node>> {
    let mut nodes = Vec::new(alloc);
    for word in words {
        nodes.push(word.parse::<NodeWord>()?.0)?;
    }
    Ok(nodes)
}
