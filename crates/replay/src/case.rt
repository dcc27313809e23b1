// A case of the table: `WIDTH ANSWER VALUES NODE..`.
use crate::answer::Answer;
use crate::run::Run;
use anyhow::Context;
use nodes::node::Node;
use std::alloc::Global;
use std::str::SplitAsciiWhitespace;
use tables::width::Width;

#[derive(Drop)]
pub struct Case {
    pub width: Width,
    pub answer: Answer,
    pub values: usize,
    pub nodes: Vec<Node>,
}

impl Case {
    // Not `FromStr`, which takes no allocator.
    pub(crate) fn parse(alloc: Global, line: &str) -> anyhow::Result<Case> {
        let mut words = line.split_ascii_whitespace();
        let (width, answer, values) = head(&mut words)?;
        Ok(Case {
            width,
            answer,
            values,
            nodes: nodes_of(alloc, words)?,
        })
    }
}

// The width, the answer, and the number of values.
fn head(words: &mut SplitAsciiWhitespace<'_>) -> anyhow::Result<(Width, Answer, usize)> {
    let width = words.next().context("no width")?.parse::<Width>()?;
    let answer = Answer::parse(words.next().context("no answer")?)?;
    let values = words.next().context("no number of values")?;
    Ok((width, answer, values.parse::<usize>()?))
}

fn nodes_of(alloc: Global, words: SplitAsciiWhitespace<'_>) -> anyhow::Result<Vec<Node>> {
    let mut nodes = Vec::new(alloc);
    for word in words {
        Run::parse(word)?.push_to(&mut nodes)?;
    }
    Ok(nodes)
}
