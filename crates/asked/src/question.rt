// A query of the table, with the answers that it has:
// `ask KEY/LEN EXACT LONGEST SHORTEST`, the crate's answers to a pair of the image's width;
// `refuse WIDTH KEY/LEN FAULT`, a pair of any width that all three matches turn down;
// `value PLACE`, a place whose value is the place; `refuse-value PLACE FAULT`, one that has none;
// `covered KEY/LEN COVERED`, the crate's answer, `1` or `0`, to whether the block of a pair of the
// image's width is covered; `refuse-covered WIDTH KEY/LEN FAULT`, a pair for which that is turned down;
// `count COUNT`, the number of addresses that the crate gives, or `whole`.
use crate::answer::{Answer, Count, Coverage, Entry, Refusal};
use crate::pair::AnyPair;
use anyhow::{Context, bail, ensure};
use std::str::SplitAsciiWhitespace;
use tables::width::Width;

// The answers to the three matches of one pair.
#[derive(Clone, Copy)]
pub struct Answers {
    pub exact: Answer<u32>,
    pub longest: Answer<Entry>,
    pub shortest: Answer<Entry>,
}

// The same refusal of all three.
impl From<Refusal> for Answers {
    fn from(refusal: Refusal) -> Answers {
        Answers {
            exact: Answer(Err(refusal)),
            longest: Answer(Err(refusal)),
            shortest: Answer(Err(refusal)),
        }
    }
}

#[derive(Clone, Copy)]
pub enum Question {
    Match(AnyPair, Answers),
    Value(u32, Answer<u32>),
    Coverage(AnyPair, Coverage),
    Count(Count),
}

impl Question {
    // A pair without a width of its own has that of the image. Not `FromStr`, which takes no width.
    pub(crate) fn parse(width: Width, text: &str) -> anyhow::Result<Question> {
        let (name, rest) = text.split_once(' ').context("a query has several words")?;
        let mut words = rest.split_ascii_whitespace();
        let question = named(name, width, &mut words)?;
        ensure!(words.next().is_none(), "a word too many");
        Ok(question)
    }
}

fn named(
    name: &str,
    width: Width,
    words: &mut SplitAsciiWhitespace<'_>,
) -> anyhow::Result<Question> {
    match name {
        "ask" => matched(width, words),
        "refuse" => refused(words),
        "value" => value(words),
        "refuse-value" => refused_value(words),
        "covered" => covered(width, words),
        "refuse-covered" => refused_coverage(words),
        "count" => counted(words),
        _ => bail!("a query is ask, refuse, value, refuse-value, covered, refuse-covered or count"),
    }
}

fn matched(width: Width, words: &mut SplitAsciiWhitespace<'_>) -> anyhow::Result<Question> {
    let pair = AnyPair::parse(width, words.next().context("no pair")?)?;
    let exact = Answer::parse(words.next().context("no exact match")?)?;
    let longest = Answer::parse(words.next().context("no longest match")?)?;
    let shortest = Answer::parse(words.next().context("no shortest match")?)?;
    Ok(Question::Match(
        pair,
        Answers {
            exact,
            longest,
            shortest,
        },
    ))
}

fn covered(width: Width, words: &mut SplitAsciiWhitespace<'_>) -> anyhow::Result<Question> {
    let pair = AnyPair::parse(width, words.next().context("no pair")?)?;
    let coverage = Coverage::parse(words.next().context("no answer")?)?;
    Ok(Question::Coverage(pair, coverage))
}

fn counted(words: &mut SplitAsciiWhitespace<'_>) -> anyhow::Result<Question> {
    Ok(Question::Count(Count::parse(words.next().context("no count")?)?))
}

fn value(words: &mut SplitAsciiWhitespace<'_>) -> anyhow::Result<Question> {
    let place = words.next().context("no place")?.parse::<u32>()?;
    Ok(Question::Value(place, Answer(Ok(Some(place)))))
}

fn refused_value(words: &mut SplitAsciiWhitespace<'_>) -> anyhow::Result<Question> {
    let place = words.next().context("no place")?.parse::<u32>()?;
    let refusal = Refusal::parse(words.next().context("no fault")?)?;
    Ok(Question::Value(place, Answer(Err(refusal))))
}

// A pair with its width, and its refusal.
fn refused_pair(words: &mut SplitAsciiWhitespace<'_>) -> anyhow::Result<(AnyPair, Refusal)> {
    let width = words.next().context("no width")?.parse::<Width>()?;
    let pair = AnyPair::parse(width, words.next().context("no pair")?)?;
    let refusal = Refusal::parse(words.next().context("no fault")?)?;
    Ok((pair, refusal))
}

fn refused(words: &mut SplitAsciiWhitespace<'_>) -> anyhow::Result<Question> {
    let (pair, refusal) = refused_pair(words)?;
    Ok(Question::Match(pair, Answers::from(refusal)))
}

fn refused_coverage(words: &mut SplitAsciiWhitespace<'_>) -> anyhow::Result<Question> {
    let (pair, refusal) = refused_pair(words)?;
    Ok(Question::Coverage(pair, Coverage(Err(refusal))))
}
