// The library's answers on an image.
use crate::answer::{Answer, Count, Coverage, Entry, Refusal};
use crate::pair::AnyPair;
use crate::question::Answers;
use accept::image::Image;
use coverage::{address_count, is_covered_in_aggregate};
use matches::{get, get_lpm, get_spm, value};
use nodes::error::ArchiveError;
use prefix::Prefix;
use prefix::span::Span;

// What one of the two matches that give a prefix answered.
fn entry_answer<P: Prefix>(answer: Result<Option<(P, u32)>, ArchiveError>) -> Answer<Entry> {
    Answer(
        answer
            .map(|hit| hit.map(Entry::from))
            .map_err(Refusal::from),
    )
}

fn ask<P: Prefix>(image: &Image<u32>, q: &P) -> Answers {
    Answers {
        exact: Answer(get(image, q).map_err(Refusal::from)),
        longest: entry_answer(get_lpm(image, q)),
        shortest: entry_answer(get_spm(image, q)),
    }
}

// A width picks a type parameter, which takes an arm for each.
pub(crate) fn ask_pair(image: &Image<u32>, pair: &AnyPair) -> Answers {
    match pair {
        AnyPair::Bits8(p) => ask(image, p),
        AnyPair::Bits16(p) => ask(image, p),
        AnyPair::Bits32(p) => ask(image, p),
        AnyPair::Bits64(p) => ask(image, p),
    }
}

pub(crate) fn ask_span(image: &Image<u32>, span: &Span) -> Answers {
    ask(image, span)
}

pub(crate) fn ask_value(image: &Image<u32>, place: u32) -> Answer<u32> {
    Answer(value(image, place).map(|v| Some(*v)).map_err(Refusal::from))
}

fn covered<P: Prefix>(image: &Image<u32>, q: &P) -> Coverage {
    Coverage(is_covered_in_aggregate(image, q).map_err(Refusal::from))
}

pub(crate) fn pair_covered(image: &Image<u32>, pair: &AnyPair) -> Coverage {
    match pair {
        AnyPair::Bits8(p) => covered(image, p),
        AnyPair::Bits16(p) => covered(image, p),
        AnyPair::Bits32(p) => covered(image, p),
        AnyPair::Bits64(p) => covered(image, p),
    }
}

pub(crate) fn span_covered(image: &Image<u32>, span: &Span) -> Coverage {
    covered(image, span)
}

pub(crate) fn ask_count(image: &Image<u32>) -> Count {
    Count(address_count(image))
}
