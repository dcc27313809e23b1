// The queries of an image, asked and compared.
use crate::answer::{Answer, Answered, Coverage, Found};
use crate::ask::{ask_count, ask_pair, ask_span, ask_value, pair_covered, span_covered};
use crate::pair::AnyPair;
use crate::question::{Answers, Question};
use crate::section::Section;
use crate::tally::{Call, Tally};
use accept::accept::accept;
use accept::image::Image;
use keys::Key;
use tables::width::Width;

// A query as it is checked: its image and that image's width, its line, and the tally that counts it.
#[derive(Drop)]
struct Check<'a, 'b> {
    rt: &'a HostRuntime,
    image: &'a Image<'b, u32>,
    width: Width,
    line: u64,
    tally: &'a mut Tally,
}

impl<'a, 'b> Check<'a, 'b> {
    fn compare<A: Answered>(&mut self, call: Call, theirs: &A, ours: &A) -> anyhow::Result<()> {
        if ours != theirs {
            println!(self.rt;
                "line {}: {call}: the table has {theirs}, the library answers {ours}",
                self.line
            )?;
        }
        self.tally.count(self.width, call, theirs, ours);
        Ok(())
    }

    // The value at the place that an answer names has to be the place.
    fn check_place<T: Found>(&mut self, answer: &Answer<T>) -> anyhow::Result<()> {
        let Ok(Some(found)) = &answer.0 else {
            return Ok(());
        };
        self.check_value(found.place(), &Answer(Ok(Some(found.place()))))
    }

    fn check_value(&mut self, place: u32, theirs: &Answer<u32>) -> anyhow::Result<()> {
        let ours = ask_value(self.image, place);
        self.compare(Call::Value, theirs, &ours)
    }

    fn check_pair(&mut self, pair: &AnyPair, theirs: &Answers) -> anyhow::Result<()> {
        let ours = ask_pair(self.image, pair);
        self.compare(Call::Exact, &theirs.exact, &ours.exact)?;
        self.compare(Call::Longest, &theirs.longest, &ours.longest)?;
        self.compare(Call::Shortest, &theirs.shortest, &ours.shortest)?;
        self.tally.count_depth(self.width, &theirs.longest);
        self.check_place(&ours.exact)?;
        self.check_place(&ours.longest)?;
        self.check_place(&ours.shortest)
    }

    // The same answers through a span, where the pair has one.
    fn check_span(&mut self, pair: &AnyPair, theirs: &Answers) -> anyhow::Result<()> {
        let Some(span) = pair.to_span() else {
            return Ok(());
        };
        let ours = ask_span(self.image, &span);
        self.compare(Call::SpanExact, &theirs.exact, &ours.exact)?;
        self.compare(Call::SpanLongest, &theirs.longest, &ours.longest)?;
        self.compare(Call::SpanShortest, &theirs.shortest, &ours.shortest)
    }

    // The same answer through a span, where the pair has one.
    fn check_coverage(&mut self, pair: &AnyPair, theirs: &Coverage) -> anyhow::Result<()> {
        let ours = pair_covered(self.image, pair);
        self.compare(Call::Coverage, theirs, &ours)?;
        let Some(span) = pair.to_span() else {
            return Ok(());
        };
        let ours = span_covered(self.image, &span);
        self.compare(Call::SpanCoverage, theirs, &ours)
    }

    fn check_question(&mut self, question: &Question) -> anyhow::Result<()> {
        match question {
            Question::Match(pair, theirs) => {
                self.check_pair(pair, theirs)?;
                self.check_span(pair, theirs)
            }
            Question::Value(place, theirs) => self.check_value(*place, theirs),
            Question::Coverage(pair, theirs) => self.check_coverage(pair, theirs),
            Question::Count(theirs) => {
                let ours = ask_count(self.image);
                self.compare(Call::Count, theirs, &ours)
            }
        }
    }
}

fn check_at<K: Key>(rt: &HostRuntime, section: &Section, tally: &mut Tally) -> anyhow::Result<()> {
    let (nodes, values) = (&section.nodes, &section.values);
    if let Err(e) = accept::<K, u32>(nodes, values) {
        println!(rt;
            "line {}: the library does not accept the image: {e}",
            section.line
        )?;
        tally.count_refused_image();
        return Ok(());
    }
    let image = Image::new::<K>(nodes, values);
    for asked in &section.asked {
        let mut check = Check {
            rt,
            image: &image,
            width: section.width,
            line: asked.line,
            tally,
        };
        check.check_question(&asked.question)?;
    }
    Ok(())
}

// A width picks a type parameter, which takes an arm for each.
pub(crate) fn check_section(
    rt: &HostRuntime,
    section: &Section,
    tally: &mut Tally,
) -> anyhow::Result<()> {
    tally.count_image(section.width);
    match section.width {
        Width::Bits8 => check_at::<u8>(rt, section, tally),
        Width::Bits16 => check_at::<u16>(rt, section, tally),
        Width::Bits32 => check_at::<u32>(rt, section, tally),
        Width::Bits64 => check_at::<u64>(rt, section, tally),
    }
}
