// Reads a table of images and queries from standard input, asks the library each query, and
// compares its answers with those that the table has. docs/COMPARISON.md has the form of the table.
#![tactic(auto)]

mod answer;
mod ask;
mod check;
mod pair;
mod question;
mod section;
mod tally;

use crate::check::check_section;
use crate::question::Question;
use crate::section::Section;
use crate::tally::Tally;
use anyhow::Context;
use std::io::{BufRead, BufReader};
use tables::compared::add_one;
use tables::line::is_remark;

// A table as it is read: how many lines, the image that queries are being read for, if any, and what
// was counted.
#[derive(Drop)]
struct Reader<'a> {
    rt: &'a HostRuntime,
    line: u64,
    open: Option<Section>,
    tally: Tally,
}

impl<'a> Reader<'a> {
    // Asks the queries of the image that was read last.
    fn close(&mut self) -> anyhow::Result<()> {
        match self.open.take() {
            None => Ok(()),
            Some(section) => check_section(self.rt, &section, &mut self.tally),
        }
    }

    fn take_image(&mut self, lists: &str) -> anyhow::Result<()> {
        self.close()?;
        self.open = Some(Section::parse(self.rt.alloc(), self.line, lists)?);
        Ok(())
    }

    fn take_query(&mut self, text: &str) -> anyhow::Result<()> {
        let section = self
            .open
            .as_mut()
            .context("a query before the first image")?;
        let question = Question::parse(section.width, text)?;
        Ok(section.push(self.line, question)?)
    }

    fn take_line(&mut self, text: &str) -> anyhow::Result<()> {
        match text.strip_prefix("image ") {
            Some(lists) => self.take_image(lists),
            None => self.take_query(text),
        }
    }

    fn read_line(&mut self, text: &str) -> anyhow::Result<()> {
        add_one(&mut self.line);
        if is_remark(text) {
            return Ok(());
        }
        if let Err(e) = self.take_line(text) {
            println!(self.rt; "line {} is neither an image nor a query", self.line)?;
            return Err(e);
        }
        Ok(())
    }

    fn read_all(&mut self) -> anyhow::Result<()> {
        for text in BufReader::new(self.rt.alloc(), self.rt.stdin())?.lines(self.rt.alloc()) {
            self.read_line(&text?)?;
        }
        self.close()
    }
}

fn main(rt: HostRuntime) -> anyhow::Result<()> {
    let mut reader = Reader {
        rt: &rt,
        line: 0,
        open: None,
        tally: Tally::new(),
    };
    reader.read_all()?;
    println!(rt; "{}", reader.tally)?;
    Ok(())
}
