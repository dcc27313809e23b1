// Reads a table of cases from standard input, runs `accept` on the lists of each, and compares its
// answer with the one that the table has. docs/COMPARISON.md has the form of the table.
#![tactic(auto)]

mod answer;
mod case;
mod judge;
mod run;
mod tally;

use crate::answer::Answer;
use crate::case::Case;
use crate::judge::judge;
use crate::tally::Tally;
use std::io::{BufRead, BufReader};
use tables::compared::add_one;
use tables::line::is_remark;

// The table as it is replayed: how many lines, and what was counted of it.
#[derive(Drop)]
struct Replay<'a> {
    rt: &'a HostRuntime,
    line: u64,
    tally: Tally,
}

impl<'a> Replay<'a> {
    // Runs one case, and says so where the answers differ.
    fn run_case(&mut self, case: &Case) -> anyhow::Result<()> {
        let values = vec![in self.rt.alloc(); 0u8; case.values]?;
        let ours = Answer(judge(case.width, &case.nodes, &values));
        self.tally.count(case.width, case.answer, ours);
        self.compare(case.answer, ours)
    }

    fn compare(&self, theirs: Answer, ours: Answer) -> anyhow::Result<()> {
        if ours != theirs {
            println!(self.rt;
                "line {}: the table has {theirs}, accept answers {ours}",
                self.line
            )?;
        }
        Ok(())
    }

    fn read_line(&mut self, text: &str) -> anyhow::Result<()> {
        add_one(&mut self.line);
        if is_remark(text) {
            return Ok(());
        }
        match Case::parse(self.rt.alloc(), text) {
            Ok(case) => self.run_case(&case),
            Err(e) => {
                println!(self.rt; "line {} is no case", self.line)?;
                Err(e)
            }
        }
    }

    fn read_all(&mut self) -> anyhow::Result<()> {
        for text in BufReader::new(self.rt.alloc(), self.rt.stdin())?.lines(self.rt.alloc()) {
            self.read_line(&text?)?;
        }
        Ok(())
    }
}

fn main(rt: HostRuntime) -> anyhow::Result<()> {
    let mut replay = Replay {
        rt: &rt,
        line: 0,
        tally: Tally::new(),
    };
    replay.read_all()?;
    println!(rt; "{}", replay.tally)?;
    Ok(())
}
