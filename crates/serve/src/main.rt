// Serves measurements of the library's calls on a set of files: `FOLDER SET [KEYS]`, and then a
// command on each line of standard input. docs/MEASUREMENT.md has the files and the commands.
#![tactic(auto)]

mod bench;
mod files;
mod op;
mod tally;

use crate::bench::{AnyBench, Bench};
use crate::files::{long_numbers_of, numbers_of, read_lists};
use crate::op::{Op, UnknownOp};
use anyhow::{Context, bail, ensure};
use std::io::{BufRead, BufReader};
use std::num::nearest_u64_to_f64;
use std::time::Instant;

// A timing ends with the first pass that ends so long after the start.
const LEAST_NANOS: u128 = 30_000_000;

// More passes than end before that.
const MOST_PASSES: u64 = 1 << 40;

// Answers commands about a set.
#[derive(Drop)]
struct Server<'a, 'b> {
    rt: &'a HostRuntime,
    bench: AnyBench<'b>,
}

impl<'a, 'b> Server<'a, 'b> {
    // The nanoseconds of one operation: a warming pass over an eighth of the keys, and then whole
    // passes.
    fn nanos_each(&self, op: Op) -> anyhow::Result<f64> {
        let number = self.bench.number(op);
        self.bench.sum(op, number / 8)?;
        let start = Instant::now(self.rt)?;
        let mut first = None;
        // A counted loop: the number of passes is what the time is divided by.
        for passes in 1..=MOST_PASSES {
            same_sum(&mut first, self.bench.sum(op, number)?)?;
            let nanos = start.elapsed(self.rt)?.as_nanos();
            if nanos >= LEAST_NANOS {
                return each(nanos, passes, number);
            }
        }
        bail!("the clock stands still")
    }

    fn answer_check(&self, op: Op) -> anyhow::Result<()> {
        let number = self.bench.number(op);
        let sum = self.bench.sum(op, number)?;
        let hash = self.bench.hash(op, number)?;
        Ok(println!(self.rt; "check {op} {number} {sum:016x} {hash:016x}")?)
    }

    fn answer_once(&self, op: Op) -> anyhow::Result<()> {
        let number = self.bench.number(op);
        let sum = self.bench.sum(op, number)?;
        Ok(println!(self.rt; "once {op} {number} {sum:016x}")?)
    }

    fn answer_time(&self, op: Op) -> anyhow::Result<()> {
        let nanos = self.nanos_each(op)?;
        Ok(println!(self.rt; "time {op} {nanos:.3}")?)
    }

    // Answers a command; any but `check` and `once` is answered by a time.
    fn answer(&self, command: &str, op: Op) -> anyhow::Result<()> {
        // A command is a word of the input, and any but two is a time, so the words are no enum.
        match command {
            "check" => self.answer_check(op),
            "once" => self.answer_once(op),
            _ => self.answer_time(op),
        }
    }

    fn answer_line(&self, line: &str) -> anyhow::Result<()> {
        let (command, name) = line.split_once(' ').unwrap_or((line, ""));
        match name.parse::<Op>() {
            Ok(op) => self.answer(command, op),
            Err(UnknownOp) => Ok(println!(self.rt; "unknown {name}")?),
        }
    }

    // Answers the commands of standard input, a line each.
    fn serve(&self) -> anyhow::Result<()> {
        println!(self.rt; "memory image {}", self.bench.image_bytes())?;
        println!(self.rt; "ready")?;
        for line in BufReader::new(self.rt.alloc(), self.rt.stdin())?.lines(self.rt.alloc()) {
            self.answer_line(&line?)?;
        }
        Ok(())
    }
}

// All passes have the first one's sum.
fn same_sum(first: &mut Option<u64>, sum: u64) -> anyhow::Result<()> {
    ensure!(
        *first.get_or_insert(sum) == sum,
        "two passes have different sums"
    );
    Ok(())
}

fn each(nanos: u128, passes: u64, number: usize) -> anyhow::Result<f64> {
    let nanos = nearest_u64_to_f64(u64::try_from(nanos)?);
    Ok(nanos / nearest_u64_to_f64(passes) / nearest_u64_to_f64(number as u64))
}

// The name picks the kind of key, a type parameter, which takes an arm for each.
fn serve_set(rt: &HostRuntime, folder: &str, set: &str, limit: usize) -> anyhow::Result<()> {
    let lists = read_lists(rt, folder, set)?;
    if set.starts_with("w64") {
        let keys = long_numbers_of(rt.alloc(), &lists.keys)?;
        let bench = AnyBench::Bits64(Bench::new(&lists, &keys, limit)?);
        Server { rt, bench }.serve()
    } else {
        let keys = numbers_of(rt.alloc(), &lists.keys)?;
        let bench = AnyBench::Bits32(Bench::new(&lists, &keys, limit)?);
        Server { rt, bench }.serve()
    }
}

fn run(rt: &HostRuntime) -> anyhow::Result<()> {
    let mut words = std::env::args(rt)?.skip(1);
    let folder = words.next().context("no folder")?;
    let set = words.next().context("no set")?;
    let limit = match words.next() {
        Some(word) => word.parse::<usize>()?,
        None => usize::MAX,
    };
    serve_set(rt, &folder, &set, limit)
}

fn main(rt: HostRuntime) -> anyhow::Result<()> {
    run(&rt)
}
