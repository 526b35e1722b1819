//! `speeds AUTOMATON KIND CASE PREFILTER DEPTH TIMES PATTERNS TEXT` builds an automaton of the lines of one file that are not
//! empty, searches another file so many times, and prints a line: the seconds of the build, the least seconds of a search, how
//! many matches there are, a sum over their places, and the automaton's size in bytes. The seconds are those of the processor.
//!
//! AUTOMATON is `n` for the `NFA` and `h` for the `Hybrid`, which is made of it. KIND is `s`, `f` or `l` (Standard,
//! leftmost-first, leftmost-longest), CASE is 0 or 1, PREFILTER is 0, 1, or `q` for the quickest one, and DEPTH is the
//! greatest depth of a dense state. `bin/speeds` makes the works, runs this on each, and prints a table.
#![tactic(auto)]

mod automata;
mod call;
mod searches;
mod trial;

use anyhow::{Context, Result};
use call::{Call, call_of};
use searches::{Report, report_of};
use std::{env, fs};

fn main(rt: HostRuntime) -> Result<()> {
    let mut words = Vec::new(rt.alloc());
    for word in env::args(&rt)?.skip(1) {
        words.push(word)?;
    }
    match call_of(words.as_slice())? {
        Some(call) => {
            let report = measured(&rt, &call)?;
            print(&rt, &report)
        }
        None => {
            println!(rt; "usage: speeds AUTOMATON KIND CASE PREFILTER DEPTH TIMES PATTERNS TEXT")?;
            Ok(())
        }
    }
}

/// Reads the two files of a call, and measures what it asks for.
fn measured(rt: &HostRuntime, call: &Call<'_>) -> Result<Report> {
    let patterns = fs::read(rt, call.patterns).context("reading PATTERNS")?;
    let text = fs::read(rt, call.text).context("reading TEXT")?;
    report_of(
        rt,
        rt.alloc(),
        call.trial,
        call.depth,
        call.times,
        &patterns,
        &text,
    )
}

/// Prints a report, in one line.
fn print(rt: &HostRuntime, report: &Report) -> Result<()> {
    println!(rt;
        "{:.9} {:.9} {} {} {}",
        report.built.as_secs_f64(),
        report.least.as_secs_f64(),
        report.seen.matches,
        report.seen.sum,
        report.memory
    )?;
    Ok(())
}
