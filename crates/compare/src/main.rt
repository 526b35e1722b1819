//! `compare SEED ROUNDS [NAME..]` makes random calls of the whole interface, and compares each with a plain program that computes
//! the definitions. Each round has patterns and texts of its own, which its seed tells: the first round has SEED, and each
//! later one the next number. It has words of random letters, and of three families that are hostile to a search: powers of a letter,
//! powers of a word, and Fibonacci words.
//!
//! A NAME is a part of the calls, and without one all but the last are made. `memory`: searches, lists and replacements in memory by each
//! automaton, compared with the plain program. `streams`: streams whose devices cut, end and fail, compared with the same
//! search in memory. `searcher`: the calls of the one crate. `fixed`: every text of up to six letters over two
//! letters, each prefilter at every length of a span up to 200, and some patterns and texts more, which are the same in each run. The last line says how many calls were compared. Where one differs, the last lines tell the call, its seed, the patterns and the text, and the status is 1.
#![tactic(auto)]

mod automata;
mod backward;
mod candidates;
mod case;
mod count;
mod covers;
mod filters;
mod fixed;
mod hostile;
mod memory;
mod parts;
mod pieces;
mod round;
mod searchers;
mod short;
mod streams;
mod turns;

use anyhow::{Context, Result, bail};
use case::Case;
use count::Count;
use filters::compare_filters;
use fixed::compare_fixed;
use hostile::{FAMILIES, Family};
use parts::{Parts, parts_of};
use round::compare;
use short::compare_short;
use std::alloc::Global;
use std::env;
use std::process::ExitCode;

fn main(rt: HostRuntime) -> Result<ExitCode> {
    let mut words = Vec::new(rt.alloc());
    for word in env::args(&rt)?.skip(1) {
        words.push(word)?;
    }
    let [seed, rounds, names @ ..] = words.as_slice() else {
        bail!("usage: compare SEED ROUNDS [memory|streams|searcher|fixed]..");
    };
    let seed = seed.as_str().parse::<u64>().context("reading SEED")?;
    let rounds = rounds.as_str().parse::<u64>().context("reading ROUNDS")?;
    rounds_from(&rt, seed, rounds, parts_of(names)?)
}

/// Compares the calls of so many rounds, up to the first that differs.
fn rounds_from(rt: &HostRuntime, seed: u64, rounds: u64, parts: Parts) -> Result<ExitCode> {
    let mut count = Count::new();
    if parts.fixed
        && let Err(error) = same_in_each_run(rt.alloc(), parts, &mut count)
    {
        println!(rt; "{error:#}")?;
        return Ok(ExitCode::FAILURE);
    }
    for round in 0..rounds {
        let seed = seed.wrapping_add(round);
        for family in FAMILIES {
            if let Err(error) = compare(rt.alloc(), seed, family, parts, &mut count) {
                println!(rt; "{error:#}\nseed {seed}, {family:?} words")?;
                tell(rt, seed, family)?;
                return Ok(ExitCode::FAILURE);
            }
        }
    }
    println!(rt; "{} calls compared", count.calls())?;
    Ok(ExitCode::SUCCESS)
}

/// Compares what is the same in each run.
fn same_in_each_run(alloc: Global, parts: Parts, count: &mut Count) -> Result<()> {
    compare_short(alloc, count)?;
    compare_filters(alloc, count)?;
    compare_fixed(alloc, parts.all(), count)
}

/// Tells what the patterns and the text of a case are.
fn tell(rt: &HostRuntime, seed: u64, family: Family) -> Result<()> {
    let case = Case::new(rt.alloc(), seed, family)?;
    for pattern in case.patterns() {
        println!(rt; "pattern {}", case::shown(rt.alloc(), pattern)?)?;
    }
    println!(rt; "text {}", case::shown(rt.alloc(), case.text())?)?;
    println!(rt; "{:?}, case rule {}", case.kind(), case.ignore_case())?;
    Ok(())
}
