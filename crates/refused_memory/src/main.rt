//! `growths CALL SETTING..` makes one call that takes memory and looks at its answer. It prints `answered` where no growth
//! was refused, and `refused` where one was and the call told it, left what it should and then, made again, answered right.
//!
//! `.ci/refused-memory` runs it once for each growth of a call, under a library that refuses that one growth. The calls are `new`,
//! `build`, `clone`, `levels` and `levels-clone` (of the automaton of many patterns), `text`, `bytes`, `text-with`, `bytes-with`
//! (replacement in memory), `chunks`, `stream`, `stream-with` and `remapper`. The settings of a build are `first` or `longest`
//! (Standard without either), `-i`, `sparse` (no dense rows) and `bare` (no prefilter), in any order.
//!
//! Other calls grow nothing: `searches` (also iteration, steps, and what an automaton tells), `lends`, `advances`, `finds` and
//! `replaces` (of streams that have begun), `states`, `buffers` and `renumbers`. They are made twice, and between the two a byte of the
//! standard input is read, from where on the library refuses every growth. It prints `answered` where all answers were the same.
//! With the further setting `rows` the automaton is the one with rows.
//!
//! The status is 0, or 1 with a line that says what was not as promised.
#![tactic(auto)]

mod answers;
mod builds;
mod chains;
mod levels;
mod reading;
mod replacing;
mod searching;
mod streams;
mod wants;
mod without;

use std::alloc::Global;
use std::io::{ErrorKind, Read};
use std::process::ExitCode;
use std::{env, io};
use wants::{Want, Wrong};
use without::Calls;

fn main(rt: HostRuntime) -> ExitCode {
    let mut want = Want::new();
    let line = match words(&rt, &mut want) {
        Ok(words) => match call(rt.alloc(), words.as_slice(), &mut rt.stdin(), &mut want) {
            Ok(()) => want.told(),
            Err(wrong) => return failed(&rt, wrong),
        },
        Err(wrong) => return failed(&rt, wrong),
    };
    match println!(rt; "{line}") {
        Ok(()) => ExitCode::SUCCESS,
        Err(_) => ExitCode::FAILURE,
    }
}

/// Tells what was not as promised.
fn failed(rt: &HostRuntime, wrong: Wrong) -> ExitCode {
    let _told = println!(rt; "{wrong}");
    ExitCode::FAILURE
}

/// The words after the program's name, which are read again where memory was wanted.
fn words(rt: &HostRuntime, want: &mut Want) -> Result<Vec<String>, Wrong> {
    match read_words(rt) {
        Ok(words) => Ok(words),
        Err(error) => {
            if error.kind() != ErrorKind::OutOfMemory {
                return Err("words that are not UTF-8");
            }
            want.meet()?;
            read_words(rt).map_err(|_error| "the words could not be read again")
        }
    }
}

/// `collect` goes on where its first growth is refused, so the words are put one after another.
fn read_words(rt: &HostRuntime) -> io::Result<Vec<String>> {
    let mut words = Vec::new(rt.alloc());
    for word in env::args(rt)?.skip(1) {
        words.push(word)?;
    }
    Ok(words)
}

/// Makes the call that the first word names, with the settings that the others name.
fn call<R: Read>(
    alloc: Global,
    words: &[String],
    input: &mut R,
    want: &mut Want,
) -> Result<(), Wrong> {
    let Some((name, settings)) = words.split_first() else {
        return Err("no call is named");
    };
    let builder = builds::builder_of(settings)?;
    match name.as_str() {
        "new" => builds::new(alloc, want),
        "build" => builds::build(alloc, &builder, want),
        "clone" => builds::clone(alloc, &builder, want),
        "levels" => levels::build(alloc, settings, want),
        "levels-clone" => levels::clone(alloc, settings, want),
        "text" => replacing::text(alloc, want),
        "bytes" => replacing::bytes(alloc, want),
        "text-with" => replacing::text_with(alloc, want),
        "bytes-with" => replacing::bytes_with(alloc, want),
        "chunks" => streams::chunks(alloc, want),
        "stream" => streams::replace(alloc, want),
        "stream-with" => streams::replace_with(alloc, want),
        "remapper" => chains::remapper(alloc, want),
        "states" => without::read_out(alloc, &builder, input, want),
        "buffers" => reading::buffers(alloc, input),
        "renumbers" => chains::renumbers(alloc, input),
        name => match calls_named(name) {
            Some(calls) => {
                let with_rows = settings.iter().any(|setting| setting.as_str() == "rows");
                without::make(alloc, calls, &builder, with_rows, input, want)
            }
            None => Err("no such call"),
        },
    }
}

/// The calls of an automaton, or of streams over one, that have this name.
fn calls_named(name: &str) -> Option<Calls> {
    match name {
        "searches" => Some(Calls::Searches),
        "lends" => Some(Calls::Lends),
        "advances" => Some(Calls::Advances),
        "finds" => Some(Calls::Finds),
        "replaces" => Some(Calls::Replaces),
        _ => None,
    }
}
