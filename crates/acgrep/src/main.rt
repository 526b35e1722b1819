//! `acgrep [OPTIONS] [PATTERN] [FILE..]` writes the lines of files in which a pattern occurs, as `grep -F` does.
//!
//! The status is 0 where a line is selected, 1 where none is, and 2 where an error occurs, which a line on standard error
//! tells.
#![tactic(auto)]

mod actions;
mod all_options;
mod alone;
mod arguments;
mod below;
mod beside;
mod buffer;
mod bytes;
mod chosen;
mod colors;
mod context;
mod counted;
mod excluded;
mod failure;
mod fields;
mod files;
mod folders;
mod format;
mod globs;
mod guarded;
mod held;
mod help;
mod job;
mod json;
mod keys;
mod lines;
mod long;
mod marked;
mod marked_files;
mod marked_lines;
mod marking;
mod matches;
mod noting;
mod open;
mod opening;
mod options;
mod patterns;
mod print;
mod rule_lists;
mod ruled;
mod rules;
mod run;
mod select;
mod stream;
mod tally;
mod tell;
mod trail;
mod unread;
mod walk;
mod whole;
mod wrong;

use bytes::{arguments, variable};
use chromesquid::FromWrite;
use colors::Screen;
use failure::Obstacle;
use open::System;
use run::{refuse, run};
use std::cell::Cell;
use std::env;
use std::io::{BufWriter, IsTerminal};
use std::process::ExitCode;
use tell::tell_file;
use tool_parts::closed::{Noted, Quiet};
use tool_parts::errors::Errors;
use tool_parts::patient::Patient;
use tool_parts::reason::Reason;
use tool_parts::unopened::{DEVICE, fill_closed};

/// How many bytes of output are kept before they are written.
const OUTPUT_CAPACITY: usize = 64 * 1024;

/// The status where nobody reads the output any more.
const UNREAD: u8 = 141;

fn main(rt: HostRuntime) -> ExitCode {
    let filled = fill_closed(&rt, &rt.stdin(), &rt.stdout(), &rt.stderr());
    let reason = Cell::new(None);
    let mut errors = Errors::new(
        FromWrite::new(Quiet::new(Patient::new(rt.stderr(), &rt), &reason)),
        &reason,
    );
    if let Err(reason) = filled {
        tell_file(DEVICE.as_bytes(), Obstacle::Fault(reason), &mut errors);
        return ExitCode::from(2);
    }
    let Ok(given) = arguments(&rt) else {
        return ExitCode::from(refuse(&mut errors));
    };
    let Ok(colors) = variable(&rt, "GREP_COLORS") else {
        return ExitCode::from(refuse(&mut errors));
    };
    let screen = Screen {
        colored: rt.stdout().is_terminal() && has_colors(&rt),
        terminal: rt.stdout().is_terminal(),
        colors: colors.as_slice(),
    };
    let noted = Noted::new(Patient::new(rt.stdout(), &rt), &reason);
    let Ok(output) = BufWriter::with_capacity(rt.alloc(), OUTPUT_CAPACITY, noted) else {
        return ExitCode::from(refuse(&mut errors));
    };
    let status = run(
        rt.alloc(),
        given.as_slice(),
        &screen,
        &System::new(&rt, &mut rt.stdin()),
        &mut Patient::new(rt.stdin(), &rt),
        &mut FromWrite::new(output),
        &mut errors,
    );
    ExitCode::from(status_at_end(status, reason.get()))
}

/// The status of the process: where nobody reads the output any more, that which a shell tells of a program that is ended by the signal
/// for it, as grep is.
fn status_at_end(status: u8, reason: Option<Reason>) -> u8 {
    match reason {
        Some(Reason::Closed) => UNREAD,
        _ => status,
    }
}

/// Whether the terminal has colours: it has a name, and is not called dumb, and `NO_COLOR` is not set or is empty.
fn has_colors(rt: &HostRuntime) -> bool {
    if env::var(rt, "NO_COLOR").is_ok_and(|value| !value.is_empty()) {
        return false;
    }
    match env::var(rt, "TERM") {
        Ok(name) => name.as_str() != "dumb",
        Err(_) => false,
    }
}
