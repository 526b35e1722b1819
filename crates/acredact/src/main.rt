//! `acredact [-i] [--kind KIND] (-e PATTERN | -f FILE | -t TABLE | --env NAME | --env-file FILE | --whole FILE | --rules FILE | --after KEYWORD).. [--max-line SIZE] [--with TEXT | --pseudonym KEYFILE] [--output FILE | --in-place] [--count] [--summary] [--check] [FILE]..` writes each FILE with a
//! text in the place of each match of some patterns: `[redacted]`, TEXT, the pattern's own of a TABLE, or a pseudonym by the key of
//! KEYFILE. No FILE, or `-`, is standard
//! input.
//!
//! The status is 0 where all was redacted, or, by a check, where nothing would be; and 1 where a check finds something. It is 2 where
//! the arguments or the patterns are wrong, memory runs out, or a file cannot be read or the output not be written. Then a line on
//! standard error says why.
#![tactic(auto)]

mod apart;
mod arguments;
mod beside;
mod check;
mod clean;
mod counts;
mod destination;
mod doubts;
mod environment;
mod failure;
mod files;
mod folder;
mod forms;
mod held;
mod help;
mod hmac;
mod in_place;
mod into;
mod left;
mod legend;
mod line_rules;
mod line_size;
mod load;
mod long;
mod look;
mod looker;
mod meter;
mod mistakes;
mod named;
mod options;
mod outputs;
mod overwriting;
mod own_lists;
mod parts;
mod patterns;
mod prepare;
mod pseudonym;
mod redact;
mod rule;
mod ruled;
mod ruled_check;
mod ruled_files;
mod ruled_load;
mod run;
mod run_counts;
mod run_pieces;
mod secrets;
mod seen;
mod short;
mod shown;
mod streams;
mod summary;
mod sums;
mod teller;
mod values;
mod ways;

ghost use Rattle.std.specs.Prelude.{◌≡◌, ◌≤◌, IfErr, IfOk, false, true};
ghost use Rattle.std.specs.Process.{exit_status};
ghost use Rattle.tool_parts.specs.Telling.{TellsSome};
ghost use Rattle.acredact.specs.Apart.{tells_nothing};
ghost use Rattle.acredact.specs.Arguments.{AreMistaken, IfAsked, IfChecking, IfNoCheck, IfRuled, IfRulesCheck, IsCheck, RefusesUnclean};
ghost use Rattle.acredact.specs.Calls.{BeginsAsked, IsRefusedLine, LeavesNoneAsked, RedactsAsked};
ghost use Rattle.acredact.specs.Checks.{MatchedAsked, UnmatchedAsked};
ghost use Rattle.acredact.specs.Ruled.{RuledAsked, RuledBegins};
ghost use Rattle.acredact.specs.RuledChecks.{RuledFound, RuledClean};

use apart::{Apart, Told, arguments as text_arguments, status_behind, tell_apart};
use arguments::items;
use beside::{Beside, Notice};
use chromesquid::{FromRead, FromWrite, Sink};
use destination::{Destination, read_destination};
use failure::Failure::{Arguments, Unread};
use failure::{FAILED, refuse, report, tell_complete, tell_narrowed, tell_own_list};
use folder::{Folder, Host};
use in_place::replace_in_place;
use into::make_and_run;
use options::rights_of;
use outputs::Outputs;
use own_lists::own_list;
use run::run;
use std::alloc::Global;
use std::cell::Cell;
use std::io::{BufWriter, Read, Write};
use std::process;
use std::process::ExitCode;
use streams::Streams;
use tool_parts::closed::{Noted, Quiet};
use tool_parts::errors::Errors;
use tool_parts::failure::Failure;
use tool_parts::patient::Patient;
use tool_parts::unopened::{DEVICE, fill_closed};

/// How many bytes of output are kept before they are written.
const OUTPUT_CAPACITY: usize = 64 * 1024;

fn main(rt: HostRuntime) -> ExitCode {
    let filled = fill_closed(&rt, &rt.stdin(), &rt.stdout(), &rt.stderr());
    let given = text_arguments(&rt);
    let reason = Cell::new(None);
    let looked = Cell::new(None);
    let mut errors = Errors::new(
        FromWrite::new(Quiet::new(Patient::new(rt.stderr(), &rt), &reason)),
        &reason,
    );
    if let Err(reason) = filled {
        return ExitCode::from(report(&Unread(DEVICE, reason), &mut errors));
    }
    let mut told = Told::Nothing;
    if let Ok(apart) = &given {
        match tell_apart(rt.alloc(), apart, &mut errors) {
            Ok(Told::EachAlone) => return ExitCode::from(FAILED),
            Ok(found) => told = found,
            Err(failure) => return ExitCode::from(report(&failure, &mut errors)),
        }
        let arguments = apart.arguments.as_slice();
        let number = process::id(rt.process());
        let destination = match read_destination(rt.alloc(), arguments) {
            Ok(destination) => destination,
            Err(failure) => return ExitCode::from(report(&failure, &mut errors)),
        };
        let given = match items(rt.alloc(), arguments) {
            Ok(given) => given,
            Err(mistake) => {
                return ExitCode::from(report(&Arguments(mistake), &mut errors));
            }
        };
        let given = given.as_slice();
        if let Some(name) = own_list(&rt, given) {
            tell_own_list(&mut errors, name);
            return ExitCode::from(FAILED);
        }
        let rights = rights_of(given);
        let mut outputs = Beside::new(rt.alloc(), &rt, number, rights, &reason, &looked);
        let named = match destination {
            Destination::NewFile(name) => Some(name),
            _ => None,
        };
        if !matches!(destination, Destination::StandardOutput) {
            let folder = Host::new(&rt, &looked, named);
            let mut streams = Streams {
                input: FromRead::new(Patient::new(rt.stdin(), &rt)),
                output: FromWrite::new(outputs.idle()),
                errors,
            };
            let alloc = rt.alloc();
            let status = match named {
                Some(name) => make_and_run(
                    alloc,
                    arguments,
                    name,
                    &folder,
                    &mut outputs,
                    &mut streams,
                ),
                None => { replace_in_place(alloc, arguments, &folder, &mut outputs, &mut streams) }
            };
            tell_notices(&mut streams.errors, outputs.notices());
            return ExitCode::from(status_behind(told, status));
        }
    }
    let noted = Noted::new(Patient::new(rt.stdout(), &rt), &reason);
    match BufWriter::with_capacity(rt.alloc(), OUTPUT_CAPACITY, noted) {
        Ok(output) => {
            let mut streams = Streams {
                input: FromRead::new(Patient::new(rt.stdin(), &rt)),
                output: FromWrite::new(output),
                errors,
            };
            exit_code(
                rt.alloc(),
                given,
                told,
                &Host::new(&rt, &looked, None),
                &mut streams,
            )
        }
        Err(_) => ExitCode::from(refuse(Failure::OutOfMemory, &mut errors)),
    }
}

/// Tells what has to be told of new files.
fn tell_notices<E: Sink>(errors: &mut Errors<'_, E>, notices: &[Notice]) {
    for notice in notices {
        match notice {
            Notice::Narrowed(name) => tell_narrowed(errors, name.as_str()),
            Notice::Complete(name) => tell_complete(errors, name.as_str()),
        }
    }
}

/// Runs on the arguments, or tells why there are none, and ends with the status: with 2, where a file was told whose name is not UTF-8.
fn exit_code<F: Folder, I: Read, W: Write, E: Sink>(
    alloc: Global,
    given: Result<Apart, Failure>,
    told: Told,
    folder: &F,
    streams: &mut Streams<'_, I, W, E>,
) -> ExitCode
    ensures faulty { IfErr given (λ _. exit_status result ≡ 2) }
    ensures refused { IfErr given (λ failure. TellsSome E.Sink (IsRefusedLine failure)
        streams.old.errors streams.new.errors) }
    ensures wrong { IfOk given (λ apart.
        AreMistaken apart.arguments.items → exit_status result ≡ 2) }
    ensures redacts { IfOk given (λ apart. IfAsked apart.arguments.items (λ given.
        exit_status result ≡ 0 → RedactsAsked W.Write F.Folder folder.now given streams.old streams.new)) }
    ensures strict { IfOk given (λ apart. IfAsked apart.arguments.items (λ given.
        RefusesUnclean given → exit_status result ≡ 0
        → LeavesNoneAsked W.Write F.Folder folder.now given streams.old streams.new)) }
    ensures begins { IfOk given (λ apart. IfAsked apart.arguments.items (λ all.
        BeginsAsked W.Write F.Folder folder.now all streams.old streams.new)) }
    ensures ruled { IfOk given (λ apart. IfRuled apart.arguments.items (λ given.
        exit_status result ≡ 0 → RuledAsked W.Write F.Folder folder.now given streams.old streams.new)) }
    ensures ruled_begins { IfOk given (λ apart. IfRuled apart.arguments.items (λ all.
        RuledBegins W.Write F.Folder folder.now all streams.old streams.new)) }
    ensures unmatched { IfOk given (λ apart. IfChecking apart.arguments.items (λ given.
        exit_status result ≡ 0 → UnmatchedAsked F.Folder folder.now given streams.old streams.new)) }
    ensures matched { IfOk given (λ apart. IfChecking apart.arguments.items (λ given.
        exit_status result ≡ 1 → MatchedAsked F.Folder folder.now given streams.old streams.new)) }
    ensures rules_unmatched { IfOk given (λ apart. IfRulesCheck apart.arguments.items (λ given.
        exit_status result ≡ 0 → RuledClean F.Folder folder.now given streams.old streams.new W.Write)) }
    ensures rules_matched { IfOk given (λ apart. IfRulesCheck apart.arguments.items (λ given.
        exit_status result ≡ 1 → RuledFound F.Folder folder.now given streams.old streams.new W.Write)) }
    ensures flushed { IfOk given (λ it. IfNoCheck it.arguments.items (exit_status result ≡ 0
        → streams.new.output.device.flushed ≡ true)) }
    ensures bound { exit_status result ≤ 2 }
    ensures told { tells_nothing told ≡ false → IfOk given (λ _. exit_status result ≡ 2) }
    ensures one { exit_status result ≡ 1 → IfOk given (λ apart. IsCheck apart.arguments.items) }
{
    match given {
        Ok(apart) => {
            let status = run(alloc, apart.arguments.as_slice(), folder, streams);
            ExitCode::from(status_behind(told, status))
        }
        Err(failure) => ExitCode::from(refuse(failure, &mut streams.errors)),
    }
}
