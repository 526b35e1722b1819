//! Which options do not go with rules.

ghost use Rattle.std.specs.Prelude.{◌≡◌, option_map};
ghost use Rattle.tool_parts.specs.Telling.{TellsBytes};
ghost use Rattle.acgrep.specs.Arguments.{said};
ghost use Rattle.acgrep.specs.Beside.{line_beside, name_beside_rules, output_beside, pattern_beside, unfit_line, unfit_said};

use crate::arguments::{Given, Source};
use crate::options::{Color, Flags};
use crate::tell::PROGRAM;
use chromesquid::{MatchKind, Sink};
use tool_parts::errors::Errors;

/// How standard input is called, where nothing else is said.
const LABEL: &[u8] = b"(standard input)";

/// What stands between lines that do not follow one another, where nothing else is said.
const SEPARATOR: &[u8] = b"--";

/// What does not go with what.
#[derive(Clone, Copy)]
pub enum Unfit {
    /// The option of this name does not go with rules.
    Beside(&'static [u8]),
    /// `--max-line` is given, and there are no rules.
    Alone,
}

/// What does not go together, if something does not. An option that says what is done without it too goes with all.
pub fn unfit_of(given: &Given<'_>) -> Option<Unfit>
    ensures unfit { option_map unfit_line result ≡ unfit_said (said given.now) }
{
    if !given.flags.by_rules {
        return if given.flags.longest.is_some() {
            Some(Unfit::Alone)
        } else {
            None
        };
    }
    match name_of(given) {
        Some(name) => Some(Unfit::Beside(name)),
        None => None,
    }
}

/// The name of the first option, in the order of the help, that does not go with rules, if there is one.
fn name_of(given: &Given<'_>) -> Option<&'static [u8]>
    ensures name { option_map (λ name. name.now) result ≡ name_beside_rules (said given.now) }
{
    match given.sources.first() {
        Some(Source::Text(_)) => return Some(b"-e"),
        Some(Source::File(_)) => return Some(b"-f"),
        None => {}
    }
    if let Some(name) = pattern_option(&given.flags) {
        return Some(name);
    }
    if let Some(name) = output_option(given) {
        return Some(name);
    }
    line_option(given)
}

/// One that says how patterns are searched for.
fn pattern_option(flags: &Flags) -> Option<&'static [u8]>
    ensures name { option_map (λ name. name.now) result ≡ pattern_beside flags.now }
{
    if flags.ignore_case {
        return Some(b"-i");
    }
    if flags.invert {
        return Some(b"-v");
    }
    if flags.word {
        return Some(b"-w");
    }
    if flags.whole {
        return Some(b"-x");
    }
    match flags.kind {
        MatchKind::LeftmostLongest => None,
        _ => Some(b"--kind"),
    }
}

/// One that says what is written of lines, files or matches.
fn output_option(given: &Given<'_>) -> Option<&'static [u8]>
    ensures name { option_map (λ name. name.now) result ≡ output_beside (said given.now) }
{
    let flags = &given.flags;
    if flags.most.is_some() {
        return Some(b"-m");
    }
    if flags.lacking {
        return Some(b"-L");
    }
    if flags.formatted {
        return Some(b"--format");
    }
    if flags.tallied {
        return Some(b"--counts");
    }
    if flags.offset {
        return Some(b"-b");
    }
    if flags.first != 0 {
        return Some(b"--offset");
    }
    if flags.first_line != 1 {
        return Some(b"--first-line");
    }
    if given.label != LABEL {
        return Some(b"--label");
    }
    None
}

/// One that says how lines are written and which, or where they end.
fn line_option(given: &Given<'_>) -> Option<&'static [u8]>
    ensures name { option_map (λ name. name.now) result ≡ line_beside (said given.now) }
{
    let flags = &given.flags;
    if flags.null {
        return Some(b"-Z");
    }
    if flags.null_data {
        return Some(b"-z");
    }
    if flags.tab {
        return Some(b"-T");
    }
    if flags.after.is_some() {
        return Some(b"-A");
    }
    if flags.before.is_some() {
        return Some(b"-B");
    }
    if flags.context.is_some() {
        return Some(b"-C");
    }
    if flags.joined {
        return Some(b"--no-group-separator");
    }
    if given.separator != SEPARATOR {
        return Some(b"--group-separator");
    }
    match flags.color {
        Color::Auto | Color::Always => return Some(b"--color"),
        Color::Never => {}
    }
    if flags.text {
        return Some(b"-a");
    }
    if flags.text_alone {
        return Some(b"-I");
    }
    None
}

/// Tells what does not go together.
pub fn tell_unfit<E: Sink>(errors: &mut Errors<'_, E>, unfit: Unfit)
    ensures told { TellsBytes E.Sink errors.old errors.new (unfit_line unfit) }
{
    match unfit {
        Unfit::Beside(name) => {
            errors.write(&[
                PROGRAM,
                b": option '",
                name,
                b"' does not go with --rules\n",
            ]);
        }
        Unfit::Alone => errors.write(&[
            PROGRAM,
            b": option '--max-line' needs --rules: without them no line is kept\n",
        ]),
    }
}
