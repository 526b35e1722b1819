//! Why a call ends early, and how that is told.

ghost use Rattle.std.specs.Prelude.{◌≡◌, ◌≤◌, ◌++◌, ℕ, List, decimal};
ghost use Rattle.tool_parts.specs.Messages.{reason_text};
ghost use Rattle.tool_parts.specs.Telling.{TellsBytes, TellsSome};
ghost use Rattle.acredact.specs.Calls.{IsRefusedLine};
ghost use Rattle.acredact.specs.Failures.{EndsCall, IsFailureLine, IsOtherLine, bad_line, is_of_output, short_line};
ghost use Rattle.acredact.specs.LineFaults.{line_fault_text};
ghost use Rattle.acredact.specs.Messages.{alone, complete_line, line_about, narrowed_line, no_file_line, no_output_line, numbered_line, output_line, own_list_line, told_line, unclean_line};
ghost use Rattle.acredact.specs.Mistakes.{mistake_line, misuse_line, mixture_text, named_line};

use crate::clean::{Flaw, Unclean};
use crate::mistakes::{Mistake, Mixture, name_of};
use crate::patterns::{BadLine, LineFault};
use chromesquid::{BuildError, Sink, StreamError};
use rule_files::{MAX_DIGITS, TextFault, digits_of, is_plain, tell_fault, tell_shown, write_shown};
use std::alloc::AllocError;
use tool_parts::errors::Errors;
use tool_parts::failure;
use tool_parts::options::misuse::Misuse;
use tool_parts::reason::Reason;

/// The exit status where not all was done.
pub const FAILED: u8 = 2;

/// The name that stands before each message.
pub const PROGRAM: &[u8] = b"acredact";

/// What is told of an empty list.
const NO_PATTERN: &str = "no pattern: give --allow-empty to allow it";

/// What is told of a variable without a value.
const NO_VALUE: &str = "no value: give --allow-empty to pass it over";

/// What is told of a new file that did not get all permissions of its group.
const NARROWED: &str =
    "warning: group permissions removed: --keep-mode keeps them, --overwrite keeps every right";

/// What is told of a pattern that holds a line end, behind its number.
const LINE_END: &[u8] = b" holds a line end: it stands in no line, and rules go line by line\n";

/// What is told of a value that stands for a name. It is not told itself.
const VALUE_FOR_NAME: &str = "option '--env' takes the name of a variable, and this is a value";

/// Why a call ends early.
#[derive(Drop)]
pub enum Failure<'a> {
    /// Some argument is not UTF-8.
    NotText,
    /// The arguments are wrong.
    Arguments(Mistake<'a>),
    /// A pattern of `-e` is no rule.
    Pattern(LineFault),
    /// A file of patterns or a table cannot be read, for this reason.
    Unread(&'a str, Reason),
    /// A file of patterns or a table is empty.
    Empty(&'a str),
    /// A variable has no value, or none that is not empty, or a file holds no such one.
    NoValue(&'a str),
    /// A value of a variable stands where its name should.
    ValueForName,
    /// The file of a key has too few bytes.
    ShortKey(&'a str),
    /// A line of a file of patterns or of a table is wrong.
    Line(&'a str, BadLine),
    /// The pattern of this number, from 1 on, is too short for forms.
    Short(usize),
    /// The piece of a pattern is not clean.
    Unclean(Unclean),
    /// The counts cannot be written to standard error.
    Counts,
    /// A file of this name gives no rules, or a rule of it or of this option is none.
    Text(&'a str, TextFault),
    /// No searcher can be built for the keywords of rules.
    Keywords(BuildError),
    /// The pattern of this number, from 1 on, holds a line end, and stands in no line of a call with rules.
    LineEnd(usize),
    /// The patterns are refused, memory runs out, or output cannot be written.
    Other(failure::Failure),
}

impl<'a> From<Mistake<'a>> for Failure<'a> {
    ghost use Rattle.acredact.specs.declared.failure.Failure.TheVariants.{Arguments};

    ghost from_gives = { λ mistake failure. failure ≡ Arguments mistake };

    fn from(mistake: Mistake<'a>) -> Failure<'a> {
        Failure::Arguments(mistake)
    }
}

impl From<AllocError> for Failure<'_> {
    ghost use Rattle.acredact.specs.declared.failure.Failure.TheVariants.{Other};
    ghost use Rattle.tool_parts.specs.declared.failure.Failure.TheVariants.{OutOfMemory};

    ghost from_gives = { λ _ failure. failure ≡ Other OutOfMemory };

    fn from(_error: AllocError) -> Self {
        Failure::Other(failure::Failure::OutOfMemory)
    }
}

impl From<BuildError> for Failure<'_> {
    ghost use Rattle.acredact.specs.declared.failure.Failure.TheVariants.{Other};
    ghost use Rattle.tool_parts.specs.declared.failure.Failure.TheVariants.{Build};

    ghost from_gives = { λ error failure. failure ≡ Other (Build error) };

    fn from(error: BuildError) -> Self {
        Failure::Other(failure::Failure::Build(error))
    }
}

impl From<StreamError> for Failure<'_> {
    ghost use Rattle.acredact.specs.declared.failure.Failure.TheVariants.{Other};
    ghost use Rattle.tool_parts.specs.Failures.{failure_of_stream};

    ghost from_gives = { λ error failure. failure ≡ Other (failure_of_stream error) };

    fn from(error: StreamError) -> Self {
        Failure::Other(failure::Failure::from(error))
    }
}

/// Tells as a line why a file is not read to its end.
pub fn tell_unread<E: Sink>(errors: &mut Errors<'_, E>, name: &str, reason: Reason)
    ensures told { TellsBytes E.Sink errors.old errors.new (line_about name.now (reason_text reason)) }
{
    tell_about(errors, name, reason.text())
}

/// Tells as a line that the output goes to a file that is to be read.
pub fn tell_output<E: Sink>(errors: &mut Errors<'_, E>, name: &str)
    ensures told { TellsBytes E.Sink errors.old errors.new (output_line name.now) }
{
    tell_about(errors, name, "input file is also the output");
}

/// Tells as a line that standard input is no file that can be replaced.
pub fn tell_no_file<E: Sink>(errors: &mut Errors<'_, E>, name: &str)
    ensures told { TellsBytes E.Sink errors.old errors.new (no_file_line name.now) }
{
    tell_about(errors, name, "standard input cannot be replaced");
}

/// Tells as a line that standard output is no file that can be replaced.
pub fn tell_no_output<E: Sink>(errors: &mut Errors<'_, E>, name: &str)
    ensures told { TellsBytes E.Sink errors.old errors.new (no_output_line name.now) }
{
    tell_about(
        errors,
        name,
        "standard output is no file: leave out --output",
    );
}

/// Tells as a line that the output would replace a file of patterns, rules or a key.
pub fn tell_own_list<E: Sink>(errors: &mut Errors<'_, E>, name: &str)
    ensures told { TellsBytes E.Sink errors.old errors.new (own_list_line name.now) }
{
    tell_about(
        errors,
        name,
        "output file also gives patterns, rules or a key",
    );
}

/// Warns as a line that a new file did not get all permissions of its group.
pub fn tell_narrowed<E: Sink>(errors: &mut Errors<'_, E>, name: &str)
    ensures told { TellsBytes E.Sink errors.old errors.new (narrowed_line name.now) }
{
    tell_about(errors, name, NARROWED);
}

/// Tells as a line that this file is the complete redaction of one that was overwritten only in part.
pub fn tell_complete<E: Sink>(errors: &mut Errors<'_, E>, name: &str)
    ensures told { TellsBytes E.Sink errors.old errors.new (complete_line name.now) }
{
    tell_about(errors, name, "this file holds the complete output");
}

/// Tells as a line what is wrong with something, and why.
fn tell_about<E: Sink>(errors: &mut Errors<'_, E>, name: &str, cause: &str)
    ensures told { TellsBytes E.Sink errors.old errors.new (line_about name.now cause.now) }
{
    tell_shown(errors, PROGRAM, name.as_bytes(), None, cause.as_bytes());
}

/// Tells a cause as a line.
fn tell_alone<E: Sink>(errors: &mut Errors<'_, E>, cause: &str)
    ensures told { TellsBytes E.Sink errors.old errors.new (told_line (alone cause.now)) }
{
    errors.tell(PROGRAM, None, None, cause.as_bytes());
}

/// Tells as a line why a call ends early.
fn tell_failure<E: Sink>(errors: &mut Errors<'_, E>, failure: &Failure<'_>)
    ensures told { (line : List ℕ) × IsFailureLine failure.now line
        × TellsBytes E.Sink errors.old errors.new line }
{
    match failure {
        Failure::NotText => tell_alone(errors, "an argument is not UTF-8"),
        Failure::Arguments(mistake) => tell_mistake(errors, *mistake),
        Failure::Pattern(fault) => tell_about(errors, "-e", text_of(*fault)),
        Failure::Unread(name, reason) => tell_unread(errors, name, *reason),
        Failure::Empty(name) => tell_about(errors, name, NO_PATTERN),
        Failure::NoValue(name) => tell_about(errors, name, NO_VALUE),
        Failure::ValueForName => tell_alone(errors, VALUE_FOR_NAME),
        Failure::ShortKey(name) => tell_about(errors, name, "key of less than 16 bytes"),
        Failure::Line(name, line) => tell_line(errors, name, *line),
        Failure::Short(number) => tell_short(errors, *number),
        Failure::Unclean(unclean) => tell_unclean(errors, *unclean),
        Failure::Counts => tell_alone(errors, "the counts cannot be written"),
        Failure::Text(name, fault) => tell_fault(errors, PROGRAM, name.as_bytes(), fault),
        Failure::Keywords(error) => errors.tell_build(PROGRAM, Some(b"--rules"), None, error),
        Failure::LineEnd(number) => tell_numbered(errors, b": pattern ", *number, LINE_END),
        Failure::Other(other) => tell_other(errors, other),
    }
}

/// Tells as a line something of what has this number.
pub fn tell_numbered<E: Sink>(
    errors: &mut Errors<'_, E>,
    what: &'static [u8],
    number: usize,
    why: &'static [u8],
)
    ensures told { TellsBytes E.Sink errors.old errors.new (numbered_line what.now number why.now) }
{
    let mut room = [0; MAX_DIGITS];
    errors.write(&[PROGRAM, what, digits_of(number as u64, &mut room), why]);
}

/// Tells as such a line of another number, too.
pub fn tell_with_other<E: Sink>(
    errors: &mut Errors<'_, E>,
    what: &'static [u8],
    number: usize,
    between: &'static [u8],
    other: u64,
    why: &'static [u8],
)
    ensures told { TellsBytes E.Sink errors.old errors.new
        (numbered_line what.now number (between.now ++ (decimal other ++ why.now))) }
{
    let mut room = [0; MAX_DIGITS];
    let mut other_room = [0; MAX_DIGITS];
    let digits = digits_of(number as u64, &mut room);
    let other_digits = digits_of(other, &mut other_room);
    errors.write(&[PROGRAM, what, digits, between, other_digits, why]);
}

/// Tells as a line which pattern is too short for forms.
pub fn tell_short<E: Sink>(errors: &mut Errors<'_, E>, number: usize)
    ensures told { TellsBytes E.Sink errors.old errors.new (short_line number) }
{
    let why = b" has fewer than four bytes: its forms are not redacted\n";
    tell_numbered(errors, b": pattern ", number, why);
}

/// What stands in a message before the number of the pattern whose piece is not clean.
const UNCLEAN: &[u8] = b": the replacement of pattern ";

/// Tells as a line of which pattern the piece is not clean, and why.
pub fn tell_unclean<E: Sink>(errors: &mut Errors<'_, E>, unclean: Unclean)
    ensures told { TellsBytes E.Sink errors.old errors.new (unclean_line unclean) }
{
    let number = unclean.number;
    match unclean.flaw {
        Flaw::Empty => {
            let why = b" is empty: what stands beside it can spell a pattern\n";
            tell_numbered(errors, UNCLEAN, number, why);
        }
        Flaw::Spells(pattern) => {
            let why = b" with what stands beside it\n";
            tell_with_other(
                errors,
                UNCLEAN,
                number,
                b" can spell pattern ",
                pattern as u64,
                why,
            );
        }
        Flaw::Pseudonym => {
            let why = b" is a pseudonym: it can spell this pattern with what stands beside it\n";
            tell_numbered(errors, UNCLEAN, number, why);
        }
    }
}

/// Tells as a line what is wrong with the arguments.
fn tell_mistake<E: Sink>(errors: &mut Errors<'_, E>, mistake: Mistake<'_>)
    ensures told { TellsBytes E.Sink errors.old errors.new (mistake_line mistake.entry) }
{
    match mistake {
        Mistake::UnknownLetter(letter) => {
            let before = Misuse::UnknownLetter.before();
            tell_named(errors, before, &[letter], b"': --help lists all");
        }
        Mistake::NotFound(why, name) => tell_misuse(errors, Misuse::NotFound(why), name),
        Mistake::NoValue(word) => tell_misuse(errors, Misuse::NoArgument, name_of(word).as_bytes()),
        Mistake::TakesNone(name) => tell_misuse(errors, Misuse::TakesNone, name),
        Mistake::UnknownKind => tell_alone(
            errors,
            "option '--kind' takes cover, first, longest or standard",
        ),
        Mistake::UnknownForm => tell_alone(
            errors,
            "option '--forms' takes all, or some of base64,hex,url,json,xml,shell,lines, or two as json+base64",
        ),
        Mistake::BadName => tell_alone(
            errors,
            "option '--env' takes a name of letters, digits and '_', and at its end a star",
        ),
        Mistake::BadSize => tell_alone(
            errors,
            "option '--max-line' takes a number of bytes, from 1 on",
        ),
        Mistake::NoPattern => tell_alone(
            errors,
            "no pattern: give -e, -f, -t or --rules builtin, or --help",
        ),
        Mistake::Mixed(mixture) => tell_alone(errors, mixture_text(mixture)),
        Mistake::OutOfMemory => tell_alone(errors, "out of memory"),
    }
}

/// Tells as a line how an option is misused, by its letter, its long name or what it is called.
fn tell_misuse<E: Sink>(errors: &mut Errors<'_, E>, misuse: Misuse, name: &[u8])
    ensures told { TellsBytes E.Sink errors.old errors.new (misuse_line misuse name.now) }
{
    tell_named(errors, misuse.before(), name, misuse.behind());
}

/// Tells as a line what is wrong with something that was given.
fn tell_named<E: Sink>(errors: &mut Errors<'_, E>, before: &[u8], name: &[u8], behind: &[u8])
    ensures told { TellsBytes E.Sink errors.old errors.new (named_line before.now name.now behind.now) }
{
    if is_plain(name) {
        return errors.write(&[PROGRAM, b": ", before, name, behind, b"\n"]);
    }
    errors.write(&[PROGRAM, b": ", before]);
    write_shown(errors, name);
    errors.write(&[behind, b"\n"]);
}

/// What is told of options that do not go together.
fn mixture_text(mixture: Mixture) -> &'static str
    ensures text { result.now ≡ mixture_text mixture }
{
    match mixture {
        Mixture::StrictKind => "--strict needs --kind cover: it promises nothing by another kind",
        Mixture::PseudonymKind => "--pseudonym needs --kind cover: other kinds have no runs",
        Mixture::PseudonymWith => {
            "--pseudonym and --with do not go together: each says what is written"
        }
        Mixture::PseudonymTable => {
            "--pseudonym and -t do not go together: a table says what is written"
        }
        Mixture::FormsKind =>
            "--forms needs --kind cover: by other kinds a part of a form can stay",
        Mixture::WordsKind => {
            "--word needs --kind cover: by other kinds a match that is no word can hide one"
        }
        Mixture::WordsForms => {
            "--word and --forms do not go together: a form can stand within a word"
        }
        Mixture::RulesKind => {
            "--rules and --after need --kind cover: what rules mark may overlap"
        }
        Mixture::RulesInPlace => {
            "--in-place does not go with --rules and --after: give --output"
        }
        Mixture::RulesStrict => {
            "--strict does not go with --rules and --after: it promises nothing of what rules mark"
        }
        Mixture::RightsAlone => {
            "--keep-mode and --overwrite need --in-place or --output: without them no file is replaced"
        }
        Mixture::MaxLineAlone => {
            "--max-line needs --rules or --after: without them no line is kept"
        }
        Mixture::SummaryCheck => {
            "--summary and --check do not go together without rules: a check counts nothing"
        }
        Mixture::OutputCheck => {
            "--output and --check do not go together: a check writes nothing"
        }
        Mixture::InPlaceCheck => {
            "--in-place and --check do not go together: a check writes nothing"
        }
        Mixture::InPlaceOutput => {
            "--in-place and --output do not go together: each says which file is replaced"
        }
        Mixture::CountCheck => "--count and --check do not go together: a check counts nothing",
    }
}

/// Tells as a line what is wrong with a line of a file.
pub fn tell_line<E: Sink>(errors: &mut Errors<'_, E>, name: &str, bad: BadLine)
    ensures told { TellsBytes E.Sink errors.old errors.new (told_line (bad_line name.now bad)) }
{
    tell_shown(
        errors,
        PROGRAM,
        name.as_bytes(),
        Some(bad.number as u64),
        text_of(bad.fault).as_bytes(),
    );
}

/// What is told of a line that holds no rule.
fn text_of(fault: LineFault) -> &'static str
    ensures text { result.now ≡ line_fault_text fault }
{
    match fault {
        LineFault::EmptyPattern => "empty pattern",
        LineFault::NoTab => "no TAB",
        LineFault::SecondTab => "second TAB: write \\t",
        LineFault::BadEscape => "bad escape: write \\t, \\n or \\\\",
        LineFault::CarriageReturn => {
            "carriage return at the end of a pattern: give --crlf to leave it out"
        }
        LineFault::ByteOrderMark => "byte order mark: leave it out",
        LineFault::Utf16 => "UTF-16: give UTF-8, or what the files hold",
        LineFault::ZeroByte => "zero byte: is this UTF-16?",
        LineFault::Blank => "a blank at an end of the pattern is a part of it",
        LineFault::Quotes => "the quotes around the pattern are a part of it",
        LineFault::NoEquals => "no equals sign",
        LineFault::EmptyValue => "empty value: give --allow-empty to pass it over",
        LineFault::OutOfMemory => "out of memory",
    }
}

/// Tells another failure as a line.
fn tell_other<E: Sink>(errors: &mut Errors<'_, E>, other: &failure::Failure)
    ensures told { (line : List ℕ) × IsOtherLine other.now line
        × TellsBytes E.Sink errors.old errors.new line }
{
    if is_of_output(other) {
        return errors.tell_unwritten(PROGRAM);
    }
    errors.tell_failure(PROGRAM, other);
}

/// Whether the output failed, or took nothing.
fn is_of_output(other: &failure::Failure) -> bool
    ensures is { result ≡ is_of_output other.now }
{
    matches!(other, failure::Failure::Write | failure::Failure::WriteZero)
}

/// Tells as a line why a call ends early, and answers the exit status, whether that could be written or not.
pub fn report<E: Sink>(failure: &Failure<'_>, errors: &mut Errors<'_, E>) -> u8
    ensures failed { result ≡ 2 }
    ensures told { (line : List ℕ) × IsFailureLine failure.now line
        × TellsBytes E.Sink errors.old errors.new line }
{
    tell_failure(errors, failure);
    FAILED
}

/// Tells as a line why a redaction ended early, if it did, and answers the exit status.
pub fn report_end<E: Sink>(done: Result<bool, Failure<'_>>, errors: &mut Errors<'_, E>) -> u8
    ensures bound { result ≤ 2 }
    ensures other { result ≡ 1 → ⊥ }
    ensures ends { EndsCall E.Sink done.entry result errors.old errors.new }
{
    match done {
        Ok(true) => 0,
        Ok(false) => FAILED,
        Err(failure) => report(&failure, errors),
    }
}

/// Tells why there are no arguments, or no memory to begin with, and answers the exit status.
pub fn refuse<E: Sink>(error: failure::Failure, errors: &mut Errors<'_, E>) -> u8
    ensures failed { result ≡ 2 }
    ensures told { TellsSome E.Sink (IsRefusedLine error) errors.old errors.new }
{
    match error {
        failure::Failure::Usage => report(&Failure::NotText, errors),
        other => report(&Failure::Other(other), errors),
    }
}
