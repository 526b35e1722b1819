//! What the arguments of a call of `acfind` ask for. Those of `acdraw` are read as those behind `find`.

ghost use Rattle.std.specs.Prelude.{◌≡◌, ◌%◌, IfSome, length};
ghost use Rattle.tool_parts.specs.Asked.{ignores_case, kind_of, AsksFor};
ghost use Rattle.tool_parts.specs.Arguments.{kind_by, patterns_by, cased_by, find_by, asked_by, replacing_by, texts, PairsAskFor};

use chromesquid::MatchKind;

/// Which matches of some patterns are printed.
#[derive(Clone, Copy)]
pub enum Task {
    /// One after another: each is searched for from the end of the match before.
    Find {
        /// Which of several matches is found.
        kind: MatchKind,
        /// Whether ASCII letters are the same in both cases.
        ignore_case: bool,
    },
    /// All that occur, those that overlap too.
    Overlap,
}

impl Task {
    /// The match kind of the automaton.
    pub fn kind(self) -> MatchKind
        ensures kind { result ≡ kind_of self }
    {
        match self {
            Task::Find { kind, .. } => kind,
            Task::Overlap => MatchKind::Standard,
        }
    }

    /// Whether ASCII letters are the same in both cases.
    pub fn ignore_case(self) -> bool
        ensures ignore_case { result ≡ ignores_case self }
    {
        match self {
            Task::Find { ignore_case, .. } => ignore_case,
            Task::Overlap => false,
        }
    }
}

/// What is asked for.
#[derive(Clone, Copy)]
pub struct Request<'a> {
    /// Which matches are printed.
    pub task: Task,
    /// The patterns, which are numbered from 0 on.
    pub patterns: &'a [String],
}

/// Which matches the arguments after the program's name ask to print: none where they ask for something else, or are wrong.
pub fn parse(arguments: &[String]) -> Option<Request<'_>>
    ensures asked { AsksFor result (asked_by (texts arguments.now)) }
{
    let (command, rest) = arguments.split_first()?;
    match command.as_str() {
        "find" => parse_find(rest),
        "overlap" => parse_patterns(Task::Overlap, rest),
        _ => None,
    }
}

/// KIND [-i] PATTERN..: what is behind `find`, and all the arguments of `acdraw`.
pub fn parse_find(arguments: &[String]) -> Option<Request<'_>>
    ensures asked { AsksFor result (find_by (texts arguments.now)) }
{
    let (argument, rest) = arguments.split_first()?;
    let kind = parse_kind(argument.as_str())?;
    parse_cased(kind, rest)
}

/// The match kind that an argument names, if it names one.
pub fn parse_kind(argument: &str) -> Option<MatchKind>
    ensures kind { result ≡ kind_by argument.now }
{
    match argument {
        "standard" => Some(MatchKind::Standard),
        "first" | "leftmost-first" => Some(MatchKind::LeftmostFirst),
        "longest" | "leftmost-longest" => Some(MatchKind::LeftmostLongest),
        _ => None,
    }
}

/// [-i] PATTERN..
fn parse_cased(kind: MatchKind, arguments: &[String]) -> Option<Request<'_>>
    ensures asked { AsksFor result (cased_by kind (texts arguments.now)) }
{
    let (first, rest) = arguments.split_first()?;
    let ignore_case = first.as_str() == "-i";
    let task = Task::Find { kind, ignore_case };
    parse_patterns(task, if ignore_case { rest } else { arguments })
}

/// PATTERN..
fn parse_patterns(task: Task, arguments: &[String]) -> Option<Request<'_>>
    ensures asked { AsksFor result (patterns_by task (texts arguments.now)) }
{
    if arguments.is_empty() {
        return None;
    }
    Some(Request {
        task,
        patterns: arguments,
    })
}

/// The patterns that the arguments after the program's name ask to replace, each followed by what is written in its place: none
/// where they ask for something else, or are wrong.
pub fn parse_replace(arguments: &[String]) -> Option<&[String]>
    ensures asked { PairsAskFor result (replacing_by (texts arguments.now)) }
    ensures even { IfSome result (λ pairs. length pairs.now % 2 ≡ 0) }
{
    let (command, pairs) = arguments.split_first()?;
    if command.as_str() != "replace" || pairs.is_empty() || pairs.len() % 2 != 0 {
        return None;
    }
    Some(pairs)
}
