//! What a call is asked to do.

ghost use Rattle.std.specs.Prelude.{◌≡◌};
ghost use Rattle.acgrep.specs.Arguments.{switch_by};

use crate::all_options::{Switch, Valued};
use crate::walk::Ways;
use chromesquid::MatchKind;

/// When matches are coloured.
#[derive(Clone, Copy, PartialEq, Eq)]
pub enum Color {
    /// Where standard output is a terminal.
    Auto,
    /// Always.
    Always,
    /// Never.
    Never,
}

/// What is written of a file.
#[derive(Clone, Copy, PartialEq, Eq)]
pub enum Shown {
    /// Each selected line.
    Lines,
    /// Each match of a selected line that is not empty.
    Matches,
    /// The same as a JSON object, or by a format.
    Objects,
    /// The number of selected lines.
    Count,
    /// The name of a file that has a selected line.
    Names,
    /// The name of a file that has none.
    Lacking,
    /// Nothing.
    Nothing,
}

/// How many lines are written around each selected one.
#[derive(Clone, Copy)]
pub struct Context {
    /// How many before it.
    pub before: u64,
    /// How many behind it.
    pub after: u64,
    /// Whether a line stands between those that do not follow one another.
    pub parted: bool,
}

/// What a match of a line has to be.
#[derive(Clone, Copy, PartialEq, Eq)]
pub enum Fit {
    /// Any part of it.
    AnyPart,
    /// A part beside which no letter, digit or `_` stands.
    WholeWord,
    /// The whole line.
    WholeLine,
}

/// The option of a letter that takes no argument, if there is one.
pub fn switch_of(letter: u8) -> Option<Switch>
    ensures switch { result ≡ switch_by letter }
{
    match letter {
        b'i' | b'y' => Some(Switch::IgnoreCase),
        b'v' => Some(Switch::Invert),
        b'w' => Some(Switch::WholeWords),
        b'x' => Some(Switch::WholeLines),
        b'c' => Some(Switch::Counts),
        b'n' => Some(Switch::Numbers),
        b'o' => Some(Switch::OnlyMatching),
        b'b' => Some(Switch::Offsets),
        b'l' => Some(Switch::OnlyNames),
        b'L' => Some(Switch::OnlyLacking),
        b'r' => Some(Switch::Recursive),
        b'R' => Some(Switch::Follow),
        b'Z' => Some(Switch::NullNames),
        b'z' => Some(Switch::NullData),
        b'T' => Some(Switch::InitialTab),
        b'q' => Some(Switch::Quiet),
        b's' => Some(Switch::NoMessages),
        b'h' => Some(Switch::NoName),
        b'H' => Some(Switch::WithName),
        b'V' => Some(Switch::Version),
        b'a' => Some(Switch::Text),
        b'I' => Some(Switch::TextAlone),
        b'F' | b'U' | b'u' => Some(Switch::Same),
        _ => None,
    }
}

/// Each option as it was given.
#[derive(Clone, Copy)]
pub struct Flags {
    /// The last of `-i` and `--no-ignore-case`: whether ASCII letters are the same in both cases.
    pub ignore_case: bool,
    /// `-v`: the lines without a match are selected.
    pub invert: bool,
    /// `-w`: a line matches where a pattern is a word of it.
    pub word: bool,
    /// `-x`: a line matches where a pattern is the whole line.
    pub whole: bool,
    /// `-c`: lines are counted.
    pub count: bool,
    /// `--counts`: the matches of each pattern are counted.
    pub tallied: bool,
    /// `-n`: the number of a line stands before it.
    pub number: bool,
    /// `-o`: the matches of a line are written in its place.
    pub only_matching: bool,
    /// `-b`: where a line starts in its file stands before it.
    pub offset: bool,
    /// `-l`, and no `-L` behind it: files with a selected line are named.
    pub names: bool,
    /// `-L`, and no `-l` behind it: files without one are.
    pub lacking: bool,
    /// `-r`, `-R` and `-d recurse`, and no other `-d` behind them: the files below folders are searched.
    pub recursive: bool,
    /// `-R`: links below folders are followed too, and devices there are read.
    pub follow: bool,
    /// `-d skip`, and no `-r` or `-d` behind it: operands that are folders are passed over.
    pub skips_folders: bool,
    /// The last `-D`: whether devices are read.
    pub devices: Option<bool>,
    /// `-Z`: a zero byte stands behind a file's name.
    pub null: bool,
    /// `-z`: a zero byte ends a line.
    pub null_data: bool,
    /// `-q`: nothing is written.
    pub quiet: bool,
    /// `-A`: how many lines are written behind each selected one.
    pub after: Option<u64>,
    /// `-B`: how many are before it.
    pub before: Option<u64>,
    /// `-C`: how many are where the option for that side is not given.
    pub context: Option<u64>,
    /// `--no-group-separator`: no line stands between lines that do not follow one another.
    pub joined: bool,
    /// `-T`: a tab stands between a line and what stands before it.
    pub tab: bool,
    /// `--json`: each match is written as a JSON object.
    pub json: bool,
    /// `--format`: each match is written by a format.
    pub formatted: bool,
    /// The last of `-h` and `-H`.
    pub with_name: Option<bool>,
    /// The last `--color`.
    pub color: Color,
    /// The last `--kind`.
    pub kind: MatchKind,
    /// Where the first byte of each file stands: the last `--offset`.
    pub first: u64,
    /// The number of each file's first line: the last `--first-line`.
    pub first_line: u64,
    /// `--no-match-ok`: the status is 0 where no line is selected.
    pub no_match_ok: bool,
    /// `-s`: of files that cannot be read nothing is told.
    pub no_messages: bool,
    /// The last `-m`: how many lines of each file are selected at most.
    pub most: Option<u64>,
    /// `-a`, and no `-I` or `--binary-files` behind it: lines that hold a zero byte are written to a terminal too.
    pub text: bool,
    /// `-I`, and no `-a` or `--binary-files` behind it: only the lines before the first that holds a zero byte are searched.
    pub text_alone: bool,
    /// `--rules`: lines are selected that rules mark.
    pub by_rules: bool,
    /// The last `--max-line`: how many bytes a line may have that rules look at.
    pub longest: Option<u64>,
    /// `--help`.
    pub help: bool,
    /// `--version`.
    pub version: bool,
}

impl Flags {
    ghost use Rattle.acgrep.specs.Arguments.{asks_counts, context_by, ending_by, fit_by, no_flags, numbered_in, shown_by, switched, ways_by};

    /// Where no option is given.
    pub fn new() -> Flags
        ensures none { result ≡ no_flags }
    {
        Flags {
            ignore_case: false,
            invert: false,
            word: false,
            whole: false,
            count: false,
            tallied: false,
            number: false,
            only_matching: false,
            offset: false,
            names: false,
            lacking: false,
            recursive: false,
            follow: false,
            skips_folders: false,
            devices: None,
            null: false,
            null_data: false,
            quiet: false,
            after: None,
            before: None,
            context: None,
            joined: false,
            tab: false,
            json: false,
            formatted: false,
            with_name: None,
            color: Color::Never,
            kind: MatchKind::LeftmostLongest,
            first: 0,
            first_line: 1,
            no_match_ok: false,
            no_messages: false,
            most: None,
            text: false,
            text_alone: false,
            by_rules: false,
            longest: None,
            help: false,
            version: false,
        }
    }

    /// What is written of a file: of several options `-q` goes first, then `-l` or `-L`, `-c`, `--counts`,
    /// `--format` and `--json`, and `-o`.
    pub fn shown(&self) -> Shown
        ensures shown { result ≡ shown_by self.now }
    {
        if self.quiet {
            Shown::Nothing
        } else if self.names {
            Shown::Names
        } else if self.lacking {
            Shown::Lacking
        } else if self.count {
            Shown::Count
        } else if self.tallied || self.json || self.formatted {
            Shown::Objects
        } else if self.only_matching {
            Shown::Matches
        } else {
            Shown::Lines
        }
    }

    /// Whether the matches of each pattern are counted: by numbers of patterns that are put together in place of matches.
    pub fn asks_counts(&self) -> bool
        ensures asks { result ≡ asks_counts self.now }
    {
        self.tallied && !(self.quiet || self.names || self.lacking || self.count)
    }

    /// How many lines are written around selected ones, if that is asked for: of `-A` and `-C` the former goes first, and of `-B`
    /// and `-C`.
    pub fn context(&self) -> Option<Context>
        ensures context { result ≡ context_by self.now }
    {
        if self.before.is_none() && self.after.is_none() && self.context.is_none() {
            return None;
        }
        let others = self.context.unwrap_or(0);
        Some(Context {
            before: self.before.unwrap_or(others),
            after: self.after.unwrap_or(others),
            parted: !self.joined,
        })
    }

    /// The byte that ends a line.
    pub fn ending(&self) -> u8
        ensures ending { result ≡ ending_by self.now }
    {
        if self.null_data { 0 } else { b'\n' }
    }

    /// What a match has to be: of `-w` and `-x` the latter goes first.
    pub fn fit(&self) -> Fit
        ensures fit { result ≡ fit_by self.now }
    {
        if self.whole {
            Fit::WholeLine
        } else if self.word {
            Fit::WholeWord
        } else {
            Fit::AnyPart
        }
    }

    /// What is done with links, folders and devices.
    pub fn ways(&self) -> Ways
        ensures ways { result ≡ ways_by self.now }
    {
        Ways {
            follow: self.follow,
            skips_folders: self.skips_folders,
            devices: self.devices,
        }
    }

    /// These with an option whose argument is a number.
    pub fn numbered(self, valued: Valued, number: u64) -> Flags
        ensures numbered { result ≡ numbered_in valued number self }
    {
        let mut flags = self;
        match valued {
            Valued::Offset => flags.first = number,
            Valued::FirstLine => flags.first_line = number,
            Valued::MaxCount => flags.most = Some(number),
            Valued::After => flags.after = Some(number),
            Valued::Before => flags.before = Some(number),
            Valued::Around => flags.context = Some(number),
            Valued::LineLimit => flags.longest = Some(number),
            Valued::Regexp
            | Valued::PatternFile
            | Valued::Kind
            | Valued::Separator
            | Valued::Label
            | Valued::Format
            | Valued::Included
            | Valued::Excluded
            | Valued::ExcludedFrom
            | Valued::ExcludedFolder
            | Valued::Folders
            | Valued::Devices
            | Valued::BinaryFiles
            | Valued::RuleFile => {}
        }
        flags
    }

    /// These with an option that takes no argument.
    pub fn switched(self, switch: Switch) -> Flags
        ensures switched { result ≡ switched switch self }
    {
        let mut flags = self;
        match switch {
            Switch::IgnoreCase => flags.ignore_case = true,
            Switch::MatchCase => flags.ignore_case = false,
            Switch::Invert => flags.invert = true,
            Switch::WholeWords => flags.word = true,
            Switch::WholeLines => flags.whole = true,
            Switch::Counts => flags.count = true,
            Switch::Tallies => flags.tallied = true,
            Switch::Numbers => flags.number = true,
            Switch::OnlyMatching => flags.only_matching = true,
            Switch::Offsets => flags.offset = true,
            Switch::OnlyNames => {
                flags.names = true;
                flags.lacking = false;
            }
            Switch::OnlyLacking => {
                flags.names = false;
                flags.lacking = true;
            }
            Switch::Recursive => {
                flags.recursive = true;
                flags.skips_folders = false;
            }
            Switch::Follow => {
                flags.recursive = true;
                flags.follow = true;
                flags.skips_folders = false;
            }
            Switch::ReadFolders => {
                flags.recursive = false;
                flags.skips_folders = false;
            }
            Switch::SkipFolders => {
                flags.recursive = false;
                flags.skips_folders = true;
            }
            Switch::ReadDevices => flags.devices = Some(true),
            Switch::SkipDevices => flags.devices = Some(false),
            Switch::NullNames => flags.null = true,
            Switch::NullData => flags.null_data = true,
            Switch::Quiet => flags.quiet = true,
            Switch::NoSeparator => flags.joined = true,
            Switch::InitialTab => flags.tab = true,
            Switch::Json => flags.json = true,
            Switch::NoName => flags.with_name = Some(false),
            Switch::WithName => flags.with_name = Some(true),
            Switch::NoMatchOk => flags.no_match_ok = true,
            Switch::NoMessages => flags.no_messages = true,
            Switch::Help => flags.help = true,
            Switch::Version => flags.version = true,
            Switch::Text => {
                flags.text = true;
                flags.text_alone = false;
            }
            Switch::TextAlone => {
                flags.text = false;
                flags.text_alone = true;
            }
            Switch::Binary => {
                flags.text = false;
                flags.text_alone = false;
            }
            Switch::Same => {}
        }
        flags
    }
}
