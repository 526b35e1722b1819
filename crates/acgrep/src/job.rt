//! What is written of which lines of each file, by what the arguments say, and how far one was searched.

ghost use Rattle.std.specs.Prelude.{◌≡◌, ◌↔◌, ◌⊎◌, ◌&&◌, ◌<◌, [], IsTrue, false, not, length};
ghost use Rattle.acgrep.specs.Arguments.{said};
ghost use Rattle.acgrep.specs.Runs.{IsJob, asks_none, form_asked, form_said, inverts, is_colored};
ghost use Rattle.acgrep.specs.Written.{IsSettled, is_full, is_numbered, needs_one, selects};

use crate::arguments::Given;
use crate::colors::{Screen, read_colors};
use crate::format::Piece;
use crate::options::{Color, Context, Fit, Flags, Shown};
use crate::print::{Form, Place, Style};
use crate::trail::Trail;
use chromesquid::AhoCorasick;
use std::alloc::Global;

/// What stands for a match that is counted: the number of its pattern.
const NUMBER: &[Piece] = &[Piece::PatternNumber];

/// What is written of which lines of a file.
#[derive(Clone, Copy)]
pub struct Job<'a> {
    /// The allocator.
    pub alloc: Global,
    /// What is written of a selected line.
    pub shown: Shown,
    /// Whether the lines without a match are selected.
    pub invert: bool,
    /// What a match of a line has to be.
    pub fit: Fit,
    /// What stands before a line.
    pub style: Style<'a>,
    /// How standard input is called.
    pub label: &'a [u8],
    /// Where the first line of a file stands.
    pub first: Place,
    /// How many lines of a file are selected at most, and one at least.
    pub most: Option<u64>,
    /// Whether nothing is told of files that cannot be read.
    pub hushed: bool,
    /// How many lines are written around selected ones, where that is asked for.
    pub context: Option<Context>,
    /// Whether lines of a file before were written.
    pub follows: bool,
    /// Whether the output is written behind the last file.
    pub late: bool,
    /// Whether lines and matches are kept from the output from the first line on that holds a zero byte.
    pub guards: bool,
    /// Whether only the lines before that one are searched.
    pub text_alone: bool,
}

impl<'a> Job<'a> {
    ghost use Rattle.acgrep.specs.Binary.{is_guarded, seeking, takes_text};
    ghost use Rattle.acgrep.specs.Contexts.{around_of, beside};

    /// How many lines are written around selected ones: where lines or matches are written, as many as are asked for.
    pub fn around(&self) -> Option<Context>
        ensures around { result ≡ around_of self.now }
    {
        match self.shown {
            Shown::Lines | Shown::Matches => self.context,
            _ => None,
        }
    }

    /// Whether the numbers of lines are written.
    pub fn numbers(&self) -> bool
        ensures numbered { result ≡ is_numbered self.now.shown self.now.style.number }
    {
        match self.shown {
            Shown::Objects => true,
            _ => self.style.number,
        }
    }

    /// Whether the matches of a selected line are coloured.
    pub fn colors(&self) -> bool
        ensures colored { result ≡ (self.now.style.color && not self.now.invert) }
    {
        self.style.color && !self.invert
    }

    /// Whether a line is selected, by whether it matches.
    pub fn selects(&self, matched: bool) -> bool
        ensures selects { result ≡ selects matched self.now.invert }
    {
        if self.invert { !matched } else { matched }
    }

    /// Whether the first selected line tells all.
    pub fn needs_one(&self) -> bool
        ensures one { result ≡ needs_one self.now.shown }
    {
        matches!(self.shown, Shown::Names | Shown::Lacking | Shown::Nothing)
    }

    /// Whether so many lines are selected as are asked for.
    pub fn is_full(&self, count: u64) -> bool
        ensures full { result ≡ is_full self.now.most count }
    {
        match self.most {
            Some(most) => count > 0 && most <= count,
            None => false,
        }
    }

    /// Whether lines from the first on that holds a zero byte are kept from the output: lines or matches are written, and a newline
    /// ends a line.
    pub fn is_guarded(&self) -> bool
        ensures guarded { result ≡ is_guarded self.now }
    {
        match self.shown {
            Shown::Lines | Shown::Matches => self.guards && self.style.ending != 0,
            _ => false,
        }
    }

    /// Whether only the lines before the first that holds a zero byte are searched: that is asked for, and a newline ends a line.
    pub fn takes_text(&self) -> bool
        ensures text { result ≡ takes_text self.now }
    {
        self.text_alone && !self.guards && self.style.ending != 0
    }

    /// What is sought in the lines from the first on that holds a zero byte: one that is selected, of which nothing is written.
    pub fn seeking(&self) -> Job<'a>
        ensures seeking { result ≡ seeking self.now }
    {
        let mut job = *self;
        job.shown = Shown::Nothing;
        job
    }

    /// What is written of the lines around selected ones: under `-v` their matches are shown, and else not.
    pub fn beside(&self) -> Job<'a>
        ensures beside { result ≡ beside self.now }
    {
        let mut job = *self;
        job.invert = !self.invert;
        job.style.hyphen = true;
        job
    }

    /// Whether no further line changes what is written.
    pub fn is_done(&self, state: &State) -> bool
        ensures only { IsTrue result → 0 < state.now.selected }
        ensures settled { IsTrue result ↔ IsSettled self.now state.now }
    {
        if self.is_full(state.selected) && state.trail.is_past() {
            return true;
        }
        self.needs_one() && state.selected > 0
    }

    /// Whether what is left of a text is to be searched.
    pub fn goes_on(&self, left: &[u8], state: &State) -> bool
        ensures some { IsTrue result → 0 < length left.now }
        ensures ends { result ≡ false → (left.now ≡ []) ⊎ IsSettled self.now state.now }
    {
        !left.is_empty() && !self.is_done(state)
    }
}

/// What is sought in files, and what is written of it.
#[derive(Clone, Copy)]
pub struct Query<'a> {
    /// What finds the patterns.
    pub searcher: &'a AhoCorasick,
    /// What is written of which lines.
    pub job: Job<'a>,
}

/// How far a file was searched.
#[derive(Drop)]
pub struct State {
    /// What stands before the next line.
    pub place: Place,
    /// How many lines were selected.
    pub selected: u64,
    /// What is known of the lines before it, where lines around selected ones are written.
    pub trail: Trail,
    /// What is put together for one write.
    pub page: Vec<u8>,
}

impl State {
    ghost use Rattle.acgrep.specs.Contexts.{IsBegin};

    /// Where no file was begun.
    pub fn new(alloc: Global, first: Place) -> State {
        State {
            place: first,
            selected: 0,
            trail: Trail::new(alloc, first),
            page: Vec::new(alloc),
        }
    }

    /// Begins a file of which this is written.
    pub fn begin(&mut self, job: &Job<'_>)
        ensures begin { IsBegin job.now self.new }
    {
        self.place = job.first;
        self.selected = 0;
        self.trail.begin(job.follows);
    }
}

/// What is written of each file, but for its name. `several` says whether names stand before lines where nothing is said of that.
pub fn job_of<'a>(
    alloc: Global,
    given: &'a Given<'_>,
    screen: &Screen<'a>,
    several: bool,
) -> Job<'a>
    ensures job { IsJob (said given.now) screen.now several result }
{
    let flags = &given.flags;
    Job {
        alloc,
        shown: flags.shown(),
        invert: inverts(flags),
        fit: flags.fit(),
        style: Style {
            name: b"",
            with_name: flags.with_name.unwrap_or(several),
            null: flags.null,
            number: flags.number,
            offset: flags.offset,
            color: is_colored(flags.color, screen.colored),
            colors: read_colors(screen.colors),
            hyphen: false,
            tab: flags.tab,
            ending: flags.ending(),
            separator: given.separator,
            form: form_of(given),
        },
        label: given.label,
        first: Place {
            lines: flags.first_line.wrapping_sub(1),
            bytes: flags.first,
        },
        most: flags.most,
        hushed: flags.no_messages,
        context: flags.context(),
        follows: false,
        late: flags.asks_counts(),
        guards: screen.terminal && !flags.text && !flags.text_alone,
        text_alone: flags.text_alone,
    }
}

/// How a match is written with its fields: `--counts` goes before `--format`, and that before `--json`.
fn form_of<'a>(given: &'a Given<'_>) -> Form<'a>
    ensures form { form_said result ≡ form_asked (said given.now) }
{
    if given.flags.tallied {
        Form::Pieces(NUMBER)
    } else if given.flags.formatted {
        Form::Pieces(given.format.as_slice())
    } else {
        Form::Json
    }
}

/// Whether matches are coloured.
pub fn is_colored(color: Color, terminal: bool) -> bool
    ensures { result ≡ is_colored color terminal }
{
    match color {
        Color::Always => true,
        Color::Auto => terminal,
        Color::Never => false,
    }
}

/// Whether the lines without a match are selected.
pub fn inverts(flags: &Flags) -> bool
    ensures { result ≡ inverts flags.now }
{
    flags.invert && !asks_none(flags.most)
}

/// Whether at most no line is asked for.
pub fn asks_none(most: Option<u64>) -> bool
    ensures { result ≡ asks_none most }
{
    match most {
        Some(most) => most == 0,
        None => false,
    }
}
