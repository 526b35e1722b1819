//! Spans, matches, match kinds and inputs, with the numbers and counters that searches use.

ghost use Rattle.std.specs.Prelude.{◌≡◌, ◌+◌, ◌-◌, ◌<◌, ◌≤◌, ◌^◌, ◌↔◌, length, IsTrue};

pub mod primitives;
pub mod work;

pub use primitives::{
    PatternID, PatternIDError, SmallIndex, SmallIndexError, StateID, StateIDError,
};
use std::marker::Model;
pub use work::Work;

/// A range of a haystack in bytes, from `start` up to, and without, `end`.
#[derive(Clone, Copy, Debug, PartialEq, Eq)]
pub struct Span {
    /// The first byte of the range.
    pub start: usize,
    /// The place after its last byte.
    pub end: usize,
}

/// Where a pattern was found: its number and a range of the haystack, in bytes.
#[derive(Clone, Copy, Debug, PartialEq, Eq)]
pub struct Match {
    pattern: PatternID,
    span: Span,
}

impl Model for Match {
    ghost use Rattle.std.specs.Prelude.{◌≤◌};
    ghost use Rattle.aho_core.specs.Occurrence.{Occurrence};

    ghost Value = { Occurrence };

    ghost view = { λ m. record { pattern = m.pattern; start = m.span.start; end = m.span.end } };

    ghost invariant = { λ m. m.span.start ≤ m.span.end };

    ghost inverse = { λ found. record {
      pattern = found.pattern;
      span = record { start = found.start; end = found.end };
    } };
}

impl Match {
    ghost use Rattle.aho_core.specs.Occurrence.{Occurrence};

    /// The match of a pattern at a range.
    pub fn new(pattern: PatternID, range: Span) -> Match
        requires ordered { range.start ≤ range.end }
        ensures made { result ≡ record { pattern = pattern; start = range.start; end = range.end } }
    {
        Match {
            pattern,
            span: range,
        }
    }

    /// The number of the pattern that matched.
    pub fn pattern(&self) -> PatternID
        ensures pattern { result ≡ self.now.pattern }
    {
        self.pattern
    }

    /// Where the match starts.
    pub fn start(&self) -> usize
        ensures start { result ≡ self.now.start }
    {
        self.span.start
    }

    /// Where the match ends: the place after its last byte, which is never below its start.
    pub fn end(&self) -> usize
        ensures end { result ≡ self.now.end }
        ensures ordered { self.now.start ≤ result }
    {
        self.span.end
    }

    /// How many bytes the match has.
    pub fn len(&self) -> usize
        ensures len { result ≡ self.now.end - self.now.start }
    {
        self.span.end - self.span.start
    }

    /// Whether the match has no bytes.
    pub fn is_empty(&self) -> bool
        ensures is_empty { IsTrue result ↔ (self.now.start ≡ self.now.end) }
    {
        self.span.start == self.span.end
    }
}

/// Whether a match must start where its search does.
#[derive(Clone, Copy, Debug, PartialEq, Eq)]
pub enum Anchored {
    /// A match may start anywhere in the span.
    No,
    /// A match must start at the span's start.
    Yes,
}

/// Which of several matches is found.
#[derive(Clone, Copy, Debug, Default, PartialEq, Eq)]
pub enum MatchKind {
    /// The match that ends first; of those the one that starts first, then the one of least number.
    #[default]
    Standard,
    /// The match that starts first; of those the one of least number.
    LeftmostFirst,
    /// The match that starts first; of those the longest, then the one of least number.
    LeftmostLongest,
}

/// What is searched, and how: a haystack with a span of it, anchored or not, earliest or not.
///
/// The span lies in the haystack, and its start is at most one above its end. A search whose start
/// is above its end is done: it finds nothing.
#[derive(Clone)]
pub struct Input<'h> {
    haystack: &'h [u8],
    span: Span,
    anchored: Anchored,
    earliest: bool,
}

impl Drop for Input<'_> {
    fn drop(self) {
        let Input {
            haystack: _,
            span: _,
            anchored: _,
            earliest: _,
        } = self;
    }
}

impl<'h> Model for Input<'h> {
    ghost use Rattle.std.specs.Prelude.{◌≤◌, ◌+◌, length};
    ghost use Rattle.aho_core.specs.Search.{Search};

    ghost Value = { Search };

    ghost view = { λ input. record {
      haystack = input.haystack.now;
      start = input.span.start;
      end = input.span.end;
      anchored = input.anchored;
      earliest = input.earliest;
    } };

    ghost invariant = { λ input. (input.span.end ≤ length input.haystack.now)
        × (input.span.start ≤ input.span.end + 1) };
}

impl<'h> Input<'h> {
    ghost use Rattle.std.specs.Prelude.{false};
    ghost use Rattle.aho_core.specs.Search.{Search};
    ghost use Rattle.aho_core.specs.declared.search.Anchored.TheVariants.{No};

    /// The whole haystack, not anchored, not earliest.
    pub fn new(haystack: &'h [u8]) -> Input<'h>
        ensures whole { result ≡ record {
          haystack = haystack.now;
          start = 0;
          end = length haystack.now;
          anchored = No;
          earliest = false;
        } }
    {
        Input {
            haystack,
            span: Span {
                start: 0,
                end: haystack.len(),
            },
            anchored: Anchored::No,
            earliest: false,
        }
    }

    /// The same input with this span.
    pub fn span(self, span: Span) -> Input<'h>
        requires within { span.end ≤ length self.haystack }
        requires ordered { span.start ≤ span.end + 1 }
        ensures changed { result ≡ record self.entry { start = span.start; end = span.end } }
    {
        let Input {
            haystack,
            span: _,
            anchored,
            earliest,
        } = self;
        Input {
            haystack,
            span,
            anchored,
            earliest,
        }
    }

    /// The same input, anchored or not.
    pub fn anchored(self, anchored: Anchored) -> Input<'h>
        ensures changed { result ≡ record self.entry { anchored = anchored } }
    {
        let Input {
            haystack,
            span,
            anchored: _,
            earliest,
        } = self;
        Input {
            haystack,
            span,
            anchored,
            earliest,
        }
    }

    /// The same input, earliest or not: an earliest search stops at the first place where it knows of a match.
    pub fn earliest(self, earliest: bool) -> Input<'h>
        ensures changed { result ≡ record self.entry { earliest = earliest } }
    {
        let Input {
            haystack,
            span,
            anchored,
            earliest: _,
        } = self;
        Input {
            haystack,
            span,
            anchored,
            earliest,
        }
    }

    /// Moves the start of the span.
    pub fn set_start(&mut self, start: usize)
        requires ordered { start ≤ self.old.end + 1 }
        ensures changed { self.new ≡ record self.old { start = start } }
    {
        self.span.start = start;
    }

    /// Moves the end of the span.
    pub fn set_end(&mut self, end: usize)
        requires within { end ≤ length self.old.haystack }
        requires ordered { self.old.start ≤ end + 1 }
        ensures changed { self.new ≡ record self.old { end = end } }
    {
        self.span.end = end;
    }

    /// The whole haystack, whatever the span is.
    pub fn haystack(&self) -> &'h [u8]
        ensures haystack { result.now ≡ self.now.haystack }
    {
        self.haystack
    }

    /// Where the span starts.
    pub fn start(&self) -> usize
        ensures start { result ≡ self.now.start }
    {
        self.span.start
    }

    /// Where the span ends. It lies in the haystack, and the start is at most one above it.
    pub fn end(&self) -> usize
        ensures end { result ≡ self.now.end }
        ensures within { result ≤ length self.now.haystack }
        ensures ordered { self.now.start ≤ result + 1 }
        ensures small { result < 2 ^ 63 }
    {
        self.span.end
    }

    /// The span that is searched.
    pub fn get_span(&self) -> Span
        ensures span { result ≡ record { start = self.now.start; end = self.now.end } }
    {
        self.span
    }

    /// Whether a match must start at the span's start.
    pub fn get_anchored(&self) -> Anchored
        ensures anchored { result ≡ self.now.anchored }
    {
        self.anchored
    }

    /// Whether the earliest match is wanted.
    pub fn get_earliest(&self) -> bool
        ensures earliest { result ≡ self.now.earliest }
    {
        self.earliest
    }

    /// Whether the start is above the end, so that nothing is left to search.
    pub fn is_done(&self) -> bool
        ensures is_done { IsTrue result ↔ (self.now.end < self.now.start) }
    {
        self.span.end < self.span.start
    }
}
