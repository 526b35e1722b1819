//! A text that hands out each byte at most once, and lets prefilters look ahead.

ghost use Rattle.std.specs.Prelude.{◌≡◌, ℕ, List, ◌+◌, ◌<◌, ◌≤◌, length, slice_index};
ghost use Rattle.aho_core.specs.Patterns.{Patterns};
ghost use Rattle.aho_prefilter.specs.Candidate.{IsCandidate};
ghost use Rattle.aho_prefilter.specs.Prefilter.{IsPrefilterOf};

use crate::prefilter::{Candidate, Prefilter};
use aho_core::search::Span;

/// A text that hands out each of its bytes at most once, from the first to the last.
pub trait Text {
    /// Its bytes.
    ghost bytes: { Self → List ℕ };

    /// The first place that may still be read.
    ghost next: { Self → ℕ };

    /// How many bytes it has handed out.
    ghost reads: { Self → ℕ };

    /// How many bytes the text has, those that were read among them.
    fn len(&self) -> usize
        ensures len { result ≡ length (bytes self.now) };

    /// The byte at this place. It and all before it may not be read again.
    fn byte(&mut self, at: usize) -> u8
        requires within { at < length (bytes self.old) }
        requires unread { next self.old ≤ at }
        ensures read { result ≡ slice_index (bytes self.old) at }
        ensures same { bytes self.new ≡ bytes self.old }
        ensures passed { next self.new ≡ at + 1 }
        ensures counted { reads self.new ≡ reads self.old + 1 };

    /// A candidate for a match in a span, whatever of it was read: any that is right for the prefilter's patterns, as what the
    /// prefilter answers is. What is read for it stays unread for `byte`.
    fn candidate(&self, prefilter: &Prefilter, span: Span) -> Candidate
        requires ordered { span.start ≤ span.end }
        requires within { span.end ≤ length (bytes self.now) }
        ensures candidate { (p : Patterns) → IsPrefilterOf prefilter.now p
            → IsCandidate p (bytes self.now) span.start span.end result };
}

/// The text over a slice.
#[derive(Drop)]
pub struct Bytes<'h> {
    haystack: &'h [u8],
    next: usize,
    reads: usize,
    ghost few: { reads ≤ next },
}

impl<'h> Bytes<'h> {
    /// The text over this slice, of which nothing was read.
    pub fn new(haystack: &'h [u8]) -> Bytes<'h>
        ensures bytes { ⟦<Bytes<'h> as Text>⟧.bytes result ≡ haystack.entry.now }
        ensures unread { ⟦<Bytes<'h> as Text>⟧.next result ≡ 0 }
        ensures none { ⟦<Bytes<'h> as Text>⟧.reads result ≡ 0 }
    {
        Bytes {
            haystack,
            next: 0,
            reads: 0,
        }
    }

    /// How many bytes it has handed out.
    pub fn reads(&self) -> usize
        ensures reads { result ≡ ⟦<Bytes<'h> as Text>⟧.reads self.now }
    {
        self.reads
    }
}

impl<'h> Text for Bytes<'h> {
    ghost bytes = { λ t. t.haystack.now };

    ghost next = { λ t. t.next };

    ghost reads = { λ t. t.reads };

    fn len(&self) -> usize {
        self.haystack.len()
    }

    fn byte(&mut self, at: usize) -> u8 {
        self.next = at + 1;
        self.reads += 1;
        self.haystack[at]
    }

    fn candidate(&self, prefilter: &Prefilter, span: Span) -> Candidate {
        prefilter.find_in(self.haystack, span)
    }
}
