//! A text that tells how far it was read, and how often.

ghost use Rattle.std.specs.Prelude.{◌≡◌, ◌≤◌};

use aho_core::search::Span;
use aho_prefilter::prefilter::{Candidate, Prefilter};
use aho_prefilter::text::Text;

/// The text over a slice, with a count of its reads.
#[derive(Drop)]
pub(crate) struct Reading<'h> {
    haystack: &'h [u8],
    next: usize,
    reads: usize,
    ghost few: { reads ≤ next },
}

impl<'h> Reading<'h> {
    /// The text over this slice, of which nothing was read.
    pub(crate) fn new(haystack: &'h [u8]) -> Reading<'h>
        ensures bytes { ⟦<Reading<'h> as Text>⟧.bytes result ≡ haystack.entry.now }
        ensures unread { ⟦<Reading<'h> as Text>⟧.next result ≡ 0 }
    {
        Reading {
            haystack,
            next: 0,
            reads: 0,
        }
    }

    /// The first place that may still be read.
    pub(crate) fn next_place(&self) -> usize {
        self.next
    }

    /// How many bytes were read.
    pub(crate) fn reads(&self) -> usize {
        self.reads
    }
}

impl<'h> Text for Reading<'h> {
    ghost bytes = { λ t. t.haystack.now };

    ghost next = { λ t. t.next };

    ghost reads = { λ t. t.reads };

    fn len(&self) -> usize {
        self.haystack.len()
    }

    fn byte(&mut self, at: usize) -> u8 {
        self.next = at + 1;
        self.reads += 1;
        self.haystack[at]
    }

    fn candidate(&self, prefilter: &Prefilter, span: Span) -> Candidate {
        prefilter.find_in(self.haystack, span)
    }
}
