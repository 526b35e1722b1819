//! What a prefilter holds, and what it answers.

ghost use Rattle.std.specs.Prelude.{◌≡◌, ◌<◌, ◌≤◌, ◌^◌, length, true, IfOk, IfErr};
ghost use Rattle.aho_core.specs.Patterns.{Patterns};
ghost use Rattle.aho_prefilter.specs.Candidate.{IsCandidate, place_of};
ghost use Rattle.aho_prefilter.specs.Finding.{FindsFirst, StopsFirst};
ghost use Rattle.aho_prefilter.specs.Prefilter.{IsPrefilterOf, holds_memory, bytes_held};

mod builder;
mod first_bytes;
mod needle;
mod packed_builder;
mod quickest;

use crate::packed::Packed;
use crate::packed_heads::PackedHeads;
use crate::strided::Strided;
use crate::windows::Windows;
use aho_core::search::{Match, PatternID, Span};
pub use builder::PrefilterBuilder;
use memchr::{memchr, memchr2, memchr3};
use needle::Needle;
pub use packed_builder::PackedBuilder;
use std::alloc::AllocError;
use std::marker::Model;

/// What a prefilter answers for a span of a haystack.
#[derive(Clone, Copy, Debug, PartialEq, Eq)]
pub enum Candidate {
    /// The span holds no match.
    None,
    /// The best match of the span, before which none starts.
    Match(Match),
    /// A place of the span before which no match starts.
    PossibleStartOfMatch(usize),
}

impl Candidate {
    /// Where the match starts, or may start; none where there is no match.
    #[inline]
    pub fn into_option(self) -> Option<usize>
        ensures place { result ≡ place_of self }
    {
        match self {
            Candidate::None => None,
            Candidate::Match(found) => Some(found.start()),
            Candidate::PossibleStartOfMatch(place) => Some(place),
        }
    }
}

/// The search that a prefilter makes, with what it looks for.
#[derive(Drop)]
enum Searcher {
    /// For the only pattern, as a whole.
    Memmem(Needle),
    /// For the one byte with which patterns begin.
    Memchr(u8),
    /// For two such bytes.
    Memchr2(u8, u8),
    /// For three.
    Memchr3(u8, u8, u8),
    /// For the fingerprints of the patterns.
    Packed(Packed),
    /// For the fingerprints of the patterns, and for their heads.
    PackedHeads(PackedHeads),
    /// For the rests of the patterns from their first rare bytes on.
    Windows(Windows),
    /// For grams of the patterns, each of which is looked up for several places.
    Strided(Strided),
}

impl Searcher {
    /// The first place of this part of a haystack at which it stops.
    #[inline(never)]
    fn find(&self, part: &[u8]) -> Option<usize>
        ensures first { StopsFirst self.now part.now result }
    {
        match self {
            Searcher::Memmem(needle) => needle.find(part),
            Searcher::Memchr(x) => memchr(*x, part),
            Searcher::Memchr2(x, y) => memchr2(*x, *y, part),
            Searcher::Memchr3(x, y, z) => memchr3(*x, *y, *z, part),
            Searcher::Packed(packed) => packed.find(part),
            Searcher::PackedHeads(packed) => packed.find(part),
            Searcher::Windows(windows) => windows.find(part),
            Searcher::Strided(strided) => strided.find(part),
        }
    }
}

/// A quick search for a place where a match may start.
///
/// `PrefilterBuilder` says for which patterns there is one.
#[derive(Drop)]
pub struct Prefilter {
    searcher: Searcher,
}

impl Model for Prefilter {
    ghost use Rattle.aho_prefilter.specs.declared.prefilter.Searcher.{Searcher};

    ghost Value = { Searcher };

    ghost view = { λ prefilter. prefilter.searcher };
}

impl Prefilter {
    /// What is known of where a match of the span starts. The span's start is at most its end, and its end at most the
    /// haystack's length; places are those of the haystack.
    ///
    /// It takes no memory.
    #[inline]
    pub fn find_in(&self, haystack: &[u8], span: Span) -> Candidate
        requires ordered { span.start ≤ span.end }
        requires within { span.end ≤ length haystack.now }
        ensures candidate { (p : Patterns) → IsPrefilterOf self.now p
            → IsCandidate p haystack.now span.start span.end result }
        ensures first { FindsFirst self.now haystack.now span.start span.end result }
    {
        let part = &haystack[span.start..span.end];
        let Some(at) = self.searcher.find(part) else {
            return Candidate::None;
        };
        let start = span.start + at;
        let Searcher::Memmem(needle) = &self.searcher else {
            return Candidate::PossibleStartOfMatch(start);
        };
        let end = start + needle.len();
        let pattern = PatternID::new_unchecked(0);
        Candidate::Match(Match::new(pattern, Span { start, end }))
    }

    /// How many bytes of memory it holds: those of the pattern that is searched for as a whole, or of the tables of a strided
    /// search.
    pub fn memory_usage(&self) -> usize
        ensures memory_usage { result ≡ bytes_held self.now }
        ensures bound { result < 2 ^ 63 }
    {
        match &self.searcher {
            Searcher::Memmem(needle) => needle.len(),
            Searcher::Memchr(_) | Searcher::Memchr2(_, _) | Searcher::Memchr3(_, _, _) => 0,
            Searcher::Packed(_) | Searcher::PackedHeads(_) | Searcher::Windows(_) => 0,
            Searcher::Strided(strided) => strided.memory_usage(),
        }
    }

    /// A prefilter that makes the same search.
    ///
    /// # Errors
    ///
    /// Out of memory, for the copy of a pattern that is searched for as a whole, or of tables.
    pub fn try_clone(&self) -> Result<Prefilter, AllocError>
        ensures same { IfOk result (λ copy. copy ≡ self.now) }
        ensures wanted { IfErr result (λ _. holds_memory self.now ≡ true) }
    {
        let searcher = match &self.searcher {
            Searcher::Memmem(needle) => Searcher::Memmem(needle.try_clone()?),
            Searcher::Memchr(x) => Searcher::Memchr(*x),
            Searcher::Memchr2(x, y) => Searcher::Memchr2(*x, *y),
            Searcher::Memchr3(x, y, z) => Searcher::Memchr3(*x, *y, *z),
            Searcher::Packed(packed) => Searcher::Packed(*packed),
            Searcher::PackedHeads(packed) => Searcher::PackedHeads(*packed),
            Searcher::Windows(windows) => Searcher::Windows(*windows),
            Searcher::Strided(strided) => Searcher::Strided(strided.try_clone()?),
        };
        Ok(Prefilter { searcher })
    }
}
