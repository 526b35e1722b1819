//! What the plain searches look for.

ghost use Rattle.std.specs.Prelude.{◌≡◌, ◌+◌, ◌<◌, ◌≤◌, length, map};
ghost use Rattle.aho_core.specs.Numbers.{greatest_index};
ghost use Rattle.aho_core.specs.Patterns.{Patterns, pattern_at};

use aho_core::search::MatchKind;
use std::marker::Model;

/// The patterns of a search, with the match kind and the case rule.
///
/// Patterns are numbered from 0 on, in the order in which they were given.
#[derive(Debug)]
pub struct PatternSet<'p> {
    words: &'p [&'p [u8]],
    kind: MatchKind,
    ignore_case: bool,
}

impl Drop for PatternSet<'_> {
    fn drop(self) {
        let PatternSet {
            words: _,
            kind: _,
            ignore_case: _,
        } = self;
    }
}

impl<'p> Model for PatternSet<'p> {
    ghost use Rattle.std.specs.Prelude.{◌≤◌, length, map};
    ghost use Rattle.aho_core.specs.Patterns.{Patterns};

    ghost Value = { Patterns };

    ghost view = { λ set. record {
      words = map (λ w. w.now) set.words.now;
      kind = set.kind;
      ignore_case = set.ignore_case;
    } };

    // each pattern has a number
    ghost invariant = { λ set. length set.words.now ≤ 2147483647 };
}

impl<'p> PatternSet<'p> {
    ghost use Rattle.aho_core.specs.Patterns.{Patterns, pattern_at};

    /// These patterns, searched for by this match kind. `ignore_case` makes an ASCII letter the same in both cases.
    ///
    /// There are at most `PatternID::MAX + 1` patterns, so that each has a number.
    pub fn new(words: &'p [&'p [u8]], kind: MatchKind, ignore_case: bool) -> PatternSet<'p>
        requires numbered { length words.now ≤ greatest_index + 1 }
        ensures made { result ≡ record {
          words = map (λ w. w.now) words.now;
          kind = kind;
          ignore_case = ignore_case;
        } }
    {
        PatternSet {
            words,
            kind,
            ignore_case,
        }
    }

    /// How many patterns there are.
    pub(crate) fn patterns_len(&self) -> usize
        ensures patterns_len { result ≡ length self.now.words }
        ensures numbered { result ≤ greatest_index + 1 }
    {
        self.words.len()
    }

    /// The pattern of this number.
    pub(crate) fn pattern(&self, number: usize) -> &'p [u8]
        requires there { number < length self.now.words }
        ensures pattern { result.now ≡ pattern_at self.now number }
    {
        let words = self.words;
        words[number]
    }

    /// Which of several matches is found.
    pub(crate) fn kind(&self) -> MatchKind
        ensures kind { result ≡ self.now.kind }
    {
        self.kind
    }

    /// Whether an ASCII letter is the same in both cases.
    pub(crate) fn ignore_case(&self) -> bool
        ensures ignore_case { result ≡ self.now.ignore_case }
    {
        self.ignore_case
    }
}
