//! All finds of a text at once.

ghost use Rattle.std.specs.Prelude.{IfOk, None};
ghost use Rattle.std.specs.Iterator.{IsFinite};
ghost use Rattle.aho_core.specs.Iteration.{AreFinds};
ghost use Rattle.aho_core.specs.Patterns.{Patterns};
ghost use Rattle.aho_core.specs.Search.{Search, plain_search};
ghost use Rattle.aho_core.specs.declared.search.Anchored.TheVariants.{No};
ghost use Rattle.aho_automaton.specs.Finding.{GivesFinds};
ghost use Rattle.chromesquid.specs.Backward.{IsBackwardFor};
ghost use Rattle.chromesquid.specs.Searcher.{Answers, ForItsPatterns};

use crate::backward::Backward;
use crate::searcher::AhoCorasick;
use aho_core::search::Match;
use std::alloc::{AllocError, Global};

impl AhoCorasick {
    /// All finds of a haystack at once: those that `find_iter` gives one after another.
    ///
    /// Where a walk backward is held (`backward`), it finds them, with at most four look-ups of a transition for each byte, whatever
    /// the patterns are. Else they are searched for one after another, and it takes memory for the finds alone.
    ///
    /// The searches must be ones that the searcher answers.
    ///
    /// # Errors
    ///
    /// Out of memory.
    pub fn find_all(&self, alloc: Global, haystack: &[u8]) -> Result<Vec<Match>, AllocError>
        requires starts { Answers self.now No }
        ensures found { ForItsPatterns self.now (λ p. IfOk result (λ found.
            AreFinds p (plain_search haystack.now) None found.items)) }
    {
        match self.backward() {
            Some(backward) => finds_back(alloc, self, backward, haystack),
            None => all_items(alloc, self.find_iter(haystack)),
        }
    }
}

/// All finds of a haystack by the walk backward of a searcher.
fn finds_back(
    alloc: Global,
    searcher: &AhoCorasick,
    backward: &Backward,
    haystack: &[u8],
) -> Result<Vec<Match>, AllocError>
    requires of { ForItsPatterns searcher.now (IsBackwardFor backward.now) }
    ensures found { ForItsPatterns searcher.now (λ p. IfOk result (λ found.
        AreFinds p (plain_search haystack.now) None found.items)) }
{
    let _searcher = searcher.built();
    backward.find_all(alloc, haystack)
}

/// All that an iterator over the finds of a search gives.
fn all_items<I: Iterator<Item = Match> + Drop>(
    alloc: Global,
    finds: I,
) -> Result<Vec<Match>, AllocError>
    requires can { I.can_next finds }
    requires ends { IsFinite (I.remaining finds) }
    ensures found { (p : Patterns) (search : Search) → GivesFinds I.next_gives p search finds
        → IfOk result (λ found. AreFinds p search None found.items) }
{
    finds.collect(alloc)
}
