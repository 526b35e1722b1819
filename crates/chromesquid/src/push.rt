//! Streams whose bytes are pushed: what `StreamProgress` tells, by the automaton that the searcher holds.

ghost use Rattle.std.specs.Prelude.{◌≡◌, None, false};
ghost use Rattle.aho_stream.specs.After.{IsUnderWay, StaysAfter};
ghost use Rattle.aho_stream.specs.Pushing.{FindsInGiven, IsSearched, TellsInGiven};

use crate::searcher::AhoCorasick;
use aho_automaton::automaton::Automaton;
use aho_core::search::Match;
use aho_stream::progress::{StreamPiece, StreamProgress};

impl AhoCorasick {
    /// The next match of the bytes that were pushed to a stream of this searcher, once no byte that follows can change it. It is
    /// `StreamProgress::next_match`, and asks once which automaton is held. None where more bytes are needed, or where none is left.
    pub fn stream_next_match(&self, progress: &mut StreamProgress) -> Option<Match>
        requires after { IsUnderWay ⟦<AhoCorasick as Automaton>⟧ self.now 0 progress.old }
        requires open { progress.old.refused ≡ false }
        ensures after { StaysAfter ⟦<AhoCorasick as Automaton>⟧ self.now
            0 progress.old 0 progress.new }
        ensures finds { FindsInGiven ⟦<AhoCorasick as Automaton>⟧ self.now
            0 progress.old progress.new result }
        ensures searched { result ≡ None
            → IsSearched ⟦<AhoCorasick as Automaton>⟧ self.now progress.new }
        ensures ended { progress.new.ended ≡ progress.old.ended }
        ensures open { progress.new.refused ≡ false }
        ensures limit { progress.new.limit ≡ progress.old.limit }
    {
        match self.rows() {
            Some(rows) => progress.next_match(rows),
            None => progress.next_match(self.built()),
        }
    }

    /// The next chunk of the bytes that were pushed to a stream of this searcher: a match, or bytes outside of every match. It is
    /// `StreamProgress::next_chunk`, and asks once which automaton is held. None where more bytes are needed, or where none is left.
    pub fn stream_next_chunk(&self, progress: &mut StreamProgress) -> Option<StreamPiece>
        requires after { IsUnderWay ⟦<AhoCorasick as Automaton>⟧ self.now 0 progress.old }
        requires open { progress.old.refused ≡ false }
        ensures after { StaysAfter ⟦<AhoCorasick as Automaton>⟧ self.now
            0 progress.old 0 progress.new }
        ensures tells { TellsInGiven ⟦<AhoCorasick as Automaton>⟧ self.now
            0 progress.old progress.new result }
        ensures searched { result ≡ None
            → IsSearched ⟦<AhoCorasick as Automaton>⟧ self.now progress.new }
        ensures ended { progress.new.ended ≡ progress.old.ended }
        ensures open { progress.new.refused ≡ false }
        ensures limit { progress.new.limit ≡ progress.old.limit }
    {
        match self.rows() {
            Some(rows) => progress.next_chunk(rows),
            None => progress.next_chunk(self.built()),
        }
    }
}
