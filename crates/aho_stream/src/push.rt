//! Streams whose bytes are pushed. The state of such a search owns all that it keeps, and stands apart from its automaton and from
//! what gives the bytes: the caller pushes bytes when it has some, asks for the matches that are settled by them, and says when the
//! stream has ended.

ghost use Rattle.std.specs.Prelude.{◌≡◌, ◌-◌, ◌<◌, ◌≤◌, None, false, length, min, slice_range, take, true};
ghost use Rattle.aho_stream.specs.After.{ForGiven, IsUnderWay, StaysAfter};
ghost use Rattle.aho_stream.specs.Pushing.{Adds, FindsInGiven, HoldsTold, IsSearched, Pushes, TellsInGiven, room_left};

use crate::pieces::next_piece;
use crate::progress::{StreamPiece, StreamProgress, make_room};
use crate::settle::is_settled;
use aho_automaton::automaton::Automaton;
use aho_automaton::patience::PATIENCE;
use aho_automaton::walk::{Counted, Walk};
use aho_core::search::Match;

/// Whether all that was given was searched through, so that the last bytes alone have to be kept.
fn is_searched<W: Walk>(walk: &W, progress: &StreamProgress) -> bool
    requires valid { W.Of.valid (W.of walk.now) progress.now.sid }
    requires ordered { progress.now.reported ≤ progress.now.read }
    ensures searched { result ≡ true → IsSearched W.Of.Automaton (W.of walk.now) progress.now }
    ensures left { IsSearched W.Of.Automaton (W.of walk.now) progress.now → result ≡ true }
{
    if progress.walked != progress.read {
        return false;
    }
    if progress.read - progress.reported > progress.buffer.min_buffer_len() as u64 {
        return false;
    }
    !is_settled(walk, progress.sid, &progress.in_hand)
}

/// The next match of the bytes given so far, once no byte that follows can change it.
fn next_found<W: Walk>(walk: &mut W, progress: &mut StreamProgress) -> Option<Match>
    requires after { IsUnderWay W.Of.Automaton (W.of walk.old) (W.lookups walk.old) progress.old }
    requires open { progress.old.refused ≡ false }
    ensures after { StaysAfter W.Of.Automaton (W.of walk.old)
        (W.lookups walk.old) progress.old (W.lookups walk.new) progress.new }
    ensures finds { FindsInGiven W.Of.Automaton (W.of walk.old)
        (W.lookups walk.old) progress.old progress.new result }
    ensures searched { result ≡ None → IsSearched W.Of.Automaton (W.of walk.old) progress.new }
    ensures ended { progress.new.ended ≡ progress.old.ended }
    ensures open { progress.new.refused ≡ false }
    ensures limit { progress.new.limit ≡ progress.old.limit }
{
    while let Some(piece) = next_piece(walk, progress) {
        if let Some(m) = piece.found() {
            return Some(m);
        }
    }
    None
}

/// The next chunk of the bytes given so far, once no byte that follows can change it.
fn next_told<W: Walk>(walk: &mut W, progress: &mut StreamProgress) -> Option<StreamPiece>
    requires after { IsUnderWay W.Of.Automaton (W.of walk.old) (W.lookups walk.old) progress.old }
    requires open { progress.old.refused ≡ false }
    ensures after { StaysAfter W.Of.Automaton (W.of walk.old)
        (W.lookups walk.old) progress.old (W.lookups walk.new) progress.new }
    ensures tells { TellsInGiven W.Of.Automaton (W.of walk.old)
        (W.lookups walk.old) progress.old progress.new result }
    ensures searched { result ≡ None → IsSearched W.Of.Automaton (W.of walk.old) progress.new }
    ensures ended { progress.new.ended ≡ progress.old.ended }
    ensures open { progress.new.refused ≡ false }
    ensures limit { progress.new.limit ≡ progress.old.limit }
{
    next_piece(walk, progress)
}

impl StreamProgress {
    /// Puts bytes behind those that were given, from the front of `bytes` as many as there is room for, and says how many. It takes
    /// none while `next_match` may find something, after the end, or at the limit; else at least one.
    pub fn push<A: Automaton>(&mut self, automaton: &A, bytes: &[u8]) -> usize
        requires after { IsUnderWay A.Automaton automaton.now 0 self.old }
        requires open { self.old.refused ≡ false }
        ensures within { result ≤ length bytes.now }
        ensures pushes { Pushes A.Automaton automaton.now self.old self.new (take result bytes.now) }
        ensures some { IsSearched A.Automaton automaton.now self.old → self.old.ended ≡ false
            → self.old.read < self.old.limit → 0 < length bytes.now → 0 < result }
        ensures filled { IsSearched A.Automaton automaton.now self.old → self.old.ended ≡ false
            → result ≡ min (length bytes.now) (room_left self.old) }
        ensures unsearched { (IsSearched A.Automaton automaton.now self.old → ⊥) → result ≡ 0 }
        ensures ended { self.old.ended ≡ true → result ≡ 0 }
    {
        if self.ended {
            return 0;
        }
        if !is_searched(&Counted::new(automaton), self) {
            return 0;
        }
        self.told = self.reported;
        self.add(bytes)
    }

    /// Puts bytes behind those that are kept, as many as there is room for, and says how many.
    fn add(&mut self, bytes: &[u8]) -> usize
        requires limited { self.old.read ≤ self.old.limit }
        ensures within { result ≤ length bytes.now }
        ensures adds { Adds self.old self.new (take result bytes.now) }
        ensures some { self.old.read < self.old.limit → 0 < length bytes.now → 0 < result }
        ensures filled { result ≡ min (length bytes.now) (room_left self.old) }
    {
        let most = bytes.len().min((self.limit - self.read) as usize);
        make_room(&mut self.buffer);
        let count = self.buffer.push(&bytes[..most]);
        self.buffer.facts();
        self.read += count as u64;
        self.patience = PATIENCE;
        count
    }

    /// Whether the stream has ended.
    pub fn has_ended(&self) -> bool
        ensures ended { result ≡ self.now.ended }
    {
        self.ended
    }

    /// How many bytes may be given yet.
    pub fn bytes_left(&self) -> u64
        ensures left { result ≡ self.now.limit - self.now.read }
    {
        self.limit.saturating_sub(self.read)
    }

    /// How many of the bytes given were not told yet: no chunk that `next_chunk` tells next is longer, but for a match.
    pub fn bytes_untold(&self) -> u64
        ensures untold { result ≡ self.now.read - self.now.reported }
    {
        self.read.saturating_sub(self.reported)
    }

    /// Says that the stream has ended: no bytes follow those that were given.
    pub fn end(&mut self)
        ensures ended { self.new ≡ record self.old { ended = true } }
    {
        self.ended = true;
    }

    /// The next match of the bytes given so far, once no byte that follows can change it: under `Standard` when it is seen, under
    /// the leftmost kinds when the state is dead or the stream has ended. None where more bytes are needed, or where none is left.
    pub fn next_match<A: Automaton>(&mut self, automaton: &A) -> Option<Match>
        requires after { IsUnderWay A.Automaton automaton.now 0 self.old }
        requires open { self.old.refused ≡ false }
        ensures after { StaysAfter A.Automaton automaton.now 0 self.old 0 self.new }
        ensures finds { FindsInGiven A.Automaton automaton.now 0 self.old self.new result }
        ensures searched { result ≡ None → IsSearched A.Automaton automaton.now self.new }
        ensures ended { self.new.ended ≡ self.old.ended }
        ensures open { self.new.refused ≡ false }
        ensures limit { self.new.limit ≡ self.old.limit }
    {
        next_found(&mut Counted::new(automaton), self)
    }

    /// The next chunk of the bytes given so far, whose bytes `bytes_told` then lends: a match as `next_match` finds it, or the bytes
    /// before it, outside of every match. None where more bytes are needed, or where none is left. So with a text for each match,
    /// the chunks are the replacement of what is pushed. A chunk is at most as long as the buffer.
    pub fn next_chunk<A: Automaton>(&mut self, automaton: &A) -> Option<StreamPiece>
        requires after { IsUnderWay A.Automaton automaton.now 0 self.old }
        requires open { self.old.refused ≡ false }
        ensures after { StaysAfter A.Automaton automaton.now 0 self.old 0 self.new }
        ensures tells { TellsInGiven A.Automaton automaton.now 0 self.old self.new result }
        ensures searched { result ≡ None → IsSearched A.Automaton automaton.now self.new }
        ensures ended { self.new.ended ≡ self.old.ended }
        ensures open { self.new.refused ≡ false }
        ensures limit { self.new.limit ≡ self.old.limit }
    {
        next_told(&mut Counted::new(automaton), self)
    }

    /// The bytes of the chunk that the last call of `next_chunk` told, until bytes are pushed.
    pub fn bytes_told(&self) -> &[u8]
        requires holds { HoldsTold self.now }
        ensures bytes { ForGiven self.now (λ given. result.now ≡ slice_range given self.now.told self.now.reported) }
    {
        self.bytes(self.told, self.reported)
    }
}
