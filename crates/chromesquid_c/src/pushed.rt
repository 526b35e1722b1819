//! A stream whose bytes are pushed, with its searcher.

ghost use Rattle.std.specs.Prelude.{◌≡◌, ◌≢◌, ◌<◌, ◌≤◌, IfOk, length, map, max};
ghost use Rattle.aho_core.specs.Laws.{longest};
ghost use Rattle.aho_core.specs.Replacement.{pieces_of};
ghost use Rattle.aho_stream.specs.After.{ForGiven};
ghost use Rattle.chromesquid.specs.Rules.{Answers, HasNoEmpty, No};
ghost use Rattle.chromesquid_c.specs.Replacing.{IsOneEach};
ghost use Rattle.chromesquid_c.specs.Streaming.{Ends, HasBegun, HasEnded, FillsRoom, HasRoomFor, IsUnpushed, PutsFor, IsFull, LeavesAll, TakesPushed, TellsFound, TellsReplaced, room_wanted};

use crate::options::CsMatch;
use crate::replace::put_bytes;
use crate::search::form_of;
use crate::status::{DONE, ENDED, FOUND, NO_ROOM, NOT_ONE_EACH, TOO_MANY_BYTES};
use chromesquid::any::bytes_for;
use chromesquid::{AhoCorasick, StreamPiece, StreamProgress};
use std::alloc::{AllocError, Global};
use std::marker::Model;
use std::sync::Arc;

/// A search of a stream whose bytes are pushed, and one owner of its searcher.
#[derive(Drop)]
pub struct Pushed {
    searcher: Arc<AhoCorasick>,
    progress: StreamProgress,
}

impl Model for Pushed {
    ghost use Rattle.chromesquid_c.specs.Streaming.{IsPushed, PushedStream};

    ghost Value = { PushedStream };

    ghost view = { λ s. record { searcher = s.searcher.value; progress = s.progress } };

    ghost invariant = { λ s. IsPushed s.searcher.value s.progress };
}

/// How far the search of a stream has come before it begins.
fn begin(alloc: Global, searcher: &AhoCorasick) -> Result<StreamProgress, AllocError>
    requires no_empty { HasNoEmpty searcher.now }
    requires starts { Answers searcher.now No }
    ensures begun { IfOk result (IsUnpushed searcher.now) }
{
    Ok(searcher.stream_start(alloc)?.into_progress())
}

/// The greatest of a number and the lengths of these.
fn room_for(bytes: usize, pieces: &[&[u8]]) -> usize
    ensures room { result ≡ max bytes (longest (map length (pieces_of pieces.now))) }
{
    let mut most = bytes;
    for index in 0..pieces.len() {
        most = most.max(pieces[index].len());
    }
    most
}

/// Puts what is written for the last chunk told into the room, which is long enough, and in `len` how many bytes that are.
fn put_chunk(
    progress: &StreamProgress,
    piece: &StreamPiece,
    replace_with: &[&[u8]],
    room: &mut [u8],
    len: &mut usize,
)
    requires enough { HasRoomFor progress.now replace_with.now room.old }
    ensures put { ForGiven progress.now (λ given.
        PutsFor progress.now piece.now replace_with.now given room.old room.new len.new) }
{
    let bytes = bytes_for(piece, progress.bytes_told(), replace_with);
    let _fits = put_bytes(bytes, room, len);
}

impl Pushed {
    /// A stream of this searcher, to which nothing was pushed yet.
    pub(crate) fn new(alloc: Global, searcher: &Arc<AhoCorasick>) -> Result<Pushed, AllocError>
        requires no_empty { HasNoEmpty searcher.now.value }
        requires starts { Answers searcher.now.value No }
        ensures begun { IfOk result (HasBegun searcher.now.value) }
    {
        let progress = begin(alloc, searcher)?;
        let searcher = Arc::try_clone(searcher)?;
        Ok(Pushed { searcher, progress })
    }

    /// Pushes bytes, as many as there is room for, and puts into `taken` how many.
    pub(crate) fn push(&mut self, bytes: &[u8], taken: &mut usize) -> u32
        ensures pushed { result ≡ DONE → TakesPushed self.old self.new bytes.now taken.new }
        ensures filled { result ≡ DONE → FillsRoom self.old bytes.now taken.new }
        ensures unsearched { result ≡ DONE → LeavesAll self.old taken.new }
        ensures ended { HasEnded self.old → result ≡ ENDED }
        ensures full { (HasEnded self.old → ⊥) → IsFull self.old → result ≡ TOO_MANY_BYTES }
        ensures done { (HasEnded self.old → ⊥) → (IsFull self.old → ⊥) → result ≡ DONE }
        ensures kept { result ≢ DONE → self.new ≡ self.old }
        ensures untaken { result ≢ DONE → taken.new ≡ taken.old }
    {
        if self.progress.has_ended() {
            return ENDED;
        }
        if self.progress.bytes_left() == 0 {
            return TOO_MANY_BYTES;
        }
        let searcher: &AhoCorasick = &self.searcher;
        *taken = self.progress.push(searcher, bytes);
        DONE
    }

    /// Puts the next match into `found`, if one is settled.
    pub(crate) fn next(&mut self, found: &mut CsMatch) -> u32
        ensures tells { TellsFound self.old self.new result found.new }
        ensures told { result ≤ FOUND }
        ensures kept { result ≢ FOUND → found.new ≡ found.old }
    {
        let searcher: &AhoCorasick = &self.searcher;
        match searcher.stream_next_match(&mut self.progress) {
            Some(it) => {
                *found = form_of(&it);
                FOUND
            }
            None => DONE,
        }
    }

    /// Puts what is written for the next chunk into the room, if one is certain, and in `len` how many bytes that are.
    pub(crate) fn replace(
        &mut self,
        replace_with: &[&[u8]],
        room: &mut [u8],
        len: &mut usize,
    ) -> u32
        ensures tells { result ≤ FOUND → TellsReplaced self.old self.new replace_with.now
            result room.old room.new len.new }
        ensures not_one_each { (IsOneEach self.old.searcher replace_with.now → ⊥)
            → result ≡ NOT_ONE_EACH }
        ensures no_room { IsOneEach self.old.searcher replace_with.now
            → length room.old < room_wanted self.old replace_with.now → result ≡ NO_ROOM }
        ensures told { IsOneEach self.old.searcher replace_with.now
            → room_wanted self.old replace_with.now ≤ length room.old → result ≤ FOUND }
        ensures wanted { result ≡ NO_ROOM → len.new ≡ room_wanted self.old replace_with.now }
        ensures kept { FOUND < result → self.new ≡ self.old }
        ensures unwritten { result ≢ FOUND → room.new ≡ room.old }
        ensures unmeasured { result ≢ FOUND → result ≢ NO_ROOM → len.new ≡ len.old }
    {
        if replace_with.len() != self.searcher.patterns_len() {
            return NOT_ONE_EACH;
        }
        let wanted = room_for(self.progress.bytes_untold() as usize, replace_with);
        if room.len() < wanted {
            *len = wanted;
            return NO_ROOM;
        }
        let searcher: &AhoCorasick = &self.searcher;
        let Some(piece) = searcher.stream_next_chunk(&mut self.progress) else {
            return DONE;
        };
        put_chunk(&self.progress, &piece, replace_with, room, len);
        FOUND
    }

    /// Says that nothing follows.
    pub(crate) fn end(&mut self)
        ensures ends { Ends self.old self.new }
    {
        self.progress.end();
    }
}
