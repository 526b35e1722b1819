//! How far the cover of a stream has come: numbers, the last bytes, and the runs in hand.

ghost use Rattle.std.specs.Prelude.{◌≡◌, ◌+◌, ◌-◌, ◌<◌, ◌≤◌, ◌^◌, ℕ, List, [], OnErr, OnOk, Ok, length, max, slice_index, slice_range, true, false};
ghost use Rattle.aho_cover.specs.Hand.{FirstEndsBehind, HasItsFirst, held_runs, room_in};
ghost use Rattle.aho_cover.specs.Progress.{BareFrom, ClearlyCovered, EndsHere, EndsNext, HasCovered, IsAll, IsBeginning, IsGiven, IsSoundCover, KeepsRoom, open_place, outside_end, unbegun_cover, walk_end};
ghost use Rattle.aho_cover.specs.Feeds.{Feeding, HasFedFirst};
ghost use Rattle.aho_cover.specs.Steps.{MayRoll};
ghost use Rattle.aho_cover.specs.Settling.{FeedsFirst, Settles, StopsAt, StopsOutside, StopsSettling, WritesOutside};
ghost use Rattle.aho_cover.specs.Writes.{TellsWrites, WritesOn};

use crate::hand::Hand;
use crate::output::{count_run, write_both};
use crate::pieces::Pieces;
use aho_core::error::StreamError;
use aho_core::search::{Match, StateID};
use aho_devices::buffer::Buffer;
use aho_devices::device::Sink;
use aho_devices::write::write_whole;

/// How far the cover of a stream has come. Places count from the first byte that the source gave.
#[derive(Drop)]
pub(crate) struct CoverProgress {
    /// The last bytes that were given.
    pub(crate) buffer: Buffer,
    /// How many bytes were given.
    pub(crate) read: usize,
    /// A place before which nothing begins that ends behind the bytes that were walked.
    pub(crate) since: usize,
    /// The place up to which all was written: the bytes themselves, or the pieces of runs.
    pub(crate) copied: usize,
    /// Where it is behind `copied`: the first run begins there, and its bytes up to here were fed.
    pub(crate) fed: usize,
    /// The state that is held after the bytes that were walked.
    pub(crate) sid: StateID,
    /// The runs that were not written, of what was walked.
    pub(crate) hand: Hand,
    /// Whether words alone count.
    pub(crate) words: bool,
    /// Whether the end of the stream was seen.
    pub(crate) ended: bool,
}

impl CoverProgress {
    /// Nothing was given yet.
    pub(crate) fn new(buffer: Buffer, hand: Hand, sid: StateID, words: bool) -> CoverProgress
        ensures made { result ≡ unbegun_cover buffer hand sid words }
    {
        CoverProgress {
            buffer,
            read: 0,
            since: 0,
            copied: 0,
            fed: 0,
            sid,
            hand,
            words,
            ended: false,
        }
    }

    /// Begins anew, in the state of a start. The memory stays.
    pub(crate) fn begin_anew(&mut self, sid: StateID, words: bool)
        ensures buffer { self.new.buffer ≡ record self.old.buffer { bytes = [] } }
        ensures none { held_runs self.new.hand ≡ [] }
        ensures whole { HasItsFirst self.new.hand }
        ensures same_room { room_in self.new.hand ≡ room_in self.old.hand }
        ensures made { self.new ≡ unbegun_cover self.new.buffer self.new.hand sid words }
    {
        self.buffer.clear();
        self.hand.clear();
        self.read = 0;
        self.since = 0;
        self.copied = 0;
        self.fed = 0;
        self.sid = sid;
        self.words = words;
        self.ended = false;
    }

    /// The end of the stream was seen: nothing follows what was read.
    pub(crate) fn see_end(&mut self)
        ensures only { self.new ≡ record self.old { ended = true } }
    {
        self.ended = true;
    }

    /// The place up to which what was read may be walked. Where words are asked for, the last byte waits for the next.
    #[inline(always)]
    pub(crate) fn walk_end(&self) -> usize
        ensures end { result ≡ walk_end self.now }
    {
        if self.words && !self.ended {
            return self.read.saturating_sub(1);
        }
        self.read
    }

    /// The place before which nothing begins that ends behind `at`, whatever follows.
    fn open_place(&self, at: usize) -> usize
        requires small { at < 2 ^ 63 }
        ensures place { result ≡ open_place self.now at }
    {
        let far = self.buffer.min_buffer_len();
        self.since.max((at + 1).saturating_sub(far))
    }

    /// The bytes from one place up to another, of those that are held.
    pub(crate) fn bytes(&self, start: usize, end: usize) -> &[u8]
        requires ordered { start ≤ end }
        requires read { end ≤ self.now.read }
        requires held { self.now.read ≤ start + length self.now.buffer.bytes }
        requires whole { length self.now.buffer.bytes ≤ self.now.read }
        ensures part { (haystack : List ℕ) → IsGiven self.now haystack
            → result.now ≡ slice_range haystack start end }
    {
        let bytes = self.buffer.buffer();
        let first = self.read - bytes.len();
        &bytes[start - first..end - first]
    }

    /// The byte at a place, of those that are held.
    pub(crate) fn byte(&self, at: usize) -> u8
        requires read { at < self.now.read }
        requires held { self.now.read ≤ at + length self.now.buffer.bytes }
        requires whole { length self.now.buffer.bytes ≤ self.now.read }
        ensures byte { (haystack : List ℕ) → IsGiven self.now haystack
            → result ≡ slice_index haystack at }
    {
        let bytes = self.buffer.buffer();
        let first = self.read - bytes.len();
        bytes[at - first]
    }

    /// The bytes from where all was written up to another place: none, where that is not behind.
    fn gap(&self, end: usize) -> &[u8]
        requires read { end ≤ self.now.read }
        requires held { self.now.copied < end
            → self.now.read ≤ self.now.copied + length self.now.buffer.bytes }
        requires whole { length self.now.buffer.bytes ≤ self.now.read }
        ensures part { (haystack : List ℕ) → IsGiven self.now haystack
            → result.now ≡ slice_range haystack self.now.copied end }
    {
        if self.copied >= end {
            return &[];
        }
        self.bytes(self.copied, end)
    }

    /// Writes the first run in hand, where it ends before a place, and the bytes in front of it, and counts it. Says whether there
    /// was one.
    fn settle_one<W: Sink, P: Pieces>(
        &mut self,
        sink: &mut W,
        pieces: &mut P,
        counts: &mut [u64],
        place: usize,
    ) -> Result<bool, StreamError>
        requires sound { (at : ℕ) × IsSoundCover self.old at }
        ensures sound { OnOk result ((at : ℕ) → IsSoundCover self.old at → IsSoundCover self.new at) }
        ensures others { OnOk result
            (self.new ≡ record self.old { copied = self.new.copied; hand = self.new.hand }) }
        ensures copied { OnOk result (self.new.copied ≤ max self.old.copied place) }
        ensures fewer { result ≡ Ok true
            → length (held_runs self.new.hand) < length (held_runs self.old.hand) }
        ensures last { result ≡ Ok false → FirstEndsBehind place (held_runs self.new.hand) }
        ensures writes { OnOk result (Settles W.Sink P.Pieces sink.old sink.new counts.old counts.new
            pieces.old pieces.new place self.old self.new) }
        ensures begins { OnErr result (StopsSettling W.Sink P.Pieces sink.old sink.new
            counts.old counts.new pieces.old place self.old) }
        ensures rule { P.rule pieces.new ≡ P.rule pieces.old }
        ensures room { KeepsRoom self.old self.new }
        ensures tells { TellsWrites W.Sink sink.old sink.new result }
    {
        let Some(run) = self.hand.take_before(place) else {
            return Ok(false);
        };
        let (start, end, pattern) = (run.start(), run.end(), run.pattern());
        let rest = self.bytes(self.fed.max(start), end);
        pieces.feed(rest);
        pieces.end(pattern);
        let gap = self.gap(start);
        write_both(sink, gap, pieces.piece(pattern))?;
        pieces.begin();
        count_run(counts, &run);
        self.copied = end;
        Ok(true)
    }

    /// Writes the runs in hand that end before a place, and the bytes in front of each.
    fn settle<W: Sink, P: Pieces>(
        &mut self,
        sink: &mut W,
        pieces: &mut P,
        counts: &mut [u64],
        place: usize,
    ) -> Result<(), StreamError>
        requires sound { (at : ℕ) × IsSoundCover self.old at }
        ensures sound { OnOk result ((at : ℕ) → IsSoundCover self.old at → IsSoundCover self.new at) }
        ensures others { OnOk result
            (self.new ≡ record self.old { copied = self.new.copied; hand = self.new.hand }) }
        ensures copied { OnOk result (self.new.copied ≤ max self.old.copied place) }
        ensures last { OnOk result (FirstEndsBehind place (held_runs self.new.hand)) }
        ensures writes { OnOk result (Settles W.Sink P.Pieces sink.old sink.new counts.old counts.new
            pieces.old pieces.new place self.old self.new) }
        ensures begins { OnErr result (StopsSettling W.Sink P.Pieces sink.old sink.new
            counts.old counts.new pieces.old place self.old) }
        ensures rule { P.rule pieces.new ≡ P.rule pieces.old }
        ensures room { KeepsRoom self.old self.new }
        ensures tells { TellsWrites W.Sink sink.old sink.new result }
    {
        while self.settle_one(sink, pieces, counts, place)? {}
        Ok(())
    }

    /// Feeds the bytes of the first run in hand that the buffer may let go of: all but the last, as many as it keeps. What can be
    /// walked was walked, so no match that ends later holds any of them without all that stand behind them in the run.
    pub(crate) fn feed_first<P: Pieces>(&mut self, pieces: &mut P)
        requires sound { IsSoundCover self.old (walk_end self.old) }
        requires near { MayRoll self.old }
        ensures sound { IsSoundCover self.new (walk_end self.old) }
        ensures only { self.new ≡ record self.old { fed = self.new.fed } }
        ensures fed { HasFedFirst self.new }
        ensures feeds { FeedsFirst P.Pieces pieces.old pieces.new self.old self.new }
        ensures rule { P.rule pieces.new ≡ P.rule pieces.old }
    {
        let Some(start) = self.hand.start() else {
            return;
        };
        let kept = self.read.saturating_sub(self.buffer.min_buffer_len());
        let from = self.fed.max(start);
        if from < kept {
            pieces.feed(self.bytes(from, kept));
            self.fed = kept;
        }
    }

    /// A place, or the start of the first run in hand, where that is before it.
    fn outside_end(&self, place: usize) -> usize
        requires whole { HasItsFirst self.now.hand }
        ensures end { result ≡ outside_end place (held_runs self.now.hand) }
    {
        match self.hand.start() {
            Some(start) => place.min(start),
            None => place,
        }
    }

    /// Writes the bytes up to a place, or up to the first run in hand, where that begins before.
    fn write_outside<W: Sink>(&mut self, sink: &mut W, place: usize) -> Result<(), StreamError>
        requires sound { (at : ℕ) × IsSoundCover self.old at × (place ≤ at) }
        ensures copied { OnOk result (self.new ≡ record self.old {
          copied = max self.old.copied (outside_end place (held_runs self.old.hand));
        }) }
        ensures writes { OnOk result
            (WritesOutside W.Sink sink.old sink.new place self.old self.new) }
        ensures begins { OnErr result
            (StopsOutside W.Sink sink.old sink.new place self.old) }
        ensures room { KeepsRoom self.old self.new }
        ensures tells { TellsWrites W.Sink sink.old sink.new result }
    {
        let end = self.outside_end(place);
        write_whole(sink, self.gap(end))?;
        self.copied = self.copied.max(end);
        Ok(())
    }

    /// Writes all that is settled once `at` bytes were walked.
    pub(crate) fn write_settled<W: Sink, P: Pieces>(
        &mut self,
        sink: &mut W,
        pieces: &mut P,
        counts: &mut [u64],
        at: usize,
    ) -> Result<(), StreamError>
        requires sound { IsSoundCover self.old at }
        ensures sound { OnOk result (IsSoundCover self.new at) }
        ensures others { OnOk result
            (self.new ≡ record self.old { copied = self.new.copied; hand = self.new.hand }) }
        ensures bare { OnOk result (BareFrom self.new.copied (held_runs self.new.hand)
            (open_place self.old at)) }
        ensures writes { OnOk result (WritesOn W.Sink sink.old sink.new counts.old counts.new
            (Feeding (P.holds pieces.old) self.old (HasCovered (P.rule pieces.old) self.old at))
            (Feeding (P.holds pieces.new) self.new (HasCovered (P.rule pieces.old) self.new at))) }
        ensures begins { OnErr result (StopsAt W.Sink P.Pieces sink.old sink.new
            counts.old counts.new pieces.old self.old at) }
        ensures rule { P.rule pieces.new ≡ P.rule pieces.old }
        ensures room { KeepsRoom self.old self.new }
        ensures tells { TellsWrites W.Sink sink.old sink.new result }
    {
        let open = self.open_place(at);
        self.settle(sink, pieces, counts, open)?;
        self.write_outside(sink, open)
    }

    /// Joins a match that was told to the runs in hand, once those are written that nothing can touch any more.
    pub(crate) fn join<W: Sink, P: Pieces>(
        &mut self,
        sink: &mut W,
        pieces: &mut P,
        counts: &mut [u64],
        m: Match,
    ) -> Result<(), StreamError>
        requires sound { IsSoundCover self.old (m.end - 1) }
        requires some { m.start < m.end }
        requires read { m.end ≤ self.old.read }
        requires behind { max self.old.copied (open_place self.old (m.end - 1)) ≤ m.start }
        requires unfed { self.old.fed ≤ m.start }
        ensures sound { OnOk result (IsSoundCover self.new m.end) }
        ensures others { OnOk result
            (self.new ≡ record self.old { copied = self.new.copied; hand = self.new.hand }) }
        ensures writes { OnOk result (WritesOn W.Sink sink.old sink.new counts.old counts.new
            (Feeding (P.holds pieces.old) self.old (EndsNext (P.rule pieces.old) self.old m))
            (Feeding (P.holds pieces.new) self.new (HasCovered (P.rule pieces.old) self.new m.end))) }
        ensures begins { OnErr result (StopsAt W.Sink P.Pieces sink.old sink.new
            counts.old counts.new pieces.old self.old (m.end - 1)) }
        ensures rule { P.rule pieces.new ≡ P.rule pieces.old }
        ensures room { KeepsRoom self.old self.new }
        ensures tells { TellsWrites W.Sink sink.old sink.new result }
    {
        let open = self.open_place(m.end() - 1);
        self.settle(sink, pieces, counts, open)?;
        self.hand.add(m);
        Ok(())
    }

    /// Writes all that is left, at the end of the stream.
    pub(crate) fn finish<W: Sink, P: Pieces>(
        &mut self,
        sink: &mut W,
        pieces: &mut P,
        counts: &mut [u64],
    ) -> Result<(), StreamError>
        requires sound { IsSoundCover self.old self.old.read }
        ensures covers { OnOk result (WritesOn W.Sink sink.old sink.new counts.old counts.new
            (Feeding (P.holds pieces.old) self.old (EndsHere (P.rule pieces.old) self.old))
            (IsAll self.old.words (P.rule pieces.old))) }
        ensures begins { OnErr result (WritesOn W.Sink sink.old sink.new counts.old counts.new
            (Feeding (P.holds pieces.old) self.old (EndsHere (P.rule pieces.old) self.old))
            (IsBeginning self.old.words (P.rule pieces.old))) }
        ensures rule { P.rule pieces.new ≡ P.rule pieces.old }
        ensures room { KeepsRoom self.old self.new }
        ensures tells { TellsWrites W.Sink sink.old sink.new result }
    {
        let end = self.read;
        self.settle(sink, pieces, counts, end + 1)?;
        self.write_outside(sink, end)
    }
}
