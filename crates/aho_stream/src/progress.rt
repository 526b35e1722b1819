//! How far a search of a stream has come: numbers, and the bytes that the buffer holds.

ghost use Rattle.std.specs.Prelude.{◌≡◌, ◌+◌, ◌<◌, ◌≤◌, ◌^◌, ◌⊎◌, ◌||◌, min, ℕ, List, Some, None, IfOk, IfErr, OnErr, length, slice_range, is_err, true, false, Err};
ghost use Rattle.aho_devices.specs.Counts.{counted};
ghost use Rattle.aho_devices.specs.Buffer.{saw_end};
ghost use Rattle.aho_devices.specs.Refusals.{is_read_fault, IsFillRefusal};
ghost use Rattle.aho_stream.specs.After.{EndsWith, ForGiven, unbegun, given_on, passed_on, reported_to};
ghost use Rattle.aho_stream.specs.Chunks.{match_told};
ghost use Rattle.aho_stream.specs.Refills.{Refills, is_limit};
ghost use Rattle.aho_stream.specs.declared.progress.StreamPiece.TheVariants.{NonMatch};

use aho_automaton::patience::{PATIENCE, patience_after};
use aho_core::error::StreamError;
use aho_core::search::{Match, Span, StateID};
use aho_devices::buffer::Buffer;
use aho_devices::device::{Sink, Source};

/// What a call of `advance` tells, without its bytes.
#[derive(Clone, Copy)]
pub enum StreamPiece {
    /// Bytes outside of every match.
    NonMatch,
    /// The bytes of a match.
    Match {
        /// The match. Its places count from the first byte of the stream.
        mat: Match,
    },
}

impl StreamPiece {
    /// The match that it tells.
    pub fn found(&self) -> Option<Match>
        ensures found { result ≡ match_told self.now }
    {
        match self {
            StreamPiece::NonMatch => None,
            StreamPiece::Match { mat } => Some(*mat),
        }
    }
}

/// How far a search of a stream has come. Places count from the first byte that the source gave.
#[derive(Drop)]
pub struct StreamProgress {
    /// The last bytes that were given.
    pub(crate) buffer: Buffer,
    /// How many bytes were given.
    pub(crate) read: u64,
    /// How many bytes may be given.
    pub(crate) limit: u64,
    /// The end of the last match told.
    pub(crate) from: u64,
    /// Where the search under way begins: the end of the last match told, or a later place before which nothing begins.
    pub(crate) origin: u64,
    /// The start of the last chunk told.
    pub(crate) told: u64,
    /// The end of the last chunk told.
    pub(crate) reported: u64,
    /// The place up to which the automaton walked.
    pub(crate) walked: u64,
    /// How many bytes it walked in all: what was skipped is not among them.
    pub(crate) position: u128,
    /// The state that is held after the bytes from `origin` to `walked`.
    pub(crate) sid: StateID,
    /// The state in which each search begins.
    pub(crate) start: StateID,
    /// The best match in these bytes, which was not told yet. Its places count from `origin`.
    pub(crate) in_hand: Option<Match>,
    /// What is left of the patience with which candidates of a prefilter are asked for. Each read renews it.
    pub(crate) patience: usize,
    /// Whether the end of the stream was seen.
    pub(crate) ended: bool,
    /// Whether the position limit was answered.
    pub(crate) refused: bool,
}

impl StreamProgress {
    /// Nothing was given yet.
    pub(crate) fn new(buffer: Buffer, start: StateID, limit: u64) -> StreamProgress
        ensures made { result ≡ unbegun buffer start limit }
    {
        StreamProgress {
            buffer,
            read: 0,
            limit,
            from: 0,
            origin: 0,
            told: 0,
            reported: 0,
            walked: 0,
            position: 0,
            sid: start,
            start,
            in_hand: None,
            patience: 0,
            ended: false,
            refused: false,
        }
    }

    /// The bytes from one place up to another, of those that are held.
    pub(crate) fn bytes(&self, start: u64, end: u64) -> &[u8]
        requires ordered { start ≤ end }
        requires read { end ≤ self.now.read }
        requires held { self.now.read ≤ start + length self.now.buffer.bytes }
        requires whole { length self.now.buffer.bytes ≤ self.now.read }
        ensures part { ForGiven self.now (λ given. result.now ≡ slice_range given start end) }
    {
        let bytes = self.buffer.buffer();
        let first = self.read - bytes.len() as u64;
        &bytes[(start - first) as usize..(end - first) as usize]
    }

    /// Tells the bytes up to a place, where any are left before it.
    pub(crate) fn report(&mut self, end: u64) -> Option<StreamPiece>
        ensures some { self.old.reported < end → (result ≡ Some NonMatch)
            × (self.new ≡ reported_to self.old end) }
        ensures none { end ≤ self.old.reported → (result ≡ None) × (self.new ≡ self.old) }
    {
        if end <= self.reported {
            return None;
        }
        self.told = self.reported;
        self.reported = end;
        Some(StreamPiece::NonMatch)
    }

    /// Passes over so many bytes that were not walked: the search under way begins behind them.
    pub(crate) fn pass(&mut self, count: usize)
        requires room { self.old.walked + count < 2 ^ 64 }
        ensures moved { self.new ≡ passed_on self.old count self.new.patience }
    {
        self.walked += count as u64;
        self.origin = self.walked;
        self.patience = patience_after(self.patience, count);
    }

    /// Tells a match in hand: the next search begins at its end.
    pub(crate) fn give(&mut self, m: Match) -> Match
        requires ordered { m.start ≤ m.end }
        requires room { self.old.origin + m.end < 2 ^ 64 }
        ensures placed { result ≡ record {
          pattern = m.pattern;
          start = self.old.origin + m.start;
          end = self.old.origin + m.end;
        } }
        ensures moved { self.new ≡ given_on self.old m }
    {
        let start = self.origin + m.start() as u64;
        let end = self.origin + m.end() as u64;
        self.told = start;
        self.reported = end;
        self.from = end;
        self.origin = end;
        self.walked = end;
        self.sid = self.start;
        self.in_hand = None;
        let range = Span {
            start: start as usize,
            end: end as usize,
        };
        Match::new(m.pattern(), range)
    }

    /// Reads once, behind the bytes that are kept. Where it is refused, what was read before stays. The sink shows that all
    /// that was told by now was written and flushed.
    #[tactic(auto, using(crate::proofs::Refilled::refilled))]
    pub(crate) fn refill<R: Source, W: Sink>(
        &mut self,
        source: &mut R,
        _sink: &W,
    ) -> Result<(), StreamError>
        requires flushed { W.flushed _sink.now ≡ true }
        requires limited { self.old.read ≤ self.old.limit }
        requires open { self.old.ended ≡ false }
        requires below { self.old.refused ≡ false }
        ensures refills { Refills self.old self.new (R.remaining source.old) (R.remaining source.new) }
        ensures more { result ≡ Ok tt → (self.old.read < self.new.read) ⊎ (self.new.ended ≡ true) }
        ensures open { OnErr result (self.new.ended ≡ false) }
        ensures one_read { (self.new.ended || is_err result) ≡ true → self.new.read ≡ self.old.read }
        ensures ended { R.empty_reads source.new
            ≡ counted self.new.ended (R.empty_reads source.old) }
        ensures read_failed { R.failures source.new
            ≡ counted (is_read_fault result) (R.failures source.old) }
        ensures refused { self.new.refused ≡ is_limit result }
        ensures limit { is_limit result ≡ true → self.old.read ≡ self.old.limit }
        ensures only { IfErr result IsFillRefusal }
    {
        self.patience = PATIENCE;
        make_room(&mut self.buffer);
        let held = self.buffer.buffer().len();
        let filled = self.buffer.fill_once(source, self.limit - self.read);
        self.read += (self.buffer.buffer().len() - held) as u64;
        match filled {
            Ok(filled) => {
                self.ended = filled.ended;
                Ok(())
            }
            Err(error) => {
                self.refused = is_position_limit(&error);
                Err(error)
            }
        }
    }
}

/// Whether the position limit was met.
fn is_position_limit(error: &StreamError) -> bool
    ensures limit { result ≡ is_limit {A = Unit {0}} (Err error.now) }
{
    matches!(error, StreamError::PositionLimit)
}

/// Lets go of all but the last bytes of a buffer, where it holds more than it has to keep.
pub(crate) fn make_room(buffer: &mut Buffer)
    ensures free { length buffer.new.bytes < buffer.new.size }
    ensures last { (given : List ℕ) → EndsWith given buffer.old.bytes → EndsWith given buffer.new.bytes }
    ensures kept { length buffer.new.bytes ≡ min buffer.old.least (length buffer.old.bytes) }
    ensures least { buffer.new.least ≡ buffer.old.least }
    ensures size { buffer.new.size ≡ buffer.old.size }
{
    buffer.facts();
    if buffer.buffer().len() >= buffer.min_buffer_len() {
        buffer.roll();
    }
}
