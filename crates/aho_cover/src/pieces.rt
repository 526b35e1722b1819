//! What a cover writes in the place of its runs.

ghost use Rattle.std.specs.Prelude.{◌≡◌, ◌++◌, ℕ, List, []};
ghost use Rattle.std.specs.Prelude.{slice_index_or};
ghost use Rattle.aho_core.specs.Replacement.{pieces_of};
ghost use Rattle.aho_cover.specs.Pieces.{PieceRule, fixed_rule};

use crate::output::piece_of;
use aho_core::search::PatternID;

/// What makes the piece of each run, of the number of the run's pattern and of its bytes.
///
/// The bytes of a run come in order and in parts, so that a run may be longer than any buffer. For each run a cover calls `begin`,
/// then `feed` any number of times, then `end`, and then `piece`.
pub trait Pieces {
    /// The piece of a run, by the number of its pattern and its bytes.
    ghost rule: { Self → PieceRule };

    /// These bytes of a run were fed.
    ghost holds: { Self → List ℕ → Type 0 };

    /// The piece that was made, for a pattern.
    ghost made: { Self → ℕ → List ℕ };

    /// A run begins: none of its bytes was fed.
    fn begin(&mut self)
        ensures none { holds self.new [] }
        ensures same { rule self.new ≡ rule self.old };

    /// Takes more bytes of the run.
    fn feed(&mut self, bytes: &[u8])
        ensures more { (fed : List ℕ) → holds self.old fed → holds self.new (fed ++ bytes.now) }
        ensures same { rule self.new ≡ rule self.old };

    /// The run has ended, and all its bytes were fed: makes its piece.
    fn end(&mut self, pattern: PatternID)
        ensures made { (fed : List ℕ) → holds self.old fed
            → made self.new pattern ≡ rule self.old pattern fed }
        ensures same { rule self.new ≡ rule self.old };

    /// The piece of the run that has ended, and is of this pattern.
    fn piece(&self, pattern: PatternID) -> &[u8]
        ensures piece { result.now ≡ made self.now pattern };
}

/// One piece for each pattern, whatever the bytes of a run are.
#[derive(Drop)]
pub struct PatternPieces<'a, 'b> {
    pub(crate) pieces: &'a [&'b [u8]],
}

impl<'a, 'b> PatternPieces<'a, 'b> {
    /// These pieces, in the order of the patterns. A pattern without a piece has an empty one.
    pub fn new(pieces: &'a [&'b [u8]]) -> PatternPieces<'a, 'b>
        ensures pieces { result.pieces.now ≡ pieces.entry.now }
    {
        PatternPieces { pieces }
    }
}

impl Pieces for PatternPieces<'_, '_> {
    ghost rule = { λ s. fixed_rule (pieces_of s.pieces.now) };

    ghost holds = { λ s fed. Unit {0} };

    ghost made = { λ s number. slice_index_or (pieces_of s.pieces.now) number [] };

    #[inline(always)]
    fn begin(&mut self) {}

    #[inline(always)]
    fn feed(&mut self, _bytes: &[u8]) {}

    #[inline(always)]
    fn end(&mut self, _pattern: PatternID) {}

    #[inline(always)]
    fn piece(&self, pattern: PatternID) -> &[u8] {
        piece_of(self.pieces, pattern)
    }
}
