//! What the impls of std's traits answer, each the contract of a function. `Drop` has no meaning to state.

ghost use Rattle.aho_core.specs.Impls.{ClonesTheSame};

use crate::chunks::StreamChunk;
use crate::progress::StreamPiece;

/// A clone is its original, in all of its fields, and is never refused.
pub fn clones_the_same()
    ensures piece { ClonesTheSame ⟦<StreamPiece as Clone>⟧ }
    ensures chunk { ClonesTheSame ⟦<StreamChunk<'static> as Clone>⟧ }
{}
