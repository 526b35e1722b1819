//! The phases of a build, in their order.

ghost use Rattle.std.specs.Prelude.{IfOk, IfErr};
ghost use Rattle.std.specs.Iterator.{IsFinite};
ghost use Rattle.aho_build.specs.Items.{IsFailure, OfAccepted};
ghost use Rattle.aho_build.specs.Made.{IsMade};

pub mod borders;
pub mod compiled;
pub mod dense;
pub mod failure;
pub mod prefilter;
pub mod shuffle;
pub mod starts;
pub mod trie;

use crate::settings::Settings;
use aho_core::error::BuildError;
pub use compiled::Compiled;
use std::alloc::Global;

/// The automaton of these patterns, which are numbered from 0 on as they come.
///
/// # Errors
///
/// The first that the limits refuse of what is asked for: for each pattern in turn its number (`PatternIDOverflow`), its
/// length in bytes (`PatternTooLong`), and the indexes of its states, transitions and match (`StateIDOverflow`); after the
/// last pattern the indexes of the anchored start's matches, the starts of the dense rows, and the indexes of the copied
/// matches. Or `OutOfMemory`, at any time.
pub fn compile<'p, I: Iterator<Item = &'p [u8]> + Drop>(
    alloc: Global,
    settings: &Settings,
    patterns: I,
) -> Result<Compiled, BuildError>
    requires can { I.can_next patterns }
    requires ends { IsFinite (I.remaining patterns) }
    ensures built { IfOk result (λ compiled.
        OfAccepted I.next_gives patterns settings.now (IsMade settings.now compiled)) }
    ensures refused { IfErr result (IsFailure I.next_gives patterns settings.now) }
{
    let mut trie = trie::build_trie(alloc, settings, patterns)?;
    let classes = trie.borders.byte_classes();
    let table = &mut trie.table;
    failure::set_anchored_start_state(table)?;
    table.facts();
    failure::add_unanchored_start_state_loop(table, settings.kind)?;
    // No transition is set behind it, so no row is forgotten; and the links are followed through the rows.
    dense::densify(table, classes, settings.dense_depth)?;
    failure::fill_failure_transitions(alloc, table, settings.kind)?;
    trie.table.facts();
    let Ok(prefilter) = trie.prefilter.build() else {
        return Err(BuildError::OutOfMemory);
    };
    let Ok(special) = shuffle::shuffle(alloc, &mut trie.table, prefilter.is_some()) else {
        return Err(BuildError::OutOfMemory);
    };
    Ok(Compiled {
        table: trie.table,
        pattern_lens: trie.lens,
        special,
        prefilter,
    })
}
