//! All finds of a text, by a walk backward over one block after another.
//!
//! A block is walked from its end to its begin, and before that as many bytes behind it as the longest pattern has: what begins
//! in the block ends among these. So the state at each place tells the best pattern that begins there. One pass forward over the
//! block then takes the finds: where a pattern begins it is a find, and the pass goes on behind it; elsewhere one place further.
//! The next block begins where the pass has ended.
//!
//! A block has at least as many places as the longest pattern has bytes, so at most twice as many bytes are walked for it; the last
//! block has none behind it. A walk makes at most two look-ups for each byte. So all look-ups together are at most four for each
//! byte of the text, whatever the patterns are and wherever they match.

ghost use Rattle.std.specs.Prelude.{◌≡◌, ◌+◌, ◌*◌, ◌<◌, ◌≤◌, ◌^◌, IfOk, IsOk, length};
ghost use Rattle.aho_core.specs.declared.search.Anchored.TheVariants.{No};
ghost use Rattle.aho_core.specs.Laws.{longest};
ghost use Rattle.aho_core.specs.Patterns.{Patterns};
ghost use Rattle.aho_backward.specs.Backward.{ForTurnedFinds, IsTurnedFrom};

use crate::choose::choose;
use crate::walk_back::walk_back;
use aho_automaton::walk::Walk;
use aho_core::search::{Anchored, Match, PatternID, Span};
use std::alloc::{AllocError, Global};

/// How many places a block has at least.
const BLOCK: usize = 65_536;

/// The finds of a haystack, by blocks of so many places.
#[inline(always)]
pub(crate) fn find_by_blocks<W: Walk>(
    alloc: Global,
    walk: &mut W,
    given: &[PatternID],
    reach: usize,
    places: usize,
    haystack: &[u8],
) -> Result<Vec<Match>, AllocError>
    requires of { (p : Patterns) × IsTurnedFrom W.Of.Automaton (W.of walk.old) given.now p }
    requires starts { IsOk (W.Of.start (W.of walk.old) No) }
    requires reach { longest (W.Of.lengths (W.of walk.old)) ≤ reach }
    requires wide { reach ≤ places }
    requires some { 0 < places }
    requires room { W.lookups walk.old + 4 * length haystack.now < 2 ^ 128 }
    ensures found { ForTurnedFinds W.Of.Automaton (W.of walk.old) given.now haystack.now
        (λ all. IfOk result (λ found. all found.items)) }
    ensures same { W.of walk.new ≡ W.of walk.old }
    ensures costs { W.lookups walk.new ≤ W.lookups walk.old + 4 * length haystack.now }
{
    let start = walk.start_state(Anchored::No).unwrap();
    let mut states = Vec::new(alloc);
    let mut found = Vec::new(alloc);
    let mut at = 0;
    while at < haystack.len() {
        let end = at + places.min(haystack.len() - at);
        let seen = end + reach.min(haystack.len() - end);
        walk_back(walk, start, &haystack[at..seen], &mut states)?;
        let block = Span { start: at, end };
        at = choose(walk, given, &states, block, &mut found)?;
    }
    Ok(found)
}

/// All finds of a haystack, as iteration gives them one after another, by an automaton of the patterns turned round.
///
/// The look-ups are at most four for each byte of the haystack, whatever the patterns are. `reach` is the longest pattern's length,
/// or more. Beside the finds it takes memory for a state for each place of a block, and of the bytes behind it: four bytes for
/// each of 65536 places, or of `reach` places where that is more, and for each of `reach` places again.
///
/// # Errors
///
/// Out of memory.
pub fn find_all_in<W: Walk>(
    alloc: Global,
    walk: &mut W,
    given: &[PatternID],
    reach: usize,
    haystack: &[u8],
) -> Result<Vec<Match>, AllocError>
    requires of { (p : Patterns) × IsTurnedFrom W.Of.Automaton (W.of walk.old) given.now p }
    requires starts { IsOk (W.Of.start (W.of walk.old) No) }
    requires reach { longest (W.Of.lengths (W.of walk.old)) ≤ reach }
    requires room { W.lookups walk.old + 4 * length haystack.now < 2 ^ 128 }
    ensures found { ForTurnedFinds W.Of.Automaton (W.of walk.old) given.now haystack.now
        (λ all. IfOk result (λ found. all found.items)) }
    ensures same { W.of walk.new ≡ W.of walk.old }
    ensures costs { W.lookups walk.new ≤ W.lookups walk.old + 4 * length haystack.now }
{
    find_by_blocks(alloc, walk, given, reach, BLOCK.max(reach), haystack)
}
