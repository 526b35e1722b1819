//! The search for one match of several in a text, by one who keeps his patience with the prefilter from search to search.

ghost use Rattle.std.specs.Prelude.{◌≡◌, ℕ, ◌+◌, ◌-◌, ◌*◌, ◌<◌, ◌≤◌, ◌^◌, IsOk, IfOk, IfErr, Ok, Err, None, Some, length};
ghost use Rattle.aho_core.specs.Answer.{IsAnswer};
ghost use Rattle.aho_core.specs.Patterns.{Patterns};
ghost use Rattle.aho_core.specs.Search.{search_of};
ghost use Rattle.aho_core.specs.declared.error.MatchErrorKind.{MatchErrorKind};
ghost use Rattle.aho_automaton.specs.Effects.{Costs, CostsNothing, ReadsNoFurther, Untouched};

use crate::find::find_begun;
use crate::patience::Patience;
use crate::walk::Walk;
use aho_core::error::MatchError;
use aho_core::search::{Anchored, Match, Span};
use aho_prefilter::text::Text;

/// The match that `find_in` finds, with what the searches before have left of the patience with the prefilter: for one who
/// searches a text piece by piece, as the iterators do. No answer depends on it.
///
/// # Errors
///
/// As those of `find_in`.
pub fn find_in_by<W: Walk, T: Text>(
    walk: &mut W,
    text: &mut T,
    span: Span,
    anchored: Anchored,
    earliest: bool,
    patience: &mut Patience,
) -> Result<Option<Match>, MatchError>
    requires within { span.end ≤ length (T.bytes text.old) }
    requires ordered { span.start ≤ span.end + 1 }
    requires unread { T.next text.old ≤ span.start }
    requires room { W.lookups walk.old + 2 * (span.end - span.start) < 2 ^ 128 }
    requires of { (p : Patterns) × W.Of.is_of (W.of walk.old) p }

    // What it answers, and when it is refused.
    ensures found { (p : Patterns) → W.Of.is_of (W.of walk.old) p →
        IfOk result (IsAnswer p (search_of (T.bytes text.old) span anchored earliest)) }
    ensures error { IfErr result (λ reason. W.Of.start (W.of walk.old) anchored ≡ Err reason) }
    ensures ok { (sid : ℕ) → W.Of.start (W.of walk.old) anchored ≡ Ok sid → IsOk result }
    ensures refused { (e : MatchErrorKind) → span.start ≤ span.end →
        W.Of.start (W.of walk.old) anchored ≡ Err e → result ≡ Err e }
    ensures done { span.end < span.start → result ≡ Ok None }

    // What stays, and what it costs: at most two look-ups for each byte that it reads.
    ensures untouched { Untouched W.Walk T.Text walk.old walk.new text.old text.new }
    ensures costs { Costs W.Walk T.Text walk.old walk.new text.old text.new span.start }
    ensures cost_of_span { W.lookups walk.new ≤ W.lookups walk.old + 2 * (span.end - span.start) }

    // How far it reads: no byte comes again, and none is read far past what it finds.
    ensures reads { ReadsNoFurther W.Of.Automaton (W.of walk.old) T.Text text.old text.new
        (search_of (T.bytes text.old) span anchored earliest) (λ m. result ≡ Ok (Some m)) }

    // A search that is refused or done reads nothing and looks nothing up.
    ensures refused_free { IfErr result (λ _.
        CostsNothing W.Walk T.Text walk.old walk.new text.old text.new) }
    ensures done_free { span.end < span.start →
        CostsNothing W.Walk T.Text walk.old walk.new text.old text.new }
{
    if span.start > span.end {
        return Ok(None);
    }
    let sid = walk.start_state(anchored)?;
    Ok(find_begun(walk, text, span, anchored, earliest, patience, sid))
}
