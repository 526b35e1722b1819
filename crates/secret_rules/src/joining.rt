//! Runs: some occurrences, joined where they overlap or touch.

ghost use Rattle.std.specs.Prelude.{◌≡◌, ◌↔◌, ◌++◌, ◌∷◌, [], ◌<◌, ◌≤◌, IfOk, IfSome, IsTrue, OnOk, max};
ghost use Rattle.std.specs.List.Sorted.{IsNonDecreasingBy};
ghost use Rattle.aho_core.specs.Cover.{AreRunsOf};
ghost use Rattle.aho_core.specs.Listing.{IsMember};
ghost use Rattle.aho_core.specs.Occurrence.{Occurrence};
ghost use Rattle.secret_rules.specs.Joining.{Beats, IsGrown, JoinsOne, closed, opened, with_hand};

use aho_core::search::{Match, Span};
use std::alloc::AllocError;

/// Puts occurrences into the order in which they start.
fn put_in_order(found: &mut Vec<Match>)
    ensures order { IsNonDecreasingBy (λ (m : Occurrence). m.start) found.new.items }
    ensures same { (m : Occurrence) → IsMember found.new.items m ↔ IsMember found.old.items m }
{
    found.sort_unstable_by_key(|m| m.start());
}

/// A run that is being joined.
#[derive(Clone, Copy)]
struct Open {
    /// The longest occurrence that begins where it does, of equally long ones the first by number.
    longest: Match,
    /// Where it ends, so far.
    end: usize,
}

/// An occurrence as a run of its own.
fn opened(m: &Match) -> Open
    ensures { result ≡ opened m.now }
{
    let end = m.end();
    Open { longest: *m, end }
}

/// The run as it is told.
fn closed(hand: &Open) -> Match
    requires ordered { hand.now.longest.start ≤ hand.now.end }
    ensures { result ≡ closed hand.now }
{
    let range = Span {
        start: hand.longest.start(),
        end: hand.end,
    };
    Match::new(hand.longest.pattern(), range)
}

/// Whether an occurrence begins where another does, and is longer, or as long and of a smaller number.
fn beats(m: &Match, longest: &Match) -> bool
    ensures { IsTrue result ↔ Beats m.now longest.now }
{
    if m.start() != longest.start() || m.end() < longest.end() {
        return false;
    }
    m.end() > longest.end() || m.pattern().as_usize() < longest.pattern().as_usize()
}

/// The one that begins where a run does and is the longest, of the longest so far and of one more.
fn longer(longest: &Match, m: &Match) -> Match
    ensures named { Beats m.now longest.now → result ≡ m.now }
    ensures kept { (Beats m.now longest.now → ⊥) → result ≡ longest.now }
{
    if beats(m, longest) {
        return *m;
    }
    *longest
}

/// The farther of two places.
fn farther(one: usize, other: usize) -> usize
    ensures { result ≡ max one other }
{
    one.max(other)
}

/// The run with an occurrence that touches it.
fn grown(hand: &Open, m: &Match) -> Open
    ensures { IsGrown hand.now m.now result }
{
    let longest = longer(&hand.longest, m);
    let end = farther(hand.end, m.end());
    Open { longest, end }
}

/// Joins one more occurrence, which starts behind all others or where they do.
fn join_one(hand: &Option<Open>, m: &Match, runs: &mut Vec<Match>) -> Result<Open, AllocError>
    requires ordered { IfSome hand.now (λ hand. hand.longest.start ≤ hand.end) }
    ensures joins { IfOk result (JoinsOne hand.now m.now runs.old.items runs.new.items) }
{
    match hand {
        None => Ok(opened(m)),
        Some(hand) => {
            if m.start() <= hand.end {
                return Ok(grown(hand, m));
            }
            runs.push(closed(hand))?;
            Ok(opened(m))
        }
    }
}

/// Adds the run in hand, if there is one.
fn push_last(hand: &Option<Open>, runs: &mut Vec<Match>) -> Result<(), AllocError>
    requires ordered { IfSome hand.now (λ hand. hand.longest.start ≤ hand.end) }
    ensures pushed { OnOk result (runs.new.items ≡ with_hand runs.old.items hand.now) }
{
    if let Some(hand) = hand {
        runs.push(closed(hand))?;
    }
    Ok(())
}

/// Gives the runs of some occurrences, none of which is empty. These are put into order.
pub(crate) fn join(found: &mut Vec<Match>, runs: &mut Vec<Match>) -> Result<(), AllocError>
    requires full { (m : Occurrence) → IsMember found.old.items m → m.start < m.end }
    ensures runs { OnOk result (AreRunsOf (IsMember found.old.items) runs.new.items) }
{
    put_in_order(found);
    runs.clear();
    let mut hand = None;
    for m in found.as_slice() {
        hand = Some(join_one(&hand, m, runs)?);
    }
    push_last(&hand, runs)
}
