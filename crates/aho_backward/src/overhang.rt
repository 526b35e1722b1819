//! When a walk backward is worth it: by how many bytes a pattern goes on behind another one that occurs in it.

ghost use Rattle.std.specs.Prelude.{◌≡◌, ◌<◌, ◌≤◌, ℕ, IsOk, length};
ghost use Rattle.aho_core.specs.Patterns.{Patterns, pattern_at};
ghost use Rattle.aho_core.specs.Replacement.{pieces_of};
ghost use Rattle.aho_core.specs.declared.search.Anchored.TheVariants.{No};
ghost use Rattle.aho_backward.specs.Overhang.{HasBehind, IsAbove, IsOverhang};

use aho_automaton::automaton::Automaton;
use aho_core::search::Input;

/// How many bytes of a pattern stand behind the first place where some pattern that occurs in it ends.
fn overhang_of<A: Automaton>(automaton: &A, pattern: &[u8]) -> usize
    requires of { (p : Patterns) × A.is_of automaton.now p }
    requires starts { IsOk (A.start automaton.now No) }
    ensures some { (p : Patterns) (number : ℕ) → A.is_of automaton.now p → number < length p.words
        → pattern_at p number ≡ pattern.now → HasBehind p number result }
    ensures most { (p : Patterns) (number count : ℕ) → A.is_of automaton.now p
        → number < length p.words → pattern_at p number ≡ pattern.now
        → HasBehind p number count → count ≤ result }
{
    let input = Input::new(pattern).earliest(true);
    match automaton.try_find(&input).unwrap() {
        Some(m) => pattern.len() - m.end(),
        None => 0,
    }
}

/// The most bytes by which some pattern goes on behind the end of another one that occurs in it, and 0 where no pattern ends
/// inside of another one. The automaton is one of these patterns, of any kind.
///
/// An iteration by a leftmost kind reads at most so many bytes again for each match, and one more. So where this is great,
/// `Backward` is worth its memory. It looks up at most two transitions for each byte of the patterns.
pub fn longest_overhang<A: Automaton>(automaton: &A, patterns: &[&[u8]]) -> usize
    requires of { (p : Patterns) × A.is_of automaton.now p }
    requires starts { IsOk (A.start automaton.now No) }
    ensures overhang { (p : Patterns) → A.is_of automaton.now p
        → p.words ≡ pieces_of patterns.now → IsOverhang p result }
{
    let mut most = 0;
    for pattern in patterns {
        most = most.max(overhang_of(automaton, pattern));
    }
    most
}

/// The greatest overhang with which a walk backward is not worth it.
pub const WORTH: usize = 64;

/// Whether a walk backward is worth it for these patterns: whether some pattern goes on by more than `WORTH` bytes behind the end
/// of another one that occurs in it. The automaton is one of these patterns, of any kind.
pub fn is_worth_it<A: Automaton>(automaton: &A, patterns: &[&[u8]]) -> bool
    requires of { (p : Patterns) × A.is_of automaton.now p }
    requires starts { IsOk (A.start automaton.now No) }
    ensures worth { (p : Patterns) → A.is_of automaton.now p
        → p.words ≡ pieces_of patterns.now → IsAbove WORTH p result }
{
    longest_overhang(automaton, patterns) > WORTH
}
