//! One match of a haystack.

ghost use Rattle.std.specs.Prelude.{◌≡◌, ◌≢◌, ◌≤◌, length};
ghost use Rattle.chromesquid.specs.Rules.{Answers, ForItsPatterns, No, RefusesSearch, plain_search};
ghost use Rattle.chromesquid_c.specs.Holding.{ForPatternsHeld, HoldsSame, IfAnswered, IfHeld, IfRefused, IsEmpty};
ghost use Rattle.chromesquid_c.specs.Matches.{match_of};
ghost use Rattle.chromesquid_c.specs.Telling.{IsSpan, Tells, TellsIf, anchoring_by, earliest_in, search_between};

use crate::handle::CsSearcher;
use crate::options::CsMatch;
use crate::status::{DONE, FOUND, NO_SEARCHER, NO_SPAN, REFUSED};
use chromesquid::{AhoCorasick, Anchored, Input, Match, Span};

/// Whether a pattern occurs, as a number.
fn is_in(searcher: &AhoCorasick, haystack: &[u8]) -> u32
    ensures found { ForItsPatterns searcher.now (λ p. TellsIf p (earliest_in haystack.now) result) }
    ensures answered { Answers searcher.now No → result ≤ FOUND }
    ensures refused { RefusesSearch searcher.now No → result ≡ REFUSED }
{
    match searcher.try_find(Input::new(haystack).earliest(true)) {
        Ok(Some(_)) => FOUND,
        Ok(None) => DONE,
        Err(_) => REFUSED,
    }
}

/// Whether a pattern occurs in the haystack: 1, or 0.
///
/// # Errors
///
/// 2 where there is no searcher, 3 where it answers anchored searches alone.
#[unsafe(no_mangle)]
pub extern "C" fn cs_is_match(searcher: &mut CsSearcher, haystack: &[u8]) -> u32
    ensures found { ForPatternsHeld searcher.old (λ p. TellsIf p (earliest_in haystack.now) result) }
    ensures answered { IfAnswered searcher.old No (result ≤ FOUND) }
    ensures refused { IfRefused searcher.old No (result ≡ REFUSED) }
    ensures empty { IsEmpty searcher.old → result ≡ NO_SEARCHER }
    ensures same { HoldsSame searcher.old searcher.new }
{
    if searcher.full {
        is_in(&searcher.held.get().searcher, haystack)
    } else {
        NO_SEARCHER
    }
}

/// The match in C's form.
pub(crate) fn form_of(found: &Match) -> CsMatch
    ensures form { result ≡ match_of found.now }
{
    CsMatch {
        pattern: found.pattern().as_usize(),
        start: found.start(),
        end: found.end(),
    }
}

/// What the search of an input finds, as a number and a match.
fn found_by(searcher: &AhoCorasick, input: Input<'_>, found: &mut CsMatch) -> u32
    ensures found { ForItsPatterns searcher.now (λ p. Tells p input.entry result found.new) }
    ensures answered { Answers searcher.now input.entry.anchored → result ≤ FOUND }
    ensures refused { input.entry.start ≤ input.entry.end
        → RefusesSearch searcher.now input.entry.anchored → result ≡ REFUSED }
    ensures kept { result ≢ FOUND → found.new ≡ found.old }
{
    match searcher.try_find(input) {
        Ok(Some(it)) => {
            *found = form_of(&it);
            FOUND
        }
        Ok(None) => DONE,
        Err(_) => REFUSED,
    }
}

/// The first match of the haystack: 1 and the match in `found`, or 0.
///
/// # Errors
///
/// 2 where there is no searcher, 3 where it answers anchored searches alone. `found` is as it was unless 1 is answered.
#[unsafe(no_mangle)]
pub extern "C" fn cs_find(searcher: &mut CsSearcher, haystack: &[u8], found: &mut CsMatch) -> u32
    ensures found { ForPatternsHeld searcher.old (λ p.
        Tells p (plain_search haystack.now) result found.new) }
    ensures answered { IfAnswered searcher.old No (result ≤ FOUND) }
    ensures refused { IfRefused searcher.old No (result ≡ REFUSED) }
    ensures empty { IsEmpty searcher.old → result ≡ NO_SEARCHER }
    ensures kept { result ≢ FOUND → found.new ≡ found.old }
    ensures same { HoldsSame searcher.old searcher.new }
{
    if searcher.full {
        found_by(&searcher.held.get().searcher, Input::new(haystack), found)
    } else {
        NO_SEARCHER
    }
}

/// The anchoring by C's word for it.
pub(crate) fn anchoring_of(anchored: bool) -> Anchored
    ensures same { result ≡ anchoring_by anchored }
{
    if anchored {
        Anchored::Yes
    } else {
        Anchored::No
    }
}

/// What the search of a span finds: 1 and the match in `found`, or 0. A match lies in the span; where `anchored` it begins where
/// the span does; where `earliest` it is the one that ends first.
///
/// # Errors
///
/// 2 where there is no searcher; else 4 where `start` is above `end` or `end` above the haystack's length; else 3 where the
/// searcher was not built for searches of this anchoring. `found` is as it was unless 1 is answered.
#[unsafe(no_mangle)]
pub extern "C" fn cs_search(
    searcher: &mut CsSearcher,
    haystack: &[u8],
    start: usize,
    end: usize,
    anchored: bool,
    earliest: bool,
    found: &mut CsMatch,
) -> u32
    ensures found { ForPatternsHeld searcher.old (λ p. Tells p
        (search_between start end anchored earliest haystack.now) result found.new) }
    ensures answered { IsSpan start end haystack.now
        → IfAnswered searcher.old (anchoring_by anchored) (result ≤ FOUND) }
    ensures refused { IsSpan start end haystack.now
        → IfRefused searcher.old (anchoring_by anchored) (result ≡ REFUSED) }
    ensures no_span { (IsSpan start end haystack.now → ⊥)
        → IfHeld searcher.old (λ _. result ≡ NO_SPAN) }
    ensures empty { IsEmpty searcher.old → result ≡ NO_SEARCHER }
    ensures kept { result ≢ FOUND → found.new ≡ found.old }
    ensures same { HoldsSame searcher.old searcher.new }
{
    if !searcher.full {
        return NO_SEARCHER;
    }
    if start > end || end > haystack.len() {
        return NO_SPAN;
    }
    let input = Input::new(haystack)
        .span(Span { start, end })
        .anchored(anchoring_of(anchored))
        .earliest(earliest);
    found_by(&searcher.held.get().searcher, input, found)
}
