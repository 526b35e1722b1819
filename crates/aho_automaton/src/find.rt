//! The search for one match: one walk along the span, with the best match so far in hand.
//!
//! # What the walk keeps
//!
//! After the bytes from `start` to `at`, `sid` is the state that is held after these bytes, and `best` is the best of
//! all matches that lie in them, or none where there is none.
//!
//! One more byte means one step of the automaton, and at most one more match to look at: the one that the next state
//! tells. It is the first pattern that the state lists, and it ends where the byte did; an anchored search takes it
//! only if it starts where the span does. The laws of the automaton say that the better of the two, the best so far
//! and the one told now, is the best of all again, and `better` says which of the two that is:
//!
//! - for `Standard` the best so far, where there is one, since it ends first;
//! - for the leftmost kinds the one told now, where there is one: once such an automaton has found a match, its states
//!   list only what is better.
//!
//! # Where it stops
//!
//! - At its first match, for `Standard` and where the earliest match is wanted: no match ends sooner, and of those that
//!   end there the state tells the best.
//! - At a dead state: whatever follows, the best stays.
//! - At the end of the span.
//!
//! A state that is not special is neither dead nor tells a match, so it is passed over after one test.
//!
//! # Where it skips
//!
//! Unanchored, and where the automaton holds a prefilter, the search asks it for a candidate at its beginning. Nothing of
//! the span starts before a candidate, so the walk begins there. Once it is led to a start with nothing found it waits:
//! what ends later starts there or later, so a candidate of the rest is the next place to begin at. No other state says
//! that, and none is skipped from but where nothing was found as far as the longest pattern from a candidate on: whatever starts
//! there has ended, so the walk goes on at the next candidate, if that one lies further. A candidate that is a whole match is the answer, unless the earliest is wanted: then the
//! walk begins where that match starts, since it need not end first.
//!
//! # What it costs
//!
//! A step may look up many transitions, but each look-up past the second leads one state back towards the start. So
//! look-ups are paid by depth: with each byte, the look-ups so far and the state's depth grow together by at most two.
//! The depth is 0 at the start and never less. So a walk makes at most two look-ups for each byte that it reads.

ghost use Rattle.std.specs.Prelude.{◌≡◌, ℕ, [], ◌+◌, ◌-◌, ◌*◌, ◌<◌, ◌≤◌, ◌^◌, IsOk, IfOk, IfErr, Ok, Err, None, Some, IsSome, Result, length, false, true};
ghost use Rattle.aho_core.specs.Answer.{IsAnswer};
ghost use Rattle.aho_core.specs.Laws.{Fits, first_is_answer, told};
ghost use Rattle.aho_core.specs.Patterns.{Patterns};
ghost use Rattle.aho_core.specs.Search.{search_of};
ghost use Rattle.aho_core.specs.declared.error.MatchErrorKind.{MatchErrorKind};
ghost use Rattle.aho_core.specs.declared.search.Anchored.TheVariants.{No};
ghost use Rattle.aho_prefilter.specs.Candidate.{IsCandidate};
ghost use Rattle.aho_automaton.specs.Effects.{BeginsIn, Costs, CostsNothing, ReadsNoFurther, Untouched};
ghost use Rattle.aho_automaton.specs.WalkEnds.{AnswersSearch, NoneLonger, ResumesAt, WaitsFor, WaitsOnlyIf, WaitsWithin};
ghost use Rattle.aho_automaton.specs.declared.find.WalkEnd.TheVariants.{Answer};

use crate::patience::Patience;
use crate::walk::Walk;
use aho_core::error::MatchError;
use aho_core::search::{Anchored, Match, MatchKind, Span, StateID};
use aho_prefilter::prefilter::Candidate;
use aho_prefilter::text::Text;

/// The match that a state tells at a place of a search from `start`: the first pattern that it lists, which ends there.
///
/// An anchored search takes it only where it is as long as what was read.
pub fn told_at<W: Walk>(
    walk: &W,
    anchored: Anchored,
    sid: StateID,
    start: usize,
    at: usize,
) -> Option<Match>
    requires valid { W.Of.valid (W.of walk.now) sid }
    requires ordered { start ≤ at }
    requires fits { Fits (W.Of.lengths (W.of walk.now)) (at - start)
        (W.Of.list (W.of walk.now) sid) }
    ensures told { result ≡ told (W.Of.lengths (W.of walk.now)) anchored start at
        (W.Of.list (W.of walk.now) sid) }
{
    if !walk.is_match(sid) {
        return None;
    }
    let pattern = walk.match_pattern(sid, 0);
    let len = walk.pattern_len(pattern);
    if anchored == Anchored::Yes && len != at - start {
        return None;
    }
    let range = Span {
        start: at - len,
        end: at,
    };
    Some(Match::new(pattern, range))
}

/// Whether a search answers its first match: always under `Standard`, else where the earliest is wanted.
fn stops_at_first<W: Walk>(walk: &W, earliest: bool) -> bool
    ensures first { result ≡ first_is_answer (W.Of.kind (W.of walk.now)) earliest }
{
    match walk.match_kind() {
        MatchKind::Standard => true,
        MatchKind::LeftmostFirst | MatchKind::LeftmostLongest => earliest,
    }
}

/// Whether a walk has to look at a state: one that may wait at each special state, since a start may be one, and any other
/// at the marked ones.
#[inline(always)]
pub fn looks_at<W: Walk>(walk: &W, may_wait: bool, sid: StateID) -> bool
    requires valid { W.Of.valid (W.of walk.now) sid }
    ensures plain { result ≡ false → (W.Of.dead (W.of walk.now) sid ≡ false)
        × (W.Of.list (W.of walk.now) sid ≡ []) }
{
    if may_wait {
        walk.is_special(sid)
    } else {
        walk.is_marked(sid)
    }
}

/// How a walk ends.
#[derive(Clone, Copy)]
enum WalkEnd {
    /// With the search's answer.
    Answer(Option<Match>),
    /// At the first of these places, with nothing found: no match starts before the second one.
    Waits(usize, usize),
}

/// Whether a walk that may wait waits in a state.
fn waits_in<W: Walk>(walk: &W, may_wait: bool, best: &Option<Match>, sid: StateID) -> bool
    requires valid { W.Of.valid (W.of walk.now) sid }
    ensures waits { result ≡ true → (may_wait ≡ true) × (best.now ≡ None)
        × (W.Of.starts (W.of walk.now) sid ≡ true) }
{
    may_wait && best.is_none() && walk.is_start(sid)
}

/// Where a walk goes on that has come to a place with nothing found and may wait: the first place behind `last` where a match may
/// start, once all that starts there or before has ended. But it is a place that was walked over where it cannot skip any.
#[inline(always)]
fn resumes_at<W: Walk, T: Text>(
    walk: &W,
    text: &T,
    may_wait: bool,
    best: &Option<Match>,
    reach: usize,
    last: usize,
    walked: Span,
) -> usize
    requires held { may_wait ≡ true → IsSome (W.Of.prefilter (W.of walk.now)) }
    requires past { last < walked.start }
    requires ordered { walked.start ≤ walked.end }
    requires within { walked.end ≤ length (T.bytes text.now) }
    ensures resumes { (p : Patterns) → W.Of.is_of (W.of walk.now) p →
        ResumesAt p (T.bytes text.now) may_wait best.now reach last walked result }
    ensures forward { (p : Patterns) → W.Of.is_of (W.of walk.now) p → last ≤ result }
{
    if !may_wait {
        return last;
    }
    if best.is_some() {
        return last;
    }
    if walked.start - last < reach {
        return last;
    }
    let behind = Span {
        start: last + 1,
        end: walked.end,
    };
    match candidate_in(walk, text, behind).into_option() {
        Some(place) => place.max(walked.start - 1),
        None => walked.end,
    }
}

/// Whether a walk waits in starts: one that may wait, unless it rests.
#[inline(always)]
fn waits_in_starts(may_wait: bool, rests: bool) -> bool
    ensures only { result ≡ true → may_wait ≡ true }
{
    may_wait && !rests
}

/// Where a walk asks next for a candidate, past the beginning of what it has still to read: once so many bytes have passed since the
/// last one, or never.
#[inline(always)]
fn asks_at(asks: bool, last: usize, reach: usize, walked: Span) -> usize
    requires ordered { walked.start < walked.end }
    ensures later { walked.start < result }
    ensures within { result ≤ walked.end }
{
    if !asks {
        return walked.end;
    }
    last.saturating_add(reach)
        .max(walked.start + 1)
        .min(walked.end)
}

/// The walk of a search from a state that is held after no byte, over the bytes of a span that is not done.
///
/// Where it may wait, it ends in the first start that it is led to with nothing found, unless it rests, or where `reach`, which no
/// match is longer than, lets it go on at a later candidate. The clauses on its answer are those of `find_in`, which says what they mean.
#[inline(always)]
fn find_from<W: Walk, T: Text>(
    walk: &mut W,
    text: &mut T,
    span: Span,
    anchored: Anchored,
    earliest: bool,
    may_wait: bool,
    rests: bool,
    reach: usize,
    patience: &mut Patience,
    mut sid: StateID,
) -> WalkEnd
    requires within { span.end ≤ length (T.bytes text.old) }
    requires ordered { span.start ≤ span.end }
    requires unread { T.next text.old ≤ span.start }
    requires room { W.lookups walk.old + 2 * (span.end - span.start) < 2 ^ 128 }
    requires of { (p : Patterns) × W.Of.is_of (W.of walk.old) p }
    requires begins { BeginsIn W.Of.Automaton (W.of walk.old) anchored sid }
    requires unanchored { may_wait ≡ true → anchored ≡ No }
    requires held { may_wait ≡ true → IsSome (W.Of.prefilter (W.of walk.old)) }
    requires reach { may_wait ≡ true → (p : Patterns) → W.Of.is_of (W.of walk.old) p →
        NoneLonger p (T.bytes text.old) span.start span.end reach }
    ensures found { (p : Patterns) → W.Of.is_of (W.of walk.old) p →
        AnswersSearch p (search_of (T.bytes text.old) span anchored earliest) result }
    ensures may_wait { WaitsOnlyIf may_wait result }
    ensures waits_within { WaitsWithin span.start span.end (T.next text.new) result }
    ensures waits_for { (p : Patterns) → W.Of.is_of (W.of walk.old) p →
        WaitsFor p (T.bytes text.old) span.start span.end result }
    ensures untouched { Untouched W.Walk T.Text walk.old walk.new text.old text.new }
    ensures costs { Costs W.Walk T.Text walk.old walk.new text.old text.new span.start }
    ensures reads { ReadsNoFurther W.Of.Automaton (W.of walk.old) T.Text text.old text.new
        (search_of (T.bytes text.old) span anchored earliest) (λ m. result ≡ Answer (Some m)) }
{
    let Span { start, end } = span;
    let stops = stops_at_first(walk, earliest);
    let mut best = told_at(walk, anchored, sid, start, start);
    if stops && best.is_some() {
        return WalkEnd::Answer(best);
    }
    let waits = waits_in_starts(may_wait, rests);
    let mut last = start;
    let mut from = start;
    while from < end {
        let unread = Span { start: from, end };
        let due = asks_at(
            may_wait && best.is_none(),
            last,
            patience.pace(reach),
            unread,
        );
        for at in from..due {
            let byte = text.byte(at);
            sid = walk.step(anchored, sid, byte);
            if looks_at(walk, waits, sid) {
                if walk.is_dead(sid) {
                    return WalkEnd::Answer(best);
                }
                if let Some(m) = told_at(walk, anchored, sid, start, at + 1) {
                    best = Some(m);
                    if stops {
                        return WalkEnd::Answer(best);
                    }
                } else if waits_in(walk, waits, &best, sid) {
                    return WalkEnd::Waits(at + 1, at + 1);
                }
            }
        }
        from = due;
        let rest = Span { start: due, end };
        last = resumes_at(walk, text, may_wait, &best, reach, last, rest);
        if last >= due {
            return WalkEnd::Waits(due, last);
        }
        patience.spend(0);
    }
    WalkEnd::Answer(best)
}

/// The answer of a walk over a span that is not done, which does not wait.
///
/// Its clauses are those of `find_in`.
#[inline(always)]
fn find_to_end<W: Walk, T: Text>(
    walk: &mut W,
    text: &mut T,
    span: Span,
    anchored: Anchored,
    earliest: bool,
    sid: StateID,
) -> Option<Match>
    requires within { span.end ≤ length (T.bytes text.old) }
    requires ordered { span.start ≤ span.end }
    requires unread { T.next text.old ≤ span.start }
    requires room { W.lookups walk.old + 2 * (span.end - span.start) < 2 ^ 128 }
    requires of { (p : Patterns) × W.Of.is_of (W.of walk.old) p }
    requires begins { BeginsIn W.Of.Automaton (W.of walk.old) anchored sid }
    ensures found { (p : Patterns) → W.Of.is_of (W.of walk.old) p →
        IsAnswer p (search_of (T.bytes text.old) span anchored earliest) result }
    ensures untouched { Untouched W.Walk T.Text walk.old walk.new text.old text.new }
    ensures costs { Costs W.Walk T.Text walk.old walk.new text.old text.new span.start }
    ensures reads { ReadsNoFurther W.Of.Automaton (W.of walk.old) T.Text text.old text.new
        (search_of (T.bytes text.old) span anchored earliest) (λ m. result ≡ Some m) }
{
    let mut fresh = Patience::new();
    match find_from(
        walk, text, span, anchored, earliest, false, false, 0, &mut fresh, sid,
    ) {
        WalkEnd::Answer(found) => found,
        WalkEnd::Waits(_, _) => unreachable!(),
    }
}

/// A walk that rests: it waits in no start, and asks for a candidate once it has no patience left to regain.
///
/// Its clauses are those of `find_from`.
#[inline(always)]
fn find_resting<W: Walk, T: Text>(
    walk: &mut W,
    text: &mut T,
    span: Span,
    earliest: bool,
    reach: usize,
    patience: &mut Patience,
    sid: StateID,
) -> WalkEnd
    requires within { span.end ≤ length (T.bytes text.old) }
    requires ordered { span.start ≤ span.end }
    requires unread { T.next text.old ≤ span.start }
    requires room { W.lookups walk.old + 2 * (span.end - span.start) < 2 ^ 128 }
    requires of { (p : Patterns) × W.Of.is_of (W.of walk.old) p }
    requires begins { BeginsIn W.Of.Automaton (W.of walk.old) No sid }
    requires held { IsSome (W.Of.prefilter (W.of walk.old)) }
    requires reach { (p : Patterns) → W.Of.is_of (W.of walk.old) p →
        NoneLonger p (T.bytes text.old) span.start span.end reach }
    ensures found { (p : Patterns) → W.Of.is_of (W.of walk.old) p →
        AnswersSearch p (search_of (T.bytes text.old) span No earliest) result }
    ensures waits_within { WaitsWithin span.start span.end (T.next text.new) result }
    ensures waits_for { (p : Patterns) → W.Of.is_of (W.of walk.old) p →
        WaitsFor p (T.bytes text.old) span.start span.end result }
    ensures untouched { Untouched W.Walk T.Text walk.old walk.new text.old text.new }
    ensures costs { Costs W.Walk T.Text walk.old walk.new text.old text.new span.start }
    ensures reads { ReadsNoFurther W.Of.Automaton (W.of walk.old) T.Text text.old text.new
        (search_of (T.bytes text.old) span No earliest) (λ m. result ≡ Answer (Some m)) }
{
    let start = span.start;
    let walked = find_from(
        walk,
        text,
        span,
        Anchored::No,
        earliest,
        true,
        true,
        reach,
        patience,
        sid,
    );
    let to = match &walked {
        WalkEnd::Answer(Some(m)) => m.end(),
        WalkEnd::Answer(None) => start,
        WalkEnd::Waits(from, _) => *from,
    };
    patience.rest(to.wrapping_sub(start));
    walked
}

/// Whether a search skips by the automaton's prefilter: no anchored one does.
fn skips<W: Walk>(walk: &W, anchored: Anchored) -> bool
    ensures unanchored { result ≡ true → anchored ≡ No }
    ensures held { result ≡ true → IsSome (W.Of.prefilter (W.of walk.now)) }
{
    anchored == Anchored::No && walk.prefilter().is_some()
}

/// What the automaton's prefilter answers for a span.
fn candidate_in<W: Walk, T: Text>(walk: &W, text: &T, span: Span) -> Candidate
    requires held { IsSome (W.Of.prefilter (W.of walk.now)) }
    requires ordered { span.start ≤ span.end }
    requires within { span.end ≤ length (T.bytes text.now) }
    ensures candidate { (p : Patterns) → W.Of.is_of (W.of walk.now) p →
        IsCandidate p (T.bytes text.now) span.start span.end result }
{
    match walk.prefilter() {
        Some(prefilter) => text.candidate(prefilter, span),
        None => unreachable!(),
    }
}

/// What an unanchored search answers that skips to the next candidate at its beginning and wherever its walk waits, as long
/// as its patience lasts.
///
/// Its clauses are those of `find_in`.
fn find_skipping<W: Walk, T: Text>(
    walk: &mut W,
    text: &mut T,
    span: Span,
    earliest: bool,
    reach: usize,
    patience: &mut Patience,
    sid: StateID,
) -> Option<Match>
    requires reach { (p : Patterns) → W.Of.is_of (W.of walk.old) p →
        NoneLonger p (T.bytes text.old) span.start span.end reach }
    requires held { IsSome (W.Of.prefilter (W.of walk.old)) }
    requires within { span.end ≤ length (T.bytes text.old) }
    requires ordered { span.start ≤ span.end }
    requires unread { T.next text.old ≤ span.start }
    requires room { W.lookups walk.old + 2 * (span.end - span.start) < 2 ^ 128 }
    requires of { (p : Patterns) × W.Of.is_of (W.of walk.old) p }
    requires begins { BeginsIn W.Of.Automaton (W.of walk.old) No sid }
    ensures found { (p : Patterns) → W.Of.is_of (W.of walk.old) p →
        IsAnswer p (search_of (T.bytes text.old) span No earliest) result }
    ensures untouched { Untouched W.Walk T.Text walk.old walk.new text.old text.new }
    ensures costs { Costs W.Walk T.Text walk.old walk.new text.old text.new span.start }
    ensures reads { ReadsNoFurther W.Of.Automaton (W.of walk.old) T.Text text.old text.new
        (search_of (T.bytes text.old) span No earliest) (λ m. result ≡ Some m) }
{
    let Span { start, end } = span;
    let mut at = start;
    let mut walked = start;
    'skips: loop {
        if patience.is_out() {
            let part = Span { start: at, end };
            match find_resting(walk, text, part, earliest, reach, patience, sid) {
                WalkEnd::Answer(found) => return found,
                WalkEnd::Waits(from, place) => {
                    walked = from;
                    at = place;
                    continue 'skips;
                }
            }
        }
        let candidate = candidate_in(walk, text, Span { start: at, end });
        if let Candidate::Match(found) = &candidate {
            if !earliest {
                patience.spend(found.start().wrapping_sub(walked));
                return Some(*found);
            }
        }
        let Some(origin) = candidate.into_option() else {
            return None;
        };
        patience.spend(origin.wrapping_sub(walked));
        let part = Span { start: origin, end };
        match find_from(
            walk,
            text,
            part,
            Anchored::No,
            earliest,
            true,
            false,
            reach,
            patience,
            sid,
        ) {
            WalkEnd::Answer(found) => return found,
            WalkEnd::Waits(from, place) => {
                walked = from;
                at = place;
            }
        }
    }
}

/// What a search of a span that is not done answers, from a state in which one begins.
///
/// Its clauses are those of `find_in`.
#[inline(always)]
pub(crate) fn find_begun<W: Walk, T: Text>(
    walk: &mut W,
    text: &mut T,
    span: Span,
    anchored: Anchored,
    earliest: bool,
    patience: &mut Patience,
    sid: StateID,
) -> Option<Match>
    requires within { span.end ≤ length (T.bytes text.old) }
    requires ordered { span.start ≤ span.end }
    requires unread { T.next text.old ≤ span.start }
    requires room { W.lookups walk.old + 2 * (span.end - span.start) < 2 ^ 128 }
    requires of { (p : Patterns) × W.Of.is_of (W.of walk.old) p }
    requires begins { BeginsIn W.Of.Automaton (W.of walk.old) anchored sid }
    ensures found { (p : Patterns) → W.Of.is_of (W.of walk.old) p →
        IsAnswer p (search_of (T.bytes text.old) span anchored earliest) result }
    ensures untouched { Untouched W.Walk T.Text walk.old walk.new text.old text.new }
    ensures costs { Costs W.Walk T.Text walk.old walk.new text.old text.new span.start }
    ensures reads { ReadsNoFurther W.Of.Automaton (W.of walk.old) T.Text text.old text.new
        (search_of (T.bytes text.old) span anchored earliest) (λ m. result ≡ Some m) }
{
    if skips(walk, anchored) {
        let reach = walk.max_pattern_len();
        return find_skipping(walk, text, span, earliest, reach, patience, sid);
    }
    find_to_end(walk, text, span, anchored, earliest, sid)
}

/// The match that the search of a span finds, by a walk that reads each byte at most once and takes no memory. This is the
/// search: `try_find` is one call of it.
///
/// An unanchored search skips by the automaton's prefilter, where one is held. What the prefilter reads is not counted, and
/// no answer depends on it.
///
/// A span whose start is above its end is done: nothing is found, and nothing is read.
///
/// # Errors
///
/// It is refused exactly where `start_state` refuses `anchored` and the span is not done.
pub fn find_in<W: Walk, T: Text>(
    walk: &mut W,
    text: &mut T,
    span: Span,
    anchored: Anchored,
    earliest: bool,
) -> Result<Option<Match>, MatchError>
    requires within { span.end ≤ length (T.bytes text.old) }
    requires ordered { span.start ≤ span.end + 1 }
    requires unread { T.next text.old ≤ span.start }
    requires room { W.lookups walk.old + 2 * (span.end - span.start) < 2 ^ 128 }
    requires of { (p : Patterns) × W.Of.is_of (W.of walk.old) p }

    // What it answers, and when it is refused.
    ensures found { (p : Patterns) → W.Of.is_of (W.of walk.old) p →
        IfOk result (IsAnswer p (search_of (T.bytes text.old) span anchored earliest)) }
    ensures error { IfErr result (λ reason. W.Of.start (W.of walk.old) anchored ≡ Err reason) }
    ensures ok { (sid : ℕ) → W.Of.start (W.of walk.old) anchored ≡ Ok sid → IsOk result }
    ensures refused { (e : MatchErrorKind) → span.start ≤ span.end →
        W.Of.start (W.of walk.old) anchored ≡ Err e → result ≡ Err e }
    ensures done { span.end < span.start → result ≡ Ok None }

    // What stays, and what it costs: at most two look-ups for each byte that it reads.
    ensures untouched { Untouched W.Walk T.Text walk.old walk.new text.old text.new }
    ensures costs { Costs W.Walk T.Text walk.old walk.new text.old text.new span.start }
    ensures cost_of_span { W.lookups walk.new ≤ W.lookups walk.old + 2 * (span.end - span.start) }

    // How far it reads: no byte comes again, and none is read far past what it finds.
    ensures reads { ReadsNoFurther W.Of.Automaton (W.of walk.old) T.Text text.old text.new
        (search_of (T.bytes text.old) span anchored earliest) (λ m. result ≡ Ok (Some m)) }

    // A search that is refused or done reads nothing and looks nothing up.
    ensures refused_free { IfErr result (λ _.
        CostsNothing W.Walk T.Text walk.old walk.new text.old text.new) }
    ensures done_free { span.end < span.start →
        CostsNothing W.Walk T.Text walk.old walk.new text.old text.new }
{
    if span.start > span.end {
        return Ok(None);
    }
    let sid = walk.start_state(anchored)?;
    let mut patience = Patience::new();
    Ok(find_begun(walk, text, span, anchored, earliest, &mut patience, sid))
}
