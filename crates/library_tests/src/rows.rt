//! Worked rows: what a search answers, what iteration gives and what an overlapping search lists, for words that a reader
//! can check by hand. One table; the test goes over it with the plain program and with the automaton.

ghost use Rattle.std.specs.Prelude.{◌+◌, ◌≤◌, length};
ghost use Rattle.aho_core.specs.Patterns.{Patterns};

use crate::asserts::{assert_in, assert_same_in};
use crate::automata::{DEPTHS, nfa_of, nfa_with, relinked_of};
use crate::levels::levels_of;
use crate::overlaps::{found_by_calls, found_by_iterator};
use crate::worked::{Found, ROWS, Row, Want};
use aho_automaton::automaton::Automaton;
use aho_core::search::{Anchored, Input, Match, MatchKind, PatternID, Span};
use bench::listing::{all, anchored, finds};
use bench::pattern_set::PatternSet;
use bench::plain::plain;
use bench::relinked::Relinked;
use std::alloc::{AllocError, Global};
use std::process::Abort;
use std::test::Fail;

/// How many states of a `Levels` have rows at most.
const MOST_ROWS: [usize; 3] = [0, 3, usize::MAX];

fn found_of(m: Match) -> Found {
    (m.pattern().as_usize(), m.start(), m.end())
}

fn all_found(alloc: Global, matches: &[Match]) -> Result<Vec<Found>, AllocError> {
    let mut found = Vec::new(alloc);
    for m in matches {
        found.push(found_of(*m))?;
    }
    Ok(found)
}

fn span_of(row: &Row) -> Span {
    match row.span {
        Some(span) => span,
        None => Span {
            start: 0,
            end: row.haystack.len(),
        },
    }
}

fn input_of(row: &Row, span: Span) -> Input<'static>
    requires within { span.end ≤ length row.now.haystack.now }
    requires ordered { span.start ≤ span.end + 1 }
{
    Input::new(row.haystack)
        .span(span)
        .anchored(row.anchored)
        .earliest(row.earliest)
}

/// The matches that are wanted of a row beside its answer, as the plain program has them.
fn listed(
    alloc: Global,
    row: &Row,
    patterns: &PatternSet<'_>,
    input: Input<'_>,
) -> Result<Vec<Found>, AllocError> {
    let (haystack, span) = (input.haystack(), input.get_span());
    let matches = match (&row.want, row.anchored) {
        (Want::First(_), _) => Vec::new(alloc),
        (Want::Finds(_), _) => finds(alloc, patterns, input)?,
        (Want::Listing(_), Anchored::No) => all(alloc, patterns, haystack, span)?,
        (Want::Listing(_), Anchored::Yes) => anchored(alloc, patterns, haystack, span)?,
    };
    all_found(alloc, &matches)
}

/// What iteration over the automaton gives.
fn iterated<A: Automaton>(
    alloc: Global,
    row: &Row,
    automaton: &A,
    input: Input<'_>,
) -> Result<Vec<Found>, Fail>
    requires of { (p : Patterns) × A.is_of automaton.now p }
{
    match row.want {
        Want::Finds(_) => {
            let found: Vec<Match> = automaton.try_find_iter(input)?.collect(alloc)?;
            Ok(all_found(alloc, &found)?)
        }
        Want::First(_) | Want::Listing(_) => Ok(Vec::new(alloc)),
    }
}

/// Whether iteration over the automaton is to give this.
fn is_iterated(row: &Row, found: &[Found]) -> bool {
    match row.want {
        Want::Finds(want) => found == want,
        Want::First(_) | Want::Listing(_) => found.is_empty(),
    }
}

/// Whether this is what is wanted of a row.
fn is_wanted(row: &Row, answer: Option<Found>, listed: &[Found]) -> bool {
    match row.want {
        Want::First(want) => answer == want,
        Want::Finds(want) => listed == want && answer == want.first().copied(),
        Want::Listing(want) => listed == want,
    }
}

/// The automaton lists what is wanted of a row whose listing is wanted, by its calls and, where it is not anchored, by
/// its iterator.
fn is_listed<A: Automaton>(
    rt: &impl Abort,
    alloc: Global,
    row: &Row,
    automaton: &A,
    input: Input<'_>,
) -> Result<(), Fail>
    requires of { (p : Patterns) × A.is_of automaton.now p }
{
    let Want::Listing(want) = row.want else {
        return Ok(());
    };
    let by_calls = all_found(alloc, &found_by_calls(rt, alloc, automaton, &input)?)?;
    assert_same_in(rt, &row, by_calls.as_slice(), want);
    if row.anchored == Anchored::No {
        let by_iterator = all_found(alloc, &found_by_iterator(rt, alloc, automaton, input)?)?;
        assert_same_in(rt, &row, by_iterator.as_slice(), want);
    }
    Ok(())
}

/// The plain program answers and lists what is wanted of a row.
fn is_met_plainly(
    rt: &impl Abort,
    alloc: Global,
    row: &Row,
    patterns: &PatternSet<'_>,
    kind: MatchKind,
    input: Input<'_>,
) -> Result<(), AllocError> {
    let found = plain(patterns, &input).map(found_of);
    let listed = listed(alloc, row, patterns, input)?;
    let is_wanted = is_wanted(row, found, &listed);
    assert_in(rt, (&kind, &row, &found, &listed), is_wanted);
    Ok(())
}

/// Iteration over the automaton gives what is wanted of a row.
fn is_met_by_iteration<A: Automaton>(
    rt: &impl Abort,
    alloc: Global,
    row: &Row,
    kind: MatchKind,
    automaton: &A,
    input: Input<'_>,
) -> Result<(), Fail>
    requires of { (p : Patterns) × A.is_of automaton.now p }
{
    let iterated = iterated(alloc, row, automaton, input)?;
    let is_wanted = is_iterated(row, &iterated);
    assert_in(rt, (&kind, &row, &iterated, "by iteration"), is_wanted);
    Ok(())
}

/// The plain program and the automaton answer what is wanted of a row, at one match kind.
fn row_is_met<A: Automaton>(
    rt: &impl Abort,
    alloc: Global,
    row: &Row,
    kind: MatchKind,
    automaton: &A,
) -> Result<(), Fail>
    requires of { (p : Patterns) × A.is_of automaton.now p }
{
    let span = span_of(row);
    assert!(rt; row.patterns.len() <= PatternID::MAX.as_usize());
    assert!(rt; span.end <= row.haystack.len());
    assert!(rt; span.start <= span.end + 1);
    let patterns = PatternSet::new(row.patterns, kind, row.ignore_case);
    let input = input_of(row, span);
    let answer = plain(&patterns, &input);
    assert_same_in(rt, (&kind, &row), automaton.try_find(&input)?, answer);
    is_met_plainly(rt, alloc, row, &patterns, kind, input)?;
    is_listed(rt, alloc, row, automaton, input_of(row, span))?;
    is_met_by_iteration(rt, alloc, row, kind, automaton, input_of(row, span))
}

/// An automaton with rows up to this depth meets a row.
fn row_is_met_at(
    rt: &impl Abort,
    alloc: Global,
    row: &Row,
    kind: MatchKind,
    (depth, prefilter): (usize, bool),
) -> Result<(), Fail> {
    let (words, ignore_case) = (row.patterns, row.ignore_case);
    let nfa = nfa_with(rt, alloc, words, kind, ignore_case, prefilter, depth);
    row_is_met(rt, alloc, row, kind, &nfa)
}

/// The automaton of a row's patterns that is made of what another one tells.
fn relinked_of_row(rt: &impl Abort, alloc: Global, row: &Row, kind: MatchKind) -> Relinked
    ensures of { (p : Patterns) × ⟦<Relinked as Automaton>⟧.is_of result p }
{
    let nfa = nfa_of(rt, alloc, row.patterns, kind, row.ignore_case);
    relinked_of(rt, alloc, &nfa)
}

/// An automaton of sorted patterns, with so many rows at most, meets a row.
fn row_is_met_by_levels(
    rt: &impl Abort,
    alloc: Global,
    row: &Row,
    kind: MatchKind,
    most_rows: usize,
) -> Result<(), Fail> {
    let levels = levels_of(rt, alloc, row.patterns, kind, row.ignore_case, most_rows);
    row_is_met(rt, alloc, row, kind, &levels)
}

/// Every automaton of a row's patterns at this match kind meets it.
fn row_is_met_by_all(
    rt: &impl Abort,
    alloc: Global,
    row: &Row,
    kind: MatchKind,
) -> Result<(), Fail> {
    for depth in DEPTHS {
        row_is_met_at(rt, alloc, row, kind, (depth, true))?;
        row_is_met_at(rt, alloc, row, kind, (depth, false))?;
    }
    for most_rows in MOST_ROWS {
        row_is_met_by_levels(rt, alloc, row, kind, most_rows)?;
    }
    let relinked = relinked_of_row(rt, alloc, row, kind);
    row_is_met(rt, alloc, row, kind, &relinked)
}

#[test]
fn rows_are_met(rt: HostRuntime) -> Result<(), Fail> {
    for row in ROWS {
        for kind in row.kinds {
            row_is_met_by_all(&rt, rt.alloc(), row, *kind)?;
        }
    }
    Ok(())
}
