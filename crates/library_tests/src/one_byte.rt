//! The automaton of one byte answers as it is set.

use crate::asserts::assert_same;
use aho_automaton::automaton::Automaton;
use aho_core::error::MatchErrorKind;
use aho_core::search::{Anchored, Input, MatchKind, PatternID, Span};
use bench::one_byte::OneByte;
use std::test::Fail;

#[test]
fn finds_its_byte(rt: HostRuntime) -> Result<(), Fail> {
    let one = OneByte::new(b'c');
    let found = one.try_find(&Input::new(b"abcc"))?;
    let found = found.map(|m| (m.pattern().as_usize(), m.start(), m.end()));
    assert_same(&rt, found, Some((0, 2, 3)));
    assert!(rt; one.try_find(&Input::new(b"ab"))?.is_none());
    Ok(())
}

#[test]
fn anchored_searches_are_refused(rt: HostRuntime) -> Result<(), Fail> {
    let one = OneByte::new(b'c');
    let anchored = Input::new(b"c").anchored(Anchored::Yes);
    let refusal = one.try_find(&anchored).map_err(|error| *error.kind());
    assert_same(&rt, refusal, Err(MatchErrorKind::InvalidInputAnchored));
    let done = anchored.span(Span { start: 1, end: 0 });
    assert!(rt; one.try_find(&done)?.is_none());
    Ok(())
}

#[test]
fn its_pattern_is_told(rt: HostRuntime) -> Result<(), Fail> {
    let one = OneByte::new(b'c');
    let start = one.start_state(Anchored::No)?;
    let found = one.next_state(Anchored::No, start, b'c');
    assert!(rt; one.is_start(start) && !one.is_start(found));
    assert!(rt; one.is_match(found) && !one.is_match(start));
    assert!(rt; one.is_special(found) && !one.is_dead(found));
    assert_eq!(rt; one.match_len(found), 1);
    assert_same(&rt, one.match_pattern(found, 0).as_usize(), 0);
    assert_same(&rt, one.match_kind(), MatchKind::Standard);
    assert_eq!(rt; one.patterns_len(), 1);
    assert_same(&rt, one.pattern_len(PatternID::new(0)?), 1);
    assert_same(&rt, (one.min_pattern_len(), one.max_pattern_len()), (1, 1));
    assert_same(&rt, one.memory_usage(), 1);
    Ok(())
}
