//! The calls that search, step and tell of an automaton. None of them takes memory.

ghost use Rattle.std.specs.Prelude.{◌≡◌, ◌<◌, length};
ghost use Rattle.aho_core.specs.Patterns.{Patterns};

use crate::answers::Answers;
use aho_automaton::automaton::{Automaton, Counted, OverlappingState, find_in};
use aho_core::search::{Anchored, Input, MatchKind, PatternID, Span, StateID, Work};
use aho_prefilter::text::Bytes;

/// A text in which patterns stand that nest, overlap and break off.
pub const TEXT: &[u8] = b"zabcdefghz xbcabx abcabcdef";

/// All calls of an automaton.
pub fn all<A: Automaton>(automaton: &A, answers: &mut Answers)
    requires of { (p : Patterns) × A.is_of automaton.now p }
{
    for anchored in [Anchored::No, Anchored::Yes] {
        for earliest in [false, true] {
            searches(automaton, anchored, earliest, answers);
        }
        overlaps(automaton, anchored, answers);
        steps(automaton, anchored, answers);
    }
    lists(automaton, answers);
    tells(automaton, answers);
    asks_the_prefilter(automaton, answers);
}

/// One search, a counted one, and iteration.
fn searches<A: Automaton>(automaton: &A, anchored: Anchored, earliest: bool, answers: &mut Answers)
    requires of { (p : Patterns) × A.is_of automaton.now p }
{
    let input = Input::new(TEXT).anchored(anchored).earliest(earliest);
    answers.tell_search(automaton.try_find(&input));
    let mut walk = Counted::new(automaton);
    let mut text = Bytes::new(TEXT);
    let span = Span {
        start: 0,
        end: TEXT.len(),
    };
    answers.tell_search(find_in(&mut walk, &mut text, span, anchored, earliest));
    answers.tell(walk.lookups() as u64 as usize);
    finds(automaton, anchored, earliest, answers);
}

/// Iteration, to its end.
fn finds<A: Automaton>(automaton: &A, anchored: Anchored, earliest: bool, answers: &mut Answers)
    requires of { (p : Patterns) × A.is_of automaton.now p }
{
    let input = Input::new(TEXT).anchored(anchored).earliest(earliest);
    let Ok(matches) = automaton.try_find_iter(input) else {
        return answers.tell(usize::MAX);
    };
    for m in matches {
        answers.tell_match(Some(m));
    }
}

/// The first call of an overlapping search, which may be refused. Those behind it are the listing's.
fn overlaps<A: Automaton>(automaton: &A, anchored: Anchored, answers: &mut Answers)
    requires of { (p : Patterns) × A.is_of automaton.now p }
{
    let input = Input::new(TEXT).anchored(anchored);
    let mut state = OverlappingState::start();
    let searched = automaton.try_find_overlapping(&input, &mut state);
    answers.tell_whether(searched.is_ok());
    answers.tell_match(state.get_match());
}

/// The listing of all occurrences, to its end.
fn lists<A: Automaton>(automaton: &A, answers: &mut Answers)
    requires of { (p : Patterns) × A.is_of automaton.now p }
{
    let Ok(matches) = automaton.try_find_overlapping_iter(Input::new(TEXT)) else {
        return answers.tell(usize::MAX);
    };
    for m in matches {
        answers.tell_match(Some(m));
    }
}

/// The steps over the text, and what each state tells.
fn steps<A: Automaton>(automaton: &A, anchored: Anchored, answers: &mut Answers) {
    let Ok(start) = automaton.start_state(anchored) else {
        return answers.tell(usize::MAX);
    };
    let mut sid = start;
    for byte in TEXT {
        sid = automaton.next_state(anchored, sid, *byte);
        state_tells(automaton, sid, answers);
    }
    answers.tell(looks_of_a_step(automaton, anchored, start));
}

/// The look-ups of one counted step from a start.
fn looks_of_a_step<A: Automaton>(automaton: &A, anchored: Anchored, start: StateID) -> usize
    requires valid { A.valid automaton.now start }
    requires shallow { A.depth automaton.now start ≡ 0 }
{
    let mut work = Work::new();
    let _next = automaton.step(anchored, start, b'a', &mut work);
    work.count() as u64 as usize
}

/// What a state tells.
fn state_tells<A: Automaton>(automaton: &A, sid: StateID, answers: &mut Answers)
    requires valid { A.valid automaton.now sid }
{
    answers.tell(sid.as_usize());
    answers.tell_whether(automaton.is_special(sid));
    answers.tell_whether(automaton.is_marked(sid));
    answers.tell_whether(automaton.is_dead(sid));
    answers.tell_whether(automaton.is_match(sid));
    answers.tell_whether(automaton.is_start(sid));
    answers.tell(automaton.reach_back(sid));
    for index in 0..automaton.match_len(sid) {
        answers.tell(automaton.match_pattern(sid, index).as_usize());
    }
}

/// What an automaton tells of itself.
fn tells<A: Automaton>(automaton: &A, answers: &mut Answers)
    requires of { (p : Patterns) × A.is_of automaton.now p }
{
    answers.tell_whether(automaton.match_kind() == MatchKind::Standard);
    answers.tell(automaton.min_pattern_len());
    answers.tell(automaton.max_pattern_len());
    answers.tell(automaton.memory_usage());
    answers.tell(automaton.patterns_len());
    if automaton.patterns_len() > 0 {
        answers.tell(automaton.pattern_len(PatternID::new_unchecked(0)));
    }
}

/// What the prefilter that is held answers.
fn asks_the_prefilter<A: Automaton>(automaton: &A, answers: &mut Answers) {
    let span = Span {
        start: 0,
        end: TEXT.len(),
    };
    match automaton.prefilter() {
        Some(held) => match held.find_in(TEXT, span).into_option() {
            Some(start) => answers.tell(start),
            None => answers.tell(usize::MAX),
        },
        None => answers.tell(usize::MAX - 1),
    }
}
