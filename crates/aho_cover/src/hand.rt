//! The runs in hand of a cover, with the first one apart, so that it can be looked at.

ghost use Rattle.std.specs.Prelude.{◌≡◌, ◌+◌, ◌/◌, ◌<◌, ◌≤◌, [], ◌∷◌, None, IfOk, IfSome, length};
ghost use Rattle.std.specs.VecDeque.{deque_capacity};
ghost use Rattle.std.specs.Option.{option_map};
ghost use Rattle.aho_laws.specs.CoverLaws.{AreInOrder, extended, joined_runs};
ghost use Rattle.aho_cover.specs.Hand.{FirstEndsBehind, HasItsFirst, first_start, held_runs, room_in};

use aho_automaton::open_runs::OpenRuns;
use aho_core::search::{Match, Span};
use std::alloc::{AllocError, Global};

/// A run, and a match that touches it and ends behind it, as one run.
fn grown(run: &Match, m: &Match) -> Match
    requires ordered { run.now.start ≤ m.now.end }
    ensures grown { result ≡ extended run.now m.now }
{
    if run.start() >= m.start() {
        return *m;
    }
    let range = Span {
        start: run.start(),
        end: m.end(),
    };
    Match::new(run.pattern(), range)
}

/// Takes all runs, and keeps the room.
fn clear(runs: &mut OpenRuns)
    ensures none { runs.new.runs.items ≡ [] }
    ensures same_room { deque_capacity runs.new.runs ≡ deque_capacity runs.old.runs }
{
    while let Some(_run) = runs.pop() {}
}

/// The runs in hand, in order: each is told as its range with the pattern of its piece.
#[derive(Drop)]
pub(crate) struct Hand {
    first: Option<Match>,
    /// The runs behind the first: none, where there is no first.
    rest: OpenRuns,
}

impl Hand {
    /// No run, with room for as many as can be open at once.
    ///
    /// # Errors
    ///
    /// Where the allocation of that room fails.
    pub(crate) fn new(alloc: Global, longest: usize) -> Result<Hand, AllocError>
        ensures none { IfOk result (λ hand. held_runs hand ≡ []) }
        ensures whole { IfOk result HasItsFirst }
        ensures room { IfOk result (λ hand. room_in hand ≡ longest / 2 + 1) }
    {
        let rest = OpenRuns::new(alloc, longest)?;
        Ok(Hand { first: None, rest })
    }

    /// Where the first run begins.
    pub(crate) fn start(&self) -> Option<usize>
        requires whole { HasItsFirst self.now }
        ensures start { result ≡ first_start (held_runs self.now) }
    {
        match &self.first {
            Some(run) => Some(run.start()),
            None => None,
        }
    }

    /// Takes all runs, and keeps the room.
    pub(crate) fn clear(&mut self)
        ensures none { held_runs self.new ≡ [] }
        ensures whole { HasItsFirst self.new }
        ensures same_room { room_in self.new ≡ room_in self.old }
    {
        self.first = None;
        clear(&mut self.rest);
    }

    /// Takes the first run, where it ends before a place.
    pub(crate) fn take_before(&mut self, place: usize) -> Option<Match>
        requires whole { HasItsFirst self.old }
        ensures first { IfSome result (λ run. (held_runs self.old ≡ run ∷ held_runs self.new)
            × (run.end < place)) }
        ensures none { result ≡ None → (self.new ≡ self.old)
            × FirstEndsBehind place (held_runs self.old) }
        ensures whole { HasItsFirst self.new }
        ensures same_room { room_in self.new ≡ room_in self.old }
    {
        let Some(run) = self.first else {
            return None;
        };
        if run.end() >= place {
            return None;
        }
        self.first = self.rest.pop();
        Some(run)
    }

    /// Adds a match that ends behind all runs: those that it touches become one with it.
    pub(crate) fn add(&mut self, m: Match)
        requires whole { HasItsFirst self.old }
        requires in_order { AreInOrder (held_runs self.old) m.end }
        requires some { m.start < m.end }
        requires room { length (joined_runs (held_runs self.old) m) ≤ room_in self.old }
        ensures joined { held_runs self.new ≡ joined_runs (held_runs self.old) m }
        ensures whole { HasItsFirst self.new }
        ensures same_room { room_in self.new ≡ room_in self.old }
    {
        let Some(run) = self.first else {
            self.first = Some(m);
            return;
        };
        if run.end() < m.start() {
            self.rest.add(m);
            return;
        }
        clear(&mut self.rest);
        self.first = Some(grown(&run, &m));
    }
}
