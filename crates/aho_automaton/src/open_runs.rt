//! The runs of a cover that are not settled: what is read later may still join them.

ghost use Rattle.std.specs.Prelude.{◌≡◌, ◌+◌, ◌/◌, ◌<◌, ◌≤◌, [], ◌∷◌, ◌++◌, None, IfOk, IfSome, drop, false, length, slice_get, true};
ghost use Rattle.std.specs.VecDeque.{deque_capacity};
ghost use Rattle.aho_laws.specs.CoverLaws.{AreInOrder, EndBefore, extended, joined_runs};
ghost use Rattle.aho_automaton.specs.Covering.{FirstIsOpen, FirstIsSettled};

use aho_core::search::{Match, Span};
use std::alloc::{AllocError, Global};
use std::collections::VecDeque;

/// A run, and a match that touches it and ends behind it, as one run.
fn extended(run: &Match, m: &Match) -> Match
    requires ordered { run.now.start ≤ m.now.end }
    ensures extended { result ≡ extended run.now m.now }
{
    if run.start() >= m.start() {
        return *m;
    }
    let range = Span {
        start: run.start(),
        end: m.end(),
    };
    Match::new(run.pattern(), range)
}

/// The runs in hand, in order: each is told as its range with the pattern of its piece.
#[derive(Drop)]
pub struct OpenRuns {
    runs: VecDeque<Match>,
}

impl OpenRuns {
    /// No run, with room for as many as can be open at once: half as many as the longest pattern has bytes, and one.
    ///
    /// # Errors
    ///
    /// Where the allocation of that room fails.
    pub fn new(alloc: Global, longest: usize) -> Result<OpenRuns, AllocError>
        ensures none { IfOk result (λ hand. hand.runs.items ≡ []) }
        ensures room { IfOk result (λ hand. deque_capacity hand.runs ≡ longest / 2 + 1) }
    {
        let runs = VecDeque::with_capacity(alloc, longest / 2 + 1)?;
        Ok(OpenRuns { runs })
    }

    /// Takes the last run, where the match touches it.
    fn pop_touched(&mut self, m: &Match) -> Option<Match>
        requires in_order { AreInOrder self.old.runs.items m.now.end }
        ensures touched { IfSome result (λ run.
            (self.old.runs.items ≡ self.new.runs.items ++ run ∷ []) × (m.now.start ≤ run.end)) }
        ensures behind { result ≡ None → (self.new.runs.items ≡ self.old.runs.items)
            × EndBefore self.old.runs.items m.now.start }
        ensures same_room { deque_capacity self.new.runs ≡ deque_capacity self.old.runs }
    {
        let last = self.runs.pop_back()?;
        if last.end() < m.start() {
            self.runs.push_back_reserved(last);
            return None;
        }
        Some(last)
    }

    /// Adds a match that ends behind all runs: those that it touches become one with it.
    pub fn add(&mut self, m: Match)
        requires in_order { AreInOrder self.old.runs.items m.end }
        requires some { m.start < m.end }
        requires room { length (joined_runs self.old.runs.items m) ≤ deque_capacity self.old.runs }
        ensures joined { self.new.runs.items ≡ joined_runs self.old.runs.items m }
        ensures same_room { deque_capacity self.new.runs ≡ deque_capacity self.old.runs }
    {
        let mut run = m;
        while let Some(last) = self.pop_touched(&run) {
            run = extended(&last, &run);
        }
        self.runs.push_back_reserved(run);
    }

    /// Whether the first run is settled at a place: whether it ends further before it than the longest pattern reaches.
    #[inline(always)]
    pub fn first_is_settled(&self, far: usize, at: usize) -> bool
        ensures settled { result ≡ true → FirstIsSettled far at self.now.runs.items }
        ensures unsettled { result ≡ false → FirstIsOpen far at self.now.runs.items }
    {
        match self.runs.front() {
            Some(run) => run.end() <= at && far <= at - run.end(),
            None => false,
        }
    }

    /// Takes the first run.
    pub fn pop(&mut self) -> Option<Match>
        ensures first { result ≡ slice_get self.old.runs.items 0 }
        ensures rest { self.new.runs.items ≡ drop 1 self.old.runs.items }
        ensures same_room { deque_capacity self.new.runs ≡ deque_capacity self.old.runs }
    {
        self.runs.pop_front()
    }
}
