//! Runs of bytes that lead to one state.

ghost use Rattle.std.specs.Prelude.{◌≡◌, ◌≤◌, ◌+◌, ◌++◌, ◌∷◌, [], IsFalse, IsNone, IsTrue, IfOk};
ghost use Rattle.std.specs.Option.{option_to_list};
ghost use Rattle.acdraw.specs.Runs.{AreApart, Adjoins, all_pairs};

use aho_corasick::links::Transitions;
use aho_core::search::StateID;
use std::alloc::{AllocError, Global};

/// A run of bytes that lead to one state.
#[derive(Clone, Copy)]
pub struct Run {
    /// The first of them.
    pub first: u8,
    /// How many follow it.
    pub more: u8,
    /// Where they lead.
    pub next: StateID,
}

impl Run {
    /// The run of one byte.
    fn of(byte: u8, next: StateID) -> Run
        ensures of { result ≡ record { first = byte; more = 0; next = next } }
    {
        Run {
            first: byte,
            more: 0,
            next,
        }
    }

    /// Whether the byte is the one behind it, and leads to the same state.
    fn goes_on(&self, byte: u8, next: StateID) -> bool
        ensures place { IsTrue result → self.now.first + self.now.more + 1 ≡ byte }
        ensures next { IsTrue result → self.now.next ≡ next }
        ensures apart { IsFalse result
            → Adjoins self.now (record { first = byte; more = 0; next = next }) → ⊥ }
    {
        if self.next != next {
            return false;
        }
        self.first as u16 + self.more as u16 + 1 == byte as u16
    }

    /// The last byte of it.
    pub fn last(&self) -> u8
        ensures last { self.now.first + self.now.more ≤ 255 → result ≡ self.now.first + self.now.more }
    {
        self.first.saturating_add(self.more)
    }
}

/// The runs of a list of transitions: they say the same, byte for byte, and are as long as they can be.
pub fn runs_of(alloc: Global, transitions: Transitions<'_>) -> Result<Vec<Run>, AllocError>
    ensures same { IfOk result (λ runs. all_pairs runs.items ≡ transitions.entry) }
    ensures apart { IfOk result (λ runs. AreApart runs.items) }
{
    let mut runs = Vec::new(alloc);
    let mut last = None;
    for (byte, next) in transitions {
        last = Some(put_byte(&mut runs, last, byte, next)?);
    }
    let Some(run) = last else {
        return Ok(runs);
    };
    runs.push(run)?;
    Ok(runs)
}

/// One transition more: the last run takes it, or is closed, and another one begins.
fn put_byte(
    runs: &mut Vec<Run>,
    last: Option<Run>,
    byte: u8,
    next: StateID,
) -> Result<Run, AllocError>
    requires begun { IsNone last → runs.old.items ≡ [] }
    requires apart { AreApart (runs.old.items ++ option_to_list last) }
    ensures put { IfOk result (λ run. all_pairs (runs.new.items ++ run ∷ [])
        ≡ all_pairs (runs.old.items ++ option_to_list last) ++ (byte, next) ∷ []) }
    ensures apart { IfOk result (λ run. AreApart (runs.new.items ++ run ∷ [])) }
{
    let Some(run) = last else {
        return Ok(Run::of(byte, next));
    };
    if run.goes_on(byte, next) {
        return Ok(Run {
            more: run.more + 1,
            ..run
        });
    }
    runs.push(run)?;
    Ok(Run::of(byte, next))
}
