//! Numbers of patterns and states, and indexes of tables: each at most `MAX`.

ghost use Rattle.std.specs.Prelude.{◌≡◌, ℕ, ◌<◌, ◌≤◌, IfOk, IfErr, ◌↔◌, IsOk};
ghost use Rattle.aho_core.specs.Numbers.{greatest_index};

use std::marker::Model;

/// An index of a table, at most `SmallIndex::MAX`.
#[derive(Clone, Copy, Debug, PartialEq, Eq, PartialOrd, Ord)]
pub struct SmallIndex {
    value: u32,
}

impl Model for SmallIndex {
    ghost use Rattle.std.specs.Prelude.{ℕ, ◌≤◌};
    ghost use Rattle.aho_core.specs.Numbers.{greatest_index};

    ghost Value = { ℕ };

    ghost view = { λ index. index.value };

    ghost invariant = { λ index. index.value ≤ greatest_index };

    ghost inverse = { λ number. record { value = number } };
}

impl SmallIndex {
    /// The greatest index.
    pub const MAX: SmallIndex = SmallIndex { value: 2147483646 };

    /// The index of this value.
    ///
    /// # Errors
    ///
    /// A number above `MAX` is refused.
    pub fn new(index: usize) -> Result<SmallIndex, SmallIndexError>
        ensures accepted { IsOk result ↔ (index ≤ greatest_index) }
        ensures value { IfOk result (λ made. made ≡ index) }
        ensures attempted { IfErr result (λ error. error ≡ index) }
    {
        if index <= Self::MAX.as_usize() {
            Ok(SmallIndex {
                value: index as u32,
            })
        } else {
            Err(SmallIndexError {
                attempted: index as u64,
            })
        }
    }

    /// The index as a `usize`.
    pub fn as_usize(self) -> usize
        ensures value { result ≡ self }
        ensures bound { result ≤ greatest_index }
    {
        self.value as usize
    }

    /// The index of a value that is known to be small enough.
    pub fn new_unchecked(index: usize) -> SmallIndex
        requires within { index ≤ greatest_index }
        ensures value { result ≡ index }
    {
        SmallIndex {
            value: index as u32,
        }
    }
}

/// A number above `SmallIndex::MAX`.
#[derive(Clone, Copy, Debug, PartialEq, Eq)]
pub struct SmallIndexError {
    attempted: u64,
}

impl Model for SmallIndexError {
    ghost use Rattle.std.specs.Prelude.{ℕ};

    ghost Value = { ℕ };

    ghost view = { λ error. error.attempted };

    ghost inverse = { λ number. record { attempted = number } };
}

impl SmallIndexError {
    /// The number that was refused.
    pub fn attempted(&self) -> u64
        ensures attempted { result ≡ self.now }
    {
        self.attempted
    }
}

/// The number of a pattern: its place in the list of patterns, from 0 on.
#[derive(Clone, Copy, Debug, PartialEq, Eq, PartialOrd, Ord)]
pub struct PatternID {
    index: SmallIndex,
}

impl Model for PatternID {
    ghost use Rattle.std.specs.Prelude.{ℕ};

    ghost Value = { ℕ };

    ghost view = { λ id. id.index };

    ghost inverse = { λ number. record { index = number } };
}

impl PatternID {
    /// The greatest number of a pattern.
    pub const MAX: PatternID = PatternID {
        index: SmallIndex::MAX,
    };

    /// The pattern of this number.
    ///
    /// # Errors
    ///
    /// A number above `MAX` is refused.
    pub fn new(index: usize) -> Result<PatternID, PatternIDError>
        ensures accepted { IsOk result ↔ (index ≤ greatest_index) }
        ensures value { IfOk result (λ made. made ≡ index) }
        ensures attempted { IfErr result (λ error. error ≡ index) }
    {
        match SmallIndex::new(index) {
            Ok(index) => Ok(PatternID { index }),
            Err(error) => Err(PatternIDError { error }),
        }
    }

    /// The number as a `usize`.
    pub fn as_usize(self) -> usize
        ensures value { result ≡ self }
        ensures bound { result ≤ greatest_index }
    {
        self.index.as_usize()
    }

    /// The pattern of a number that is known to be small enough.
    pub fn new_unchecked(index: usize) -> PatternID
        requires within { index ≤ greatest_index }
        ensures value { result ≡ index }
    {
        PatternID {
            index: SmallIndex::new_unchecked(index),
        }
    }
}

/// A number above `PatternID::MAX`.
#[derive(Clone, Copy, Debug, PartialEq, Eq)]
pub struct PatternIDError {
    error: SmallIndexError,
}

impl Model for PatternIDError {
    ghost use Rattle.std.specs.Prelude.{ℕ};

    ghost Value = { ℕ };

    ghost view = { λ it. it.error };

    ghost inverse = { λ number. record { error = number } };
}

impl PatternIDError {
    /// The number that was refused.
    pub fn attempted(&self) -> u64
        ensures attempted { result ≡ self.now }
    {
        self.error.attempted()
    }
}

/// The number of a state of an automaton.
#[derive(Clone, Copy, Debug, PartialEq, Eq, PartialOrd, Ord)]
pub struct StateID {
    index: SmallIndex,
}

impl Model for StateID {
    ghost use Rattle.std.specs.Prelude.{ℕ};

    ghost Value = { ℕ };

    ghost view = { λ id. id.index };

    ghost inverse = { λ number. record { index = number } };
}

impl StateID {
    /// The greatest number of a state.
    pub const MAX: StateID = StateID {
        index: SmallIndex::MAX,
    };

    /// The number of the first state.
    pub const ZERO: StateID = StateID {
        index: SmallIndex { value: 0 },
    };

    /// The number of the second state.
    pub const ONE: StateID = StateID {
        index: SmallIndex { value: 1 },
    };

    /// The state of this number.
    ///
    /// # Errors
    ///
    /// A number above `MAX` is refused.
    pub fn new(index: usize) -> Result<StateID, StateIDError>
        ensures accepted { IsOk result ↔ (index ≤ greatest_index) }
        ensures value { IfOk result (λ made. made ≡ index) }
        ensures attempted { IfErr result (λ error. error ≡ index) }
    {
        match SmallIndex::new(index) {
            Ok(index) => Ok(StateID { index }),
            Err(error) => Err(StateIDError { error }),
        }
    }

    /// The number as a `usize`.
    pub fn as_usize(self) -> usize
        ensures value { result ≡ self }
        ensures bound { result ≤ greatest_index }
    {
        self.index.as_usize()
    }

    /// The state of a number that is known to be small enough.
    pub fn new_unchecked(index: usize) -> StateID
        requires within { index ≤ greatest_index }
        ensures value { result ≡ index }
    {
        StateID {
            index: SmallIndex::new_unchecked(index),
        }
    }
}

/// A number above `StateID::MAX`.
#[derive(Clone, Copy, Debug, PartialEq, Eq)]
pub struct StateIDError {
    error: SmallIndexError,
}

impl Model for StateIDError {
    ghost use Rattle.std.specs.Prelude.{ℕ};

    ghost Value = { ℕ };

    ghost view = { λ it. it.error };

    ghost inverse = { λ number. record { error = number } };
}

impl StateIDError {
    /// The number that was refused.
    pub fn attempted(&self) -> u64
        ensures attempted { result ≡ self.now }
    {
        self.error.attempted()
    }
}
