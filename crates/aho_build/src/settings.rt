//! How an automaton is built.

ghost use Rattle.std.specs.Prelude.{◌≡◌};
ghost use Rattle.aho_build.specs.Settings.{default_settings};

use aho_core::search::{MatchKind, PatternID, SmallIndex, StateID};

/// The greatest numbers that a build may use. A limit above its type's `MAX` counts as `MAX`.
#[derive(Clone, Copy, Debug, PartialEq, Eq)]
pub struct Limits {
    /// The greatest index of a state, of a transition and of a listed pattern.
    pub id: usize,
    /// The greatest number of a pattern.
    pub pattern: usize,
    /// The greatest length of a pattern, in bytes.
    pub length: usize,
}

/// All that a build is told beside the patterns.
#[derive(Clone, Copy, Debug)]
pub struct Settings {
    /// Which of several matches is found.
    pub kind: MatchKind,
    /// Whether ASCII letters are the same in both cases.
    pub ignore_case: bool,
    /// Up to which distance from the start states have dense rows; none at 0.
    pub dense_depth: usize,
    /// Whether a prefilter is held where there is one for the patterns.
    pub prefilter: bool,
    /// The greatest numbers that the build may use.
    pub limits: Limits,
}

impl Default for Settings {
    ghost is_default = { λ settings. settings ≡ default_settings };

    /// Standard, with regard to case, dense rows up to depth 3, a prefilter where one can be held, and the greatest limits.
    fn default() -> Settings {
        Settings {
            kind: MatchKind::Standard,
            ignore_case: false,
            dense_depth: 3,
            prefilter: true,
            limits: Limits {
                id: StateID::MAX.as_usize(),
                pattern: PatternID::MAX.as_usize(),
                length: SmallIndex::MAX.as_usize(),
            },
        }
    }
}
