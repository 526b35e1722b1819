//! What a build makes of some patterns.

ghost use Rattle.std.specs.Prelude.{◌+◌, ◌≤◌, length, is_some};
ghost use Rattle.aho_core.specs.Numbers.{greatest_index};
ghost use Rattle.aho_table.specs.Table.{matches_in};
ghost use Rattle.aho_build.specs.Shuffled.{IsInOrder, starts_match};

use crate::special::Special;
use aho_core::search::SmallIndex;
use aho_prefilter::prefilter::Prefilter;
use aho_table::links::Table;

/// What a build makes of some patterns.
#[derive(Drop)]
pub struct Compiled {
    pub table: Table,
    /// By the patterns' numbers, in bytes.
    pub pattern_lens: Vec<SmallIndex>,
    /// Which states are not like the others.
    pub special: Special,
    /// One of the patterns, all of them, where there is one and the settings want it.
    pub prefilter: Option<Prefilter>,
    ghost counted: { length pattern_lens.items ≤ greatest_index + 1 },
    ghost ordered: { IsInOrder (starts_match special table.states)
        (is_some prefilter) special (matches_in table.states) },
}
