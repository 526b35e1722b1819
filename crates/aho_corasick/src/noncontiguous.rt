//! The noncontiguous automaton: its states are the nodes of the trie of the patterns, and a byte that leads to no node is
//! looked for further down the failure links.

ghost use Rattle.std.specs.Prelude.{◌≡◌, ◌+◌, ◌<◌, ◌≤◌, ◌^◌, ℕ, length, IfOk, is_some};
ghost use Rattle.aho_core.specs.Laws.{shortest, longest};
ghost use Rattle.aho_core.specs.Numbers.{greatest_index};
ghost use Rattle.aho_build.specs.ListLinks.{ListByLinks};
ghost use Rattle.aho_build.specs.Shuffled.{AreNumbered};
ghost use Rattle.aho_build.specs.Walking.{IsSound, AreStarts};
ghost use Rattle.aho_prefilter.specs.Prefilter.{prefilter_bytes};

mod read_out;

pub use crate::builder::{Builder, Limits};
use aho_automaton::automaton::Automaton;
use aho_build::compiler::Compiled;
use aho_build::sizes::tables_bytes;
pub use aho_build::special::Special;
use aho_build::steps;
use aho_core::error::{BuildError, MatchError};
use aho_core::search::{Anchored, MatchKind, PatternID, SmallIndex, StateID, Work};
use aho_prefilter::prefilter::Prefilter;
use aho_table::links::{DEAD, Table};
use std::alloc::{AllocError, Global};

/// A noncontiguous automaton: the trie of some patterns with failure links (Aho and Corasick 1975), for any of the three
/// match kinds, with or without regard to the case of ASCII letters. It answers anchored and unanchored searches.
///
/// It takes memory in proportion to its transitions and listed patterns while it is built, and none while it is searched.
///
/// ```
/// let patterns: [&[u8]; 2] = [b"samwise", b"sam"];
/// let nfa = NFA::builder().match_kind(MatchKind::LeftmostFirst).build(alloc, patterns.iter().copied())?;
/// let found = nfa.try_find(&Input::new(b"samwise"))?;
/// // pattern 0 at 0..7
/// ```
#[derive(Drop)]
pub struct NFA {
    /// Which of several matches is found.
    match_kind: MatchKind,
    /// The states: DEAD, FAIL, those that list a pattern and are no start, the unanchored start, the anchored start, and
    /// the rest. Each has its transitions, its patterns and its failure link. A state near the start has a dense row as
    /// well: an entry for each class of bytes, so that one look-up answers any byte.
    table: Table,
    /// The numbers of the starts, and those up to which a state lists a pattern or is special.
    special: Special,
    /// The length of each pattern in bytes, by its number.
    pattern_lens: Vec<SmallIndex>,
    /// The least of the lengths, and the greatest `usize` where there is no pattern.
    min_pattern_len: usize,
    /// The greatest of the lengths, and 0 where there is no pattern.
    max_pattern_len: usize,
    /// What unanchored searches in memory skip by, if the builder was told to hold one and the patterns allow it.
    prefilter: Option<Prefilter>,
    ghost sound: { IsSound table.states },
    ghost starts: { AreStarts special table.states },
    ghost listed: { ListByLinks table.states },
    ghost numbered: { AreNumbered (is_some prefilter) special table.states },
    ghost shortest: { min_pattern_len ≡ shortest pattern_lens.items },
    ghost longest: { max_pattern_len ≡ longest pattern_lens.items },
    ghost counted: { length pattern_lens.items ≤ greatest_index + 1 },
    ghost bounded: { max_pattern_len ≤ greatest_index },
}

impl NFA {
    ghost use Rattle.std.specs.Prelude.{◌+◌, ℕ, List, IfOk, IfErr, IfSome, is_some};
    ghost use Rattle.std.specs.Iterator.{IsFinite};
    ghost use Rattle.aho_core.specs.declared.search.Anchored.{Anchored};
    ghost use Rattle.aho_core.specs.Patterns.{Patterns};
    ghost use Rattle.aho_build.specs.Automaton.{IsOf, memory_of};
    ghost use Rattle.aho_build.specs.Dense.{AreDense, HasBorders};
    ghost use Rattle.aho_build.specs.Items.{IsFailure, OfAccepted};
    ghost use Rattle.aho_build.specs.Settings.{default_settings};
    ghost use Rattle.aho_build.specs.Shuffled.{IsInOrder};
    ghost use Rattle.aho_prefilter.specs.Prefilter.{IsPrefilterOf, has_empty};
    ghost use Rattle.aho_corasick.specs.ReadOut.{states_of, dense_rows_of};
    ghost use Rattle.aho_corasick.specs.Clones.{IsCloneOf, HasReadOutOf};
    ghost use Rattle.aho_corasick.specs.Made.{HoldsPrefilter, TakesMemory};

    /// The automaton of these patterns, as a new `Builder` builds it.
    ///
    /// # Errors
    ///
    /// `PatternIDOverflow`, `PatternTooLong` or `StateIDOverflow` where a pattern's number, its length in bytes, or an index
    /// of a table is above the greatest; or `OutOfMemory`, at any time.
    pub fn new<'p, I: Iterator<Item = &'p [u8]> + Drop>(
        alloc: Global,
        patterns: I,
    ) -> Result<NFA, BuildError>
        requires can { I.can_next patterns }
        requires ends { IsFinite (I.remaining patterns) }
        ensures built { IfOk result (λ nfa.
            OfAccepted I.next_gives patterns default_settings (⟦<NFA as Automaton>⟧.is_of nfa)) }
        ensures held { IfOk result (λ nfa. OfAccepted I.next_gives patterns default_settings
            (HoldsPrefilter ⟦<NFA as Automaton>⟧ default_settings nfa)) }
        ensures sized { IfOk result (λ nfa. OfAccepted I.next_gives patterns default_settings
            (TakesMemory ⟦<NFA as Automaton>⟧ default_settings nfa)) }
        ensures dense { IfOk result (λ nfa.
            AreDense default_settings.dense_depth (states_of nfa) (dense_rows_of nfa)) }
        ensures refused { IfErr result (IsFailure I.next_gives patterns default_settings) }
    {
        Builder::new().build(alloc, patterns)
    }

    /// The automaton whose states and lengths a build has made.
    pub(crate) fn of_compiled(kind: MatchKind, compiled: Compiled) -> NFA
        requires of { (p : Patterns)
            × IsOf p kind compiled.pattern_lens.items compiled.special compiled.table.states }
        ensures of { (p : Patterns)
            → IsOf p kind compiled.pattern_lens.items compiled.special compiled.table.states
            → IfSome compiled.prefilter (λ searcher. IsPrefilterOf searcher p)
            → HasBorders p compiled.table.classes
            → ⟦<NFA as Automaton>⟧.is_of result p }
        ensures held { ⟦<NFA as Automaton>⟧.prefilter result ≡ compiled.prefilter }
        ensures states { states_of result ≡ compiled.table.states }
        ensures dense { dense_rows_of result ≡ compiled.table.rows }
        ensures memory { ⟦<NFA as Automaton>⟧.memory result
            ≡ memory_of compiled.table compiled.pattern_lens.items + prefilter_bytes compiled.prefilter }
    {
        let Compiled {
            table,
            pattern_lens,
            special,
            prefilter,
        } = compiled;
        NFA {
            match_kind: kind,
            min_pattern_len: shortest_len(&pattern_lens),
            max_pattern_len: longest_len(&pattern_lens),
            table,
            special,
            pattern_lens,
            prefilter,
        }
    }

    /// A copy of the automaton, with the same states under the same numbers.
    ///
    /// # Errors
    ///
    /// Out of memory.
    pub fn try_clone(&self) -> Result<NFA, AllocError>
        ensures same { IfOk result (λ nfa. IsCloneOf ⟦<NFA as Automaton>⟧ nfa self.now) }
        ensures read_out { IfOk result (λ nfa. HasReadOutOf nfa self.now) }
    {
        Ok(NFA {
            match_kind: self.match_kind,
            table: self.table.try_clone()?,
            special: self.special,
            pattern_lens: self.pattern_lens.clone()?,
            min_pattern_len: self.min_pattern_len,
            max_pattern_len: self.max_pattern_len,
            prefilter: clone_of(&self.prefilter)?,
        })
    }

    /// The settings to build with.
    pub fn builder() -> Builder
        ensures new { result ≡ default_settings }
    {
        Builder::new()
    }
}

impl Automaton for NFA {
    ghost use Rattle.std.specs.Prelude.{◌+◌, ℕ, IfSome, false, is_some, nat_eq, Ok};
    ghost use Rattle.aho_core.specs.Bytes.{folded};
    ghost use Rattle.aho_core.specs.Held.{held_after};
    ghost use Rattle.aho_core.specs.Patterns.{Patterns};
    ghost use Rattle.aho_core.specs.declared.search.Anchored.TheVariants.{No};
    ghost use Rattle.aho_core.specs.Step.{lookups};
    ghost use Rattle.aho_build.specs.Dense.{HasBorders};
    ghost use Rattle.aho_build.specs.Automaton.{IsOf, IsHeld, start_of, is_special_in, is_start_in, memory_of};
    ghost use Rattle.aho_prefilter.specs.Prefilter.{IsPrefilterOf};
    ghost use Rattle.aho_table.specs.Table.{dead_id, depth_in, matches_in};
    ghost use Rattle.aho_build.specs.Walking.{IsState, step_in};
    ghost use Rattle.aho_build.proofs.AutomatonLaws.{alike_of, reaches_of, reads_of, plain_of, dead_shallow_of, starts_shallow_of};

    ghost is_of = { λ n p. IsOf p n.match_kind n.pattern_lens.items n.special n.table.states
        × IfSome n.prefilter (λ searcher. IsPrefilterOf searcher p)
        × HasBorders p n.table.classes };

    ghost held = { λ n p anchored word sid. IsHeld p n.special n.table.states anchored word sid };

    ghost valid = { λ n sid. IsState n.table.states sid };

    ghost kind = { λ n. n.match_kind };

    ghost lengths = { λ n. n.pattern_lens.items };

    ghost list = { λ n sid. matches_in n.table.states sid };

    ghost dead = { λ n sid. nat_eq sid dead_id };

    ghost special = { λ n sid. is_special_in (is_some n.prefilter) n.special n.table.states sid };

    ghost marked = { λ n sid. is_special_in false n.special n.table.states sid };

    ghost starts = { λ n sid. is_start_in n.special sid };

    ghost depth = { λ n sid. depth_in n.table.states sid };

    ghost reach = { λ n sid. depth_in n.table.states sid };

    ghost next = { λ n anchored sid byte. step_in n.table.states anchored sid byte };

    ghost lookups = { λ n p anchored word byte.
        lookups p anchored (held_after p anchored word) (folded p byte) };

    ghost start = { λ n anchored. Ok (start_of n.special anchored) };

    ghost memory = { λ n. memory_of n.table n.pattern_lens.items + prefilter_bytes n.prefilter };

    ghost prefilter = { λ n. n.prefilter };

    fn start_state(&self, anchored: Anchored) -> Result<StateID, MatchError> {
        match anchored {
            Anchored::No => Ok(self.special.start_unanchored_id),
            Anchored::Yes => Ok(self.special.start_anchored_id),
        }
    }

    fn next_state(&self, anchored: Anchored, sid: StateID, byte: u8) -> StateID {
        let mut work = Work::new();
        steps::step(&self.table, anchored, sid, byte, &mut work)
    }

    /// The look-ups that are added are exactly those of the step of the word that was read.
    fn step(&self, anchored: Anchored, sid: StateID, byte: u8, work: &mut Work) -> StateID {
        steps::step(&self.table, anchored, sid, byte, work)
    }

    /// Where a prefilter is held, each start is special too.
    fn is_special(&self, sid: StateID) -> bool {
        sid <= self.special.max_special_id
    }

    fn is_marked(&self, sid: StateID) -> bool {
        sid <= self.special.max_match_id
    }

    fn is_dead(&self, sid: StateID) -> bool {
        sid == DEAD
    }

    fn is_match(&self, sid: StateID) -> bool {
        sid != DEAD && sid <= self.special.max_match_id
    }

    fn is_start(&self, sid: StateID) -> bool {
        sid == self.special.start_unanchored_id || sid == self.special.start_anchored_id
    }

    fn reach_back(&self, sid: StateID) -> usize {
        self.table.depth(sid)
    }

    fn match_kind(&self) -> MatchKind {
        self.match_kind
    }

    fn prefilter(&self) -> Option<&Prefilter> {
        self.prefilter.as_ref()
    }

    /// None: a stream walks each byte.
    fn stream_prefilter(&self) -> Option<&Prefilter> {
        None
    }

    fn match_len(&self, sid: StateID) -> usize {
        self.table.match_len(sid)
    }

    fn match_pattern(&self, sid: StateID, index: usize) -> PatternID {
        self.table.match_pattern(sid, index)
    }

    fn patterns_len(&self) -> usize {
        self.pattern_lens.len()
    }

    fn pattern_len(&self, pid: PatternID) -> usize {
        self.pattern_lens[pid.as_usize()].as_usize()
    }

    fn min_pattern_len(&self) -> usize {
        self.min_pattern_len
    }

    fn max_pattern_len(&self) -> usize {
        self.max_pattern_len
    }

    /// For an automaton that was built it is what its settings and patterns tell, as `new` and `build` say: stated sizes,
    /// whatever its vectors take, and what its prefilter holds.
    fn memory_usage(&self) -> usize
        ensures memory { result ≡ ⟦<NFA as Automaton>⟧.memory self.now }
    {
        tables_bytes(&self.table, &self.pattern_lens) + bytes_of(&self.prefilter)
    }

    ghost laws = { λ n p of. reads_of p n.match_kind n.pattern_lens.items n.special n.table.states of.0 };

    ghost alike = { λ n p word other sid of.
        alike_of p n.special n.table.states No word other sid };

    ghost plain = { λ n sid valid. plain_of (is_some n.prefilter) n.special n.table.states sid };

    ghost unmarked = { λ n sid valid. plain_of false n.special n.table.states sid };

    ghost dead_shallow = { λ n sid valid. dead_shallow_of n.table.states sid n.sound };

    ghost starts_shallow = { λ n sid valid. starts_shallow_of n.special n.table.states sid n.starts };

    ghost reaches = { λ n p word sid of.
        reaches_of p n.match_kind n.pattern_lens.items n.special n.table.states n.sound of.0 word sid };

    ghost prefilters = { λ n p of. of.1 };
}

/// The least of the lengths, in bytes; the greatest `usize` where there is none.
fn shortest_len(lens: &[SmallIndex]) -> usize
    ensures shortest { result ≡ shortest lens.now }
{
    let mut least = usize::MAX;
    for len in lens {
        least = least.min(len.as_usize());
    }
    least
}

/// The greatest of the lengths, in bytes; 0 where there is none.
fn longest_len(lens: &[SmallIndex]) -> usize
    ensures longest { result ≡ longest lens.now }
    ensures bound { result ≤ greatest_index }
{
    let mut most = 0;
    for len in lens {
        most = most.max(len.as_usize());
    }
    most
}

/// The bytes that a prefilter holds, where there is one.
fn bytes_of(prefilter: &Option<Prefilter>) -> usize
    ensures bytes { result ≡ prefilter_bytes prefilter.now }
    ensures bound { result < 2 ^ 63 }
{
    match prefilter {
        Some(prefilter) => prefilter.memory_usage(),
        None => 0,
    }
}

/// The same prefilter, or none.
fn clone_of(prefilter: &Option<Prefilter>) -> Result<Option<Prefilter>, AllocError>
    ensures same { IfOk result (λ copy. copy ≡ prefilter.now) }
{
    match prefilter {
        Some(prefilter) => Ok(Some(prefilter.try_clone()?)),
        None => Ok(None),
    }
}
