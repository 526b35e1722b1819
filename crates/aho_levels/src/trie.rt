//! The trie: all states with their children, level by level, and the patterns that end at each.

ghost use Rattle.std.specs.Prelude.{◌≡◌, ◌≢◌, ◌↔◌, ◌+◌, ◌<◌, ◌≤◌, ℕ, List, [], ◌∷◌, ◌++◌, Option, All, length, IfErr, IfOk, IsTrue, OnOk};
ghost use Rattle.aho_core.specs.Numbers.{greatest_index};
ghost use Rattle.aho_core.specs.Patterns.{Patterns};
ghost use Rattle.aho_core.specs.declared.search.MatchKind.TheVariants.{LeftmostFirst};
ghost use Rattle.aho_levels.specs.Building.{AreItems, IsLevelsRefusal, IsGrownTrie};
ghost use Rattle.aho_levels.specs.Growing.{AddsOwn, AreEnds, IsClosedTree, IsLevel, IsTree, KeepsItem, Passes, PushesOwn, SettlesItem, first_names};
ghost use Rattle.aho_levels.specs.declared.tree.Tree.{Tree};

use crate::order::{Item, Ordered};
use crate::states::DEAD;
use crate::tree::{Tree, disorder};
use aho_core::error::BuildError;
use aho_core::search::{MatchKind, PatternID, SmallIndex, StateID};
use std::alloc::Global;

/// A pattern that ends at a state.
#[derive(Clone, Copy, Debug)]
pub struct Own {
    pub state: StateID,
    pub number: PatternID,
}

/// The patterns that have ended.
#[derive(Drop)]
pub struct Ends {
    /// By their states, and of one state by number.
    pub owns: Vec<Own>,
    /// The one that ended last, and the first of its state.
    pub last: Own,
    pub least: Own,
    /// The state at which a pattern went on last.
    pub passed: StateID,
}

/// The states with their children, and the patterns that end at them.
#[derive(Drop)]
pub struct Trie {
    /// For each state the first of its children; and one more behind the last.
    pub firsts: Vec<SmallIndex>,
    pub bytes: Vec<u8>,
    pub depths: Vec<SmallIndex>,
    /// The patterns that end, by their states, and of one state by number.
    pub owns: Vec<Own>,
}

/// The trie of these patterns, which stand in the order of their bytes.
///
/// # Errors
///
/// `OutOfMemory`, or `StateIDOverflow` where they do not stand in order or have too many states.
pub fn trie_of(alloc: Global, kind: MatchKind, ordered: Ordered) -> Result<Trie, BuildError>
    requires items { (p : Patterns)
        × (p.kind ≡ kind) × AreItems p 1 ordered.text.items ordered.items.items }
    requires few { length ordered.text.items + 4 ≤ greatest_index }
    ensures trie { IfOk result (λ trie. (p : Patterns) → p.kind ≡ kind
        → AreItems p 1 ordered.text.items ordered.items.items → IsGrownTrie p trie) }
    ensures refused { IfErr result IsLevelsRefusal }
{
    let Ordered { text, mut items } = ordered;
    let mut tree = Tree::new(alloc)?;
    let mut ends = Ends::new(alloc);
    end_empty(&mut ends, kind, &mut items)?;
    let mut depth: usize = 0;
    'levels: while items.len() > 0 {
        if depth >= SmallIndex::MAX.as_usize() {
            return Err(disorder());
        }
        add_level(&mut tree, &mut ends, kind, &text, &mut items, depth)?;
        depth += 1;
    }
    trie_from(tree, ends)
}

/// The trie, once no pattern goes on.
fn trie_from(mut tree: Tree, ends: Ends) -> Result<Trie, BuildError>
    requires tree { (names : List (Option (List ℕ))) × IsTree names tree }
    ensures closed { IfOk result (λ trie. IsClosedTree tree ends trie) }
    ensures refused { IfErr result IsLevelsRefusal }
{
    let count = tree.bytes.len();
    tree.begin(count + 1)?;
    let Tree {
        firsts,
        bytes,
        depths,
        ..
    } = tree;
    Ok(Trie {
        firsts,
        bytes,
        depths,
        owns: ends.owns,
    })
}

/// Puts the item behind those that are kept, if it goes on: how many there are then.
#[inline(always)]
fn keep(items: &mut Vec<Item>, kept: usize, item: Item, goes_on: bool) -> usize
    requires within { kept < length items.old.items }
    ensures keeps { KeepsItem goes_on item kept result items.old.items items.new.items }
{
    if !goes_on {
        return kept;
    }
    items[kept] = item;
    kept + 1
}

/// Ends the empty patterns at the root.
fn end_empty(ends: &mut Ends, kind: MatchKind, items: &mut Vec<Item>) -> Result<(), BuildError>
    requires ends { AreEnds ends.old }
    requires none { ends.old.owns.items ≡ [] }
    requires rooted { All (λ item. item.state ≡ 1) items.old.items }
    ensures level { OnOk result ((p : Patterns) (text : List ℕ) (tree : Tree) → p.kind ≡ kind
        → AreItems p 1 text items.old.items → IsTree first_names tree → IsLevel p 0 text tree ends.new items.new.items) }
    ensures ends { OnOk result (AreEnds ends.new) }
    ensures refused { IfErr result IsLevelsRefusal }
{
    let mut kept = 0;
    for index in 0..items.len() {
        let item = items[index];
        let goes_on = ends.settle(kind, &item)?;
        kept = keep(items, kept, item, goes_on);
    }
    items.truncate(kept);
    Ok(())
}

/// Leads each pattern one byte further.
fn add_level(
    tree: &mut Tree,
    ends: &mut Ends,
    kind: MatchKind,
    text: &[u8],
    items: &mut Vec<Item>,
    depth: usize,
) -> Result<(), BuildError>
    requires some { (p : Patterns) × (p.kind ≡ kind) × IsLevel p depth text.now tree.old ends.old items.old.items }
    requires ends { AreEnds ends.old }
    requires few { length text.now ≤ greatest_index }
    requires small { depth < greatest_index }
    ensures level { OnOk result ((p : Patterns) → p.kind ≡ kind
        → IsLevel p depth text.now tree.old ends.old items.old.items
        → IsLevel p (depth + 1) text.now tree.new ends.new items.new.items) }
    ensures ends { OnOk result (AreEnds ends.new) }
    ensures refused { IfErr result IsLevelsRefusal }
{
    let deeper = SmallIndex::new_unchecked(depth + 1);
    let mut kept = 0;
    for index in 0..items.len() {
        let item = items[index];
        let byte = text[item.at.as_usize()];
        let state = tree.child(item.state, byte, deeper)?;
        let further = Item {
            state,
            at: SmallIndex::new_unchecked(item.at.as_usize() + 1),
            end: item.end,
            number: item.number,
        };
        let goes_on = ends.settle(kind, &further)?;
        kept = keep(items, kept, further, goes_on);
    }
    items.truncate(kept);
    Ok(())
}

/// Whether a pattern by this kind leaves out the longer ones behind it.
fn leaves_out(kind: MatchKind) -> bool
    ensures leaves { IsTrue result ↔ (kind ≡ LeftmostFirst) }
{
    match kind {
        MatchKind::LeftmostFirst => true,
        MatchKind::Standard | MatchKind::LeftmostLongest => false,
    }
}

impl Ends {
    /// None yet.
    fn new(alloc: Global) -> Ends
        ensures owns { result.owns.items ≡ [] }
        ensures ends { AreEnds result }
    {
        let number = PatternID::new_unchecked(0);
        let none = Own {
            state: DEAD,
            number,
        };
        let least = none;
        Ends {
            owns: Vec::new(alloc),
            last: none,
            least,
            passed: DEAD,
        }
    }

    /// One more at the end, and the first of its state.
    fn push(&mut self, own: Own, least: Own) -> Result<(), BuildError>
        ensures pushed { OnOk result (PushesOwn own least self.old self.new) }
        ensures refused { IfErr result IsLevelsRefusal }
    {
        let last = Own {
            state: own.state,
            number: own.number,
        };
        if self.owns.push(own).is_err() {
            return Err(BuildError::OutOfMemory);
        }
        self.last = last;
        self.least = least;
        Ok(())
    }

    /// A pattern ends at its state.
    fn add(&mut self, own: Own) -> Result<(), BuildError>
        requires ends { AreEnds self.old }
        ensures added { OnOk result (AddsOwn own self.old self.new) }
        ensures ends { OnOk result (AreEnds self.new) }
        ensures refused { IfErr result IsLevelsRefusal }
    {
        if own.state <= self.passed {
            return Err(disorder());
        }
        if own.state > self.last.state {
            let least = Own {
                state: own.state,
                number: own.number,
            };
            return self.push(own, least);
        }
        if own.state < self.last.state || own.number <= self.last.number {
            return Err(disorder());
        }
        let least = self.least;
        self.push(own, least)
    }

    /// A pattern goes on from its state: whether it is kept.
    #[inline(always)]
    fn pass(&mut self, kind: MatchKind, item: &Item) -> Result<bool, BuildError>
        requires ends { AreEnds self.old }
        requires alive { item.now.state ≢ 0 }
        ensures passes { IfOk result (λ kept. Passes kind item.now kept self.old self.new) }
        ensures ends { OnOk result (AreEnds self.new) }
        ensures refused { IfErr result IsLevelsRefusal }
    {
        if item.state < self.passed || item.state < self.last.state {
            return Err(disorder());
        }
        self.passed = item.state;
        let dropped = leaves_out(kind)
            && self.least.state == item.state
            && self.least.number <= item.number;
        Ok(!dropped)
    }

    /// Ends the pattern at its state, or tells whether it is kept.
    #[inline(always)]
    fn settle(&mut self, kind: MatchKind, item: &Item) -> Result<bool, BuildError>
        requires ends { AreEnds self.old }
        requires alive { item.now.state ≢ 0 }
        ensures settled { IfOk result (λ kept. SettlesItem kind item.now kept self.old self.new) }
        ensures ends { OnOk result (AreEnds self.new) }
        ensures refused { IfErr result IsLevelsRefusal }
    {
        if item.at == item.end {
            let own = Own {
                state: item.state,
                number: item.number,
            };
            self.add(own)?;
            return Ok(false);
        }
        self.pass(kind, item)
    }
}
