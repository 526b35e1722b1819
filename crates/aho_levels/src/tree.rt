//! The states of the trie, added level by level and each level in its order.

ghost use Rattle.std.specs.Prelude.{◌≡◌, ◌≢◌, ◌⊎◌, ℕ, ◌+◌, ◌<◌, ◌≤◌, List, [], ◌∷◌, ◌++◌, Option, Some, length, slice_index_or, IfErr, IfOk, OnOk};
ghost use Rattle.aho_core.specs.Numbers.{greatest_index};
ghost use Rattle.aho_levels.specs.Building.{IsLevelsRefusal};
ghost use Rattle.aho_levels.specs.Growing.{IsBegunTo, IsLedToState, IsTree, MayAdd, first_names};
ghost use Rattle.aho_levels.specs.Meaning.{named_word};

use crate::states::DEAD;
use aho_core::error::BuildError;
use aho_core::search::{SmallIndex, StateID};
use std::alloc::Global;

/// The states so far, with their children.
#[derive(Drop)]
pub struct Tree {
    /// For each state the first of its children, up to that above the state added last.
    pub firsts: Vec<SmallIndex>,
    pub bytes: Vec<u8>,
    pub depths: Vec<SmallIndex>,
    /// The state above the one that was added last.
    pub parent: StateID,
}

/// The patterns are not in order.
pub fn disorder() -> BuildError
    ensures refusal { IsLevelsRefusal result }
{
    BuildError::StateIDOverflow {
        max: 0,
        requested: 0,
    }
}

/// There are more states than numbers for them.
fn overflow(requested: usize) -> BuildError
    ensures refusal { IsLevelsRefusal result }
{
    BuildError::StateIDOverflow {
        max: SmallIndex::MAX.as_usize() as u64,
        requested: requested as u64,
    }
}

impl Tree {
    /// The dead state and the root.
    ///
    /// # Errors
    ///
    /// Out of memory.
    pub fn new(alloc: Global) -> Result<Tree, BuildError>
        ensures tree { IfOk result (IsTree first_names) }
        ensures refused { IfErr result IsLevelsRefusal }
    {
        let zero = SmallIndex::new_unchecked(0);
        let mut tree = Tree {
            firsts: Vec::new(alloc),
            bytes: Vec::new(alloc),
            depths: Vec::new(alloc),
            parent: DEAD,
        };
        tree.push(0, zero)?;
        tree.push(0, zero)?;
        tree.begin(1)?;
        Ok(tree)
    }

    /// One state more.
    fn push(&mut self, byte: u8, depth: SmallIndex) -> Result<(), BuildError>
        ensures bytes { OnOk result (self.new.bytes.items ≡ self.old.bytes.items ++ byte ∷ []) }
        ensures depths { OnOk result (self.new.depths.items ≡ self.old.depths.items ++ depth ∷ []) }
        ensures firsts { self.new.firsts.items ≡ self.old.firsts.items }
        ensures parent { self.new.parent ≡ self.old.parent }
        ensures refused { IfErr result IsLevelsRefusal }
    {
        if self.bytes.push(byte).is_err() {
            return Err(BuildError::OutOfMemory);
        }
        if self.depths.push(depth).is_err() {
            return Err(BuildError::OutOfMemory);
        }
        Ok(())
    }

    /// The children of the states below this number that are not begun yet begin behind all states.
    pub fn begin(&mut self, end: usize) -> Result<(), BuildError>
        requires within { length self.old.firsts.items ≤ end }
        requires small { length self.old.bytes.items ≤ greatest_index }
        ensures begun { OnOk result (IsBegunTo end self.old self.new) }
        ensures refused { IfErr result IsLevelsRefusal }
    {
        let first = SmallIndex::new_unchecked(self.bytes.len());
        for _ in self.firsts.len()..end {
            if self.firsts.push(first).is_err() {
                return Err(BuildError::OutOfMemory);
            }
        }
        Ok(())
    }

    /// The child to which the byte leads from the state: the one that was added last, or one that is added.
    ///
    /// # Errors
    ///
    /// `StateIDOverflow` where the child would not stand in order, or has no number; or `OutOfMemory`.
    pub fn child(
        &mut self,
        parent: StateID,
        byte: u8,
        depth: SmallIndex,
    ) -> Result<StateID, BuildError>
        requires tree { (names : List (Option (List ℕ))) × (word : List ℕ)
            × IsTree names self.old × (named_word names parent ≡ Some word) × (length word + 1 ≡ depth) }
        requires small { depth ≤ greatest_index }
        ensures child { IfOk result (λ sid. (names : List (Option (List ℕ))) (word : List ℕ)
            → IsTree names self.old → named_word names parent ≡ Some word → length word + 1 ≡ depth
            → IsLedToState names (word ++ byte ∷ []) sid self.new) }
        ensures refused { IfErr result IsLevelsRefusal }
    {
        if parent > self.parent {
            return self.add(parent, byte, depth);
        }
        if parent < self.parent {
            return Err(disorder());
        }
        let last = self.bytes.len() - 1;
        let below = self.bytes[last];
        if byte == below {
            return Ok(StateID::new_unchecked(last));
        }
        if byte < below {
            return Err(disorder());
        }
        self.add(parent, byte, depth)
    }

    /// A child more, behind all states.
    fn add(&mut self, parent: StateID, byte: u8, depth: SmallIndex) -> Result<StateID, BuildError>
        requires tree { (names : List (Option (List ℕ))) × (word : List ℕ)
            × IsTree names self.old × (named_word names parent ≡ Some word) × (length word + 1 ≡ depth) }
        requires small { depth ≤ greatest_index }
        requires may { MayAdd parent byte self.old }
        ensures child { IfOk result (λ sid. (names : List (Option (List ℕ))) (word : List ℕ)
            → IsTree names self.old → named_word names parent ≡ Some word → length word + 1 ≡ depth
            → IsLedToState names (word ++ byte ∷ []) sid self.new) }
        ensures refused { IfErr result IsLevelsRefusal }
    {
        let count = self.bytes.len();
        if count >= SmallIndex::MAX.as_usize() {
            return Err(overflow(count));
        }
        self.begin(parent.as_usize() + 1)?;
        self.push(byte, depth)?;
        self.parent = parent;
        Ok(StateID::new_unchecked(count))
    }
}
