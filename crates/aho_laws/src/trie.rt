//! Laws of the trie: its words are the states of an automaton, and its definitions mean what they literally say.

ghost use Rattle.std.specs.Prelude.{◌≡◌, ◌≤◌, ◌⊎◌, ◌↔◌, ℕ, true, List, Option, length, ◌≢◌, ◌+◌, ◌*◌, ◌<◌, false, [], ◌∷◌, ◌++◌, Some, None, take};
ghost use Rattle.aho_core.specs.Bytes.{IsSameWord, folded, folded_word};
ghost use Rattle.aho_core.specs.Failure.{failure_of};
ghost use Rattle.aho_core.specs.Held.{held_after};
ghost use Rattle.aho_core.specs.Laws.{patterns_ending};
ghost use Rattle.aho_core.specs.Listing.{IsMember, IsListedBy};
ghost use Rattle.aho_core.specs.MatchList.{matches_of, own_matches};
ghost use Rattle.aho_core.specs.Patterns.{Patterns, pattern_at};
ghost use Rattle.aho_core.specs.Step.{follow, lookups, lookups_along};
ghost use Rattle.aho_core.specs.Trie.{is_kept, is_node};
ghost use Rattle.aho_laws.specs.TrieLaws.{BeginsKept, FollowsLinks, HasLaws, IsBegun, IsCounted, IsLongerOrFirst, IsLongestNode, IsOwnPattern, IsSuffixOf, IsTrieState, OccursBefore};
ghost use Rattle.aho_core.specs.declared.search.Anchored.{Anchored};
ghost use Rattle.aho_core.specs.declared.search.Anchored.TheVariants.{No, Yes};
ghost use Rattle.aho_core.specs.declared.search.MatchKind.TheVariants.{Standard, LeftmostFirst};

/// The words of the trie, with one dead state, are the states of an automaton that has the laws:
/// for all patterns, match kinds, case rules and anchorings. Its look-ups are paid by the length of
/// its states.
pub fn word_automaton()
    ensures laws { (p : Patterns) → HasLaws p }
    ensures look_ups { (p : Patterns) → IsCounted p }
{}

/// The state after one byte more is found from the state and that byte alone. The steps of a word,
/// from the start on, look up at most two states for each byte.
pub fn steps_by_bytes()
    ensures step { (p : Patterns) (anchored : Anchored) (word : List ℕ) (byte : ℕ)
        → held_after p anchored (word ++ byte ∷ [])
        ≡ follow p anchored (held_after p anchored word) (folded p byte) }
    ensures look_ups { (p : Patterns) (anchored : Anchored) (word : List ℕ)
        → lookups_along p anchored (held_after p anchored []) (folded_word p word)
        ≤ 2 * length word }
{}

/// By the standard kind the state after a word lists just the patterns that are suffixes of the
/// word, the longest first, and of equal ones the least number first.
pub fn lists_the_suffixes()
    ensures members { (p : Patterns) (word : List ℕ) (number : ℕ)
        → p.kind ≡ Standard
        → (IsMember (matches_of p (held_after p No word)) number ↔ IsSuffixOf p word number) }
    ensures longest_first { (p : Patterns) (word : List ℕ)
        → p.kind ≡ Standard
        → IsListedBy (IsLongerOrFirst p) (matches_of p (held_after p No word)) }
    ensures in_order { (p : Patterns) (word : List ℕ)
        → p.kind ≡ Standard
        → matches_of p (held_after p No word) ≡ patterns_ending p word }
{}

/// Each word has a longest suffix that is a node, and a state that is not dead is that suffix. A
/// state is dead just where the kind is leftmost and a pattern occurs in the word that starts
/// before that suffix; and after a nonempty word of an anchored search by the standard kind just where
/// that word begins no pattern.
pub fn reads_literally()
    ensures some { (p : Patterns) (word : List ℕ)
        → (node : List ℕ) × IsLongestNode p (folded_word p word) node }
    ensures longest { (p : Patterns) (word node : List ℕ)
        → held_after p No word ≡ Some node → IsLongestNode p (folded_word p word) node }
    ensures dead { (p : Patterns) (word node : List ℕ)
        → IsLongestNode p (folded_word p word) node
        → ((held_after p No word ≡ None)
        ↔ ((p.kind ≢ Standard) × OccursBefore p word (length node))) }
    ensures anchored { (p : Patterns) (byte : ℕ) (word : List ℕ)
        → p.kind ≡ Standard
        → ((held_after p Yes (byte ∷ word) ≡ None)
        ↔ ((number : ℕ) → number < length p.words
        → IsSameWord p (byte ∷ word) (take (length (byte ∷ word)) (pattern_at p number)) → ⊥)) }
{}

/// The nodes are the root and the words that begin a kept pattern. A pattern is left out just where
/// the kind is `LeftmostFirst` and an earlier, shorter pattern begins it.
pub fn trie_reads_literally()
    ensures nodes { (p : Patterns) (word : List ℕ)
        → ((is_node p word ≡ true) ↔ ((word ≡ []) ⊎ BeginsKept p word)) }
    ensures left_out { (p : Patterns) (number : ℕ)
        → ((is_kept p number ≡ false) ↔ ((p.kind ≡ LeftmostFirst) × IsBegun p number)) }
{}

/// Where a node leads on failure: to its longest proper suffix that is a node; but the link is dead
/// just where the kind is leftmost and a pattern occurs in the node that starts before that suffix.
pub fn links_read_literally()
    ensures longest { (p : Patterns) (byte : ℕ) (word link : List ℕ)
        → failure_of p (folded_word p (byte ∷ word)) ≡ Some link
        → IsLongestNode p (folded_word p word) link }
    ensures dead { (p : Patterns) (byte : ℕ) (word node : List ℕ)
        → IsLongestNode p (folded_word p word) node
        → ((failure_of p (folded_word p (byte ∷ word)) ≡ None)
        ↔ ((p.kind ≢ Standard) × OccursBefore p (byte ∷ word) (length node))) }
{}

/// What a node lists: by the leftmost kinds its own patterns where it has any, and else what its
/// failure link lists; by the standard kind its own patterns and then those of its link. Its own
/// patterns are the kept ones that are equal to it, by number. The dead state lists none, and the
/// root just its own.
pub fn lists_read_literally()
    ensures own { (p : Patterns) (word : List ℕ) (number : ℕ)
        → (IsMember (own_matches p word) number ↔ IsOwnPattern p word number) }
    ensures by_number { (p : Patterns) (word : List ℕ)
        → IsListedBy (λ j k. j < k) (own_matches p word) }
    ensures leftmost_own { (p : Patterns) (byte : ℕ) (word : List ℕ)
        → p.kind ≢ Standard → own_matches p (byte ∷ word) ≢ []
        → matches_of p (Some (byte ∷ word)) ≡ own_matches p (byte ∷ word) }
    ensures leftmost_linked { (p : Patterns) (byte : ℕ) (word : List ℕ)
        → p.kind ≢ Standard → own_matches p (byte ∷ word) ≡ []
        → matches_of p (Some (byte ∷ word)) ≡ matches_of p (failure_of p (byte ∷ word)) }
    ensures standard { (p : Patterns) (byte : ℕ) (word : List ℕ)
        → p.kind ≡ Standard
        → matches_of p (Some (byte ∷ word))
        ≡ own_matches p (byte ∷ word) ++ matches_of p (failure_of p (byte ∷ word)) }
    ensures root { (p : Patterns) → matches_of p (Some []) ≡ own_matches p [] }
    ensures dead { (p : Patterns) → matches_of p None ≡ [] }
{}

/// A step looks up one state more than it follows failure links, until a state takes the byte; an
/// anchored step follows none.
pub fn look_ups_read_literally()
    ensures one_more { (p : Patterns) (state : Option (List ℕ)) (byte links : ℕ)
        → IsTrieState p state → FollowsLinks p state byte links
        → lookups p No state byte ≡ 1 + links }
    ensures some { (p : Patterns) (state : Option (List ℕ)) (byte : ℕ)
        → (links : ℕ) × FollowsLinks p state byte links }
    ensures anchored { (p : Patterns) (state : Option (List ℕ)) (byte : ℕ)
        → lookups p Yes state byte ≡ 1 }
{}
