//! Which prefilter there is for some patterns where a packed search may be held.

ghost use Rattle.std.specs.Prelude.{◌≡◌, ◌<◌, [], length, true, OnOk, OnErr, IfOk, IfErr, IfSome, Ok};
ghost use Rattle.std.specs.Option.{option_map};
ghost use Rattle.aho_core.specs.Patterns.{Patterns};
ghost use Rattle.aho_prefilter.specs.Prefilter.{IsPrefilterOf, gives_way, held_or_packed, is_searched_whole, is_word_byte, packed_for, stops_in_words, with_word};
ghost use Rattle.aho_prefilter.specs.Taken.{AreFingerprints, HasTakenPacked};

use crate::packed::Packed;
use crate::prefilter::builder::PrefilterBuilder;
use crate::prefilter::{Prefilter, Searcher};
use std::alloc::{AllocError, Global};

/// For how many patterns a packed search is held at most. With more of them most places meet the masks.
const MOST: usize = 100;

/// How many bytes each of its patterns has at least.
const SHORTEST: usize = 2;

/// Decides which prefilter there is for some patterns, which are added one after another, where a packed search may be held.
///
/// It is a packed search, if there are at most a hundred patterns and each has at least two bytes. But it is the one of a
/// `PrefilterBuilder` where that one is better: where it searches for one whole pattern, or for first bytes of which words are
/// not made. It is that one too where there is no packed search.
#[derive(Drop)]
pub struct PackedBuilder {
    others: PrefilterBuilder,
    fingerprints: Fingerprints,
}

impl PackedBuilder {
    /// A builder to which no pattern was added. `ignore_case` makes an ASCII letter the same in both cases.
    pub fn new(alloc: Global, ignore_case: bool) -> PackedBuilder
        ensures empty { (p : Patterns) → p.words ≡ [] → p.ignore_case ≡ ignore_case
            → HasTakenPacked result p }
    {
        PackedBuilder {
            others: PrefilterBuilder::new(alloc, ignore_case),
            fingerprints: Fingerprints::new(ignore_case),
        }
    }

    /// Adds a pattern, behind those that were added before.
    ///
    /// # Errors
    ///
    /// Out of memory, for the copy of a first pattern. The builder is then unchanged.
    pub fn add(&mut self, pattern: &[u8]) -> Result<(), AllocError>
        ensures added { (p : Patterns) → HasTakenPacked self.old p
            → OnOk result (HasTakenPacked self.new (with_word p pattern.now)) }
        ensures unchanged { OnErr result (self.new ≡ self.old) }
        ensures wanted { (p : Patterns) → HasTakenPacked self.old p
            → IfErr result (λ _. is_searched_whole (with_word p pattern.now) ≡ true) }
        ensures some { IfErr result (λ _. 0 < length pattern.now) }
    {
        self.others.add(pattern)?;
        self.fingerprints.add(pattern);
        Ok(())
    }

    /// The prefilter for the patterns that were added, or none.
    ///
    /// # Errors
    ///
    /// Out of memory. It takes none today: the copy of a pattern was made as it was added.
    pub fn build(self) -> Result<Option<Prefilter>, AllocError>
        ensures held { (p : Patterns) → HasTakenPacked self p → result ≡ Ok (held_or_packed p) }
        ensures of { (p : Patterns) → HasTakenPacked self p → IfOk result
            (λ held. IfSome held (λ prefilter. IsPrefilterOf prefilter p)) }
    {
        let PackedBuilder {
            others,
            fingerprints,
        } = self;
        let other = others.build()?;
        if !gives_way(&other) {
            return Ok(other);
        }
        match fingerprints.search() {
            Some(searcher) => Ok(Some(Prefilter { searcher })),
            None => Ok(other),
        }
    }
}

/// Whether a packed search is better than this prefilter. It takes longer for each byte where no first byte of a pattern
/// occurs, and less where they occur more often than at each 500 bytes.
fn gives_way(other: &Option<Prefilter>) -> bool
    ensures gives_way { result ≡ gives_way other.now }
{
    match other {
        Some(prefilter) => stops_in_words(&prefilter.searcher),
        None => true,
    }
}

/// Whether a search stops at a byte that words are made of.
pub(crate) fn stops_in_words(searcher: &Searcher) -> bool
    ensures stops { result ≡ stops_in_words searcher.now }
{
    match searcher {
        Searcher::Memmem(_)
        | Searcher::Packed(_)
        | Searcher::PackedHeads(_)
        | Searcher::Windows(_)
        | Searcher::Strided(_) => false,
        Searcher::Memchr(x) => is_word_byte(*x),
        Searcher::Memchr2(x, y) => is_word_byte(*x) || is_word_byte(*y),
        Searcher::Memchr3(x, y, z) => is_word_byte(*x) || is_word_byte(*y) || is_word_byte(*z),
    }
}

/// Whether words are made of this byte: an ASCII letter or digit, or a byte that is not ASCII.
fn is_word_byte(byte: u8) -> bool
    ensures word { result ≡ is_word_byte byte }
{
    byte.is_ascii_alphanumeric() || !byte.is_ascii()
}

/// The packed search for some patterns, with what decides whether it is held.
#[derive(Drop)]
struct Fingerprints {
    ignore_case: bool,
    packed: Packed,
    /// How many patterns more would be too many.
    room: usize,
    /// Whether some pattern has too few bytes. Its fingerprint is not in the search.
    has_short: bool,
}

impl Fingerprints {
    /// Those of no pattern.
    fn new(ignore_case: bool) -> Fingerprints
        ensures empty { (p : Patterns) → p.words ≡ [] → p.ignore_case ≡ ignore_case
            → AreFingerprints result p }
    {
        Fingerprints {
            ignore_case,
            packed: Packed::new(),
            room: MOST + 1,
            has_short: false,
        }
    }

    /// Adds a pattern.
    fn add(&mut self, pattern: &[u8])
        ensures added { (p : Patterns) → AreFingerprints self.old p
            → AreFingerprints self.new (with_word p pattern.now) }
    {
        self.room = self.room.saturating_sub(1);
        if pattern.len() < SHORTEST {
            self.has_short = true;
            return;
        }
        self.packed.add(self.ignore_case, pattern);
    }

    /// The packed search, if it is held.
    fn search(&self) -> Option<Searcher>
        ensures search { (p : Patterns) → AreFingerprints self.now p → result ≡ packed_for p }
    {
        if self.has_short || self.room == 0 || self.room > MOST {
            return None;
        }
        Some(Searcher::Packed(self.packed))
    }
}
