//! Which prefilter there is for some patterns.

ghost use Rattle.std.specs.Prelude.{◌≡◌, ◌<◌, [], length, true, IfOk, IfErr, IfSome, OnOk, OnErr, Ok, vec_items};
ghost use Rattle.std.specs.Option.{option_map};
ghost use Rattle.aho_core.specs.Patterns.{Patterns};
ghost use Rattle.aho_prefilter.specs.Prefilter.{held_for, is_searched_whole, with_word, IsPrefilterOf};
ghost use Rattle.aho_prefilter.specs.Inside.{search_for_few};

use crate::prefilter::first_bytes::FirstBytes;
use crate::prefilter::needle::Needle;
use crate::prefilter::{Prefilter, Searcher};
use std::alloc::{AllocError, Global};

/// Decides which prefilter there is for some patterns, which are added one after another.
///
/// There is none where a pattern is empty, or where there is no pattern. One pattern alone is searched for as a whole, unless
/// both cases of a letter are the same. Else the bytes with which the patterns begin are searched for, if they are three at
/// most: where both cases are the same, both count. Else there is none.
#[derive(Drop)]
pub struct PrefilterBuilder {
    alloc: Global,
    ignore_case: bool,
    /// A copy of the only pattern, where it is searched for as a whole.
    whole: Option<Vec<u8>>,
    first_bytes: FirstBytes,
}

impl PrefilterBuilder {
    ghost use Rattle.aho_prefilter.specs.Inside.{whole_with};
    ghost use Rattle.aho_prefilter.specs.Taken.{HasTaken};

    /// A builder to which no pattern was added. `ignore_case` makes an ASCII letter the same in both cases.
    pub fn new(alloc: Global, ignore_case: bool) -> PrefilterBuilder
        ensures empty { (p : Patterns) → p.words ≡ [] → p.ignore_case ≡ ignore_case
            → HasTaken result p }
    {
        PrefilterBuilder {
            alloc,
            ignore_case,
            whole: None,
            first_bytes: FirstBytes::None,
        }
    }

    /// Adds a pattern, behind those that were added before.
    ///
    /// # Errors
    ///
    /// Out of memory, for the copy of a first pattern. The builder is then unchanged.
    pub fn add(&mut self, pattern: &[u8]) -> Result<(), AllocError>
        ensures added { (p : Patterns) → HasTaken self.old p
            → OnOk result (HasTaken self.new (with_word p pattern.now)) }
        ensures unchanged { OnErr result (self.new ≡ self.old) }
        ensures wanted { (p : Patterns) → HasTaken self.old p
            → IfErr result (λ _. is_searched_whole (with_word p pattern.now) ≡ true) }
        ensures some { IfErr result (λ _. 0 < length pattern.now) }
    {
        let whole = self.copy_of_first(pattern)?;
        self.whole = whole;
        self.first_bytes = self.first_bytes.with_pattern(self.ignore_case, pattern);
        Ok(())
    }

    /// A copy of this pattern, where it is the first and may be searched for as a whole.
    fn copy_of_first(&self, pattern: &[u8]) -> Result<Option<Vec<u8>>, AllocError>
        ensures copied { (p : Patterns) → HasTaken self.now p → IfOk result
            (λ copy. option_map vec_items copy ≡ whole_with p pattern.now) }
        ensures wanted { (p : Patterns) → HasTaken self.now p
            → IfErr result (λ _. is_searched_whole (with_word p pattern.now) ≡ true) }
        ensures some { IfErr result (λ _. 0 < length pattern.now) }
    {
        if self.ignore_case || pattern.is_empty() {
            return Ok(None);
        }
        let FirstBytes::None = self.first_bytes else {
            return Ok(None);
        };
        Ok(Some(Vec::from_slice(self.alloc, pattern)?))
    }

    /// The prefilter for the patterns that were added, or none.
    ///
    /// # Errors
    ///
    /// Out of memory. It takes none today: the copy of a pattern was made as it was added.
    pub fn build(self) -> Result<Option<Prefilter>, AllocError>
        ensures held { (p : Patterns) → HasTaken self p → result ≡ Ok (held_for p) }
        ensures of { (p : Patterns) → HasTaken self p → IfOk result
            (λ held. IfSome held (λ prefilter. IsPrefilterOf prefilter p)) }
    {
        let PrefilterBuilder {
            alloc: _,
            ignore_case: _,
            whole,
            first_bytes,
        } = self;
        let searcher = match whole {
            Some(bytes) => Some(Searcher::Memmem(Needle::new(bytes))),
            None => search_for(first_bytes),
        };
        match searcher {
            Some(searcher) => Ok(Some(Prefilter { searcher })),
            None => Ok(None),
        }
    }
}

/// The search for these bytes, if they are few and there is one.
fn search_for(bytes: FirstBytes) -> Option<Searcher>
    ensures search { result ≡ search_for_few bytes }
{
    match bytes {
        FirstBytes::One(x) => Some(Searcher::Memchr(x)),
        FirstBytes::Two(x, y) => Some(Searcher::Memchr2(x, y)),
        FirstBytes::Three(x, y, z) => Some(Searcher::Memchr3(x, y, z)),
        FirstBytes::None | FirstBytes::Any => None,
    }
}
