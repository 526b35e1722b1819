//! Replacement in memory.

ghost use Rattle.std.specs.Prelude.{◌≡◌, Err, length};
ghost use Rattle.aho_core.specs.declared.error.MatchErrorKind.TheVariants.{InvalidInputUnanchored};
ghost use Rattle.aho_core.specs.declared.error.replace.ReplaceError.{ReplaceError};
ghost use Rattle.aho_core.specs.declared.search.Anchored.TheVariants.{No};
ghost use Rattle.chromesquid.specs.InMemory.{EndsOverBytes, EndsOverText, ReplacesBytes, ReplacesText, RunsOverBytes, RunsOverText, StopsOverBytes, StopsOverText, WhereRefused};

use crate::searcher::AhoCorasick;
use crate::standing::{
    replace_bytes_by, replace_bytes_with_by, replace_text_by, replace_text_with_by,
};
use aho_core::error::ReplaceError;
use aho_core::search::Match;
use std::alloc::{AllocError, Global};

impl AhoCorasick {
    ghost use Rattle.chromesquid.specs.Searcher.{Answers, RefusesSearch, patterns_len_of};

    /// The text with each match replaced by the text of its pattern. A match that starts or ends inside a character is
    /// skipped: its bytes stay.
    ///
    /// There is one replacement for each pattern, and the searcher answers searches that are not anchored;
    /// `try_replace_all` tests that.
    ///
    /// # Errors
    ///
    /// The error says that memory ran out.
    pub fn replace_all(
        &self,
        alloc: Global,
        haystack: &str,
        replace_with: &[&str],
    ) -> Result<String, AllocError>
        requires starts { Answers self.now No }
        requires one_each { length replace_with.now ≡ patterns_len_of self.now }
        ensures replaced { ReplacesText self.now haystack.now replace_with.now result }
    {
        match self.try_replace_all(alloc, haystack, replace_with) {
            Ok(text) => Ok(text),
            Err(ReplaceError::Memory) => Err(AllocError),
            Err(ReplaceError::Match(_)) => unreachable!(),
        }
    }

    /// The text with each match replaced by the text of its pattern, as `replace_all` gives it.
    ///
    /// # Errors
    ///
    /// `Match` exactly where the searcher answers anchored searches alone. `Memory` where an allocation fails.
    pub fn try_replace_all(
        &self,
        alloc: Global,
        haystack: &str,
        replace_with: &[&str],
    ) -> Result<String, ReplaceError>
        requires one_each { length replace_with.now ≡ patterns_len_of self.now }
        ensures replaced { ReplacesText self.now haystack.now replace_with.now result }
        ensures refused { RefusesSearch self.now No
            → result ≡ Err (ReplaceError.Match InvalidInputUnanchored) }
        ensures error { WhereRefused result (RefusesSearch self.now No) }
    {
        if let Some(rows) = self.rows() {
            return replace_text_by(alloc, rows, self, haystack, replace_with);
        }
        match self.levels() {
            Some(levels) => replace_text_by(alloc, levels, self, haystack, replace_with),
            None => replace_text_by(alloc, self.itself(), self, haystack, replace_with),
        }
    }

    /// The bytes with each match replaced by the bytes for its pattern.
    ///
    /// There is one replacement for each pattern, and the searcher answers searches that are not anchored;
    /// `try_replace_all_bytes` tests that.
    ///
    /// # Errors
    ///
    /// The error says that memory ran out.
    pub fn replace_all_bytes(
        &self,
        alloc: Global,
        haystack: &[u8],
        replace_with: &[&[u8]],
    ) -> Result<Vec<u8>, AllocError>
        requires starts { Answers self.now No }
        requires one_each { length replace_with.now ≡ patterns_len_of self.now }
        ensures replaced { ReplacesBytes self.now haystack.now replace_with.now result }
    {
        match self.try_replace_all_bytes(alloc, haystack, replace_with) {
            Ok(bytes) => Ok(bytes),
            Err(ReplaceError::Memory) => Err(AllocError),
            Err(ReplaceError::Match(_)) => unreachable!(),
        }
    }

    /// The bytes with each match replaced by the bytes for its pattern, as `replace_all_bytes` gives them.
    ///
    /// # Errors
    ///
    /// As those of `try_replace_all`.
    pub fn try_replace_all_bytes(
        &self,
        alloc: Global,
        haystack: &[u8],
        replace_with: &[&[u8]],
    ) -> Result<Vec<u8>, ReplaceError>
        requires one_each { length replace_with.now ≡ patterns_len_of self.now }
        ensures replaced { ReplacesBytes self.now haystack.now replace_with.now result }
        ensures refused { RefusesSearch self.now No
            → result ≡ Err (ReplaceError.Match InvalidInputUnanchored) }
        ensures error { WhereRefused result (RefusesSearch self.now No) }
    {
        if let Some(rows) = self.rows() {
            return replace_bytes_by(alloc, rows, self, haystack, replace_with);
        }
        match self.levels() {
            Some(levels) => replace_bytes_by(alloc, levels, self, haystack, replace_with),
            None => replace_bytes_by(alloc, self.itself(), self, haystack, replace_with),
        }
    }

    /// Appends the text to `dst`, with what the closure appends in the place of each match. Where the closure answers
    /// false no more is replaced, and the rest is copied. A match that starts or ends inside a character is skipped.
    ///
    /// The searcher answers searches that are not anchored; `try_replace_all_with` tests that.
    ///
    /// # Errors
    ///
    /// The error says that memory ran out, or the closure answered so.
    pub fn replace_all_with<F>(
        &self,
        haystack: &str,
        dst: &mut String,
        replace_with: F,
    ) -> Result<(), AllocError>
    where
        F: FnMut(&Match, &str, &mut String) -> Result<bool, AllocError>,
        requires starts { Answers self.now No }
        requires callable { F.IsAlwaysCallable replace_with }
        ensures run { RunsOverText self.now F.FnMut haystack.now replace_with dst.old result dst.new }
    {
        match self.try_replace_all_with(haystack, dst, replace_with) {
            Ok(()) => Ok(()),
            Err(ReplaceError::Memory) => Err(AllocError),
            Err(ReplaceError::Match(_)) => unreachable!(),
        }
    }

    /// Appends the bytes to `dst`, with what the closure appends in the place of each match. Where the closure answers
    /// false no more is replaced, and the rest is copied.
    ///
    /// The searcher answers searches that are not anchored; `try_replace_all_with_bytes` tests that.
    ///
    /// # Errors
    ///
    /// The error says that memory ran out, or the closure answered so.
    pub fn replace_all_with_bytes<F>(
        &self,
        haystack: &[u8],
        dst: &mut Vec<u8>,
        replace_with: F,
    ) -> Result<(), AllocError>
    where
        F: FnMut(&Match, &[u8], &mut Vec<u8>) -> Result<bool, AllocError>,
        requires starts { Answers self.now No }
        requires callable { F.IsAlwaysCallable replace_with }
        ensures run { RunsOverBytes self.now F.FnMut haystack.now replace_with dst.old result dst.new }
    {
        match self.try_replace_all_with_bytes(haystack, dst, replace_with) {
            Ok(()) => Ok(()),
            Err(ReplaceError::Memory) => Err(AllocError),
            Err(ReplaceError::Match(_)) => unreachable!(),
        }
    }

    /// Appends the text to `dst` as `replace_all_with` does.
    ///
    /// # Errors
    ///
    /// `Match` exactly where the searcher answers anchored searches alone; then `dst` stays. `Memory` where an allocation
    /// of `dst` fails, or the closure answers so.
    pub fn try_replace_all_with<F>(
        &self,
        haystack: &str,
        dst: &mut String,
        replace_with: F,
    ) -> Result<(), ReplaceError>
    where
        F: FnMut(&Match, &str, &mut String) -> Result<bool, AllocError>,
        requires callable { F.IsAlwaysCallable replace_with }
        ensures run { EndsOverText self.now F.FnMut haystack.now replace_with dst.old result dst.new }
        ensures stopped { StopsOverText self.now F.FnMut haystack.now replace_with dst.old result dst.new }
        ensures refused { RefusesSearch self.now No
            → result ≡ Err (ReplaceError.Match InvalidInputUnanchored) }
        ensures error { WhereRefused result (RefusesSearch self.now No) }
        ensures unchanged { WhereRefused result (dst.new ≡ dst.old) }
    {
        if let Some(rows) = self.rows() {
            return replace_text_with_by(rows, self, haystack, dst, replace_with);
        }
        match self.levels() {
            Some(levels) => replace_text_with_by(levels, self, haystack, dst, replace_with),
            None => replace_text_with_by(self.itself(), self, haystack, dst, replace_with),
        }
    }

    /// Appends the bytes to `dst` as `replace_all_with_bytes` does.
    ///
    /// # Errors
    ///
    /// As those of `try_replace_all_with`.
    pub fn try_replace_all_with_bytes<F>(
        &self,
        haystack: &[u8],
        dst: &mut Vec<u8>,
        replace_with: F,
    ) -> Result<(), ReplaceError>
    where
        F: FnMut(&Match, &[u8], &mut Vec<u8>) -> Result<bool, AllocError>,
        requires callable { F.IsAlwaysCallable replace_with }
        ensures run { EndsOverBytes self.now F.FnMut haystack.now replace_with dst.old result dst.new }
        ensures stopped { StopsOverBytes self.now F.FnMut haystack.now replace_with dst.old result dst.new }
        ensures refused { RefusesSearch self.now No
            → result ≡ Err (ReplaceError.Match InvalidInputUnanchored) }
        ensures error { WhereRefused result (RefusesSearch self.now No) }
        ensures unchanged { WhereRefused result (dst.new ≡ dst.old) }
    {
        if let Some(rows) = self.rows() {
            return replace_bytes_with_by(rows, self, haystack, dst, replace_with);
        }
        match self.levels() {
            Some(levels) => replace_bytes_with_by(levels, self, haystack, dst, replace_with),
            None => replace_bytes_with_by(self.itself(), self, haystack, dst, replace_with),
        }
    }
}
