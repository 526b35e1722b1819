//! The prefilter of a build: its patterns are collected while the trie is made.

ghost use Rattle.std.specs.Prelude.{◌≡◌, [], IfOk, OnOk, Ok};
ghost use Rattle.aho_core.specs.Patterns.{Patterns};
ghost use Rattle.aho_build.specs.Prefilters.{Collects, held_by};
ghost use Rattle.aho_build.specs.declared.settings.Settings.{Settings};
ghost use Rattle.aho_prefilter.specs.Prefilter.{with_word};

use crate::settings::Settings;
use aho_prefilter::prefilter::{Prefilter, PrefilterBuilder};
use std::alloc::{AllocError, Global};

/// What is kept of the patterns for a prefilter, where the settings want one.
#[derive(Drop)]
pub struct PrefilterPatterns {
    builder: Option<PrefilterBuilder>,
}

impl PrefilterPatterns {
    /// No pattern yet.
    pub fn new(alloc: Global, settings: &Settings) -> PrefilterPatterns
        ensures empty { (p : Patterns) → p.words ≡ []
            → p.ignore_case ≡ settings.now.ignore_case
            → Collects settings.now p result }
    {
        if !settings.prefilter {
            return PrefilterPatterns { builder: None };
        }
        let builder = PrefilterBuilder::new(alloc, settings.ignore_case);
        PrefilterPatterns {
            builder: Some(builder),
        }
    }

    /// One pattern more.
    ///
    /// # Errors
    ///
    /// Out of memory.
    pub fn add(&mut self, pattern: &[u8]) -> Result<(), AllocError>
        ensures added { (settings : Settings) (p : Patterns) → Collects settings p self.old
            → OnOk result (Collects settings (with_word p pattern.now) self.new) }
    {
        match &mut self.builder {
            Some(builder) => builder.add(pattern),
            None => Ok(()),
        }
    }

    /// The prefilter for these patterns; none where the settings want none, or there is none for them.
    ///
    /// # Errors
    ///
    /// Out of memory.
    pub fn build(self) -> Result<Option<Prefilter>, AllocError>
        ensures held { (settings : Settings) (p : Patterns) → Collects settings p self
            → result ≡ Ok (held_by settings p) }
    {
        match self.builder {
            Some(builder) => builder.build(),
            None => Ok(None),
        }
    }
}
