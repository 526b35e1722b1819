//! What is written in the place of a run of a call with rules.

ghost use Rattle.std.specs.Prelude.{◌≡◌, option_map};
ghost use Rattle.aho_core.specs.Replacement.{pieces_of};
ghost use Rattle.aho_cover.specs.Pieces.{fixed_rule};
ghost use Rattle.acredact.specs.Files.{keyed_of};
ghost use Rattle.acredact.specs.RunPieces.{mixed_rule, pseudonyms_by};

use crate::pseudonym::Pseudonyms;
use crate::ways::Key;
use chromesquid::PatternID;
use chromesquid::any::{PatternPieces, Pieces};

/// A text for each number; where there is a key, from a number on the pseudonym of the run.
#[derive(Drop)]
pub struct RunPieces<'p, 'q> {
    texts: PatternPieces<'p, 'q>,
    names: Option<Pseudonyms>,
    from: usize,
}

impl<'p, 'q> RunPieces<'p, 'q> {
    /// These texts, and pseudonyms by a key, where there is one, from a number on.
    pub fn new(texts: &'p [&'q [u8]], key: Option<Key<'_>>, from: usize) -> RunPieces<'p, 'q>
        ensures rule { ⟦<RunPieces<'p, 'q> as Pieces>⟧.rule result ≡ mixed_rule
            (fixed_rule (pieces_of texts.entry.now)) (option_map pseudonyms_by (option_map keyed_of key.entry)) from }
    {
        let texts = PatternPieces::new(texts);
        let names = match key {
            Some(key) => Some(Pseudonyms::new(key.bytes, key.ignore_case)),
            None => None,
        };
        RunPieces { texts, names, from }
    }
}

impl<'p, 'q> Pieces for RunPieces<'p, 'q> {
    ghost use Rattle.std.specs.Prelude.{IfSome, option_map};
    ghost use Rattle.acredact.specs.RunPieces.{mixed_rule, text_or_name};

    ghost rule = { λ s. mixed_rule (⟦<PatternPieces<'p, 'q> as Pieces>⟧.rule s.texts)
        (option_map ⟦<Pseudonyms as Pieces>⟧.rule s.names) s.from };

    ghost holds = { λ s fed. IfSome s.names (λ names. ⟦<Pseudonyms as Pieces>⟧.holds names fed) };

    ghost made = { λ s number. text_or_name (⟦<PatternPieces<'p, 'q> as Pieces>⟧.made s.texts number)
        (option_map (λ names. ⟦<Pseudonyms as Pieces>⟧.made names number) s.names) s.from number };

    fn begin(&mut self) {
        if let Some(names) = &mut self.names {
            names.begin();
        }
    }

    fn feed(&mut self, bytes: &[u8]) {
        if let Some(names) = &mut self.names {
            names.feed(bytes);
        }
    }

    fn end(&mut self, pattern: PatternID) {
        if let Some(names) = &mut self.names {
            names.end(pattern);
        }
    }

    fn piece(&self, pattern: PatternID) -> &[u8] {
        match &self.names {
            Some(names) => {
                if pattern.as_usize() < self.from {
                    return self.texts.piece(pattern);
                }
                names.piece(pattern)
            }
            None => self.texts.piece(pattern),
        }
    }
}
