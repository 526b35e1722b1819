//! The match of a line that is the whole line.

ghost use Rattle.std.specs.Prelude.{◌≡◌, IfOk, length};
ghost use Rattle.aho_core.specs.Patterns.{Patterns};
ghost use Rattle.chromesquid.specs.Searcher.{IsBuiltFrom, IsBuiltFromSome};
ghost use Rattle.acgrep.specs.Alone.{IsWholeOrNone, whole_match};
ghost use Rattle.acgrep.specs.Written.{IsMatched};
ghost use Rattle.acgrep.specs.declared.options.Fit.TheVariants.{WholeLine};

use crate::failure::Stop;
use chromesquid::{AhoCorasick, Match, MatchError, MatchKind};

/// Whether a pattern is the whole line.
pub fn is_whole(searcher: &AhoCorasick, line: &[u8]) -> Result<bool, Stop>
    requires of { IsBuiltFromSome searcher.now }
    ensures whole { (p : Patterns) → IsBuiltFrom searcher.now p
        → IfOk result (IsMatched p WholeLine line.now) }
{
    match find_whole(searcher, line)? {
        Some(_) => Ok(true),
        None => Ok(false),
    }
}

/// Of the matches that are the whole line that of the pattern that comes first.
pub fn find_whole(searcher: &AhoCorasick, line: &[u8]) -> Result<Option<Match>, Stop>
    requires of { IsBuiltFromSome searcher.now }
    ensures whole { (p : Patterns) → IsBuiltFrom searcher.now p
        → IfOk result (IsWholeOrNone p line.now) }
{
    match searcher.match_kind() {
        MatchKind::LeftmostLongest => match searcher.try_find(line)? {
            Some(found) => Ok(whole_match(line, found)),
            None => Ok(None),
        },
        kind => Err(Stop::Search(MatchError::unsupported_overlapping(kind))),
    }
}

/// A match, where it is the whole line.
fn whole_match(line: &[u8], found: Match) -> Option<Match>
    ensures whole { result ≡ whole_match (length line.now) found }
{
    if found.start() == 0 && found.end() == line.len() {
        return Some(found);
    }
    None
}
