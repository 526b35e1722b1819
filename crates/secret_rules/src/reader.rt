//! Readers: what searches lines for an expression.

ghost use Rattle.std.specs.Prelude.{◌≡◌, ◌<◌, ◌≤◌, ◌-◌, length, option_and_then, IfOk, IfSome};
ghost use Rattle.std.specs.List.{range_with_len};
ghost use Rattle.regex.specs.Bytes.{matcher_pattern};
ghost use Rattle.regex.specs.Locations.{location, location_count, AreLocationsOf};
ghost use Rattle.regex.specs.Patterns.{Match, span};
ghost use Rattle.regex.specs.Search.{LiesWithin};
ghost use Rattle.secret_rules.specs.Expressions.{group_total};
ghost use Rattle.secret_rules.specs.Readers.{ReadsAt, ReadsNext};
ghost use Rattle.secret_rules.specs.Secrets.{first_filled, if_filled, named_in, secret_in};

use crate::expression::Expression;
use regex::CaptureLocations;
use regex::bytes::Matcher;
use std::alloc::{AllocError, Global};
use std::marker::Model;

/// A match of an expression, and the secret in it.
#[derive(Clone, Copy, Debug)]
pub(crate) struct Found {
    /// Where the match starts and ends.
    pub(crate) whole: (usize, usize),
    /// Where its secret does.
    pub(crate) secret: (usize, usize),
}

/// What searches lines for an expression. Its tables grow as it is used. Contracts see the text of the expression.
#[derive(Drop)]
pub(crate) struct Reader<'r> {
    source: &'r str,
    matcher: Matcher<'r>,
    locations: CaptureLocations,
}

impl<'r> Model for Reader<'r> {
    ghost use Rattle.std.specs.Prelude.{ℕ, List};
    ghost use Rattle.secret_rules.specs.Readers.{IsReaderOf};

    ghost Value = { List ℕ };

    ghost view = { λ r. r.source.now };

    ghost invariant = { λ r. IsReaderOf r.source.now r.matcher r.locations };
}

/// The range of the leftmost match from a place on. Its groups are written to `locations`.
fn read_at(
    matcher: &mut Matcher<'_>,
    locations: &mut CaptureLocations,
    line: &[u8],
    start: usize,
) -> Option<(usize, usize)>
    ensures found { ReadsAt matcher.old locations.new line.now start result }
    ensures within { IfSome result (LiesWithin start (length line.now)) }
    ensures same { matcher_pattern matcher.new ≡ matcher_pattern matcher.old }
    ensures count { location_count locations.new ≡ location_count locations.old }
{
    let found = matcher.captures_read_at(locations, line, start)?;
    Some((found.start(), found.end()))
}

/// The range of the match after the one that ended at `after - 1`, or of the first for 0: none that is empty at that end. Its
/// groups are written to `locations`.
fn read_next(
    matcher: &mut Matcher<'_>,
    locations: &mut CaptureLocations,
    line: &[u8],
    after: usize,
) -> Option<(usize, usize)>
    ensures found { ReadsNext matcher.old locations.new line.now after result }
    ensures within { IfSome result (λ range. (after ≤ range.1) × (range.1 ≤ length line.now)) }
    ensures same { matcher_pattern matcher.new ≡ matcher_pattern matcher.old }
    ensures count { location_count locations.new ≡ location_count locations.old }
{
    let range = read_at(matcher, locations, line, after.saturating_sub(1))?;
    if range.1 < after {
        return read_at(matcher, locations, line, after);
    }
    Some(range)
}

/// The range of a group, if it took part and is not empty.
fn filled(locations: &CaptureLocations, number: usize) -> Option<(usize, usize)>
    ensures { result ≡ option_and_then if_filled (location locations.now number) }
{
    let (start, end) = locations.get(number)?;
    if start < end {
        Some((start, end))
    } else {
        None
    }
}

/// The range of the group that a rule names, if it names one that took part and is not empty.
fn named_secret(locations: &CaptureLocations, named: usize) -> Option<(usize, usize)>
    requires known { named < location_count locations.now }
    ensures { (m : Match) → AreLocationsOf m locations.now → result ≡ named_in named m }
{
    if named == 0 {
        return None;
    }
    filled(locations, named)
}

/// The range of the first group that took part and is not empty.
fn first_secret(locations: &CaptureLocations) -> Option<(usize, usize)>
    ensures { (m : Match) → AreLocationsOf m locations.now
        → result ≡ first_filled m (range_with_len 1 (location_count locations.now - 1)) }
{
    'groups: for number in 1..locations.len() {
        if let Some(range) = filled(locations, number) {
            return Some(range);
        }
    }
    None
}

/// The range of the secret in a match.
fn secret_of(locations: &CaptureLocations, named: usize, whole: (usize, usize)) -> (usize, usize)
    requires known { named < location_count locations.now }
    ensures { (m : Match) → whole ≡ span m → AreLocationsOf m locations.now
        → result ≡ secret_in named (location_count locations.now) m }
{
    match named_secret(locations, named) {
        Some(range) => range,
        None => match first_secret(locations) {
            Some(range) => range,
            None => whole,
        },
    }
}

impl<'r> Reader<'r> {
    ghost use Rattle.secret_rules.specs.Readers.{FindsNextBy};

    /// What searches for an expression.
    pub(crate) fn new(alloc: Global, expression: &'r Expression) -> Result<Reader<'r>, AllocError>
        ensures source { IfOk result (λ reader. reader ≡ expression.entry.now) }
    {
        let matcher = expression.matcher(alloc)?;
        let locations = expression.locations(alloc)?;
        Ok(Reader {
            source: expression.as_str(),
            matcher,
            locations,
        })
    }

    /// The match after the one that ended at `after - 1`, or the first for 0: none that is empty at that end.
    pub(crate) fn next(&mut self, named: usize, line: &[u8], after: usize) -> Option<Found>
        requires known { named < group_total self.old }
        ensures found { FindsNextBy self.old named line.now after result }
        ensures within { IfSome result (λ f. (after ≤ f.whole.1) × (f.whole.1 ≤ length line.now)) }
        ensures same { self.new ≡ self.old }
    {
        let whole = read_next(&mut self.matcher, &mut self.locations, line, after)?;
        let secret = secret_of(&self.locations, named, whole);
        Some(Found { whole, secret })
    }
}
