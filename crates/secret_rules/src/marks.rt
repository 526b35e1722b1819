//! Marks: which ranges of a line one rule marks.

ghost use Rattle.std.specs.Prelude.{◌≡◌, ◌↔◌, ◌⊎◌, ◌<◌, ◌++◌, IfOk, IsTrue, OnOk, map};
ghost use Rattle.std.specs.List.Sorted.{IsNonDecreasingBy};
ghost use Rattle.aho_core.specs.Listing.{IsMember};
ghost use Rattle.secret_rules.specs.Expressions.{group_total};
ghost use Rattle.secret_rules.specs.MarkLists.{HasOneOpen, mark_at, marks_at, onward};
ghost use Rattle.secret_rules.specs.Secrets.{match_ranges, secrets_in};
ghost use Rattle.secret_rules.specs.Standing.{StandsFrom};
ghost use Rattle.secret_rules.specs.declared.marks.Mark.{Mark};

use crate::reader::Reader;
use memchr::memmem;
use std::alloc::AllocError;

/// A range of a line that a rule marks.
#[derive(Clone, Copy, Debug, PartialEq, Eq)]
pub struct Mark {
    /// The number of the rule.
    pub rule: usize,
    /// Where the range starts.
    pub start: usize,
    /// Where it ends.
    pub end: usize,
}

/// Adds the mark of a range, unless it is empty.
pub(crate) fn push_mark(
    marks: &mut Vec<Mark>,
    rule: usize,
    range: (usize, usize),
) -> Result<(), AllocError>
    ensures { OnOk result (marks.new.items ≡ marks.old.items ++ mark_at rule range) }
{
    let (start, end) = range;
    if start < end {
        marks.push(Mark { rule, start, end })?;
    }
    Ok(())
}

/// Puts marks into the order in which they start.
pub(crate) fn put_in_order(marks: &mut Vec<Mark>)
    ensures order { IsNonDecreasingBy (λ (mark : Mark). mark.start) marks.new.items }
    ensures same { (mark : Mark) → IsMember marks.new.items mark ↔ IsMember marks.old.items mark }
{
    marks.sort_unstable_by_key(|mark| mark.start);
}

/// Adds the marks of all secrets in a line.
pub(crate) fn push_secrets(
    reader: &mut Reader<'_>,
    rule: usize,
    named: usize,
    line: &[u8],
    marks: &mut Vec<Mark>,
) -> Result<(), AllocError>
    requires known { named < group_total reader.old }
    ensures marks { OnOk result (marks.new.items
        ≡ marks.old.items ++ marks_at rule (secrets_in reader.old named line.now)) }
    ensures same { reader.new ≡ reader.old }
{
    let mut after = 0;
    'matches: while let Some(found) = reader.next(named, line, after) {
        push_mark(marks, rule, found.secret)?;
        after = found.whole.1 + 1;
    }
    Ok(())
}

/// Whether a text stands in a line, at a place or behind it.
pub(crate) fn stands_from(text: &[u8], line: &[u8], from: usize) -> bool
    ensures { IsTrue result ↔ StandsFrom text.now line.now from }
{
    if from > line.len() {
        return false;
    }
    memmem::find(&line[from..], text).is_some()
}

/// Whether a match goes on: one before, or that which ends at this place.
fn opens(goes_on: bool, text: &[u8], line: &[u8], end: usize) -> bool
    ensures { IsTrue result ↔ (IsTrue goes_on ⊎ (¬ (StandsFrom text.now line.now end))) }
{
    if goes_on {
        return true;
    }
    !stands_from(text, line, end)
}

/// Adds a mark from each match on to the end of the line, and tells whether one of them goes on: whether the text stands nowhere
/// behind it.
pub(crate) fn push_onward(
    reader: &mut Reader<'_>,
    rule: usize,
    text: &[u8],
    line: &[u8],
    marks: &mut Vec<Mark>,
) -> Result<bool, AllocError>
    requires known { 0 < group_total reader.old }
    ensures marks { OnOk result (marks.new.items
        ≡ marks.old.items ++ marks_at rule (map (onward line.now) (match_ranges reader.old line.now))) }
    ensures goes_on { IfOk result (λ goes_on. IsTrue goes_on
        ↔ HasOneOpen text.now line.now (match_ranges reader.old line.now)) }
    ensures same { reader.new ≡ reader.old }
{
    let mut goes_on = false;
    let mut after = 0;
    'matches: while let Some(found) = reader.next(0, line, after) {
        push_mark(marks, rule, (found.whole.0, line.len()))?;
        goes_on = opens(goes_on, text, line, found.whole.1);
        after = found.whole.1 + 1;
    }
    Ok(goes_on)
}
