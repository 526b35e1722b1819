//! Marking the lines of a text, one after another.

ghost use Rattle.std.specs.Prelude.{◌≡◌, ◌≢◌, ◌↔◌, ◌⊎◌, ◌∷◌, ◌++◌, ◌<◌, ℕ, IfErr, IfOk, IsSome, IsTrue, List, None, OnOk, [], false, length, replicate};
ghost use Rattle.std.specs.List.Sorted.{IsNonDecreasingBy};
ghost use Rattle.secret_rules.specs.Faults.{IsMarkFailure};
ghost use Rattle.secret_rules.specs.MarkLists.{LeavesOpen};
ghost use Rattle.secret_rules.specs.Markers.{AddsMarks, AreFlagsBehind, AreFlagsFor, AreMarksWith, NoneApplies, NoneIsSet, applied_marks, flag_at, whole_mark};
ghost use Rattle.secret_rules.specs.Marks.{AreAllMarks, ForRuleAt, IsRuleAt, MarksRange, StaysOpen};
ghost use Rattle.secret_rules.specs.Rules.{AppliesTo, until_of};
ghost use Rattle.secret_rules.specs.Standing.{StandsInLine};
ghost use Rattle.secret_rules.specs.declared.marks.Mark.{Mark};
ghost use Rattle.secret_rules.specs.declared.rule.Rule.{Rule};

use crate::error::MarkError;
use crate::marker::Marker;
use crate::marks::{Mark, push_mark, put_in_order, stands_from};
use crate::readers::Readers;
use crate::rules::Rules;
use std::alloc::{AllocError, Global};

/// Adds the mark of the whole line where a match of an earlier line goes on, and tells whether it goes on behind the line.
fn mark_whole(
    number: usize,
    goes_on: bool,
    text: &[u8],
    line: &[u8],
    marks: &mut Vec<Mark>,
) -> Result<bool, AllocError>
    ensures marks { OnOk result (marks.new.items
        ≡ marks.old.items ++ whole_mark goes_on number line.now) }
    ensures goes_on { IfOk result (λ still. IsTrue still
        ↔ (IsTrue goes_on × ¬ (StandsInLine text.now line.now))) }
{
    if goes_on {
        push_mark(marks, number, (0, line.len()))?;
        return Ok(!stands_from(text, line, 0));
    }
    Ok(false)
}

/// The turn of a rule at a line.
#[derive(Clone, Copy)]
struct Turn {
    /// The number of the rule.
    number: usize,
    /// Whether it applies to the line.
    applies: bool,
    /// Whether a match of an earlier line goes on.
    goes_on: bool,
}

/// Adds the marks from each match in the line on, if the rule applies to it, and tells whether one of them goes on behind it.
fn mark_begun(
    readers: &mut Readers<'_>,
    turn: Turn,
    text: &[u8],
    line: &[u8],
    marks: &mut Vec<Mark>,
) -> Result<bool, MarkError>
    requires within { turn.number < length readers.old }
    ensures marks { ForRuleAt readers.old turn.number (λ rule. OnOk result
        (marks.new.items ≡ marks.old.items ++ applied_marks turn.applies turn.number rule line.now)) }
    ensures goes_on { ForRuleAt readers.old turn.number (λ rule. IfOk result
        (λ begun. IsTrue begun ↔ (IsTrue turn.applies × LeavesOpen rule text.now line.now))) }
    ensures refused { IfErr result (IsMarkFailure turn.number) }
    ensures same { readers.new ≡ readers.old }
{
    if turn.applies {
        return readers.push_onward(turn.number, text, line, marks);
    }
    Ok(false)
}

/// Whether one of two things is so.
#[inline(always)]
fn either(one: bool, other: bool) -> bool
    ensures { IsTrue result ↔ (IsTrue one ⊎ IsTrue other) }
{
    if one { true } else { other }
}

/// Adds the marks of a rule with `until`, and tells whether a match goes on behind the line.
fn mark_onward(
    readers: &mut Readers<'_>,
    turn: Turn,
    text: &[u8],
    line: &[u8],
    marks: &mut Vec<Mark>,
) -> Result<bool, MarkError>
    requires within { turn.number < length readers.old }
    requires applies { ForRuleAt readers.old turn.number (λ rule. IsTrue turn.applies ↔ AppliesTo rule line.now) }
    requires until { ForRuleAt readers.old turn.number (λ rule. IsSome rule.until × (text.now ≡ until_of rule)) }
    ensures marks { ForRuleAt readers.old turn.number (λ rule. OnOk result
        (AddsMarks marks.old.items marks.new.items turn.number (MarksRange rule (IsTrue turn.goes_on) line.now))) }
    ensures goes_on { ForRuleAt readers.old turn.number (λ rule. IfOk result
        (λ behind. IsTrue behind ↔ StaysOpen rule (IsTrue turn.goes_on) line.now)) }
    ensures refused { IfErr result (IsMarkFailure turn.number) }
    ensures same { readers.new ≡ readers.old }
{
    let still = mark_whole(turn.number, turn.goes_on, text, line, marks)?;
    let begun = mark_begun(readers, turn, text, line, marks)?;
    Ok(either(still, begun))
}

/// Adds the marks of a rule without `until`.
fn mark_secrets(
    readers: &mut Readers<'_>,
    turn: Turn,
    line: &[u8],
    marks: &mut Vec<Mark>,
) -> Result<(), MarkError>
    requires within { turn.number < length readers.old }
    requires applies { ForRuleAt readers.old turn.number (λ rule. IsTrue turn.applies ↔ AppliesTo rule line.now) }
    requires none { ForRuleAt readers.old turn.number (λ rule. rule.until ≡ None) }
    ensures marks { ForRuleAt readers.old turn.number (λ rule. OnOk result
        (AddsMarks marks.old.items marks.new.items turn.number (MarksRange rule (IsTrue turn.goes_on) line.now))) }
    ensures refused { IfErr result (IsMarkFailure turn.number) }
    ensures same { readers.new ≡ readers.old }
{
    if turn.applies {
        readers.push_secrets(turn.number, line, marks)?;
    }
    Ok(())
}

/// Whether one of some flags is set.
fn any_set(flags: &[bool]) -> bool
    ensures { result ≡ false → NoneIsSet flags.now }
{
    let mut set = false;
    for flag in flags {
        set = either(set, *flag);
    }
    set
}

/// Sets all flags to false.
fn clear(flags: &mut [bool])
    ensures { flags.new ≡ replicate (length flags.old) false }
{
    flags.fill(false);
}

impl<'r> Marker<'r> {
    ghost use Rattle.secret_rules.specs.Marking.{HasMarked, IsLineFailure, marker_rules};

    /// What marks by these rules. No line was marked yet.
    ///
    /// # Errors
    ///
    /// Out of memory.
    pub fn new(alloc: Global, rules: &'r Rules) -> Result<Marker<'r>, AllocError>
        ensures rules { IfOk result (λ marker. marker_rules marker ≡ rules.entry.now) }
        ensures fresh { IfOk result (λ marker. HasMarked marker []) }
    {
        let readers = Readers::new(alloc, rules)?;
        let goes_on = vec![in alloc; false; rules.as_slice().len()]?;
        let applying = vec![in alloc; false; rules.as_slice().len()]?;
        Ok(Marker {
            alloc,
            readers,
            goes_on,
            some_goes_on: false,
            applying,
        })
    }

    /// Begins another text: no match goes on.
    pub fn restart(&mut self)
        ensures rules { marker_rules self.new ≡ marker_rules self.old }
        ensures fresh { HasMarked self.new [] }
    {
        clear(self.goes_on.as_mut_slice());
        self.some_goes_on = false;
    }

    /// Gives the marks of the next line, its bytes without its end, in the order in which they start. What `marks` held is lost.
    ///
    /// # Errors
    ///
    /// An expression is too big, or memory ran out. The marker is then of no more use.
    pub fn mark(&mut self, line: &[u8], marks: &mut Vec<Mark>) -> Result<(), MarkError>
        ensures marks { (lines : List (List ℕ)) → HasMarked self.old lines → OnOk result
            (AreAllMarks (marker_rules self.old) lines line.now marks.new.items) }
        ensures order { OnOk result (IsNonDecreasingBy (λ (mark : Mark). mark.start) marks.new.items) }
        ensures marked { (lines : List (List ℕ)) → HasMarked self.old lines → OnOk result
            (HasMarked self.new (lines ++ line.now ∷ [])) }
        ensures refused { IfErr result (IsLineFailure (marker_rules self.old)) }
        ensures rules { marker_rules self.new ≡ marker_rules self.old }
    {
        marks.clear();
        if self.passes_over(line) {
            return Ok(());
        }
        self.readers
            .rules()
            .tell_applying(self.alloc, line, self.applying.as_mut_slice())?;
        self.mark_all(line, marks)?;
        put_in_order(marks);
        Ok(())
    }

    /// Whether nothing is to be done at a line: no match of an earlier line goes on, and no rule applies to it.
    fn passes_over(&self, line: &[u8]) -> bool
        ensures shut { IsTrue result → NoneIsSet self.now.goes_on.items }
        ensures none { IsTrue result → NoneApplies (marker_rules self.now) line.now }
    {
        if self.some_goes_on {
            return false;
        }
        !self.readers.rules().may_apply(line)
    }

    /// Adds the marks of all rules.
    fn mark_all(&mut self, line: &[u8], marks: &mut Vec<Mark>) -> Result<(), MarkError>
        requires applying { AreFlagsFor (marker_rules self.old) line.now self.old.applying.items }
        requires none { marks.old.items ≡ [] }
        ensures marks { OnOk result (AreMarksWith (marker_rules self.old) self.old.goes_on.items line.now marks.new.items) }
        ensures goes_on { OnOk result
            (AreFlagsBehind (marker_rules self.old) self.old.goes_on.items self.new.goes_on.items line.now) }
        ensures refused { IfErr result (IsLineFailure (marker_rules self.old)) }
        ensures rules { marker_rules self.new ≡ marker_rules self.old }
    {
        self.some_goes_on = true;
        for number in 0..self.goes_on.len() {
            self.mark_by(number, line, marks)?;
        }
        self.some_goes_on = any_set(self.goes_on.as_slice());
        Ok(())
    }

    /// Adds the marks of a rule. Nothing is done where it does not apply and no match goes on.
    #[inline(always)]
    fn mark_by(
        &mut self,
        number: usize,
        line: &[u8],
        marks: &mut Vec<Mark>,
    ) -> Result<(), MarkError>
        requires within { number < length self.old.goes_on.items }
        requires applies { (rule : Rule) → IsRuleAt (marker_rules self.old) number rule
            → IsTrue (flag_at self.old.applying.items number) ↔ AppliesTo rule line.now }
        requires some { IsTrue self.old.some_goes_on }
        ensures marks { (rule : Rule) → IsRuleAt (marker_rules self.old) number rule → OnOk result
            (AddsMarks marks.old.items marks.new.items number
            (MarksRange rule (IsTrue (flag_at self.old.goes_on.items number)) line.now)) }
        ensures goes_on { (rule : Rule) → IsRuleAt (marker_rules self.old) number rule → IsSome rule.until → OnOk result
            (IsTrue (flag_at self.new.goes_on.items number)
            ↔ StaysOpen rule (IsTrue (flag_at self.old.goes_on.items number)) line.now) }
        ensures others { (k : ℕ) → k ≢ number
            → flag_at self.new.goes_on.items k ≡ flag_at self.old.goes_on.items k }
        ensures refused { IfErr result (IsMarkFailure number) }
        ensures rules { marker_rules self.new ≡ marker_rules self.old }
        ensures count { length self.new.goes_on.items ≡ length self.old.goes_on.items }
        ensures some { IsTrue self.new.some_goes_on }
        ensures applying { self.new.applying ≡ self.old.applying }
    {
        let applies = self.applying[number];
        let goes_on = self.goes_on[number];
        if !either(applies, goes_on) {
            return Ok(());
        }
        let turn = Turn {
            number,
            applies,
            goes_on,
        };
        match &self.readers.rules().as_slice()[number].until {
            Some(text) => {
                let text = text.as_bytes();
                self.goes_on[number] = mark_onward(&mut self.readers, turn, text, line, marks)?;
                Ok(())
            }
            None => mark_secrets(&mut self.readers, turn, line, marks),
        }
    }
}
