//! The readers of the expressions of some rules.

ghost use Rattle.std.specs.Prelude.{◌≡◌, ◌↔◌, ◌<◌, ◌++◌, ◌∷◌, IfErr, IfOk, IsTrue, OnErr, OnOk, Some, [], length, slice_get};
ghost use Rattle.secret_rules.specs.Faults.{IsMarkFailure};
ghost use Rattle.secret_rules.specs.MarkLists.{LeavesOpen, onward_marks, secret_marks};
ghost use Rattle.secret_rules.specs.Marks.{ForRuleAt};
ghost use Rattle.secret_rules.specs.Places.{ArePlacesOf};
ghost use Rattle.secret_rules.specs.Rules.{AreSound, regex_of};

use crate::error::MarkError;
use crate::expression::Expression;
use crate::marks::{Mark, push_onward, push_secrets};
use crate::reader::Reader;
use crate::rules::Rules;
use std::alloc::{AllocError, Global};
use std::marker::Model;

/// The readers of some rules: each is made when it is first needed, and kept. Contracts see the rules.
#[derive(Drop)]
pub(crate) struct Readers<'r> {
    alloc: Global,
    rules: &'r Rules,
    readers: Vec<Reader<'r>>,
    /// Of each rule the place of its reader, once there is one.
    places: Vec<Option<usize>>,
}

impl<'r> Model for Readers<'r> {
    ghost use Rattle.std.specs.Prelude.{List};
    ghost use Rattle.secret_rules.specs.Places.{ArePlacesOf};
    ghost use Rattle.secret_rules.specs.declared.rule.Rule.{Rule};

    ghost Value = { List Rule };

    ghost view = { λ r. r.rules.now };

    ghost invariant = { λ r. ArePlacesOf r.rules.now r.readers.items r.places.items };
}

/// Adds the reader of an expression.
fn push_reader<'r>(
    alloc: Global,
    readers: &mut Vec<Reader<'r>>,
    expression: &'r Expression,
) -> Result<(), AllocError>
    ensures added { OnOk result (readers.new.items ≡ readers.old.items ++ expression.entry.now ∷ []) }
    ensures kept { OnErr result (readers.new.items ≡ readers.old.items) }
{
    let reader = Reader::new(alloc, expression)?;
    readers.push(reader)?;
    Ok(())
}

/// The place of the reader of a rule. It is made if there is none.
fn place_of<'r>(
    alloc: Global,
    rules: &'r Rules,
    readers: &mut Vec<Reader<'r>>,
    places: &mut [Option<usize>],
    number: usize,
) -> Result<usize, MarkError>
    requires within { number < length rules.now }
    requires are { ArePlacesOf rules.now readers.old.items places.old }
    ensures are { ArePlacesOf rules.entry.now readers.new.items places.new }
    ensures place { ForRuleAt rules.entry.now number (λ rule. IfOk result (λ at. slice_get readers.new.items at ≡ Some (regex_of rule))) }
    ensures sound { AreSound rules.entry.now }
    ensures refused { IfErr result (IsMarkFailure number) }
{
    let _rules = rules.as_slice();
    if let Some(place) = places[number] {
        return Ok(place);
    }
    let place = readers.len();
    let expression = rules.expression(alloc, number)?;
    push_reader(alloc, readers, expression)?;
    places[number] = Some(place);
    Ok(place)
}

impl<'r> Readers<'r> {
    /// The readers of these rules, of which none was needed yet.
    pub(crate) fn new(alloc: Global, rules: &'r Rules) -> Result<Readers<'r>, AllocError>
        ensures rules { IfOk result (λ readers. readers ≡ rules.entry.now) }
    {
        let places = vec![in alloc; None; rules.as_slice().len()]?;
        Ok(Readers {
            alloc,
            rules,
            readers: Vec::new(alloc),
            places,
        })
    }

    /// The rules.
    pub(crate) fn rules(&self) -> &'r Rules
        ensures { result.now ≡ self.now }
    {
        self.rules
    }

    /// Adds the marks of the secrets that a rule finds in a line.
    pub(crate) fn push_secrets(
        &mut self,
        number: usize,
        line: &[u8],
        marks: &mut Vec<Mark>,
    ) -> Result<(), MarkError>
        requires within { number < length self.old }
        ensures marks { ForRuleAt self.old number (λ rule. OnOk result
            (marks.new.items ≡ marks.old.items ++ secret_marks number rule line.now)) }
        ensures refused { IfErr result (IsMarkFailure number) }
        ensures same { self.new ≡ self.old }
    {
        let named = self.rules.as_slice()[number].secret_group;
        let place = place_of(
            self.alloc,
            self.rules,
            &mut self.readers,
            &mut self.places,
            number,
        )?;
        push_secrets(&mut self.readers[place], number, named, line, marks)?;
        Ok(())
    }

    /// Adds the marks of a rule from each match in a line on, and tells whether one of them goes on: whether the text stands nowhere
    /// behind it.
    pub(crate) fn push_onward(
        &mut self,
        number: usize,
        text: &[u8],
        line: &[u8],
        marks: &mut Vec<Mark>,
    ) -> Result<bool, MarkError>
        requires within { number < length self.old }
        ensures marks { ForRuleAt self.old number (λ rule. OnOk result
            (marks.new.items ≡ marks.old.items ++ onward_marks number rule line.now)) }
        ensures goes_on { ForRuleAt self.old number (λ rule. IfOk result (λ goes_on.
            IsTrue goes_on ↔ LeavesOpen rule text.now line.now)) }
        ensures refused { IfErr result (IsMarkFailure number) }
        ensures same { self.new ≡ self.old }
    {
        let place = place_of(
            self.alloc,
            self.rules,
            &mut self.readers,
            &mut self.places,
            number,
        )?;
        Ok(push_onward(&mut self.readers[place], number, text, line, marks)?)
    }
}
