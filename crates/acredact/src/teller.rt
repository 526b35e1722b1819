//! A look at the lines of texts, which tells by which patterns and rules something is covered in them.

ghost use Rattle.std.specs.Prelude.{◌≡◌, ℕ, Bool, List, IfErr, IfOk, OnErr, OnOk, ⊤};
ghost use Rattle.std.specs.Io.KnownBytes.{Appends};
ghost use Rattle.aho_devices.specs.Counts.{AppendsBeginning};
ghost use Rattle.secret_rules.specs.Visitors.{IsVisitRefusal};
ghost use Rattle.acredact.specs.Counts.{PutsText};
ghost use Rattle.acredact.specs.Findings.{findings_of, is_new, next_finding, runs_findings, with_new};
ghost use Rattle.acredact.specs.Looks.{BeginsToTell, IsReadLook, IsSeen, LooksSo, Sought};

use crate::failure::Failure;
use crate::legend::{Findings, Legend, numbers_in, put_finding, told_for};
use crate::line_rules::failure_in;
use crate::look::Look;
use crate::looker::Looker;
use chromesquid::{Automaton, FromRead, Match, Sink, StreamError, write_whole};
use secret_rules::{LineCover, LineError, LineVisitor, Rule as LineRule, visit_lines};
use std::alloc::{AllocError, Global};
use std::io::Read;
use tool_parts::reason::Reason;

/// What looks at lines, for what rules mark and patterns hold, and tells it.
#[derive(Drop)]
pub struct ByLines<'r, 'a, 's, 'q, A> {
    /// What memory is taken from.
    pub alloc: Global,
    /// What covers lines.
    pub cover: LineCover<'r, 'a, A>,
    /// What the numbers of runs stand for.
    pub legend: Legend<'s, 'q>,
}

impl<A: Automaton> Looker for ByLines<'_, '_, '_, '_, A> {
    ghost use Rattle.acredact.specs.RuledChecks.{IsByLines};

    ghost by = { λ looker s. IsByLines A.Automaton looker.cover looker.legend s };

    // The output fails or takes nothing, memory runs out, or the expression of a rule is too big.
    ghost stops = { λ _. ⊤ };

    fn look<'f, I: Read, W: Sink>(
        &mut self,
        name: &str,
        input: &mut FromRead<I>,
        output: &mut W,
    ) -> Result<Look, Failure<'f>> {
        input.restart();
        let findings = Findings {
            alloc: self.alloc,
            name: name.as_bytes(),
            legend: self.legend,
            line: 1,
            found: false,
        };
        let mut teller = Teller { output, findings };
        let done = visit_lines(&mut self.cover, input, &mut teller);
        let Teller { output, findings } = teller;
        let _output = output;
        look_of_lines(self.alloc, self.legend.rules, done, findings.found)
    }
}

/// What a file is found to be, by what is answered of its lines and whether something was found in those that were told; any other error
/// ends the check.
fn look_of_lines<'f>(
    alloc: Global,
    rules: &[LineRule],
    done: Result<(), LineError>,
    found: bool,
) -> Result<Look, Failure<'f>>
    ensures only { IfOk result IsReadLook }
    ensures why { IfErr result (λ _. ⊤) }
    ensures so { (s : Sought) (name given part : List ℕ) (ended : Bool)
        → OnOk done (IsSeen s name found given ended part)
        → OnErr done (BeginsToTell s name given ended part) → LooksSo s name result given ended part }
{
    match done {
        Ok(()) if found => Ok(Look::Found),
        Ok(()) => Ok(Look::Clean),
        Err(LineError::Stream(StreamError::Read(_))) => Ok(Look::Unread(Reason::ReadFault)),
        Err(LineError::Stream(StreamError::PositionLimit)) => {
            Ok(Look::Unread(Reason::PositionLimit))
        }
        Err(error) => Err(failure_in(alloc, rules, error)),
    }
}

/// What tells of the lines of a file as they are read.
#[derive(Drop)]
pub struct Teller<'o, 'n, 's, 'r, W> {
    /// Where it is told.
    pub output: &'o mut W,
    /// What was found by now.
    pub findings: Findings<'n, 's, 'r>,
}

impl<W: Sink> LineVisitor for Teller<'_, '_, '_, '_, W> {
    ghost use Rattle.acredact.specs.Findings.{StopsTelling, TellsLine};

    ghost visits = { λ old new line runs. TellsLine W.Sink old.output new.output old.findings new.findings runs };

    ghost stops = { λ old new line runs error. StopsTelling W.Sink old.output new.output old.findings runs };

    fn visit(&mut self, _line: &[u8], _end: &[u8], runs: &[Match]) -> Result<(), StreamError> {
        tell_runs(&mut *self.output, &self.findings, runs)?;
        self.findings = Findings {
            line: self.findings.line.saturating_add(1),
            found: self.findings.found || !runs.is_empty(),
            ..self.findings
        };
        Ok(())
    }
}

/// Tells of the runs of a line: of each number once.
fn tell_runs<W: Sink>(
    output: &mut W,
    findings: &Findings<'_, '_, '_>,
    runs: &[Match],
) -> Result<(), StreamError>
    ensures told { OnOk result (Appends (W.taken output.old) (W.taken output.new)
        (findings_of findings.now runs.now)) }
    ensures begun { OnErr result (AppendsBeginning (W.taken output.old) (W.taken output.new)
        (findings_of findings.now runs.now)) }
    ensures only { IfErr result IsVisitRefusal }
{
    if runs.is_empty() {
        return Ok(());
    }
    let mut text = Vec::new(findings.alloc);
    let mut came = vec![in findings.alloc; false; numbers_in(&findings.legend)]?;
    put_runs(&mut text, came.as_mut_slice(), findings, runs)?;
    write_whole(output, text.as_slice())
}

/// Puts what is told of some runs, where runs of these numbers came before.
fn put_runs(
    text: &mut Vec<u8>,
    came: &mut [bool],
    findings: &Findings<'_, '_, '_>,
    runs: &[Match],
) -> Result<(), AllocError>
    ensures put { OnOk result (PutsText text.old text.new (runs_findings findings.now came.old runs.now)) }
{
    for run in runs {
        let number = told_for(&findings.legend, run.pattern().as_usize());
        put_run(text, came, findings, number)?;
    }
    Ok(())
}

/// Puts what is told of a run, where its number did not come before.
fn put_run(
    text: &mut Vec<u8>,
    came: &mut [bool],
    findings: &Findings<'_, '_, '_>,
    number: usize,
) -> Result<(), AllocError>
    ensures put { OnOk result (PutsText text.old text.new (next_finding findings.now came.old number)) }
    ensures came { OnOk result (came.new ≡ with_new came.old number) }
{
    if !is_new(came, number) {
        return Ok(());
    }
    came[number] = true;
    put_finding(text, &findings.legend, findings.name, findings.line, number)
}

/// Whether no run of this number came before.
fn is_new(came: &[bool], number: usize) -> bool
    ensures new { result ≡ is_new came.now number }
{
    number < came.len() && !came[number]
}
