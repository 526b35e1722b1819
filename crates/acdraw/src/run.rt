//! A call of the program over its arguments and streams.

ghost use Rattle.std.specs.Prelude.{◌≡◌, ◌≢◌, ◌≤◌, ◌⊎◌, true, None, Some, IfOk, IfErr, IfSome, OnOk, option_map};
ghost use Rattle.tool_parts.specs.Answers.{TellsFailure, TellsLine};
ghost use Rattle.tool_parts.specs.Arguments.{texts};
ghost use Rattle.tool_parts.specs.Asked.{Asked, Builds, asked_for};
ghost use Rattle.tool_parts.specs.Failures.{status_of_failure};
ghost use Rattle.tool_parts.specs.Streams.{WritesBeginning, output_bytes};
ghost use Rattle.tool_parts.specs.declared.failure.Failure.TheVariants.{Usage};
ghost use Rattle.acdraw.specs.Calls.{Draws, LeavesDrawing, drawing_by, draws_anchored, usage_line};

use crate::dot::dot_of;
use crate::picture::picture_of;
use aho_devices::adapters::FromWrite;
use std::alloc::Global;
use std::io::Write;
use tool_parts::command::{Request, parse_find};
use tool_parts::failure::Failure;
use tool_parts::print::write_whole;
use tool_parts::run::{build, report};

/// What is told where the arguments are wrong.
const USAGE: &[u8] = b"usage: acdraw [-u] KIND [-i] PATTERN..\n";

/// Writes the automaton that the arguments after the program's name ask for, and answers the exit status: 0 where it was
/// written, 2 where the arguments are wrong, the automaton is refused or memory runs out, and 3 where a write fails.
///
/// Nothing is written before the whole text is made. Where the status is not 0, `errors` gets a line that says why; where
/// that line cannot be written, the status is the same.
pub fn run<W: Write, E: Write>(
    alloc: Global,
    arguments: &[String],
    output: &mut FromWrite<W>,
    errors: &mut FromWrite<E>,
) -> u8
    // Wrong arguments are told by the usage.
    ensures usage { drawing_by (texts arguments.now) ≡ None → result ≡ 2 }
    ensures tells_usage { drawing_by (texts arguments.now) ≡ None
        → WritesBeginning E.Write errors.old errors.new usage_line }

    // Of right arguments that a build accepts a whole text is written.
    ensures asked { result ≡ 0 → (asked : Asked)
        × (drawing_by (texts arguments.now) ≡ Some asked) × Builds asked }
    ensures draws { result ≡ 0 → Draws (output_bytes W.Write output.old) (output_bytes W.Write output.new) }
    ensures quiet { result ≡ 0 → errors.new ≡ errors.old }

    // Any other status is that of a failure, which is told.
    ensures statuses { (result ≡ 0) ⊎ (2 ≤ result) }
    ensures bound { result ≤ 3 }
    ensures unwritten { result ≡ 2 → output.new ≡ output.old }
    ensures tells_failure { (asked : Asked) → drawing_by (texts arguments.now) ≡ Some asked
        → 2 ≤ result → TellsFailure E.Write errors.old errors.new result
        (LeavesDrawing W.Write output.old output.new) }
{
    match answer(alloc, arguments, output) {
        Ok(()) => 0,
        Err(failure) => tell(&failure, errors),
    }
}

/// Writes why nothing was drawn as a line, and answers the exit status, whether that could be written or not.
pub fn tell<E: Write>(failure: &Failure, errors: &mut FromWrite<E>) -> u8
    ensures status { result ≡ status_of_failure failure.now }
    ensures usage { failure.now ≡ Usage
        → WritesBeginning E.Write errors.old errors.new usage_line }
    ensures other { failure.now ≢ Usage
        → TellsLine E.Write errors.old errors.new failure.now }
{
    match failure {
        Failure::Usage => {
            let _ = write_whole(errors, USAGE);
            failure.status()
        }
        _ => report(failure, errors),
    }
}

/// Writes the automaton that the arguments ask for.
fn answer<W: Write>(
    alloc: Global,
    arguments: &[String],
    output: &mut FromWrite<W>,
) -> Result<(), Failure>
    ensures usage { drawing_by (texts arguments.now) ≡ None → result ≡ Err Usage }
    ensures unwritten { drawing_by (texts arguments.now) ≡ None → output.new ≡ output.old }
    ensures asked { OnOk result ((asked : Asked)
        × (drawing_by (texts arguments.now) ≡ Some asked) × Builds asked) }
    ensures draws { OnOk result (Draws (output_bytes W.Write output.old) (output_bytes W.Write output.new)) }
    ensures leaves { (asked : Asked) → drawing_by (texts arguments.now) ≡ Some asked
        → IfErr result (LeavesDrawing W.Write output.old output.new) }
{
    match parse(arguments) {
        Some(drawing) => draw(alloc, &drawing, output),
        None => Err(Failure::Usage),
    }
}

/// What is asked for.
#[derive(Clone, Copy)]
struct Drawing<'w> {
    /// Whether the anchored start is drawn.
    anchored: bool,
    /// The automaton.
    request: Request<'w>,
}

/// [-u] KIND [-i] PATTERN..
fn parse(arguments: &[String]) -> Option<Drawing<'_>>
    ensures asked { option_map (λ drawing. asked_for drawing.request) result
        ≡ drawing_by (texts arguments.now) }
    ensures anchored { IfSome result (λ drawing.
        drawing.anchored ≡ draws_anchored (texts arguments.now)) }
{
    let (first, rest) = arguments.split_first()?;
    let unanchored = first.as_str() == "-u";
    let request = parse_find(if unanchored { rest } else { arguments })?;
    Some(Drawing {
        anchored: !unanchored,
        request,
    })
}

/// Writes what is asked for.
fn draw<W: Write>(
    alloc: Global,
    drawing: &Drawing<'_>,
    output: &mut FromWrite<W>,
) -> Result<(), Failure>
    ensures builds { OnOk result (Builds (asked_for drawing.now.request)) }
    ensures draws { OnOk result (Draws (output_bytes W.Write output.old) (output_bytes W.Write output.new)) }
    ensures leaves { IfErr result (LeavesDrawing W.Write output.old output.new) }
{
    let nfa = build(alloc, &drawing.request)?;
    let picture = picture_of(alloc, &nfa, drawing.anchored)?;
    let text = dot_of(alloc, &picture)?;
    write_whole(output, text.as_slice())
}
