//! What `acfind replace` does: replacement from a reader to a writer, through a buffer of fixed length.

ghost use Rattle.std.specs.Prelude.{◌≡◌, ◌%◌, ⊤, true, IfErr, IfOk, OnOk, length};
ghost use Rattle.aho_core.specs.Replacement.{pieces_of};
ghost use Rattle.chromesquid.specs.Searcher.{IsBuiltFrom, patterns_len_of};
ghost use Rattle.tool_parts.specs.Answers.{BuildsFirstToReplace, LeavesIfNotReplaced, WritesIfOk};
ghost use Rattle.tool_parts.specs.Arguments.{texts};
ghost use Rattle.tool_parts.specs.Asked.{BuildsReplacing, OfReplacing, Replacing, at_even, at_odd, patterns_to_replace, replacing_for};
ghost use Rattle.tool_parts.specs.Automata.{IsNFAFor};
ghost use Rattle.tool_parts.specs.Failures.{LeavesReplacing};
ghost use Rattle.tool_parts.specs.Streams.{CountsFaults};

use crate::failure::Failure;
use crate::print::flush;
use crate::searcher::searcher_by;
use chromesquid::noncontiguous::NFA;
use chromesquid::{AhoCorasick, AhoCorasickBuilder, FromRead, FromWrite};
use std::alloc::{AllocError, Global};
use std::io::{Read, Write};

/// Patterns, and for each the piece that is written in the place of its matches.
#[derive(Drop)]
struct Pairs<'a> {
    patterns: Vec<&'a [u8]>,
    pieces: Vec<&'a [u8]>,
}

/// Writes the input to the output with a piece in the place of each match, and flushes. Each of the patterns is followed by
/// its piece. It takes all memory before it reads, and where it fails then, a beginning may have been written.
pub fn replace<R: Read, W: Write>(
    alloc: Global,
    arguments: &[String],
    input: &mut FromRead<R>,
    output: &mut FromWrite<W>,
) -> Result<(), Failure>
    requires even { length arguments.now % 2 ≡ 0 }

    // The automaton is built before anything is read.
    ensures built_first { BuildsFirstToReplace
        input.old input.new (replacing_for (texts arguments.now)) }
    ensures replaces { WritesIfOk W.Write input.old input.new
        output.old output.new result (replacing_for (texts arguments.now)) }
    ensures flushed { OnOk result (output.new.device.flushed ≡ true) }
    ensures leaves { LeavesIfNotReplaced W.Write input.old input.new
        output.old output.new result (replacing_for (texts arguments.now)) }
    ensures faults { CountsFaults input.old input.new output.old output.new result }
{
    let pairs = split(alloc, arguments)?;
    let patterns = pairs.patterns.as_slice();
    let pieces = pairs.pieces.as_slice();
    let automaton = build(alloc, patterns)?;
    let searcher = searcher_by(alloc, AhoCorasickBuilder::new(), automaton, patterns);
    replace_all(alloc, &searcher, pieces, input, output)?;
    flush(output)
}

/// The arguments at even places are patterns, and those at odd places their pieces.
fn split<'a>(alloc: Global, arguments: &'a [String]) -> Result<Pairs<'a>, AllocError>
    requires even { length arguments.now % 2 ≡ 0 }
    ensures patterns { IfOk result (λ pairs.
        pieces_of pairs.patterns.items ≡ at_even (texts arguments.now)) }
    ensures pieces { IfOk result (λ pairs.
        pieces_of pairs.pieces.items ≡ at_odd (texts arguments.now)) }
{
    let mut patterns = Vec::new(alloc);
    let mut pieces = Vec::new(alloc);
    let mut rest = arguments;
    while rest.len() >= 2 {
        patterns.push(rest[0].as_bytes())?;
        pieces.push(rest[1].as_bytes())?;
        rest = &rest[2..];
    }
    Ok(Pairs { patterns, pieces })
}

/// The automaton of the patterns.
fn build(alloc: Global, patterns: &[&[u8]]) -> Result<NFA, Failure>
    ensures of { (asked : Replacing) → asked.patterns ≡ pieces_of patterns.now → IfOk result
        (IsNFAFor (patterns_to_replace asked)) }
    ensures leaves { IfErr result (LeavesReplacing ⊤ ⊥ ⊥ ⊥) }
    ensures accepted { (asked : Replacing) → asked.patterns ≡ pieces_of patterns.now
        → OnOk result (BuildsReplacing asked) }
{
    Ok(NFA::new(alloc, patterns.iter().copied())?)
}

/// Writes the input to the output with a piece in the place of each match.
fn replace_all<R: Read, W: Write>(
    alloc: Global,
    searcher: &AhoCorasick,
    pieces: &[&[u8]],
    input: &mut FromRead<R>,
    output: &mut FromWrite<W>,
) -> Result<(), Failure>
    requires one_each { length pieces.now ≡ patterns_len_of searcher.now }
    ensures replaces { OfReplacing (IsBuiltFrom searcher.now) (pieces_of pieces.now)
        (WritesIfOk W.Write input.old input.new output.old output.new result) }
    ensures leaves { OfReplacing (IsBuiltFrom searcher.now) (pieces_of pieces.now)
        (LeavesIfNotReplaced W.Write input.old input.new output.old output.new result) }
    ensures faults { CountsFaults input.old input.new output.old output.new result }
{
    input.restart();
    Ok(searcher.try_stream_replace_all(alloc, input, output, pieces)?)
}
