//! The searcher by which `acfind` searches. It is made of the automaton that was built before anything was read, by the builder of
//! `chromesquid`, which decides by what to search. No answer depends on that.

ghost use Rattle.std.specs.Prelude.{◌≡◌, IfOk, map, string_bytes};
ghost use Rattle.aho_core.specs.Replacement.{pieces_of};
ghost use Rattle.aho_build.specs.Items.{patterns_of};
ghost use Rattle.chromesquid.specs.Building.{HasMatchKind, HasStartKind};
ghost use Rattle.chromesquid.specs.Searcher.{IsBuiltFrom};
ghost use Rattle.chromesquid.specs.declared.kinds.StartKind.TheVariants.{Unanchored};
ghost use Rattle.tool_parts.specs.Asked.{kind_of, settings_for, task_patterns};
ghost use Rattle.tool_parts.specs.Automata.{IsNFAFor};

use crate::command::Task;
use chromesquid::noncontiguous::NFA;
use chromesquid::{AhoCorasick, AhoCorasickBuilder, AhoCorasickKind, Automaton};
use std::alloc::{AllocError, Global};

/// The bytes of some arguments.
pub(crate) fn bytes_of(alloc: Global, arguments: &[String]) -> Result<Vec<&[u8]>, AllocError>
    ensures bytes { IfOk result (λ patterns.
        pieces_of patterns.items ≡ map string_bytes arguments.now) }
{
    let mut patterns = Vec::new(alloc);
    for argument in arguments {
        patterns.push(argument.as_bytes())?;
    }
    Ok(patterns)
}

/// The searcher of these patterns by the automaton of them, built as it is asked for. What memory is refused for is left out.
pub(crate) fn searcher_by(
    alloc: Global,
    builder: AhoCorasickBuilder,
    automaton: NFA,
    patterns: &[&[u8]],
) -> AhoCorasick
    requires of { IsNFAFor (patterns_of builder.settings patterns.now) automaton }
    ensures of { IsBuiltFrom result (patterns_of builder.settings patterns.now) }
    ensures kind { HasMatchKind builder.settings.kind result }
    ensures start { HasStartKind builder.start_kind result }
{
    let sure = builder.best_effort(true);
    match sure.build_from_noncontiguous(alloc, automaton, patterns) {
        Ok(searcher) => searcher,
        Err(_) => unreachable!(),
    }
}

/// How the searcher of a task is built, with rows or without.
fn builder_for(task: Task, rows: bool) -> AhoCorasickBuilder
    ensures settings { result.settings ≡ settings_for task }
    ensures start { result.start_kind ≡ Unanchored }
{
    let kind = if rows {
        AhoCorasickKind::Hybrid
    } else {
        AhoCorasickKind::NoncontiguousNFA
    };
    AhoCorasickBuilder::new()
        .match_kind(task.kind())
        .ascii_case_insensitive(task.ignore_case())
        .kind(Some(kind))
}

/// The searcher of the patterns of a task by the automaton of them, for a text of so many bytes. It has no rows where the text is
/// shorter than the automaton: to make them then takes longer than to search.
pub(crate) fn searcher_for(
    alloc: Global,
    automaton: NFA,
    task: Task,
    patterns: &[&[u8]],
    text_len: usize,
) -> AhoCorasick
    requires of { IsNFAFor (task_patterns task (pieces_of patterns.now)) automaton }
    ensures of { IsBuiltFrom result (task_patterns task (pieces_of patterns.now)) }
    ensures kind { HasMatchKind (kind_of task) result }
    ensures start { HasStartKind Unanchored result }
{
    let builder = builder_for(task, text_len >= automaton.memory_usage());
    searcher_by(alloc, builder, automaton, patterns)
}
