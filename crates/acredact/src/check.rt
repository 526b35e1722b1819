//! A check: whether something would be replaced in files. It writes nothing but warnings and failures.

ghost use Rattle.std.specs.Prelude.{◌≡◌, ◌≤◌, OnOk};
ghost use Rattle.acredact.specs.Arguments.{GivesNoPattern, all_given};
ghost use Rattle.acredact.specs.Checks.{ChecksGiven, EndsCheck};
ghost use Rattle.acredact.specs.Statuses.{check_status};

use crate::doubts::warn_of_lists;
use crate::failure::{FAILED, Failure, report};
use crate::folder::Folder;
use crate::load::rules;
use crate::look::{Searched, Verdict, look_at_files};
use crate::looker::ByPatterns;
use crate::mistakes::Mistake;
use crate::options::{Item, Word, gives_pattern, has, words};
use crate::prepare::ready_of;
use chromesquid::{FromRead, Nowhere, Sink};
use std::alloc::Global;
use std::io::Read;
use tool_parts::errors::Errors;

/// The exit status where something would be replaced.
const FOUND: u8 = 1;

/// Tells of doubtful patterns of lists, looks for the patterns in each file, tells those that cannot be read, and answers the exit status: 1 where a pattern occurs in
/// one, or stands as a word where words are asked for, 0 where none does, and 2 where not each was read to its end or up to a match.
pub fn check<F: Folder, I: Read, E: Sink>(
    alloc: Global,
    given: &[Item<'_>],
    folder: &F,
    input: &mut FromRead<I>,
    errors: &mut Errors<'_, E>,
) -> u8
    ensures patternless { GivesNoPattern (all_given given.now) → result ≡ 2 }
    ensures unread { GivesNoPattern (all_given given.now) → input.new ≡ input.old }
    ensures says { EndsCheck E.Sink F.Folder folder.now (all_given given.now) result
        input.old input.new errors.old errors.new }
    ensures bound { result ≤ 2 }
{
    match check_given(alloc, given, folder, input, errors) {
        Ok(verdict) => status_of(verdict),
        Err(failure) => report(&failure, errors),
    }
}

/// The exit status of what was seen.
pub fn status_of(verdict: Verdict) -> u8
    ensures status { result ≡ check_status verdict }
{
    if !verdict.all {
        return FAILED;
    }
    if verdict.found { FOUND } else { 0 }
}

/// Loads all patterns, tells of doubtful ones of lists, or refuses the first, and looks for them in each file.
fn check_given<'a, F: Folder, I: Read, E: Sink>(
    alloc: Global,
    given: &[Item<'a>],
    folder: &F,
    input: &mut FromRead<I>,
    errors: &mut Errors<'_, E>,
) -> Result<Verdict, Failure<'a>>
    ensures patternless { GivesNoPattern (all_given given.now) → OnOk result ⊥ }
    ensures unread { GivesNoPattern (all_given given.now) → input.new ≡ input.old }
    ensures outcome { ChecksGiven E.Sink F.Folder folder.now (all_given given.now) result
        input.old input.new errors.old errors.new }
{
    if !gives_pattern(given) {
        return Err(Failure::Arguments(Mistake::NoPattern));
    }
    let loaded = match rules(alloc, given, folder, input) {
        Ok(rules) => rules,
        Err(failure) => return Err(failure),
    };
    let rules = loaded.as_slice();
    let strict = has(given, Word::Strict);
    match warn_of_lists(errors, given, rules, strict) {
        Ok(()) => {}
        Err(failure) => return Err(failure),
    }
    let ready = match ready_of(alloc, &*given, rules, false) {
        Ok(ready) => ready,
        Err(failure) => return Err(failure),
    };
    let mut looker = ByPatterns {
        alloc,
        searcher: &ready.searcher,
        words: words(given),
    };
    let files = Searched {
        folder,
        names: ready.names.as_slice(),
        tells: false,
    };
    look_at_files(&mut looker, &files, input, &mut Nowhere, errors)
}
