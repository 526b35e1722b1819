//! What a check sees of files, one after another.

ghost use Rattle.std.specs.Prelude.{◌≡◌, IfErr, true};
ghost use Rattle.std.specs.List.{concat};
ghost use Rattle.tool_parts.specs.Telling.{TellsBytes};
ghost use Rattle.acredact.specs.Checks.{IfSought, LooksAtName, SeesSearched};
ghost use Rattle.acredact.specs.Looks.{Sought, both_seen, look_lines, verdict_of};

use crate::failure::{Failure, tell_output, tell_unread};
use crate::files::{is_input, opened};
use crate::folder::Folder;
use crate::looker::Looker;
use chromesquid::{FromRead, Sink};
use std::io::Read;
use tool_parts::errors::Errors;
use tool_parts::reason::Reason;

/// What a file is found to be.
#[derive(Clone, Copy)]
pub enum Look {
    /// It was read to its end, and nothing in it counts.
    Clean,
    /// A pattern occurs in it, or stands there as a word where words alone count.
    Found,
    /// It was not read to its end, for this reason.
    Unread(Reason),
    /// It is what the output goes to, and was not read.
    Output,
}

/// What is seen of all files.
#[derive(Clone, Copy)]
pub struct Verdict {
    /// Whether something counts in one.
    pub found: bool,
    /// Whether each was read to its end, or up to a match.
    pub all: bool,
}

/// Which files are looked at.
#[derive(Clone, Copy)]
pub struct Searched<'s, 't, F> {
    /// What opens files.
    pub folder: &'s F,
    /// The names of the files.
    pub names: &'s [&'t str],
    /// Whether it is told to standard output what was found, so that a file that is this cannot be read.
    pub tells: bool,
}

/// Looks at all files, and tells each that cannot be read. It answers whether something was found, and whether all were read to their
/// ends, or up to a match.
///
/// # Errors
///
/// As those of a look.
pub fn look_at_files<'f, L: Looker, F: Folder, I: Read, W: Sink, E: Sink>(
    looker: &mut L,
    files: &Searched<'_, '_, F>,
    input: &mut FromRead<I>,
    output: &mut W,
    errors: &mut Errors<'_, E>,
) -> Result<Verdict, Failure<'f>>
    requires ready { (s : Sought) × L.by looker.old s }
    ensures sees { IfSought L.Looker looker.old (SeesSearched W.Sink E.Sink F.Folder files.now
        result input.old input.new output.old output.new errors.old errors.new) }
    ensures why { IfErr result L.stops }
{
    let mut verdict = Verdict {
        found: false,
        all: true,
    };
    for name in files.names {
        let look = match look_at_file(looker, files, *name, input, output) {
            Ok(look) => look,
            Err(failure) => return Err(failure),
        };
        tell_look(errors, *name, look);
        verdict = both_seen(verdict, verdict_of(look));
    }
    Ok(verdict)
}

/// What is seen of files, and then of others.
pub fn both_seen(first: Verdict, more: Verdict) -> Verdict
    ensures both { result ≡ both_seen first more }
{
    Verdict {
        found: first.found || more.found,
        all: first.all && more.all,
    }
}

/// What is seen of a file.
pub fn verdict_of(look: Look) -> Verdict
    ensures seen { result ≡ verdict_of look }
{
    match look {
        Look::Clean => Verdict {
            found: false,
            all: true,
        },
        Look::Found => Verdict {
            found: true,
            all: true,
        },
        Look::Unread(_) | Look::Output => Verdict {
            found: false,
            all: false,
        },
    }
}

/// Tells a file that cannot be read.
fn tell_look<E: Sink>(errors: &mut Errors<'_, E>, name: &str, look: Look)
    ensures told { TellsBytes E.Sink errors.old errors.new (concat (look_lines name.now look)) }
    ensures quiet { (verdict_of look).all ≡ true → errors.new ≡ errors.old }
{
    match look {
        Look::Unread(reason) => tell_unread(errors, name, reason),
        Look::Output => tell_output(errors, name),
        _ => {}
    }
}

/// Looks at a file.
fn look_at_file<'f, L: Looker, F: Folder, I: Read, W: Sink>(
    looker: &mut L,
    files: &Searched<'_, '_, F>,
    name: &str,
    input: &mut FromRead<I>,
    output: &mut W,
) -> Result<Look, Failure<'f>>
    requires ready { (s : Sought) × L.by looker.old s }
    ensures looks { IfSought L.Looker looker.old (LooksAtName W.Sink F.Folder files.now
        name.now result input.old input.new output.old output.new) }
    ensures why { IfErr result L.stops }
    ensures still { IfSought L.Looker looker.old (L.by looker.new) }
{
    if files.tells && files.folder.is_output(name) {
        return Ok(Look::Output);
    }
    if is_input(name) {
        return looker.look(name, input, output);
    }
    match opened(files.folder, name) {
        Ok(source) => {
            let mut source = source;
            looker.look(name, &mut source, output)
        }
        Err(reason) => Ok(Look::Unread(reason)),
    }
}
