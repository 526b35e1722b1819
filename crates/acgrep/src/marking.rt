//! What is written of a line that rules mark.

ghost use Rattle.std.specs.Prelude.{◌≡◌};
ghost use Rattle.acgrep.specs.Marked.{marked_shown, rule_id, ruled_json, ruled_object};
ghost use Rattle.acgrep.specs.Objects.{fields_told};
ghost use Rattle.acgrep.specs.Printed.{Puts};

use crate::fields::{Fields, fields_of};
use crate::json::{put_bytes, put_escaped, put_front};
use crate::options::Shown;
use crate::print::{Place, Style, put_line, put_match};
use chromesquid::Match;
use secret_rules::Rule;
use std::io;
use std::io::Write;

/// Puts together what is asked of a line in which rules mark these runs.
pub fn put_marked<W: Write>(
    output: &mut W,
    shown: Shown,
    style: &Style<'_>,
    rules: &[Rule],
    place: Place,
    line: &[u8],
    runs: &[Match],
) -> io::Result<()>
    ensures written { Puts W.Write output.old output.new result
        (marked_shown shown style.now rules.now place line.now runs.now) }
{
    match shown {
        Shown::Lines => put_line(output, style, place, line),
        Shown::Matches => {
            for run in runs {
                put_match(output, style, place, line, run)?;
            }
            Ok(())
        }
        Shown::Objects => {
            for found in runs {
                put_ruled_object(output, style, rules, place, line, found)?;
            }
            Ok(())
        }
        Shown::Count | Shown::Names | Shown::Lacking | Shown::Nothing => Ok(()),
    }
}

/// Writes a run as an object.
fn put_ruled_object<W: Write>(
    output: &mut W,
    style: &Style<'_>,
    rules: &[Rule],
    place: Place,
    line: &[u8],
    run: &Match,
) -> io::Result<()>
    ensures written { Puts W.Write output.old output.new result
        (ruled_object style.now rules.now place line.now run.now) }
{
    let fields = fields_of(style, place, line, run);
    put_ruled_json(output, &fields, id_of(rules, run.pattern().as_usize()))
}

/// The name of the rule of a number.
fn id_of(rules: &[Rule], number: usize) -> &[u8]
    ensures id { result.now ≡ rule_id rules.now number }
{
    match rules.get(number) {
        Some(rule) => rule.id.as_bytes(),
        None => &[],
    }
}

/// Writes a run as an object: as a match, with the name of its rule before its bytes. The number of its pattern is that of the rule.
fn put_ruled_json<W: Write>(output: &mut W, fields: &Fields<'_>, id: &[u8]) -> io::Result<()>
    ensures written { Puts W.Write output.old output.new result
        (ruled_json (fields_told fields.now) id.now) }
{
    put_front(output, fields)?;
    output.write_all(b",\"id\":\"")?;
    put_escaped(output, id)?;
    output.write_all(b"\"")?;
    put_bytes(output, fields.text)?;
    output.write_all(b"\"}\n")?;
    Ok(())
}
