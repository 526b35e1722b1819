//! The lines of a pattern that is given as an argument and has line ends, or a carriage return at its end. In a log whose lines begin
//! with a time the whole pattern stands nowhere, but its lines do.

ghost use Rattle.std.specs.Prelude.{OnOk};
ghost use Rattle.acredact.specs.Parts.{AddsSome, ArePartsOf};

use crate::patterns::{copy_of, ends_in_return, part_of, without_last};
use crate::rule::Rule;
use std::alloc::{AllocError, Global};

/// How many bytes a line of a pattern has at least that is a pattern too. A shorter one may stand anywhere.
const LEAST_PART: usize = 8;

/// Adds each line of a pattern that has line ends, or a carriage return at its end, as a pattern of its own, if it has eight bytes or
/// more without a carriage return behind it.
pub fn add_parts(
    alloc: Global,
    rules: &mut Vec<Rule>,
    pattern: &[u8],
    list: usize,
) -> Result<(), AllocError>
    ensures added { OnOk result (AddsSome (ArePartsOf list pattern.now) rules.old rules.new) }
{
    if !pattern.contains(&b'\n') && !ends_in_return(pattern) {
        return Ok(());
    }
    let mut left = Some(pattern);
    while let Some(rest) = left {
        let (line, more) = part_of(rest, b'\n');
        let line = without_last(line, b'\r');
        if line.len() >= LEAST_PART {
            rules.push(Rule {
                pattern: copy_of(alloc, line)?,
                replacement: None,
                list,
                line: 0,
                form_of: None,
            })?;
        }
        left = more;
    }
    Ok(())
}
