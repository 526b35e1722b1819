//! Which of the operands are searched, where folders are not entered.

ghost use Rattle.std.specs.Prelude.{◌≡◌, [], IfOk, OnOk};
ghost use Rattle.tool_parts.specs.Names.{name_bytes, or_input};
ghost use Rattle.acgrep.specs.Folders.{AreChosen, Chooses, IsKept, is_passed, missed_of, tree_of};
ghost use Rattle.acgrep.specs.Listed.{listed_bytes};
ghost use Rattle.acgrep.specs.Rules.{rules_said};
ghost use Rattle.acgrep.specs.Runs.{chooses};

use crate::folders::{Folders, Kind};
use crate::open::is_input;
use crate::rules::{Rule, is_left_out};
use crate::walk::{Found, Ways, is_folder, look_at};
use std::alloc::{AllocError, Global};

/// The operands that are not left out; standard input where none is given.
pub fn choose<F: Folders>(
    alloc: Global,
    files: &F,
    rules: &[Rule<'_>],
    ways: Ways,
    operands: &[&[u8]],
) -> Result<Found, AllocError>
    ensures chosen { IfOk result (λ found. AreChosen (tree_of F.Folders files.now) (rules_said rules.now) ways
        (or_input (name_bytes operands.now)) (listed_bytes found.names.items)) }
    ensures all { IfOk result (λ found. missed_of found.unread.items ≡ []) }
{
    if operands.is_empty() {
        return choose_among(alloc, files, rules, ways, &[b"-"]);
    }
    choose_among(alloc, files, rules, ways, operands)
}

/// Those of these names that are not left out.
fn choose_among<F: Folders>(
    alloc: Global,
    files: &F,
    rules: &[Rule<'_>],
    ways: Ways,
    names: &[&[u8]],
) -> Result<Found, AllocError>
    ensures chosen { IfOk result (λ found. AreChosen (tree_of F.Folders files.now) (rules_said rules.now) ways
        (name_bytes names.now) (listed_bytes found.names.items)) }
    ensures all { IfOk result (λ found. missed_of found.unread.items ≡ []) }
{
    let mut found = Found::new(alloc);
    for name in names {
        choose_one(alloc, files, rules, ways, *name, &mut found)?;
    }
    Ok(found)
}

/// Puts down a name, unless it is left out.
fn choose_one<F: Folders>(
    alloc: Global,
    files: &F,
    rules: &[Rule<'_>],
    ways: Ways,
    name: &[u8],
    found: &mut Found,
) -> Result<(), AllocError>
    ensures chooses { OnOk result (Chooses (tree_of F.Folders files.now) (rules_said rules.now) ways name.now
        found.old found.new) }
{
    if is_kept(files, rules, ways, name) {
        return found.add(Vec::from_slice(alloc, name)?);
    }
    Ok(())
}

/// Whether an operand of this kind is passed over.
fn is_passed(ways: Ways, kind: Kind) -> bool
    ensures { result ≡ is_passed ways kind }
{
    match kind {
        Kind::Folder => ways.skips_folders,
        Kind::Device => !ways.devices.unwrap_or(true),
        Kind::File | Kind::Link => false,
    }
}

/// Whether operands are chosen: there are rules, or those of some kind are passed over.
fn chooses(rules: &[Rule<'_>], ways: Ways) -> bool
    ensures { result ≡ chooses (rules_said rules.now) ways }
{
    !rules.is_empty() || ways.passes()
}

/// Whether an operand is not left out. One that cannot be looked at is searched, so that it is told.
fn is_kept<F: Folders>(files: &F, rules: &[Rule<'_>], ways: Ways, name: &[u8]) -> bool
    ensures kept { IsKept (tree_of F.Folders files.now) (rules_said rules.now) ways name.now result }
{
    if is_input(name) {
        return true;
    }
    // Where none is left out it is not looked at.
    if !chooses(rules, ways) {
        return true;
    }
    match look_at(files, name, true) {
        Ok(kind) => !(is_passed(ways, kind) || is_left_out(rules, is_folder(kind), true, name)),
        Err(_) => true,
    }
}
