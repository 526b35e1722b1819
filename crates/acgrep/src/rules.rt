//! Which names are searched, by the rules of `--include`, `--exclude` and `--exclude-dir`. One of `--exclude-from` leaves nothing out itself:
//! the globs of its file take its place before the search.

ghost use Rattle.std.specs.Prelude.{◌≡◌, ◌≤◌, ◌+◌, length};
ghost use Rattle.acgrep.specs.Rules.{after_rule, begins_by_including, is_of_folders, kept_len, is_left_out, name_fits, rule_said, rules_said, without_slashes};

use crate::globs::{base_name, fits, operand_fits};

/// What a rule says of the names that its glob fits.
#[derive(Clone, Copy, PartialEq, Eq)]
pub enum Sense {
    /// `--include`: a file of such a name is searched.
    Include,
    /// `--exclude`: it is not.
    Exclude,
    /// `--exclude-from`: each line of the file of this name is the glob of an `--exclude`.
    ExcludeFrom,
    /// `--exclude-dir`: what is in a folder of such a name is not.
    ExcludeFolder,
}

/// One of these options.
#[derive(Clone, Copy)]
pub struct Rule<'a> {
    /// Which it is.
    pub sense: Sense,
    /// The names that it is about, or the file of them.
    pub glob: &'a [u8],
}

/// Whether these rules leave out a file or a folder of a name. `given` says whether that is an operand.
pub fn is_left_out(rules: &[Rule<'_>], is_folder: bool, given: bool, name: &[u8]) -> bool
    ensures left { result ≡ is_left_out (rules_said rules.now) is_folder given name.now }
{
    if is_folder {
        for own in rules {
            if is_of_folders(own.sense) && name_fits(own.glob, given, name) {
                return true;
            }
        }
        return false;
    }
    // The last rule whose glob fits decides of a file. Where none fits, the first does.
    let mut left = begins_by_including(rules);
    for rule in rules {
        left = after_rule(rule, given, name, left);
    }
    left
}

/// Whether a file is left out, with a rule behind those that said so far.
fn after_rule(rule: &Rule<'_>, given: bool, name: &[u8], left: bool) -> bool
    ensures left { result ≡ after_rule (rule_said rule.now) given name.now left }
{
    match rule.sense {
        Sense::Include if name_fits(rule.glob, given, name) => false,
        Sense::Exclude if name_fits(rule.glob, given, name) => true,
        _ => left,
    }
}

/// Whether the first rule of files says which are searched: then others are not.
fn begins_by_including(rules: &[Rule<'_>]) -> bool
    ensures begins { result ≡ begins_by_including (rules_said rules.now) }
{
    for rule in rules {
        match rule.sense {
            Sense::Include => return true,
            Sense::Exclude => return false,
            Sense::ExcludeFrom | Sense::ExcludeFolder => {}
        }
    }
    false
}

/// Whether a rule is about folders.
fn is_of_folders(sense: Sense) -> bool
    ensures folders { result ≡ is_of_folders sense }
{
    match sense {
        Sense::ExcludeFolder => true,
        Sense::Include | Sense::Exclude | Sense::ExcludeFrom => false,
    }
}

/// Whether a glob fits a name: below a folder what stands behind its last slash.
fn name_fits(glob: &[u8], given: bool, name: &[u8]) -> bool
    ensures fits { result ≡ name_fits glob.now given name.now }
{
    if given {
        operand_fits(glob, name)
    } else {
        fits(glob, base_name(name))
    }
}

/// A glob without the slashes at its end, but for its first byte.
pub fn without_slashes(glob: &[u8]) -> &[u8]
    ensures cut { result.now ≡ without_slashes glob.now }
{
    match glob.split_first() {
        Some((_, behind)) => &glob[..kept_len(behind)],
        None => glob,
    }
}

/// Up to where a glob goes whose first byte stands before these: to the last that is no slash.
fn kept_len(behind: &[u8]) -> usize
    ensures len { result ≡ kept_len 1 1 behind.now }
    ensures within { result ≤ length behind.now + 1 }
{
    let mut kept = 1;
    let mut passed = 1;
    for byte in behind {
        passed += 1;
        if *byte != b'/' {
            kept = passed;
        }
    }
    kept
}
