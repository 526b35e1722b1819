//! A pattern that is searched for, which is never empty.

ghost use Rattle.std.specs.Prelude.{◌≤◌, length};

/// A pattern, and its own replacement where it has one.
#[derive(Drop)]
pub struct Rule {
    /// The bytes that are searched for.
    pub pattern: Vec<u8>,
    /// The bytes that are written in their place.
    pub replacement: Option<Vec<u8>>,
    /// The number of the option that gives it, from 0 on, among all options and files.
    pub list: usize,
    /// The number of its line in its file, from 1 on, and 0 for one that is an argument.
    pub line: usize,
    /// The number of the rule of which it is a form, from 0 on among all rules.
    pub form_of: Option<usize>,
    ghost some: { 1 ≤ length pattern.items },
}
