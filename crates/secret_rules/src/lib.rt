//! Secrets that nobody listed, by rules: where a keyword stands in a line, an expression says what is secret.
#![tactic(auto)]

mod builtin;
mod covering;
mod error;
mod expression;
mod joining;
mod keywords;
mod line_cover;
mod lines;
mod marker;
mod marking;
mod marks;
mod occurrences;
mod open_line;
mod parsing;
mod reader;
mod readers;
mod rule;
mod rules;
mod visiting;
mod visitor;
mod visits;
mod writing;

pub use builtin::BUILTIN;
pub use covering::cover_lines;
pub use error::{LineError, MarkError, RulesError};
pub use line_cover::LineCover;
pub use marker::Marker;
pub use marks::Mark;
pub use parsing::{Key, ParseError, parse};
pub use regex_syntax::{Error as RegexError, ErrorKind as RegexErrorKind, Span as RegexSpan};
pub use rule::{Rule, RuleFault};
pub use rules::Rules;
pub use visiting::visit_lines;
pub use visitor::LineVisitor;
