//! Files of rules for secrets, as programs read them, and what is told of one that gives none.
//!
//! What is told names the file, the line or the rule, and the place in its expression, and never holds the expression.
#![tactic(auto)]

mod fault;
mod flaw;
mod reading;
mod shown;

pub use fault::{TextFault, tell_fault};
pub use flaw::{BadRule, RuleFlaw, tell_rule};
pub use reading::{bad_rule, flaw_of, rules_in};
pub use shown::{MAX_DIGITS, digit_of, digits_of, is_control, is_plain, tell_shown, write_shown};
