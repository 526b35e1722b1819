//! Rules: what is looked for, and what of it is marked.

ghost use Rattle.std.specs.Prelude.{◌≡◌, ◌↔◌, ◌++◌, ◌∷◌, IfOk, IsTrue, MatchOption, None, [], map, string_bytes};
ghost use Rattle.aho_core.specs.Listing.{IsMember};
ghost use Rattle.secret_rules.specs.After.{after_expression};

use crate::expression::groups_of;
use regex_syntax::{Error, ErrorKind, escape};
use std::alloc::{AllocError, Global};

/// A rule.
#[derive(Debug, Drop)]
pub struct Rule {
    /// Its name.
    pub id: String,
    /// The text of its expression.
    pub regex: String,
    /// Its keywords. It applies to lines in which one occurs, ASCII letters the same in both cases; to all lines where it has none.
    pub keywords: Vec<String>,
    /// The group of the expression that is the secret. With 0 it is the first group that takes part in a match and is not empty.
    pub secret_group: usize,
    /// If given, it marks from a match on to the end of the first line from there in which this text stands.
    pub until: Option<String>,
    /// What stands in place of what it marks, if that is its own.
    pub with: Option<String>,
}

/// Why a rule is none.
#[derive(Clone, Copy, Debug, PartialEq, Eq)]
pub enum RuleFault {
    /// A keyword is empty.
    EmptyKeyword,
    /// The text of its expression is none, with the place in it and the reason.
    Regex(Error),
    /// Its expression has no group of that number.
    UnknownGroup,
}

/// Whether a keyword is empty.
fn has_empty(keywords: &[String]) -> bool
    ensures { IsTrue result ↔ IsMember (map string_bytes keywords.now) [] }
{
    for keyword in keywords {
        if keyword.is_empty() {
            return true;
        }
    }
    false
}

/// The expression of what stands behind a keyword.
fn expression_after(alloc: Global, keyword: &str) -> Result<String, AllocError>
    ensures { IfOk result (λ made. string_bytes made ≡ after_expression keyword.now) }
{
    let literal = escape(alloc, keyword)?;
    let mut made = String::new(alloc);
    made.push_str("(?i)")?;
    made.push_str(literal.as_str())?;
    made.push_str("[\\s\"'=:\\\\>]*((?:[^\\s\"',;&)\\]}]*")?;
    made.push_str(literal.as_str())?;
    made.push_str("[\\s\"'=:\\\\>]+)*[^\\s\"'=:\\\\>,;&)\\]}](?:\\\\*[^\\s\"'\\\\,;&)\\]}])*)")?;
    Ok(made)
}

/// A text of its own.
fn owned(alloc: Global, text: &str) -> Result<String, AllocError>
    ensures { IfOk result (λ made. string_bytes made ≡ text.now) }
{
    let mut made = String::new(alloc);
    made.push_str(text)?;
    Ok(made)
}

impl Rule {
    ghost use Rattle.secret_rules.specs.Faults.{IsFaultOf};
    ghost use Rattle.secret_rules.specs.Rules.{IsSoundRule, keywords_of, regex_of};

    /// A rule that marks what stands behind a keyword, past blanks, quotes, `=`, `:`, `>` and backslashes, up to the next blank, quote,
    /// comma, semicolon, `&` or closing bracket, without the backslashes at its end. If the keyword stands at its end and something
    /// follows, it goes on there. Its name is the keyword.
    ///
    /// # Errors
    ///
    /// Out of memory.
    pub fn after(alloc: Global, keyword: &str) -> Result<Rule, AllocError>
        ensures id { IfOk result (λ rule. string_bytes rule.id ≡ keyword.now) }
        ensures regex { IfOk result (λ rule. regex_of rule ≡ after_expression keyword.now) }
        ensures keywords { IfOk result (λ rule. keywords_of rule ≡ keyword.now ∷ []) }
        ensures group { IfOk result (λ rule. rule.secret_group ≡ 1) }
        ensures line { IfOk result (λ rule. rule.until ≡ None) }
        ensures own { IfOk result (λ rule. rule.with ≡ None) }
    {
        let mut keywords = Vec::new(alloc);
        keywords.push(owned(alloc, keyword)?)?;
        Ok(Rule {
            id: owned(alloc, keyword)?,
            regex: expression_after(alloc, keyword)?,
            keywords,
            secret_group: 1,
            until: None,
            with: None,
        })
    }

    /// What is wrong with it, if something is.
    ///
    /// # Errors
    ///
    /// Out of memory.
    pub fn fault(&self, alloc: Global) -> Result<Option<RuleFault>, AllocError>
        ensures sound { IfOk result (λ fault. MatchOption fault (IsSoundRule self.now) (IsFaultOf self.now)) }
    {
        if has_empty(&self.keywords) {
            return Ok(Some(RuleFault::EmptyKeyword));
        }
        match groups_of(alloc, self.regex.as_str()) {
            Ok(groups) if self.secret_group < groups => Ok(None),
            Ok(_) => Ok(Some(RuleFault::UnknownGroup)),
            Err(error) => match error.kind {
                ErrorKind::OutOfMemory => Err(AllocError),
                _ => Ok(Some(RuleFault::Regex(error))),
            },
        }
    }
}
