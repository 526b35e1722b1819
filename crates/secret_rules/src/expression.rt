//! Expressions: what is compiled of the text of a rule.

ghost use Rattle.std.specs.Prelude.{◌≡◌, ◌≢◌, IfErr, IfOk};
ghost use Rattle.regex.specs.Bytes.{matcher_pattern};
ghost use Rattle.regex.specs.Locations.{location_count};
ghost use Rattle.regex.specs.Patterns.{SameCaptures};
ghost use Rattle.regex_syntax.specs.declared.error.ErrorKind.TheVariants.{OutOfMemory};
ghost use Rattle.secret_rules.specs.Expressions.{IsExpression, LiesIn, ascii_config, expression_of, group_total};

use regex::bytes::{Matcher, Regex};
use regex::{CaptureLocations, Error, RegexBuilder};
use regex_syntax::Config;
use std::alloc::{AllocError, Global};
use std::marker::Model;

/// The options of all expressions: with Unicode off.
fn ascii() -> Config
    ensures { result ≡ ascii_config }
{
    let mut config = Config::default();
    config.flags.unicode = false;
    config.utf8 = false;
    config
}

/// How many groups an expression has, the whole match included. It is read, and not compiled.
///
/// # Errors
///
/// Why the text is no expression, and where.
pub(crate) fn groups_of(alloc: Global, source: &str) -> Result<usize, regex_syntax::Error>
    ensures read { IfOk result (λ _. IsExpression source.now) }
    ensures groups { IfOk result (λ groups. groups ≡ group_total source.now) }
    ensures refused { IfErr result (λ e. e.kind ≢ OutOfMemory → ¬ (IsExpression source.now)) }
    ensures place { IfErr result (LiesIn source.now) }
{
    match regex_syntax::parse(alloc, source, &ascii()) {
        Ok(parsed) => Ok(parsed.names.len()),
        Err(error) => Err(error),
    }
}

/// An expression that was compiled with Unicode off. Contracts see its text.
#[derive(Drop)]
pub(crate) struct Expression {
    regex: Regex,
}

impl Model for Expression {
    ghost use Rattle.std.specs.Prelude.{◌≡◌, ℕ, List};
    ghost use Rattle.regex.specs.Bytes.{IsReadFromSource, regex_config, regex_source};
    ghost use Rattle.secret_rules.specs.Expressions.{ascii_config};

    ghost Value = { List ℕ };

    ghost view = { λ e. regex_source e.regex };

    ghost invariant = { λ e. IsReadFromSource e.regex × (regex_config e.regex ≡ ascii_config) };
}

impl Expression {
    /// The expression of a text.
    pub(crate) fn new(alloc: Global, source: &str) -> Result<Expression, Error>
        ensures source { IfOk result (λ e. e ≡ source.now) }
    {
        let regex = RegexBuilder::new(source).unicode(false).build_bytes(alloc)?;
        Ok(Expression { regex })
    }

    /// Its text.
    pub(crate) fn as_str(&self) -> &str
        ensures source { result.now ≡ self.now }
    {
        self.regex.as_str()
    }

    /// What searches for it.
    pub(crate) fn matcher(&self, alloc: Global) -> Result<Matcher<'_>, AllocError>
        ensures matches { IfOk result (λ m. SameCaptures (matcher_pattern m) (expression_of self.now)) }
    {
        self.regex.matcher(alloc)
    }

    /// Room for the groups of a match.
    pub(crate) fn locations(&self, alloc: Global) -> Result<CaptureLocations, AllocError>
        ensures groups { IfOk result (λ l. location_count l ≡ group_total self.now) }
    {
        self.regex.capture_locations(alloc)
    }
}
