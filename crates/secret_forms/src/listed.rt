//! Lists of patterns, in which each stands once.

ghost use Rattle.std.specs.Prelude.{◌≡◌, OnOk, [], ◌∷◌};
ghost use Rattle.std.specs.List.{list_any};
ghost use Rattle.std.specs.Str.{bytes_eq};
ghost use Rattle.secret_forms.specs.Patterns.{AddsPatterns};

use std::alloc::AllocError;

/// Whether a pattern is in a list.
fn is_listed(patterns: &[Vec<u8>], pattern: &[u8]) -> bool
    ensures { result ≡ list_any (λ listed. bytes_eq listed.items pattern.now) patterns.now }
{
    patterns.iter().any(|listed| listed.as_slice() == pattern)
}

/// Adds a pattern to a list, unless it is in it.
pub(crate) fn push_new(patterns: &mut Vec<Vec<u8>>, pattern: Vec<u8>) -> Result<(), AllocError>
    ensures new { OnOk result (AddsPatterns patterns.old patterns.new (pattern.items ∷ [])) }
{
    if is_listed(patterns, &pattern) {
        return Ok(());
    }
    patterns.push(pattern)?;
    Ok(())
}
