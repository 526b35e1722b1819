//! What a handle leads to.

ghost use Rattle.chromesquid_c.specs.Evidence.{IsOfSome};

use chromesquid::AhoCorasick;
use std::sync::Arc;

/// One owner of a searcher.
#[derive(Drop)]
pub struct Inner {
    pub searcher: Arc<AhoCorasick>,
    ghost some: { IsOfSome searcher.value },
}
