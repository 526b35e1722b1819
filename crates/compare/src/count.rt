//! What was compared.

use anyhow::{Result, bail};
use std::fmt::Debug;

/// How many calls were compared.
#[derive(Drop)]
pub(crate) struct Count {
    calls: u64,
}

impl Count {
    /// None was compared.
    pub(crate) fn new() -> Count {
        Count { calls: 0 }
    }

    /// How many were compared.
    pub(crate) fn calls(&self) -> u64 {
        self.calls
    }

    /// Compares what a call answered with what is wanted.
    ///
    /// # Errors
    ///
    /// The error tells the two where they differ.
    pub(crate) fn same<T: PartialEq + Debug>(
        &mut self,
        call: &str,
        found: &T,
        wanted: &T,
    ) -> Result<()> {
        self.calls = self.calls.saturating_add(1);
        if found == wanted {
            return Ok(());
        }
        bail!("{call}: {found:?} where {wanted:?} is wanted")
    }
}
