//! Which calls are compared.

use anyhow::{Result, bail};

/// Which parts of the calls are compared.
#[derive(Clone, Copy)]
pub(crate) struct Parts {
    /// What each automaton does in memory.
    pub(crate) memory: bool,
    /// What each automaton does with streams.
    pub(crate) streams: bool,
    /// What the one crate does.
    pub(crate) searcher: bool,
    /// What is the same in each run.
    pub(crate) fixed: bool,
}

impl Parts {
    /// All that rounds are made of.
    pub(crate) fn all(self) -> Parts {
        Parts {
            memory: true,
            streams: true,
            searcher: true,
            fixed: self.fixed,
        }
    }
}

/// The parts of these names, or all that rounds are made of where none is named.
pub(crate) fn parts_of(names: &[String]) -> Result<Parts> {
    let all = names.is_empty();
    let mut parts = Parts {
        memory: all,
        streams: all,
        searcher: all,
        fixed: false,
    };
    for name in names {
        match name.as_str() {
            "memory" => parts.memory = true,
            "streams" => parts.streams = true,
            "searcher" => parts.searcher = true,
            "fixed" => parts.fixed = true,
            _ => bail!("a NAME is memory, streams, searcher or fixed"),
        }
    }
    Ok(parts)
}
