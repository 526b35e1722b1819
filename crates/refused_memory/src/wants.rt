//! Whether memory was wanted in a run.

/// What was not as promised.
pub type Wrong = &'static str;

/// Whether a call was refused for want of memory. One growth is refused in a run, so that happens once.
#[derive(Drop)]
pub struct Want {
    met: bool,
}

impl Want {
    /// No call was refused.
    pub fn new() -> Want {
        Want { met: false }
    }

    /// A call was refused for want of memory.
    pub fn meet(&mut self) -> Result<(), Wrong> {
        if self.met {
            return Err("memory was wanted twice");
        }
        self.met = true;
        Ok(())
    }

    /// What is told of a run in which all else was as promised.
    pub fn told(&self) -> &'static str {
        if self.met { "refused" } else { "answered" }
    }
}
