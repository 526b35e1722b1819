//! How long a search asks a prefilter for candidates. No answer depends on it.
//!
//! Asking takes longer than walking where candidates are dense. So each candidate costs a search some of its patience, and each
//! byte that it skips gives one back. Once there is no patience left it only walks, and asks again after 4 KiB.

/// What a candidate costs, in bytes: to ask for one takes about as long as to walk over so many. An automaton with rows walks
/// over about eleven in that time, and one without over about five.
const COST: usize = 8;

/// The patience with which a search begins: it asks for 32 candidates that bring it no further.
pub const PATIENCE: usize = 32 * COST;

/// The patience with which a search goes on that has only walked for a while: it asks for eight such candidates.
const RENEWED: usize = 8 * COST;

/// The bytes that a search only walks over, once it has no patience left, before it asks again.
const REST: usize = 4096;

/// What is left of the patience after a candidate that lies so many bytes further. So a search asks for no more candidates than
/// an eighth of the bytes that it skips, and for the first 32.
#[inline]
pub fn patience_after(patience: usize, skipped: usize) -> usize {
    patience.wrapping_add(skipped).saturating_sub(COST)
}

/// The patience of searches that follow each other in one text, as an iterator makes them.
#[derive(Clone, Copy)]
pub struct Patience {
    /// What is left of it.
    left: usize,
    /// The bytes that were only walked over since there was none left.
    rested: usize,
}

impl Patience {
    /// The patience of a first search.
    #[inline]
    pub fn new() -> Patience {
        Patience {
            left: PATIENCE,
            rested: 0,
        }
    }

    /// Whether there is none left, so that a search only walks.
    #[inline]
    pub(crate) fn is_out(&self) -> bool {
        self.left == 0
    }

    /// Pays for a candidate that lies so many bytes further.
    #[inline]
    pub(crate) fn spend(&mut self, skipped: usize) {
        self.left = patience_after(self.left, skipped);
    }

    /// Counts the bytes that a search without patience has walked over. After 4 KiB of them there is some again.
    #[inline]
    pub(crate) fn rest(&mut self, walked: usize) {
        self.rested = self.rested.saturating_add(walked);
        if self.rested >= REST {
            self.left = RENEWED;
            self.rested = 0;
        }
    }

    /// How many bytes a walk reads before it asks whether it may go on further behind, where no match is longer than `reach`.
    #[inline]
    pub(crate) fn pace(&self, reach: usize) -> usize {
        if self.left == 0 {
            reach.max(REST.saturating_sub(self.rested))
        } else {
            reach
        }
    }
}
