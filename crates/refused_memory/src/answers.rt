//! Answers of calls, which are put down while there is memory and compared once there is none.

use crate::wants::Wrong;
use aho_core::error::MatchError;
use aho_core::search::Match;
use std::alloc::Global;
use std::io::Read;

/// The answers of the same calls, made twice.
#[derive(Drop)]
pub struct Answers {
    first: Vec<usize>,
    /// Whether the calls are made for the second time.
    again: bool,
    /// How many answers came the second time.
    count: usize,
    differ: bool,
}

impl Answers {
    /// No calls were made.
    pub fn new(alloc: Global) -> Answers {
        Answers {
            first: Vec::new(alloc),
            again: false,
            count: 0,
            differ: false,
        }
    }

    /// From here on the calls are made for the second time, and every allocation is refused: a byte of the input is read, which
    /// the library in front of the allocator waits for.
    pub fn begin_again<R: Read>(&mut self, input: &mut R) -> Result<(), Wrong> {
        self.again = true;
        match input.read(&mut [0; 1]) {
            Ok(_) => Ok(()),
            Err(_) => Err("the input cannot be read"),
        }
    }

    /// A call has answered this number.
    pub fn tell(&mut self, answer: usize) {
        if !self.again {
            self.differ |= self.first.push(answer).is_err();
            return;
        }
        self.differ |= self.first.get(self.count) != Some(&answer);
        self.count = self.count.saturating_add(1);
    }

    /// A call has answered whether something is so.
    pub fn tell_whether(&mut self, is_so: bool) {
        self.tell(if is_so { 1 } else { 0 });
    }

    /// A call has answered this match, or none.
    pub fn tell_match(&mut self, found: Option<Match>) {
        match found {
            Some(m) => {
                self.tell(m.pattern().as_usize());
                self.tell(m.start());
                self.tell(m.end());
            }
            None => self.tell(usize::MAX),
        }
    }

    /// A search has answered this.
    pub fn tell_search(&mut self, found: Result<Option<Match>, MatchError>) {
        match found {
            Ok(found) => self.tell_match(found),
            Err(_) => self.tell(usize::MAX - 1),
        }
    }

    /// A call has answered these bytes.
    pub fn tell_bytes(&mut self, bytes: &[u8]) {
        for byte in bytes {
            self.tell(*byte as usize);
        }
        self.tell(usize::MAX);
    }

    /// Looks whether the second answers were the first ones.
    pub fn are_the_same(&self) -> Result<(), Wrong> {
        if self.differ || self.first.is_empty() || self.count != self.first.len() {
            return Err("without memory a call answers otherwise");
        }
        Ok(())
    }
}
