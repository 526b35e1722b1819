//! What is known of the lines before the next one, for the lines around selected ones.

ghost use Rattle.std.specs.Prelude.{◌≡◌, ◌<◌, ◌-◌, ◌==◌, [], OnOk, false, length, true};
ghost use Rattle.acgrep.specs.Filled.{held_lines};

use crate::held::Held;
use crate::print::{Place, behind_line};
use std::alloc::{AllocError, Global};

/// What is known of the lines before the next one.
#[derive(Drop)]
pub struct Trail {
    /// How many further lines are written behind the last selected one.
    pub due: u64,
    /// Whether a line was written, of this file or of one before.
    pub some: bool,
    /// Whether the line before the held ones was not written, or the file begins with them.
    pub apart: bool,
    /// How many lines are held.
    count: u64,
    /// Where the first of them stands.
    pub first: Place,
    /// The lines that were passed over last, at most as many as are written before a selected one.
    pub held: Held,
    ghost counted: { count ≡ length (held_lines held) },
}

impl Trail {
    ghost use Rattle.acgrep.specs.Contexts.{IsTrailBegun, holding, holding_in, without_first};

    /// Where no file was begun.
    pub fn new(alloc: Global, first: Place) -> Trail {
        Trail {
            due: 0,
            some: false,
            apart: true,
            count: 0,
            first,
            held: Held::new(alloc),
        }
    }

    /// Begins a file, by whether lines of another one were written.
    pub fn begin(&mut self, follows: bool)
        ensures begun { IsTrailBegun follows self.new }
    {
        self.due = 0;
        self.some = follows;
        self.apart = true;
        self.count = 0;
        self.held.clear();
    }

    /// Whether no further line is written behind the last selected one.
    pub fn is_past(&self) -> bool
        ensures past { result ≡ (self.now.due == 0) }
    {
        self.due == 0
    }

    /// A selected line was written, and those that were held; so many are due behind it.
    pub fn restart(&mut self, after: u64)
        ensures due { self.new.due ≡ after }
        ensures some { self.new.some ≡ true }
        ensures apart { self.new.apart ≡ false }
        ensures first { self.new.first ≡ self.old.first }
        ensures held { held_lines self.new.held ≡ [] }
    {
        self.due = after;
        self.some = true;
        self.apart = false;
        self.count = 0;
        self.held.clear();
    }

    /// Holds a line that was passed over, of at most so many.
    pub fn hold(&mut self, most: u64, line: &[u8], place: Place) -> Result<(), AllocError>
        ensures held { OnOk result (holding_in self.new
            ≡ holding most place (holding_in self.old) line.now) }
        ensures due { self.new.due ≡ self.old.due }
        ensures some { self.new.some ≡ self.old.some }
    {
        if most == 0 {
            self.apart = true;
            return Ok(());
        }
        if self.count >= most {
            self.drop_first();
        }
        let first = if self.count == 0 { place } else { self.first };
        if let Err(error) = self.held.push(line) {
            self.count = 0;
            self.held.clear();
            return Err(error);
        }
        self.first = first;
        self.count += 1;
        Ok(())
    }

    /// Drops the first line that is held.
    fn drop_first(&mut self)
        requires some { 0 < self.now.count }
        ensures dropped { holding_in self.new ≡ without_first (holding_in self.old) }
        ensures counted { self.new.count ≡ self.old.count - 1 }
        ensures due { self.new.due ≡ self.old.due }
        ensures some { self.new.some ≡ self.old.some }
    {
        self.first = behind_line(self.first, self.held.first());
        self.held.drop_first();
        self.count -= 1;
        self.apart = true;
    }
}
