//! A count of transition look-ups.

ghost use Rattle.std.specs.Prelude.{◌≡◌, ◌+◌, ◌<◌, ◌^◌};

use std::marker::Model;

/// How many transitions were looked up.
#[derive(Drop)]
pub struct Work {
    count: u128,
}

impl Model for Work {
    ghost use Rattle.std.specs.Prelude.{ℕ};

    ghost Value = { ℕ };

    ghost view = { λ work. work.count };
}

impl Work {
    /// No look-up yet.
    pub fn new() -> Work
        ensures none { result ≡ 0 }
    {
        Work { count: 0 }
    }

    /// The look-ups so far.
    pub fn count(&self) -> u128
        ensures count { result ≡ self.now }
    {
        self.count
    }

    /// One look-up more.
    pub fn tick(&mut self)
        requires room { self.old + 1 < 2 ^ 128 }
        ensures one_more { self.new ≡ self.old + 1 }
    {
        self.count += 1;
    }
}
