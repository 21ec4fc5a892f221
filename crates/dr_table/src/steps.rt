//! How many steps were taken.

ghost use Rattle.std.specs.Prelude.{◌≡◌};
ghost use Rattle.dr_table.specs.Counting.{counted};

use std::marker::Model;

/// How many steps were taken: a count that stands still at the greatest number of 64 bits.
#[derive(Drop)]
pub struct Steps {
    taken: u64,
}

impl Model for Steps {
    ghost use Rattle.std.specs.Prelude.{ℕ};

    ghost Value = { ℕ };

    ghost view = { λ s. s.taken };
}

impl Steps {
    /// No steps so far.
    pub fn new() -> Steps
        ensures { result ≡ 0 }
    {
        Steps { taken: 0 }
    }

    /// So many steps more.
    pub fn add(&mut self, count: u64)
        ensures { self.new ≡ counted self.old count }
    {
        self.taken = self.taken.saturating_add(count);
    }

    /// How many there were.
    pub fn taken(&self) -> u64
        ensures { result ≡ self.now }
    {
        self.taken
    }
}
