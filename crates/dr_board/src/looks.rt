ghost use Rattle.std.specs.Prelude.{◌≡◌, ◌+◌, ◌-◌, ◌^◌, ◌<◌, ◌≤◌};

use std::marker::Model;

/// How many tablets were looked at: a count that stands still at the greatest number of 64 bits.
#[derive(Debug, Drop)]
pub struct Looks {
    count: u64,
}

impl Model for Looks {
    ghost use Rattle.std.specs.Prelude.{ℕ};

    ghost Value = { ℕ };

    ghost view = { λ l. l.count };
}

impl Looks {
    /// None so far.
    pub fn new() -> Looks
        ensures { result ≡ 0 }
    {
        Looks { count: 0 }
    }

    /// How many there were.
    pub fn count(&self) -> u64
        ensures { result ≡ self.now }
    {
        self.count
    }

    // One more.
    pub(crate) fn add(&mut self)
        ensures counted { self.old < 2 ^ 64 - 1 → self.new ≡ self.old + 1 }
        ensures most { self.new ≤ self.old + 1 }
        ensures never_falls { self.old ≤ self.new }
    {
        self.count = self.count.saturating_add(1);
    }
}
