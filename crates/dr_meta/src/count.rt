//! Numbers that are not negative.

ghost use Rattle.std.specs.Prelude.{◌≡◌, ◌<◌, ◌≤◌, ◌^◌, ◌↔◌, IfSome, IsNone, MatchOption, pos, ◌<ℤ◌};

/// A number that is not negative, below 2^63: a count, a size in bytes or a byte offset.
#[derive(Clone, Copy)]
pub struct Count {
    number: u64,
    ghost in_range: { number < 2 ^ 63 },
}

impl Count {
    /// The number, if it is below 2^63.
    pub fn new(number: u64) -> Option<Count>
        ensures some { IfSome result (λ c. c.number ≡ number) }
        ensures none { IsNone result ↔ (2 ^ 63 ≤ number) }
    {
        if number < 1 << 63 {
            Some(Count { number })
        } else {
            None
        }
    }

    /// A signed number, if it is not negative.
    pub(crate) fn from_signed(number: i64) -> Option<Count>
        ensures { MatchOption result (number <ℤ pos 0) (λ c. number ≡ pos c.number) }
    {
        if number < 0 {
            None
        } else {
            Some(Count {
                number: number as u64,
            })
        }
    }

    /// Its number.
    pub fn get(self) -> u64
        ensures { result ≡ self.number }
    {
        self.number
    }
}
