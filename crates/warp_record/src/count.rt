//! How many names an announcement speaks of.
ghost use Rattle.std.specs.Prelude.{◌≡◌, ◌≤◌, SomeIff};
ghost use Rattle.warp_tag.specs.Limits.{most_records, widest};

use std::marker::Model;

/// The greatest count of an announcement of any form: as many records as a log can have.
pub const MAX_COUNT: u32 = 10_000_000;

/// A count of names, 0 to `MAX_COUNT`. Contracts see the number.
#[derive(Clone, Copy, Debug, PartialEq, Eq, Hash)]
pub struct Count {
    number: u32,
}

impl Model for Count {
    ghost use Rattle.std.specs.Prelude.{ℕ, ◌≤◌};
    ghost use Rattle.warp_tag.specs.Limits.{most_records, widest};

    ghost Value = { ℕ };

    ghost view = { λ c. c.number };

    ghost invariant = { λ c. c.number ≤ most_records widest };

    ghost inverse = { λ n. record { number = n } };
}

impl Count {
    /// This count; `None` exactly past `MAX_COUNT`.
    pub fn new(number: u32) -> Option<Count>
        ensures { SomeIff result (number ≤ most_records widest) number }
    {
        if number <= MAX_COUNT {
            Some(Count { number })
        } else {
            None
        }
    }

    /// The number, 0 to `MAX_COUNT`.
    pub fn get(self) -> u32
        ensures value { result ≡ self }
        ensures range { self ≤ most_records widest }
    {
        self.number
    }
}
