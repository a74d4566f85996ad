//! How often a clock ticks.
ghost use Rattle.std.specs.Prelude.{◌≡◌, ◌≤◌, SomeIff};

use std::marker::Model;

/// The most ticks of a second.
const MOST_HERTZ: u32 = 1_000;

/// How many ticks there are a second: 1 to 1,000. Contracts see the number.
#[derive(Clone, Copy, Debug)]
pub struct Hertz {
    number: u32,
}

impl Model for Hertz {
    ghost use Rattle.std.specs.Prelude.{ℕ, ◌≤◌};

    ghost Value = { ℕ };

    ghost view = { λ h. h.number };

    ghost invariant = { λ h. (1 ≤ h.number) × (h.number ≤ 1000) };

    ghost inverse = { λ n. record { number = n } };
}

impl Hertz {
    /// So many ticks a second; `None` exactly where they are none, or more than 1,000.
    pub fn new(number: u32) -> Option<Hertz>
        ensures { SomeIff result ((1 ≤ number) × (number ≤ 1000)) number }
    {
        if number >= 1 && number <= MOST_HERTZ {
            Some(Hertz { number })
        } else {
            None
        }
    }

    /// The number.
    pub fn number(self) -> u32
        ensures value { result ≡ self }
        ensures least { 1 ≤ self }
        ensures most { self ≤ 1000 }
    {
        self.number
    }
}
