//! A meter whose count can be read.
ghost use Rattle.warp_step.specs.Counter.{IsUnused};

use std::sync::ledger::{Blank, Ledger};
use warp_step::{Counter, Meter};

/// A meter whose count can be read.
#[derive(Drop)]
pub(crate) struct Tally<L: Ledger> {
    /// How often it was ticked.
    pub(crate) count: u64,
    ticks: Counter<L>,
}

impl<L: Ledger> Tally<L> {
    /// A meter that was not ticked yet.
    pub(crate) fn new(blank: Blank) -> Tally<L>
        requires { IsUnused blank L.name L.parts }
    {
        Tally {
            count: 0,
            ticks: Counter::new(blank),
        }
    }
}

impl<L: Ledger> Meter for Tally<L> {
    ghost ticks = { λ t. t.ticks };

    fn tick(&mut self) {
        self.ticks.grow();
        self.count = self.count.wrapping_add(1);
    }
}
