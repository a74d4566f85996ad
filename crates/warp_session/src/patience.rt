//! Waiting for what another thread does, without using up a core.

use std::thread;
use std::time::{Clock, Duration};

/// How many looks follow each other at once, before the first sleep: they take some tens of microseconds.
const LOOKS: u32 = 256;

/// The first sleep, in microseconds.
const FIRST_SLEEP: u64 = 50;

/// The longest sleep, in microseconds.
const LONGEST_SLEEP: u64 = 1_000;

/// How long to wait before the next look for what another thread does: at first not at all, then longer and longer, up
/// to a millisecond.
#[derive(Drop)]
pub(crate) struct Patience {
    looks: u32,
    sleep: u64,
}

impl Patience {
    /// The next look comes at once.
    pub(crate) fn new() -> Patience {
        Patience {
            looks: 0,
            sleep: FIRST_SLEEP,
        }
    }

    /// Waits between two looks, of which the first found nothing.
    pub(crate) fn wait<X: Clock>(&mut self, rt: &X) {
        if self.looks < LOOKS {
            self.looks += 1;
            thread::yield_now();
            return;
        }
        thread::sleep(rt, Duration::from_micros(self.sleep));
        self.sleep = LONGEST_SLEEP.min(self.sleep.saturating_mul(2));
    }
}
