//! When a host has something to do though nothing comes: one place for all that is due at some moment.
ghost use Rattle.std.specs.Prelude.{◌≡◌, min, nat_le, if◌then◌else◌};
ghost use Rattle.warp_service.specs.Contact.{later};
ghost use Rattle.warp_service.specs.Timers.{earliest, second};

use crate::contact::{NEVER, later};
use std::marker::Model;

/// How long it is between two looks at what is late, in microseconds.
const SECOND: u64 = 1_000_000;

/// When it was looked at what is late: clients that are silent or take no output, what waits for the disk, what an operator
/// is told each second.
#[derive(Drop)]
pub struct Timers {
    looked: u64,
}

impl Model for Timers {
    ghost use Rattle.std.specs.Prelude.{ℕ};

    ghost Value = { ℕ };

    ghost view = { λ t. t.looked };
}

impl Timers {
    /// It was looked at now, in microseconds.
    pub fn new(now: u64) -> Timers
        ensures { result ≡ now }
    {
        Timers { looked: now }
    }

    /// Whether it is to be looked at what is late: a second is over since it was. Then it counts as looked at now.
    pub fn look(&mut self, now: u64) -> bool
        ensures is { result ≡ nat_le (later self.old second) now }
        ensures looked { self.new ≡ (if nat_le (later self.old second) now then now else self.old) }
    {
        if later(self.looked, SECOND) > now {
            return false;
        }
        self.looked = now;
        true
    }

    /// The next moment at which something is due: to look at what is late, or one of these, as of peers (`Peer::next_moment`).
    pub fn due(&self, moments: &[u64]) -> u64
        ensures { result ≡ min (later self.now second) (earliest moments.now) }
    {
        later(self.looked, SECOND).min(earliest(moments))
    }
}

/// The first of these moments, or never.
fn earliest(moments: &[u64]) -> u64
    ensures { result ≡ earliest moments.now }
{
    let mut first = NEVER;
    for moment in moments {
        first = first.min(*moment);
    }
    first
}
