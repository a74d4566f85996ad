//! How much of the log is in the journal's file and on the disk, and how much of it may be told.
//!
//! What writes the journal says so many records are written, or on the disk, of a file with a number. Where it fails,
//! nothing more of that file counts until a fresh one took its place.
ghost use Rattle.std.specs.Prelude.{◌≡◌, ◌-◌, nat_le};
ghost use Rattle.std.specs.Prelude.{Option, Some, None, true, false};
ghost use Rattle.warp_service.specs.Lengths.{limit_of, longest, replaced_by, with_fresh, with_synced, with_waiting, with_written};
ghost use Rattle.warp_service.specs.Lengths.{is_trusted, waited};

use std::marker::Model;

/// Of which records may be told.
#[derive(Clone, Copy, Debug, PartialEq, Eq)]
pub enum Tells {
    /// Of all: there is no journal.
    All,
    /// Of those that were handed to the system.
    Written,
    /// Of those that were brought to the disk.
    Synced,
}

/// How much of the log a journal has. Contracts see all that it holds.
#[derive(Drop)]
pub struct Lengths {
    tells: Tells,
    file: u32,
    written: u32,
    synced: u32,
    since: Option<u64>,
    is_failing: bool,
    has_failed: bool,
}

impl Model for Lengths {
    ghost use Rattle.std.specs.Prelude.{◌≤◌};
    ghost use Rattle.warp_service.specs.Lengths.{LengthsState};

    ghost Value = { LengthsState };

    ghost view = { λ l.
        record {
          tells = l.tells;
          file = l.file;
          written = l.written;
          synced = l.synced;
          since = l.since;
          failing = l.is_failing;
          failed = l.has_failed;
        } };

    ghost invariant = { λ l. l.synced ≤ l.written };
}

impl Lengths {
    /// A journal whose file, of number 0, has so many records, all on the disk; none where there is no journal.
    pub fn new(tells: Tells, count: u32) -> Lengths
        ensures { result ≡ record { tells = tells; file = 0; written = count; synced = count; since = None; failing = false; failed = false } }
    {
        Lengths {
            tells,
            file: 0,
            written: count,
            synced: count,
            since: None,
            is_failing: false,
            has_failed: false,
        }
    }

    /// The longest log that may be told of now, in records.
    pub fn limit(&self) -> u32
        ensures { result ≡ limit_of self.now }
    {
        longest(self.tells, self.written, self.synced)
    }

    /// So many records of the file of this number are handed to the system. Of another file, or while the journal can't be
    /// written, that counts nothing.
    pub fn note_written(&mut self, file: u32, count: u32)
        ensures { self.new ≡ with_written file count self.old }
    {
        if self.is_trusted(file) && count > self.written {
            self.written = count;
        }
    }

    /// So many records of the file of this number are on the disk.
    pub fn note_synced(&mut self, file: u32, count: u32)
        ensures { self.new ≡ with_synced file count self.old }
    {
        if self.is_trusted(file) {
            self.written = self.written.max(count);
            self.synced = self.synced.max(count);
        }
    }

    /// The oldest record of the file of this number that is written and not on the disk waits since then, in microseconds;
    /// none waits.
    pub fn note_waiting(&mut self, file: u32, since: Option<u64>)
        ensures { self.new ≡ with_waiting file since self.old }
    {
        if self.is_trusted(file) {
            self.since = since;
        }
    }

    /// The journal can't be written: nothing more of its file counts.
    pub fn note_failing(&mut self)
        ensures { self.new ≡ record self.old { failing = true } }
    {
        self.is_failing = true;
    }

    /// A fresh file of this number took the journal's place, with so many records, all of them on the disk; whether it
    /// could: one of fewer records than may have been told takes no place, and nothing changes.
    pub fn note_replaced(&mut self, file: u32, count: u32) -> bool
        ensures could { result ≡ nat_le (limit_of self.old) count }
        ensures lengths { self.new ≡ with_fresh file count self.old }
    {
        if self.limit() > count {
            return false;
        }
        self.file = file;
        self.written = count;
        self.synced = count;
        self.since = None;
        self.is_failing = false;
        true
    }

    /// The journal could not be written until the end.
    pub fn note_failed(&mut self)
        ensures { self.new ≡ record self.old { failing = true; failed = true } }
    {
        self.note_failing();
        self.has_failed = true;
    }

    /// Whether the journal can't be written now: records of clients are refused.
    pub fn is_failing(&self) -> bool
        ensures { result ≡ self.now.failing }
    {
        self.is_failing
    }

    /// Whether it could not be written until the end: the host ends.
    pub fn has_failed(&self) -> bool
        ensures { result ≡ self.now.failed }
    {
        self.has_failed
    }

    /// How many records are on the disk; none where there is no journal.
    pub fn synced(&self) -> u32
        ensures { result ≡ self.now.synced }
    {
        self.synced
    }

    /// How many records are written and not on the disk.
    pub fn unsynced(&self) -> u32
        ensures { result ≡ self.now.written - self.now.synced }
    {
        self.written - self.synced
    }

    /// For how long the oldest of these waits now, in microseconds; 0 where none does.
    pub fn waited(&self, now: u64) -> u64
        ensures { result ≡ waited now self.now.since }
    {
        match self.since {
            Some(since) => now.saturating_sub(since),
            None => 0,
        }
    }

    /// Whether what is said of a file counts.
    fn is_trusted(&self, file: u32) -> bool
        ensures { result ≡ is_trusted file self.now }
    {
        file == self.file && !self.is_failing
    }
}

/// The longest log that may be told of, where so many records are written and so many synced.
fn longest(tells: Tells, written: u32, synced: u32) -> u32
    ensures { result ≡ longest tells written synced }
{
    match tells {
        Tells::All => u32::MAX,
        Tells::Written => written,
        Tells::Synced => synced,
    }
}
