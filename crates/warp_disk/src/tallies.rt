//! How many records are written, and how many synced: these numbers are made here alone, by what writes and what syncs,
//! so that none is told which that did not give.
ghost use Rattle.std.specs.Prelude.{◌≡◌, List, ℕ, IfOk};
ghost use Rattle.warp_record.specs.declared.record.Record.{Record};
ghost use Rattle.warp_journal.specs.Keeping.{KeepsAll, OnDisk};

use warp_journal::{Disk, Failed, Keeper};

/// How many records a journal's file has.
#[derive(Clone, Copy)]
pub(crate) struct Written {
    count: u32,
}

/// How many records of a journal were brought to the disk.
#[derive(Clone, Copy)]
pub(crate) struct Synced {
    count: u32,
}

impl Written {
    /// As a number.
    pub(crate) fn count(self) -> u32
        ensures { result ≡ self.count }
    {
        self.count
    }

    /// What is synced is written.
    pub(crate) fn of_synced(synced: Synced) -> Written
        ensures { result.count ≡ synced.count }
    {
        Written {
            count: synced.count,
        }
    }
}

impl Synced {
    /// As a number.
    pub(crate) fn count(self) -> u32
        ensures { result ≡ self.count }
    {
        self.count
    }
}

/// Writes what waits. How many records the file has then: all that were taken.
pub(crate) fn write<D: Disk>(keeper: &mut Keeper<D>) -> Result<Written, Failed>
    ensures { IfOk result (λ written. (first : List ℕ) (records : List Record) →
        KeepsAll D.written first keeper.old records →
        KeepsAll D.written first keeper.new records
        × OnDisk first (D.written keeper.new.disk) written.count records) }
{
    let count = keeper.write()?;
    Ok(Written { count })
}

/// Ends a batch, of this second of UTC, and writes it. How many records the file has then: a sync that begins now brings
/// these to the disk.
pub(crate) fn end_batch<D: Disk>(keeper: &mut Keeper<D>, second: u64) -> Result<Written, Failed>
    ensures { IfOk result (λ written. (first : List ℕ) (records : List Record) →
        KeepsAll D.written first keeper.old records →
        KeepsAll D.written first keeper.new records
        × OnDisk first (D.written keeper.new.disk) written.count records) }
{
    let count = keeper.end_batch(second)?;
    Ok(Written { count })
}

/// Ends a batch, of this second of UTC, and brings it to the disk. How many records are there then.
pub(crate) fn sync<D: Disk>(keeper: &mut Keeper<D>, second: u64) -> Result<Synced, Failed>
    ensures { IfOk result (λ synced. (first : List ℕ) (records : List Record) →
        KeepsAll D.written first keeper.old records →
        KeepsAll D.written first keeper.new records
        × OnDisk first (D.synced keeper.new.disk) synced.count records) }
{
    let count = keeper.sync(second)?;
    Ok(Synced { count })
}

/// Brings all to the disk that the file has, which had so many records when this was asked. These are there then.
pub(crate) fn bring<D: Disk>(disk: &mut D, asked: Written) -> Result<Synced, Failed>
    ensures count { IfOk result (λ synced. synced.count ≡ asked.count) }
    ensures synced { IfOk result (λ _. D.synced disk.new ≡ D.written disk.old) }
{
    disk.sync()?;
    Ok(Synced { count: asked.count })
}
