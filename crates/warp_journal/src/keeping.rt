//! A journal that is kept in a file: what waits to be written, and how much is on the disk.
ghost use Rattle.std.specs.Prelude.{◌≡◌, [], ◌∷◌, ◌++◌, List, ℕ, Option, IfOk, IfSome, OnOk, OnErr, length, ◌%◌, ◌==◌};
ghost use Rattle.std.specs.Io.KnownBytes.{append_known};
ghost use Rattle.warp_record.specs.declared.record.Record.{Record};
ghost use Rattle.warp_journal.specs.Journal.{Keeps, added, line_of, most_unsummed, sum_text};
ghost use Rattle.warp_journal.specs.Journal.{tells_seconds};
ghost use Rattle.warp_record.specs.Record.{record_spelling};
ghost use Rattle.warp_journal.specs.Keeping.{IsBegun, KeepsAll, OnDisk};

use crate::journal::Journal;
use std::alloc::Global;
use warp_record::Record;

/// A sum stands behind each so many records.
const MOST_UNSUMMED: u32 = 1_024;

/// A line could not be written, or no memory was to be had; what the file has by then is not known.
#[derive(Clone, Copy, Debug, PartialEq, Eq)]
pub struct Failed;

/// The file of a journal: bytes go behind those that it has, and to the disk when that is asked for.
pub trait Disk {
    /// The bytes that the file has; `None` where it doesn't tell.
    ghost written: { Self → Option (List ℕ) };

    /// Those of them that were brought to the disk.
    ghost synced: { Self → Option (List ℕ) };

    /// Writes these bytes behind those that the file has.
    fn append(&mut self, bytes: &[u8]) -> Result<(), Failed>
        ensures bytes { OnOk result (written self.new ≡ append_known (written self.old) bytes.now) }
        ensures synced { synced self.new ≡ synced self.old };

    /// Brings all that was written to the disk.
    fn sync(&mut self) -> Result<(), Failed>
        ensures same { written self.new ≡ written self.old }
        ensures synced { OnOk result (synced self.new ≡ written self.old) };
}

/// A journal and its file.
#[derive(Drop)]
pub struct Keeper<D: Disk> {
    alloc: Global,
    disk: D,
    journal: Journal,
    // Lines that are not written yet.
    waiting: Vec<u8>,
}

/// Whether a sum stands behind so many records, whatever the batch.
fn is_due(count: u32) -> bool
    ensures { result ≡ (count % most_unsummed == 0) }
{
    count % MOST_UNSUMMED == 0
}

impl<D: Disk> Keeper<D> {
    /// The journal that this file has.
    pub fn new(alloc: Global, disk: D, journal: Journal) -> Keeper<D>
        ensures { (first : List ℕ) (records : List Record) → IsBegun first (D.written disk) journal records →
            KeepsAll D.written first result records }
    {
        Keeper {
            alloc,
            disk,
            journal,
            waiting: Vec::new(alloc),
        }
    }

    /// How many records the journal has, those that wait among them.
    pub fn len(&self) -> u32
        ensures { result ≡ self.now.journal.count }
    {
        self.journal.len()
    }

    /// The file.
    pub fn disk(&self) -> &D
        ensures { result.now ≡ self.now.disk }
    {
        &self.disk
    }

    /// How many bytes wait to be written.
    pub fn waiting(&self) -> usize
        ensures { result ≡ length self.now.waiting.items }
    {
        self.waiting.len()
    }

    /// Takes a record, whose line waits to be written. Behind each 1,024th a sum waits too, of this second of UTC.
    pub fn take(&mut self, record: &Record, second: u64) -> Result<(), Failed>
        ensures takes { OnOk result ((first : List ℕ) (records : List Record) → KeepsAll D.written first self.old records →
            KeepsAll D.written first self.new (records ++ «record».now ∷ [])) }
        ensures lines { OnOk result ((first text : List ℕ) (records : List Record) → Keeps first self.old.journal text records →
            self.new.waiting.items ≡ self.old.waiting.items ++ added first text (length records) «record».now second) }
        ensures disk { self.new.disk ≡ self.old.disk }
    {
        self.take_record(record)?;
        if is_due(self.journal.len()) {
            self.take_sum(second)?;
            return Ok(());
        }
        Ok(())
    }

    /// Takes a record alone.
    fn take_record(&mut self, record: &Record) -> Result<(), Failed>
        ensures takes { OnOk result ((first : List ℕ) (records : List Record) → KeepsAll D.written first self.old records →
            KeepsAll D.written first self.new (records ++ «record».now ∷ [])) }
        ensures line { OnOk result (self.new.waiting.items
            ≡ self.old.waiting.items ++ line_of (record_spelling «record».now)) }
        ensures journal { OnOk result ((first text : List ℕ) (records : List Record) →
            Keeps first self.old.journal text records →
            Keeps first self.new.journal (text ++ line_of (record_spelling «record».now)) (records ++ «record».now ∷ [])) }
        ensures disk { self.new.disk ≡ self.old.disk }
    {
        match self.journal.write(record, &mut self.waiting) {
            Ok(()) => Ok(()),
            Err(_) => Err(Failed),
        }
    }

    /// Takes a sum over all so far, of this second of UTC, whose line waits to be written.
    fn take_sum(&mut self, second: u64) -> Result<(), Failed>
        ensures keeps { OnOk result ((first : List ℕ) (records : List Record) → KeepsAll D.written first self.old records →
            KeepsAll D.written first self.new records) }
        ensures line { OnOk result ((first text : List ℕ) (records : List Record) → Keeps first self.old.journal text records →
            self.new.waiting.items
            ≡ self.old.waiting.items ++ line_of (sum_text (tells_seconds first) (length records) text second)) }
        ensures disk { self.new.disk ≡ self.old.disk }
    {
        match self
            .journal
            .write_sum(self.alloc, second, &mut self.waiting)
        {
            Ok(()) => Ok(()),
            Err(_) => Err(Failed),
        }
    }

    /// Writes what waits to the file. How many records the file has then: all that were taken.
    pub fn write(&mut self) -> Result<u32, Failed>
        ensures written { IfOk result (λ count. (first : List ℕ) (records : List Record) →
            KeepsAll D.written first self.old records →
            KeepsAll D.written first self.new records × OnDisk first (D.written self.new.disk) count records) }
        ensures bytes { OnOk result (D.written self.new.disk
            ≡ append_known (D.written self.old.disk) self.old.waiting.items) }
        ensures none { OnOk result (self.new.waiting.items ≡ []) }
        ensures journal { self.new.journal ≡ self.old.journal }
    {
        self.disk.append(&self.waiting)?;
        self.waiting.clear();
        Ok(self.journal.len())
    }

    /// Ends a batch: with a sum, of this second of UTC, all is written. How many records the file has then: a sync that
    /// begins now brings these to the disk.
    pub fn end_batch(&mut self, second: u64) -> Result<u32, Failed>
        ensures written { IfOk result (λ count. (first : List ℕ) (records : List Record) →
            KeepsAll D.written first self.old records →
            KeepsAll D.written first self.new records × OnDisk first (D.written self.new.disk) count records) }
        ensures bytes { OnOk result ((first text : List ℕ) (records : List Record) →
            Keeps first self.old.journal text records →
            D.written self.new.disk ≡ append_known (D.written self.old.disk) (self.old.waiting.items
            ++ line_of (sum_text (tells_seconds first) (length records) text second))) }
        ensures none { OnOk result (self.new.waiting.items ≡ []) }
    {
        self.take_sum(second)?;
        let count = self.write()?;
        Ok(count)
    }

    /// Ends a batch so, and brings it to the disk. How many records are there then.
    pub fn sync(&mut self, second: u64) -> Result<u32, Failed>
        ensures synced { IfOk result (λ count. (first : List ℕ) (records : List Record) →
            KeepsAll D.written first self.old records →
            KeepsAll D.written first self.new records × OnDisk first (D.synced self.new.disk) count records) }
        ensures bytes { OnOk result ((first text : List ℕ) (records : List Record) →
            Keeps first self.old.journal text records →
            D.synced self.new.disk ≡ append_known (D.written self.old.disk) (self.old.waiting.items
            ++ line_of (sum_text (tells_seconds first) (length records) text second))) }
        ensures none { OnOk result (self.new.waiting.items ≡ []) }
    {
        let count = self.end_batch(second)?;
        self.disk.sync()?;
        Ok(count)
    }
}
