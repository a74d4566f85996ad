//! A journal that could not be written is written anew: the whole log, to a fresh file that takes the old one's place.
//!
//! A sync that answers well proves nothing of what failed before it, so nothing of the old file is used again. The
//! worker hands the log from its beginning. Until the fresh file is on the disk nothing is told of more of the log than
//! the old one was written for, with `always` synced, and clients' records are refused. A fresh file that has the whole
//! log and can't take the old one's place stays as it is: it may be the only copy.
ghost use Rattle.std.specs.Prelude.{[], ◌∷◌, ◌++◌, ℕ, List, OnOk};
ghost use Rattle.warp_record.specs.declared.record.Record.{Record};
ghost use Rattle.warp_journal.specs.Keeping.{KeepsAll};

use crate::fresh_file::FreshFiles;
use crate::journal_faults::FileFault;
use crate::journal_file::JournalFile;
use crate::operator;
use crate::scribe::{Scribe, second_now};
use crate::tallies::{Synced, Written, sync};
use std::fs::File;
use std::sync::Wait;
use std::time::{Clock, Duration};
use warp_journal::{Disk, Failed, Keeper};
use warp_record::Record;

/// How long it waits before it tries, in milliseconds.
const PAUSE: u64 = 1_000;

/// How long it waits for the worker, in milliseconds, before it looks again at what was handed.
const MOMENT: u64 = 1;

/// So many records are written at once.
const BATCH: u32 = 1_024;

/// The whole log in the fresh file beside the journal, on the disk.
#[derive(Drop)]
struct Whole {
    keeper: Keeper<JournalFile>,
    /// For the thread that syncs.
    handle: File,
    synced: Synced,
}

impl<'a> Scribe<'a> {
    /// Why the journal can't be written.
    fn reason(&mut self) -> FileFault {
        match self.fault.take() {
            Some(fault) => fault,
            None => FileFault::of_system(self.keeper.disk().fault()),
        }
    }

    /// Writes the journal anew, and tries that again each second, until it is done; whether it is, before this thread is to end.
    pub(crate) fn renew<X: Wait + Clock + FreshFiles>(&mut self, rt: &X) -> bool {
        self.durable.note_failing(true);
        self.bells.wake_worker();
        let mut told = self.reason();
        operator::tell_journal_fails(&self.teller.by(rt), told);
        // The fresh file stays while this goes on: a host that begins beside it trusts the old one no more.
        let _ = rt.begin_fresh(self.alloc, &self.place, self.keeper.disk());
        let least = self.keeper.len();
        let mut whole = None;
        for _ in rt.forever() {
            // Nothing is begun at the end: it would not become whole, and what is there may be.
            if self.durable.is_over() {
                return false;
            }
            match self.write_anew(rt, least, &mut whole) {
                Ok(()) => break,
                Err(fault) => self.tell_change(rt, &mut told, fault),
            }
            self.durable.sleep(rt, Duration::from_millis(PAUSE));
        }
        self.durable.note_failing(false);
        self.bells.wake_worker();
        operator::tell_journal_renewed(&self.teller.by(rt), self.keeper.len());
        true
    }

    /// Tells why the journal was not written anew, where that is not what was told last.
    fn tell_change<X: Wait>(&self, rt: &X, told: &mut FileFault, fault: FileFault) {
        if fault.is_as(*told) || self.durable.is_over() {
            return;
        }
        operator::tell_journal_not_renewed(&self.teller.by(rt), fault);
        *told = fault;
    }

    /// Has a fresh file with the whole log, of which there are so many records at least, take the journal's place. Where it
    /// can't, it is kept for the next time.
    fn write_anew<X: Wait + Clock + FreshFiles>(
        &mut self,
        rt: &X,
        least: u32,
        whole: &mut Option<Whole>,
    ) -> Result<(), FileFault> {
        let found = match self.still_whole(rt, whole) {
            Some(found) => found,
            None => self.make_whole(rt, least)?,
        };
        match rt.replace_by_fresh(self.alloc, &mut self.place, found.keeper.disk()) {
            Ok(()) => {
                self.take_up(rt, found);
                Ok(())
            }
            Err(fault) => {
                *whole = Some(found);
                Err(fault)
            }
        }
    }

    /// The fresh file that was made before, where it still stands beside the journal as it was written.
    fn still_whole<X: FreshFiles>(&self, rt: &X, whole: &mut Option<Whole>) -> Option<Whole> {
        let found = whole.take()?;
        if rt.is_beside(self.alloc, &self.place, found.keeper.disk()) {
            return Some(found);
        }
        None
    }

    /// Writes the log, of which there are so many records at least, to a fresh file, and brings it to the disk.
    fn make_whole<X: Wait + Clock + FreshFiles>(
        &mut self,
        rt: &X,
        least: u32,
    ) -> Result<Whole, FileFault> {
        let (disk, journal) = rt.begin_fresh(self.alloc, &self.place, self.keeper.disk())?;
        let handle = disk.file.try_clone()?;
        let mut keeper = Keeper::new(self.alloc, disk, journal);
        self.beginnings = self.beginnings.wrapping_add(1);
        self.durable.ask_for_all(self.beginnings);
        match self.fill(rt, &mut keeper, least) {
            Ok(synced) => Ok(Whole {
                keeper,
                handle,
                synced,
            }),
            Err(_) => Err(FileFault::of_system(keeper.disk().fault())),
        }
    }

    /// The fresh file has taken the journal's place: it is gone on with.
    fn take_up<X: Clock>(&mut self, rt: &X, whole: Whole) {
        let Whole {
            keeper,
            handle,
            synced,
        } = whole;
        self.keeper = keeper;
        self.behind_since = None;
        self.syncs.begin_anew(handle);
        self.durable.note_waiting(None);
        self.durable.note_written(Written::of_synced(synced));
        self.durable.note_synced(synced);
        self.let_go(rt, synced);
    }

    /// Has the thread that syncs take the fresh file at once, which is on the disk: so none holds the old one any longer.
    fn let_go<X: Clock>(&mut self, rt: &X, synced: Synced) {
        if !self.syncs.may_ask() {
            return;
        }
        let now = rt.monotonic().unwrap_or(Duration::MAX);
        self.syncs
            .ask(self.beginnings, Written::of_synced(synced), now, now);
        self.durable.wake_syncer();
    }

    /// Takes the log from its beginning, of which there are so many records at least, and brings it to the disk. How
    /// many records there are then.
    fn fill<X: Wait + Clock>(
        &mut self,
        rt: &X,
        fresh: &mut Keeper<JournalFile>,
        least: u32,
    ) -> Result<Synced, Failed> {
        let second = second_now(rt);
        self.take_from_beginning(rt, fresh, least, second)?;
        sync(fresh, second)
    }

    /// Takes the log from its beginning, as far as it was handed, and so many records at least.
    fn take_from_beginning<X: Wait>(
        &mut self,
        rt: &X,
        fresh: &mut Keeper<JournalFile>,
        least: u32,
        second: u64,
    ) -> Result<(), Failed> {
        for _ in rt.forever() {
            match self.next_handed() {
                Some(record) => take_in_batches(fresh, &record, second)?,
                None if fresh.len() >= least => return Ok(()),
                None => self.wait_for_worker(rt)?,
            }
        }
        Ok(())
    }

    /// Waits a moment for the worker. `Err` where this thread is to end.
    fn wait_for_worker<X: Wait>(&mut self, rt: &X) -> Result<(), Failed> {
        if self.durable.is_over() {
            return Err(Failed);
        }
        self.bells.wake_worker();
        self.durable.sleep(rt, Duration::from_millis(MOMENT));
        Ok(())
    }
}

/// Takes a record, and writes those that wait where they are many.
pub(crate) fn take_in_batches<D: Disk>(
    fresh: &mut Keeper<D>,
    entry: &Record,
    second: u64,
) -> Result<(), Failed>
    ensures { OnOk result ((first : List ℕ) (records : List Record) → KeepsAll D.written first fresh.old records →
        KeepsAll D.written first fresh.new (records ++ entry.now ∷ [])) }
{
    fresh.take(entry, second)?;
    if fresh.len() % BATCH == 0 {
        fresh.write()?;
    }
    Ok(())
}
