//! The thread that brings the journal to the disk, so that writing never waits for that, and the way to it.
ghost use Rattle.std.specs.Prelude.{◌≡◌, IfSome};

use crate::durable::Durable;
use crate::journal_file::JournalFile;
use crate::tallies::{Synced, Written, bring};
use rtrb::{Consumer, Producer};
use std::fs::File;
use std::io;
use std::sync::Wait;
use std::time::Duration;
use warp_journal::Failed;

/// The longest sleep of the thread that syncs, in milliseconds.
const LONGEST_SLEEP: u64 = 1_000;

/// The places of the rings to this thread and from it: a sync of a file that failed since may still be under way.
pub(crate) const SYNCS_ROOM: usize = 4;

/// A sync that takes longer is told, in seconds.
const SLOW: u64 = 5;

/// What is to be brought to the disk.
#[derive(Drop)]
pub(crate) struct SyncJob {
    /// The file, where it is another than that of the job before.
    pub(crate) fresh: Option<File>,
    /// How many times the journal had been written anew.
    pub(crate) beginning: u32,
    /// How many records the file had.
    pub(crate) count: Written,
}

/// What came of a job.
#[derive(Clone, Copy)]
pub(crate) struct SyncDone {
    pub(crate) beginning: u32,
    /// How many records are on the disk.
    pub(crate) synced: Result<Synced, Option<io::Error>>,
}

/// What the thread that syncs holds.
#[derive(Drop)]
pub(crate) struct Syncer<'a> {
    /// A handle of the journal's file.
    pub(crate) disk: JournalFile,
    pub(crate) jobs: Consumer<SyncJob>,
    pub(crate) done: Producer<SyncDone>,
    pub(crate) durable: &'a Durable,
}

impl<'a> Syncer<'a> {
    /// Does what is to be done next; whether there was anything.
    fn work(&mut self) -> bool {
        let Ok(job) = self.jobs.pop() else {
            return false;
        };
        let SyncJob {
            fresh,
            beginning,
            count,
        } = job;
        if let Some(file) = fresh {
            self.disk.file = file;
        }
        let synced = match bring(&mut self.disk, count) {
            Ok(count) => Ok(count),
            Err(Failed) => Err(self.disk.fault()),
        };
        // There is room for all that is asked.
        let _ = self.done.push(SyncDone { beginning, synced });
        self.durable.wake_scribe();
        true
    }

    /// Brings the journal to the disk when that is asked, until it is to end.
    pub(crate) fn run<X: Wait>(mut self, rt: &X) {
        for _ in rt.forever() {
            if self.work() {
                continue;
            }
            if self.durable.is_syncer_over() {
                return;
            }
            self.durable
                .sleep_syncer(rt, Duration::from_millis(LONGEST_SLEEP));
        }
    }
}

/// A sync that was asked and not answered yet.
#[derive(Clone, Copy)]
pub(crate) struct UnderWay {
    /// When it was asked.
    asked: Duration,
    /// Since when the oldest record waits for it.
    waits_since: Duration,
}

/// The way to the thread that syncs, and what is on it.
#[derive(Drop)]
pub(crate) struct Syncs {
    jobs: Producer<SyncJob>,
    done: Consumer<SyncDone>,
    under_way: Option<UnderWay>,
    // A file that the thread has not yet.
    fresh: Option<File>,
    is_slow_told: bool,
}

impl Syncs {
    /// Nothing is asked yet.
    pub(crate) fn new(jobs: Producer<SyncJob>, done: Consumer<SyncDone>) -> Syncs {
        Syncs {
            jobs,
            done,
            under_way: None,
            fresh: None,
            is_slow_told: false,
        }
    }

    /// Whether a sync is asked and not answered.
    pub(crate) fn is_under_way(&self) -> bool {
        self.under_way.is_some()
    }

    /// Whether a sync may be asked now.
    pub(crate) fn may_ask(&mut self) -> bool {
        self.under_way.is_none() && !self.jobs.is_full()
    }

    /// Asks to bring the file to the disk, which has so many records and was begun so many times; the oldest that is not
    /// there waits since then.
    pub(crate) fn ask(
        &mut self,
        beginning: u32,
        count: Written,
        asked: Duration,
        waits_since: Duration,
    ) {
        let fresh = self.fresh.take();
        let _ = self.jobs.push(SyncJob {
            fresh,
            beginning,
            count,
        });
        self.under_way = Some(UnderWay { asked, waits_since });
    }

    /// Whether something came of a sync that was asked.
    pub(crate) fn is_answered(&mut self) -> bool {
        !self.done.is_empty()
    }

    /// What came of the sync under way, which was asked since the journal was begun so many times, if it has ended.
    pub(crate) fn answer(&mut self, beginning: u32, now: Duration) -> Option<SyncDone>
        ensures { IfSome result (λ done. done.beginning ≡ beginning) }
    {
        for _ in 0..SYNCS_ROOM {
            let done = self.done.pop().ok()?;
            if done.beginning == beginning {
                if !self.is_slow(now) {
                    self.is_slow_told = false;
                }
                self.under_way = None;
                return Some(done);
            }
        }
        None
    }

    /// The journal was written anew to this file, which is on the disk: what was asked of the old one counts no more.
    pub(crate) fn begin_anew(&mut self, file: File) {
        self.under_way = None;
        self.fresh = Some(file);
    }

    /// Since when the oldest record waits for the sync under way.
    pub(crate) fn waits_since(&self) -> Option<Duration> {
        match self.under_way {
            Some(under_way) => Some(under_way.waits_since),
            None => None,
        }
    }

    /// Whether the sync under way takes long.
    fn is_slow(&self, now: Duration) -> bool {
        match self.under_way {
            Some(under_way) => now.saturating_sub(under_way.asked) > Duration::from_secs(SLOW),
            None => false,
        }
    }

    /// Whether it is to be told now that the sync under way takes long: once, until one is quicker.
    pub(crate) fn is_slowness_new(&mut self, now: Duration) -> bool {
        if self.is_slow_told || !self.is_slow(now) {
            return false;
        }
        self.is_slow_told = true;
        true
    }
}
