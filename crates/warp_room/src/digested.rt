//! The digest of a room's log: counted when somebody asks, from where it was counted before, a slice at a time.
ghost use Rattle.std.specs.Prelude.{◌≡◌, ◌+◌, ◌≤◌, IfOk, IfSome, List, OnOk, length, min};
ghost use Rattle.warp_record.specs.declared.record.Record.{Record};
ghost use Rattle.warp_room.specs.Digested.{IsCounted, TellsDigest};

use crate::room::Room;
use std::alloc::Global;
use warp_digest::Digest;
use warp_line::Timeline;
use warp_replica::Replica;
use warp_tag::OutOfMemory;

/// What is told of a log's digest.
#[derive(Debug, Drop)]
pub struct Digested {
    /// How many records of the log are counted, from its first on: N in the line.
    pub len: u32,
    /// The line `digest N D`, with its line feed: D is the digest of these records.
    pub text: Vec<u8>,
}

impl<T: Timeline> Room<T> {
    /// How many records of the log, from its first on, are counted into its digest.
    pub fn counted(&self) -> u32
        ensures { result ≤ length self.now.replica.records }
    {
        self.digest.count()
    }

    /// Counts records of the log into its digest: those behind the ones that are counted, at most so many. `Err` says that
    /// no memory was to be had; what was counted before is counted.
    pub fn count(&mut self, most: u32) -> Result<(), OutOfMemory>
        ensures { self.new ≡ self.old }
    {
        count_behind(&self.replica, &mut self.digest, most)
    }

    /// The digest of the whole log, where all of it is counted and there is memory.
    pub fn whole_digest(&self, alloc: Global) -> Option<Digested>
        ensures { IfSome result (λ told. TellsDigest self.now.replica.records told
            × (told.len ≡ length self.now.replica.records)) }
    {
        if self.digest.count() < self.replica.len() {
            return None;
        }
        let Ok(told) = told_of(&self.digest, alloc) else {
            return None;
        };
        Some(told)
    }

    /// Tells the digest of the records that are counted.
    pub fn digest(&self, alloc: Global) -> Result<Digested, OutOfMemory>
        ensures { IfOk result (λ told. TellsDigest self.now.replica.records told) }
    {
        told_of(&self.digest, alloc)
    }
}

/// Tells a digest: that of the first records of a log, if they are what it counts.
fn told_of(digest: &Digest, alloc: Global) -> Result<Digested, OutOfMemory>
    ensures { (log : List Record) → IsCounted log digest.now →
        IfOk result (λ told. TellsDigest log told × (told.len ≡ digest.now.count)) }
{
    let text = digest.line(alloc)?;
    Ok(Digested {
        len: digest.count(),
        text,
    })
}

/// Counts the records of the log behind those that are counted, at most so many.
fn count_behind<T: Timeline>(
    replica: &Replica<T>,
    digest: &mut Digest,
    most: u32,
) -> Result<(), OutOfMemory>
    requires { IsCounted replica.now.records digest.old }
    ensures kept { IsCounted replica.now.records digest.new }
    ensures all { OnOk result (digest.new.count ≡ min (digest.old.count + most) (length replica.now.records)) }
{
    let len = replica.len();
    let count = digest.count();
    let end = count + (len - count).min(most);
    for index in count..end {
        let Some(said) = replica.entry(index + 1) else {
            return Ok(());
        };
        digest.take(&said)?;
    }
    Ok(())
}
