//! What came from the other end of a connection, cut into lines one by one.
ghost use Rattle.std.specs.Prelude.{◌≡◌, ◌+◌, [], false, IfNone, IfOk, OnErr, OnOk, drop, length, min};
ghost use Rattle.std.specs.Io.KnownBytes.{Consumes, IsAtEnd, Keeps};
ghost use Rattle.warp_record.specs.Lines.{first_end};
ghost use Rattle.warp_session.specs.Stream.{CountsFailures, reads_more};
ghost use Rattle.warp_session.specs.inner.Inbox.{CutsMore, empty_inbox};

use crate::stream::{Failed, Source};
use std::alloc::{AllocError, Global};
use std::marker::Model;
use warp_record::{Fed, Feed};

/// How many bytes a read asks for.
const PIECE: usize = 4_096;

/// The bytes that came and were not taken yet.
#[derive(Drop)]
pub(crate) struct Inbox {
    feed: Feed,
    buffer: Vec<u8>,
    start: usize,
    end: usize,
}

impl Model for Inbox {
    ghost use Rattle.std.specs.Prelude.{◌≤◌, ◌<◌, ◌-◌, drop, take, vec_len};
    ghost use Rattle.warp_session.specs.inner.Inbox.{InboxState};

    ghost Value = { InboxState };

    ghost view = { λ i.
        record { kept = i.feed; came = take (i.end - i.start) (drop i.start i.buffer.items) } };

    ghost invariant = { λ i.
        (i.start ≤ i.end) × (i.end ≤ vec_len i.buffer) × (0 < vec_len i.buffer) };
}

impl Inbox {
    /// Nothing came yet.
    pub(crate) fn new(alloc: Global) -> Result<Inbox, AllocError>
        ensures { IfOk result (λ made. made ≡ empty_inbox) }
    {
        let buffer = vec![in alloc; 0; PIECE]?;
        Ok(Inbox {
            feed: Feed::new(),
            buffer,
            start: 0,
            end: 0,
        })
    }

    /// Reads what comes next, where all that came before was looked at; `false` where nothing comes any more.
    pub(crate) fn read<R: Source>(&mut self, source: &mut R) -> Result<bool, Failed>
        requires { self.old.came ≡ [] }
        ensures kept { self.new.kept ≡ self.old.kept }
        ensures nothing { IfOk result (λ some. some ≡ false → (self.new.came ≡ []) × IsAtEnd (R.left source.new)) }
        ensures ok { OnOk result (Consumes (R.left source.old) (R.left source.new) self.new.came) }
        ensures err { OnErr result (Keeps (R.left source.old) (R.left source.new) × (self.new.came ≡ [])) }
        ensures failures { CountsFailures (R.failures source.old) (R.failures source.new) result }
        ensures reads { R.reads source.new ≡ reads_more 1 (R.reads source.old) }
    {
        self.start = 0;
        self.end = 0;
        let count = source.read(&mut self.buffer)?;
        self.end = count;
        Ok(count > 0)
    }

    /// The next line, if all of it came.
    pub(crate) fn line(&mut self) -> Option<Fed>
        ensures came { self.new.came ≡ drop (min (first_end self.old.came + 1) (length self.old.came)) self.old.came }
        ensures none { IfNone result (self.new.came ≡ []) }
        ensures cuts { CutsMore result self.old self.new }
    {
        let came = &self.buffer[self.start..self.end];
        let (count, fed) = self.feed.push(came);
        self.start += count;
        fed
    }
}
