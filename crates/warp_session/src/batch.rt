//! Lines that wait for their answers, and replies that wait to be written.
ghost use Rattle.std.specs.Prelude.{◌≡◌, ℕ, ◌<◌, ◌++◌, ◌∷◌, [], List, IfOk, OnErr, OnOk, false, length};
ghost use Rattle.std.specs.Io.KnownBytes.{Appends};
ghost use Rattle.std.specs.List.{flat_map};
ghost use Rattle.warp_exchange.specs.Batch.{GivesEach, most_lines};
ghost use Rattle.warp_record.specs.Reply.{reply_line};
ghost use Rattle.warp_record.specs.declared.reply.Reply.{Reply};
ghost use Rattle.warp_session.specs.Stream.{CountsFailures, WritesFront};

use crate::stream::{Failed, Sink, write_all};
use std::alloc::{AllocError, Global};
use std::marker::Model;
use warp_exchange::{Desk, MOST_LINES};
use warp_record::{Line, REPLY_ROOM, Reply, write_reply_line};

/// The room for replies that wait to be written, in bytes.
const ROOM: usize = 65_536;

/// Replies that wait to be written. Contracts see their bytes.
#[derive(Drop)]
pub(crate) struct Outbox {
    gathered: Vec<u8>,
}

impl Model for Outbox {
    ghost use Rattle.std.specs.Prelude.{ℕ, ◌≤◌, List, vec_capacity};
    ghost use Rattle.warp_session.specs.declared.batch.TheConstants.{ROOM};

    ghost Value = { List ℕ };

    ghost view = { λ o. o.gathered.items };

    ghost invariant = { λ o. ROOM ≤ vec_capacity o.gathered };
}

impl Outbox {
    /// One that holds nothing.
    pub(crate) fn new(alloc: Global) -> Result<Outbox, AllocError>
        ensures { IfOk result (λ made. made ≡ []) }
    {
        let gathered = Vec::with_capacity(alloc, ROOM)?;
        Ok(Outbox { gathered })
    }

    /// Writes what was gathered.
    pub(crate) fn flush<W: Sink>(&mut self, sink: &mut W) -> Result<(), Failed>
        ensures written { OnOk result (Appends (W.written sink.old) (W.written sink.new) self.old) }
        ensures empty { OnOk result (self.new ≡ []) }
        ensures front { OnErr result (WritesFront (W.written sink.old) (W.written sink.new) self.old) }
        ensures failures { CountsFailures (W.failures sink.old) (W.failures sink.new) result }
    {
        write_all(sink, &self.gathered)?;
        self.gathered.clear();
        Ok(())
    }

    /// Gathers a reply behind the others, which are written where it has no room.
    #[inline(always)]
    pub(crate) fn gather<W: Sink>(&mut self, sink: &mut W, reply: &Reply) -> Result<(), Failed>
        ensures gathered { OnOk result ((sent : List ℕ) × Appends (W.written sink.old) (W.written sink.new) sent
            × (sent ++ self.new ≡ self.old ++ reply_line «reply».now)) }
        ensures front { OnErr result (WritesFront (W.written sink.old) (W.written sink.new)
            (self.old ++ reply_line «reply».now)) }
        ensures failures { CountsFailures (W.failures sink.old) (W.failures sink.new) result }
    {
        let is_full = self.gathered.len() + REPLY_ROOM > ROOM;
        if is_full {
            self.flush(sink)?;
        }
        write_reply_line(&mut self.gathered, reply);
        Ok(())
    }

    /// Gathers replies behind the others.
    fn gather_all<W: Sink>(&mut self, sink: &mut W, replies: &[Reply]) -> Result<(), Failed>
        ensures gathered { OnOk result ((sent : List ℕ) × Appends (W.written sink.old) (W.written sink.new) sent
            × (sent ++ self.new ≡ self.old ++ flat_map reply_line replies.now)) }
        ensures front { OnErr result (WritesFront (W.written sink.old) (W.written sink.new)
            (self.old ++ flat_map reply_line replies.now)) }
        ensures failures { CountsFailures (W.failures sink.old) (W.failures sink.new) result }
    {
        for at in 0..replies.len() {
            self.gather(sink, &replies[at])?;
        }
        Ok(())
    }
}

/// Lines that wait for their answers, at most 64, and places for their replies. Contracts see the lines.
#[derive(Drop)]
pub(crate) struct Batch {
    lines: [Line; MOST_LINES],
    replies: [Reply; MOST_LINES],
    count: usize,
}

impl Model for Batch {
    ghost use Rattle.std.specs.Prelude.{◌≤◌, List, take};
    ghost use Rattle.warp_exchange.specs.Batch.{most_lines};
    ghost use Rattle.warp_record.specs.declared.line.Line.{Line};

    ghost Value = { List Line };

    ghost view = { λ b. take b.count b.lines };

    ghost invariant = { λ b. b.count ≤ most_lines };
}

impl Batch {
    /// No line waits.
    pub(crate) fn new() -> Batch
        ensures { result ≡ [] }
    {
        Batch {
            lines: [Line::Collect; MOST_LINES],
            replies: [Reply::NoRow; MOST_LINES],
            count: 0,
        }
    }

    /// Whether there is no room for one more.
    #[inline(always)]
    pub(crate) fn is_full(&self) -> bool
        ensures room { result ≡ false → length self.now < most_lines }
    {
        self.count == MOST_LINES
    }

    /// Puts a line behind those that wait.
    #[inline(always)]
    pub(crate) fn push(&mut self, line: Line)
        requires { length self.old < most_lines }
        ensures { self.new ≡ self.old ++ «line» ∷ [] }
    {
        self.lines[self.count] = line;
        self.count += 1;
    }

    /// Asks the desk all lines that wait, and gathers its replies; none waits any more.
    #[inline(never)]
    pub(crate) fn answer<D: Desk, W: Sink>(
        &mut self,
        desk: &mut D,
        sink: &mut W,
        outbox: &mut Outbox,
    ) -> Result<(), Failed>
        ensures answered { OnOk result ((replies : List Reply) × (sent : List ℕ)
            × GivesEach D.gives (D.state desk.old) self.old replies (D.state desk.new)
            × Appends (W.written sink.old) (W.written sink.new) sent
            × (sent ++ outbox.new ≡ outbox.old ++ flat_map reply_line replies)) }
        ensures front { OnErr result ((replies : List Reply)
            × GivesEach D.gives (D.state desk.old) self.old replies (D.state desk.new)
            × WritesFront (W.written sink.old) (W.written sink.new) (outbox.old ++ flat_map reply_line replies)) }
        ensures none { self.new ≡ [] }
        ensures failures { CountsFailures (W.failures sink.old) (W.failures sink.new) result }
    {
        let count = self.count;
        self.count = 0;
        desk.ask_all(&self.lines[..count], &mut self.replies[..count]);
        outbox.gather_all(sink, &self.replies[..count])
    }
}
