//! Pulls of a peer's log into a replica, each new, over the same replies, whose reads and writes come in pieces, end or
//! fail: what each came to, how many records the replica has, and how many bytes of questions were written. And pulls
//! that come to no end but that of their turns.
ghost use Rattle.std.specs.Prelude.{None};
ghost use Rattle.warp_step.specs.Counter.{IsUnused};
ghost use Rattle.warp_record.specs.Reply.{IsReply};

use crate::lines::form_of;
use crate::mark::{begin, end};
use crate::programs::replica_of;
use crate::streams::{
    BYTES, Manner, NOTHING, PieceReader, PieceWriter, WHOLE, failing_read, failing_write,
};
use crate::transcript::{NO_MEMORY, Transcript};
use std::alloc::Global;
use std::io::Read;
use std::marker::Brand;
use std::sync::ledger::{Blank, Ledger};
use std::time::{Clock, Duration};
use warp_exchange::Desk;
use warp_line::Timeline;
use warp_record::{Line, Refusal, Reply};
use warp_replica::Local;
use warp_session::{Failed, PullEnd, Sink, Source, Stream, pull};
use warp_tag::Form;

/// Pulls: in large pieces; a byte at a time; with a writer that takes nothing; with a fault of each read and of each
/// write; and with an end before each byte.
pub(crate) fn all<T: Timeline, X: Clock>(
    rt: &X,
    alloc: Global,
    out: &mut Transcript,
    program: &str,
    replies: &str,
) {
    let replies = replies.as_bytes();
    pull_once::<T, X>(rt, alloc, out, program, replies, WHOLE);
    pull_once::<T, X>(rt, alloc, out, program, replies, NOTHING);
    let written = pull_once::<T, X>(rt, alloc, out, program, replies, BYTES);
    for sound in 0..=replies.len() {
        pull_once::<T, X>(rt, alloc, out, program, replies, failing_read(sound));
    }
    for count in 0..replies.len() {
        pull_once::<T, X>(rt, alloc, out, program, &replies[..count], BYTES);
    }
    for sound in 0..written {
        pull_once::<T, X>(rt, alloc, out, program, replies, failing_write(sound));
    }
}

/// Pulls, tells what that came to, and answers how many bytes it wrote.
fn pull_once<T: Timeline, X: Clock>(
    rt: &X,
    alloc: Global,
    out: &mut Transcript,
    program: &str,
    replies: &[u8],
    manner: Manner,
) -> usize {
    match replica_of::<T>(alloc, program) {
        Ok(replica) => {
            let mut desk = Local::new(alloc, replica);
            pull_to(rt, alloc, out, &mut desk, replies, manner)
        }
        Err(_) => {
            out.fail("no replica");
            0
        }
    }
}

/// The same into this desk.
fn pull_to<T: Timeline, X: Clock>(
    rt: &X,
    alloc: Global,
    out: &mut Transcript,
    desk: &mut Local<T>,
    replies: &[u8],
    manner: Manner,
) -> usize {
    if manner.read == 0 {
        out.fail("a read of nothing");
        return 0;
    }
    let reader = PieceReader::new(replies, manner.read, manner.reads);
    let Ok(writer) = PieceWriter::new(alloc, 4_096, manner.write, manner.writes) else {
        out.fail(NO_MEMORY);
        return 0;
    };
    let (ended, written) = run(rt, alloc, desk, reader, writer);
    say_end(out, ended);
    out.say(format_args!("{} records, {written} bytes", desk.replica().len()));
    written
}

/// How a pull ends, and how many bytes it wrote.
fn run<X: Clock, D: Desk>(
    rt: &X,
    alloc: Global,
    desk: &mut D,
    reader: PieceReader<'_>,
    writer: PieceWriter,
) -> (PullEnd, usize) {
    run_in::<X, D, Brand, Brand>(
        rt,
        alloc,
        desk,
        reader,
        writer,
        Blank::new(1),
        Blank::new(1),
    )
}

/// The same, until the peer was level once. Its failures are counted in these ledgers.
fn run_in<X: Clock, D: Desk, L: Ledger, M: Ledger>(
    rt: &X,
    alloc: Global,
    desk: &mut D,
    reader: PieceReader<'_>,
    writer: PieceWriter,
    reads: Blank,
    writes: Blank,
) -> (PullEnd, usize)
    requires reads { IsUnused reads L.name L.parts }
    requires writes { IsUnused writes M.name M.parts }
{
    let mut source = Stream::<_, L>::new(reader, reads);
    let mut sink = Stream::<_, M>::new(writer, writes);
    begin(alloc);
    let ended = pull(rt, alloc, &mut source, &mut sink, desk, 1, Duration::ZERO);
    end(alloc);
    (ended, sink.into_inner().into_written().len())
}

/// Tells how a pull ended.
fn say_end(out: &mut Transcript, ended: PullEnd) {
    let word = match ended {
        PullEnd::Quiet => "quiet",
        PullEnd::Strange => "strange",
        PullEnd::Held(refusal) => return out.say(format_args!("held {}", refusal.number())),
        PullEnd::Fault => "fault",
        PullEnd::End => "end",
        PullEnd::TooManyTurns => "too many turns",
        PullEnd::NoMemory => NO_MEMORY,
    };
    out.say(word);
}

/// A desk of this form that knows each record at the first place, or has no memory for any line. It writes `ask` alone, and has the rest of
/// the trait.
#[derive(Drop)]
struct Steady {
    form: Form,
    has_memory: bool,
}

impl Desk for Steady {
    ghost use Rattle.warp_tag.specs.Limits.{widest};
    ghost use Rattle.warp_tag.specs.declared.form.Form.{Form};
    ghost use Rattle.warp_record.specs.Reply.{IsReply};

    ghost State = { Form };

    ghost state = { λ d. d.form };

    ghost gives = { λ _ _ reply _. IsReply widest reply };

    ghost form_of = { λ f. f };

    fn ask(&mut self, _line: Line) -> Reply {
        if self.has_memory {
            Reply::Known(1)
        } else {
            Reply::Refused(Refusal::NoMemory)
        }
    }

    fn form(&self) -> Form {
        self.form
    }
}

/// A peer that gives one reply to each read.
#[derive(Drop)]
struct Repeating<'a> {
    reply: &'a [u8],
}

impl Source for Repeating<'_> {
    ghost use Rattle.std.specs.Prelude.{None};

    ghost left = { λ _. None };

    ghost failures = { λ _. 0 };

    fn read(&mut self, buffer: &mut [u8]) -> Result<usize, Failed> {
        let mut reply = self.reply;
        match reply.read(buffer) {
            Ok(count) => Ok(count),
            Err(_) => Ok(0),
        }
    }
}

/// A peer that gives one reply again and again, a byte at each read, and counts its reads.
#[derive(Drop)]
struct Dripping<'a> {
    reply: &'a [u8],
    next: usize,
    reads: usize,
}

impl Source for Dripping<'_> {
    ghost use Rattle.std.specs.Prelude.{None};

    ghost left = { λ _. None };

    ghost failures = { λ _. 0 };

    fn read(&mut self, buffer: &mut [u8]) -> Result<usize, Failed> {
        if self.next >= self.reply.len() {
            self.next = 0;
        }
        if self.next >= self.reply.len() || buffer.is_empty() {
            return Ok(0);
        }
        buffer[0] = self.reply[self.next];
        self.next += 1;
        self.reads = self.reads.saturating_add(1);
        Ok(1)
    }
}

/// Counts the bytes that are written, and how many of them are the questions for the first place.
#[derive(Drop)]
struct Questions {
    bytes: usize,
    firsts: usize,
}

impl Sink for Questions {
    ghost use Rattle.std.specs.Prelude.{None};

    ghost written = { λ _. None };

    ghost failures = { λ _. 0 };

    fn write(&mut self, piece: &[u8]) -> Result<usize, Failed> {
        self.bytes = self.bytes.saturating_add(piece.len());
        if piece == b"log 1\n".as_slice() {
            self.firsts = self.firsts.saturating_add(1);
        }
        Ok(piece.len())
    }
}

/// Pulls from a peer that gives this reply to each question, into a desk of this version that has no memory.
pub(crate) fn exhausted<X: Clock>(
    rt: &X,
    alloc: Global,
    out: &mut Transcript,
    version: &str,
    reply: &str,
) {
    let Some(form) = form_of(version) else {
        return out.fail("no version");
    };
    let reply = reply.as_bytes();
    let mut source = Repeating { reply };
    let mut sink = Questions {
        bytes: 0,
        firsts: 0,
    };
    let mut desk = Steady {
        form,
        has_memory: false,
    };
    begin(alloc);
    let ended = pull(
        rt,
        alloc,
        &mut source,
        &mut sink,
        &mut desk,
        1,
        Duration::ZERO,
    );
    end(alloc);
    say_end(out, ended);
    let (bytes, firsts) = (sink.bytes, sink.firsts);
    out.say(format_args!("{bytes} bytes, {firsts} questions for place 1"));
}

/// Pulls from a peer that gives this reply to each question, a byte at a time, into a desk of this version that knows
/// its record.
pub(crate) fn endless<X: Clock>(
    rt: &X,
    alloc: Global,
    out: &mut Transcript,
    version: &str,
    reply: &str,
) {
    let Some(form) = form_of(version) else {
        return out.fail("no version");
    };
    let mut source = Dripping {
        reply: reply.as_bytes(),
        next: 0,
        reads: 0,
    };
    let mut sink = Questions {
        bytes: 0,
        firsts: 0,
    };
    let mut desk = Steady {
        form,
        has_memory: true,
    };
    let ended = pull(
        rt,
        alloc,
        &mut source,
        &mut sink,
        &mut desk,
        1,
        Duration::ZERO,
    );
    say_end(out, ended);
    let (reads, bytes) = (source.reads, sink.bytes);
    out.say(format_args!("{reads} reads, {bytes} bytes"));
}
