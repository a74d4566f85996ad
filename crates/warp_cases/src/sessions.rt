//! Sessions of a replica, each new, over the same lines, whose reads and writes come in pieces, end or fail: what each
//! came to, how many records its replica has, and what was written.
ghost use Rattle.warp_step.specs.Counter.{IsUnused};

use crate::mark::{begin, end};
use crate::programs::replica_of;
use crate::streams::{
    BYTES, Manner, NOTHING, PieceReader, PieceWriter, WHOLE, failing_read, failing_write, manner_of,
};
use crate::transcript::{NO_MEMORY, Transcript};
use std::alloc::Global;
use std::marker::Brand;
use std::sync::ledger::{Blank, Ledger};
use warp_exchange::Desk;
use warp_line::Timeline;
use warp_replica::Local;
use warp_session::{SessionEnd, Stream, session};

/// One session in the manner of the first line, over the others: how many bytes are read and written at a time, and
/// after how many good ones a read and a write fail, or `-` where none does.
pub(crate) fn in_manner<T: Timeline>(
    alloc: Global,
    out: &mut Transcript,
    program: &str,
    lines: &str,
) {
    let (manner, lines) = lines.split_once('\n').unwrap_or((lines, ""));
    match manner_of(manner) {
        Some(manner) => {
            hold::<T>(alloc, out, program, lines.as_bytes(), manner);
        }
        None => out.fail("no manner"),
    }
}

/// One session over all lines, in large pieces.
pub(crate) fn one<T: Timeline>(alloc: Global, out: &mut Transcript, program: &str, lines: &str) {
    hold::<T>(alloc, out, program, lines.as_bytes(), WHOLE);
}

/// Sessions whose reads and writes come and go a byte at a time: with no fault, with a fault of each read and of each
/// write, and with an end before each byte; and one whose writer takes nothing.
pub(crate) fn all<T: Timeline>(alloc: Global, out: &mut Transcript, program: &str, lines: &str) {
    let lines = lines.as_bytes();
    hold::<T>(alloc, out, program, lines, NOTHING);
    let written = hold::<T>(alloc, out, program, lines, BYTES);
    for sound in 0..=lines.len() {
        hold::<T>(alloc, out, program, lines, failing_read(sound));
    }
    for count in 0..lines.len() {
        hold::<T>(alloc, out, program, &lines[..count], BYTES);
    }
    for sound in 0..written {
        hold::<T>(alloc, out, program, lines, failing_write(sound));
    }
}

/// Holds a session, tells what it came to, and answers how many bytes it wrote.
fn hold<T: Timeline>(
    alloc: Global,
    out: &mut Transcript,
    program: &str,
    lines: &[u8],
    manner: Manner,
) -> usize {
    match replica_of::<T>(alloc, program) {
        Ok(replica) => {
            let mut desk = Local::new(alloc, replica);
            hold_at(alloc, out, &mut desk, lines, manner)
        }
        Err(_) => {
            out.fail("no replica");
            0
        }
    }
}

/// The same at this desk.
fn hold_at<T: Timeline>(
    alloc: Global,
    out: &mut Transcript,
    desk: &mut Local<T>,
    lines: &[u8],
    manner: Manner,
) -> usize {
    if manner.read == 0 {
        out.fail("a read of nothing");
        return 0;
    }
    let reader = PieceReader::new(lines, manner.read, manner.reads);
    let room = lines.len().saturating_mul(8).saturating_add(4_096);
    let Ok(writer) = PieceWriter::new(alloc, room, manner.write, manner.writes) else {
        out.fail(NO_MEMORY);
        return 0;
    };
    let (ended, written) = run(alloc, desk, reader, writer);
    let (word, count) = (end_word(ended), desk.replica().len());
    out.say(format_args!("{word}: {count} records"));
    out.say_bytes(&written);
    written.len()
}

/// How a session ends, and what it wrote.
fn run<D: Desk>(
    alloc: Global,
    desk: &mut D,
    reader: PieceReader<'_>,
    writer: PieceWriter,
) -> (SessionEnd, Vec<u8>) {
    run_in::<D, Brand, Brand>(alloc, desk, reader, writer, Blank::new(1), Blank::new(1))
}

/// The same. Its failures are counted in these ledgers.
fn run_in<D: Desk, L: Ledger, M: Ledger>(
    alloc: Global,
    desk: &mut D,
    reader: PieceReader<'_>,
    writer: PieceWriter,
    reads: Blank,
    writes: Blank,
) -> (SessionEnd, Vec<u8>)
    requires reads { IsUnused reads L.name L.parts }
    requires writes { IsUnused writes M.name M.parts }
{
    let mut source = Stream::<_, L>::new(reader, reads);
    let mut sink = Stream::<_, M>::new(writer, writes);
    begin(alloc);
    let ended = session(alloc, &mut source, &mut sink, desk);
    end(alloc);
    (ended, sink.into_inner().into_written())
}

/// The word for how a session ended.
fn end_word(ended: SessionEnd) -> &'static str {
    match ended {
        SessionEnd::End => "end",
        SessionEnd::ReadFault => "read fault",
        SessionEnd::WriteFault => "write fault",
        SessionEnd::TooManyReads => "too many reads",
        SessionEnd::NoMemory => "no memory",
    }
}
