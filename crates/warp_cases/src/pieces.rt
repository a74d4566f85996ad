//! Reads and writes of a stream over a text, in pieces and after ones that fail. Each line is a call:
//!
//! - `read MOST ROOM SOUND` makes six reads into this much room, of at most so many bytes each, of which the one after
//!   so many good ones fails, or none where that is `-`: it tells what each answered, and what they gave;
//! - `write MOST SOUND` makes six writes of what is left of the text, `send MOST SOUND` writes all of it.
ghost use Rattle.warp_step.specs.Counter.{IsUnused};

use crate::lines::{number_of, word_of};
use crate::streams::{PieceReader, PieceWriter, sound_of};
use crate::transcript::{NO_MEMORY, Transcript};
use std::alloc::Global;
use std::marker::Brand;
use std::sync::ledger::{Blank, Ledger};
use warp_session::{Failed, Sink, Source, Stream, write_all};

/// How many reads, or writes, are made.
const TIMES: usize = 6;

/// Makes the calls of the lines over this text.
pub(crate) fn perform(alloc: Global, out: &mut Transcript, text: &str, lines: &str) {
    for line in lines.lines() {
        make_call(alloc, out, text.as_bytes(), line);
    }
}

/// Makes the call of a line.
fn make_call(alloc: Global, out: &mut Transcript, text: &[u8], line: &str) {
    let (word, rest) = word_of(line);
    let (most, rest) = word_of(rest);
    let Some(most) = number_of(most) else {
        return out.fail("no number");
    };
    if word == "read" {
        return read(alloc, out, text, most as usize, rest);
    }
    let Ok(writer) = PieceWriter::new(alloc, text.len(), most as usize, sound_of(rest)) else {
        return out.fail(NO_MEMORY);
    };
    if word == "write" {
        return write_in::<Brand>(out, text, writer, Blank::new(1));
    }
    send_in::<Brand>(out, text, writer, Blank::new(1));
}

/// Makes six reads of at most so many bytes.
fn read(alloc: Global, out: &mut Transcript, text: &[u8], most: usize, rest: &str) {
    let (room, sound) = word_of(rest);
    let Some(room) = number_of(room) else {
        return out.fail("no number");
    };
    if most == 0 {
        return out.fail("a read of nothing");
    }
    let Ok(buffer) = Vec::from_elem(alloc, 0u8, room as usize) else {
        return out.fail(NO_MEMORY);
    };
    let reader = PieceReader::new(text, most, sound_of(sound));
    read_in::<Brand>(alloc, out, reader, buffer, Blank::new(1));
}

/// Makes six reads into this buffer. Failures are counted in this ledger.
fn read_in<L: Ledger>(
    alloc: Global,
    out: &mut Transcript,
    reader: PieceReader<'_>,
    mut buffer: Vec<u8>,
    blank: Blank,
)
    requires { IsUnused blank L.name L.parts }
{
    let mut source = Stream::<_, L>::new(reader, blank);
    let mut given = Vec::new(alloc);
    for _ in 0..TIMES {
        let answer = source.read(buffer.as_mut_slice());
        if let Ok(count) = answer {
            if given.extend_from_slice(&buffer[..count]).is_err() {
                out.fail(NO_MEMORY);
            }
        }
        say_answer(out, answer);
    }
    out.say_bytes(&given);
}

/// Tells what a read or a write answered.
fn say_answer(out: &mut Transcript, answer: Result<usize, Failed>) {
    match answer {
        Ok(count) => out.say(format_args!("{count}")),
        Err(Failed) => out.say("failed"),
    }
}

/// Makes six writes of what is left of the text. Failures are counted in this ledger.
fn write_in<L: Ledger>(out: &mut Transcript, text: &[u8], writer: PieceWriter, blank: Blank)
    requires { IsUnused blank L.name L.parts }
{
    let mut sink = Stream::<_, L>::new(writer, blank);
    let mut rest = text;
    for _ in 0..TIMES {
        let answer = sink.write(rest);
        if let Ok(count) = answer {
            rest = &rest[count..];
        }
        say_answer(out, answer);
    }
    out.say_bytes(&sink.into_inner().into_written());
}

/// Writes all of the text. Failures are counted in this ledger.
fn send_in<L: Ledger>(out: &mut Transcript, text: &[u8], writer: PieceWriter, blank: Blank)
    requires { IsUnused blank L.name L.parts }
{
    let mut sink = Stream::<_, L>::new(writer, blank);
    let sent = write_all(&mut sink, text);
    out.say(format_args!("sent {}", sent.is_ok()));
    out.say_bytes(&sink.into_inner().into_written());
}
