//! Readers and writers over memory: they cut their bytes into pieces, and can fail once, or take nothing.
ghost use Rattle.std.specs.Prelude.{◌≡◌, ◌↔◌, ◌<◌, IsTrue, Some, option_and_then};

use crate::lines::{number_of, word_of};
use std::alloc::{AllocError, Global};
use std::io::{self, ErrorKind, Read, Write};

/// Reads a slice, at most `most` bytes at a time.
#[derive(Drop)]
pub(crate) struct PieceReader<'a> {
    left: &'a [u8],
    most: usize,
    sound: Option<u64>,
    ghost some: { 0 < most },
}

impl<'a> PieceReader<'a> {
    /// A reader of these bytes, whose read after `sound` good ones fails, once.
    pub(crate) fn new(bytes: &'a [u8], most: usize, sound: Option<u64>) -> PieceReader<'a>
        requires { 0 < most }
    {
        PieceReader {
            left: bytes,
            most,
            sound,
        }
    }
}

impl Read for PieceReader<'_> {
    ghost remaining = { λ r. Some r.left.now };

    fn read(&mut self, buffer: &mut [u8]) -> io::Result<usize> {
        if is_due(&mut self.sound) {
            return Err(ErrorKind::Other.into());
        }
        let room = buffer.len().min(self.most);
        self.left.read(&mut buffer[..room])
    }
}

/// Keeps what is written, at most `most` bytes of a piece.
#[derive(Drop)]
pub(crate) struct PieceWriter {
    written: Vec<u8>,
    most: usize,
    sound: Option<u64>,
}

impl PieceWriter {
    /// A writer whose write after `sound` good ones fails, once. It asks for no memory until so many bytes are written
    /// as there is `room` for.
    pub(crate) fn new(
        alloc: Global,
        room: usize,
        most: usize,
        sound: Option<u64>,
    ) -> Result<PieceWriter, AllocError> {
        let written = Vec::with_capacity(alloc, room)?;
        Ok(PieceWriter {
            written,
            most,
            sound,
        })
    }

    /// The bytes that were written.
    pub(crate) fn into_written(self) -> Vec<u8> {
        self.written
    }
}

impl Write for PieceWriter {
    ghost contents = { λ w. Some w.written.items };

    fn write(&mut self, piece: &[u8]) -> io::Result<usize> {
        if is_due(&mut self.sound) {
            return Err(ErrorKind::Other.into());
        }
        let count = piece.len().min(self.most);
        self.written.extend_from_slice(&piece[..count])?;
        Ok(count)
    }

    fn flush(&mut self) -> io::Result<()> {
        Ok(())
    }
}

/// Whether this call is the one that fails: `sound` counts the calls before it, and is `None` once it has come.
fn is_due(sound: &mut Option<u64>) -> bool
    ensures { IsTrue result ↔ (sound.old ≡ Some 0) }
{
    let due = *sound == Some(0);
    *sound = match *sound {
        Some(calls) => calls.checked_sub(1),
        None => None,
    };
    due
}

/// How reads and writes of a stream go: how many bytes come and go at a time, and after how many good ones a read and
/// a write fail.
#[derive(Clone, Copy)]
pub(crate) struct Manner {
    pub(crate) read: usize,
    pub(crate) write: usize,
    pub(crate) reads: Option<u64>,
    pub(crate) writes: Option<u64>,
}

/// Large pieces, and nothing fails.
pub(crate) const WHOLE: Manner = Manner {
    read: 4_096,
    write: 4_096,
    reads: None,
    writes: None,
};

/// A byte at a time, and nothing fails.
pub(crate) const BYTES: Manner = Manner {
    read: 1,
    write: 1,
    ..WHOLE
};

/// A writer that takes nothing.
pub(crate) const NOTHING: Manner = Manner { write: 0, ..BYTES };

/// A byte at a time, and the read after so many good ones fails.
pub(crate) fn failing_read(sound: usize) -> Manner {
    Manner {
        reads: Some(sound as u64),
        ..BYTES
    }
}

/// A byte at a time, and the write after so many good ones fails.
pub(crate) fn failing_write(sound: usize) -> Manner {
    Manner {
        writes: Some(sound as u64),
        ..BYTES
    }
}

/// The manner of a text: how many bytes are read and written at a time, and after how many good ones a read and a write
/// fail.
pub(crate) fn manner_of(text: &str) -> Option<Manner> {
    let (read, rest) = word_of(text);
    let (write, rest) = word_of(rest);
    let (reads, writes) = word_of(rest);
    Some(Manner {
        read: number_of(read)? as usize,
        write: number_of(write)? as usize,
        reads: sound_of(reads),
        writes: sound_of(writes),
    })
}

/// After how many good calls one fails: none does where the text, as `-`, is no number.
pub(crate) fn sound_of(text: &str) -> Option<u64> {
    Some(u64::from(number_of(text)?))
}
