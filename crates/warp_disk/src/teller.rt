//! Standard error of a host, which nobody may read: what an operator is told waits for it, and no thread does.
//!
//! The descriptor is shared with other processes, so it is never made non-blocking: before each write it is looked whether
//! there is room. What finds none waits, up to a bound, and what is told behind that is counted. The room for what waits is
//! taken at the start, so that telling wants no memory.

ghost use Rattle.std.specs.Prelude.{◌≡◌, ◌+◌, ◌≤◌, length, true};

use libc::net::{POLLOUT, poll};
use libc::types::pollfd;
use std::alloc::{AllocError, Global};
use std::fmt::{self, Display, Write};
use std::io::{self, Eprint};
use std::sync::{Mutex, Wait};

/// The descriptor of standard error.
const STANDARD_ERROR: i32 = 2;

/// So many bytes are written at once at most: a pipe that has any room takes them without a wait.
const MOST_AT_ONCE: usize = 4_096;

/// So many bytes wait at most.
const MOST_WAITING: usize = 65_536;

/// So many writes follow each other at most.
const MOST_WRITES: u32 = 64;

/// What was told and waits for standard error.
#[derive(Drop)]
struct Waiting {
    /// Whole lines; none where all was written.
    text: Vec<u8>,
    /// How many bytes of them were written.
    written: usize,
    /// How many notes were left out behind them.
    left_out: u64,
}

/// Whether a write on standard error would not wait: there is room, or it fails at once.
fn has_room() -> bool {
    let mut asked = [pollfd {
        fd: STANDARD_ERROR,
        events: POLLOUT,
        revents: 0,
    }];
    poll(&mut asked, 0) > 0
}

/// Whether a write that failed so may be made again.
fn is_passing(error: i32) -> bool {
    error == libc::EAGAIN || error == libc::EINTR
}

/// What of these bytes is written at once: whole lines, where the first of them is not too long.
fn piece_of(rest: &[u8]) -> &[u8]
    ensures { length result.now ≤ 4096 }
{
    let Some(front) = rest.get(..MOST_AT_ONCE) else {
        return rest;
    };
    match front.iter().rposition(|byte| *byte == b'\n') {
        Some(at) => front.get(..at.saturating_add(1)).unwrap_or(front),
        None => front,
    }
}

impl Waiting {
    /// Whether so many bytes may wait behind what does: there is room for them, and nothing was left out before them.
    fn may_add(&self, len: usize) -> bool
        ensures { result ≡ true → length self.now.text.items + len ≤ 65536 }
    {
        if self.left_out > 0 || len > MOST_WAITING {
            return false;
        }
        self.text.len() <= MOST_WAITING - len
    }

    /// Puts a part of a note behind what waits, if it may wait; whether it does.
    fn put(&mut self, part: &[u8]) -> bool
        ensures { length self.old.text.items ≤ 65536 → length self.new.text.items ≤ 65536 }
    {
        if !self.may_add(part.len()) {
            return false;
        }
        self.text.extend_from_slice(part).is_ok()
    }

    /// Puts a note with its end behind what waits, or leaves it out.
    fn add<D: Display + Drop>(&mut self, note: D, end: &str) {
        let before = self.text.len();
        if write!(self, "{note}{end}").is_err() {
            self.text.truncate(before);
            self.left_out = self.left_out.saturating_add(1);
        }
    }

    /// Writes what waits, and then how many notes were left out, as far as there is room.
    fn go_on(&mut self) {
        self.write_out();
        if self.left_out > 0 && self.text.is_empty() {
            self.put_left_out();
            self.write_out();
        }
    }

    /// How many notes were left out is to be written: there is room, since nothing waits.
    fn put_left_out(&mut self) {
        let left_out = self.left_out;
        self.left_out = 0;
        let _ = write!(
            self,
            "notes left out: {left_out}, nobody read standard error\n"
        );
    }

    /// Writes what waits, as far as there is room. Where that fails nobody is told it.
    fn write_out(&mut self) {
        for _ in 0..MOST_WRITES {
            if self.text.is_empty() || !has_room() {
                return;
            }
            let rest = self.text.get(self.written..);
            let piece = piece_of(rest.unwrap_or(b""));
            match usize::try_from(libc::write(STANDARD_ERROR, piece)) {
                Ok(count) => self.note_written(count),
                Err(_) if is_passing(os::errno()) => return,
                Err(_) => self.forget(),
            }
        }
    }

    /// So many bytes more were written.
    fn note_written(&mut self, count: usize) {
        self.written = self.written.saturating_add(count);
        if self.written >= self.text.len() {
            self.text.clear();
            self.written = 0;
        }
    }

    /// Nobody is told what waits.
    fn forget(&mut self) {
        self.text.clear();
        self.written = 0;
        self.left_out = 0;
    }
}

impl Write for Waiting {
    fn write_str(&mut self, part: &str) -> fmt::Result {
        if self.put(part.as_bytes()) {
            Ok(())
        } else {
            Err(fmt::Error)
        }
    }
}

/// Tells an operator on standard error, from any thread of a host, and makes none wait for it.
#[derive(Drop)]
pub struct Teller {
    waiting: Mutex<Waiting>,
}

impl Teller {
    /// Nothing waits, and there is memory for all that may.
    pub fn new(alloc: Global) -> Result<Teller, AllocError> {
        let mut text = Vec::new(alloc);
        text.reserve(MOST_WAITING)?;
        Ok(Teller {
            waiting: Mutex::new(Waiting {
                text,
                written: 0,
                left_out: 0,
            }),
        })
    }

    /// Writes what waits, as far as there is room.
    pub fn go_on<X: Wait>(&self, rt: &X) {
        self.waiting.lock(rt).go_on();
    }

    /// The same by the system that this thread has.
    pub fn by<'a, X: Wait>(&'a self, rt: &'a X) -> Telling<'a, X> {
        Telling { rt, teller: self }
    }
}

/// A teller, and the system that a thread has: what is told by it is told without a wait.
#[derive(Drop)]
pub struct Telling<'a, X: Wait> {
    rt: &'a X,
    teller: &'a Teller,
}

impl<'a, X: Wait> Telling<'a, X> {
    /// Tells this, with that behind it.
    fn tell<D: Display + Drop>(&self, note: D, end: &str) {
        let mut waiting = self.teller.waiting.lock(self.rt);
        waiting.add(note, end);
        waiting.go_on();
    }
}

impl<'a, X: Wait> Eprint for Telling<'a, X> {
    fn eprint<D: Display + Drop>(&self, value: D) -> io::Result<()> {
        self.tell(value, "");
        Ok(())
    }

    fn eprintln<D: Display + Drop>(&self, value: D) -> io::Result<()> {
        self.tell(value, "\n");
        Ok(())
    }
}
