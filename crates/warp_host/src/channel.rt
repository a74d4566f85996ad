//! Standard input and output of a host: the end of its input, and with an operator the lines of it and their answers. It
//! decides nothing: it reads and writes as far as the system goes without a wait, and cuts bytes into lines.

use crate::options::ChannelUse;
use crate::worker::{INPUT, OUTPUT};
use mio::unix::SourceFd;
use mio::{Interest, Poll};
use std::alloc::Global;
use std::fmt::Write;
use warp_events::OperatorAnswer;

/// The descriptors of standard input and output.
const STANDARD_INPUT: i32 = 0;

const STANDARD_OUTPUT: i32 = 1;

/// So many bytes are read at once: the answers to their lines, each of which may be a line feed alone, are less than a pipe
/// takes at once where it takes any.
pub(crate) const PIECE: usize = 64;

/// A longer line is no word.
const LONGEST_LINE: usize = 4_096;

/// So many writes follow each other at most.
const MOST_WRITES: u32 = 16;

/// What came of looking at standard input.
#[derive(Clone, Copy)]
pub(crate) enum Looked {
    /// So many bytes.
    Bytes(usize),
    /// Nothing now.
    Nothing,
    /// Its end.
    End,
}

/// Standard input and output.
#[derive(Drop)]
pub(crate) struct Channel {
    /// Standard input has lines of an operator, which are answered on standard output.
    pub(crate) is_operated: bool,
    /// The end of standard input ends the host.
    pub(crate) ends_host: bool,
    /// The path of the file of tokens, which the operator may have read again.
    pub(crate) tokens: Option<String>,
    /// Standard input is read.
    is_open: bool,
    /// Events tell when it can be read. What tells none, as a file, can always be.
    has_events: bool,
    /// Events tell when standard output can be written. What tells none always can.
    has_output_events: bool,
    /// Standard output can be written without a wait.
    may_write: bool,
    /// Nobody hears answers any more.
    is_unheard: bool,
    /// The bytes of a line that has not ended.
    line: Vec<u8>,
    /// It is too long.
    is_long: bool,
    /// What is to be written.
    answers: String,
}

impl Channel {
    /// Standard input is watched from now on where its end ends the host or an operator has it, and else not looked at.
    pub(crate) fn new(alloc: Global, poll: &Poll, uses: ChannelUse) -> Channel {
        let ChannelUse {
            until_input_ends: ends_host,
            operator: is_operated,
            tokens,
        } = uses;
        let is_open = ends_host || is_operated;
        let input = &mut SourceFd(&STANDARD_INPUT);
        let output = &mut SourceFd(&STANDARD_OUTPUT);
        let registry = poll.registry();
        let has_events = is_open && registry.register(input, INPUT, Interest::READABLE).is_ok();
        let has_output_events = is_operated
            && registry
                .register(output, OUTPUT, Interest::WRITABLE)
                .is_ok();
        Channel {
            is_operated,
            ends_host,
            tokens,
            is_open,
            has_events,
            has_output_events,
            may_write: !has_output_events,
            is_unheard: false,
            line: Vec::new(alloc),
            is_long: false,
            answers: String::new(alloc),
        }
    }

    /// Whether standard input is to be read without an event.
    pub(crate) fn is_always_ready(&self) -> bool {
        self.is_open && !self.has_events
    }

    /// Something was said of standard output: it can be written, or nobody reads it.
    pub(crate) fn note_output(&mut self) {
        self.may_write = true;
    }

    /// Whether standard input may be read: where its lines are answered, while the answers can be written.
    pub(crate) fn may_read(&self) -> bool {
        self.is_open && self.may_write
    }

    /// Reads once what can be read of standard input.
    pub(crate) fn look(&mut self, poll: &Poll, bytes: &mut [u8]) -> Looked {
        let count = libc::read(STANDARD_INPUT, bytes);
        let error = os::errno();
        match usize::try_from(count) {
            Ok(0) => {}
            Ok(count) => {
                self.ask_for_input(poll);
                return Looked::Bytes(count);
            }
            Err(_) if is_passing(error) => {
                self.ask_for_input(poll);
                return Looked::Nothing;
            }
            Err(_) => {}
        }
        self.is_open = false;
        if self.has_events {
            let _ = poll.registry().deregister(&mut SourceFd(&STANDARD_INPUT));
        }
        Looked::End
    }

    /// Standard input may block, so it is read once an event, and asked for again.
    fn ask_for_input(&self, poll: &Poll) {
        if self.has_events {
            let _ = poll
                .registry()
                .reregister(&mut SourceFd(&STANDARD_INPUT), INPUT, Interest::READABLE);
        }
    }

    /// Takes on the next byte of standard input. Whether it ends a line.
    pub(crate) fn take(&mut self, byte: u8) -> bool {
        if byte == b'\n' {
            return true;
        }
        self.is_long |= self.line.len() >= LONGEST_LINE || self.line.push(byte).is_err();
        false
    }

    /// The line that has ended, without its line feed; nothing where it is too long.
    pub(crate) fn line(&self) -> &[u8] {
        if self.is_long { b"" } else { &self.line }
    }

    /// Whether a line was begun and has not ended.
    pub(crate) fn is_torn(&self) -> bool {
        self.is_long || !self.line.is_empty()
    }

    /// That line is answered so, and the next one begins.
    pub(crate) fn answer(&mut self, answer: OperatorAnswer) {
        let _ = write!(self.answers, "{answer}\n");
        self.line.clear();
        self.is_long = false;
    }

    /// Writes the answers. Where that fails nobody hears them any more, and the host goes on.
    pub(crate) fn write(&mut self, poll: &Poll) {
        let mut rest = self.answers.as_str().as_bytes();
        for _ in 0..MOST_WRITES {
            if rest.is_empty() || self.is_unheard {
                break;
            }
            match usize::try_from(libc::write(STANDARD_OUTPUT, rest)) {
                Ok(count) => rest = rest.get(count..).unwrap_or(b""),
                Err(_) => self.is_unheard = !is_passing(os::errno()),
            }
        }
        self.answers.clear();
        self.ask_for_output(poll);
    }

    /// Standard output may block, so it is written once an event, and asked for again.
    fn ask_for_output(&mut self, poll: &Poll) {
        if !self.has_output_events {
            return;
        }
        let output = &mut SourceFd(&STANDARD_OUTPUT);
        let registry = poll.registry();
        if self.is_unheard {
            let _ = registry.deregister(output);
            self.has_output_events = false;
        } else {
            self.may_write = registry
                .reregister(output, OUTPUT, Interest::WRITABLE)
                .is_err();
        }
    }
}

/// Whether a read or write that failed so may be made again: there was nothing to read, or a signal came.
fn is_passing(error: i32) -> bool {
    error == NOTHING_THERE || error == INTERRUPTED
}

/// The system's numbers of these two errors.
const NOTHING_THERE: i32 = 11;

const INTERRUPTED: i32 = 4;
