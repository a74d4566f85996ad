//! A socket of the worker, and what is known of it: an event comes only at a change.

ghost use Rattle.std.specs.Prelude.{◌≤◌, IfOk, length};

use libc::net;
use mio::event::Event;
use mio::net::TcpStream;
use std::io::{ErrorKind, Read, Write};
use std::net::Shutdown;
use std::os::fd::AsRawFd;

/// The value of an option that is on, as many bytes as count of it.
const ON: [u8; 16] = [1, 0, 0, 0, 0, 0, 0, 0, 0, 0, 0, 0, 0, 0, 0, 0];

const ON_LEN: u32 = 4;

/// Has the system send what is written at once, and ask a silent other end for a sign of it. Where it doesn't, the
/// connection goes on without.
fn prepare(stream: &TcpStream) {
    let _ = stream.set_nodelay(true);
    let descriptor = stream.as_raw_fd();
    let _ = unsafe { net::setsockopt(descriptor, net::SOL_SOCKET, net::SO_KEEPALIVE, &ON, ON_LEN) };
}

/// A connection that is gone.
#[derive(Clone, Copy, Debug, PartialEq, Eq)]
pub(crate) struct Gone;

/// A connection, and what a call of it would find.
#[derive(Drop)]
pub(crate) struct Socket {
    stream: TcpStream,
    /// There may be bytes to read, or their end.
    may_read: bool,
    /// There may be room to write.
    may_write: bool,
    /// The other end closed its way: a read that fills no buffer is not the last.
    is_closed: bool,
    /// The end of what comes was read.
    is_at_end: bool,
}

impl Socket {
    /// A new connection. There may be something at once.
    pub(crate) fn new(stream: TcpStream) -> Socket {
        prepare(&stream);
        Socket {
            stream,
            may_read: true,
            may_write: true,
            is_closed: false,
            is_at_end: false,
        }
    }

    /// Notes an event.
    pub(crate) fn note(&mut self, event: &Event) {
        let is_closed = event.is_read_closed() || event.is_error();
        self.may_read |= event.is_readable() || is_closed;
        self.may_write |= event.is_writable();
        self.is_closed |= is_closed;
    }

    /// Whether there may be bytes to read, or their end.
    pub(crate) fn may_read(&self) -> bool {
        self.may_read && !self.is_at_end
    }

    /// Whether there may be room to write.
    pub(crate) fn may_write(&self) -> bool {
        self.may_write
    }

    /// Whether the end of what comes was read.
    pub(crate) fn is_at_end(&self) -> bool {
        self.is_at_end
    }

    /// Reads once, if there may be something. No byte: there is none now, or none comes any more.
    pub(crate) fn read(&mut self, buffer: &mut [u8]) -> Result<usize, Gone>
        ensures { IfOk result (λ count. count ≤ length buffer.new) }
    {
        if !self.may_read() || buffer.is_empty() {
            return Ok(0);
        }
        match self.stream.read(buffer) {
            Ok(0) => {
                self.is_at_end = true;
                Ok(0)
            }
            Ok(count) => {
                self.may_read = self.is_closed || count == buffer.len();
                Ok(count)
            }
            Err(error) => {
                self.read_failed(error.kind())?;
                Ok(0)
            }
        }
    }

    /// A read failed so: it is made again later, or the connection is gone.
    fn read_failed(&mut self, kind: ErrorKind) -> Result<(), Gone> {
        if kind == ErrorKind::WouldBlock {
            self.may_read = false;
            return Ok(());
        }
        if kind == ErrorKind::Interrupted {
            return Ok(());
        }
        Err(Gone)
    }

    /// Writes once, if there may be room: how many bytes were written.
    pub(crate) fn write(&mut self, bytes: &[u8]) -> Result<usize, Gone>
        ensures { IfOk result (λ count. count ≤ length bytes.now) }
    {
        if !self.may_write || bytes.is_empty() {
            return Ok(0);
        }
        match self.stream.write(bytes) {
            Ok(count) => {
                self.may_write = count == bytes.len();
                Ok(count)
            }
            Err(error) if error.kind() == ErrorKind::WouldBlock => {
                self.may_write = false;
                Ok(0)
            }
            Err(error) if error.kind() == ErrorKind::Interrupted => Ok(0),
            Err(_) => Err(Gone),
        }
    }

    /// Says that nothing more is written, so that the other end reads all that was.
    pub(crate) fn end_writing(&mut self) {
        let _ = self.stream.shutdown(Shutdown::Write);
    }

    /// Whether a connection that was begun is made; `Gone` where it could not be.
    pub(crate) fn is_made(&self) -> Result<bool, Gone> {
        match self.stream.take_error() {
            Ok(None) => Ok(self.stream.peer_addr().is_ok()),
            Ok(Some(_)) | Err(_) => Err(Gone),
        }
    }
}
