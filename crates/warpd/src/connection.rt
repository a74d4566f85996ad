//! TCP connections, as a session and a pull see them.

ghost use Rattle.std.specs.Prelude.{◌≡◌, ◌<◌, ◌≤◌, None, Ok, IfOk, false, if◌then◌else◌, length, true};
ghost use Rattle.warp_session.specs.Stream.{CountsFailures, Reads, Writes};

use std::io::{self, Read, Write};
use std::net::TcpStream;
use warp_session::{Failed, Sink, Source};

/// One direction of a connection. Once a read or a write has failed, the connection is broken: nothing more comes from
/// it, and what is written to it is lost. Before that each read and each write passes on just what its stream gives or
/// takes.
#[derive(Drop)]
pub(crate) struct Connection<T> {
    stream: T,
    broken: bool,
}

/// One direction of a TCP connection.
pub(crate) type Channel = Connection<TcpStream>;

impl Connection<TcpStream> {
    /// Both directions of a connection. Small pieces are sent at once, where the system can do that.
    pub(crate) fn both_of(stream: TcpStream) -> io::Result<(Channel, Channel)> {
        let _ = stream.set_nodelay(true);
        let other = stream.try_clone()?;
        Ok((Connection::new(stream), Connection::new(other)))
    }
}

impl<T> Connection<T> {
    fn new(stream: T) -> Connection<T>
        ensures { result ≡ record { stream = stream; broken = false } }
    {
        Connection {
            stream,
            broken: false,
        }
    }
}

impl<R: Read> Source for Connection<R> {
    ghost left = { λ _. None };

    ghost failures = { λ s. if s.broken then 1 else 0 };

    fn read(&mut self, buffer: &mut [u8]) -> Result<usize, Failed>
        ensures bound { IfOk result (λ n. n ≤ length buffer.new) }
        ensures bytes { self.old.broken ≡ false →
            Reads (R.remaining self.old.stream) (R.remaining self.new.stream) result buffer.new }
        ensures broken { self.old.broken ≡ true → (result ≡ Ok 0) × (self.new ≡ self.old) }
        ensures failures { CountsFailures (if self.old.broken then 1 else 0) (if self.new.broken then 1 else 0) result }
    {
        if self.broken {
            return Ok(0);
        }
        match self.stream.read(buffer) {
            Ok(count) => Ok(count),
            Err(_) => {
                self.broken = true;
                Err(Failed)
            }
        }
    }
}

impl<W: Write> Sink for Connection<W> {
    ghost written = { λ _. None };

    ghost failures = { λ s. if s.broken then 1 else 0 };

    fn write(&mut self, piece: &[u8]) -> Result<usize, Failed>
        ensures bound { IfOk result (λ n. n ≤ length piece.now) }
        ensures some { IfOk result (λ n. 0 < length piece.now → 0 < n) }
        ensures bytes { self.old.broken ≡ false →
            Writes (W.contents self.old.stream) (W.contents self.new.stream) result piece.now }
        ensures broken { self.old.broken ≡ true → (result ≡ Ok (length piece.now)) × (self.new ≡ self.old) }
        ensures failures { CountsFailures (if self.old.broken then 1 else 0) (if self.new.broken then 1 else 0) result }
    {
        if self.broken {
            return Ok(piece.len());
        }
        match self.stream.write(piece) {
            Ok(count) if count > 0 || piece.is_empty() => Ok(count),
            _ => {
                self.broken = true;
                Err(Failed)
            }
        }
    }
}
