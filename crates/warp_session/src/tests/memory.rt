//! A connection over memory: what was sent on it, and what is written to it.
ghost use Rattle.std.specs.Prelude.{◌≤◌, length};

use crate::stream::{Failed, Sink, Source};
use std::alloc::Global;
use std::process::Abort;
use std::sync::{Mutex, Wait};

/// A connection: what the other end sent, behind which nothing follows, and what was written to it.
#[derive(Drop)]
pub(crate) struct Talk<'a> {
    sent: &'a str,
    written: Mutex<Vec<u8>>,
}

impl<'a> Talk<'a> {
    /// A connection on which this was sent, and nothing was written yet.
    pub(crate) fn new(alloc: Global, sent: &'a str) -> Talk<'a> {
        Talk {
            sent,
            written: Mutex::new(Vec::new(alloc)),
        }
    }

    /// Both directions of it.
    pub(crate) fn both<X: Wait + Abort>(&'a self, rt: &'a X) -> (Sent<'a>, Written<'a, X>) {
        let rest = self.sent.as_bytes();
        let written = &self.written;
        (Sent { rest }, Written { rt, written })
    }
}

/// What is left of the bytes that were sent.
#[derive(Drop)]
pub(crate) struct Sent<'a> {
    rest: &'a [u8],
}

impl<'a> Source for Sent<'a> {
    ghost use Rattle.std.specs.Prelude.{None};

    ghost left = { λ _. None };

    ghost failures = { λ _. 0 };

    fn read(&mut self, buffer: &mut [u8]) -> Result<usize, Failed> {
        let count = copy_front(self.rest, buffer);
        self.rest = self.rest.get(count..).unwrap_or(&[]);
        Ok(count)
    }
}

/// Copies as many bytes as the buffer has room for into its front, and tells how many that is.
fn copy_front(bytes: &[u8], buffer: &mut [u8]) -> usize
    ensures { result ≤ length buffer.new }
{
    let count = bytes.len().min(buffer.len());
    buffer[..count].copy_from_slice(&bytes[..count]);
    count
}

/// Takes what is written.
#[derive(Drop)]
pub(crate) struct Written<'a, X: Wait + Abort> {
    rt: &'a X,
    written: &'a Mutex<Vec<u8>>,
}

impl<'a, X: Wait + Abort> Sink for Written<'a, X> {
    ghost use Rattle.std.specs.Prelude.{None};

    ghost written = { λ _. None };

    ghost failures = { λ _. 0 };

    fn write(&mut self, piece: &[u8]) -> Result<usize, Failed> {
        self.written
            .lock(self.rt)
            .extend_from_slice(piece)
            .expect(self.rt, "memory");
        Ok(piece.len())
    }
}
