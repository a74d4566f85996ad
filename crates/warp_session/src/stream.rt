//! Where a session's bytes come from and go to.
//!
//! `Source` and `Sink` are all that a session knows of the world. `Stream` is both over std's `Read` and `Write`;
//! `Counted` is a source over another, which tells how many reads there were.
ghost use Rattle.std.specs.Prelude.{◌≡◌, ℕ, ◌+◌, ◌<◌, ◌≤◌, IfOk, OnErr, OnOk, List, None, Option, length};
ghost use Rattle.std.specs.Io.KnownBytes.{Appends};
ghost use Rattle.warp_step.specs.Counter.{IsUnused};
ghost use Rattle.warp_session.specs.Stream.{CountsFailures, Reads, Writes, WritesFront, reads_more};

use std::io::{Read, Write};
use std::marker::Model;
use std::sync::ledger::{Blank, Ledger};
use warp_step::Counter;

/// What a read or a write tells that failed: nothing more.
#[derive(Clone, Copy, Debug, PartialEq, Eq)]
pub struct Failed;

/// Gives bytes in order, to their end.
pub trait Source {
    /// The bytes that are left; `None` where the source doesn't tell.
    ghost left: { Self → Option (List ℕ) };

    /// How many reads have failed.
    ghost failures: { Self → ℕ };

    /// How many reads there were, failed ones too; `None` where the source doesn't tell.
    ghost reads: { Self → Option ℕ } = { λ _. None };

    /// Reads bytes into the front of `buffer`, and answers how many: 0 only at the end, or for an empty buffer.
    /// After an error the source has lost no byte, and may be asked again.
    fn read(&mut self, buffer: &mut [u8]) -> Result<usize, Failed>
        ensures bound { IfOk result (λ n. n ≤ length buffer.new) }
        ensures bytes { Reads (left self.old) (left self.new) result buffer.new }
        ensures failures { CountsFailures (failures self.old) (failures self.new) result }
        ensures reads { reads self.new ≡ reads_more 1 (reads self.old) };
}

/// Takes bytes in order.
pub trait Sink {
    /// The bytes that were written; `None` where the sink doesn't tell.
    ghost written: { Self → Option (List ℕ) };

    /// How many writes have failed.
    ghost failures: { Self → ℕ };

    /// Writes the first bytes of `piece`, and answers how many: at least one of a piece that isn't empty.
    /// An error has written none of them.
    fn write(&mut self, piece: &[u8]) -> Result<usize, Failed>
        ensures bound { IfOk result (λ n. n ≤ length piece.now) }
        ensures some { IfOk result (λ n. 0 < length piece.now → 0 < n) }
        ensures bytes { Writes (written self.old) (written self.new) result piece.now }
        ensures failures { CountsFailures (failures self.old) (failures self.new) result };
}

/// Writes all of the bytes, in as many writes as it takes; where one fails, a front of them was written.
pub fn write_all<W: Sink>(sink: &mut W, bytes: &[u8]) -> Result<(), Failed>
    ensures bytes { OnOk result (Appends (W.written sink.old) (W.written sink.new) bytes.now) }
    ensures front { OnErr result (WritesFront (W.written sink.old) (W.written sink.new) bytes.now) }
    ensures failures { CountsFailures (W.failures sink.old) (W.failures sink.new) result }
{
    let mut sent = 0;
    while sent < bytes.len() {
        let count = sink.write(&bytes[sent..])?;
        sent += count;
    }
    Ok(())
}

/// A reader of std as a `Source`, a writer of std as a `Sink`. It tells the bytes that `T` tells, and passes each
/// read and write on as it comes, with no buffer of its own.
#[derive(Drop)]
pub struct Stream<T, L: Ledger> {
    inner: T,
    failures: Counter<L>,
}

impl<T, L: Ledger> Model for Stream<T, L> {
    ghost use Rattle.warp_session.specs.Stream.{StreamState, stream_code};

    ghost Value = { StreamState T };

    ghost coded = { stream_code T.code };

    ghost view = { λ s. record { inner = s.inner; failures = s.failures } };
}

impl<T, L: Ledger> Stream<T, L> {
    /// A stream over `inner` in which nothing failed yet. `blank` is the ledger that its failures are counted in.
    pub fn new(inner: T, blank: Blank) -> Stream<T, L>
        requires { IsUnused blank L.name L.parts }
        ensures inner { result.inner ≡ inner }
        ensures failures { result.failures ≡ 0 }
    {
        Stream {
            inner,
            failures: Counter::new(blank),
        }
    }
}

impl<T: Drop, L: Ledger> Stream<T, L> {
    /// The reader or writer itself.
    pub fn into_inner(self) -> T
        ensures { result ≡ self.inner }
    {
        let Stream { inner, failures: _ } = self;
        inner
    }
}

impl<R: Read, L: Ledger> Source for Stream<R, L> {
    ghost left = { λ s. R.remaining s.inner };

    ghost failures = { λ s. s.failures };

    fn read(&mut self, buffer: &mut [u8]) -> Result<usize, Failed> {
        match self.inner.read(buffer) {
            Ok(count) => Ok(count),
            Err(_) => {
                self.failures.grow();
                Err(Failed)
            }
        }
    }
}

impl<W: Write, L: Ledger> Sink for Stream<W, L> {
    ghost written = { λ s. W.contents s.inner };

    ghost failures = { λ s. s.failures };

    /// Where std's writer takes nothing of a piece that isn't empty, the write has failed.
    fn write(&mut self, piece: &[u8]) -> Result<usize, Failed> {
        match self.inner.write(piece) {
            Ok(count) if count > 0 || piece.is_empty() => Ok(count),
            _ => {
                self.failures.grow();
                Err(Failed)
            }
        }
    }
}

/// A source whose reads are counted: all else is as the source below tells it.
#[derive(Drop)]
pub struct Counted<R, L: Ledger> {
    inner: R,
    reads: Counter<L>,
}

impl<R, L: Ledger> Model for Counted<R, L> {
    ghost use Rattle.warp_session.specs.Stream.{CountedState, counted_code};

    ghost Value = { CountedState R };

    ghost coded = { counted_code R.code };

    ghost view = { λ s. record { inner = s.inner; reads = s.reads } };
}

impl<R, L: Ledger> Counted<R, L> {
    /// A source over `inner` from which nothing was read yet. `blank` is the ledger that its reads are counted in.
    pub fn new(inner: R, blank: Blank) -> Counted<R, L>
        requires { IsUnused blank L.name L.parts }
        ensures inner { result.inner ≡ inner }
        ensures reads { result.reads ≡ 0 }
    {
        Counted {
            inner,
            reads: Counter::new(blank),
        }
    }
}

impl<R: Drop, L: Ledger> Counted<R, L> {
    /// The source below.
    pub fn into_inner(self) -> R
        ensures { result ≡ self.inner }
    {
        let Counted { inner, reads: _ } = self;
        inner
    }
}

impl<R: Source, L: Ledger> Source for Counted<R, L> {
    ghost use Rattle.std.specs.Prelude.{Some};

    ghost left = { λ s. R.left s.inner };

    ghost failures = { λ s. R.failures s.inner };

    ghost reads = { λ s. Some s.reads };

    fn read(&mut self, buffer: &mut [u8]) -> Result<usize, Failed> {
        self.reads.grow();
        self.inner.read(buffer)
    }
}
