//! Bytes that are kept for later, of which there is a most: what a connection holds is bounded by its type.

ghost use Rattle.std.specs.Prelude.{◌≡◌, ◌==◌, ◌-◌, ◌≤◌, ◌++◌, ◌∷◌, [], drop, length, OnErr, OnOk};

use crate::gone::Gone;
use bytes::BytesMut;
use std::alloc::Global;
use std::mem;

/// Bytes that wait, at most `MOST` of them.
#[derive(Drop)]
pub(crate) struct Kept<const MOST: usize> {
    alloc: Global,
    pub(crate) bytes: BytesMut,
    ghost fits: { length bytes.items ≤ MOST },
}

impl<const MOST: usize> Kept<MOST> {
    /// No bytes, and no memory for them.
    pub(crate) fn new(alloc: Global) -> Kept<MOST>
        ensures { result.bytes.items ≡ [] }
    {
        Kept {
            alloc,
            bytes: BytesMut::new(alloc),
        }
    }

    /// How many there are.
    pub(crate) fn len(&self) -> usize
        ensures value { result ≡ length self.now.bytes.items }
        ensures most { result ≤ MOST }
    {
        self.bytes.len()
    }

    /// Whether there are none.
    pub(crate) fn is_empty(&self) -> bool
        ensures { result ≡ (length self.now.bytes.items == 0) }
    {
        self.bytes.is_empty()
    }

    /// How many more there may be.
    pub(crate) fn room(&self) -> usize
        ensures { result ≡ MOST - length self.now.bytes.items }
    {
        MOST - self.bytes.len()
    }

    /// The bytes.
    pub(crate) fn as_slice(&self) -> &[u8]
        ensures { result.now ≡ self.now.bytes.items }
    {
        self.bytes.as_slice()
    }

    /// Keeps these behind the others; `Err` changes nothing, where there is no room or no memory for them.
    pub(crate) fn keep(&mut self, more: &[u8]) -> Result<(), Gone>
        ensures ok { OnOk result (self.new.bytes.items ≡ self.old.bytes.items ++ more.now) }
        ensures err { OnErr result (self.new.bytes.items ≡ self.old.bytes.items) }
    {
        if more.len() > self.room() {
            return Err(Gone);
        }
        match self.bytes.extend_from_slice(more) {
            Ok(()) => Ok(()),
            Err(_) => Err(Gone),
        }
    }

    /// Keeps this text and a line feed behind the others; `Err` changes nothing, where there is no room or no memory for
    /// them.
    pub(crate) fn keep_line(&mut self, text: &[u8]) -> Result<(), Gone>
        ensures ok { OnOk result (self.new.bytes.items ≡ self.old.bytes.items ++ (text.now ++ 10 ∷ [])) }
        ensures err { OnErr result (self.new.bytes.items ≡ self.old.bytes.items) }
    {
        if text.len() >= self.room() {
            return Err(Gone);
        }
        if self.bytes.reserve(text.len() + 1).is_err() {
            return Err(Gone);
        }
        self.bytes.extend_reserved(text);
        self.bytes.extend_reserved(b"\n");
        Ok(())
    }

    /// Keeps these alone, in the place of all others; `Err` changes nothing, where there are too many.
    pub(crate) fn replace(&mut self, bytes: BytesMut) -> Result<(), Gone>
        ensures ok { OnOk result (self.new.bytes.items ≡ bytes.items) }
        ensures err { OnErr result (self.new.bytes.items ≡ self.old.bytes.items) }
    {
        if bytes.len() > MOST {
            return Err(Gone);
        }
        self.bytes = bytes;
        Ok(())
    }

    /// Takes all of them out.
    pub(crate) fn take(&mut self) -> BytesMut
        ensures given { result.items ≡ self.old.bytes.items }
        ensures left { self.new.bytes.items ≡ [] }
    {
        mem::replace(&mut self.bytes, BytesMut::new(self.alloc))
    }

    /// Lets go of the first so many, or of all. Where none are left their memory goes: most clients are idle most of the
    /// time.
    pub(crate) fn advance(&mut self, count: usize)
        ensures { self.new.bytes.items ≡ drop count self.old.bytes.items }
    {
        if count >= self.bytes.len() {
            self.bytes = BytesMut::new(self.alloc);
        } else {
            self.bytes.advance(count);
        }
    }
}
