//! Bytes that come, cut into lines one by one.

ghost use Rattle.std.specs.Prelude.{◌≡◌, ◌≤◌, ◌++◌, ◌==◌, ◌&&◌, not, ℕ, List, true, [], IfNone, IfOk, OnErr, OnOk, false, length, take};
ghost use Rattle.warp_record.specs.Lines.{Piece, lines_of};
ghost use Rattle.warp_web.specs.Bounds.{most_heard};
ghost use Rattle.warp_web.specs.Frames.{as_lines, ends_line};
ghost use Rattle.warp_web.specs.Lines.{Says, hearing, heard_count, nothing_unsaid, said_of};

use crate::bounds::MOST_HEARD;
use crate::gone::Gone;
use crate::kept::Kept;
use std::alloc::Global;
use std::marker::Model;
use std::mem;
use warp_record::{Fed, Feed};

/// Whether the last byte is a line feed.
fn is_line_at_end(text: &[u8]) -> bool
    ensures { result ≡ ends_line text.now }
{
    if text.is_empty() {
        return false;
    }
    text[text.len() - 1] == b'\n'
}

/// Cuts bytes into lines. Contracts see what came and was not said.
#[derive(Drop)]
pub(crate) struct Cutter {
    feed: Feed,
    rest: Kept<MOST_HEARD>,
    has_ended: bool,
}

impl Model for Cutter {
    ghost use Rattle.warp_web.specs.Lines.{Unsaid};

    ghost Value = { Unsaid };

    ghost view = { λ c. record { line = c.feed; rest = c.rest.bytes.items; ended = c.has_ended } };
}

impl Cutter {
    /// Nothing came yet.
    pub(crate) fn new(alloc: Global) -> Cutter
        ensures { result ≡ nothing_unsaid }
    {
        Cutter {
            feed: Feed::new(),
            rest: Kept::new(alloc),
            has_ended: false,
        }
    }

    /// Whether bytes are wanted: all that came was cut, and more may come.
    pub(crate) fn wants(&self) -> bool
        ensures { result ≡ (length self.now.rest == 0 && not self.now.ended) }
    {
        self.rest.is_empty() && !self.has_ended
    }

    /// How many bytes wait to be cut.
    pub(crate) fn len(&self) -> usize
        ensures value { result ≡ length self.now.rest }
        ensures most { result ≤ most_heard }
    {
        self.rest.len()
    }

    /// Hears the first of these bytes for which there is room: how many. `Err`, and nothing is heard, where there is no
    /// memory for them.
    pub(crate) fn hear(&mut self, bytes: &[u8]) -> Result<usize, Gone>
        ensures count { IfOk result (λ n. n ≡ heard_count self.old (length bytes.now)) }
        ensures heard { IfOk result (λ n. self.new ≡ hearing (take n bytes.now) self.old) }
        ensures says { IfOk result (λ n. (heard : List ℕ) (said : List Piece) → Says heard said self.old →
            Says (heard ++ take n bytes.now) said self.new) }
        ensures err { OnErr result (self.new ≡ self.old) }
    {
        if self.has_ended {
            return Ok(0);
        }
        let count = bytes.len().min(self.rest.room());
        match self.rest.keep(&bytes[..count]) {
            Ok(()) => Ok(count),
            Err(gone) => Err(gone),
        }
    }

    /// Hears all lines of a message, of which the last needs no line feed. `Err`, and nothing is heard, where there is no
    /// room or no memory for them.
    pub(crate) fn hear_message(&mut self, text: &[u8]) -> Result<(), Gone>
        ensures heard { OnOk result (self.new ≡ hearing (as_lines text.now) self.old) }
        ensures says { OnOk result ((heard : List ℕ) (said : List Piece) → self.old.ended ≡ false →
            Says heard said self.old → Says (heard ++ as_lines text.now) said self.new) }
        ensures err { OnErr result (self.new ≡ self.old) }
    {
        if is_line_at_end(text) {
            self.rest.keep(text)
        } else {
            self.rest.keep_line(text)
        }
    }

    /// No more bytes come.
    pub(crate) fn end(&mut self)
        ensures ended { self.new ≡ record self.old { ended = true } }
        ensures says { (heard : List ℕ) (said : List Piece) → Says heard said self.old → Says heard said self.new }
    {
        self.has_ended = true;
    }

    /// Says the next line, if all of it came; behind the end also the last, which has no line feed.
    pub(crate) fn next(&mut self) -> Option<Fed>
        ensures says { (heard : List ℕ) (said : List Piece) → Says heard said self.old →
            Says heard (said ++ said_of result) self.new }
        ensures none { IfNone result (self.new.rest ≡ []) }
        ensures all { IfNone result ((heard : List ℕ) (said : List Piece) → Says heard said self.old →
            self.old.ended ≡ true → said ≡ lines_of heard) }
        ensures ended { self.new.ended ≡ self.old.ended }
    {
        let fed = self.cut();
        if fed.is_none() && self.has_ended {
            return self.last();
        }
        fed
    }

    /// Cuts off the next line, if all of it came.
    fn cut(&mut self) -> Option<Fed>
        ensures says { (heard : List ℕ) (said : List Piece) → Says heard said self.old →
            Says heard (said ++ said_of result) self.new }
        ensures none { IfNone result (self.new.rest ≡ []) }
        ensures ended { self.new.ended ≡ self.old.ended }
    {
        let (count, fed) = self.feed.push(self.rest.as_slice());
        self.rest.advance(count);
        fed
    }

    /// Says the last line, which has no line feed, if there is one.
    fn last(&mut self) -> Option<Fed>
        requires { self.old.rest ≡ [] }
        ensures says { (heard : List ℕ) (said : List Piece) → Says heard said self.old →
            self.old.ended ≡ true → Says heard (said ++ said_of result) self.new }
        ensures all { IfNone result ((heard : List ℕ) (said : List Piece) → Says heard said self.old →
            self.old.ended ≡ true → said ≡ lines_of heard) }
        ensures rest { self.new.rest ≡ [] }
        ensures ended { self.new.ended ≡ self.old.ended }
    {
        mem::replace(&mut self.feed, Feed::new()).end()
    }
}
