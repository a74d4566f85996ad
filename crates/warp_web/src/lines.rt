//! A connection that speaks lines.

ghost use Rattle.std.specs.Prelude.{◌≡◌, ◌+◌, ◌≤◌, ◌++◌, ◌∷◌, ◌==◌, ◌&&◌, not, true, []};
ghost use Rattle.std.specs.Prelude.{IfNone, IfOk, OnErr, OnOk, drop, length, nat_lt, take};
ghost use Rattle.warp_record.specs.Lines.{lines_of};
ghost use Rattle.warp_web.specs.Bounds.{most_before, most_heard, most_told};
ghost use Rattle.warp_web.specs.Lines.{Carries, Passed, hearing, heard_count, new_talk, nothing_passed, said_of};

use crate::bounds::{LONGEST_TEXT, MOST_BEFORE, MOST_TOLD};
use crate::cutter::Cutter;
use crate::gone::Gone;
use crate::kept::Kept;
use std::alloc::Global;
use std::marker::Model;
use warp_record::Fed;

/// A connection that speaks lines, with no socket: bytes come and lines are said; texts are told and bytes are to be
/// written. Contracts see what came and was not said, and what is to be written.
#[derive(Drop)]
pub struct Lines {
    cutter: Cutter,
    output: Kept<MOST_TOLD>,
}

impl Model for Lines {
    ghost use Rattle.warp_web.specs.Lines.{Talk};

    ghost Value = { Talk };

    ghost view = { λ l. record { unsaid = l.cutter; output = l.output.bytes.items } };
}

impl Lines {
    /// Nothing came and nothing was told.
    pub fn new(alloc: Global) -> Lines
        ensures new { result ≡ new_talk }
        ensures carries { Carries nothing_passed result }
    {
        Lines {
            cutter: Cutter::new(alloc),
            output: Kept::new(alloc),
        }
    }

    /// Whether bytes are wanted: all that came was said, but for an unfinished line, and more may come.
    pub fn wants(&self) -> bool
        ensures { result ≡ (length self.now.unsaid.rest == 0 && not self.now.unsaid.ended) }
    {
        self.cutter.wants()
    }

    /// How many bytes it holds, beside the 128 that are kept of a line: those that came and were not said, and those to be
    /// written.
    pub fn held(&self) -> usize
        ensures value { result ≡ length self.now.unsaid.rest + length self.now.output }
        ensures most { result ≤ most_heard + most_told }
    {
        self.cutter.len() + self.output.len()
    }

    /// Hears the first of these bytes for which there is room: how many. `Err`, and nothing is heard, where there is no
    /// memory for them.
    pub fn hear(&mut self, bytes: &[u8]) -> Result<usize, Gone>
        ensures count { IfOk result (λ n. n ≡ heard_count self.old.unsaid (length bytes.now)) }
        ensures heard { IfOk result (λ n.
            self.new ≡ record self.old { unsaid = hearing (take n bytes.now) self.old.unsaid }) }
        ensures carries { IfOk result (λ n. (p : Passed) → Carries p self.old →
            Carries (record p { heard = p.heard ++ take n bytes.now }) self.new) }
        ensures err { OnErr result (self.new ≡ self.old) }
    {
        self.cutter.hear(bytes)
    }

    /// No more bytes come.
    pub fn end(&mut self)
        ensures ended { self.new ≡ record self.old { unsaid = record self.old.unsaid { ended = true } } }
        ensures carries { (p : Passed) → Carries p self.old → Carries p self.new }
    {
        self.cutter.end();
    }

    /// Says the next line, if all of it came; behind the end also the last, which has no line feed.
    pub fn next(&mut self) -> Option<Fed>
        ensures carries { (p : Passed) → Carries p self.old →
            Carries (record p { said = p.said ++ said_of result }) self.new }
        ensures none { IfNone result (self.new.unsaid.rest ≡ []) }
        ensures all { IfNone result ((p : Passed) → Carries p self.old → self.old.unsaid.ended ≡ true →
            p.said ≡ lines_of p.heard) }
        ensures ended { self.new.unsaid.ended ≡ self.old.unsaid.ended }
        ensures output { self.new.output ≡ self.old.output }
    {
        self.cutter.next()
    }

    /// Whether so many bytes wait to be written that nothing more may be told.
    pub fn is_behind(&self) -> bool
        ensures { result ≡ nat_lt most_before (length self.now.output) }
    {
        self.output.len() > MOST_BEFORE
    }

    /// Tells this text: it is to be written with a line feed behind it. `Err`, and nothing is told, where the other end is
    /// behind, the text has more than a mebibyte, or there is no memory for it.
    pub fn tell(&mut self, text: &[u8]) -> Result<(), Gone>
        ensures ok { OnOk result (self.new ≡ record self.old { output = self.old.output ++ (text.now ++ 10 ∷ []) }) }
        ensures carries { OnOk result ((p : Passed) → Carries p self.old →
            Carries (record p { told = p.told ++ text.now ∷ [] }) self.new) }
        ensures err { OnErr result (self.new ≡ self.old) }
    {
        if text.len() > LONGEST_TEXT || self.is_behind() {
            return Err(Gone);
        }
        self.output.keep_line(text)
    }

    /// What is to be written.
    pub fn output(&self) -> &[u8]
        ensures { result.now ≡ self.now.output }
    {
        self.output.as_slice()
    }

    /// The first so many bytes of the output were written, or all.
    pub fn written(&mut self, count: usize)
        ensures output { self.new ≡ record self.old { output = drop count self.old.output } }
        ensures carries { (p : Passed) → Carries p self.old →
            Carries (record p { written = p.written ++ take count self.old.output }) self.new }
    {
        self.output.advance(count);
    }
}
