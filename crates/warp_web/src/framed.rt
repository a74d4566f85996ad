//! Frames of WebSocket that were not written yet, of which there is a most.

ghost use Rattle.std.specs.Prelude.{◌≡◌, ◌==◌, ◌≤◌, ◌++◌, [], OnErr, OnOk, drop, length, nat_lt};
ghost use Rattle.warp_web.specs.Bounds.{most_before, most_told};
ghost use Rattle.websocket.specs.Connection.{write_step};
ghost use Rattle.websocket.specs.Content.{text};
ghost use Rattle.websocket.specs.View.{Leaves};

use crate::bounds::{LONGEST_TEXT, MOST_BEFORE, MOST_TOLD};
use crate::gone::Gone;
use bytes::BytesMut;
use std::alloc::Global;
use websocket::protocol::{Message, NoMask, WebSocketContext};

/// Frames that were not written yet.
#[derive(Drop)]
pub(crate) struct Framed {
    alloc: Global,
    pub(crate) frames: BytesMut,
    ghost fits: { length frames.items ≤ most_told },
}

impl Framed {
    /// No frames.
    pub(crate) fn new(alloc: Global) -> Framed
        ensures { result.frames.items ≡ [] }
    {
        Framed {
            alloc,
            frames: BytesMut::new(alloc),
        }
    }

    /// How many bytes they have.
    pub(crate) fn len(&self) -> usize
        ensures value { result ≡ length self.now.frames.items }
        ensures most { result ≤ most_told }
    {
        self.frames.len()
    }

    /// Whether there are none.
    pub(crate) fn is_empty(&self) -> bool
        ensures { result ≡ (length self.now.frames.items == 0) }
    {
        self.frames.is_empty()
    }

    /// Whether so many bytes wait that the other end is behind: nothing more is told to it, and nothing more of it is taken.
    pub(crate) fn is_behind(&self) -> bool
        ensures { result ≡ nat_lt most_before (length self.now.frames.items) }
    {
        self.frames.len() > MOST_BEFORE
    }

    /// The bytes to be written.
    pub(crate) fn as_slice(&self) -> &[u8]
        ensures { result.now ≡ self.now.frames.items }
    {
        self.frames.as_slice()
    }

    /// Lets go of the first so many bytes, or of all.
    pub(crate) fn advance(&mut self, count: usize)
        ensures { self.new.frames.items ≡ drop count self.old.frames.items }
    {
        if count >= self.frames.len() {
            self.frames = BytesMut::new(self.alloc);
        } else {
            self.frames.advance(count);
        }
    }

    /// Adds a frame that asks, answers or closes; `Err` changes nothing, where there is no room or no memory for it.
    pub(crate) fn add(&mut self, frame: &[u8]) -> Result<(), Gone>
        ensures ok { OnOk result (self.new.frames.items ≡ self.old.frames.items ++ frame.now) }
        ensures err { OnErr result (self.new.frames.items ≡ self.old.frames.items) }
    {
        if frame.len() > MOST_TOLD - self.frames.len() {
            return Err(Gone);
        }
        match self.frames.extend_from_slice(frame) {
            Ok(()) => Ok(()),
            Err(_) => Err(Gone),
        }
    }

    /// Adds a message of this text; `Err` changes nothing, where the other end is behind, the text is longer than any line,
    /// the connection is closing, or there is no memory for it.
    pub(crate) fn add_text(
        &mut self,
        context: &mut WebSocketContext,
        said: &str,
    ) -> Result<(), Gone>
        ensures ok { OnOk result (Leaves (write_step context.old (text said.now)) context.new
            self.old.frames.items self.new.frames.items) }
        ensures err { OnErr result ((context.new ≡ context.old) × (self.new.frames.items ≡ self.old.frames.items)) }
    {
        if said.len() > LONGEST_TEXT || self.is_behind() {
            return Err(Gone);
        }
        match context.write(Message::Text(said), &mut self.frames, &mut NoMask) {
            Ok(()) => Ok(()),
            Err(_) => Err(Gone),
        }
    }
}
