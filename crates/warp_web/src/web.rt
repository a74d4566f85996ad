//! A connection that speaks WebSocket: text messages of lines come, and text messages of lines go.
//!
//! What it holds is bounded by the types of what it keeps (`kept`, `framed`): no frame is taken while lines of the last are
//! not said or the other end is behind, and of the answers to pings the newest alone is kept.

ghost use Rattle.std.specs.Prelude.{◌≡◌, ◌+◌, ◌≤◌, ◌==◌, ◌&&◌, ◌++◌, ◌∷◌, false, true, [], Some, IfNone, IfOk, OnErr, OnOk};
ghost use Rattle.std.specs.Prelude.{drop, length, take};
ghost use Rattle.warp_web.specs.Bounds.{most_answer, most_heard, most_input, most_told};
ghost use Rattle.warp_web.specs.Frames.{AreFrames, IsShort};
ghost use Rattle.warp_web.specs.Lines.{Passed, nothing_passed, said_of};
ghost use Rattle.warp_web.specs.Taking.{Does, DoesMessage, Takes};
ghost use Rattle.warp_web.specs.Web.{MayTake, Speaks, control_frame, talk_of, web_behind, web_count, web_wants};
ghost use Rattle.websocket.specs.declared.protocol.frame.coding.Control.TheVariants as Control;
ghost use Rattle.websocket.specs.declared.protocol.state.WebSocketState.TheVariants as State;
ghost use Rattle.websocket.specs.Content.{close_payload, message_content};

use crate::bounds::{LONGEST_ANSWER, LONGEST_FRAME, LONGEST_MESSAGE};
use crate::cutter::Cutter;
use crate::framed::Framed;
use crate::gone::Gone;
use crate::kept::Kept;
use bytes::BytesMut;
use std::alloc::Global;
use std::str;
use warp_record::Fed;
use websocket::error::Error;
use websocket::protocol::{
    CloseCode, CloseFrame, FrameStatus, Message, NoMask, Role, WebSocketConfig, WebSocketContext,
};

/// A connection that speaks WebSocket, behind its upgrade, with no socket and no clock.
#[derive(Drop)]
pub struct Web {
    alloc: Global,
    context: WebSocketContext,
    /// Bytes that came and were not taken: of whole frames, and of one that isn't whole yet.
    input: Kept<LONGEST_FRAME>,
    /// The lines that came and were not said.
    cutter: Cutter,
    /// Frames that were not written yet.
    output: Framed,
    /// The answer to the newest ping, where it doesn't stand among them yet.
    pong: Kept<LONGEST_ANSWER>,
    /// A close was sent or answered, or the protocol was broken: nothing more is taken or told.
    is_closing: bool,
}

/// What came of looking for a frame.
#[derive(Clone, Copy)]
enum Taken {
    /// It isn't whole yet.
    Short,
    /// It was whole, and had so many bytes.
    Whole(usize),
    /// It broke the protocol, and the connection closes.
    Broken,
}

impl Web {
    /// A connection behind its upgrade, of which nothing came.
    pub fn new(alloc: Global) -> Web
        ensures { Speaks nothing_passed (talk_of result) }
    {
        let config = WebSocketConfig {
            max_message_size: Some(LONGEST_MESSAGE),
            max_frame_size: Some(LONGEST_MESSAGE),
            accept_unmasked_frames: false,
        };
        Web {
            alloc,
            context: WebSocketContext::new(alloc, Role::Server, config),
            input: Kept::new(alloc),
            cutter: Cutter::new(alloc),
            output: Framed::new(alloc),
            pong: Kept::new(alloc),
            is_closing: false,
        }
    }

    /// Whether bytes are wanted, where all that came was taken and said: the other end is not behind, neither end closes, and
    /// there is room.
    pub fn wants(&self) -> bool
        ensures { result ≡ web_wants (talk_of self.now) }
    {
        !self.is_closing && !self.output.is_behind() && self.input.len() < LONGEST_FRAME
    }

    /// How many bytes it holds, beside the 128 that are kept of a line and the fragments of one message: those that came and
    /// were not taken or said, and those to be written.
    pub fn held(&self) -> usize
        ensures value { result ≡ length (talk_of self.now).input + length (talk_of self.now).unsaid.rest
            + length (talk_of self.now).output + length (talk_of self.now).pong }
        ensures most { result ≤ most_input + most_heard + most_told + most_answer }
    {
        self.input.len() + self.cutter.len() + self.output.len() + self.pong.len()
    }

    /// Hears the first of these bytes for which there is room: how many. `Err`, and nothing is heard, where there is no
    /// memory for them.
    pub fn hear(&mut self, bytes: &[u8]) -> Result<usize, Gone>
        ensures count { IfOk result (λ n. n ≡ web_count (talk_of self.old) (length bytes.now)) }
        ensures output { (talk_of self.new).output ≡ (talk_of self.old).output }
        ensures closing { (talk_of self.new).closing ≡ (talk_of self.old).closing }
        ensures speaks { IfOk result (λ n. (p : Passed) → Speaks p (talk_of self.old) →
            Speaks (record p { heard = p.heard ++ take n bytes.now }) (talk_of self.new)) }
        ensures err { OnErr result (talk_of self.new ≡ talk_of self.old) }
    {
        if self.is_closing {
            return Ok(0);
        }
        let count = bytes.len().min(self.input.room());
        match self.input.keep(&bytes[..count]) {
            Ok(()) => Ok(count),
            Err(gone) => Err(gone),
        }
    }

    /// Says the next line of the messages that were taken, if there is one.
    pub fn next(&mut self) -> Option<Fed>
        ensures speaks { (p : Passed) → Speaks p (talk_of self.old) →
            Speaks (record p { said = p.said ++ said_of result }) (talk_of self.new) }
        ensures none { IfNone result ((talk_of self.new).unsaid.rest ≡ []) }
        ensures closing { (talk_of self.new).closing ≡ (talk_of self.old).closing }
    {
        self.cutter.next()
    }

    /// Takes the next frame that came, where all lines of the last are said and the other end is not behind: whether it took
    /// one, so that there may be more to say or to take. A frame that breaks the protocol is answered by a close. `Err` where
    /// there is no memory or no room, or nothing can be answered: the connection is to go.
    pub fn step(&mut self) -> Result<bool, Gone>
        ensures speaks { OnOk result ((p : Passed) → Speaks p (talk_of self.old) → Speaks p (talk_of self.new)) }
        ensures short { IfOk result (λ took. took ≡ false → MayTake (talk_of self.new) →
            IsShort (talk_of self.new).conn (talk_of self.new).input) }
        ensures unsaid { IfOk result (λ took. took ≡ false → (talk_of self.new).unsaid ≡ (talk_of self.old).unsaid) }
    {
        if self.cutter.len() > 0 || self.is_closing || self.output.is_behind() {
            return Ok(false);
        }
        let took = self.take()?;
        if !took {
            self.answer_ping();
        }
        Ok(took)
    }

    /// Takes the next frame that came: whether there was one.
    fn take(&mut self) -> Result<bool, Gone>
        ensures speaks { OnOk result ((p : Passed) → (talk_of self.old).closing ≡ false →
            Speaks p (talk_of self.old) → Speaks p (talk_of self.new)) }
        ensures short { IfOk result (λ took. took ≡ false →
            IsShort (talk_of self.new).conn (talk_of self.new).input) }
        ensures unsaid { IfOk result (λ took. took ≡ false → (talk_of self.new).unsaid ≡ (talk_of self.old).unsaid) }
    {
        let mut input = self.input.take();
        let taken = self.take_frame(input.as_mut_slice())?;
        self.input.replace(input)?;
        match taken {
            Taken::Short => Ok(false),
            Taken::Whole(used) => {
                self.input.advance(used);
                Ok(true)
            }
            Taken::Broken => Ok(true),
        }
    }

    /// Takes the frame at the front of these bytes.
    fn take_frame(&mut self, bytes: &mut [u8]) -> Result<Taken, Gone>
        ensures takes { IfOk result (λ taken. (talk_of self.old).conn.role ≡ Role.Server →
            Takes taken bytes.old bytes.new (talk_of self.old) (talk_of self.new)) }
        ensures short { IfOk result (λ taken. taken ≡ Taken.Short → IsShort (talk_of self.new).conn bytes.new) }
        ensures unsaid { IfOk result (λ taken. taken ≡ Taken.Short → (talk_of self.new).unsaid ≡ (talk_of self.old).unsaid) }
        ensures input { OnOk result ((talk_of self.new).input ≡ (talk_of self.old).input) }
    {
        let mut answer = BytesMut::new(self.alloc);
        let step = match self.context.read(bytes, &mut answer, &mut NoMask) {
            Ok(FrameStatus::Partial(_)) => return Ok(Taken::Short),
            Ok(FrameStatus::Complete(step)) => step,
            Err(error) => {
                self.fail(error)?;
                return Ok(Taken::Broken);
            }
        };
        match &step.message {
            None => Ok(Taken::Whole(step.consumed)),
            Some(received) => {
                self.take_message(received.message(bytes), answer)?;
                Ok(Taken::Whole(step.consumed))
            }
        }
    }

    /// Does what a message asks for, with the frame that answers it, if one does.
    fn take_message(&mut self, message: Message<'_>, answer: BytesMut) -> Result<(), Gone>
        ensures does { OnOk result (AreFrames answer.items [] → (talk_of self.old).conn.role ≡ Role.Server →
            DoesMessage (message_content message.entry) (talk_of self.old) (talk_of self.new)) }
        ensures input { OnOk result ((talk_of self.new).input ≡ (talk_of self.old).input) }
    {
        match message {
            Message::Text(text) => self.cutter.hear_message(text.as_bytes()),
            Message::Binary(_) => self.shut(CloseCode::Unsupported),
            Message::Close(_) => {
                self.is_closing = true;
                self.output.add(answer.as_slice())
            }
            // Of pings that were not answered yet, the newest is answered.
            Message::Ping(_) => self.pong.replace(answer),
            Message::Pong(_) => Ok(()),
        }
    }

    /// Closes a connection whose other end broke the protocol, with the code of that.
    fn fail(&mut self, error: Error) -> Result<(), Gone>
        ensures closes { OnOk result ((talk_of self.new).closing ≡ true) }
        ensures does { OnOk result ((talk_of self.old).conn.role ≡ Role.Server →
            Does [] (talk_of self.old) (talk_of self.new) × ((talk_of self.new).conn.role ≡ (talk_of self.old).conn.role)) }
        ensures input { OnOk result ((talk_of self.new).input ≡ (talk_of self.old).input) }
    {
        match error {
            Error::Protocol(_) => self.shut(CloseCode::Protocol),
            Error::Capacity(_) => self.shut(CloseCode::Size),
            Error::Utf8 => self.shut(CloseCode::Invalid),
            Error::ConnectionClosed | Error::AlreadyClosed | Error::OutOfMemory => Err(Gone),
        }
    }

    /// Sends a close with this code, and no more texts. `Err` where there is no room or no memory for it.
    pub fn close(&mut self, code: CloseCode) -> Result<(), Gone>
        ensures closes { OnOk result ((talk_of self.new).closing ≡ true) }
        ensures speaks { OnOk result ((p : Passed) → Speaks p (talk_of self.old) → Speaks p (talk_of self.new)) }
        ensures adds { OnOk result ((p : Passed) → Speaks p (talk_of self.old) → (talk_of self.old).conn.state ≡ State.Active →
            (talk_of self.new).output ≡ (talk_of self.old).output ++ control_frame Control.Close (close_payload (Some (code, [])))) }
    {
        self.shut(code)
    }

    /// Puts a close with this code behind the other frames.
    fn shut(&mut self, code: CloseCode) -> Result<(), Gone>
        ensures closes { OnOk result ((talk_of self.new).closing ≡ true) }
        ensures speaks { OnOk result ((p : Passed) → Speaks p (talk_of self.old) → Speaks p (talk_of self.new)) }
        ensures does { OnOk result ((talk_of self.old).conn.role ≡ Role.Server →
            Does [] (talk_of self.old) (talk_of self.new) × ((talk_of self.new).conn.role ≡ (talk_of self.old).conn.role)) }
        ensures input { OnOk result ((talk_of self.new).input ≡ (talk_of self.old).input) }
        ensures adds { OnOk result ((p : Passed) → Speaks p (talk_of self.old) → (talk_of self.old).conn.state ≡ State.Active →
            (talk_of self.new).output ≡ (talk_of self.old).output ++ control_frame Control.Close (close_payload (Some (code, [])))) }
    {
        self.is_closing = true;
        let frame = CloseFrame { code, reason: "" };
        let mut close = BytesMut::new(self.alloc);
        match self.context.close(Some(frame), &mut close, &mut NoMask) {
            Ok(()) => self.output.add(close.as_slice()),
            Err(_) => Err(Gone),
        }
    }

    /// Asks the other end for a sign of it. `Err` where it is closing, and where there is no room or no memory for it.
    pub fn ping(&mut self) -> Result<(), Gone>
        ensures speaks { OnOk result ((p : Passed) → Speaks p (talk_of self.old) → Speaks p (talk_of self.new)) }
        ensures adds { OnOk result ((p : Passed) → Speaks p (talk_of self.old) →
            (talk_of self.new).output ≡ (talk_of self.old).output ++ control_frame Control.Ping []) }
    {
        let mut ping = BytesMut::new(self.alloc);
        match self
            .context
            .write(Message::Ping(b""), &mut ping, &mut NoMask)
        {
            Ok(()) => self.output.add(ping.as_slice()),
            Err(_) => Err(Gone),
        }
    }

    /// Whether so many bytes wait to be written that nothing more may be told.
    pub fn is_behind(&self) -> bool
        ensures { result ≡ web_behind (talk_of self.now) }
    {
        self.output.is_behind()
    }

    /// Tells this text, in a message of its own. `Err`, and nothing is told, where the other end is behind, the connection is
    /// closing, the text has more than a mebibyte or is not UTF-8, or there is no memory for it.
    pub fn tell(&mut self, text: &[u8]) -> Result<(), Gone>
        ensures speaks { OnOk result ((p : Passed) → Speaks p (talk_of self.old) →
            Speaks (record p { told = p.told ++ text.now ∷ [] }) (talk_of self.new)) }
        ensures err { OnErr result ((p : Passed) → Speaks p (talk_of self.old) → Speaks p (talk_of self.new)) }
    {
        self.answer_ping();
        let Ok(text) = str::from_utf8(text) else {
            return Err(Gone);
        };
        self.output.add_text(&mut self.context, text)
    }

    /// Puts the answer to the newest ping behind the other frames, where there is one and none of them waits.
    fn answer_ping(&mut self)
        ensures speaks { (p : Passed) → Speaks p (talk_of self.old) → Speaks p (talk_of self.new) }
        ensures conn { (talk_of self.new).conn ≡ (talk_of self.old).conn }
        ensures input { (talk_of self.new).input ≡ (talk_of self.old).input }
        ensures unsaid { (talk_of self.new).unsaid ≡ (talk_of self.old).unsaid }
        ensures closing { (talk_of self.new).closing ≡ (talk_of self.old).closing }
    {
        if self.pong.is_empty() || !self.output.is_empty() || self.is_closing {
            return;
        }
        match self.output.add(self.pong.as_slice()) {
            Ok(()) => self.pong = Kept::new(self.alloc),
            Err(_) => {}
        }
    }

    /// What is to be written.
    pub fn output(&self) -> &[u8]
        ensures { result.now ≡ (talk_of self.now).output }
    {
        self.output.as_slice()
    }

    /// The first so many bytes of the output were written, or all.
    pub fn written(&mut self, count: usize)
        ensures { (p : Passed) → Speaks p (talk_of self.old) →
            Speaks (record p { written = p.written ++ take count (talk_of self.old).output }) (talk_of self.new) }
    {
        self.output.advance(count);
        self.answer_ping();
    }

    /// Whether either end closes: nothing more is said.
    pub fn is_closing(&self) -> bool
        ensures { result ≡ (talk_of self.now).closing }
    {
        self.is_closing
    }

    /// Whether nothing more is to be written and the connection is closing.
    pub fn is_done(&self) -> bool
        ensures { result ≡ ((talk_of self.now).closing && length (talk_of self.now).output == 0) }
    {
        self.is_closing && self.output.is_empty()
    }
}
