//! What the calls come to: lines that are kept until `main` prints them, so that nothing that makes a call can fail.
ghost use Rattle.warp_tag.specs.Limits.{widest};
ghost use Rattle.warp_record.specs.Reply.{IsReply};

use std::alloc::Global;
use std::fmt::Display;
use std::io::{self, ErrorKind, Write};
use std::str;
use warp_record::{REPLY_ROOM, Reply, write_reply_line};

/// What is told where there was no memory for a call.
pub(crate) const NO_MEMORY: &str = "no memory";

/// What is told of something that was made, or for which there was no memory.
pub(crate) fn outcome(is_made: bool) -> &'static str {
    if is_made { "made" } else { NO_MEMORY }
}

/// The lines that are told, and whether all is well.
#[derive(Drop)]
pub(crate) struct Transcript {
    text: Vec<u8>,
    /// Whether no line was lost, and nothing was asked for that is no call.
    is_sound: bool,
}

impl Transcript {
    /// Nothing is told yet.
    pub(crate) fn new(alloc: Global) -> Transcript {
        Transcript {
            text: Vec::new(alloc),
            is_sound: true,
        }
    }

    /// Tells a line.
    pub(crate) fn say<D: Display + Drop>(&mut self, line: D) {
        self.is_sound &= writeln!(self.text, "{line}").is_ok();
    }

    /// Tells a text, which has its line feeds.
    pub(crate) fn say_text(&mut self, text: &[u8]) {
        self.is_sound &= self.text.extend_from_slice(text).is_ok();
    }

    /// Tells a line of these bytes.
    pub(crate) fn say_bytes(&mut self, line: &[u8]) {
        self.is_sound &= self.text.extend_from_slice(line).is_ok();
        self.is_sound &= self.text.extend_from_slice(b"\n").is_ok();
    }

    /// Tells a reply.
    pub(crate) fn say_reply(&mut self, reply: &Reply)
        requires { IsReply widest reply.now }
    {
        match self.text.reserve(REPLY_ROOM) {
            Ok(()) => write_reply_line(&mut self.text, reply),
            Err(_) => self.is_sound = false,
        }
    }

    /// Tells what is wrong with the lines that ask for calls, or why none can be made.
    pub(crate) fn fail(&mut self, fault: &str) {
        self.is_sound = false;
        let _is_lost = writeln!(self.text, "{fault}");
    }

    /// Prints the lines. An error tells that not all was well.
    pub(crate) fn print<P: Print>(&self, rt: &P) -> io::Result<()> {
        let Ok(text) = str::from_utf8(&self.text) else {
            return Err(ErrorKind::InvalidData.into());
        };
        rt.print(text)?;
        if self.is_sound {
            Ok(())
        } else {
            Err(ErrorKind::InvalidInput.into())
        }
    }
}
