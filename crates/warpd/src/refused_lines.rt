//! What becomes of the replies to lines that nobody wants answered: how many lines were refused is counted, and which
//! was the first, and why.

use std::alloc::{AllocError, Global};
use warp_record::{Feed, Refusal, Reply, read_reply};
use warp_session::{Failed, Sink};
use warp_tag::Form;

/// Takes the replies to lines, and keeps how many lines were refused, and which of them was the first.
#[derive(Drop)]
pub(crate) struct RefusedLines {
    lines: u64,
    refused: u64,
    first: u64,
    reason: u32,
}

impl RefusedLines {
    /// No reply came yet.
    pub(crate) fn new() -> RefusedLines {
        RefusedLines {
            lines: 0,
            refused: 0,
            first: 0,
            reason: 0,
        }
    }

    /// Takes the reply to the next line, without its line feed.
    fn note(&mut self, reply: &[u8]) {
        self.lines = self.lines.saturating_add(1);
        let Some(reason) = reason_told(reply) else {
            return;
        };
        if self.refused == 0 {
            self.first = self.lines;
            self.reason = reason;
        }
        self.refused = self.refused.saturating_add(1);
    }

    /// Takes whole replies, each with its line feed.
    fn note_all(&mut self, replies: &[u8]) {
        let feed = Feed::new();
        let mut rest = replies;
        while let Some(reply) = feed.whole(rest) {
            self.note(reply);
            rest = &rest[reply.len() + 1..];
        }
    }

    /// What standard error tells of the refused lines: nothing where there are none.
    pub(crate) fn remark(&self, alloc: Global) -> Result<String, AllocError> {
        if self.refused == 0 {
            return Ok(String::new(alloc));
        }
        format!(in alloc;
            "lines refused {}, first line {}: refused {}\n",
            self.refused, self.first, self.reason
        )
    }
}

/// The number of the reason for which this reply refuses a line. None of a query or a look at the board, which a
/// desk that executes nothing refuses.
fn reason_told(reply: &[u8]) -> Option<u32> {
    if reply.first() != Some(&b'r') {
        return None;
    }
    // A refusal is spelled alike in every form.
    match read_reply(Form::Two, reply) {
        Some(Reply::Refused(Refusal::NoMemory | Refusal::NoBoard)) => None,
        Some(Reply::Refused(refusal)) => Some(refusal.number()),
        _ => None,
    }
}

impl Sink for RefusedLines {
    ghost use Rattle.std.specs.Prelude.{None};

    ghost written = { λ _. None };

    ghost failures = { λ _. 0 };

    fn write(&mut self, piece: &[u8]) -> Result<usize, Failed> {
        self.note_all(piece);
        Ok(piece.len())
    }
}
