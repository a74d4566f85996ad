//! The worker's part in the operator's channel: it hands lines to its machine, reads the file of tokens where that is
//! wanted, and has answers written.

use crate::channel::{Looked, PIECE};
use crate::token_file::{TokenFault, TokenFiles};
use crate::worker::Worker;
use std::io::Eprint;
use std::sync::Wait;
use warp_disk::{Shared, Teller};
use warp_events::{Decides, Operated, OperatorAnswer, Undone};

/// Why a line is not done that wants the tokens.
fn why_no_tokens(fault: TokenFault) -> Undone {
    match fault {
        TokenFault::Unread => Undone::UnreadTokens,
        TokenFault::Shown => Undone::ShownTokens,
    }
}

/// Tells what came of reading the file of tokens again.
fn tell_reading<X: Eprint>(rt: &X, answer: OperatorAnswer) {
    let _ = match answer {
        OperatorAnswer::Closed(count) => { eprintln!(rt; "tokens: read again, {count} closed") }
        OperatorAnswer::No(Undone::NoTokens) => {
            rt.eprintln("tokens: not read again: the host began without --tokens")
        }
        OperatorAnswer::No(Undone::BadTokens(bad)) => {
            eprintln!(rt; "tokens: not read again, the old ones hold: {bad}")
        }
        OperatorAnswer::No(Undone::UnreadTokens) => {
            rt.eprintln("tokens: not read again, the old ones hold: their file can't be read")
        }
        OperatorAnswer::No(Undone::ShownTokens) => {
            rt.eprintln("tokens: not read again, the old ones hold: others may read or write it")
        }
        OperatorAnswer::No(Undone::NoMemory) => {
            rt.eprintln("tokens: not read again, the old ones hold: no memory")
        }
        _ => Ok(()),
    };
}

impl Worker {
    /// Reads standard input, if there may be something, and has done what an operator's lines say. Its end is told, behind
    /// what came before it.
    pub(crate) fn look_at_input<X: TokenFiles + Wait, P, M: Decides<P>>(
        &mut self,
        rt: &X,
        machine: &mut M,
        shared: Shared<'_>,
    ) {
        if !self.may_read_input || !self.channel.may_read() {
            return;
        }
        self.may_read_input = false;
        let mut bytes = [0; PIECE];
        match self.channel.look(&self.poll, &mut bytes) {
            Looked::Bytes(count) => {
                machine.seen(self.seen(shared.durable));
                let bytes = bytes.get(..count).unwrap_or(b"");
                self.obey(rt, machine, shared.teller, bytes);
            }
            Looked::Nothing => {}
            Looked::End => self.end_input(machine),
        }
    }

    /// Has done what the lines in these bytes say, where an operator has standard input; else they are dropped.
    fn obey<X: TokenFiles + Wait, P, M: Decides<P>>(
        &mut self,
        rt: &X,
        machine: &mut M,
        teller: &Teller,
        bytes: &[u8],
    ) {
        if !self.channel.is_operated {
            return;
        }
        for byte in bytes {
            if self.channel.take(*byte) {
                self.answer_line(rt, machine, teller);
            }
        }
        self.channel.write(&self.poll);
    }

    /// Has done what a line says, and keeps its answer.
    fn answer_line<X: TokenFiles + Wait, P, M: Decides<P>>(
        &mut self,
        rt: &X,
        machine: &mut M,
        teller: &Teller,
    ) {
        let answer = match machine.operator(self.channel.line(), self.now) {
            Operated::Answered(answer) => answer,
            Operated::ReadTokens => {
                let answer = self.read_tokens(rt, machine, teller);
                tell_reading(&teller.by(rt), answer);
                answer
            }
        };
        self.channel.answer(answer);
    }

    /// Reads the file of tokens again.
    fn read_tokens<X: TokenFiles + Wait, P, M: Decides<P>>(
        &self,
        rt: &X,
        machine: &mut M,
        teller: &Teller,
    ) -> OperatorAnswer {
        let Some(path) = &self.channel.tokens else {
            return OperatorAnswer::No(Undone::NoTokens);
        };
        match rt.tokens_at(&teller.by(rt), self.alloc, path.as_str()) {
            Ok(text) => machine.tokens_read(Ok(&text), self.now),
            Err(fault) => machine.tokens_read(Err(why_no_tokens(fault)), self.now),
        }
    }

    /// Standard input has ended. A line that has no end is no word.
    fn end_input<P, M: Decides<P>>(&mut self, machine: &mut M) {
        if self.channel.is_operated && self.channel.is_torn() {
            self.channel.answer(OperatorAnswer::No(Undone::NoWord));
            self.channel.write(&self.poll);
        }
        if self.channel.ends_host {
            machine.input_ended(self.now);
        }
    }
}
