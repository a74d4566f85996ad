//! The desk of a session that is served with others: another thread answers its lines, and it reads the board itself.
ghost use Rattle.std.specs.Prelude.{◌≡◌, ◌+◌, ◌<◌, ◌≤◌, ◌++◌, ◌∷◌, [], All, IfSome, List, false, length, take};
ghost use Rattle.warp_tag.specs.Limits.{widest};
ghost use Rattle.warp_record.specs.Reply.{IsReply};
ghost use Rattle.warp_exchange.specs.Batch.{GivesEach};
ghost use Rattle.warp_lanes.specs.Lanes.{IsAnswer, end_of_port};
ghost use Rattle.warp_replica.specs.declared.answer.Answer.{Answer};
ghost use Rattle.warp_session.specs.PortDesk.{FetchesAll, GivesAt, Learns, PortDeskState, look_reply};
ghost use Rattle.warp_session.specs.inner.Fetched.{FetchesLast, is_look};

use crate::patience::Patience;
use std::marker::Model;
use std::sync::Wait;
use std::time::Clock;
use warp_board::{Board, Reader};
use warp_exchange::Desk;
use warp_lanes::{Answer, Port, PortEnd};
use warp_record::{Line, Look, Refusal, Reply};
use warp_tag::Form;

/// A desk that sends its lines to the thread that holds the replica, and waits for each answer. It answers the lines of
/// the board itself. Contracts see its port, its reader, and the form of the program that is served.
#[derive(Drop)]
pub struct PortDesk<'a, X: Wait + Clock> {
    rt: &'a X,
    board: &'a Board,
    port: Port,
    reader: Reader,
    form: Form,
}

impl<'a, X: Wait + Clock> Model for PortDesk<'a, X> {
    ghost use Rattle.std.specs.Prelude.{◌≡◌};
    ghost use Rattle.warp_session.specs.PortDesk.{PortDeskState, port_desk_code};

    ghost Value = { PortDeskState };

    ghost coded = { port_desk_code };

    ghost view = { λ d. record { port = d.port; reader = d.reader; form = d.form } };

    ghost invariant = { λ d. d.reader.board ≡ d.board.now };
}

impl<'a, X: Wait + Clock> PortDesk<'a, X> {
    /// The desk of this port, whose lane an engine serves, of this reader of the board, and of lines of this form,
    /// which the engine's program has. It waits by `rt`.
    pub fn new(
        rt: &'a X,
        board: &'a Board,
        port: Port,
        reader: Reader,
        form: Form,
    ) -> PortDesk<'a, X>
        requires { reader.board ≡ board.now }
        ensures { result ≡ record { port = port; reader = reader; form = form } }
    {
        PortDesk {
            rt,
            board,
            port,
            reader,
            form,
        }
    }

    /// Answers some of these lines, from the first on, and says how many.
    fn ask_some(&mut self, lines: &[Line], replies: &mut [Reply]) -> usize
        requires some { 0 < length lines.now }
        requires places { length replies.old ≡ length lines.now }
        ensures count { (0 < result) × (result ≤ length lines.now) }
        ensures gives { GivesEach GivesAt self.old (take result lines.now) (take result replies.new) self.new }
        ensures replies { All (IsReply widest) (take result replies.new) }
        ensures places { length replies.new ≡ length lines.now }
    {
        let count = send_first(&mut self.port, lines);
        let none_sent = count == 0;
        if none_sent {
            replies[0] = self.ask(lines[0]);
            return 1;
        }
        fetch_last(self.rt, &mut self.port, &mut replies[..count]);
        count
    }

    /// Ends the desk: what the port's lane may be drained with, if its other end is still there, and the reader.
    pub fn finish(self) -> (Option<PortEnd>, Reader)
        ensures end { IfSome result.0 (λ end. end ≡ end_of_port self.entry.port) }
        ensures reader { result.1 ≡ self.entry.reader }
    {
        let PortDesk { port, reader, .. } = self;
        (port.finish(), reader)
    }
}

/// Waits for the next answer, where one is missing.
fn next_answer<X: Wait + Clock>(rt: &X, port: &mut Port) -> Answer
    ensures answer { IsAnswer result × (port.new ≡ record port.old { fetched = port.old.fetched ++ result ∷ [] }) }
    ensures missing { length port.old.fetched < length port.old.sent }
{
    let mut patience = Patience::new();
    for _ in rt.forever() {
        match port.reply() {
            Some(answer) => return answer,
            None => patience.wait(rt),
        }
    }
    unreachable!()
}

/// Fetches answers until no more are missing than this.
fn fetch_down_to<X: Wait + Clock>(rt: &X, port: &mut Port, most: usize)
    ensures fetched { (front : List Answer) × (port.new ≡ record port.old { fetched = port.old.fetched ++ front }) }
    ensures missing { length port.new.sent ≤ length port.new.fetched + most }
{
    while port.waiting() > most {
        next_answer(rt, port);
    }
}

/// Fetches answers until none is missing, and gives the reply of the last of them.
fn last_reply<X: Wait + Clock>(rt: &X, port: &mut Port) -> Reply
    ensures { (last : Answer) × FetchesAll port.old last port.new × (result ≡ last.reply) }
{
    fetch_down_to(rt, port, 1);
    next_answer(rt, port).reply
}

/// Fetches answers until none is missing, and gives the replies of the last of them.
fn fetch_last<X: Wait + Clock>(rt: &X, port: &mut Port, replies: &mut [Reply])
    requires some { 0 < length replies.old }
    ensures fetched { FetchesLast port.old replies.new port.new }
    ensures places { length replies.new ≡ length replies.old }
{
    fetch_down_to(rt, port, replies.len());
    for at in 0..replies.len() {
        replies[at] = next_answer(rt, port).reply;
    }
}

/// Whether the line is a look at the board.
fn is_look(line: &Line) -> bool
    ensures { result ≡ is_look «line».now }
{
    matches!(*line, Line::Look(_))
}

/// Sends lines from the first on, until one is a look at the board or comes back, and says how many it sent.
fn send_first(port: &mut Port, lines: &[Line]) -> usize
    ensures count { result ≤ length lines.now }
    ensures sent { port.new ≡ record port.old { sent = port.old.sent ++ take result lines.now; free = port.new.free } }
    ensures free { port.old.free ≤ port.new.free + result }
    ensures commands { All (λ line. is_look line ≡ false) (take result lines.now) }
    ensures none { result ≡ 0 → port.new ≡ port.old }
{
    let mut count = 0;
    while count < lines.len() {
        let line = lines[count];
        if is_look(&line) {
            return count;
        }
        let Ok(()) = port.send(line) else {
            return count;
        };
        count += 1;
    }
    count
}

/// Answers a look at the board, whose count it loads anew. The flag is loaded first: what it saw frozen has all its
/// rows.
fn look(board: &Board, reader: &mut Reader, asked: Look) -> Reply
    requires { reader.old.board ≡ board.now }
    ensures learns { Learns reader.old reader.new }
    ensures answer { result ≡ look_reply «asked» reader.new }
    ensures reply { IsReply widest result }
{
    match asked {
        Look::Board => {
            let frozen = reader.frozen(board);
            let count = reader.count(board);
            Reply::Board {
                count: count as u32,
                frozen,
            }
        }
        Look::Row(number) => {
            reader.count(board);
            match reader.row(board, u64::from(number)) {
                Some(row) => Reply::Row(row),
                None => Reply::NoRow,
            }
        }
    }
}

impl<'a, X: Wait + Clock> Desk for PortDesk<'a, X> {
    ghost State = { PortDeskState };

    ghost state = { λ d. d };

    ghost gives = { GivesAt };

    ghost form_of = { λ s. s.form };

    fn form(&self) -> Form {
        self.form
    }

    /// A line of the board is answered at once. Any other is sent and its answer waited for; where the lane is full it
    /// is refused 10 and not sent.
    fn ask(&mut self, line: Line) -> Reply {
        if let Line::Look(asked) = line {
            return look(self.board, &mut self.reader, asked);
        }
        if self.port.send(line).is_err() {
            return Reply::Refused(Refusal::Busy);
        }
        last_reply(self.rt, &mut self.port)
    }

    fn asks_together() -> bool {
        true
    }

    /// Lines are sent together as far as places go, and then all their answers fetched. A line of the board, and one for
    /// which there was no place, waits for the answers to those before it.
    fn ask_all(&mut self, lines: &[Line], replies: &mut [Reply]) {
        let mut at = 0;
        while at < lines.len() {
            at += self.ask_some(&lines[at..], &mut replies[at..]);
        }
    }
}
