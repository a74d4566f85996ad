//! An engine of one lane with a board of two rows. Each line is a call:
//!
//! - `lane` makes another lane; `send LINE` and `fetch` are the port's; `turn`, `settle` and `publish` the engine's,
//!   the last where its replica is settled; `look` tells what stands on the board;
//! - `length` tells how long the log is, `waiting` how many answers are missing.
//!
//! Behind the last line the port ends, and its lane is drained.
ghost use Rattle.std.specs.Prelude.{◌≡◌, [], ◌∷◌, false, IfSome};
ghost use Rattle.warp_lanes.specs.Engine.{ids_of};

use crate::boards::look;
use crate::lines::line_of;
use crate::mark::{begin, end};
use crate::programs::replica_of;
use crate::transcript::{NO_MEMORY, Transcript, outcome};
use std::alloc::Global;
use warp_board::{Board, Reader, Writer, board};
use warp_lanes::{Answer, Engine, Port, PortEnd, Published, Turn, lane};
use warp_line::Timeline;
use warp_record::Reply;

/// Makes the calls of the lines over a new engine of this program.
pub(crate) fn perform<T: Timeline>(
    alloc: Global,
    out: &mut Transcript,
    program: &str,
    lines: &str,
) {
    let Ok((board, writer, mut reader)) = board(alloc, 2) else {
        return out.fail(NO_MEMORY);
    };
    match engine_of_one::<T>(alloc, program, writer) {
        Some((mut engine, port)) => {
            make_all(alloc, out, &board, &mut reader, &mut engine, port, lines);
        }
        None => out.fail("no engine"),
    }
}

/// An engine of one lane, and the lane's port.
fn engine_of_one<T: Timeline>(
    alloc: Global,
    program: &str,
    writer: Writer,
) -> Option<(Engine<T>, Port)>
    requires rows { writer.rows ≡ [] }
    requires flag { writer.frozen ≡ false }
    ensures lane { IfSome result (λ made. ids_of made.0.lanes ≡ made.1.lane ∷ []) }
    ensures writer { IfSome result (λ made. made.0.writer ≡ writer) }
{
    let Ok((port, lane)) = lane(alloc) else {
        return None;
    };
    let Ok(lanes) = vec![in alloc; lane] else {
        return None;
    };
    let Ok(replica) = replica_of::<T>(alloc, program) else {
        return None;
    };
    Some((Engine::new(replica, lanes, writer), port))
}

/// Makes all calls.
fn make_all<T: Timeline>(
    alloc: Global,
    out: &mut Transcript,
    board: &Board,
    reader: &mut Reader,
    engine: &mut Engine<T>,
    mut port: Port,
    lines: &str,
)
    requires lane { ids_of engine.old.lanes ≡ port.lane ∷ [] }
    requires writer { engine.old.writer.board ≡ board.now }
    requires reader { reader.old.board ≡ board.now }
{
    for line in lines.lines() {
        make_call(alloc, out, board, reader, engine, &mut port, line);
    }
    match port.finish() {
        Some(end) => drain(alloc, out, engine, end),
        None => out.fail("the lane is gone"),
    }
}

/// Makes the call of a line.
fn make_call<T: Timeline>(
    alloc: Global,
    out: &mut Transcript,
    board: &Board,
    reader: &mut Reader,
    engine: &mut Engine<T>,
    port: &mut Port,
    line: &str,
)
    requires writer { engine.old.writer.board ≡ board.now }
    requires reader { reader.old.board ≡ board.now }
    ensures ids { ids_of engine.new.lanes ≡ ids_of engine.old.lanes }
    ensures lane { port.new.lane ≡ port.old.lane }
    ensures writer { engine.new.writer.board ≡ board.now }
    ensures reader { reader.new.board ≡ board.now }
{
    if line == "look" {
        return look(alloc, out, board, reader);
    }
    if line == "publish" {
        return publish(alloc, out, board, engine);
    }
    if line == "turn" {
        return turn(alloc, out, engine);
    }
    if line == "settle" {
        return settle(alloc, out, engine);
    }
    if line == "length" {
        return out.say(format_args!("length {}", engine.replica().len()));
    }
    call_port(alloc, out, port, line);
}

/// Makes the call of a line that is the port's, or makes another lane.
fn call_port(alloc: Global, out: &mut Transcript, port: &mut Port, line: &str)
    ensures { port.new.lane ≡ port.old.lane }
{
    if line == "fetch" {
        return fetch(alloc, out, port);
    }
    if line == "waiting" {
        return out.say(format_args!("waiting {}", port.waiting()));
    }
    if line == "lane" {
        return make_lane(alloc, out);
    }
    match line.strip_prefix("send ") {
        Some(text) => send(alloc, out, port, text),
        None => out.fail("no call"),
    }
}

/// Makes another lane.
fn make_lane(alloc: Global, out: &mut Transcript) {
    begin(alloc);
    let made = lane(alloc);
    end(alloc);
    out.say(outcome(made.is_ok()));
}

/// Sends a line.
fn send(alloc: Global, out: &mut Transcript, port: &mut Port, text: &str)
    ensures { port.new.lane ≡ port.old.lane }
{
    let Some(line) = line_of(text) else {
        return out.fail("no line");
    };
    begin(alloc);
    let sent = port.send(line);
    end(alloc);
    out.say(if sent.is_ok() { "sent" } else { "came back" });
}

/// Fetches an answer.
fn fetch(alloc: Global, out: &mut Transcript, port: &mut Port)
    ensures { port.new.lane ≡ port.old.lane }
{
    begin(alloc);
    let fetched = port.reply();
    end(alloc);
    match fetched {
        Some(answer) => say_reply(out, &answer.reply),
        None => out.say("no answer"),
    }
}

/// Serves a line.
fn turn<T: Timeline>(alloc: Global, out: &mut Transcript, engine: &mut Engine<T>)
    ensures writer { engine.new.writer ≡ engine.old.writer }
    ensures ids { ids_of engine.new.lanes ≡ ids_of engine.old.lanes }
{
    if engine.lane_count() == 0 {
        return out.fail("no lane");
    }
    begin(alloc);
    let turn = engine.turn(alloc, 0);
    end(alloc);
    let word = match turn {
        Turn::Served => "served",
        Turn::Empty => "empty",
        Turn::Stalled => "stalled",
    };
    out.say(word);
}

/// Settles.
fn settle<T: Timeline>(alloc: Global, out: &mut Transcript, engine: &mut Engine<T>)
    ensures writer { engine.new.writer ≡ engine.old.writer }
    ensures ids { ids_of engine.new.lanes ≡ ids_of engine.old.lanes }
{
    begin(alloc);
    let settled = engine.settle(alloc);
    end(alloc);
    out.say(if settled.is_ok() {
        "settled"
    } else {
        NO_MEMORY
    });
}

/// Publishes, where the replica is settled.
fn publish<T: Timeline>(alloc: Global, out: &mut Transcript, board: &Board, engine: &mut Engine<T>)
    requires { engine.old.writer.board ≡ board.now }
    ensures writer { engine.new.writer.board ≡ board.now }
    ensures ids { ids_of engine.new.lanes ≡ ids_of engine.old.lanes }
{
    if !engine.replica().is_settled() {
        return out.say("not settled");
    }
    begin(alloc);
    let published = engine.publish(board);
    end(alloc);
    match published {
        Published::Rows(count) => out.say(format_args!("{count} published")),
        Published::Frozen => out.say("frozen"),
    }
}

/// Drains the lane of a port that has ended, and tells what is handed out, and how long the log is.
fn drain<T: Timeline>(alloc: Global, out: &mut Transcript, engine: &mut Engine<T>, ended: PortEnd)
    requires { ids_of engine.old.lanes ≡ ended.lane ∷ [] }
{
    begin(alloc);
    let drained = engine.drain(alloc, 0, ended);
    end(alloc);
    match drained {
        Ok(answers) => say_all(out, &answers),
        Err(_) => out.say(NO_MEMORY),
    }
    out.say(format_args!("length {}", engine.replica().len()));
}

/// Tells the replies of these answers.
fn say_all(out: &mut Transcript, answers: &[Answer]) {
    for answer in answers {
        say_reply(out, &answer.reply);
    }
}

/// Tells a reply to a record or to a query for a variable.
fn say_reply(out: &mut Transcript, reply: &Reply) {
    match *reply {
        Reply::Taken(place) => out.say(format_args!("taken {place}")),
        Reply::Known(place) => out.say(format_args!("known {place}")),
        Reply::Refused(refusal) => out.say(format_args!("refused {}", refusal.number())),
        Reply::Var { log, value } => out.say(format_args!("var {log} {value}")),
        _ => out.say("another reply"),
    }
}
