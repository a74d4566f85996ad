//! Draining a lane whose port has ended.
ghost use Rattle.std.specs.Prelude.{◌≡◌, ◌<◌, ◌≤◌, ◌+◌, ◌++◌, ◌∷◌, [], List, IfOk, OnErr};
ghost use Rattle.std.specs.Prelude.{length, vec_capacity, vec_len};
ghost use Rattle.rtrb.specs.Ring.{SameConsumer, known_items, received};
ghost use Rattle.warp_record.specs.declared.line.Line.{Line};
ghost use Rattle.warp_replica.specs.declared.answer.Answer.{Answer};
ghost use Rattle.warp_replica.specs.Answered.{facts_of};
ghost use Rattle.warp_lanes.specs.Engine.{AnswersAlone, AreAnswered, DrainsLane};

use crate::answer::AnswerRule;
use crate::executor_end::Lane;
use crate::port::PortEnd;
use rtrb::Consumer;
use std::alloc::Global;
use warp_line::Timeline;
use warp_record::{Line, Reply};
use warp_replica::{Answer, Replica};
use warp_tag::OutOfMemory;

/// Receives what the port sent and the lane did not receive, and gives it to the replica; hands out the answers that
/// the port did not fetch, and keeps a copy of those that it makes. The room for both is taken first: at `Err` nothing
/// was received.
pub(crate) fn drain<T: Timeline>(
    lane: &mut Lane,
    replica: &mut Replica<T>,
    alloc: Global,
    end: PortEnd,
) -> Result<Vec<Answer>, OutOfMemory>
    requires lane { end.lane ≡ lane.old.lane }
    requires answered { length lane.old.commands ≡ length lane.old.answers }
    ensures drains { IfOk result
        (λ handed. DrainsLane (facts_of T.settled T.refused T.floor T.SLACK)
        replica.old lane.old end handed.items replica.new lane.new) }
    ensures err { OnErr result ((replica.new ≡ replica.old) × (lane.new ≡ lane.old)) }
{
    let PortEnd {
        commands: mut finished,
        answers: mut unfetched,
        missing,
    } = end;
    let left = lane.commands.slots_after(&mut finished);
    let mut handed = Vec::with_capacity(alloc, usize::from(missing))?;
    lane.last.reserve(left)?;
    unfetched.slots_beside(&mut lane.answers);
    answer_all(&mut lane.commands, &mut lane.last, replica, alloc);
    fetch_all(&mut unfetched, &mut handed);
    copy_all(&lane.last, &mut handed);
    Ok(handed)
}

/// Gives the replica all commands that are known to be there, and keeps their answers.
fn answer_all<T: Timeline>(
    commands: &mut Consumer<Line, Global>,
    last: &mut Vec<Answer>,
    replica: &mut Replica<T>,
    alloc: Global,
)
    requires room { vec_len last.old + length (known_items commands.old) ≤ vec_capacity last.old }
    ensures ring { SameConsumer commands.old commands.new }
    ensures commands { received commands.new ≡ received commands.old ++ known_items commands.old }
    ensures made { (made : List Answer)
        × AreAnswered (AnswersAlone (facts_of T.settled T.refused T.floor T.SLACK))
        replica.old (known_items commands.old) made replica.new
        × (last.new.items ≡ last.old.items ++ made) }
{
    while commands.cached_slots() > 0 {
        answer_one(commands, last, replica, alloc);
    }
}

/// Gives the replica the next command, and keeps its answer.
fn answer_one<T: Timeline>(
    commands: &mut Consumer<Line, Global>,
    last: &mut Vec<Answer>,
    replica: &mut Replica<T>,
    alloc: Global,
)
    requires known { 0 < length (known_items commands.old) }
    requires room { vec_len last.old < vec_capacity last.old }
    ensures ring { SameConsumer commands.old commands.new }
    ensures made { (said : Line) × (answer : Answer)
        × (received commands.new ≡ received commands.old ++ said ∷ [])
        × (known_items commands.old ≡ said ∷ known_items commands.new)
        × AnswersAlone (facts_of T.settled T.refused T.floor T.SLACK) replica.old said answer replica.new
        × (last.new.items ≡ last.old.items ++ answer ∷ []) }
    ensures room { vec_capacity last.new ≡ vec_capacity last.old }
{
    let line = commands.pop_known();
    let reply = replica.ask(alloc, line);
    let len = replica.len();
    keep(last, len, &reply);
}

/// Fetches all answers that are known to be there.
fn fetch_all(answers: &mut Consumer<Answer, Global, AnswerRule>, handed: &mut Vec<Answer>)
    requires { vec_len handed.old + length (known_items answers.old) ≤ vec_capacity handed.old }
    ensures items { handed.new.items ≡ handed.old.items ++ known_items answers.old }
    ensures room { vec_capacity handed.new ≡ vec_capacity handed.old }
{
    while answers.cached_slots() > 0 {
        fetch_one(answers, handed);
    }
}

/// Fetches the next answer.
fn fetch_one(answers: &mut Consumer<Answer, Global, AnswerRule>, handed: &mut Vec<Answer>)
    requires known { 0 < length (known_items answers.old) }
    requires room { vec_len handed.old < vec_capacity handed.old }
    ensures next { (answer : Answer) × (known_items answers.old ≡ answer ∷ known_items answers.new)
        × (handed.new.items ≡ handed.old.items ++ answer ∷ []) }
    ensures room { vec_capacity handed.new ≡ vec_capacity handed.old }
{
    let answer = answers.pop_known();
    keep(handed, answer.len, &answer.reply);
}

/// Hands out copies of these answers.
fn copy_all(last: &[Answer], handed: &mut Vec<Answer>)
    requires { vec_len handed.old + length last.now ≤ vec_capacity handed.old }
    ensures { handed.new.items ≡ handed.old.items ++ last.now }
{
    for answer in last {
        keep(handed, answer.len, &answer.reply);
    }
}

/// Puts an answer behind the others.
fn keep(list: &mut Vec<Answer>, len: u32, reply: &Reply)
    requires { vec_len list.old < vec_capacity list.old }
    ensures items { list.new.items ≡ list.old.items ++ record { len = len; reply = reply.now } ∷ [] }
    ensures room { vec_capacity list.new ≡ vec_capacity list.old }
{
    list.push_reserved(Answer { len, reply: *reply });
}
