//! Which lines are left to the log: all but those of records that a room keeps out of it.
ghost use Rattle.std.specs.Prelude.{◌≡◌, ◌<◌, ℕ, false, IfErr, IfNone, IfSome, IsTrue, OnErr, OnOk};
ghost use Rattle.warp_table.specs.Records.{set_of};
ghost use Rattle.warp_keep.specs.Judging.{IsFirstNotToBeKept, MayBeKept};
ghost use Rattle.warp_keep.specs.Keeping.{keeps};
ghost use Rattle.warp_replica.specs.Answered.{facts_of};
ghost use Rattle.warp_room.specs.Gate.{ComesTo, IsKeptOut, IsLeft, outcome_of};
ghost use Rattle.warp_room.specs.Room.{AreKept};

use crate::answers::{LineAnswer, Outcome};
use crate::room::{Room, answer_line};
use std::alloc::Global;
use warp_keep::{Judgement, Keeping};
use warp_line::Timeline;
use warp_record::Line;
use warp_replica::Replica;

impl<T: Timeline> Room<T> {
    /// It keeps these origins from now on, in the place of those that it kept: their records reach its log as its clients
    /// say them and no other way, and it announces for them. `Err` names the first that it may not keep, as an
    /// announcement that speaks of it is broken, or a name of it has two payloads; and changes nothing.
    pub fn keep(&mut self, keeping: Keeping) -> Result<(), u32>
        ensures ok { OnOk result (self.new ≡ record self.old { keeping = keeping }) }
        ensures may { OnOk result ((origin : ℕ) → origin < self.old.replica.program.origins →
            IsTrue (keeps keeping origin) → MayBeKept (set_of self.old.replica.records) origin) }
        ensures err { IfErr result (λ origin.
            IsFirstNotToBeKept (keeps keeping) self.old.replica.program (set_of self.old.replica.records) origin) }
        ensures same { OnErr result (self.new ≡ self.old) }
    {
        keeping.may_keep(&self.replica)?;
        self.keeping = keeping;
        Ok(())
    }

    /// The origins that it keeps.
    pub fn keeping(&self) -> &Keeping
        ensures { result.now ≡ self.now.keeping }
    {
        &self.keeping
    }

    /// What is known of any room: what it keeps could be kept when its log had some first records, and the log goes on
    /// from those. It does nothing.
    pub fn valid(&self)
        ensures { AreKept (keeps self.now.keeping) self.now.replica.program self.now.replica.records }
    {
        // A look at what it keeps shows it.
        let _keeping = &self.keeping;
    }
}

/// Answers a line: a record that is kept out of the log by what its judgement says, any other line by the replica.
pub(crate) fn answer_or_keep_out<T: Timeline>(
    keeping: &Keeping,
    replica: &mut Replica<T>,
    alloc: Global,
    line: Line,
    lacking: bool,
) -> LineAnswer
    requires { IsTrue lacking → (T.settled replica.old.timeline ≡ false) × T.refused replica.old.timeline }
    ensures { ComesTo (keeps keeping.now) (facts_of T.settled T.refused T.floor T.SLACK) replica.old «line»
        result.len result.outcome replica.new }
{
    if let Some(outcome) = kept_out(keeping, replica, &line) {
        return LineAnswer {
            len: replica.len(),
            outcome,
        };
    }
    let answer = answer_line(replica, alloc, line, lacking);
    LineAnswer {
        len: answer.len,
        outcome: Outcome::Replied(answer.reply),
    }
}

/// What is told of a line that is kept out of the log; `None` of one that is left to it.
fn kept_out<T: Timeline>(keeping: &Keeping, replica: &Replica<T>, line: &Line) -> Option<Outcome>
    ensures left { IfNone result (IsLeft (keeps keeping.now) replica.now.program replica.now.records line.now) }
    ensures kept { IfSome result (IsKeptOut (keeps keeping.now) replica.now.program replica.now.records line.now) }
{
    match line {
        Line::Put(record) => outcome_of(keeping.judge(replica, record)),
        Line::Ask(_) => None,
        Line::Collect => None,
        Line::Look(_) => None,
    }
}

/// What is told of a record that is judged so.
fn outcome_of(judgement: Judgement) -> Option<Outcome>
    ensures { result ≡ outcome_of judgement }
{
    match judgement {
        Judgement::Open => None,
        Judgement::Kept => Some(Outcome::Kept),
        Judgement::Late => Some(Outcome::Late),
        Judgement::Differs => Some(Outcome::Differs),
    }
}
