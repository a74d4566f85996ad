//! Work in parts: answering lines and executing what they brought, so that what is released is shown between them.
ghost use Rattle.std.specs.Prelude.{◌≡◌, ◌≤◌, IfNone, IfSome, List, length};
ghost use Rattle.warp_replica.specs.Answered.{facts_of};
ghost use Rattle.warp_room.specs.declared.answers.AnsweredLine.{AnsweredLine};
ghost use Rattle.warp_room.specs.Steps.{RoomDoes, ServeEach, Serves};
ghost use Rattle.warp_room.specs.Steps as steps;

use crate::room::{Room, Worked};
use std::alloc::Global;
use warp_line::{Progress, Timeline};
use warp_record::{Line, Record};
use warp_step::Meter;
use warp_tag::{OutOfMemory, Tag};

impl<T: Timeline> Room<T> {
    /// Answers at most so many lines that need no execution, as `work` does, and executes nothing. It ends with `More` in
    /// front of a record behind the horizon, where not all is shown that is released: the record may take some of that
    /// back.
    pub fn answer_some(&mut self, alloc: Global, most_lines: u32) -> Worked
        ensures { (served : List AnsweredLine) × (length served ≤ most_lines)
            × ServeEach (facts_of T.settled T.refused T.floor T.SLACK) served self.old self.new }
    {
        let mut count = 0;
        while count < most_lines {
            if let Some(worked) = self.answer_one(alloc) {
                return worked;
            }
            count += 1;
        }
        Worked::More
    }

    /// Answers the oldest line of the client whose turn it is; or says why not, and changes nothing.
    fn answer_one(&mut self, alloc: Global) -> Option<Worked>
        ensures served { IfNone result ((one : AnsweredLine) ×
            Serves (facts_of T.settled T.refused T.floor T.SLACK) one self.old self.new) }
        ensures ends { IfSome result (λ why. self.new ≡ self.old) }
    {
        if self.is_to_show() {
            return Some(Worked::More);
        }
        self.serve(alloc, false)
    }

    /// Executes what is not done, by at most so many steps, which this meter counts.
    pub fn execute<M: Meter>(
        &mut self,
        alloc: Global,
        most_steps: u64,
        meter: &mut M,
    ) -> Result<Progress, OutOfMemory>
        ensures { RoomDoes (facts_of T.settled T.refused T.floor T.SLACK) steps.Executed self.old self.new }
    {
        self.replica.settle_some(alloc, most_steps, meter)
    }

    /// Whether the next line is a record behind the horizon, and not all is shown that is released.
    fn is_to_show(&self) -> bool {
        match self.queues.first(self.is_settled()) {
            Some(turn) => self.comes_behind(&turn.line) && !self.is_all_shown(),
            None => false,
        }
    }

    /// Whether all is known to be shown that is released, or what is shown is frozen: of a room that shows what is released
    /// whenever all is executed.
    fn is_all_shown(&self) -> bool {
        if self.shown.is_frozen() {
            return true;
        }
        self.is_settled() && self.replica.released().len() == self.shown.rows().len()
    }

    /// Whether the line has a record with a tag before the horizon.
    fn comes_behind(&self, line: &Line) -> bool {
        match line {
            Line::Put(record) => self
                .replica
                .is_before_horizon(record.origin(), tag_of(record)),
            _ => false,
        }
    }
}

/// The tag of a record.
fn tag_of(record: &Record) -> Tag {
    match *record {
        Record::Event { tag, .. } => tag,
        Record::Withdraw { tag, .. } => tag,
        Record::Announce { tag, .. } => tag,
        Record::Joint { tag, .. } => tag,
    }
}
