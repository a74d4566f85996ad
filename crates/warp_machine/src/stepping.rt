//! What the room executes, step by step, while somebody watches it.
ghost use Rattle.std.specs.Prelude.{◌≡◌};
ghost use Rattle.warp_replica.specs.Answered.{facts_of};
ghost use Rattle.warp_step.specs.Counter.{IsUnused};
ghost use Rattle.warp_machine.specs.Moving.{Moved};

use crate::machine::Machine;
use crate::moves;
use crate::start::LastDone;
use std::marker::Brand;
use std::sync::ledger::{Blank, Ledger};
use warp_clients::Worked;
use warp_line::Timeline;
use warp_push::Executed;
use warp_tag::Tag;
use warp_trace::{Labels, StepNotes};

/// So many times steps are pushed in a turn at most.
const MOST_TIMES: u32 = 1_024;

/// So many lines are answered at once at most, one by one, while steps are watched.
const MOST_ALONE: u32 = 1_024;

impl<T: Timeline> Machine<T> {
    /// Has the room answer lines one by one, and notes the steps of each.
    pub(crate) fn work_noted<P: LastDone<T>>(&mut self) -> Worked
        ensures { Moved (facts_of T.settled T.refused T.floor T.SLACK) self.old.clients self.new.clients }
    {
        match self.labels.take() {
            Some(labels) => self.work_counted::<P, Brand>(labels, Blank::new(1)),
            None => Worked::Idle,
        }
    }

    /// The same. Steps are counted in the ledger that `blank` opens, for contracts alone.
    fn work_counted<P: LastDone<T>, L: Ledger>(&mut self, labels: Labels, blank: Blank) -> Worked
        requires { IsUnused blank L.name L.parts }
        ensures { Moved (facts_of T.settled T.refused T.floor T.SLACK) self.old.clients self.new.clients }
    {
        let mut notes = StepNotes::<L>::new(self.alloc, labels, blank);
        let worked = self.answer_each::<P, L>(&mut notes);
        self.labels = Some(notes.into_labels());
        self.end_noted(worked);
        worked
    }

    /// Where no line is left, how many steps were left out last waits to be told by itself.
    fn end_noted(&mut self, worked: Worked)
        ensures { self.new.clients ≡ self.old.clients }
    {
        if worked == Worked::Idle {
            let len = self.clients.room().len();
            self.steps.put_left_out(len);
        }
    }

    /// Has the room answer lines, and notes the steps of each.
    fn answer_each<P: LastDone<T>, L: Ledger>(&mut self, notes: &mut StepNotes<L>) -> Worked
        ensures { Moved (facts_of T.settled T.refused T.floor T.SLACK) self.old.clients self.new.clients }
    {
        for _ in 0..MOST_ALONE {
            let worked = self.answer_noted::<P, L>(notes);
            if worked != Worked::More {
                return worked;
            }
        }
        Worked::More
    }

    /// Has the room answer a line, and notes the steps of it.
    fn answer_noted<P: LastDone<T>, L: Ledger>(&mut self, notes: &mut StepNotes<L>) -> Worked
        ensures { Moved (facts_of T.settled T.refused T.floor T.SLACK) self.old.clients self.new.clients }
    {
        if let Some(worked) = self.settle() {
            return worked;
        }
        let _shown = self.show();
        let room = self.steps.room();
        notes.begin_within(P::last_done(self.clients.room().replica().timeline()), room);
        let worked = moves::work(&mut self.clients, 1, 0);
        if worked != Worked::More {
            return worked;
        }
        let back = P::last_done(self.clients.room().replica().timeline());
        moves::execute(&mut self.clients, notes);
        let front = P::last_done(self.clients.room().replica().timeline());
        self.note_rows(front, notes.again());
        let len = self.clients.room().len();
        self.keep_noted(len, room > 0, back, notes);
        Worked::More
    }

    /// Makes steps that were left: what the room does then, where it does not go on. A line that waits for them is refused
    /// without memory.
    fn settle(&mut self) -> Option<Worked>
        ensures { Moved (facts_of T.settled T.refused T.floor T.SLACK) self.old.clients self.new.clients }
    {
        if self.clients.room().is_settled() {
            return None;
        }
        if !self.execute() {
            return Some(self.lack());
        }
        if self.clients.room().is_settled() {
            return None;
        }
        Some(Worked::More)
    }

    /// Keeps what was noted of a line, at this length of the log. Where there was no room for it, it is left out.
    fn keep_noted<L: Ledger>(
        &mut self,
        len: u32,
        has_room: bool,
        back: Option<Tag>,
        notes: &mut StepNotes<L>,
    )
        ensures { self.new.clients ≡ self.old.clients }
    {
        let mut text = Vec::new(self.alloc);
        if notes.take(back, &mut text).is_err() {
            self.steps.leave_out(notes.steps());
            return;
        }
        self.steps.keep(len, has_room, text, notes.left_out());
    }

    /// Pushes what was noted, as far as it may be told.
    pub(crate) fn hand_steps(&mut self)
        ensures { Moved (facts_of T.settled T.refused T.floor T.SLACK) self.old.clients self.new.clients }
    {
        for _ in 0..MOST_TIMES {
            let Some(executed) = self.steps.next_within(self.limit) else {
                return;
            };
            self.push_steps(&executed);
        }
    }

    /// Pushes lines of steps. Where there is no memory for them they are left out too.
    fn push_steps(&mut self, executed: &Executed)
        ensures { Moved (facts_of T.settled T.refused T.floor T.SLACK) self.old.clients self.new.clients }
    {
        if let Some(pushing) = self.steps.pushing(executed) {
            self.push_news(&pushing);
        }
    }
}
