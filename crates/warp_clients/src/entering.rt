//! Clients that come with rights, and work in parts.
ghost use Rattle.std.specs.Prelude.{◌≡◌, ◌≤◌, ◌⊎◌, IfErr, IfOk, List, OnErr, OnOk, length};
ghost use Rattle.warp_replica.specs.Answered.{facts_of};
ghost use Rattle.warp_replica.specs.Answers.{Answers, AreAnswers};
ghost use Rattle.warp_room.specs.Steps.{Executed, ServeEach};
ghost use Rattle.warp_room.specs.declared.answers.AnsweredLine.{AnsweredLine};
ghost use Rattle.warp_table.specs.Records.{set_of};
ghost use Rattle.warp_watch.specs.Shown.{Shows};
ghost use Rattle.warp_watch.specs.Telling.{Tells};
ghost use Rattle.warp_clients.specs.Crowd.{Becomes, IsAway};
ghost use Rattle.warp_clients.specs.Entering.{HasRights};
ghost use Rattle.warp_clients.specs.Steps.{SomeRun, StepDoes};
ghost use Rattle.warp_clients.specs.Steps as steps;

use crate::client::Client;
use crate::clients::{Clients, Refused};
use crate::crowd::Crowd;
use crate::places::Places;
use warp_hub::Rights;
use warp_line::Timeline;
use warp_room::{OutOfMemory, Progress, Untold, Worked};
use warp_step::Meter;
use warp_watch::{ClientId, Question, Told};

impl Client {
    /// It has these rights from now on.
    fn give(&mut self, rights: Rights)
        ensures { HasRights rights self.old self.new }
    {
        self.rights = rights;
    }
}

impl Places {
    /// The client has these rights from now on.
    fn give(&mut self, who: ClientId, rights: Rights)
        ensures { Becomes who (HasRights rights) self.old self.new ⊎ (IsAway who self.old × (self.new ≡ self.old)) }
    {
        let at = who.key as usize;
        if at >= self.clients.len() || !self.clients[at].is_me(who) {
            return;
        }
        self.clients[at].give(rights);
    }
}

impl Crowd {
    /// A client that has just come has these rights from now on.
    fn give(&mut self, who: ClientId, rights: Rights)
        ensures places { Becomes who (HasRights rights) self.old.clients self.new.clients
            ⊎ (IsAway who self.old.clients × (self.new.clients ≡ self.old.clients)) }
        ensures common { self.new.common ≡ self.old.common }
    {
        self.places.give(who, rights);
    }
}

impl<T: Timeline> Clients<T> {
    /// A client has come that has these rights from the start, whatever may be sent without a token. `Err` says that there
    /// are as many as may be, or that no memory was to be had.
    pub fn come_as(&mut self, rights: Rights) -> Result<ClientId, Refused>
        ensures ok { IfOk result (λ who. StepDoes (facts_of T.settled T.refused T.floor T.SLACK) (steps.Enters who rights)
            self.old self.new) }
        ensures err { OnErr result ((self.new ≡ self.old) ⊎ ((who : ClientId) ×
            StepDoes (facts_of T.settled T.refused T.floor T.SLACK) (steps.Turned who) self.old self.new)) }
    {
        let who = self.come()?;
        self.give(who, rights);
        Ok(who)
    }

    /// A client that has just come has these rights from now on.
    fn give(&mut self, who: ClientId, rights: Rights)
        ensures room { self.new.room ≡ self.old.room }
        ensures places { Becomes who (HasRights rights) self.old.crowd.clients self.new.crowd.clients
            ⊎ (IsAway who self.old.crowd.clients × (self.new.crowd.clients ≡ self.old.crowd.clients)) }
        ensures common { self.new.crowd.common ≡ self.old.crowd.common }
    {
        self.crowd.give(who, rights);
    }

    /// Answers at most so many lines that need no execution, and executes nothing (`Room::answer_some`).
    pub fn answer_some(&mut self, most_lines: u32) -> Worked
        ensures room { (served : List AnsweredLine) × (length served ≤ most_lines)
            × ServeEach (facts_of T.settled T.refused T.floor T.SLACK) served self.old.room self.new.room }
        ensures crowd { self.new.crowd ≡ self.old.crowd }
        ensures run { SomeRun (facts_of T.settled T.refused T.floor T.SLACK) self.old self.new }
    {
        self.room.answer_some(self.alloc, most_lines)
    }

    /// Executes what is not done, by at most so many steps, which this meter counts.
    pub fn execute<M: Meter>(
        &mut self,
        most_steps: u64,
        meter: &mut M,
    ) -> Result<Progress, OutOfMemory>
        ensures { StepDoes (facts_of T.settled T.refused T.floor T.SLACK) (steps.Works Executed) self.old self.new }
    {
        self.room.execute(self.alloc, most_steps, meter)
    }

    /// Shows what is released, where all is executed (`Room::show`).
    pub fn show_released(&mut self) -> Result<(), Untold>
        ensures shows { OnOk result ((a : Answers) →
            AreAnswers self.old.room.replica.program (set_of self.old.room.replica.records) a →
            Shows a.released self.old.room.shown self.new.room.shown) }
        ensures step { StepDoes (facts_of T.settled T.refused T.floor T.SLACK) (steps.Works Executed) self.old self.new }
    {
        self.room.show()
    }

    /// Tells what is asked for who watches, where all is executed (`Room::tell`).
    pub fn tell(&mut self, question: Question) -> Result<Told, Untold>
        ensures told { IfOk result (λ told. Tells self.old.room.replica.program self.old.room.replica.records
            self.new.room.shown question told) }
        ensures step { StepDoes (facts_of T.settled T.refused T.floor T.SLACK) (steps.Works Executed) self.old self.new }
    {
        self.room.tell(self.alloc, question)
    }
}
