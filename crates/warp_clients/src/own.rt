//! What the host says itself by its room: that tags are closed, and inputs with the tags that it gave them.
ghost use Rattle.std.specs.Prelude.{◌≡◌, ◌+◌, min, IfErr, OnOk};
ghost use Rattle.warp_replica.specs.Answered.{facts_of};
ghost use Rattle.warp_room.specs.Own.{ClosesFirst, EndsSending, StopsClosing};
ghost use Rattle.warp_step.specs.Program.{top_of};
ghost use Rattle.warp_clients.specs.Steps.{SomeRun};

use crate::clients::Clients;
use warp_line::Timeline;
use warp_record::Refusal;
use warp_room::{Input, Sent, Unsent};
use warp_tag::Tag;

impl<T: Timeline> Clients<T> {
    /// Closes the tags before this one of all origins that the room keeps (`Room::close`).
    pub fn close(&mut self, tag: Tag) -> Result<(), Refusal>
        ensures closed { OnOk result (ClosesFirst (facts_of T.settled T.refused T.floor T.SLACK) tag
            self.old.room.replica.program.origins self.old.room self.new.room) }
        ensures err { IfErr result (λ refusal.
            StopsClosing (facts_of T.settled T.refused T.floor T.SLACK) tag refusal self.old.room self.new.room) }
        ensures crowd { self.new.crowd ≡ self.old.crowd }
        ensures run { SomeRun (facts_of T.settled T.refused T.floor T.SLACK) self.old self.new }
    {
        self.room.close(self.alloc, tag)
    }

    /// Takes an input of an origin that the room keeps, at the tag that it gives it (`Room::send`).
    pub fn send(&mut self, input: Input, asked: Tag, most: u32) -> Result<Sent, Unsent>
        ensures sent { EndsSending (facts_of T.settled T.refused T.floor T.SLACK)
            (min most (top_of self.old.room.replica.program + 1)) input asked result self.old.room self.new.room }
        ensures crowd { self.new.crowd ≡ self.old.crowd }
        ensures run { SomeRun (facts_of T.settled T.refused T.floor T.SLACK) self.old self.new }
    {
        self.room.send(self.alloc, input, asked, most)
    }
}
