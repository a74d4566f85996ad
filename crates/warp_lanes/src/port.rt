//! The end of a lane in a thread that sends lines.
ghost use Rattle.std.specs.Prelude.{◌≡◌, ◌+◌, ◌≤◌, ◌<◌, ◌++◌, [], ◌∷◌, IfSome, IfNone, IfErr, IsOk, OnErr, OnOk};
ghost use Rattle.std.specs.Prelude.{length};
ghost use Rattle.warp_lanes.specs.Lanes.{IsAnswer, IsFull, end_of_port, most_missing, places};

use crate::answer::AnswerRule;
use rtrb::{Consumer, Finished, Producer, PushError};
use std::alloc::Global;
use std::marker::Model;
use warp_record::Line;
use warp_replica::Answer;

/// How many answers may be missing: as many as both rings have places for.
const MOST_MISSING: u8 = 128;

/// Sends lines, and fetches their answers. It never waits.
#[derive(Drop)]
pub struct Port {
    pub(crate) commands: Producer<Line, Global>,
    pub(crate) answers: Consumer<Answer, Global, AnswerRule>,
    pub(crate) missing: u8,
}

impl Model for Port {
    ghost use Rattle.std.specs.Prelude.{◌≡◌, ◌+◌, ◌≤◌, length};
    ghost use Rattle.rtrb.specs.Ring.{known_free, sent, received};
    ghost use Rattle.warp_lanes.specs.Lanes.{PortState, most_missing, places};

    ghost Value = { PortState };

    ghost view = { λ p.
        record {
          lane = (
            record { words = p.commands.end.words; slots = p.commands.end.slots; names = p.commands.end.names },
            record { words = p.answers.end.words; slots = p.answers.end.slots; names = p.answers.end.names },
          );
          sent = sent p.commands;
          fetched = received p.answers;
          free = known_free p.commands;
        } };

    ghost invariant = { λ p.
        (length (sent p.commands) ≡ length (received p.answers) + p.missing)
        × (p.missing ≤ most_missing)
        × (places ≤ known_free p.commands + length (sent p.commands)) };
}

impl Port {
    /// Sends a line; or gives it back, and nothing changes, where the ring of commands is found full or 128 answers are
    /// missing. Where a place is known to be free, and so of the first 64 lines, none comes back for a full ring.
    pub fn send(&mut self, line: Line) -> Result<(), Line>
        ensures ok { OnOk result
            (self.new ≡ record self.old { sent = self.old.sent ++ «line» ∷ []; free = self.new.free }) }
        ensures free { OnOk result (self.old.free ≤ self.new.free + 1) }
        ensures err { IfErr result (λ back. (back ≡ «line») × (self.new ≡ self.old)) }
        ensures full { OnErr result (IsFull self.old) }
        ensures first { length self.old.sent < places → IsOk result }
    {
        if self.missing == MOST_MISSING {
            return Err(line);
        }
        match self.commands.push(line) {
            Ok(()) => {
                self.missing += 1;
                Ok(())
            }
            Err(PushError::Full(back)) => Err(back),
        }
    }

    /// The next answer, if one is missing and one is found, which no clause promises. That it is that of the first line
    /// whose answer was not fetched is known once the lane is drained with the port's end.
    pub fn reply(&mut self) -> Option<Answer>
        ensures some { IfSome result
            (λ answer. IsAnswer answer × (self.new ≡ record self.old { fetched = self.old.fetched ++ answer ∷ [] })
            × (length self.old.fetched < length self.old.sent)) }
        ensures none { IfNone result (self.new ≡ self.old) }
    {
        if self.missing == 0 {
            return None;
        }
        match self.answers.pop() {
            Ok(answer) => {
                self.missing -= 1;
                Some(answer)
            }
            Err(_) => None,
        }
    }

    /// How many answers are missing, at most 128.
    pub fn waiting(&self) -> usize
        ensures count { length self.now.sent ≡ length self.now.fetched + result }
        ensures most { result ≤ most_missing }
    {
        usize::from(self.missing)
    }

    /// Ends the port, and gives what its lane may be drained with; `None` where the other end was dropped before, as
    /// far as tests show.
    pub fn finish(self) -> Option<PortEnd>
        ensures { IfSome result (λ end. end ≡ end_of_port self) }
    {
        let Port {
            commands,
            answers,
            missing,
        } = self;
        let commands = commands.finish()?;
        Some(PortEnd {
            commands,
            answers,
            missing,
        })
    }
}

/// A port that has ended: nothing more is sent through it.
#[derive(Drop)]
pub struct PortEnd {
    pub(crate) commands: Finished<Line, Global>,
    pub(crate) answers: Consumer<Answer, Global, AnswerRule>,
    pub(crate) missing: u8,
}

impl Model for PortEnd {
    ghost use Rattle.std.specs.Prelude.{◌≡◌, ◌+◌, ◌≤◌, length};
    ghost use Rattle.rtrb.specs.Ring.{all_sent, received};
    ghost use Rattle.warp_lanes.specs.Lanes.{PortEndState, most_missing};

    ghost Value = { PortEndState };

    ghost view = { λ p.
        record {
          lane = (
            record { words = p.commands.end.words; slots = p.commands.end.slots; names = p.commands.end.names },
            record { words = p.answers.end.words; slots = p.answers.end.slots; names = p.answers.end.names },
          );
          sent = all_sent p.commands;
          fetched = received p.answers;
        } };

    ghost invariant = { λ p.
        (length (all_sent p.commands) ≡ length (received p.answers) + p.missing) × (p.missing ≤ most_missing) };
}
