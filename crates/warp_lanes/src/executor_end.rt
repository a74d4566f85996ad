//! The end of a lane in the thread of the executor, which answers what its port sends.

use crate::answer::AnswerRule;
use rtrb::{Consumer, Producer};
use std::alloc::Global;
use std::marker::Model;
use warp_record::Line;
use warp_replica::Answer;

/// Where a port's lines come out, and their answers go in.
#[derive(Drop)]
pub struct Lane {
    pub(crate) commands: Consumer<Line, Global>,
    pub(crate) answers: Producer<Answer, Global, AnswerRule>,
    // Copies of the answers that were made when the lane was drained: nobody fetches them.
    pub(crate) last: Vec<Answer>,
}

impl Model for Lane {
    ghost use Rattle.std.specs.Prelude.{◌+◌, ◌≤◌, ◌++◌, length};
    ghost use Rattle.rtrb.specs.Ring.{known_free, sent, received};
    ghost use Rattle.warp_lanes.specs.Lanes.{LaneState, places};

    ghost Value = { LaneState };

    ghost view = { λ l.
        record {
          lane = (
            record { words = l.commands.end.words; slots = l.commands.end.slots; names = l.commands.end.names },
            record { words = l.answers.end.words; slots = l.answers.end.slots; names = l.answers.end.names },
          );
          commands = received l.commands;
          answers = sent l.answers ++ l.last.items;
          free = known_free l.answers;
        } };

    ghost invariant = { λ l. places ≤ known_free l.answers + length (sent l.answers) };
}
