//! A lane is made with its port.
ghost use Rattle.std.specs.Prelude.{◌≡◌, [], IfOk};
ghost use Rattle.warp_lanes.specs.Lanes.{places};

use crate::answer::AnswerRule;
use crate::executor_end::Lane;
use crate::port::Port;
use rtrb::RingBuffer;
use std::alloc::Global;
use warp_tag::OutOfMemory;

/// How many commands, and how many answers, a lane has places for.
pub(crate) const LANE_PLACES: usize = 64;

/// A new lane: the end for a thread that sends lines, and the end for the one that answers them. `Err` only for want of
/// memory.
pub fn lane(alloc: Global) -> Result<(Port, Lane), OutOfMemory>
    ensures port { IfOk result (λ ends. (ends.0.sent ≡ []) × (ends.0.fetched ≡ []) × (ends.0.free ≡ places)) }
    ensures lane { IfOk result (λ ends. ends.1
        ≡ record { lane = ends.0.lane; commands = []; answers = []; free = places }) }
{
    let (commands_in, commands_out) = RingBuffer::new(alloc, LANE_PLACES)?;
    let (answers_in, answers_out) = RingBuffer::with_protocol::<Global, AnswerRule>(
        alloc,
        LANE_PLACES,
    )?;
    let port = Port {
        commands: commands_in,
        answers: answers_out,
        missing: 0,
    };
    let lane = Lane {
        commands: commands_out,
        answers: answers_in,
        last: Vec::new(alloc),
    };
    Ok((port, lane))
}
