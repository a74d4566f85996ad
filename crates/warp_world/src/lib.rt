//! Several replicas of one program, and every schedule of what may happen to them.
//!
//! A schedule is a list of moves: a record is made at a replica, an entry of one log is carried to another replica, a
//! replica is collected, settled or restarted. `play` plays one; contracts see the replicas' logs, which are those of
//! `world_after`. `play_text` reads a schedule, plays it, and gives the text of what its replicas then answer.
#![tactic(auto)]

mod convergence;
mod fault;
mod line_law;
mod moves;
mod moves_law;
mod printing;
mod run_law;
mod schedule;
mod schedule_law;
mod world;
mod world_law;

pub use convergence::{releases, replies};
pub use fault::ScheduleFault;
pub use line_law::{line_is_event, lines_are_moves, moves_are_lines};
pub use moves::Move;
pub use moves_law::{equal_sets, released_fronts};
pub use printing::play_text;
pub use run_law::runs_are_short;
pub use schedule::{MAX_REPLICAS, MAX_SCHEDULE, read_schedule};
pub use schedule_law::one_schedule;
pub use world::{World, play};
pub use world_law::{logs_are_made, worlds_grow};
