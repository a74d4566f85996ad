//! What replicas say to each other, with no thread and no socket: the desk, which answers lines, and the puller,
//! which brings the log of another replica to a desk.
//!
//! `Desk` is the one thing that a session knows of what it serves: a state, the form of the program in it, and a
//! relation that says which reply a line may get in it and which state that leaves; several lines are answered one
//! after another in one call. `Puller` puts to a desk only records that the other replica replied.
#![tactic(auto)]

mod desk;
mod puller;

pub use desk::{Desk, MOST_LINES};
pub use puller::{Pulled, Puller, is_passing};
