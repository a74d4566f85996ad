//! Rollback: the timeline that executes at once what it has, and goes back when a change comes late.
//!
//! `Warp` meets `Timeline` with a slack of 16. It stands on an arena of names. What is executed is a `Tip` of the
//! run: its state, its outputs, and checkpoints, one at its base and one at most sixteen rows after each. The base is
//! before the first row, until the timeline collects. A change of the live events at a tag that is executed already
//! goes back to the newest checkpoint before that tag, and sets those after it aside (Jefferson 1985). Where the run
//! comes to the tag of one of these in the same state, it can go on over them, with no row executed.
//!
//! To collect (fossil collection) moves the base up to the last state before a tag that is at hand: the present one or
//! a checkpoint. The names through the base's last tag, the floor, are freed, since no change comes there any more.
#![tactic(auto)]

mod aside;
mod changes;
mod copies;
mod history;
mod lists;
mod skips;
mod stack;
mod tip;
mod walk;
mod warp;

pub use warp::Warp;
