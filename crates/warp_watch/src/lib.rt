//! What watchers of a replica are told: pages of its log and of the released outputs that were shown, all variables,
//! the horizon, the broken origins.
//!
//! `tell` spells the answer to a `Question` of a settled replica, in whole lines. `Shown` has the released outputs that
//! were shown: they only grow, until one of them is taken back; then they are frozen.
#![tactic(auto)]

mod client_id;
mod lines;
mod question;
mod shown;
mod telling;
mod words;

pub use client_id::ClientId;
pub use question::{PAGE, Question, Told};
pub use shown::Shown;
pub use telling::tell;
