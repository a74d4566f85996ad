//! Lanes: one thread's lines to a replica that another thread holds, and the answers back, through two rings of 64
//! places.
//!
//! A `Port` sends lines and fetches their answers; a `Lane` is the other end, and an `Engine` serves it. None waits for
//! another: where a ring has no place or no item, the call says so. What a port knows it knows of itself: what it sent,
//! and what it fetched. What an engine received and sent on all its lanes is a linear history of its replica's program
//! and log.
#![tactic(auto)]

mod answer;
mod draining;
mod engine;
mod executor_end;
mod law;
mod making;
mod port;
mod publish;
mod sending;
mod settling;
#[cfg(test)]
mod tests;
mod turn;
mod visiting;

pub use answer::AnswerRule;
pub use engine::Engine;
pub use executor_end::Lane;
pub use law::taken_is_there;
pub use making::lane;
pub use port::{Port, PortEnd};
pub use publish::Published;
pub use sending::may_be_sent;
pub use settling::Settler;
pub use turn::Turn;
pub use warp_replica::Answer;
