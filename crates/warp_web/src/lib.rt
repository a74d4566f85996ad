//! The bytes of a connection, and what it says by them: lines, HTTP and WebSocket, with no socket and no clock.
#![tactic(auto)]

mod bounds;
mod cutter;
mod framed;
mod gone;
mod kept;
mod lines;
mod requests;
#[cfg(test)]
mod tests;
mod unanswered;
mod web;
mod wire;

pub use gone::Gone;
pub use lines::Lines;
pub use requests::{Answers, Http};
pub use web::Web;
pub use wire::{Kind, Said, Spoken, Wire, spoken_from};
