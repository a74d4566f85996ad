//! The engine for a process that gives bytes and takes bytes: a browser's tab, or whoever calls it as a library.
//!
//! Its state is a `Local`: a replica without peers. `open` makes one from the text of a program, whose `fingerprint` tells
//! which it is; `answer` gives the replies to lines; `vars`, `horizon` and `released` tell what the run over all its
//! records came to, as values and not as text; `fork` gives a second replica with the same log. Each says what it does by
//! the replica's program and records alone. Here is no handle, no file and no socket, and nothing is kept from call to
//! call but the replica.
#![tactic(auto)]

mod answering;
mod forking;
mod lines;
mod opening;
mod telling;

pub use answering::{AnswerFault, LONGEST, answer};
pub use forking::fork;
pub use opening::{fingerprint, open};
pub use telling::{horizon, released, vars};
