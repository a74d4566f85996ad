//! Sessions: lines come in as bytes, from anywhere, and their replies go out as bytes; one alone, or many at once.
//!
//! A session knows neither who answers its lines, a desk, nor where bytes come from and go to, a `Source` and a
//! `Sink`. Many at once have one replica, in a thread of its own. There is no file here, no socket, and no command
//! line.
#![tactic(auto)]

mod batch;
mod desk_session;
mod door;
mod executor;
mod gated;
mod inbox;
mod local_session;
mod patience;
mod port_desk;
mod pulling;
mod serving;
mod stream;
#[cfg(test)]
mod tests;

pub use desk_session::{SessionEnd, session};
pub use door::{Door, DoorFault, Gate, Open, Peer, ServeFault};
pub use local_session::run_session;
pub use port_desk::PortDesk;
pub use pulling::{PullEnd, pull};
pub use serving::serve_sessions;
pub use stream::{Counted, Failed, Sink, Source, Stream, write_all};
