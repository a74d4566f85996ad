//! What a host decides beside its clients, as machines of events: how much of the log may be told (`Lengths`), how a peer
//! is followed (`Peer`), what an operator is told (`Note`), and when something is due (`Timers`). They have no socket, no
//! thread and no clock: the time is a number of microseconds that is handed in, and what is to be done is handed out.
#![tactic(auto)]

mod action;
mod comparing;
mod contact;
mod laws;
mod lengths;
mod news;
mod notes;
mod peer;
#[cfg(test)]
mod tests;
mod timers;

pub use action::PeerAction;
pub use comparing::{Compared, ToldDigest, read_digest};
pub use contact::{Contact, Due, Way};
pub use laws::{
    calls_move, limit_is_said, limit_only_grows, lines_apart, pauses_hold, places_are_kept,
    silence_is_noticed,
};
pub use lengths::{Lengths, Tells};
pub use news::{NewsOfPeer, PeerNews, RefusedRecords};
pub use notes::{JournalFault, Named, Note, NoteText};
pub use peer::Peer;
pub use timers::Timers;
