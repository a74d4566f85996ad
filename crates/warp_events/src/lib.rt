//! What comes to a host and what it wants: the words between the machine that decides all (`warp_machine`) and the shell that has
//! sockets, files, threads and a clock (`warp_host`). So each is proved, and changed, without the other.
#![tactic(auto)]

mod action;
mod decides;
mod operating;
mod seen;

pub use action::{Action, Ending};
pub use decides::Decides;
pub use operating::{BadTokens, Operated, OperatorAnswer, Status, TokenWhy, Undone};
pub use seen::JournalSeen;
pub use warp_service::{Named, Note, NoteText, PeerAction};
pub use warp_watch::ClientId;
