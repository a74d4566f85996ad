//! What a host wants of the system.

use warp_service::{Note, PeerAction};
use warp_watch::ClientId;

/// Why a host ends.
#[derive(Clone, Copy, Debug, PartialEq, Eq)]
pub enum Ending {
    /// Its standard input has ended, or its operator stopped it, and all clients are gone or took too long.
    Input,
    /// Its journal can't be written until the end.
    Journal,
}

/// What a host wants. A connection is named by its client.
#[derive(Clone, Copy)]
pub enum Action {
    /// There are bytes to be written to it (`Decides::output`), where there were none before: they are written as far as
    /// the system takes them, and on when it takes more, until there are none.
    Write(ClientId),
    /// Bytes of it are wanted again (`Decides::wants`).
    Hear(ClientId),
    /// It is told nothing more: its way out is to be shut. What comes of it is read and dropped until its end, which is
    /// told (`Decides::ended`).
    End(ClientId),
    /// It is to be closed: nothing is known of it any more.
    Close(ClientId),
    /// What the peer of this number wants. `PeerAction::Tell` does not come here, but as a note.
    Peer(u16, PeerAction),
    /// Whether connections are let in from now on. At first they are.
    Listen(bool),
    /// An operator is to be told this, with what `Decides::named` names for it.
    Tell(Note),
    /// The host has ended.
    Over(Ending),
}
