//! What a peer wants of the system.

use crate::news::PeerNews;

/// What a peer wants. A connection is named by its number: of those of one peer no two that follow each other are the same.
#[derive(Clone, Copy, Debug, PartialEq, Eq)]
pub enum PeerAction {
    /// This connection is to be closed: nothing more is heard of it.
    Close(u64),
    /// Its operator is to be told this, in whose favour so many lines were left out.
    Tell(PeerNews, u64),
    /// Its address is to be found, by its name. What comes of that is told by `Peer::found`.
    Seek,
    /// A connection of this number is to be made to the address that was found. What comes of that is told by
    /// `Peer::connected` or `Peer::ended`.
    Connect(u64),
    /// There is something to be sent by this connection (`Peer::output`).
    Send(u64),
    /// Bytes of this connection are wanted (`Peer::bytes`), 16,384 at most.
    Hear(u64),
}
