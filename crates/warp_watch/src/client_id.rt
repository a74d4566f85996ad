//! Whose a line is, and who is told.

/// A client, by its place and that place's use: no two clients of a host's life are the same.
#[derive(Clone, Copy, Debug, PartialEq, Eq)]
pub struct ClientId {
    /// Which place it has, from 0: no two clients that are there at a time have the same.
    pub key: u32,
    /// The so-manieth use of that place, from 0.
    pub round: u64,
}
