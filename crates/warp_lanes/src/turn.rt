//! How a turn or a visit of an engine ended.

/// How a turn at a lane, or a visit of it, ended.
#[derive(Clone, Copy, Debug, PartialEq, Eq)]
pub enum Turn {
    /// One command was received, and its answer sent; by a visit one or more.
    Served,
    /// No command was found.
    Empty,
    /// There is no place for an answer; no command was received.
    Stalled,
}
