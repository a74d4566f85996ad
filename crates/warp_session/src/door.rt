//! Who comes to be served, and who looks on.
ghost use Rattle.std.specs.Prelude.{◌≡◌};

use crate::pulling::PullEnd;
use crate::stream::{Sink, Source};
use std::alloc::AllocError;
use std::time::Duration;
use thiserror::Error;

/// The next session could not be had: accepting failed.
#[derive(Clone, Copy, Debug, PartialEq, Eq)]
pub struct DoorFault;

/// Gives the connections that come to be served, and hears how pulls ended.
pub trait Door {
    ghost use Rattle.std.specs.Prelude.{◌≡◌, ℕ, List, None, Option};
    ghost use Rattle.warp_session.specs.Told.{told_more};
    ghost use Rattle.warp_session.specs.declared.pulling.PullEnd.{PullEnd};

    /// The peers of whose pulls it heard, and how these ended, in order; `None` where the door doesn't tell.
    ghost told: { Self → Option (List (ℕ × PullEnd)) } = { λ _. None };

    /// What a session, or a peer, is read from.
    type R: Source + Send + Drop;

    /// What its replies, or its questions, are written to.
    type W: Sink + Send + Drop;

    /// Waits for the next session.
    fn next(&mut self) -> Result<(Self::R, Self::W), DoorFault>
        ensures { told self.new ≡ told self.old };

    /// Hears how the pull from a peer ended, when all sessions and all pulls have: once for each peer that was pulled
    /// from, in their order.
    fn pull_ended(&mut self, peer: u32, end: PullEnd)
        ensures { told self.new ≡ told_more peer end (told self.old) };
}

/// Is called round each line that a session asks its desk. Sessions are numbered from 0, and in each its asks, which
/// stay at the greatest number once they are there.
pub trait Gate {
    /// A line comes to the desk.
    fn before_ask(&self, session: u32, n: u64);

    /// The desk has replied.
    fn after_reply(&self, session: u32, n: u64);

    /// Whether both do nothing. Then they need not be called, and lines that come together are asked together.
    fn is_open(&self) -> bool {
        false
    }
}

/// A gate that does nothing.
#[derive(Clone, Copy, Debug, Drop)]
pub struct Open;

impl Gate for Open {
    fn before_ask(&self, _session: u32, _n: u64) {}

    fn after_reply(&self, _session: u32, _n: u64) {}

    fn is_open(&self) -> bool {
        true
    }
}

/// A connection to another server, whose log is pulled.
#[derive(Drop)]
pub struct Peer<R, W> {
    /// Its number, from 0.
    pub number: u32,
    /// Where its replies come from.
    pub source: R,
    /// Where questions to it go.
    pub sink: W,
    /// So many replies in a row that its log has no more end the pull.
    pub quiet: u32,
    /// The sleep behind such a reply.
    pub pause: Duration,
}

/// Why sessions were not all served.
#[derive(Clone, Copy, Debug, PartialEq, Eq, Error)]
pub enum ServeFault {
    /// The door failed, or a thread could not be started. Sessions before it were served to their end.
    #[error("a session could not be had")]
    Accept,
    /// No memory was to be had; no session was served.
    #[error("out of memory")]
    NoMemory,
}

impl From<AllocError> for ServeFault {
    fn from(_refused: AllocError) -> ServeFault
        ensures { result ≡ ServeFault.NoMemory }
    {
        ServeFault::NoMemory
    }
}
