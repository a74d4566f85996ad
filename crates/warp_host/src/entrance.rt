//! Where connections come in.

use mio::net::{TcpListener, TcpStream};
use mio::{Poll, Registry};
use std::io::{self, ErrorKind};

/// The system's numbers for no descriptor left, of the process and of the machine.
const NO_DESCRIPTOR: i32 = 24;

const NO_DESCRIPTOR_AT_ALL: i32 = 23;

/// What came of looking for a connection.
#[derive(Drop)]
pub(crate) enum Arrival {
    /// A connection.
    Here(TcpStream),
    /// It broke off, or was refused for want of a descriptor: the next may come.
    Lost,
    /// There is none now.
    Nobody,
}

/// The listener, and a spare descriptor, a second one of the worker's events: it is let go of to refuse who comes when
/// there is no other.
#[derive(Drop)]
pub(crate) struct Entrance {
    listener: TcpListener,
    spare: Option<Registry>,
    /// Connections may be waiting.
    pub(crate) may_accept: bool,
    /// Connections wait that could not even be refused: they are looked for again later.
    is_stuck: bool,
    /// How many were refused for want of descriptors.
    pub(crate) undescribed: u64,
}

/// Whether the error says that there is no descriptor left.
fn lacks_descriptor(error: &io::Error) -> bool {
    match error.raw_os_error() {
        Some(code) => code == NO_DESCRIPTOR || code == NO_DESCRIPTOR_AT_ALL,
        None => false,
    }
}

impl Entrance {
    /// The entrance at this listener.
    pub(crate) fn new(poll: &Poll, listener: TcpListener) -> Entrance {
        Entrance {
            listener,
            spare: poll.registry().try_clone().ok(),
            may_accept: true,
            is_stuck: false,
            undescribed: 0,
        }
    }

    /// Looks again for connections that could not even be refused.
    pub(crate) fn try_again(&mut self) {
        self.may_accept |= self.is_stuck;
        self.is_stuck = false;
    }

    /// Looks for the next connection, where one may be waiting.
    pub(crate) fn next(&mut self, poll: &Poll) -> Arrival {
        if !self.may_accept {
            return Arrival::Nobody;
        }
        match self.listener.accept() {
            Ok((stream, _)) => Arrival::Here(stream),
            Err(error) if error.kind() == ErrorKind::WouldBlock => {
                self.may_accept = false;
                Arrival::Nobody
            }
            Err(error) if lacks_descriptor(&error) => self.refuse_one(poll),
            Err(_) => Arrival::Lost,
        }
    }

    /// Refuses the next connection with the spare descriptor.
    fn refuse_one(&mut self, poll: &Poll) -> Arrival {
        if self.spare.take().is_none() {
            self.spare = poll.registry().try_clone().ok();
            self.may_accept = false;
            self.is_stuck = true;
            return Arrival::Nobody;
        }
        let was_there = self.listener.accept().is_ok();
        self.spare = poll.registry().try_clone().ok();
        if was_there {
            self.undescribed = self.undescribed.saturating_add(1);
        } else {
            self.may_accept = false;
            self.is_stuck = true;
        }
        Arrival::Lost
    }
}
