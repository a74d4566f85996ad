//! The sockets of clients and of peers, and those that are to be looked at.
//!
//! Peers have the first places, by their numbers, and clients those behind them, by their keys. A socket's token is its place.
ghost use Rattle.std.specs.Prelude.{◌≡◌, IfSome};
ghost use Rattle.warp_host.specs.Seats.{place_of};

use crate::socket::{Gone, Socket};
use mio::event::Event;
use mio::net::TcpStream;
use mio::{Interest, Poll, Token};
use std::alloc::{AllocError, Global};
use std::collections::VecDeque;
use warp_events::ClientId;

/// Whose socket it is.
#[derive(Clone, Copy, PartialEq, Eq)]
pub(crate) enum Whose {
    /// A client's.
    Client(ClientId),
    /// The connection to this peer that has this number.
    Peer(u16, u64),
}

/// How it stands with a connection that was begun.
#[derive(Clone, Copy)]
pub(crate) enum Standing {
    /// There is none, or it is being made.
    Away,
    /// It is there since now.
    Made,
    /// It is there.
    Here,
    /// It could not be made, or failed.
    Failed,
}

/// A socket in its place.
#[derive(Drop)]
struct Seat {
    whose: Whose,
    socket: Socket,
    /// There are bytes to be written, which the system did not take yet.
    is_writing: bool,
    /// It is known to be there, and not only begun.
    is_made: bool,
    /// It stands among those that are to be looked at.
    is_queued: bool,
}

impl Seat {
    /// Whether there is something to look at: a client that may be read, or written where that is wanted, and any peer.
    fn may_go_on(&self) -> bool {
        match self.whose {
            Whose::Client(_) => {
                self.socket.may_read() || (self.is_writing && self.socket.may_write())
            }
            Whose::Peer(_, _) => true,
        }
    }
}

/// The sockets of clients and of peers.
#[derive(Drop)]
pub(crate) struct Sockets {
    seats: Vec<Option<Seat>>,
    /// So many places are of peers.
    peers: u16,
    /// The places of those that are to be looked at, each once.
    queue: VecDeque<usize>,
}

impl Sockets {
    /// Nobody is there, and so many peers may be.
    pub(crate) fn new(alloc: Global, peers: u16) -> Sockets {
        Sockets {
            seats: Vec::new(alloc),
            peers,
            queue: VecDeque::new(alloc),
        }
    }

    /// The place for this socket.
    fn place(&self, whose: Whose) -> usize
        ensures { result ≡ place_of self.now.peers whose }
    {
        match whose {
            Whose::Client(who) => (self.peers as usize).saturating_add(who.key as usize),
            Whose::Peer(peer, _) => peer as usize,
        }
    }

    /// Takes the room for what is in this place.
    fn reserve(&mut self, at: usize) -> Result<(), AllocError> {
        for _ in self.seats.len()..at.saturating_add(1) {
            self.seats.push(None)?;
        }
        let free = self.seats.len().saturating_sub(self.queue.len());
        self.queue.reserve(free)
    }

    /// Puts this connection into its place, from where its events are told and it is looked at soon. `Err` where there is no
    /// memory for it, or the system tells no events of it.
    pub(crate) fn put(
        &mut self,
        poll: &Poll,
        whose: Whose,
        mut stream: TcpStream,
    ) -> Result<(), Gone> {
        let at = self.place(whose);
        if self.reserve(at).is_err() || at >= self.seats.len() {
            return Err(Gone);
        }
        let both = Interest::READABLE | Interest::WRITABLE;
        if poll
            .registry()
            .register(&mut stream, Token(at), both)
            .is_err()
        {
            return Err(Gone);
        }
        self.seats[at] = Some(Seat {
            whose,
            socket: Socket::new(stream),
            is_writing: false,
            is_made: false,
            is_queued: false,
        });
        Ok(())
    }

    /// What is in this place, if anything is.
    fn at(&mut self, at: usize) -> Option<&mut Seat> {
        self.seats.get_mut(at)?.as_mut()
    }

    /// This one's seat, if it is there.
    fn of(&mut self, whose: Whose) -> Option<&mut Seat>
        ensures { IfSome result (λ seat. seat.now.whose ≡ whose) }
    {
        let at = self.place(whose);
        let seat = self.at(at)?;
        if seat.whose == whose {
            Some(seat)
        } else {
            None
        }
    }

    /// Whether there are bytes to be written by it, which the system did not take yet.
    pub(crate) fn is_writing(&mut self, whose: Whose) -> bool {
        match self.of(whose) {
            Some(seat) => seat.is_writing,
            None => false,
        }
    }

    /// Whether there may be bytes of it to read, or their end.
    pub(crate) fn may_read(&mut self, whose: Whose) -> bool {
        match self.of(whose) {
            Some(seat) => seat.socket.may_read(),
            None => false,
        }
    }

    /// Whether the end of what comes of it was read.
    pub(crate) fn is_at_end(&mut self, whose: Whose) -> bool {
        match self.of(whose) {
            Some(seat) => seat.socket.is_at_end(),
            None => false,
        }
    }

    /// How it stands with the connection, which was begun here.
    pub(crate) fn look(&mut self, whose: Whose) -> Standing {
        let Some(seat) = self.of(whose) else {
            return Standing::Away;
        };
        match seat.socket.is_made() {
            Ok(false) => Standing::Away,
            Ok(true) if seat.is_made => Standing::Here,
            Ok(true) => {
                seat.is_made = true;
                Standing::Made
            }
            Err(Gone) => Standing::Failed,
        }
    }

    /// Reads once of it: how many bytes.
    pub(crate) fn read(&mut self, whose: Whose, buffer: &mut [u8]) -> Result<usize, Gone> {
        match self.of(whose) {
            Some(seat) => seat.socket.read(buffer),
            None => Ok(0),
        }
    }

    /// Writes once of what is to be written by it: how many bytes the system took.
    pub(crate) fn write(&mut self, whose: Whose, bytes: &[u8]) -> Result<usize, Gone> {
        let Some(seat) = self.of(whose) else {
            return Ok(0);
        };
        seat.is_writing = !bytes.is_empty();
        seat.socket.write(bytes)
    }

    /// Says to the other end that nothing more is written.
    pub(crate) fn end_writing(&mut self, whose: Whose) {
        if let Some(seat) = self.of(whose) {
            seat.socket.end_writing();
        }
    }

    /// Notes an event at the socket in this place.
    pub(crate) fn note(&mut self, at: usize, event: &Event) {
        let Some(seat) = self.at(at) else {
            return;
        };
        seat.socket.note(event);
        let whose = seat.whose;
        self.enqueue(whose);
    }

    /// It is looked at soon, if there is something to look at.
    pub(crate) fn enqueue(&mut self, whose: Whose) {
        let at = self.place(whose);
        let Some(seat) = self.of(whose) else {
            return;
        };
        if seat.is_queued || !seat.may_go_on() {
            return;
        }
        seat.is_queued = true;
        // There is room: it was taken with the seat.
        let _ = self.queue.push_back(at);
    }

    /// It is looked at soon, if the system takes more of what is to be written. A client that takes no more is not served
    /// for what it said, which is not wanted yet.
    pub(crate) fn enqueue_writing(&mut self, whose: Whose) {
        let Some(seat) = self.of(whose) else {
            return;
        };
        if seat.is_writing && seat.socket.may_write() {
            self.enqueue(whose);
        }
    }

    /// How many are to be looked at.
    pub(crate) fn queued(&self) -> usize {
        self.queue.len()
    }

    /// The next that is to be looked at.
    pub(crate) fn next(&mut self) -> Option<Whose> {
        let at = self.queue.pop_front()?;
        let seat = self.at(at)?;
        seat.is_queued = false;
        Some(seat.whose)
    }

    /// The connection is closed.
    pub(crate) fn close(&mut self, whose: Whose) {
        if self.of(whose).is_none() {
            return;
        }
        let at = self.place(whose);
        if let Some(seat) = self.seats.get_mut(at) {
            *seat = None;
        }
    }

    /// All connections to peers are closed.
    pub(crate) fn close_peers(&mut self) {
        for at in 0..(self.peers as usize).min(self.seats.len()) {
            self.seats[at] = None;
        }
    }
}
