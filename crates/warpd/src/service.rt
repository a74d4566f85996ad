//! Serving sessions over TCP.

ghost use Rattle.std.specs.Prelude.{◌≡◌, ◌⊎◌, ◌↔◌, ◌+◌, ◌<◌, ◌≤◌, ℕ, IfErr, IfOk, IsTrue, MatchBool, length, vec_len};
ghost use Rattle.warp_lanes.specs.Engine.{most_lanes};
ghost use Rattle.warp_session.specs.declared.pulling.PullEnd.{PullEnd};

use crate::connection::{Channel, Connection};
use crate::peers::{reach_all, tell_end, tell_failed};
use std::alloc::Global;
use std::fs::{File, Files};
use std::io::{self, Eprint, Print};
use std::net::{Ipv4Addr, Net, TcpListener, TcpStream};
use std::random::RandomSource;
use std::sync::Wait;
use std::thread::{self, Threads};
use std::time::{Clock, Duration};
use warp_disk::FreshFiles;
use warp_host::TokenFiles;
use warp_lanes::Engine;
use warp_line::Timeline;
use warp_session::{Door, DoorFault, Open, Peer, PullEnd, ServeFault, serve_sessions};
use warp_step::Program;
use warp_tag::Form;

/// The most sessions and peers together.
const MOST_LANES: usize = 16;

/// What a run needs of the system beside the network.
pub(crate) trait Host: Print
    + Eprint
    + Files<File = File>
    + FreshFiles
    + TokenFiles
    + Threads
    + Wait
    + Clock
    + RandomSource
    + Sync {}

impl<X> Host for X
where
    X: Print
        + Eprint
        + Files<File = File>
        + FreshFiles
        + TokenFiles
        + Threads
        + Wait
        + Clock
        + RandomSource
        + Sync,
{}

/// What a server is asked to do.
#[derive(Drop)]
pub(crate) struct Service<'a> {
    /// The port to listen on.
    pub(crate) port: u16,
    /// How many sessions to serve.
    pub(crate) sessions: usize,
    /// Whether to tell on standard error how each pull ended.
    pub(crate) tells_pulls: bool,
    /// For how many seconds a peer may be silent; without end where none is given.
    pub(crate) peer_timeout: Option<u64>,
    /// The words that name the peers.
    pub(crate) peers: Vec<&'a str>,
}

impl<'a> Service<'a> {
    /// Whether there are lanes enough, one for each session and each peer.
    pub(crate) fn fits(&self) -> bool
        ensures { MatchBool result (self.now.sessions + vec_len self.now.peers ≤ most_lanes)
            (most_lanes < self.now.sessions + vec_len self.now.peers) }
    {
        self.sessions.saturating_add(self.peers.len()) <= MOST_LANES
    }
}

/// So often a connection is asked for that cannot be had.
const MOST_TRIES: u32 = 100;

/// The time between two of these, in milliseconds.
const BETWEEN_TRIES: u64 = 10;

/// The sessions that come to a listener.
#[derive(Drop)]
struct Entrance<'a, X: Eprint + Clock> {
    rt: &'a X,
    listener: TcpListener,
    tells_pulls: bool,
    /// The form of the program.
    form: Form,
}

impl<'a, X: Eprint + Clock> Door for Entrance<'a, X> {
    type R = Channel;

    type W = Channel;

    /// A connection that cannot be had, for want of files or memory, is tried again for a second.
    fn next(&mut self) -> Result<(Channel, Channel), DoorFault> {
        for _ in 0..MOST_TRIES {
            if let Ok(both) = next_connection(&self.listener) {
                return Ok(both);
            }
            thread::sleep(self.rt, Duration::from_millis(BETWEEN_TRIES));
        }
        Err(DoorFault)
    }

    fn pull_ended(&mut self, peer: u32, end: PullEnd) {
        if has_failed(end) {
            tell_failed(self.rt, peer);
        }
        if self.tells_pulls {
            tell_end(self.rt, peer, end, self.form);
        }
    }
}

/// Whether a pull that ended so is told of as failed: a read or a write failed, or no memory was to be had.
fn has_failed(end: PullEnd) -> bool
    ensures { IsTrue result ↔ ((end ≡ PullEnd.Fault) ⊎ (end ≡ PullEnd.NoMemory)) }
{
    matches!(end, PullEnd::Fault | PullEnd::NoMemory)
}

/// Both directions of the next connection that comes.
fn next_connection(listener: &TcpListener) -> io::Result<(Channel, Channel)> {
    let (stream, _address) = listener.accept()?;
    Connection::both_of(stream)
}

/// A listener on this machine alone.
pub(crate) fn listen<X: Net<Listener = TcpListener, Stream = TcpStream>>(
    rt: &X,
    port: u16,
) -> io::Result<TcpListener> {
    TcpListener::bind(rt, (Ipv4Addr::LOCALHOST, port))
}

/// Connections to the peers that can be reached, or what keeps sessions from being served.
fn reached_of<X: Clock + Eprint + Net<Listener = TcpListener, Stream = TcpStream>>(
    rt: &X,
    alloc: Global,
    service: &Service<'_>,
) -> Result<Vec<Peer<Channel, Channel>>, ServeFault>
    ensures few { IfOk result (λ peers. vec_len peers ≤ vec_len service.now.peers) }
    ensures err { IfErr result (λ fault. fault ≡ ServeFault.NoMemory) }
{
    let silence = service.peer_timeout.map(Duration::from_secs);
    match reach_all(rt, alloc, &service.peers, silence) {
        Ok(peers) => Ok(peers),
        Err(_) => Err(ServeFault::NoMemory),
    }
}

/// Connects to the peers, and serves the sessions that come to the listener. Gives the engine that served them.
pub(crate) fn serve_at<
    X: Host + Net<Listener = TcpListener, Stream = TcpStream>,
    T: Timeline + Send + Drop,
>(
    rt: &X,
    alloc: Global,
    program: Program,
    listener: TcpListener,
    service: &Service<'_>,
) -> Result<Engine<T>, ServeFault>
    requires { service.now.sessions + vec_len service.now.peers ≤ most_lanes }
    // The engine ran this program, and began with an empty log.
    ensures engine { IfOk result (λ engine. (engine.replica.program ≡ program) × (engine.began ≡ 0)) }
    // It had a lane for each session, and for each peer that was reached.
    ensures lanes { IfOk result (λ engine. (reached : ℕ) × (reached ≤ vec_len service.now.peers)
        × (length engine.lanes ≡ service.now.sessions + reached)) }
{
    match reached_of(rt, alloc, service) {
        Ok(peers) => serve_with(rt, alloc, program, listener, service, peers),
        Err(fault) => Err(fault),
    }
}

/// Serves the sessions that come to the listener, and pulls from the peers.
fn serve_with<X: Host, T: Timeline + Send + Drop>(
    rt: &X,
    alloc: Global,
    program: Program,
    listener: TcpListener,
    service: &Service<'_>,
    peers: Vec<Peer<Channel, Channel>>,
) -> Result<Engine<T>, ServeFault>
    requires { service.now.sessions + vec_len peers ≤ most_lanes }
    // The engine ran this program, and began with an empty log.
    ensures engine { IfOk result (λ engine. (engine.replica.program ≡ program) × (engine.began ≡ 0)) }
    // It had a lane for each session and each peer.
    ensures lanes { IfOk result (λ engine. length engine.lanes ≡ service.now.sessions + vec_len peers) }
{
    let mut door = Entrance {
        rt,
        listener,
        tells_pulls: service.tells_pulls,
        form: program.form(),
    };
    serve_sessions(
        rt,
        alloc,
        program,
        &mut door,
        service.sessions,
        peers,
        &Open,
    )
}
