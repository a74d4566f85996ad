//! Connections to the peers of a server.

ghost use Rattle.std.specs.Prelude.{◌≤◌, IfOk, length, vec_len};

use crate::connection::{Channel, Connection};
use std::alloc::{AllocError, Global};
use std::io::{self, Eprint, ErrorKind};
use std::net::{Net, SocketAddr, TcpListener, TcpStream, ToSocketAddrs};
use std::time::{Clock, Duration};
use warp_session::{Peer, PullEnd};
use warp_tag::Form;

/// So many replies in a row that a peer's log has no more end the pull from it.
const QUIET: u32 = 500;

/// The sleep behind each of them, in milliseconds.
const PAUSE: u64 = 10;

/// For how many seconds the server may connect to all of its peers, beside the lookup of their names.
const CONNECTING: u64 = 10;

/// Connects to an address within the time that is left, and takes off it what that took.
fn connect_within<X: Clock + Net<Listener = TcpListener, Stream = TcpStream>>(
    rt: &X,
    address: &SocketAddr,
    left: &mut Duration,
) -> io::Result<TcpStream> {
    let began = rt.monotonic()?;
    let connected = TcpStream::connect_timeout(rt, address, *left);
    let took = rt.monotonic()?.saturating_sub(began);
    *left = (*left).saturating_sub(took);
    connected
}

/// A connection to the first of the addresses that this word names which answers.
fn connect<X: Clock + Net<Listener = TcpListener, Stream = TcpStream>>(
    rt: &X,
    name: &str,
    left: &mut Duration,
) -> io::Result<TcpStream> {
    for address in name.to_socket_addrs(rt)? {
        if let Ok(stream) = connect_within(rt, &address, left) {
            return Ok(stream);
        }
    }
    Err(io::Error::from(ErrorKind::NotConnected))
}

/// Both directions of a connection to the peer that this word names, which fails where the peer is silent for longer
/// than this.
fn both_to<X: Clock + Net<Listener = TcpListener, Stream = TcpStream>>(
    rt: &X,
    name: &str,
    left: &mut Duration,
    silence: Option<Duration>,
) -> io::Result<(Channel, Channel)> {
    let stream = connect(rt, name, left)?;
    stream.set_read_timeout(silence)?;
    Connection::both_of(stream)
}

/// The connection to the peer with this number, or `None` where it can't be reached, which is told on standard error.
fn reached<X: Clock + Eprint + Net<Listener = TcpListener, Stream = TcpStream>>(
    rt: &X,
    number: u32,
    name: &str,
    left: &mut Duration,
    silence: Option<Duration>,
) -> Option<Peer<Channel, Channel>> {
    match both_to(rt, name, left, silence) {
        Ok((source, sink)) => Some(Peer {
            number,
            source,
            sink,
            quiet: QUIET,
            pause: Duration::from_millis(PAUSE),
        }),
        Err(_) => {
            tell_failed(rt, number);
            None
        }
    }
}

/// Connections to the peers that can be reached. Each fails where its peer is silent for longer than this.
pub(crate) fn reach_all<X: Clock + Eprint + Net<Listener = TcpListener, Stream = TcpStream>>(
    rt: &X,
    alloc: Global,
    names: &[&str],
    silence: Option<Duration>,
) -> Result<Vec<Peer<Channel, Channel>>, AllocError>
    ensures { IfOk result (λ peers. vec_len peers ≤ length names.now) }
{
    let mut peers = Vec::with_capacity(alloc, names.len())?;
    let mut left = Duration::from_secs(CONNECTING);
    let mut number = 0u32;
    for name in names {
        if let Some(peer) = reached(rt, number, *name, &mut left, silence) {
            peers.push(peer)?;
        }
        number = number.wrapping_add(1);
    }
    Ok(peers)
}

/// Tells on standard error that this peer failed.
pub(crate) fn tell_failed<X: Eprint>(rt: &X, peer: u32) {
    let _ = eprintln!(rt; "peer {peer} failed");
}

/// Tells on standard error how the pull from this peer ended, for a program of this form.
pub(crate) fn tell_end<X: Eprint>(rt: &X, peer: u32, end: PullEnd, form: Form) {
    let told = words_for(end, form);
    let _ = match end {
        PullEnd::Held(refusal) => eprintln!(rt;
            "peer {peer}: {told} (refused {})",
            refusal.number()
        ),
        _ => eprintln!(rt; "peer {peer}: {told}"),
    };
}

/// How a pull for a program of this form ended, in words.
fn words_for(end: PullEnd, form: Form) -> &'static str {
    match end {
        PullEnd::Quiet => "it had nothing new for 500 times in a row",
        PullEnd::Strange => "it sent what answers no question of a pull",
        PullEnd::Held(_) => "a record of its log does not come in here",
        PullEnd::Fault => "its connection failed, or it was silent for too long",
        PullEnd::End => "it closed its connection",
        PullEnd::TooManyTurns if matches!(form, Form::Three | Form::Four) => {
            "100,000,000 questions and reads came to no end"
        }
        PullEnd::TooManyTurns => "1,000,000 questions and reads came to no end",
        PullEnd::NoMemory => "there was no memory to begin",
    }
}
