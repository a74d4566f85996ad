//! The addresses of peers, by their names. Asking the system for one may take long, so a thread of its own does it.

use crate::options::MOST_PEERS;
use rtrb::{Consumer, Producer, RingBuffer};
use std::alloc::{AllocError, Global};
use std::net::{IpAddr, Ipv4Addr, Net, SocketAddr, ToSocketAddrs};
use std::sync::Wait;
use std::thread;
use std::time::{Clock, Duration};
use warp_disk::Bells;

/// How long the thread sleeps where nothing is sought, in milliseconds.
const PAUSE: u64 = 100;

/// A name with a port, and the number of the peer that has it.
#[derive(Drop)]
struct Sought {
    peer: u16,
    name: String,
}

/// The address that was found for a peer, if one was.
#[derive(Clone, Copy)]
pub(crate) struct Found {
    pub(crate) peer: u16,
    pub(crate) address: Option<SocketAddr>,
}

/// The worker's way to the thread that looks names up.
#[derive(Drop)]
pub(crate) struct Seeking {
    sought: Producer<Sought>,
    found: Consumer<Found>,
}

impl Seeking {
    /// Has the name of this peer looked up; whether that could be asked for.
    pub(crate) fn seek(&mut self, peer: u16, name: String) -> bool {
        self.sought.push(Sought { peer, name }).is_ok()
    }

    /// What was found next, if something was.
    pub(crate) fn found(&mut self) -> Option<Found> {
        self.found.pop().ok()
    }
}

/// What is sought, and what was found.
#[derive(Drop)]
pub(crate) struct Lookup<'a> {
    sought: Consumer<Sought>,
    found: Producer<Found>,
    bells: &'a Bells,
}

/// The way to the thread that looks names up, and what that holds.
pub(crate) fn make_lookup<'a>(
    alloc: Global,
    bells: &'a Bells,
) -> Result<(Seeking, Lookup<'a>), AllocError> {
    let (seeking, sought) = RingBuffer::new(alloc, MOST_PEERS)?;
    let (found, finding) = RingBuffer::new(alloc, MOST_PEERS)?;
    Ok((
        Seeking {
            sought: seeking,
            found: finding,
        },
        Lookup {
            sought,
            found,
            bells,
        },
    ))
}

/// The address that this word spells, without asking the system: numbers, or `localhost`, with a port.
pub(crate) fn spelled_address(name: &str) -> Option<SocketAddr> {
    if let Ok(address) = name.parse::<SocketAddr>() {
        return Some(address);
    }
    let port = name.strip_prefix("localhost:")?;
    let port = port.parse::<u16>().ok()?;
    Some(SocketAddr::from((IpAddr::V4(Ipv4Addr::LOCALHOST), port)))
}

/// The first address of this name.
fn address_of<X: Net>(rt: &X, name: &str) -> Option<SocketAddr> {
    let addresses = name.to_socket_addrs(rt);
    match addresses {
        Ok(mut all) => all.next(),
        Err(_) => None,
    }
}

impl<'a> Lookup<'a> {
    /// Looks names up until the host ends.
    pub(crate) fn run<X: Net + Wait + Clock>(mut self, rt: &X) {
        for _ in rt.forever() {
            if self.bells.is_over() {
                return;
            }
            if !self.look_up(rt) {
                thread::sleep(rt, Duration::from_millis(PAUSE));
            }
        }
    }

    /// Looks the next name up; whether there was one.
    fn look_up<X: Net>(&mut self, rt: &X) -> bool {
        let Ok(sought) = self.sought.pop() else {
            return false;
        };
        let found = Found {
            peer: sought.peer,
            address: address_of(rt, sought.name.as_str()),
        };
        // There is room for one of each peer, and each seeks once at a time.
        let _ = self.found.push(found);
        self.bells.wake_worker();
        true
    }
}
