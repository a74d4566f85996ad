//! Two servers in one process, over loopback: one takes what a client sends, the other pulls from it.
ghost use Rattle.std.specs.Prelude.{◌≡◌, ◌+◌, ◌≤◌, vec_len};
ghost use Rattle.warp_lanes.specs.Engine.{most_lanes};

use crate::tests::steps::{same, total, twice};
use std::alloc::Global;
use std::io::{self, Read, Write};
use std::net::{Ipv4Addr, Net, Shutdown, SocketAddr, TcpListener, TcpStream};
use std::process::Abort;
use std::sync::Wait;
use std::thread::{self, Threads};
use std::time::{Clock, Duration};
use warp_line::Timeline;
use warp_record::Reply;
use warp_run::Warp;
use warp_session::{Door, DoorFault, Failed, Open, Peer, PullEnd, Sink, Source, serve_sessions};

/// What the test needs of the system.
trait Machine: Threads
    + Wait
    + Clock
    + Abort
    + Sync
    + Net<Listener = TcpListener, Stream = TcpStream> {}

impl<X> Machine for X
where
    X: Threads + Wait + Clock + Abort + Sync + Net<Listener = TcpListener, Stream = TcpStream>,
{}

/// One direction of a connection. Behind a fault nothing comes from it, and what is written is lost.
#[derive(Drop)]
struct Way {
    stream: TcpStream,
}

impl Source for Way {
    ghost use Rattle.std.specs.Prelude.{None};

    ghost left = { λ _. None };

    ghost failures = { λ _. 0 };

    fn read(&mut self, buffer: &mut [u8]) -> Result<usize, Failed> {
        match self.stream.read(buffer) {
            Ok(count) => Ok(count),
            Err(_) => Ok(0),
        }
    }
}

impl Sink for Way {
    ghost use Rattle.std.specs.Prelude.{None};

    ghost written = { λ _. None };

    ghost failures = { λ _. 0 };

    fn write(&mut self, piece: &[u8]) -> Result<usize, Failed> {
        match self.stream.write(piece) {
            Ok(count) if count > 0 => Ok(count),
            _ => Ok(piece.len()),
        }
    }
}

/// Both directions of a connection.
fn both_ways(stream: TcpStream) -> io::Result<(Way, Way)> {
    let other = stream.try_clone()?;
    Ok((Way { stream }, Way { stream: other }))
}

/// The connections that come to a listener, and how the last pull ended.
#[derive(Drop)]
struct Entrance {
    listener: TcpListener,
    ended: Option<(u32, PullEnd)>,
}

impl Door for Entrance {
    type R = Way;

    type W = Way;

    fn next(&mut self) -> Result<(Way, Way), DoorFault> {
        let Ok((stream, _)) = self.listener.accept() else {
            return Err(DoorFault);
        };
        match both_ways(stream) {
            Ok(both) => Ok(both),
            Err(_) => Err(DoorFault),
        }
    }

    fn pull_ended(&mut self, peer: u32, end: PullEnd) {
        self.ended = Some((peer, end));
    }
}

/// A listener of this machine's.
fn listen<X: Machine>(rt: &X) -> TcpListener {
    TcpListener::bind(rt, (Ipv4Addr::LOCALHOST, 0)).expect(rt, "a listener")
}

/// A connection to it.
fn connect<X: Machine>(rt: &X, address: SocketAddr) -> TcpStream {
    TcpStream::connect(rt, address).expect(rt, "a connection")
}

/// What a server has come to: what it answers to `var 0`, and how its pull ended, if it had one.
#[derive(Drop)]
struct Outcome {
    total: Reply,
    ended: Option<(u32, PullEnd)>,
}

/// Serves so many sessions and these peers.
fn serve<X: Machine, T: Timeline + Send + Drop>(
    rt: &X,
    alloc: Global,
    listener: TcpListener,
    sessions: usize,
    peers: Vec<Peer<Way, Way>>,
) -> Outcome
    requires { sessions + vec_len peers ≤ most_lanes }
{
    let mut door = Entrance {
        listener,
        ended: None,
    };
    let program = twice(rt, alloc);
    let mut engine = serve_sessions::<X, T, Entrance, Open>(
        rt, alloc, program, &mut door, sessions, peers, &Open,
    ).expect(rt, "an engine");
    let total = total(rt, alloc, &mut engine);
    Outcome {
        total,
        ended: door.ended,
    }
}

/// What a client sends, and what it is told.
const SENT: &[u8] = b"event 0 5 0 0 3\nevent 1 2 0 1 4\n";

const TOLD: &[u8] = b"taken 1\ntaken 2\n";

/// Sends both events, and hears the replies to their end.
fn send_both<X: Machine>(rt: &X, alloc: Global, mut client: TcpStream) {
    client.write_all(SENT).expect(rt, "sent");
    client.shutdown(Shutdown::Write).expect(rt, "shut");
    let mut told = Vec::new(alloc);
    client.read_to_end(&mut told).expect(rt, "told");
    same(rt, &told.as_slice(), &TOLD);
}

/// Sends both events to the first server, and then has a second one pull from it.
fn pull_behind<X: Machine, T: Timeline + Send + Drop>(
    rt: &X,
    alloc: Global,
    client: TcpStream,
    puller: TcpStream,
) -> Outcome {
    send_both(rt, alloc, client);
    let (source, sink) = both_ways(puller).expect(rt, "both ways");
    let peer = Peer {
        number: 0,
        source,
        sink,
        quiet: 3,
        pause: Duration::ZERO,
    };
    let peers = vec![in alloc; peer].expect(rt, "memory");
    serve::<X, T>(rt, alloc, listen(rt), 0, peers)
}

/// What both come to.
const BOTH: Reply = Reply::Var { log: 2, value: -5 };

/// The first server has a session for the client, and one for the second server.
fn pull_from<X: Machine, T: Timeline + Send + Drop>(
    rt: &X,
    alloc: Global,
    listener: TcpListener,
    client: TcpStream,
) {
    let address = listener.local_addr().expect(rt, "an address");
    let puller = connect(rt, address);
    let (first, second) = thread::join(
        rt,
        move || serve::<X, T>(rt, alloc, listener, 2, Vec::new(alloc)),
        move || pull_behind::<X, T>(rt, alloc, client, puller),
    );
    same(rt, &first.total, &BOTH);
    same(rt, &second.total, &BOTH);
    same(rt, &second.ended, &Some((0, PullEnd::Quiet)));
}

#[test]
fn two_servers_pull(rt: HostRuntime) {
    let listener: TcpListener = listen(&rt);
    let address = listener.local_addr().expect(&rt, "an address");
    let client: TcpStream = connect(&rt, address);
    pull_from::<HostRuntime, Warp>(&rt, rt.alloc(), listener, client);
}
