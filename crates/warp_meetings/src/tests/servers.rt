//! Sessions that are served at once meet, and a door hears how a pull ended. Over the built program `.ci/serve` shows
//! what else servers come to.
ghost use Rattle.std.specs.Prelude.{◌+◌, ◌≤◌, length, vec_len};
ghost use Rattle.warp_lanes.specs.Engine.{most_lanes};

use crate::tests::memory::{Lobby, Meeting, Sent, Talk, Written};
use crate::tests::steps::{total, twice};
use std::alloc::Global;
use std::process::Abort;
use std::sync::Wait;
use std::thread::Threads;
use std::time::{Clock, Duration};
use warp_line::Timeline;
use warp_record::Reply;
use warp_run::Warp;
use warp_session::{Gate, Open, Peer, PullEnd, serve_sessions};

/// Serves sessions of the program `twice`, and tells what its engine then answers to `var 0`.
fn serve<'a, X: Threads + Wait + Clock + Abort + Sync, T: Timeline + Send + Drop, G: Gate + Sync>(
    rt: &'a X,
    alloc: Global,
    lobby: &mut Lobby<'a, X>,
    sessions: usize,
    peers: Vec<Peer<Sent<'a>, Written<'a, X>>>,
    gate: &G,
) -> Reply
    requires { sessions + vec_len peers ≤ most_lanes }
{
    let program = twice(rt, alloc);
    let mut engine = serve_sessions::<X, T, Lobby<'a, X>, G>(
        rt, alloc, program, lobby, sessions, peers, gate,
    ).expect(rt, "an engine");
    total(rt, alloc, &mut engine)
}

/// What sixteen clients send: an event at each of sixteen times, which doubles the total and adds one.
const SIXTEEN: [&str; 16] = [
    "event 0 1 0 0 1\n",
    "event 0 2 0 0 1\n",
    "event 0 3 0 0 1\n",
    "event 0 4 0 0 1\n",
    "event 0 5 0 0 1\n",
    "event 0 6 0 0 1\n",
    "event 0 7 0 0 1\n",
    "event 0 8 0 0 1\n",
    "event 0 9 0 0 1\n",
    "event 0 10 0 0 1\n",
    "event 0 11 0 0 1\n",
    "event 0 12 0 0 1\n",
    "event 0 13 0 0 1\n",
    "event 0 14 0 0 1\n",
    "event 0 15 0 0 1\n",
    "event 0 16 0 0 1\n",
];

/// What they come to.
const ALL: Reply = Reply::Var {
    log: 16,
    value: 65_535,
};

/// What clients are told, in some order; the first of these goes to the last of them, for which the others wait.
const TOLD: [&str; 16] = [
    "taken 1\n",
    "taken 2\n",
    "taken 3\n",
    "taken 4\n",
    "taken 5\n",
    "taken 6\n",
    "taken 7\n",
    "taken 8\n",
    "taken 9\n",
    "taken 10\n",
    "taken 11\n",
    "taken 12\n",
    "taken 13\n",
    "taken 14\n",
    "taken 15\n",
    "taken 16\n",
];

/// The connections of clients that send these lines.
fn talks<'a>(rt: &impl Abort, alloc: Global, lines: &[&'a str]) -> Vec<Talk<'a>> {
    let mut talks = Vec::new(alloc);
    for sent in lines {
        talks.push(Talk::new(alloc, *sent)).expect(rt, "memory");
    }
    talks
}

/// Whether a client was told this.
fn is_told(rt: &impl Wait, talks: &[Talk<'_>], text: &str) -> bool {
    for talk in talks {
        if talk.holds(rt, text) {
            return true;
        }
    }
    false
}

/// As many places were told as there are clients, the first of them to the last client.
fn are_told<X: Wait + Abort>(rt: &X, talks: &[Talk<'_>]) {
    for text in TOLD.iter().take(talks.len()) {
        assert!(rt; is_told(rt, talks, *text));
    }
    assert!(rt; talks.last().is_some_and(|talk| talk.holds(rt, "taken 1\n")));
}

/// Serves a session for each of these clients, of which all wait until the last was answered this ask, and comes to this.
fn serve_meeting<'a, X: Threads + Wait + Clock + Abort + Sync, T: Timeline + Send + Drop>(
    rt: &'a X,
    alloc: Global,
    talks: &'a [Talk<'a>],
    ask: u64,
    wanted: Reply,
) {
    let are_few = talks.len() <= 16;
    assert!(rt; are_few);
    let sessions = talks.len();
    let gate = Meeting::new(rt, sessions.saturating_sub(1) as u32, ask);
    let mut lobby = Lobby::new(rt, talks);
    let reply = serve::<X, T, Meeting<'a, X>>(
        rt,
        alloc,
        &mut lobby,
        sessions,
        Vec::new(alloc),
        &gate,
    );
    assert_eq!(rt; reply, wanted);
    assert!(rt; gate.was_seen());
}

/// Sessions that send these lines meet: each is told a place of its own, and the engine comes to what is wanted.
fn meet<X: Threads + Wait + Clock + Abort + Sync, T: Timeline + Send + Drop>(
    rt: &X,
    alloc: Global,
    lines: &[&str],
    wanted: Reply,
) {
    let talks = talks(rt, alloc, lines);
    serve_meeting::<X, T>(rt, alloc, &talks, 0, wanted);
    are_told(rt, &talks);
}

#[test]
fn sixteen_sessions_meet(rt: HostRuntime) {
    meet::<HostRuntime, Warp>(&rt, rt.alloc(), &SIXTEEN, ALL);
}

/// What two clients send: an event of each origin.
const TWO: [&str; 2] = ["event 0 5 0 0 3\n", "event 1 2 0 1 4\n"];

/// What both come to.
const BOTH: Reply = Reply::Var { log: 2, value: -5 };

#[test]
fn two_sessions_meet(rt: HostRuntime) {
    meet::<HostRuntime, Warp>(&rt, rt.alloc(), &TWO, BOTH);
}

/// What two clients send who ask for the place that they were told; the first one waits until the second has both replies.
const READERS: [&str; 2] = ["event 0 5 0 0 3\nlog 2\n", "event 1 2 0 1 4\nlog 1\n"];

/// What each of them is told: its own record.
const READ: [&str; 2] = [
    "taken 2\nlog 2 event 0 5 0 0 3\n",
    "taken 1\nlog 1 event 1 2 0 1 4\n",
];

/// Each of two sessions reads its own record back.
fn read_both<X: Threads + Wait + Clock + Abort + Sync, T: Timeline + Send + Drop>(
    rt: &X,
    alloc: Global,
) {
    let talks = talks(rt, alloc, &READERS);
    serve_meeting::<X, T>(rt, alloc, &talks, 1, BOTH);
    assert_eq!(rt; talks.len(), READ.len());
    for (talk, text) in talks.iter().zip(READ) {
        assert!(rt; talk.holds(rt, text));
    }
}

#[test]
fn read_back(rt: HostRuntime) {
    read_both::<HostRuntime, Warp>(&rt, rt.alloc());
}

/// What a peer replies: both records, and three times that there is no further one.
const REPLIES: &str =
    "log 2 event 0 5 0 0 3\nlog 2 event 1 2 0 1 4\nnone 2\nnone 2\nnone 2\nlog 3 withdraw 0 5 0\n";

/// A server without sessions pulls from this peer until it was quiet three times, and the door hears it.
fn pulls<'a, X: Threads + Wait + Clock + Abort + Sync, T: Timeline + Send + Drop>(
    rt: &'a X,
    alloc: Global,
    talk: &'a Talk<'a>,
) {
    let (source, sink) = talk.both(rt);
    let peer = Peer {
        number: 7,
        source,
        sink,
        quiet: 3,
        pause: Duration::ZERO,
    };
    let peers = vec![in alloc; peer].expect(rt, "memory");
    let mut lobby = Lobby::new(rt, &[]);
    let reply = serve::<X, T, Open>(rt, alloc, &mut lobby, 0, peers, &Open);
    assert_eq!(rt; reply, BOTH);
    assert!(rt; lobby.count == 1 && lobby.ended == Some((7, PullEnd::Quiet)));
    assert!(rt; talk.holds(rt, "log 1\nlog 2\nlog 3\nlog 3\nlog 3\n"));
}

#[test]
fn a_door_hears_of_a_pull(rt: HostRuntime) {
    let talk = Talk::new(rt.alloc(), REPLIES);
    pulls::<HostRuntime, Warp>(&rt, rt.alloc(), &talk);
}
