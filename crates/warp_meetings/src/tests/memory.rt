//! Connections over memory: what was sent on each, what it was answered, a door that gives them out, and a gate by
//! which sessions meet.
ghost use Rattle.std.specs.Prelude.{◌≤◌, length};

use crate::tests::steps::TURNS;
use std::alloc::Global;
use std::process::Abort;
use std::sync::atomic::{AtomicBool, Ordering};
use std::sync::{Mutex, Wait};
use std::thread;
use std::time::{Clock, Duration};
use warp_session::{Door, DoorFault, Failed, Gate, PullEnd, Sink, Source};

/// Waits for the length of such a turn.
fn wait_a_turn(rt: &impl Clock) {
    thread::sleep(rt, Duration::from_millis(1));
}

/// A connection: what the other end sent, behind which nothing follows, and what was written to it.
#[derive(Drop)]
pub(crate) struct Talk<'a> {
    sent: &'a str,
    written: Mutex<Vec<u8>>,
}

impl<'a> Talk<'a> {
    /// A connection on which this was sent, and nothing was written yet.
    pub(crate) fn new(alloc: Global, sent: &'a str) -> Talk<'a> {
        Talk {
            sent,
            written: Mutex::new(Vec::new(alloc)),
        }
    }

    /// Both directions of it.
    pub(crate) fn both<X: Wait + Abort>(&'a self, rt: &'a X) -> (Sent<'a>, Written<'a, X>) {
        let rest = self.sent.as_bytes();
        let written = &self.written;
        (Sent { rest }, Written { rt, written })
    }

    /// Whether just this was written.
    pub(crate) fn holds(&self, rt: &impl Wait, text: &str) -> bool {
        self.written.lock(rt).as_slice() == text.as_bytes()
    }
}

/// What is left of the bytes that were sent.
#[derive(Drop)]
pub(crate) struct Sent<'a> {
    rest: &'a [u8],
}

impl<'a> Source for Sent<'a> {
    ghost use Rattle.std.specs.Prelude.{None};

    ghost left = { λ _. None };

    ghost failures = { λ _. 0 };

    fn read(&mut self, buffer: &mut [u8]) -> Result<usize, Failed> {
        let count = copy_front(self.rest, buffer);
        self.rest = self.rest.get(count..).unwrap_or(&[]);
        Ok(count)
    }
}

/// Copies as many bytes as the buffer has room for into its front, and tells how many that is.
fn copy_front(bytes: &[u8], buffer: &mut [u8]) -> usize
    ensures { result ≤ length buffer.new }
{
    let count = bytes.len().min(buffer.len());
    buffer[..count].copy_from_slice(&bytes[..count]);
    count
}

/// Takes what is written.
#[derive(Drop)]
pub(crate) struct Written<'a, X: Wait + Abort> {
    rt: &'a X,
    written: &'a Mutex<Vec<u8>>,
}

impl<'a, X: Wait + Abort> Sink for Written<'a, X> {
    ghost use Rattle.std.specs.Prelude.{None};

    ghost written = { λ _. None };

    ghost failures = { λ _. 0 };

    fn write(&mut self, piece: &[u8]) -> Result<usize, Failed> {
        self.written
            .lock(self.rt)
            .extend_from_slice(piece)
            .expect(self.rt, "memory");
        Ok(piece.len())
    }
}

/// A door to which these connections come, one after another. It notes how the last pull ended, and how many did.
#[derive(Drop)]
pub(crate) struct Lobby<'a, X: Wait + Abort> {
    rt: &'a X,
    talks: &'a [Talk<'a>],
    next: usize,
    pub(crate) ended: Option<(u32, PullEnd)>,
    pub(crate) count: u32,
}

impl<'a, X: Wait + Abort> Lobby<'a, X> {
    pub(crate) fn new(rt: &'a X, talks: &'a [Talk<'a>]) -> Lobby<'a, X> {
        Lobby {
            rt,
            talks,
            next: 0,
            ended: None,
            count: 0,
        }
    }
}

impl<'a, X: Wait + Abort + Sync> Door for Lobby<'a, X> {
    type R = Sent<'a>;

    type W = Written<'a, X>;

    fn next(&mut self) -> Result<(Sent<'a>, Written<'a, X>), DoorFault> {
        let Some(talk) = self.talks.get(self.next) else {
            return Err(DoorFault);
        };
        self.next = self.next.saturating_add(1);
        Ok(talk.both(self.rt))
    }

    fn pull_ended(&mut self, peer: u32, end: PullEnd) {
        self.ended = Some((peer, end));
        self.count = self.count.saturating_add(1);
    }
}

/// A gate that holds the first ask of each session but one until a certain ask of that one was answered; it lets go
/// where this takes too long.
#[derive(Drop)]
pub(crate) struct Meeting<'a, X: Clock> {
    rt: &'a X,
    session: u32,
    ask: u64,
    has_met: AtomicBool,
    gave_up: AtomicBool,
}

impl<'a, X: Clock> Meeting<'a, X> {
    /// All others wait until this session was answered this ask.
    pub(crate) fn new(rt: &'a X, session: u32, ask: u64) -> Meeting<'a, X> {
        Meeting {
            rt,
            session,
            ask,
            has_met: AtomicBool::new(false),
            gave_up: AtomicBool::new(false),
        }
    }

    /// Whether that ask was answered, and all that waited for it saw this.
    pub(crate) fn was_seen(&self) -> bool {
        let has_met = self.has_met.load(Ordering::SeqCst);
        has_met && !self.gave_up.load(Ordering::SeqCst)
    }
}

impl<'a, X: Clock> Gate for Meeting<'a, X> {
    fn before_ask(&self, session: u32, n: u64) {
        if session == self.session || n > 0 {
            return;
        }
        for _turn in 0..TURNS {
            if self.has_met.load(Ordering::SeqCst) {
                return;
            }
            wait_a_turn(self.rt);
        }
        self.gave_up.store(true, Ordering::SeqCst);
    }

    fn after_reply(&self, session: u32, n: u64) {
        if session == self.session && n == self.ask {
            self.has_met.store(true, Ordering::SeqCst);
        }
    }
}
