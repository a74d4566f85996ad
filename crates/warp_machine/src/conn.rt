//! A connection: what is known of it beside what its client says, and what is wanted of it.

ghost use Rattle.std.specs.Prelude.{◌≡◌, ◌↔◌, IsTrue, drop, false, length, min, true};
ghost use Rattle.warp_machine.specs.Keeping.{IsPlaceOf, KeepsOn, keeping, keeps_behind, keeps_none};

use crate::action::Action;
use std::alloc::Global;
use warp_clients::ClientId;
use warp_pages::Visit;

/// So many bytes of a connection wait at most for which its client had no room.
const MOST_REST: usize = 16_384;

pub(crate) const SECOND: u64 = 1_000_000;

/// For how long a connection may bring no whole request over HTTP, and for how long it may take nothing of an answer.
const MOST_SILENCE: u64 = 10 * SECOND;

const MOST_STALL: u64 = 60 * SECOND;

/// How long a client may be silent over WebSocket before it is pinged, and how long before it is closed.
const PING_AFTER: u64 = 30 * SECOND;

pub(crate) const CLOSE_AFTER: u64 = 60 * SECOND;

/// How long a client that is told nothing more may take until it closes.
const LINGER: u64 = 2 * SECOND;

/// How long the last output of a client may wait.
const LAST_WORDS: u64 = 10 * SECOND;

/// Within so long a connection brings a token, where one is wanted.
const TOKEN_WITHIN: u64 = 10 * SECOND;

/// Whether so many microseconds are over since then.
pub(crate) fn is_past(now: u64, since: u64, span: u64) -> bool {
    now.saturating_sub(since) >= span
}

/// What may be wanted of a connection.
#[derive(Clone, Copy, PartialEq, Eq)]
pub(crate) enum Want {
    /// That its output is written.
    Write,
    /// That it is read again.
    Hear,
    /// That its way out is shut.
    End,
    /// That it is closed.
    Close,
}

impl Want {
    /// That this is wanted of the connection of a client.
    pub(crate) fn action(self, who: ClientId) -> Action {
        match self {
            Want::Write => Action::Write(who),
            Want::Hear => Action::Hear(who),
            Want::End => Action::End(who),
            Want::Close => Action::Close(who),
        }
    }
}

/// What is wanted of a connection now.
#[derive(Clone, Copy)]
pub(crate) struct Wanted {
    write: bool,
    hear: bool,
    end: bool,
    close: bool,
}

/// Nothing is wanted.
const NOTHING: Wanted = Wanted {
    write: false,
    hear: false,
    end: false,
    close: false,
};

impl Wanted {
    /// This is wanted, or no longer.
    pub(crate) fn set(&mut self, want: Want, is_wanted: bool) {
        match want {
            Want::Write => self.write = is_wanted,
            Want::Hear => self.hear = is_wanted,
            Want::End => self.end = is_wanted,
            Want::Close => self.close = is_wanted,
        }
    }

    /// What is to be done first, which is wanted no more then.
    pub(crate) fn take(&mut self) -> Option<Want> {
        let want = self.first()?;
        self.set(want, false);
        Some(want)
    }

    /// Whether something is wanted.
    pub(crate) fn is_any(&self) -> bool {
        self.first().is_some()
    }

    /// What is to be done first; nothing else of what is to be closed.
    fn first(&self) -> Option<Want> {
        if self.close {
            Some(Want::Close)
        } else if self.write {
            Some(Want::Write)
        } else if self.end {
            Some(Want::End)
        } else if self.hear {
            Some(Want::Hear)
        } else {
            None
        }
    }
}

/// A connection, or a place where none is.
#[derive(Drop)]
pub(crate) struct Conn {
    pub(crate) round: u64,
    pub(crate) is_here: bool,
    /// The peer whose lines it brings: it has no socket.
    pub(crate) peer: Option<u16>,
    /// What is known of it between requests.
    pub(crate) visit: Visit,
    /// Bytes that came for which its client had no room yet.
    pub(crate) rest: Vec<u8>,
    /// When its last request was answered, or it began to speak.
    answered: u64,
    /// When something was written to it last, or it began to speak.
    sent: u64,
    /// When something came of it last, or was taken by it while it was behind.
    pub(crate) heard: u64,
    /// When it was pinged last, or came.
    pinged: u64,
    came: u64,
    /// It has brought no token where one is wanted, and keeps its place yet.
    pub(crate) is_unknown: bool,
    /// It is to be closed since it has brought no token.
    pub(crate) is_leaving: bool,
    /// Since when its output waits of which its client is told nothing more.
    stopped: Option<u64>,
    /// Since when its way out is shut.
    pub(crate) lingers: Option<u64>,
    /// The other end has said all.
    has_ended: bool,
    /// Nothing more is read of it: its client is told so once it had what came.
    pub(crate) is_deaf: bool,
    /// Its client was told so.
    is_deaf_told: bool,
    /// That is so since the host ends.
    ceases: bool,
    /// It is known that there is output of it.
    pub(crate) is_writing: bool,
    pub(crate) is_talking: bool,
    pub(crate) is_listed: bool,
    pub(crate) wanted: Wanted,
}

impl Conn {
    /// A place where nobody is.
    pub(crate) fn new(alloc: Global) -> Conn
        ensures { keeping result ≡ keeps_none false 0 }
    {
        Conn {
            round: 0,
            is_here: false,
            peer: None,
            visit: Visit::new(),
            rest: Vec::new(alloc),
            answered: 0,
            sent: 0,
            heard: 0,
            pinged: 0,
            came: 0,
            is_unknown: false,
            is_leaving: false,
            stopped: None,
            lingers: None,
            has_ended: false,
            is_deaf: false,
            is_deaf_told: false,
            ceases: false,
            is_writing: false,
            is_talking: false,
            is_listed: false,
            wanted: NOTHING,
        }
    }

    /// Nothing came of this one yet, in this round of its place: it has to bring a token or not.
    pub(crate) fn begin(&mut self, round: u64, peer: Option<u16>, is_unknown: bool, now: u64)
        ensures { keeping self.new ≡ keeps_none true round }
    {
        self.round = round;
        self.is_here = true;
        self.rest.clear();
        self.peer = peer;
        self.visit = Visit::new();
        self.answered = now;
        self.sent = now;
        self.heard = now;
        self.pinged = now;
        self.came = now;
        self.is_unknown = is_unknown;
    }

    /// Whether it is that of this client.
    pub(crate) fn is_of(&self, who: ClientId) -> bool
        ensures { IsTrue result ↔ IsPlaceOf who (keeping self.now) }
    {
        self.is_here && self.round == who.round
    }

    /// Nobody is here any more. Where it stands in lists it is passed over.
    pub(crate) fn clear(&mut self, alloc: Global)
        ensures { keeping self.new ≡ keeps_none false self.old.round }
    {
        self.is_here = false;
        self.is_unknown = false;
        self.is_leaving = false;
        self.is_talking = false;
        self.is_listed = false;
        self.peer = None;
        self.rest = Vec::new(alloc);
        self.stopped = None;
        self.lingers = None;
        self.has_ended = false;
        self.is_deaf = false;
        self.is_deaf_told = false;
        self.ceases = false;
        self.is_writing = false;
        self.wanted = NOTHING;
    }

    /// Bytes came of it; whether they are for its client.
    pub(crate) fn note_bytes(&mut self, is_first: bool, now: u64) -> bool
        ensures { keeping self.new ≡ keeping self.old }
    {
        if self.lingers.is_some() || self.is_deaf {
            return false;
        }
        self.heard = now;
        if is_first {
            self.answered = now;
            self.sent = now;
        }
        true
    }

    /// Keeps bytes for which its client had no room; whether they are kept: there are not too many, and there was memory.
    pub(crate) fn keep(&mut self, bytes: &[u8]) -> bool
        ensures { KeepsOn bytes.now (keeping self.old) (keeping self.new) }
    {
        if bytes.len() > MOST_REST.saturating_sub(self.rest.len()) {
            return false;
        }
        self.rest.extend_from_slice(bytes).is_ok()
    }

    /// Its other end has said all. Whether its client is to be told so.
    pub(crate) fn note_end(&mut self) -> bool
        ensures { keeping self.new ≡ keeping self.old }
    {
        self.has_ended = true;
        self.is_deaf = true;
        self.lingers.is_none()
    }

    /// Nothing more is read of it since the host ends; whether that is new.
    pub(crate) fn deafen(&mut self) -> bool {
        if self.peer.is_some() || self.lingers.is_some() {
            return false;
        }
        self.ceases = !self.is_deaf;
        self.is_deaf = true;
        true
    }

    /// Something was written to it, which was behind or not.
    pub(crate) fn note_sent(&mut self, was_behind: bool, now: u64) {
        self.sent = now;
        if was_behind {
            self.heard = now;
        }
    }

    /// What is known of it after it was asked what it says, and whether a request of its was answered.
    pub(crate) fn note_visit(&mut self, visit: Visit, has_answered: bool, now: u64) {
        self.visit = visit;
        if has_answered {
            self.answered = now;
        }
    }

    /// Its client heard the first so many bytes that waited. Whether some wait still.
    pub(crate) fn drop_rest(&mut self, alloc: Global, count: usize) -> bool
        ensures { keeping self.new ≡ keeps_behind count (keeping self.old) }
    {
        drop_front(alloc, &mut self.rest, count);
        !self.rest.is_empty()
    }

    /// What its client is to be told of its end, once: that nothing more is heard, since the host ends or not.
    pub(crate) fn take_end(&mut self) -> Option<bool> {
        if !self.is_deaf || self.is_deaf_told {
            return None;
        }
        self.is_deaf_told = true;
        Some(self.ceases)
    }

    /// Its way out is shut, since its client is told nothing more: what is wanted of it, if anything is. It is to be closed
    /// where it is lost or has ended.
    pub(crate) fn part(&mut self, is_lost: bool, now: u64) -> Option<Want> {
        if is_lost || self.has_ended {
            return Some(Want::Close);
        }
        if self.lingers.is_some() {
            return None;
        }
        self.lingers = Some(now);
        self.rest.clear();
        Some(Want::End)
    }

    /// Whether its client, which is told nothing more or not, does not take its last output.
    pub(crate) fn has_had_its_words(&mut self, is_stopped: bool, now: u64) -> bool {
        if !is_stopped {
            self.stopped = None;
            return false;
        }
        match self.stopped {
            Some(since) => is_past(now, since, LAST_WORDS),
            None => {
                self.stopped = Some(now);
                false
            }
        }
    }

    /// Whether it is to be pinged, which it then is: it was silent for long, and was not pinged for as long.
    pub(crate) fn take_ping(&mut self, now: u64) -> bool {
        if !is_past(now, self.heard, PING_AFTER) || !is_past(now, self.pinged, PING_AFTER) {
            return false;
        }
        self.pinged = now;
        true
    }

    /// Whether its way out is shut for longer than it may take to close.
    pub(crate) fn has_lingered(&self, now: u64) -> bool {
        match self.lingers {
            Some(since) => is_past(now, since, LINGER),
            None => false,
        }
    }

    /// Whether it has brought no token in the time that it has for one.
    pub(crate) fn lacks_token(&self, now: u64) -> bool {
        self.is_unknown && is_past(now, self.came, TOKEN_WITHIN)
    }

    /// Whether it brings no whole request, or takes nothing of its answers, which wait or not.
    pub(crate) fn is_late(&self, has_output: bool, now: u64) -> bool {
        if has_output {
            return is_past(now, self.sent, MOST_STALL);
        }
        is_past(now, self.answered.max(self.sent), MOST_SILENCE)
    }
}

/// Lets go of the first so many of these bytes; where none are left, of their memory.
fn drop_front(alloc: Global, bytes: &mut Vec<u8>, count: usize)
    ensures { bytes.new.items ≡ drop (min count (length bytes.old.items)) bytes.old.items }
{
    if count >= bytes.len() {
        *bytes = Vec::new(alloc);
        return;
    }
    let _ = bytes.drain(..count);
}
