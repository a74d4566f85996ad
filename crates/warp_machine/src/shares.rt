//! Whose turn it is to be heard while steps are made that a line waits for.
//!
//! What is heard then may lie before what is executed, and have it executed again: so whoever waits would wait as long as
//! others send such lines. All lines are heard for a moment, so that one rollback serves many of them. Then each token, or
//! each client where none was said, is heard once, and what else comes waits until no line waits for steps.
ghost use Rattle.std.specs.Prelude.{◌≡◌};
ghost use Rattle.warp_replica.specs.Answered.{facts_of};
ghost use Rattle.warp_machine.specs.Keeping.{HearsKept, keepings};

use crate::conn::is_past;
use crate::machine::Machine;
use std::alloc::Global;
use warp_clients::{ClientId, Kind, Worked};
use warp_line::Timeline;

/// For so many microseconds all lines are heard.
const HEARD_BY_ALL: u64 = 20_000;

/// So many shares are told apart at most; others are heard.
const MOST_SHARES: usize = 1_024;

/// Who is heard as one: all clients of a token, or a client that said none.
#[derive(Clone, Copy, PartialEq, Eq)]
enum Share {
    Token([u8; 32]),
    Client(ClientId),
}

/// Who was heard since a line waits for steps.
#[derive(Drop)]
pub(crate) struct Shares {
    /// Since when one waits, if one does.
    since: Option<u64>,
    /// Who was heard since that had lasted for a while.
    heard: Vec<Share>,
}

impl Shares {
    /// No line waits.
    pub(crate) fn new(alloc: Global) -> Shares {
        Shares {
            since: None,
            heard: Vec::new(alloc),
        }
    }

    /// A line waits for steps at this moment, or none does.
    fn note(&mut self, waits: bool, now: u64) {
        if waits {
            self.since = self.since.or(Some(now));
        } else {
            self.since = None;
            self.heard.clear();
        }
    }

    /// Whether some have to wait at this moment.
    fn are_counted(&self, now: u64) -> bool {
        match self.since {
            Some(since) => is_past(now, since, HEARD_BY_ALL),
            None => false,
        }
    }

    /// This one is to be heard: whether it has been heard since.
    fn has_had(&mut self, share: Share) -> bool {
        if self.heard.contains(&share) {
            return true;
        }
        if self.heard.len() < MOST_SHARES {
            let _is_noted = self.heard.push(share);
        }
        false
    }
}

impl<T: Timeline> Machine<T> {
    /// Asks a client what it says, and does it, unless it was heard while others wait: then it is looked at again.
    pub(crate) fn hear_one(&mut self, who: ClientId)
        ensures { HearsKept (facts_of T.settled T.refused T.floor T.SLACK) (keepings self.old.conns) who
            self.old.clients self.new.clients }
    {
        if self.gives_way(who) {
            self.conns.talk(who);
            return;
        }
        self.say(who);
    }

    /// Whether a client waits until others, whose lines wait for steps, have their answers. What is asked over HTTP and what a
    /// peer's log has never wait.
    fn gives_way(&mut self, who: ClientId) -> bool
        ensures clients { self.new.clients ≡ self.old.clients }
        ensures conns { self.new.conns ≡ self.old.conns }
    {
        if !self.shares.are_counted(self.now) || self.conns.peer(who).is_some() {
            return false;
        }
        let kind = self.clients.kind(who);
        if kind != Kind::Lines && kind != Kind::Web {
            return false;
        }
        let share = self.share_of(who);
        self.shares.has_had(share)
    }

    /// With whom a client is heard as one.
    fn share_of(&self, who: ClientId) -> Share {
        match self.token_of(who) {
            Some(digest) => Share::Token(digest),
            None => Share::Client(who),
        }
    }

    /// Notes behind a turn whether a line waits for steps.
    pub(crate) fn note_shares(&mut self, worked: Worked)
        ensures { self.new.clients ≡ self.old.clients }
    {
        let waits = self.waits_for_steps(worked);
        self.shares.note(waits, self.now);
    }

    /// Whether steps are still to be made, and a line waits for them.
    fn waits_for_steps(&self, worked: Worked) -> bool {
        let room = self.clients.room();
        if worked != Worked::More || room.is_settled() {
            return false;
        }
        for at in 0..self.conns.places() {
            if let Some(who) = self.conns.who(at) {
                if room.waiting(who) > 0 {
                    return true;
                }
            }
        }
        false
    }
}
