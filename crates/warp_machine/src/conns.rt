//! The connections of a host, by their clients' keys.
ghost use Rattle.std.specs.Prelude.{◌≡◌, ◌<◌, IfNone, IfSome, Some, false, length, slice_get, true};
ghost use Rattle.warp_machine.specs.Keeping.{AreKept, IsPlaceOf, KeepsFor, NoneKept, keeping, keepings};
ghost use Rattle.warp_machine.specs.Places.{kept_of, most_unknown};
ghost use Rattle.warp_machine.specs.declared.conn.Conn.{Conn};

use crate::action::Action;
use crate::conn::{CLOSE_AFTER, Conn, Want, is_past};
use std::alloc::{AllocError, Global};
use std::collections::VecDeque;
use warp_clients::ClientId;
use warp_pages::Visit;

/// So many places are kept at most from connections that have brought no token.
const MOST_KEPT: u32 = 16;

/// The connections by their clients' keys.
#[derive(Drop)]
pub(crate) struct Conns {
    alloc: Global,
    all: Vec<Conn>,
    /// Those whose clients may say something, each once.
    talking: VecDeque<ClientId>,
    /// Those of which something is wanted, each once.
    listed: VecDeque<ClientId>,
    /// How many are there that have a socket.
    count: u32,
    /// Those that came without a token where one is wanted, in the order in which they came. Some have brought one since, or
    /// are gone.
    unknown: VecDeque<ClientId>,
    /// How many have brought none, and keep their places yet.
    strangers: u32,
    /// How many are to be closed since they have brought none.
    leaving: u32,
    /// How many were closed for that.
    tokenless: u64,
}

impl Conns {
    /// None.
    pub(crate) fn new(alloc: Global) -> Conns {
        Conns {
            alloc,
            all: Vec::new(alloc),
            talking: VecDeque::new(alloc),
            listed: VecDeque::new(alloc),
            count: 0,
            unknown: VecDeque::new(alloc),
            strangers: 0,
            leaving: 0,
            tokenless: 0,
        }
    }

    /// How many are there that have a socket, but for those that are to be closed since they have brought no token.
    pub(crate) fn count(&self) -> u32 {
        self.count.saturating_sub(self.leaving)
    }

    /// How many of them have brought a token, or need none.
    pub(crate) fn known(&self) -> u32 {
        self.count().saturating_sub(self.strangers)
    }

    /// How many places there are.
    pub(crate) fn places(&self) -> usize {
        self.all.len()
    }

    /// Takes the room that one more may want.
    pub(crate) fn reserve(&mut self) -> Result<(), AllocError> {
        self.all.reserve(1)?;
        let most = self.all.len().saturating_add(1);
        let talking = self.talking.len();
        self.talking.reserve(most.saturating_sub(talking))?;
        let listed = self.listed.len();
        self.listed.reserve(most.saturating_sub(listed))
    }

    /// Takes the room that one more may want that has brought no token. Those that have brought one since, or are gone, are
    /// let go of once they are as many as there are places.
    pub(crate) fn reserve_unknown(&mut self) -> Result<(), AllocError> {
        let most = self.all.len().saturating_add(1).saturating_mul(2);
        if self.unknown.len() >= most {
            self.tidy_unknown();
        }
        let unknown = self.unknown.len();
        self.unknown.reserve(most.saturating_sub(unknown))
    }

    /// Lets go of those that have brought a token since they came, or are gone.
    fn tidy_unknown(&mut self) {
        for _ in 0..self.unknown.len() {
            let Some(who) = self.unknown.pop_front() else {
                return;
            };
            if self.is_unknown(who) {
                // There is room: it was taken from there.
                let _ = self.unknown.push_back(who);
            }
        }
    }

    /// Gives a client its place, for which room was taken; it has to bring a token or not. Whether it got it. Nothing is kept
    /// for it.
    pub(crate) fn place(
        &mut self,
        who: ClientId,
        peer: Option<u16>,
        is_unknown: bool,
        now: u64,
    ) -> bool
        ensures { result ≡ true → NoneKept (keepings self.new) who }
    {
        self.add_place(who);
        if who.key as usize >= self.places() {
            return false;
        }
        self.count_in(who, peer.is_none(), is_unknown);
        self.begin(who, peer, is_unknown, now)
    }

    /// A client that has a socket or not, and has to bring a token or not, is counted.
    fn count_in(&mut self, who: ClientId, has_socket: bool, is_unknown: bool) {
        if has_socket {
            self.count = self.count.saturating_add(1);
        }
        if is_unknown {
            self.strangers = self.strangers.saturating_add(1);
            // There is room: it was taken before.
            let _ = self.unknown.push_back(who);
        }
    }

    /// Makes a place for a client behind the others, where that is its place.
    fn add_place(&mut self, who: ClientId) {
        if who.key as usize == self.all.len() {
            // There is room: it was taken before.
            let _ = self.all.push(Conn::new(self.alloc));
        }
    }

    /// A client begins in its place, if there is one; whether there is.
    fn begin(&mut self, who: ClientId, peer: Option<u16>, is_unknown: bool, now: u64) -> bool
        ensures { result ≡ true → NoneKept (keepings self.new) who }
    {
        let Some(conn) = self.all.get_mut(who.key as usize) else {
            return false;
        };
        conn.begin(who.round, peer, is_unknown, now);
        true
    }

    /// Whether a client has brought no token where one is wanted, and keeps its place yet.
    pub(crate) fn is_unknown(&self, who: ClientId) -> bool {
        match self.get(who) {
            Some(conn) => conn.is_unknown,
            None => false,
        }
    }

    /// A client has brought a token, or is to have its place no more.
    pub(crate) fn note_known(&mut self, who: ClientId) {
        let Some(at) = self.find(who) else {
            return;
        };
        if self.all[at].is_unknown {
            self.all[at].is_unknown = false;
            self.strangers = self.strangers.saturating_sub(1);
        }
    }

    /// Whether a client has brought no token in the time that it has for one.
    fn lacks_token(&self, who: ClientId, now: u64) -> bool {
        match self.get(who) {
            Some(conn) => conn.lacks_token(now),
            None => false,
        }
    }

    /// How many were closed since they had brought no token.
    pub(crate) fn tokenless(&self) -> u64 {
        self.tokenless
    }

    /// A client is to be closed, if it has brought no token in the time that it has for one.
    pub(crate) fn close_if_tokenless(&mut self, who: ClientId, now: u64) {
        if self.lacks_token(who, now) {
            self.close_tokenless(who);
        }
    }

    /// A client is to be closed that has brought no token.
    fn close_tokenless(&mut self, who: ClientId) {
        self.note_known(who);
        self.note_leaving(who);
        self.tokenless = self.tokenless.saturating_add(1);
        self.want(who, Want::Close);
    }

    /// There are so many places. As far as connections without a token hold more of them than they may, those that have
    /// waited longest are to be closed.
    pub(crate) fn keep_places(&mut self, places: u32) {
        for _ in 0..self.unknown.len() {
            if self.strangers <= most_unknown(places.saturating_sub(self.known())) {
                return;
            }
            self.close_oldest();
        }
    }

    /// The first of those that came without a token is to be closed, if it is there and has brought none since.
    fn close_oldest(&mut self) {
        let Some(who) = self.unknown.pop_front() else {
            return;
        };
        if !self.is_unknown(who) {
            return;
        }
        self.close_tokenless(who);
    }

    /// A client is to be closed since it has brought no token.
    fn note_leaving(&mut self, who: ClientId) {
        let Some(at) = self.find(who) else {
            return;
        };
        self.all[at].is_leaving = true;
        self.leaving = self.leaving.saturating_add(1);
    }

    /// The place of a client's connection, if it is there.
    fn find(&self, who: ClientId) -> Option<usize>
        ensures some { IfSome result (λ at. at < length self.now.all.items) }
        ensures there { IfSome result (λ at. (at ≡ who.key) × ((conn : Conn) × (slice_get self.now.all.items at ≡ Some conn)
            × IsPlaceOf who (keeping conn))) }
    {
        let at = who.key as usize;
        if at >= self.all.len() || !self.all[at].is_of(who) {
            return None;
        }
        Some(at)
    }

    /// The connection of a client.
    fn get(&self, who: ClientId) -> Option<&Conn>
        ensures there { IfSome result (λ conn. (slice_get self.now.all.items who.key ≡ Some conn.now) × IsPlaceOf who (keeping conn.now)) }
        ensures away { IfNone result (NoneKept (keepings self.now) who) }
    {
        let conn = self.all.get(who.key as usize)?;
        if conn.is_of(who) { Some(conn) } else { None }
    }

    /// Whether a client's connection is there.
    pub(crate) fn has(&self, who: ClientId) -> bool {
        self.get(who).is_some()
    }

    /// The peer whose lines a client brings, if it does.
    pub(crate) fn peer(&self, who: ClientId) -> Option<u16> {
        self.get(who)?.peer
    }

    /// Whether bytes of a client wait for which it had no room.
    pub(crate) fn has_rest(&self, who: ClientId) -> bool
        ensures { result ≡ false → NoneKept (keepings self.now) who }
    {
        match self.get(who) {
            Some(conn) => !conn.rest.is_empty(),
            None => false,
        }
    }

    /// The bytes of a client that wait, for which it had no room.
    pub(crate) fn rest(&self, who: ClientId) -> Option<&[u8]>
        ensures { IfSome result (λ kept. AreKept (keepings self.now) who kept.now) }
    {
        let conn = self.get(who)?;
        Some(&conn.rest)
    }

    /// Whether bytes of a client wait for which it had no room, or no more come.
    pub(crate) fn is_to_go_on(&self, who: ClientId) -> bool {
        match self.get(who) {
            Some(conn) => conn.is_deaf || !conn.rest.is_empty(),
            None => false,
        }
    }

    /// Whether a client's way out is shut.
    pub(crate) fn is_lingering(&self, who: ClientId) -> bool {
        match self.get(who) {
            Some(conn) => conn.lingers.is_some(),
            None => false,
        }
    }

    /// Whether more bytes of a client may be heard: it is there, none of its wait, and it has not ended.
    pub(crate) fn may_hear(&self, who: ClientId) -> bool {
        match self.get(who) {
            Some(conn) => !conn.is_deaf && conn.rest.is_empty(),
            None => false,
        }
    }

    /// Whether it is known that there is output of a client.
    pub(crate) fn is_writing(&self, who: ClientId) -> bool {
        match self.get(who) {
            Some(conn) => conn.is_writing,
            None => false,
        }
    }

    /// What is known of a client's connection between requests, if it is there.
    pub(crate) fn visit(&self, who: ClientId) -> Option<Visit> {
        let conn = self.get(who)?;
        Some(conn.visit)
    }

    /// Whether a client brings no whole request, or takes nothing of its answers, which wait or not.
    pub(crate) fn is_late(&self, who: ClientId, has_output: bool, now: u64) -> bool {
        match self.get(who) {
            Some(conn) => conn.is_late(has_output, now),
            None => false,
        }
    }

    /// Whether a client was silent for too long.
    pub(crate) fn is_silent(&self, who: ClientId, now: u64) -> bool {
        match self.get(who) {
            Some(conn) => is_past(now, conn.heard, CLOSE_AFTER),
            None => false,
        }
    }

    /// Whether a client's way out is shut for longer than it may take to close.
    pub(crate) fn has_lingered(&self, who: ClientId, now: u64) -> bool {
        match self.get(who) {
            Some(conn) => conn.has_lingered(now),
            None => false,
        }
    }

    /// Bytes came of a client; whether they are for it.
    pub(crate) fn note_bytes(&mut self, who: ClientId, is_first: bool, now: u64) -> bool
        ensures { keepings self.new ≡ keepings self.old }
    {
        let Some(at) = self.find(who) else {
            return false;
        };
        self.all[at].note_bytes(is_first, now)
    }

    /// Keeps bytes of a client for which it had no room. Where there are too many, or no memory, it is to be closed.
    pub(crate) fn keep(&mut self, who: ClientId, bytes: &[u8])
        ensures { KeepsFor bytes.now who (keepings self.old) (keepings self.new) }
    {
        if bytes.is_empty() {
            return;
        }
        let Some(at) = self.find(who) else {
            return;
        };
        if self.all[at].keep(bytes) {
            return;
        }
        self.want(who, Want::Close);
    }

    /// The other end of a client has said all. Whether it is to be told so; else it is to be closed, if it is there.
    pub(crate) fn note_end(&mut self, who: ClientId) -> bool
        ensures { keepings self.new ≡ keepings self.old }
    {
        let Some(at) = self.find(who) else {
            return false;
        };
        if self.all[at].note_end() {
            return true;
        }
        self.want(who, Want::Close);
        false
    }

    /// Nothing more is read of a client since the host ends; whether that is new.
    pub(crate) fn deafen(&mut self, who: ClientId) -> bool {
        let Some(at) = self.find(who) else {
            return false;
        };
        self.all[at].deafen()
    }

    /// Something was written to a client, which was behind or not.
    pub(crate) fn note_sent(&mut self, who: ClientId, was_behind: bool, now: u64) {
        let Some(at) = self.find(who) else {
            return;
        };
        self.all[at].note_sent(was_behind, now);
    }

    /// It is known that there is output of a client, or that there is none.
    pub(crate) fn set_writing(&mut self, who: ClientId, is_writing: bool) {
        let Some(at) = self.find(who) else {
            return;
        };
        self.all[at].is_writing = is_writing;
    }

    /// What is known of a client's connection after it was asked what it says, and whether a request of its was answered.
    pub(crate) fn note_visit(&mut self, who: ClientId, visit: Visit, has_answered: bool, now: u64) {
        let Some(at) = self.find(who) else {
            return;
        };
        self.all[at].note_visit(visit, has_answered, now);
    }

    /// A client heard the first so many bytes that waited. Whether some wait still.
    pub(crate) fn drop_rest(&mut self, who: ClientId, count: usize) -> bool {
        let Some(at) = self.find(who) else {
            return false;
        };
        self.all[at].drop_rest(self.alloc, count)
    }

    /// What a client is to be told of its end, once: that nothing more is heard, since the host ends or not.
    pub(crate) fn take_end(&mut self, who: ClientId) -> Option<bool> {
        let at = self.find(who)?;
        self.all[at].take_end()
    }

    /// A client is told nothing more, and all is written, or its connection is lost: it is to be closed, or its way out shut.
    pub(crate) fn part(&mut self, who: ClientId, is_lost: bool, now: u64) {
        let Some(at) = self.find(who) else {
            return;
        };
        if let Some(want) = self.all[at].part(is_lost, now) {
            self.want(who, want);
        }
    }

    /// Whether a client that is told nothing more, or may be, does not take its last output.
    pub(crate) fn has_had_its_words(&mut self, who: ClientId, is_stopped: bool, now: u64) -> bool {
        let Some(at) = self.find(who) else {
            return false;
        };
        self.all[at].has_had_its_words(is_stopped, now)
    }

    /// Whether a client is to be pinged, which it then is.
    pub(crate) fn take_ping(&mut self, who: ClientId, now: u64) -> bool {
        let Some(at) = self.find(who) else {
            return false;
        };
        self.all[at].take_ping(now)
    }

    /// Who is in a place.
    pub(crate) fn who(&self, at: usize) -> Option<ClientId> {
        let conn = self.all.get(at)?;
        if !conn.is_here {
            return None;
        }
        Some(ClientId {
            key: u32::try_from(at).ok()?,
            round: conn.round,
        })
    }

    /// A client is gone.
    pub(crate) fn leave(&mut self, who: ClientId) {
        let Some(at) = self.find(who) else {
            return;
        };
        if self.all[at].peer.is_none() {
            self.count = self.count.saturating_sub(1);
        }
        if self.all[at].is_unknown {
            self.strangers = self.strangers.saturating_sub(1);
        }
        if self.all[at].is_leaving {
            self.leaving = self.leaving.saturating_sub(1);
        }
        self.all[at].clear(self.alloc);
    }

    /// A client may say something.
    pub(crate) fn talk(&mut self, who: ClientId) {
        let Some(at) = self.find(who) else {
            return;
        };
        if self.all[at].is_talking {
            return;
        }
        // There is room: it was taken with the place.
        let is_talking = self.talking.push_back(who).is_ok();
        self.all[at].is_talking = is_talking;
    }

    /// How many may say something.
    pub(crate) fn talking(&self) -> usize {
        self.talking.len()
    }

    /// The next that may say something; it stands among them no more.
    pub(crate) fn next_talking(&mut self) -> Option<ClientId> {
        let who = self.talking.pop_front()?;
        self.unlist_talking(who);
        Some(who)
    }

    /// A client stands no more among those that may say something, if it is there: its place may be another's by now.
    fn unlist_talking(&mut self, who: ClientId) {
        let Some(at) = self.find(who) else {
            return;
        };
        self.all[at].is_talking = false;
    }

    /// This is wanted of a connection.
    pub(crate) fn want(&mut self, who: ClientId, want: Want)
        ensures { keepings self.new ≡ keepings self.old }
    {
        let Some(at) = self.find(who) else {
            return;
        };
        if self.all[at].peer.is_some() {
            return;
        }
        self.all[at].wanted.set(want, true);
        self.list(who);
    }

    /// That it is read again is not wanted: who reads it asks.
    pub(crate) fn unwant_hear(&mut self, who: ClientId) {
        let Some(at) = self.find(who) else {
            return;
        };
        self.all[at].wanted.set(Want::Hear, false);
    }

    /// Something is wanted of this connection.
    fn list(&mut self, who: ClientId)
        ensures { keepings self.new ≡ keepings self.old }
    {
        let Some(at) = self.find(who) else {
            return;
        };
        if self.all[at].is_listed {
            return;
        }
        // There is room: it was taken with the place.
        let is_listed = self.listed.push_back(who).is_ok();
        self.all[at].is_listed = is_listed;
    }

    /// A connection is listed no more among those of which something is wanted.
    fn unlist(&mut self, who: ClientId) {
        let Some(at) = self.find(who) else {
            return;
        };
        self.all[at].is_listed = false;
    }

    /// Whether something is wanted.
    pub(crate) fn is_anything_wanted(&self) -> bool {
        !self.listed.is_empty()
    }

    /// What is wanted next.
    pub(crate) fn next_wanted(&mut self) -> Option<Action> {
        for _ in 0..self.listed.len() {
            let Some(who) = self.listed.pop_front() else {
                return None;
            };
            self.unlist(who);
            if let Some(action) = self.wanted_of(who) {
                return Some(action);
            }
        }
        None
    }

    /// What is wanted of this connection; it is listed again where there is more.
    fn wanted_of(&mut self, who: ClientId) -> Option<Action> {
        let at = self.find(who)?;
        let want = self.all[at].wanted.take()?;
        if self.all[at].wanted.is_any() {
            self.list(who);
        }
        Some(want.action(who))
    }
}

/// So many of the places that those with a token leave are kept from those without one: sixteen, or half where they leave
/// fewer than 32.
fn kept_of(left: u32) -> u32
    ensures { result ≡ kept_of left }
{
    (left / 2).min(MOST_KEPT)
}

/// So many of these places connections without a token may hold.
fn most_unknown(left: u32) -> u32
    ensures { result ≡ most_unknown left }
{
    left.saturating_sub(kept_of(left))
}
