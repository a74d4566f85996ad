//! Clients in their places: each call is for one client, which is looked for by its key and its round here, once.
ghost use Rattle.std.specs.Prelude.{◌≡◌, ◌⊎◌, ◌≤◌, ◌<◌, ◌++◌, ◌∷◌, [], ℕ, List, Some, None, false, true};
ghost use Rattle.std.specs.Prelude.{IfErr, IfNone, IfOk, IfSome, OnErr, OnOk};
ghost use Rattle.std.specs.Prelude.{IsTrue, length, slice_get, slice_set, take};
ghost use Rattle.warp_room.specs.Gate.{outcome_line};
ghost use Rattle.warp_clients.specs.Client.{ClientState, Closes, Ends, GoesIn, HasLine, Hears, IsMe, IsNext, Listens, Loses, MayCarry};
ghost use Rattle.warp_clients.specs.Client.{MayEnd, MayGrant, MayRefuse, MaySpeak, MayUpgrade, MayWrite, Misses, Pushes, Replies, Rests};
ghost use Rattle.warp_clients.specs.Crowd.{Becomes, Goes, IsAway, IsOutputOf, IsThere, MayDo};
ghost use Rattle.warp_clients.specs.Sayings.{IsOwn, refused_13};
ghost use Rattle.warp_clients.specs.declared.saying.Saying.TheVariants.{Token};

use crate::client::{Client, Listened};
use crate::saying::Saying;
use crate::sending::ClockTold;
use std::alloc::{AllocError, Global};
use std::hash::RandomState;
use std::marker::Model;
use warp_hub::{Facts, Rights};
use warp_record::Line;
use warp_room::AnsweredLine;
use warp_watch::ClientId;
use warp_web::{Answers, Gone};

/// The clients by their keys.
#[derive(Drop)]
pub(crate) struct Places {
    pub(crate) clients: Vec<Client>,
}

impl Model for Places {
    ghost use Rattle.std.specs.Prelude.{List};
    ghost use Rattle.warp_clients.specs.Client.{ClientState};

    ghost Value = { List ClientState };

    ghost view = { λ p. p.clients.items };
}

impl Places {
    /// Nobody is there.
    pub(crate) fn new(alloc: Global) -> Places
        ensures { result ≡ [] }
    {
        Places {
            clients: Vec::new(alloc),
        }
    }

    /// How many places there are.
    pub(crate) fn len(&self) -> usize
        ensures { result ≡ length self.now }
    {
        self.clients.len()
    }

    /// Takes room for one more.
    pub(crate) fn reserve(&mut self) -> Result<(), AllocError>
        ensures { self.new ≡ self.old }
    {
        self.clients.reserve(1)?;
        Ok(())
    }

    /// The place of the client, if it is there.
    pub(crate) fn find(&self, who: ClientId) -> Option<usize>
        ensures there { IfSome result (λ at. (at ≡ who.key) × ((c : ClientState) × (slice_get self.now at ≡ Some c) × IsMe who c)) }
        ensures away { IfNone result (IsAway who self.now) }
    {
        let at = who.key as usize;
        if at >= self.clients.len() || !self.clients[at].is_me(who) {
            return None;
        }
        Some(at)
    }

    /// Hears the first of these bytes of the client.
    pub(crate) fn hear(&mut self, who: ClientId, bytes: &[u8]) -> Result<usize, Gone>
        ensures some { IfOk result (λ n. n ≤ length bytes.now) }
        ensures ok { IfOk result (λ n. Becomes who (Hears (take n bytes.now)) self.old self.new) }
        ensures err { OnErr result (MayDo Loses who self.old self.new) }
    {
        let Some(at) = self.find(who) else {
            return Err(Gone);
        };
        let Ok(count) = self.clients[at].hear(bytes) else {
            return Err(Gone);
        };
        Ok(count)
    }

    /// No more bytes come of the client.
    pub(crate) fn end(&mut self, who: ClientId)
        ensures { MayDo Closes who self.old self.new }
    {
        let at = who.key as usize;
        if at >= self.clients.len() || !self.clients[at].is_me(who) {
            return;
        }
        self.clients[at].end();
    }

    /// Asks the client what it says next.
    pub(crate) fn listen(&mut self, who: ClientId, facts: &Facts, is_failing: bool) -> Listened
        ensures { MayDo (Listens facts.now is_failing result) who self.old self.new }
    {
        let at = who.key as usize;
        if at >= self.clients.len() || !self.clients[at].is_me(who) {
            return Listened::Nothing;
        }
        self.clients[at].listen(facts, is_failing)
    }

    /// Answers the requests that came of the client.
    pub(crate) fn answer<S: Answers>(&mut self, who: ClientId, service: &mut S)
        ensures { MayDo Rests who self.old self.new }
    {
        let at = who.key as usize;
        if at >= self.clients.len() || !self.clients[at].is_me(who) {
            return;
        }
        self.clients[at].answer(service);
    }

    /// The client speaks WebSocket from now on, with these rights.
    pub(crate) fn upgrade(&mut self, who: ClientId, rights: Rights)
        ensures { MayDo (MayUpgrade rights) who self.old self.new }
    {
        let at = who.key as usize;
        if at >= self.clients.len() || !self.clients[at].is_me(who) {
            return;
        }
        self.clients[at].upgrade(rights);
    }

    /// The line for the room that waits in the client's slot.
    pub(crate) fn line(&self, who: ClientId) -> Option<Line>
        ensures { IfSome result (λ said. IsThere who (HasLine said) self.now) }
    {
        let at = who.key as usize;
        if at >= self.clients.len() || !self.clients[at].is_me(who) {
            return None;
        }
        self.clients[at].line()
    }

    /// That line went to the room.
    pub(crate) fn go_in(&mut self, who: ClientId, said: &Line)
        requires { IsThere who (HasLine said.now) self.old }
        ensures { Becomes who (GoesIn said.now) self.old self.new }
    {
        self.clients[who.key as usize].go_in(said);
    }

    /// The client's connection is lost.
    pub(crate) fn lose(&mut self, who: ClientId)
        ensures { MayDo Loses who self.old self.new }
    {
        let at = who.key as usize;
        if at >= self.clients.len() || !self.clients[at].is_me(who) {
            return;
        }
        self.clients[at].lose();
    }

    /// The room's answer goes to who asked; whether it is told.
    pub(crate) fn reply(&mut self, one: &AnsweredLine, text: &[u8]) -> bool
        requires { text.now ≡ outcome_line one.now.answer.outcome }
        ensures yes { result ≡ true → Becomes one.now.who (Replies one.now) self.old self.new }
        ensures no { result ≡ false → Becomes one.now.who Misses self.old self.new
            ⊎ (IsAway one.now.who self.old × (self.new ≡ self.old)) }
    {
        let at = one.who.key as usize;
        if at >= self.clients.len() || !self.clients[at].is_me(one.who) {
            return false;
        }
        self.clients[at].reply(one, text)
    }

    /// The room's answer goes to nobody: there was no memory for it.
    pub(crate) fn miss(&mut self, who: ClientId)
        ensures { Becomes who Misses self.old self.new ⊎ (IsAway who self.old × (self.new ≡ self.old)) }
    {
        let at = who.key as usize;
        if at >= self.clients.len() || !self.clients[at].is_me(who) {
            return;
        }
        self.clients[at].miss();
    }

    /// What the client said that is to be answered here, where all before it is answered.
    pub(crate) fn waiting(&self, who: ClientId) -> Option<Saying>
        ensures { IfSome result (λ said. IsThere who (IsNext said) self.now) }
    {
        let at = who.key as usize;
        if at >= self.clients.len() || !self.clients[at].is_me(who) {
            return None;
        }
        self.clients[at].waiting()
    }

    /// What the client said is answered by this text.
    pub(crate) fn speak(
        &mut self,
        who: ClientId,
        facts: &Facts,
        clock: Option<ClockTold>,
        said: &Saying,
        text: &[u8],
    )
        requires next { IsThere who (IsNext said.now) self.old }
        requires own { IsOwn facts.now clock said.now text.now }
        ensures { Becomes who (MaySpeak facts.now clock said.now text.now) self.old self.new }
    {
        self.clients[who.key as usize].speak(facts, clock, said, text);
    }

    /// The client's token is refused by this text.
    pub(crate) fn refuse(&mut self, who: ClientId, text: &[u8])
        requires next { IsThere who (IsNext (Token None)) self.old }
        requires text { text.now ≡ refused_13 }
        ensures { Becomes who (MayRefuse text.now) self.old self.new }
    {
        self.clients[who.key as usize].refuse(text);
    }

    /// The client takes on the rights of its token, and is told so by this text.
    pub(crate) fn grant(&mut self, who: ClientId, rights: &Rights, text: &[u8])
        requires { IsThere who (IsNext (Token (Some rights.now))) self.old }
        ensures { Becomes who (MayGrant rights.now text.now) self.old self.new }
    {
        self.clients[who.key as usize].grant(rights, text);
    }

    /// Whole lines are pushed to the client; whether they were.
    pub(crate) fn push(&mut self, who: ClientId, text: &[u8]) -> bool
        ensures yes { result ≡ true → Becomes who (Pushes text.now) self.old self.new }
        ensures no { result ≡ false → MayDo Ends who self.old self.new }
    {
        let at = who.key as usize;
        if at >= self.clients.len() || !self.clients[at].is_me(who) {
            return false;
        }
        self.clients[at].push(text)
    }

    /// The first so many bytes of the client's output were written.
    pub(crate) fn written(&mut self, who: ClientId, count: usize)
        ensures { MayDo (MayWrite count) who self.old self.new }
    {
        let at = who.key as usize;
        if at >= self.clients.len() || !self.clients[at].is_me(who) {
            return;
        }
        self.clients[at].written(count);
    }

    /// The client is gone; whether it was there.
    pub(crate) fn leave(&mut self, who: ClientId, keys: RandomState) -> bool
        ensures yes { result ≡ true → Becomes who Goes self.old self.new }
        ensures no { result ≡ false → IsAway who self.old × (self.new ≡ self.old) }
    {
        let at = who.key as usize;
        if at >= self.clients.len() || !self.clients[at].is_me(who) {
            return false;
        }
        self.clients[at].leave(keys);
        true
    }

    /// The client is over where it says nothing more and all is answered.
    pub(crate) fn finish(&mut self, who: ClientId)
        ensures { MayDo MayEnd who self.old self.new }
    {
        let at = who.key as usize;
        if at >= self.clients.len() || !self.clients[at].is_me(who) {
            return;
        }
        self.clients[at].finish();
    }

    /// The client's connection is told what fits of what the client was told.
    pub(crate) fn carry(&mut self, who: ClientId)
        ensures { MayDo MayCarry who self.old self.new }
    {
        let at = who.key as usize;
        if at >= self.clients.len() || !self.clients[at].is_me(who) {
            return;
        }
        self.clients[at].carry();
    }

    /// The client's connection is closed behind what it was told, where it is told nothing more.
    pub(crate) fn close(&mut self, who: ClientId)
        ensures { MayDo Closes who self.old self.new }
    {
        let at = who.key as usize;
        if at >= self.clients.len() || !self.clients[at].is_me(who) {
            return;
        }
        self.clients[at].close();
    }

    /// The client stands among those for which there is something to do. Whether that is new of one that is there.
    pub(crate) fn list(&mut self, who: ClientId) -> bool
        ensures { self.new ≡ self.old }
    {
        let at = who.key as usize;
        if at >= self.clients.len() || !self.clients[at].is_me(who) {
            return false;
        }
        self.clients[at].list(true)
    }

    /// The client stands no longer among those for which there is something to do: who it is, if it is there.
    pub(crate) fn unlist(&mut self, who: ClientId) -> Option<ClientId>
        ensures same { self.new ≡ self.old }
        ensures here { IfSome result (λ one. IsThere one (λ c. Unit {0}) self.new) }
    {
        let at = self.find(who)?;
        self.clients[at].list(false);
        Some(who)
    }

    /// Puts a client into the place that is free, or the next.
    pub(crate) fn put(&mut self, at: usize, client: Client) -> bool
        requires { at ≤ length self.old }
        ensures next { IsTrue result → at ≡ length self.old → self.new ≡ self.old ++ client ∷ [] }
        ensures free { IsTrue result → at < length self.old → self.new ≡ slice_set self.old at client }
        ensures none { result ≡ false → self.new ≡ self.old }
    {
        if at < self.clients.len() {
            self.clients[at] = client;
            return true;
        }
        self.clients.push(client).is_ok()
    }

    /// The next bytes to be written to the client; none where it is not there.
    pub(crate) fn output(&self, who: ClientId) -> &[u8]
        ensures there { (c : ClientState) → slice_get self.now who.key ≡ Some c → IsMe who c → IsOutputOf result.now c }
        ensures away { IsAway who self.now → result.now ≡ [] }
    {
        match self.find(who) {
            Some(at) => self.clients[at].output(),
            None => b"",
        }
    }

    /// Whether a client's connection is to be closed now, also where it is not there.
    pub(crate) fn is_over(&self, who: ClientId) -> bool {
        match self.find(who) {
            Some(at) => self.clients[at].is_over(),
            None => true,
        }
    }

    /// Whether a client's bytes are wanted.
    pub(crate) fn wants(&self, who: ClientId) -> bool {
        match self.find(who) {
            Some(at) => self.clients[at].wants(),
            None => false,
        }
    }

    /// Whether nobody is in this place.
    pub(crate) fn is_free(&self, at: usize) -> bool
        requires { at < length self.now }
        ensures { IsTrue result → (c : ClientState) × (slice_get self.now at ≡ Some c) × (c.here ≡ false) }
    {
        self.clients[at].is_free()
    }
}
