//! All clients of a room, in their places, with what they have in common.
ghost use Rattle.std.specs.Prelude.{◌≡◌, ◌⊎◌, ◌≤◌, [], ℕ, List, Some, None, false, true, IfErr, IfNone, IfOk, IfSome, OnErr, OnOk};
ghost use Rattle.std.specs.Prelude.{IsTrue, ◌<◌, length, slice_get, take};
ghost use Rattle.warp_clients.specs.Client.{ClientState, GoesIn, HasLine, Hears, IsNext, Loses, Misses, Replies};
ghost use Rattle.warp_clients.specs.declared.saying.Saying.TheVariants.{Token};
ghost use Rattle.warp_clients.specs.declared.saying.Saying.TheVariants as saying;
ghost use Rattle.warp_clients.specs.Crowd.{Becomes, GetsPlace, Goes, IsAway, IsThere, MayDo, Moves};

use crate::asking::{Asks, asks_of};
use crate::client::{Client, Listened};
use crate::counts::{Counts, NO_COUNTS};
use crate::places::Places;
use crate::saying::{Saying, first_rights};
use crate::sending::ClockTold;
use crate::texts::{NOT_ALLOWED, spell_outcome, spell_own, spell_reply, spell_rights};
use crate::watching::{Watched, is_watch};
use std::alloc::{AllocError, Global};
use std::collections::VecDeque;
use std::hash::RandomState;
use std::marker::Model;
use warp_hub::{Facts, Rights, Word};
use warp_record::{Line, Look, Reply};
use warp_room::AnsweredLine;
use warp_watch::ClientId;
use warp_web::{Answers, Gone};

/// What is due for a client whose earlier lines are all answered.
#[derive(Clone, Copy)]
pub(crate) enum Due {
    /// Nothing more.
    Nothing,
    /// The answer to a look.
    Look(Look),
    /// The answer to what is asked.
    Ask(Asks),
}

/// All clients.
#[derive(Drop)]
pub(crate) struct Crowd {
    pub(crate) alloc: Global,
    keys: RandomState,
    pub(crate) facts: Facts,
    pub(crate) places: Places,
    pub(crate) is_failing: bool,
    pub(crate) limit: u32,
    /// What the host's clock says, if it has one.
    pub(crate) clock: Option<ClockTold>,
    /// How many are there.
    count: u32,
    /// Those for which there is something to do.
    pub(crate) changed: VecDeque<ClientId>,
    /// A text on its way to a client.
    pub(crate) text: Vec<u8>,
    /// What was counted.
    pub(crate) counts: Counts,
    /// Words that began or ended a watch and were answered, and who said them.
    pub(crate) watched: VecDeque<Watched>,
}

impl Model for Crowd {
    ghost use Rattle.warp_clients.specs.Crowd.{CrowdState};

    ghost Value = { CrowdState };

    ghost view = { λ c.
        record { clients = c.places; common = record { facts = c.facts; failing = c.is_failing; limit = c.limit; clock = c.clock } } };
}

impl Crowd {
    /// Nobody is there, and nothing may be told.
    pub(crate) fn new(alloc: Global, keys: RandomState, facts: Facts) -> Crowd
        ensures { result ≡ record { clients = []; common = record { facts = facts; failing = false; limit = 0; clock = None } } }
    {
        Crowd {
            alloc,
            keys,
            facts,
            places: Places::new(alloc),
            is_failing: false,
            limit: 0,
            clock: None,
            count: 0,
            changed: VecDeque::new(alloc),
            text: Vec::new(alloc),
            counts: NO_COUNTS,
            watched: VecDeque::new(alloc),
        }
    }

    /// Whether one more may come.
    pub(crate) fn may_come(&self) -> bool {
        self.count < self.facts.most_clients
    }

    /// Takes the room that one more may want: for itself, and for all to be listed behind those that are listed now, some of
    /// which may have left.
    pub(crate) fn reserve(&mut self) -> Result<(), AllocError>
        ensures { self.new ≡ self.old }
    {
        self.places.reserve()?;
        self.changed.reserve(self.places.len().saturating_add(1))
    }

    /// Of so long a log may be told.
    pub(crate) fn limit(&self) -> u32
        ensures { result ≡ self.now.common.limit }
    {
        self.limit
    }

    /// Of so long a log may be told from now on.
    pub(crate) fn set_limit(&mut self, limit: u32)
        ensures { self.new ≡ record self.old { common = record self.old.common { limit = limit } } }
    {
        self.limit = limit;
    }

    /// Whether records are refused from now on.
    pub(crate) fn set_failing(&mut self, is_failing: bool)
        ensures { self.new ≡ record self.old { common = record self.old.common { failing = is_failing } } }
    {
        self.is_failing = is_failing;
    }

    /// A client has come: it gets its place, if that is free or the next. Whether it did.
    pub(crate) fn place(&mut self, who: ClientId) -> bool
        ensures placed { IsTrue result → GetsPlace self.old.common who self.old.clients self.new.clients
            × (self.new.common ≡ self.old.common) }
        ensures none { result ≡ false → self.new ≡ self.old }
    {
        let at = who.key as usize;
        if !self.may_place(at) {
            return false;
        }
        let client = Client::new(self.alloc, self.keys, who, &self.facts);
        if !self.places.put(at, client) {
            return false;
        }
        self.count = self.count.saturating_add(1);
        true
    }

    /// Whether this place is free, or the next.
    fn may_place(&self, at: usize) -> bool
        ensures most { IsTrue result → at ≤ length self.now.clients }
        ensures free { IsTrue result → at < length self.now.clients →
            (c : ClientState) × (slice_get self.now.clients at ≡ Some c) × (c.here ≡ false) }
    {
        if at >= self.places.len() {
            return at == self.places.len();
        }
        self.places.is_free(at)
    }

    /// A client is gone; whether it was there.
    pub(crate) fn leave(&mut self, who: ClientId)
        ensures places { Becomes who Goes self.old.clients self.new.clients
            ⊎ (IsAway who self.old.clients × (self.new.clients ≡ self.old.clients)) }
        ensures common { self.new.common ≡ self.old.common }
    {
        if self.places.leave(who, self.keys) {
            self.count = self.count.saturating_sub(1);
        }
    }

    /// There is something to do for a client.
    pub(crate) fn note(&mut self, who: ClientId)
        ensures { self.new ≡ self.old }
    {
        if self.places.list(who) {
            // There is room: it was taken with the place.
            let _ = self.changed.push_back(who);
        }
    }

    /// Hears the first of these bytes of a client for which there is room.
    pub(crate) fn hear(&mut self, who: ClientId, bytes: &[u8]) -> Result<usize, Gone>
        ensures some { IfOk result (λ n. n ≤ length bytes.now) }
        ensures ok { IfOk result (λ n. Becomes who (Hears (take n bytes.now)) self.old.clients self.new.clients) }
        ensures err { OnErr result (MayDo Loses who self.old.clients self.new.clients) }
        ensures common { self.new.common ≡ self.old.common }
    {
        self.places.hear(who, bytes)
    }

    /// No more bytes come of a client.
    pub(crate) fn end(&mut self, who: ClientId)
        ensures { Moves who self.old self.new }
    {
        self.places.end(who);
    }

    /// Asks a client what it says next.
    pub(crate) fn listen(&mut self, who: ClientId) -> Listened
        ensures { Moves who self.old self.new }
    {
        let listened = self.places.listen(who, &self.facts, self.is_failing);
        self.counts.listened(listened);
        listened
    }

    /// Answers the requests that came of a client.
    pub(crate) fn answer<S: Answers>(&mut self, who: ClientId, service: &mut S)
        ensures { Moves who self.old self.new }
    {
        self.places.answer(who, service);
    }

    /// A client speaks WebSocket from now on, with these rights, or with those without a token.
    pub(crate) fn upgrade(&mut self, who: ClientId, found: Option<Rights>)
        ensures { Moves who self.old self.new }
    {
        let rights = or_first(found, &self.facts);
        self.places.upgrade(who, rights);
    }

    /// The line for the room that waits in a client's slot.
    pub(crate) fn line(&self, who: ClientId) -> Option<Line>
        ensures { IfSome result (λ said. IsThere who (HasLine said) self.now.clients) }
    {
        self.places.line(who)
    }

    /// That line went to the room.
    pub(crate) fn go_in(&mut self, who: ClientId, said: &Line)
        requires { IsThere who (HasLine said.now) self.old.clients }
        ensures places { Becomes who (GoesIn said.now) self.old.clients self.new.clients }
        ensures common { self.new.common ≡ self.old.common }
    {
        self.places.go_in(who, said);
    }

    /// A client's connection is lost.
    pub(crate) fn lose(&mut self, who: ClientId)
        ensures { Moves who self.old self.new }
    {
        self.places.lose(who);
    }

    /// The room's answer goes to who asked; whether it is told.
    pub(crate) fn reply(&mut self, one: &AnsweredLine) -> bool
        ensures yes { result ≡ true → Becomes one.now.who (Replies one.now) self.old.clients self.new.clients }
        ensures no { result ≡ false → Becomes one.now.who Misses self.old.clients self.new.clients
            ⊎ (IsAway one.now.who self.old.clients × (self.new.clients ≡ self.old.clients)) }
        ensures common { self.new.common ≡ self.old.common }
    {
        if !spell_outcome(&mut self.text, &one.answer.outcome) {
            self.places.miss(one.who);
            return false;
        }
        let is_told = self.places.reply(one, &self.text);
        self.counts.replied(is_told, &one.answer);
        is_told
    }

    /// Answers what a client said, where all before it is answered and the answer is given here; or says what is due.
    pub(crate) fn settle(&mut self, who: ClientId) -> Due
        ensures { Moves who self.old self.new }
    {
        let Some(said) = self.waiting(who) else {
            return Due::Nothing;
        };
        match said {
            Saying::Look(look) => Due::Look(look),
            Saying::Token(None) => {
                self.refuse(who);
                Due::Nothing
            }
            Saying::Token(Some(rights)) => {
                self.grant(who, &rights);
                Due::Nothing
            }
            Saying::Word(word) => self.word(who, &said, &word),
            _ => {
                self.own(who, &said);
                Due::Nothing
            }
        }
    }

    /// What a client said that is to be answered here, where all before it is answered.
    pub(crate) fn waiting(&self, who: ClientId) -> Option<Saying>
        ensures { IfSome result (λ said. IsThere who (IsNext said) self.now.clients) }
    {
        self.places.waiting(who)
    }

    /// Answers a word, or says what is to be asked.
    fn word(&mut self, who: ClientId, said: &Saying, word: &Word) -> Due
        requires next { IsThere who (IsNext said.now) self.old.clients }
        requires is { said.now ≡ saying.Word word.now }
        ensures { Moves who self.old self.new }
    {
        if let Some(asks) = asks_of(word) {
            return Due::Ask(asks);
        }
        if is_watch(word) {
            self.watch(who, said, word);
            return Due::Nothing;
        }
        self.own(who, said);
        Due::Nothing
    }

    /// Answers what a client said by a text of its own.
    fn own(&mut self, who: ClientId, said: &Saying)
        requires { IsThere who (IsNext said.now) self.old.clients }
        ensures { Moves who self.old self.new }
    {
        if !spell_own(&mut self.text, &self.facts, self.clock, said) {
            self.places.lose(who);
            return;
        }
        self.counts.told(0, &self.text);
        self.places
            .speak(who, &self.facts, self.clock, said, &self.text);
    }

    /// Refuses a client's token.
    fn refuse(&mut self, who: ClientId)
        requires { IsThere who (IsNext (Token None)) self.old.clients }
        ensures { Moves who self.old self.new }
    {
        self.counts.refused_token();
        self.places.refuse(who, NOT_ALLOWED);
    }

    /// Gives a client the rights of its token.
    fn grant(&mut self, who: ClientId, rights: &Rights)
        requires { IsThere who (IsNext (Token (Some rights.now))) self.old.clients }
        ensures { Moves who self.old self.new }
    {
        if !spell_rights(&mut self.text, rights) {
            self.places.lose(who);
            return;
        }
        self.counts.spoke();
        self.places.grant(who, rights, &self.text);
    }
}

/// These rights, or those without a token.
fn or_first(found: Option<Rights>, facts: &Facts) -> Rights {
    match found {
        Some(rights) => rights,
        None => first_rights(facts),
    }
}
