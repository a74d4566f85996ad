//! What is told to clients late, and written to them.
ghost use Rattle.std.specs.Prelude.{◌≡◌, ◌≤◌, [], Some, false, true, IfNone, IfSome, slice_get};
ghost use Rattle.warp_record.specs.declared.line.Look.{Look};
ghost use Rattle.warp_clients.specs.Client.{ClientState, Ends, IsMe, IsNext, MayWrite, Pushes};
ghost use Rattle.warp_clients.specs.Sayings.{IsOwn};
ghost use Rattle.warp_clients.specs.declared.saying.Saying.TheVariants as saying;
ghost use Rattle.warp_clients.specs.Crowd.{Becomes, IsAway, IsOutputOf, IsThere, MayDo, MayTell, Moves};

use crate::asking::asks_of;
use crate::crowd::Crowd;
use crate::saying::Saying;
use crate::texts::spell_reply;
use warp_hub::Word;
use warp_record::Reply;
use warp_watch::ClientId;

impl Crowd {
    /// A client's look is answered by this reply.
    pub(crate) fn speak_look(&mut self, who: ClientId, reply: &Reply)
        ensures { Moves who self.old self.new }
    {
        let Some(said) = self.waiting(who) else {
            return;
        };
        if let Saying::Look(_) = said {
            self.speak_reply(who, &said, reply);
        }
    }

    /// A client's look is answered by this reply.
    fn speak_reply(&mut self, who: ClientId, said: &Saying, reply: &Reply)
        requires next { IsThere who (IsNext said.now) self.old.clients }
        requires look { (asked : Look) × (said.now ≡ saying.Look asked) }
        ensures { Moves who self.old self.new }
    {
        if !spell_reply(&mut self.text, reply) {
            self.places.lose(who);
            return;
        }
        self.counts.spoke();
        self.places
            .speak(who, &self.facts, self.clock, said, &self.text);
    }

    /// A client's word is answered by this text, which tells of a log of this length, if that may be told.
    pub(crate) fn speak_told(&mut self, who: ClientId, len: u32, text: &[u8])
        ensures tells { MayTell self.old.common len text.now who self.old.clients self.new.clients }
        ensures common { self.new.common ≡ self.old.common }
    {
        let Some(said) = self.waiting(who) else {
            return;
        };
        if let Saying::Word(word) = said {
            if len <= self.limit && asks_of(&word).is_some() {
                self.speak_word(who, &word, len, text);
            }
        }
    }

    /// A client's word is answered by this text, which tells of a log of this length.
    fn speak_word(&mut self, who: ClientId, word: &Word, len: u32, text: &[u8])
        requires next { IsThere who (IsNext (saying.Word word.now)) self.old.clients }
        requires own { IsOwn self.old.common.facts self.old.common.clock (saying.Word word.now) text.now }
        requires most { len ≤ self.old.common.limit }
        ensures tells { MayTell self.old.common len text.now who self.old.clients self.new.clients }
        ensures common { self.new.common ≡ self.old.common }
    {
        self.counts.told(len, text);
        self.places
            .speak(who, &self.facts, self.clock, &Saying::Word(*word), text);
    }

    /// Whole lines that tell of a log of this length are pushed to a client, if that may be told; whether they were.
    pub(crate) fn push(&mut self, who: ClientId, len: u32, text: &[u8]) -> bool
        ensures yes { result ≡ true → (len ≤ self.old.common.limit) × Becomes who (Pushes text.now) self.old.clients self.new.clients }
        ensures no { result ≡ false → MayDo Ends who self.old.clients self.new.clients }
        ensures common { self.new.common ≡ self.old.common }
    {
        if len > self.limit {
            return false;
        }
        let is_pushed = self.places.push(who, text);
        self.counts.pushed(is_pushed);
        self.note(who);
        is_pushed
    }

    /// How many are listed, with those that left.
    fn listed(&self) -> usize {
        self.changed.len()
    }

    /// The first that is listed is listed no more: who it is, if it is there.
    fn unlist(&mut self) -> Option<ClientId>
        ensures same { self.new ≡ self.old }
        ensures here { IfSome result (λ who. IsThere who (λ c. Unit {0}) self.new.clients) }
    {
        let who = self.changed.pop_front()?;
        self.places.unlist(who)
    }

    /// The next client for which there is something to do, if one is there; it is listed no more.
    fn next_listed(&mut self) -> Option<ClientId>
        ensures same { self.new ≡ self.old }
        ensures here { IfSome result (λ who. IsThere who (λ c. Unit {0}) self.new.clients) }
    {
        for _ in 0..self.listed() {
            if let Some(who) = self.unlist() {
                return Some(who);
            }
        }
        None
    }

    /// The next client for which there is something to do: its output is made ready.
    pub(crate) fn changed(&mut self) -> Option<ClientId>
        ensures some { IfSome result (λ who. Moves who self.old self.new × IsThere who (λ c. Unit {0}) self.new.clients) }
        ensures none { IfNone result (self.new ≡ self.old) }
    {
        let who = self.next_listed()?;
        self.ready(who);
        Some(who)
    }

    /// Makes a client's output ready.
    fn ready(&mut self, who: ClientId)
        ensures { Moves who self.old self.new }
    {
        self.finish(who);
        self.carry(who);
        self.close(who);
    }

    /// A client is over where it says nothing more and all is answered.
    fn finish(&mut self, who: ClientId)
        ensures { Moves who self.old self.new }
    {
        self.places.finish(who);
    }

    /// A client's connection is told what fits of what the client was told.
    fn carry(&mut self, who: ClientId)
        ensures { Moves who self.old self.new }
    {
        self.places.carry(who);
    }

    /// A client's connection is closed behind what it was told, where it is told nothing more.
    fn close(&mut self, who: ClientId)
        ensures { Moves who self.old self.new }
    {
        self.places.close(who);
    }

    /// The next bytes to be written to a client; none where it is not there.
    pub(crate) fn output(&self, who: ClientId) -> &[u8]
        ensures there { (c : ClientState) → slice_get self.now.clients who.key ≡ Some c → IsMe who c → IsOutputOf result.now c }
        ensures away { IsAway who self.now.clients → result.now ≡ [] }
    {
        self.places.output(who)
    }

    /// The first so many bytes of a client's output were written.
    pub(crate) fn written(&mut self, who: ClientId, count: usize)
        ensures places { MayDo (MayWrite count) who self.old.clients self.new.clients }
        ensures common { self.new.common ≡ self.old.common }
    {
        self.places.written(who, count);
        if count > 0 {
            self.note(who);
        }
    }

    /// Whether a client's connection is to be closed now.
    pub(crate) fn is_over(&self, who: ClientId) -> bool {
        self.places.is_over(who)
    }

    /// Whether a client's bytes are wanted.
    pub(crate) fn wants(&self, who: ClientId) -> bool {
        self.places.wants(who)
    }
}
