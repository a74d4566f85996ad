//! What is asked about a client's connection, and done to it, by who looks after it.
ghost use Rattle.std.specs.Prelude.{◌≡◌, ◌⊎◌};
ghost use Rattle.warp_replica.specs.Answered.{facts_of};
ghost use Rattle.warp_clients.specs.Client.{Closes, Ended, Ends, Lost, Quieted};
ghost use Rattle.warp_clients.specs.Crowd.{MayDo};
ghost use Rattle.warp_clients.specs.Steps.{StepDoes};
ghost use Rattle.warp_clients.specs.Steps as steps;

use crate::client::Client;
use crate::clients::Clients;
use crate::counts::Counts;
use crate::crowd::Crowd;
use crate::places::Places;
use warp_line::Timeline;
use warp_watch::ClientId;
use warp_web::Kind;

impl Client {
    /// Asks its other end for a sign of it, over WebSocket. Where that can't be it is lost.
    fn ping(&mut self)
        ensures { Closes self.old self.new }
    {
        if self.gone {
            return;
        }
        let Ok(()) = self.wire.ping() else {
            self.lose();
            return;
        };
    }

    /// It is told nothing more.
    fn stop(&mut self)
        ensures { Ends self.old self.new }
    {
        self.over = true;
    }

    /// It is over once it has said the whole lines that came.
    fn cease(&mut self)
        ensures { self.new ≡ self.old }
    {
        self.ceases = true;
    }

    /// How many bytes were told to it and not written.
    fn unread(&self) -> usize {
        self.out.len().saturating_add(self.output().len())
    }
}

impl Places {
    /// The client, if it is there.
    fn one(&self, who: ClientId) -> Option<&Client> {
        let at = self.find(who)?;
        self.clients.get(at)
    }

    /// Asks the client's other end for a sign of it.
    fn ping(&mut self, who: ClientId)
        ensures { MayDo Closes who self.old self.new }
    {
        let at = who.key as usize;
        if at >= self.clients.len() || !self.clients[at].is_me(who) {
            return;
        }
        self.clients[at].ping();
    }

    /// The client is told nothing more.
    fn stop(&mut self, who: ClientId)
        ensures { MayDo Ends who self.old self.new }
    {
        let at = who.key as usize;
        if at >= self.clients.len() || !self.clients[at].is_me(who) {
            return;
        }
        self.clients[at].stop();
    }

    /// The client is over once the whole lines that came of it are answered.
    fn cease(&mut self, who: ClientId)
        ensures { self.new ≡ self.old }
    {
        let at = who.key as usize;
        if at >= self.clients.len() || !self.clients[at].is_me(who) {
            return;
        }
        self.clients[at].cease();
    }
}

impl Crowd {
    /// A client is over once the whole lines that came of it are answered.
    fn cease(&mut self, who: ClientId)
        ensures { self.new ≡ self.old }
    {
        self.places.cease(who);
        self.note(who);
    }

    /// Asks a client's other end for a sign of it.
    fn ping(&mut self, who: ClientId)
        ensures places { MayDo Closes who self.old.clients self.new.clients }
        ensures common { self.new.common ≡ self.old.common }
    {
        self.places.ping(who);
        self.note(who);
    }

    /// A client is told nothing more.
    fn stop(&mut self, who: ClientId)
        ensures places { MayDo Ends who self.old.clients self.new.clients }
        ensures common { self.new.common ≡ self.old.common }
    {
        self.places.stop(who);
        self.note(who);
    }
}

impl<T: Timeline> Clients<T> {
    /// What was counted.
    pub fn counts(&self) -> Counts {
        self.crowd.counts
    }

    /// A client's other end is asked for a sign of it, over WebSocket. Where that can't be its connection is lost.
    pub fn ping(&mut self, who: ClientId)
        ensures { (self.new ≡ self.old)
            ⊎ (StepDoes (facts_of T.settled T.refused T.floor T.SLACK) (steps.Does who Quieted) self.old self.new
            ⊎ StepDoes (facts_of T.settled T.refused T.floor T.SLACK) (steps.Does who Lost) self.old self.new) }
    {
        self.crowd.ping(who);
    }

    /// A client is told nothing more: it is over once what it was told is written.
    pub fn stop(&mut self, who: ClientId)
        ensures { (self.new ≡ self.old)
            ⊎ StepDoes (facts_of T.settled T.refused T.floor T.SLACK) (steps.Does who Ended) self.old self.new }
    {
        self.crowd.stop(who);
    }

    /// Nothing more is heard of a client: it is over once the whole lines that came of it are answered. Of a line that is not
    /// ended it is not known what it says, so it gets no answer.
    pub fn cease(&mut self, who: ClientId)
        ensures { self.new ≡ self.old }
    {
        self.crowd.cease(who);
    }

    /// What a client's connection speaks; `Kind::Over` where it is not there.
    pub fn kind(&self, who: ClientId) -> Kind {
        match self.crowd.places.one(who) {
            Some(client) => client.wire.kind(),
            None => Kind::Over,
        }
    }

    /// Whether a client's connection is lost, also where it is not there: nothing more is written to it.
    pub fn is_lost(&self, who: ClientId) -> bool {
        match self.crowd.places.one(who) {
            Some(client) => client.gone,
            None => true,
        }
    }

    /// Whether a client is told nothing more, also where it is not there.
    pub fn is_stopped(&self, who: ClientId) -> bool {
        match self.crowd.places.one(who) {
            Some(client) => client.over,
            None => true,
        }
    }

    /// Whether either end of a client's connection closes, over WebSocket.
    pub fn is_closing(&self, who: ClientId) -> bool {
        match self.crowd.places.one(who) {
            Some(client) => client.wire.is_closing(),
            None => false,
        }
    }

    /// Whether so many bytes are to be written to a client that nothing more is told to its connection.
    pub fn is_behind(&self, who: ClientId) -> bool {
        match self.crowd.places.one(who) {
            Some(client) => client.wire.is_behind(),
            None => false,
        }
    }

    /// Whether a line of a client would be heard now.
    pub fn may_say(&self, who: ClientId) -> bool {
        match self.crowd.places.one(who) {
            Some(client) => client.may_listen(),
            None => false,
        }
    }

    /// How many bytes were told to a client and not written.
    pub fn unread(&self, who: ClientId) -> usize {
        match self.crowd.places.one(who) {
            Some(client) => client.unread(),
            None => 0,
        }
    }
}
