//! A connection that speaks HTTP, over the steps of `http_server`.

ghost use Rattle.std.specs.Prelude.{◌≡◌, ◌<◌, ◌≤◌, ◌↔◌, ◌++◌, true, IfOk, IsTrue, OnOk, length, take};
ghost use Rattle.bytes.specs.Unread.{IsChunkOf};
ghost use Rattle.http_server.specs.Connection.{config_of, history};
ghost use Rattle.http_server.specs.Exchange.{Calls};
ghost use Rattle.http_server.specs.History.{IsDone, IsServed, Rests, WantsRead, after_sent, new_history};
ghost use Rattle.warp_web.specs.Bounds.{most_unanswered};
ghost use Rattle.warp_web.specs.Http.{Converses, Receives, config_in, history_in, http_config, news_in};
ghost use Rattle.warp_web.specs.Lines.{Passed, nothing_passed};

use crate::bounds::{MOST_PART, READ_SIZE};
use crate::gone::Gone;
use crate::unanswered::Unanswered;
use bytes::BytesMut;
use http_server::{Config, Connection, Service, State};
use http1::Limits;
use std::alloc::Global;
use std::hash::RandomState;

/// What answers requests, and knows how many it answered.
pub trait Answers: Service {
    /// How many requests it answered so far.
    fn answered(&self) -> u64;
}

/// A connection that speaks HTTP, with no socket and no clock.
#[derive(Drop)]
pub struct Http {
    connection: Connection,
    unanswered: Unanswered,
    /// Bytes came or ended, or were written, since requests were answered last, or none were yet.
    has_news: bool,
}

impl Http {
    /// A connection of which nothing came. The other end chooses the names of headers, so their maps take secret keys.
    pub fn new(alloc: Global, keys: RandomState) -> Http
        ensures history { history_in result ≡ new_history }
        ensures limits { config_in result ≡ http_config }
        ensures converses { Converses nothing_passed result }
    {
        let config = Config {
            limits: Limits {
                max_head_len: MOST_PART,
                max_extensions_len: MOST_PART,
                max_trailers_len: MOST_PART,
            },
            max_body_len: MOST_PART,
            max_pending: MOST_PART,
            read_size: READ_SIZE,
        };
        Http {
            connection: Connection::new(alloc, keys, config),
            unanswered: Unanswered::new(),
            has_news: true,
        }
    }

    /// Whether bytes are wanted, where all that came was answered: the connection is open, and few bytes wait to be written.
    pub fn wants(&self) -> bool
        ensures { IsTrue result ↔ WantsRead (config_in self.now) (history_in self.now) }
    {
        self.connection.wants_read()
    }

    /// Whether requests may wait to be answered: bytes came or ended, or were written, since they were answered last.
    pub(crate) fn has_news(&self) -> bool
        ensures { result ≡ news_in self.now }
    {
        self.has_news
    }

    /// How many bytes came behind the last answer.
    pub fn unanswered(&self) -> usize
        ensures { result ≤ most_unanswered }
    {
        self.unanswered.count()
    }

    /// Hears the first of these bytes, at most 2,048: how many. `Err` where more came than a request may have, and where
    /// there is no memory for them: the connection is to go.
    pub fn hear(&mut self, bytes: &[u8]) -> Result<usize, Gone>
        ensures some { IfOk result (λ n. n ≤ length bytes.now) }
        ensures wanted { WantsRead (config_in self.old) (history_in self.old) → 0 < length bytes.now →
            IfOk result (λ n. 0 < n) }
        ensures heard { IfOk result (λ n. Receives (take n bytes.now) (history_in self.old) (history_in self.new)) }
        ensures converses { IfOk result (λ n. (p : Passed) → Converses p self.old →
            Converses (record p { heard = p.heard ++ take n bytes.now }) self.new) }
        ensures pending { (history_in self.new).pending ≡ (history_in self.old).pending }
        ensures config { config_in self.new ≡ config_in self.old }
    {
        self.receive(bytes)
    }

    /// Hears the first of these bytes.
    fn receive(&mut self, bytes: &[u8]) -> Result<usize, Gone>
        ensures some { IfOk result (λ n. n ≤ length bytes.now) }
        ensures wanted { WantsRead (config_in self.old) (history_in self.old) → 0 < length bytes.now →
            IfOk result (λ n. 0 < n) }
        ensures heard { IfOk result (λ n. Receives (take n bytes.now) (history_in self.old) (history_in self.new)) }
        ensures pending { (history_in self.new).pending ≡ (history_in self.old).pending }
        ensures config { config_in self.new ≡ config_in self.old }
        ensures news { news_in self.new ≡ true }
    {
        self.has_news = true;
        let count = bytes.len().min(READ_SIZE).min(self.unanswered.left());
        if bytes.is_empty() || !self.connection.wants_read() {
            return Ok(0);
        }
        if count == 0 {
            return Err(Gone);
        }
        let mut front = &bytes[..count];
        match self.connection.read_from(&mut front) {
            Ok(taken) if taken == count => {
                self.unanswered.add(count);
                Ok(count)
            }
            _ => Err(Gone),
        }
    }

    /// No more bytes come. `Err` where there is no memory to see that: the connection is to go.
    pub fn end(&mut self) -> Result<(), Gone>
        ensures ended { OnOk result (history_in self.new ≡ record (history_in self.old) { ended = true }) }
        ensures converses { OnOk result ((p : Passed) → Converses p self.old → Converses p self.new) }
        ensures config { config_in self.new ≡ config_in self.old }
    {
        self.has_news = true;
        let mut nothing: &[u8] = b"";
        match self.connection.read_from(&mut nothing) {
            Ok(0) => Ok(()),
            _ => Err(Gone),
        }
    }

    /// Answers the requests that came, in order, each by one response, until all are answered, many bytes wait to be written,
    /// or the connection ends.
    pub fn answer<S: Answers>(&mut self, service: &mut S)
        ensures served { ∥ IsServed (config_in self.new) (history_in self.new) ∥₁ }
        ensures calls { Calls S.answers service.old service.new (history_in self.old).calls (history_in self.new).calls }
        ensures rests { Rests (config_in self.new) (history_in self.new) }
        ensures converses { (p : Passed) → Converses p self.old → Converses p self.new }
        ensures config { config_in self.new ≡ config_in self.old }
    {
        self.has_news = false;
        let before = service.answered();
        self.connection.advance(service);
        if service.answered() != before {
            self.unanswered.answer();
        }
    }

    /// The next bytes to be written.
    pub fn output(&self) -> &[u8]
        ensures { IsChunkOf result.now (history_in self.now).pending }
    {
        self.connection.output()
    }

    /// The first so many of the bytes that are to be written were, or all of them.
    pub fn written(&mut self, count: usize)
        ensures sent { history_in self.new ≡ after_sent (history_in self.old) count }
        ensures converses { (p : Passed) → Converses p self.old →
            Converses (record p { written = p.written ++ take count (history_in self.old).pending }) self.new }
        ensures config { config_in self.new ≡ config_in self.old }
    {
        self.has_news = true;
        send(&mut self.connection, count);
    }

    /// Whether nothing more is to be heard or written.
    pub fn is_done(&self) -> bool
        ensures { IsTrue result ↔ IsDone (history_in self.now) }
    {
        self.connection.is_done()
    }

    /// Whether nothing more is to be heard or written, and the connection speaks another protocol from now on.
    pub fn is_upgraded(&self) -> bool
        ensures { IsTrue result ↔ (IsDone (history_in self.now) × ((history_in self.now).state ≡ State.Upgraded)) }
    {
        match self.connection.state() {
            State::Upgraded => self.connection.is_done(),
            State::Open | State::Closing(_) | State::Aborted => false,
        }
    }

    /// What came behind the upgrade.
    pub fn into_input(self) -> BytesMut
        ensures { result.items ≡ (history_in self).unread }
    {
        let Http { connection, .. } = self;
        let (input, _) = connection.into_buffers();
        input
    }
}

/// The first so many of the bytes that are to be written were, or all of them: they go piece by piece.
fn send(connection: &mut Connection, count: usize)
    ensures sent { history connection.new ≡ after_sent (history connection.old) count }
    ensures config { config_of connection.new ≡ config_of connection.old }
{
    let mut left = count;
    while left > 0 && !connection.output().is_empty() {
        let some = left.min(connection.output().len());
        connection.sent(some);
        left -= some;
    }
}
