//! The operator's channel: the words that it has, what each of them does, and the line that answers one. Where a host has
//! such a channel its lines come here whole, one after another, and each has one answer.
ghost use Rattle.std.specs.Prelude.{◌≡◌, ◌⊎◌, ◌↔◌, IfErr, IfOk, IsTrue, List};
ghost use Rattle.warp_clients.specs.Steps.{Renews};
ghost use Rattle.warp_hub.specs.declared.tokens.Entry.{Entry};
ghost use Rattle.warp_replica.specs.Answered.{facts_of};
ghost use Rattle.warp_machine.specs.Moving.{IsHearing, MovedWith, Stepped, clients_in};
ghost use Rattle.warp_machine.specs.Operating.{AreTokens, IsNoWord, note_level, tells, word_line};

use crate::conn::Want;
use crate::machine::Machine;
use crate::token_text::{NoTokens, read_tokens};
use warp_clients::ClientId;
use warp_events::{Operated, OperatorAnswer, Status, Undone};
use warp_hub::{Rights, Tokens};
use warp_line::Timeline;
use warp_record::is_keyword;
use warp_service::Note;

/// Which notes an operator is told. Each level has what the one before it has.
#[derive(Clone, Copy, Debug, PartialEq, Eq)]
pub enum Level {
    /// What keeps the host from its work: that it can't go on, its journal, a full log.
    Error,
    /// Who was refused, lost, found or too slow, too.
    Warn,
    /// All: also its start and its end.
    Info,
}

/// A line of an operator.
#[derive(Clone, Copy, Debug, PartialEq, Eq)]
pub enum OperatorWord {
    /// `stop`: the host ends in order.
    Stop,
    /// `status`: how it is.
    Status,
    /// `tokens`: the file of tokens is read again.
    Tokens,
    /// `log-level L`: what is told on standard error.
    LogLevel(Level),
}

impl Level {
    /// Whether a note of this level is told.
    fn has(self, note: Level) -> bool
        ensures { IsTrue result ↔ tells self note }
    {
        match self {
            Level::Error => note == Level::Error,
            Level::Warn => note != Level::Info,
            Level::Info => true,
        }
    }

    /// Whether this note is told.
    pub fn tells(self, note: &Note) -> bool
        ensures { IsTrue result ↔ tells self (note_level note.now) }
    {
        self.has(level_of(note))
    }
}

/// The level of a note: the lowest that has it.
fn level_of(note: &Note) -> Level
    ensures { result ≡ note_level note.now }
{
    match note {
        Note::NotGiven { .. }
        | Note::NoThread(_)
        | Note::LogFull
        | Note::PeerDiffers(_)
        | Note::JournalFails(_)
        | Note::JournalNotRenewed(_)
        | Note::JournalRenewed(_)
        | Note::Unsaid(_) => Level::Error,
        Note::Full { .. }
        | Note::NoDescriptors(_)
        | Note::Slow(_)
        | Note::Tokenless(_)
        | Note::Forbidden(_)
        | Note::Peer { .. }
        | Note::SlowSync(_)
        | Note::ClockStood(_) => Level::Warn,
        Note::Started { .. } | Note::InputEnded | Note::Stopped | Note::ClockOver => Level::Info,
    }
}

/// Why a line that is no word is none.
fn why_no_word(line: &[u8]) -> Undone {
    if is_keyword(line, b"log-level") || line.starts_with(b"log-level ") {
        Undone::NoLevel
    } else {
        Undone::NoWord
    }
}

/// The word that a line is, without its line feed: each has one spelling. Or why it is none.
pub fn read_operator(line: &[u8]) -> Result<OperatorWord, Undone>
    ensures found { IfOk result (λ word. line.now ≡ word_line word) }
    ensures none { IfErr result (λ why. IsNoWord line.now) }
{
    if is_keyword(line, b"stop") {
        return Ok(OperatorWord::Stop);
    }
    if is_keyword(line, b"status") {
        return Ok(OperatorWord::Status);
    }
    if is_keyword(line, b"tokens") {
        return Ok(OperatorWord::Tokens);
    }
    if is_keyword(line, b"log-level error") {
        return Ok(OperatorWord::LogLevel(Level::Error));
    }
    if is_keyword(line, b"log-level warn") {
        return Ok(OperatorWord::LogLevel(Level::Warn));
    }
    if is_keyword(line, b"log-level info") {
        return Ok(OperatorWord::LogLevel(Level::Info));
    }
    Err(why_no_word(line))
}

/// Whether a token that had these rights is lost: there is none any more, or it has others.
fn is_lost(had: Option<Rights>, has: Option<Rights>) -> bool {
    match (had, has) {
        (Some(had), Some(has)) => !had.is_same(&has),
        (Some(_), None) => true,
        (None, _) => false,
    }
}

impl<T: Timeline> Machine<T> {
    /// Does what a line of the operator says, which comes without its line feed. What the system knows is as it was told last
    /// (`seen`).
    pub fn operator(&mut self, line: &[u8], now: u64) -> Operated
        ensures { MovedWith (facts_of T.settled T.refused T.floor T.SLACK) IsHearing
            (clients_in self.old) (clients_in self.new) }
    {
        match read_operator(line) {
            Ok(word) => self.obey(word, now),
            Err(why) => Operated::Answered(OperatorAnswer::No(why)),
        }
    }

    /// Does what a word of the operator says.
    fn obey(&mut self, word: OperatorWord, now: u64) -> Operated
        ensures { MovedWith (facts_of T.settled T.refused T.floor T.SLACK) IsHearing self.old.clients self.new.clients }
    {
        match word {
            OperatorWord::Stop => {
                self.end_in_order(Note::Stopped, now);
                Operated::Answered(OperatorAnswer::Done)
            }
            OperatorWord::Status => Operated::Answered(OperatorAnswer::Is(self.status())),
            OperatorWord::Tokens => self.ask_for_tokens(),
            OperatorWord::LogLevel(level) => {
                self.level = level;
                Operated::Answered(OperatorAnswer::Done)
            }
        }
    }

    /// The file of tokens is to be read, where there is one.
    fn ask_for_tokens(&self) -> Operated {
        if self.pages.has_tokens() {
            Operated::ReadTokens
        } else {
            Operated::Answered(OperatorAnswer::No(Undone::NoTokens))
        }
    }

    /// How the host is.
    fn status(&mut self) -> Status
        ensures { self.new.clients ≡ self.old.clients }
    {
        self.note_horizon();
        let records = self.len();
        Status {
            clients: self.conns.count(),
            most_clients: self.options.most_clients,
            records,
            most_records: self.most_records,
            synced: self.journal.records,
            peers_found: self.peers_found(),
            peers: self.peers.len() as u64,
            time: self.counted.horizon.0,
            microstep: self.counted.horizon.1,
            is_full: records >= self.most_records,
            is_failing: self.is_failing,
        }
    }

    /// The file of tokens was read again, and has this text, or it could not be. Who has said a token that is there no more,
    /// or by which other things may be sent now, is closed.
    pub fn tokens_read(&mut self, text: Result<&[u8], Undone>, now: u64) -> OperatorAnswer
        ensures { (clients_in self.new ≡ clients_in self.old) ⊎ ((entries : List Entry) × IfOk text.entry (λ bytes. AreTokens bytes.now entries) ×
            Stepped (facts_of T.settled T.refused T.floor T.SLACK) (Renews entries) (clients_in self.old) (clients_in self.new)) }
    {
        self.now = now;
        let text = match text {
            Ok(text) => text,
            Err(why) => return OperatorAnswer::No(why),
        };
        // One for lines, one for HTTP.
        let lines = match self.tokens_in(text) {
            Ok(lines) => lines,
            Err(why) => return OperatorAnswer::No(why),
        };
        match self.tokens_in(text) {
            Ok(pages) => OperatorAnswer::Closed(self.take_tokens(lines, pages)),
            Err(why) => OperatorAnswer::No(why),
        }
    }

    /// The tokens in this text of their file.
    fn tokens_in(&self, text: &[u8]) -> Result<Tokens, Undone>
        ensures { IfOk result (AreTokens text.now) }
    {
        let program = self.clients.room().replica().program();
        match read_tokens(self.alloc, program.form(), program.origins(), text) {
            Ok(tokens) => Ok(tokens),
            Err(NoTokens::Bad(bad)) => Err(Undone::BadTokens(bad)),
            Err(NoTokens::NoMemory) => Err(Undone::NoMemory),
        }
    }

    /// These are the tokens from now on, for lines and for HTTP. How many lose theirs, who are closed.
    fn take_tokens(&mut self, lines: Tokens, pages: Tokens) -> u32
        ensures { (self.new.clients ≡ self.old.clients)
            ⊎ Stepped (facts_of T.settled T.refused T.floor T.SLACK) (Renews lines) self.old.clients self.new.clients }
    {
        let closed = self.close_who_lost(&lines);
        self.clients.take_tokens(lines);
        self.pages.take_tokens(pages);
        closed
    }

    /// Closes who loses its token by these. How many these are.
    fn close_who_lost(&mut self, tokens: &Tokens) -> u32
        ensures { self.new.clients ≡ self.old.clients }
    {
        let mut closed = 0u32;
        for at in 0..self.conns.places() {
            let who = self.conns.who(at);
            if let Some(who) = who {
                if self.has_lost(who, tokens) {
                    self.conns.want(who, Want::Close);
                    closed = closed.saturating_add(1);
                }
            }
        }
        closed
    }

    /// Whether a client loses its token by these.
    fn has_lost(&self, who: ClientId, tokens: &Tokens) -> bool {
        match self.token_of(who) {
            Some(digest) => is_lost(self.pages.find_digest(&digest), tokens.find_digest(&digest)),
            None => false,
        }
    }

    /// The digest of a client's token: of the last that it said by a line, or else of the one that its request for WebSocket
    /// brought.
    pub(crate) fn token_of(&self, who: ClientId) -> Option<[u8; 32]> {
        let brought = match self.conns.visit(who) {
            Some(visit) => visit.token(),
            None => None,
        };
        self.clients.token(who).or(brought)
    }
}
