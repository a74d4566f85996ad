//! A connection, whatever it speaks.

ghost use Rattle.std.specs.Prelude.{◌≡◌, ◌≢◌, ◌<◌, ◌≤◌, ◌↔◌, ◌++◌, ◌∷◌, true, false, [], Ok, IfOk, IsTrue, OnErr, OnOk};
ghost use Rattle.std.specs.Prelude.{drop, if◌then◌else◌, length, take};
ghost use Rattle.http_server.specs.Exchange.{Calls};
ghost use Rattle.warp_web.specs.Http.{Converses};
ghost use Rattle.warp_web.specs.Lines.{Carries, Passed, nothing_passed};
ghost use Rattle.warp_web.specs.Web.{Speaks, control_frame, talk_of};
ghost use Rattle.warp_web.specs.Wire.{Answered, EndsIn, IsOutput, Means, MeansByHttp, MeansByLines, MeansByWeb, Passes, PassesIn};
ghost use Rattle.warp_web.specs.Wire.{Stays, Upgraded, UpgradedIn, Wants, WantsIn, behind_of, calls_of, closing_of, ended_of};
ghost use Rattle.warp_web.specs.Wire.{kind_in, kind_of, line_in, output_in, output_of, speech_of, unread_in, unread_of};
ghost use Rattle.websocket.specs.declared.protocol.frame.coding.Control.TheVariants as Control;

use crate::gone::Gone;
use crate::lines::Lines;
use crate::requests::{Answers, Http};
use crate::web::Web;
use bytes::BytesMut;
use std::alloc::Global;
use std::hash::RandomState;
use std::mem;
use warp_record::Fed;
use websocket::protocol::CloseCode;

/// What a connection speaks by its first byte.
#[derive(Clone, Copy, Debug, PartialEq, Eq)]
pub enum Spoken {
    /// HTTP: a method begins with a capital letter.
    Http,
    /// Lines: each begins with a small letter.
    Lines,
    /// Neither.
    Nothing,
}

/// What a connection speaks that begins with this byte.
pub fn spoken_from(byte: u8) -> Spoken
    ensures { result ≡ speech_of byte }
{
    if byte.is_ascii_uppercase() {
        return Spoken::Http;
    }
    if byte.is_ascii_lowercase() {
        return Spoken::Lines;
    }
    Spoken::Nothing
}

/// What a connection says next.
#[derive(Debug, Drop)]
pub enum Said {
    /// A line.
    Line(Fed),
    /// Requests may have come: they are answered by `Wire::answer`.
    Requests,
    /// It speaks WebSocket from now on, once `Wire::upgrade` is called.
    Upgrade,
    /// Nothing, but there may be more to say.
    More,
    /// Nothing until more bytes come or bytes are written.
    Nothing,
    /// All was said: no more comes.
    End,
}

/// What a connection speaks now.
#[derive(Clone, Copy, Debug, PartialEq, Eq)]
pub enum Kind {
    /// Nothing came yet.
    Unknown,
    Lines,
    Http,
    Web,
    /// It was given up: nothing more is heard, said or written.
    Over,
}

/// What a connection speaks, with what it holds.
#[derive(Drop)]
enum Speech {
    /// Nothing came yet.
    Unknown,
    Lines(Lines),
    Http(Box<Http>),
    Web(Box<Web>),
    /// It was given up.
    Over,
}

/// A connection with no socket and no clock: bytes come and it is asked what it says; it is told texts, or has requests
/// answered, and bytes are to be written. What it speaks and whether the other end ended is seen by `specs/`, and so is what
/// it holds.
#[derive(Drop)]
pub struct Wire {
    alloc: Global,
    keys: RandomState,
    speech: Speech,
    /// No more bytes come.
    has_ended: bool,
}

impl Wire {
    /// A connection of which nothing came. `keys` are secret, for the names of headers.
    pub fn new(alloc: Global, keys: RandomState) -> Wire
        ensures kind { kind_of result ≡ Kind.Unknown }
        ensures ended { ended_of result ≡ false }
        ensures passes { Passes nothing_passed result }
    {
        Wire {
            alloc,
            keys,
            speech: Speech::Unknown,
            has_ended: false,
        }
    }

    /// What it speaks now.
    pub fn kind(&self) -> Kind
        ensures { result ≡ kind_of self.now }
    {
        match &self.speech {
            Speech::Unknown => Kind::Unknown,
            Speech::Lines(_) => Kind::Lines,
            Speech::Http(_) => Kind::Http,
            Speech::Web(_) => Kind::Web,
            Speech::Over => Kind::Over,
        }
    }

    /// Whether bytes are wanted, where all that it says was asked.
    pub fn wants(&self) -> bool
        ensures { IsTrue result ↔ Wants self.now }
    {
        if self.has_ended {
            return false;
        }
        match &self.speech {
            Speech::Unknown => true,
            Speech::Lines(lines) => lines.wants(),
            Speech::Http(http) => http.wants(),
            Speech::Web(web) => web.wants(),
            Speech::Over => false,
        }
    }

    /// Hears the first of these bytes for which there is room: how many. `Err` where it speaks nothing that is known, more
    /// came than may, or there is no memory: the connection is given up.
    pub fn hear(&mut self, bytes: &[u8]) -> Result<usize, Gone>
        ensures some { IfOk result (λ n. n ≤ length bytes.now) }
        ensures wanted { Wants self.old → 0 < length bytes.now → IfOk result (λ n. 0 < n) }
        ensures ended { ended_of self.old ≡ true → result ≡ Ok 0 }
        ensures passes { IfOk result (λ n. (p : Passed) → Passes p self.old →
            Passes (record p { heard = p.heard ++ take n bytes.now }) self.new) }
        ensures output { OnOk result (output_of self.new ≡ output_of self.old) }
        ensures keeps { ended_of self.new ≡ ended_of self.old }
        ensures over { OnErr result (kind_of self.new ≡ Kind.Over) }
    {
        if bytes.is_empty() || self.has_ended {
            return Ok(0);
        }
        match self.hear_some(bytes) {
            Ok(count) => Ok(count),
            Err(gone) => {
                self.give_up();
                Err(gone)
            }
        }
    }

    /// Nothing more is heard, said or written.
    fn give_up(&mut self)
        ensures kind { kind_of self.new ≡ Kind.Over }
        ensures ended { ended_of self.new ≡ ended_of self.old }
    {
        self.speech = Speech::Over;
    }

    /// Hears the first of these bytes, of which there are some.
    fn hear_some(&mut self, bytes: &[u8]) -> Result<usize, Gone>
        requires { 0 < length bytes.now }
        ensures some { IfOk result (λ n. n ≤ length bytes.now) }
        ensures wanted { WantsIn self.old.speech → IfOk result (λ n. 0 < n) }
        ensures passes { IfOk result (λ n. (p : Passed) → Passes p self.old →
            Passes (record p { heard = p.heard ++ take n bytes.now }) self.new) }
        ensures output { OnOk result (output_of self.new ≡ output_of self.old) }
        ensures keeps { ended_of self.new ≡ ended_of self.old }
    {
        self.begin(bytes[0])?;
        match &mut self.speech {
            Speech::Unknown | Speech::Over => Ok(0),
            Speech::Lines(lines) => lines.hear(bytes),
            Speech::Http(http) => http.hear(bytes),
            Speech::Web(web) => web.hear(bytes),
        }
    }

    /// Finds out by the first byte what it speaks, where nothing came yet.
    fn begin(&mut self, byte: u8) -> Result<(), Gone>
        ensures passes { OnOk result ((p : Passed) → Passes p self.old → Passes p self.new) }
        ensures begun { OnOk result (kind_of self.new ≢ Kind.Unknown) }
        ensures wants { OnOk result (WantsIn self.old.speech → WantsIn self.new.speech) }
        ensures output { OnOk result (output_of self.new ≡ output_of self.old) }
        ensures keeps { ended_of self.new ≡ ended_of self.old }
    {
        let Speech::Unknown = self.speech else {
            return Ok(());
        };
        match spoken_from(byte) {
            Spoken::Http => self.speech = http_speech(self.alloc, self.keys)?,
            Spoken::Lines => self.speech = Speech::Lines(Lines::new(self.alloc)),
            Spoken::Nothing => return Err(Gone),
        }
        Ok(())
    }

    /// No more bytes come, and none are heard. `Err` where there is no memory to see that: the connection is given up.
    pub fn end(&mut self) -> Result<(), Gone>
        ensures ended { ended_of self.new ≡ true }
        ensures passes { OnOk result ((p : Passed) → Passes p self.old → Passes p self.new) }
        ensures told { OnOk result (EndsIn self.new.speech) }
        ensures kind { OnOk result (kind_of self.new ≡ kind_of self.old) }
        ensures output { OnOk result (output_of self.new ≡ output_of self.old) }
        ensures over { OnErr result (kind_of self.new ≡ Kind.Over) }
    {
        self.has_ended = true;
        let Speech::Http(http) = &mut self.speech else {
            return Ok(());
        };
        match http.end() {
            Ok(()) => Ok(()),
            Err(gone) => {
                self.give_up();
                Err(gone)
            }
        }
    }

    /// What it says next. `Err` where there is no memory or nothing can be answered: the connection is given up.
    pub fn said(&mut self) -> Result<Said, Gone>
        ensures passes { IfOk result (λ said. (p : Passed) → Passes p self.old →
            Passes (record p { said = p.said ++ line_in said }) self.new) }
        ensures means { IfOk result (λ said. (p : Passed) → Passes p self.old →
            Means said (record p { said = p.said ++ line_in said }) self.new) }
        ensures stays { OnOk result (Stays self.old self.new) }
        ensures http { kind_of self.old ≡ Kind.Http → OnOk result (self.new ≡ self.old) }
        ensures over { OnErr result (kind_of self.new ≡ Kind.Over) }
    {
        match self.say() {
            Ok(said) => Ok(said),
            Err(gone) => {
                self.give_up();
                Err(gone)
            }
        }
    }

    /// What it says next.
    fn say(&mut self) -> Result<Said, Gone>
        ensures passes { IfOk result (λ said. (p : Passed) → Passes p self.old →
            Passes (record p { said = p.said ++ line_in said }) self.new) }
        ensures means { IfOk result (λ said. (p : Passed) → Passes p self.old →
            Means said (record p { said = p.said ++ line_in said }) self.new) }
        ensures stays { OnOk result (Stays self.old self.new) }
        ensures http { kind_of self.old ≡ Kind.Http → OnOk result (self.new ≡ self.old) }
    {
        let is_last = self.has_ended;
        match &mut self.speech {
            Speech::Unknown => Ok(silence(is_last)),
            Speech::Lines(lines) => Ok(said_line(lines, is_last)),
            Speech::Http(http) => Ok(said_over_http(http)),
            Speech::Web(web) => said_over_web(web, is_last),
            Speech::Over => Ok(Said::End),
        }
    }

    /// Answers the requests that came over HTTP, in order, each by one response, until all are answered, many bytes wait to
    /// be written, or the connection ends.
    pub fn answer<S: Answers>(&mut self, service: &mut S)
        ensures passes { (p : Passed) → Passes p self.old → Passes p self.new }
        ensures answered { Answered self.new }
        ensures calls { Calls S.answers service.old service.new (calls_of self.old) (calls_of self.new) }
        ensures stays { Stays self.old self.new }
        ensures others { kind_of self.old ≢ Kind.Http → self.new ≡ self.old }
    {
        if let Speech::Http(http) = &mut self.speech {
            http.answer(service);
        }
    }

    /// Speaks WebSocket from now on, where it was upgraded; what came behind the upgrade is heard. `Err` where it was not, or
    /// there is no memory: the connection is given up.
    pub fn upgrade(&mut self) -> Result<(), Gone>
        ensures upgraded { OnOk result (Upgraded self.old) }
        ensures kind { OnOk result (kind_of self.new ≡ Kind.Web) }
        ensures passes { OnOk result (Passes (record nothing_passed { heard = unread_of self.old }) self.new) }
        ensures keeps { ended_of self.new ≡ ended_of self.old }
        ensures over { OnErr result (kind_of self.new ≡ Kind.Over) }
    {
        let speech = mem::replace(&mut self.speech, Speech::Over);
        self.speech = upgraded(self.alloc, speech)?;
        Ok(())
    }

    /// Tells this text, a line or more without the last line feed. `Err`, and nothing is told, where it speaks HTTP or nothing
    /// yet, the other end is behind, the connection is closing, the text is too long or is none, or there is no memory.
    pub fn tell(&mut self, text: &[u8]) -> Result<(), Gone>
        ensures passes { OnOk result ((p : Passed) → Passes p self.old →
            Passes (record p { told = p.told ++ text.now ∷ [] }) self.new) }
        ensures err { OnErr result ((p : Passed) → Passes p self.old → Passes p self.new) }
        ensures stays { Stays self.old self.new }
        ensures http { kind_of self.old ≡ Kind.Http → self.new ≡ self.old }
    {
        match &mut self.speech {
            Speech::Unknown | Speech::Http(_) | Speech::Over => Err(Gone),
            Speech::Lines(lines) => lines.tell(text),
            Speech::Web(web) => web.tell(text),
        }
    }

    /// Whether so many bytes wait to be written that nothing more may be told.
    pub fn is_behind(&self) -> bool
        ensures { result ≡ behind_of self.now }
    {
        match &self.speech {
            Speech::Unknown | Speech::Http(_) | Speech::Over => false,
            Speech::Lines(lines) => lines.is_behind(),
            Speech::Web(web) => web.is_behind(),
        }
    }

    /// The next bytes to be written.
    pub fn output(&self) -> &[u8]
        ensures { IsOutput result.now self.now }
    {
        match &self.speech {
            Speech::Unknown | Speech::Over => b"",
            Speech::Lines(lines) => lines.output(),
            Speech::Http(http) => http.output(),
            Speech::Web(web) => web.output(),
        }
    }

    /// The first so many of the bytes that are to be written were, or all of them.
    pub fn written(&mut self, count: usize)
        ensures passes { (p : Passed) → Passes p self.old →
            Passes (record p { written = p.written ++ take count (output_of self.old) }) self.new }
        ensures stays { Stays self.old self.new }
        ensures http { kind_of self.old ≡ Kind.Http → output_of self.new ≡ drop count (output_of self.old) }
    {
        match &mut self.speech {
            Speech::Unknown | Speech::Over => {}
            Speech::Lines(lines) => lines.written(count),
            Speech::Http(http) => http.written(count),
            Speech::Web(web) => web.written(count),
        }
    }

    /// Nothing more is told: over WebSocket a close with this code is to be written, else nothing. `Err` where there is no
    /// room or no memory for it: the connection is to go.
    pub fn close(&mut self, code: CloseCode) -> Result<(), Gone>
        ensures passes { OnOk result ((p : Passed) → Passes p self.old → Passes p self.new) }
        ensures closes { OnOk result (kind_of self.old ≡ Kind.Web → closing_of self.new ≡ true) }
        ensures stays { Stays self.old self.new }
        ensures others { kind_of self.old ≢ Kind.Web → (self.new ≡ self.old) × (result ≡ Ok tt) }
    {
        match &mut self.speech {
            Speech::Web(web) => web.close(code),
            Speech::Unknown | Speech::Lines(_) | Speech::Http(_) | Speech::Over => Ok(()),
        }
    }

    /// Asks the other end for a sign of it, over WebSocket. `Err` where it is closing, or there is no room or no memory.
    pub fn ping(&mut self) -> Result<(), Gone>
        ensures passes { OnOk result ((p : Passed) → Passes p self.old → Passes p self.new) }
        ensures adds { OnOk result (kind_of self.old ≡ Kind.Web → (p : Passed) → Passes p self.old →
            output_of self.new ≡ output_of self.old ++ control_frame Control.Ping []) }
        ensures stays { Stays self.old self.new }
        ensures others { kind_of self.old ≢ Kind.Web → (self.new ≡ self.old) × (result ≡ Ok tt) }
    {
        match &mut self.speech {
            Speech::Web(web) => web.ping(),
            Speech::Unknown | Speech::Lines(_) | Speech::Http(_) | Speech::Over => Ok(()),
        }
    }

    /// Whether either end closes, over WebSocket: nothing more is said or told.
    pub fn is_closing(&self) -> bool
        ensures { result ≡ closing_of self.now }
    {
        match &self.speech {
            Speech::Web(web) => web.is_closing(),
            Speech::Unknown | Speech::Lines(_) | Speech::Http(_) | Speech::Over => false,
        }
    }
}

/// A connection that begins to speak HTTP.
fn http_speech(alloc: Global, keys: RandomState) -> Result<Speech, Gone>
    ensures passes { IfOk result (PassesIn nothing_passed) }
    ensures wants { IfOk result WantsIn }
    ensures output { IfOk result (λ speech. output_in speech ≡ []) }
    ensures kind { IfOk result (λ speech. kind_in speech ≡ Kind.Http) }
{
    match Box::new(alloc, Http::new(alloc, keys)) {
        Ok(http) => Ok(Speech::Http(http)),
        Err(_) => Err(Gone),
    }
}

/// This speech upgraded to WebSocket.
fn upgraded(alloc: Global, speech: Speech) -> Result<Speech, Gone>
    ensures upgraded { OnOk result (UpgradedIn speech) }
    ensures passes { IfOk result (PassesIn (record nothing_passed { heard = unread_in speech })) }
    ensures kind { IfOk result (λ web. kind_in web ≡ Kind.Web) }
{
    let Speech::Http(http) = speech else {
        return Err(Gone);
    };
    if !http.is_upgraded() {
        return Err(Gone);
    }
    let input = Box::into_inner(http).into_input();
    web_speech(alloc, &input)
}

/// A connection that speaks WebSocket from now on, of which these bytes came.
fn web_speech(alloc: Global, input: &BytesMut) -> Result<Speech, Gone>
    ensures passes { IfOk result (PassesIn (record nothing_passed { heard = input.now.items })) }
    ensures kind { IfOk result (λ web. kind_in web ≡ Kind.Web) }
{
    let mut web = Web::new(alloc);
    if web.hear(input.as_slice())? < input.len() {
        return Err(Gone);
    }
    match Box::new(alloc, web) {
        Ok(web) => Ok(Speech::Web(web)),
        Err(_) => Err(Gone),
    }
}

/// What is said where there is nothing to say.
fn silence(is_last: bool) -> Said
    ensures { result ≡ (if is_last then Said.End else Said.Nothing) }
{
    if is_last {
        return Said::End;
    }
    Said::Nothing
}

/// What a connection says that speaks lines.
fn said_line(lines: &mut Lines, is_last: bool) -> Said
    ensures passes { (p : Passed) → Carries p lines.old → Carries (record p { said = p.said ++ line_in result }) lines.new }
    ensures means { (p : Passed) → Carries p lines.old →
        MeansByLines result (record p { said = p.said ++ line_in result }) is_last lines.new }
{
    if is_last {
        lines.end();
    }
    match lines.next() {
        Some(line) => Said::Line(line),
        None => silence(is_last),
    }
}

/// What a connection says over HTTP.
fn said_over_http(http: &Http) -> Said
    ensures line { line_in result ≡ [] }
    ensures means { (p : Passed) → Converses p http.now → MeansByHttp result http.now }
{
    if http.is_upgraded() {
        return Said::Upgrade;
    }
    if http.is_done() {
        return Said::End;
    }
    if http.has_news() {
        return Said::Requests;
    }
    Said::Nothing
}

/// What a connection says over WebSocket.
fn said_over_web(web: &mut Web, is_last: bool) -> Result<Said, Gone>
    ensures passes { IfOk result (λ said. (p : Passed) → Speaks p (talk_of web.old) →
        Speaks (record p { said = p.said ++ line_in said }) (talk_of web.new)) }
    ensures means { IfOk result (λ said. MeansByWeb said is_last (talk_of web.new)) }
{
    if let Some(line) = web.next() {
        return Ok(Said::Line(line));
    }
    if web.step()? {
        return Ok(Said::More);
    }
    Ok(silence(web.is_closing() || (is_last && !web.is_behind())))
}
