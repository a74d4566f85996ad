//! What is answered over HTTP, and the way to WebSocket.

use crate::metrics::{PeerSeen, Seen, metrics_text};
use crate::names::Names;
use crate::page::{page, policy};
use crate::query::token_of;
use crate::ready::Lacks;
use crate::site::{Site, kind_of, name_in};
use bytes::Bytes;
use http::{HeaderMap, HeaderName, HeaderValue, Method, Request, StatusCode, Version};
use http_server::{Response, Service};
use std::alloc::{AllocError, Global};
use warp_clients::{Answers, Visits};
use warp_hub::{Rights, Tokens, digest_of};
use websocket::handshake::server::accept_key;

const HTML: &str = "text/html; charset=utf-8";

const PLAIN: &str = "text/plain; charset=utf-8";

const JSON: &str = "application/json";

const METRICS: &str = "text/plain; version=0.0.4; charset=utf-8";

/// What a page of a site may do in a browser: what is its own, a script in it, WebAssembly, and connect to its host.
const SITE_POLICY: &str = "\
default-src 'self' data: blob:; \
script-src 'self' 'unsafe-inline' 'wasm-unsafe-eval'; \
style-src 'self' 'unsafe-inline'; \
connect-src 'self'; \
base-uri 'none'; \
form-action 'none'; \
frame-ancestors 'none'";

/// The status of an answer to a request that wants a token.
const UNAUTHORIZED: u16 = 401;

/// The status of an answer to a request that may not reach the host.
const FORBIDDEN: u16 = 403;

/// Behind so many requests that want a token a connection is closed.
const MOST_GUESSES: u32 = 3;

/// What is known of a connection between its requests.
#[derive(Clone, Copy)]
pub struct Visit {
    /// How many of them wanted a token, and brought none or a wrong one.
    guesses: u32,
    /// The token that its request for WebSocket brought, or else the last that a request brought, if one did.
    brought: Option<Brought>,
}

/// A token that a request brought.
#[derive(Clone, Copy)]
struct Brought {
    digest: [u8; 32],
    rights: Rights,
}

impl Visit {
    /// Nothing was asked yet.
    pub fn new() -> Visit {
        Visit {
            guesses: 0,
            brought: None,
        }
    }

    /// The digest of the token that its request for WebSocket brought, or before that of the last that a request brought.
    pub fn token(&self) -> Option<[u8; 32]> {
        let brought = self.brought?;
        Some(brought.digest)
    }
}

/// Answers requests.
#[derive(Drop)]
pub struct Pages {
    alloc: Global,
    names: Names,
    tokens: Option<Tokens>,
    program: Bytes,
    names_json: Bytes,
    site: Site,
    seen: Seen,
    /// How far the host is behind its peers.
    peers: Vec<PeerSeen>,
    /// What keeps the host from being ready.
    lacks: Lacks,
    /// The connection that is served.
    visit: Visit,
    /// How many requests were answered.
    answered: u64,
    /// How many of them wanted a token, and brought none or a wrong one.
    unauthorized: u64,
    /// How many of them were of a page, or to a name, that is not allowed.
    forbidden: u64,
}

/// What is served beside the numbers.
#[derive(Drop)]
pub struct Texts {
    /// The names of the host, and the origins that it allows.
    pub names: Names,
    /// Who may use what; without tokens everybody may.
    pub tokens: Option<Tokens>,
    /// The bytes of the program's file.
    pub program: Vec<u8>,
    /// The names of its things, as `names` tells them.
    pub names_json: Vec<u8>,
    /// The files that are served below `/site/`.
    pub site: Site,
}

/// What an answer did beside being filled.
#[derive(Drop)]
enum Answered {
    /// Nothing.
    Plain,
    /// The connection is upgraded, with the token that it brought, if it brought one.
    Upgraded(Option<Brought>),
}

/// What is asked for.
#[derive(Clone, Copy)]
enum Place {
    Page,
    Health,
    Ready,
    Web,
    Program,
    Names,
    Metrics,
    Site,
    SiteWithoutSlash,
    Unknown,
}

/// The place of this path.
fn place_of(path: &str) -> Place {
    match path {
        "/" => Place::Page,
        "/healthz" => Place::Health,
        "/readyz" => Place::Ready,
        "/ws" => Place::Web,
        "/program.json" => Place::Program,
        "/names.json" => Place::Names,
        "/metrics" => Place::Metrics,
        "/site" => Place::SiteWithoutSlash,
        _ if name_in(path).is_some() => Place::Site,
        _ => Place::Unknown,
    }
}

/// Whether each value of these headers passes.
fn are_allowed<F: Fn(&str) -> bool>(headers: &HeaderMap, name: &str, is_allowed: F) -> bool
    requires { F.IsAlwaysCallable is_allowed }
{
    for value in headers.get_all(name).iter() {
        let Ok(text) = value.to_str() else {
            return false;
        };
        if !is_allowed(text) {
            return false;
        }
    }
    true
}

/// Fills the answer with a text of this kind.
fn fill(response: &mut Response, kind: HeaderValue, body: Bytes) -> Result<Answered, AllocError> {
    response.body.push(body)?;
    add_last(response, HeaderName::from_static("content-type"), kind)
}

/// Fills the answer with the page, and what it may do in a browser.
fn fill_page(response: &mut Response) -> Result<Answered, AllocError> {
    response.add_header(HeaderName::from_static("content-security-policy"), policy())?;
    response.add_header(
        HeaderName::from_static("x-content-type-options"),
        HeaderValue::from_static("nosniff"),
    )?;
    fill(
        response,
        HeaderValue::from_static(HTML),
        Bytes::from_static(page()),
    )
}

/// Fills the answer where the site is asked for without its last `/`.
fn fill_slash(response: &mut Response) -> Result<Answered, AllocError> {
    refuse(response, StatusCode::PERMANENT_REDIRECT);
    add_last(
        response,
        HeaderName::from_static("location"),
        HeaderValue::from_static("site/"),
    )
}

/// Adds the last header of an answer.
fn add_last(
    response: &mut Response,
    name: HeaderName,
    value: HeaderValue,
) -> Result<Answered, AllocError> {
    response.add_header(name, value)?;
    Ok(Answered::Plain)
}

/// Has the connection close behind an answer.
fn add_close(response: &mut Response) -> Result<(), AllocError> {
    response.add_header(
        HeaderName::from_static("connection"),
        HeaderValue::from_static("close"),
    )
}

/// Fills the answer that a request is refused so.
fn refuse(response: &mut Response, status: StatusCode) -> Answered {
    response.status = status;
    Answered::Plain
}

/// Fills the answer that a request should be one for an upgrade.
fn ask_for_upgrade(response: &mut Response) -> Result<Answered, AllocError> {
    refuse(response, StatusCode::UPGRADE_REQUIRED);
    response.add_header(
        HeaderName::from_static("upgrade"),
        HeaderValue::from_static("websocket"),
    )?;
    add_last(
        response,
        HeaderName::from_static("sec-websocket-version"),
        HeaderValue::from_static("13"),
    )
}

/// Lets the page that asked read the answer, where it said its origin, which is one that may.
fn allow_origin(request: &Request<Bytes>, response: &mut Response) -> Result<(), AllocError> {
    let Some(origin) = request.headers().get("origin") else {
        return Ok(());
    };
    response.add_header(
        HeaderName::from_static("access-control-allow-origin"),
        origin.clone()?,
    )?;
    response.add_header(
        HeaderName::from_static("vary"),
        HeaderValue::from_static("Origin"),
    )
}

/// Fills the answer that a connection is upgraded.
fn accept_upgrade(alloc: Global, response: &mut Response, accept: &[u8]) -> Result<(), AllocError> {
    let Ok(value) = HeaderValue::from_bytes(alloc, accept) else {
        return Err(AllocError);
    };
    response.status = StatusCode::SWITCHING_PROTOCOLS;
    response.add_header(
        HeaderName::from_static("connection"),
        HeaderValue::from_static("Upgrade"),
    )?;
    response.add_header(
        HeaderName::from_static("upgrade"),
        HeaderValue::from_static("websocket"),
    )?;
    response.add_header(HeaderName::from_static("sec-websocket-accept"), value)
}

impl Pages {
    /// Answers by these texts, where this is measured.
    pub fn new(alloc: Global, texts: Texts, seen: Seen) -> Result<Pages, AllocError> {
        let Texts {
            names,
            tokens,
            program,
            names_json,
            site,
        } = texts;
        Ok(Pages {
            alloc,
            names,
            tokens,
            program: Bytes::from_vec(program)?,
            names_json: Bytes::from_vec(names_json)?,
            site,
            seen,
            peers: Vec::new(alloc),
            lacks: Lacks::nothing(),
            visit: Visit::new(),
            answered: 0,
            unauthorized: 0,
            forbidden: 0,
        })
    }

    /// This is measured from now on.
    pub fn see(&mut self, seen: Seen) {
        self.seen = seen;
    }

    /// This keeps the host from being ready from now on.
    pub fn lack(&mut self, lacks: Lacks) {
        self.lacks = lacks;
    }

    /// One more peer is followed, which has this name: what is measured has a row of it from now on.
    pub fn name_peer(&mut self, name: &str) -> Result<(), AllocError> {
        let name = String::from_str(self.alloc, name)?;
        self.peers.push(PeerSeen {
            name,
            behind: 0,
            differs: false,
        })?;
        Ok(())
    }

    /// The peer that was named behind so many others is known to have so many records more than were taken, and differs or
    /// not.
    pub fn see_peer(&mut self, place: usize, behind: u32, differs: bool) {
        if let Some(peer) = self.peers.get_mut(place) {
            peer.behind = behind;
            peer.differs = differs;
        }
    }

    /// The connection of which this is known is served from now on.
    pub fn enter(&mut self, visit: Visit) {
        self.visit = visit;
    }

    /// What is known now of the connection that is served.
    pub fn visit(&self) -> Visit {
        self.visit
    }

    /// How many requests wanted a token, and brought none or a wrong one.
    pub fn unauthorized(&self) -> u64 {
        self.unauthorized
    }

    /// How many requests were of a page, or to a name, that is not allowed.
    pub fn forbidden(&self) -> u64 {
        self.forbidden
    }

    /// Whether there are tokens.
    pub fn has_tokens(&self) -> bool {
        self.tokens.is_some()
    }

    /// Whether the request is one to this host, of a page that may reach it.
    fn is_allowed(&self, request: &Request<Bytes>) -> bool {
        let headers = request.headers();
        let names = &self.names;
        headers.contains_key("host")
            && are_allowed(headers, "host", |name| names.is_host_allowed(name))
            && are_allowed(headers, "origin", |origin| names.is_origin_allowed(origin))
            && (headers.contains_key("origin") || !is_cross_site(headers))
            && match request.uri().authority() {
                Some(authority) => names.is_host_allowed(authority.as_str()),
                None => true,
            }
    }

    /// Counts an answer with this status.
    fn count(&mut self, status: u16) {
        if status == UNAUTHORIZED {
            self.unauthorized = self.unauthorized.wrapping_add(1);
            self.visit.guesses = self.visit.guesses.saturating_add(1);
        }
        if status == FORBIDDEN {
            self.forbidden = self.forbidden.wrapping_add(1);
        }
    }

    /// What may be sent with the token of this digest; `None` where there is none.
    pub fn find_digest(&self, digest: &[u8; 32]) -> Option<Rights> {
        self.tokens.as_ref()?.find_digest(digest)
    }

    /// These are the tokens from now on.
    pub fn take_tokens(&mut self, tokens: Tokens) {
        self.tokens = Some(tokens);
    }

    /// This token, where there is such a one.
    fn brought(&self, token: &[u8]) -> Option<Brought> {
        let digest = digest_of(token);
        let rights = self.find_digest(&digest)?;
        Some(Brought { digest, rights })
    }

    /// Notes the token that a request brought, if it brought one that there is.
    fn note_brought(&mut self, request: &Request<Bytes>) {
        self.visit.brought = self.bearer(request).or(self.visit.brought);
    }

    /// Whether the request may have what only those with a token may have.
    fn is_known(&self, request: &Request<Bytes>) -> bool {
        self.tokens.is_none() || self.bearer(request).is_some()
    }

    /// The token that the request's `Authorization` has.
    fn bearer(&self, request: &Request<Bytes>) -> Option<Brought> {
        let value = request.headers().get("authorization")?;
        let text = value.to_str().ok()?;
        self.brought(text.strip_prefix("Bearer ")?.as_bytes())
    }

    /// The token that a request for an upgrade brings: `Ok(None)` where it brings none.
    fn web_token(&self, request: &Request<Bytes>) -> Result<Option<Brought>, StatusCode> {
        if self.tokens.is_none() {
            return Ok(None);
        }
        if request.headers().contains_key("authorization") {
            return match self.bearer(request) {
                Some(brought) => Ok(Some(brought)),
                None => Err(StatusCode::UNAUTHORIZED),
            };
        }
        let Some(token) = token_of(request.uri().query().unwrap_or("").as_bytes()) else {
            return Ok(None);
        };
        match self.brought(token.as_slice()) {
            Some(brought) => Ok(Some(brought)),
            None => Err(StatusCode::UNAUTHORIZED),
        }
    }

    /// Fills the answer to a request for an upgrade.
    fn upgrade(
        &self,
        request: &Request<Bytes>,
        response: &mut Response,
    ) -> Result<Answered, AllocError> {
        let headers = request.headers();
        if !is_upgrade(headers) || request.method().as_str() != "GET" {
            return ask_for_upgrade(response);
        }
        if request.version() != Version::HTTP_11 {
            return Ok(refuse(response, StatusCode::BAD_REQUEST));
        }
        let Some(accept) = accept_of(headers) else {
            return Ok(refuse(response, StatusCode::BAD_REQUEST));
        };
        match self.web_token(request) {
            Ok(brought) => {
                accept_upgrade(self.alloc, response, &accept)?;
                Ok(Answered::Upgraded(brought))
            }
            Err(status) => Ok(refuse(response, status)),
        }
    }

    /// Fills the answer whether the host is ready.
    fn fill_ready(&self, response: &mut Response) -> Result<Answered, AllocError> {
        let text = self.lacks.text(self.alloc, &self.peers)?;
        if self.lacks.status() != StatusCode::OK.as_u16() {
            refuse(response, StatusCode::SERVICE_UNAVAILABLE);
        }
        fill(
            response,
            HeaderValue::from_static(PLAIN),
            Bytes::from_vec(text)?,
        )
    }

    /// The place of this path: none is a site's where there is no site.
    fn place(&self, path: &str) -> Place {
        match place_of(path) {
            Place::Site | Place::SiteWithoutSlash if self.site.is_empty() => Place::Unknown,
            place => place,
        }
    }

    /// Fills the answer to a request for a file of the site.
    fn fill_site(&self, path: &str, response: &mut Response) -> Result<Answered, AllocError> {
        let name = name_in(path).unwrap_or("");
        let Some(bytes) = self.site.find(name) else {
            return Ok(refuse(response, StatusCode::NOT_FOUND));
        };
        response.add_header(
            HeaderName::from_static("content-security-policy"),
            HeaderValue::from_static(SITE_POLICY),
        )?;
        response.add_header(
            HeaderName::from_static("x-content-type-options"),
            HeaderValue::from_static("nosniff"),
        )?;
        response.add_header(
            HeaderName::from_static("cache-control"),
            HeaderValue::from_static("no-cache"),
        )?;
        fill(response, kind_of(name), bytes.clone()?)
    }

    /// Fills the answer to a request for this place.
    fn answer(
        &self,
        place: Place,
        request: &Request<Bytes>,
        response: &mut Response,
    ) -> Result<Answered, AllocError> {
        match place {
            Place::Page => fill_page(response),
            Place::Health => fill(
                response,
                HeaderValue::from_static(PLAIN),
                Bytes::from_static(b"ok\n"),
            ),
            Place::Ready => self.fill_ready(response),
            Place::Web => self.upgrade(request, response),
            Place::Program => fill(
                response,
                HeaderValue::from_static(JSON),
                self.program.clone()?,
            ),
            Place::Names => fill(
                response,
                HeaderValue::from_static(JSON),
                self.names_json.clone()?,
            ),
            Place::Metrics => {
                let text = metrics_text(self.alloc, &self.seen, &self.peers)?;
                fill(
                    response,
                    HeaderValue::from_static(METRICS),
                    Bytes::from_vec(text)?,
                )
            }
            Place::Site => self.fill_site(request.uri().path(), response),
            Place::SiteWithoutSlash => fill_slash(response),
            Place::Unknown => Ok(refuse(response, StatusCode::NOT_FOUND)),
        }
    }

    /// Fills the answer to a request.
    fn serve(
        &self,
        request: &Request<Bytes>,
        response: &mut Response,
    ) -> Result<Answered, AllocError> {
        if !self.is_allowed(request) {
            return Ok(refuse(response, StatusCode::FORBIDDEN));
        }
        allow_origin(request, response)?;
        let method = request.method();
        if method.as_str() != "GET" && method.as_str() != "HEAD" {
            refuse(response, StatusCode::METHOD_NOT_ALLOWED);
            return add_last(
                response,
                HeaderName::from_static("allow"),
                HeaderValue::from_static("GET, HEAD"),
            );
        }
        let place = self.place(request.uri().path());
        let is_open = matches!(
            place,
            Place::Page
                | Place::Health
                | Place::Ready
                | Place::Web
                | Place::Site
                | Place::SiteWithoutSlash
        );
        if !is_open && !self.is_known(request) {
            refuse(response, StatusCode::UNAUTHORIZED);
            return add_last(
                response,
                HeaderName::from_static("www-authenticate"),
                HeaderValue::from_static("Bearer"),
            );
        }
        self.answer(place, request, response)
    }

    /// Fills the answer to a request, and closes its connection behind the last guess that it may have.
    fn serve_or_close(
        &self,
        request: &Request<Bytes>,
        response: &mut Response,
    ) -> Result<Answered, AllocError> {
        let answered = self.serve(request, response)?;
        let is_guess = response.status.as_u16() == UNAUTHORIZED;
        if is_guess && self.visit.guesses >= MOST_GUESSES - 1 {
            add_close(response)?;
        }
        Ok(answered)
    }
}

/// Whether a browser says that a page of another site asks.
fn is_cross_site(headers: &HeaderMap) -> bool {
    has(headers, "sec-fetch-site", "cross-site")
}

/// Whether the request asks for WebSocket, in the version that there is.
fn is_upgrade(headers: &HeaderMap) -> bool {
    has(headers, "upgrade", "websocket")
        && has(headers, "connection", "upgrade")
        && has(headers, "sec-websocket-version", "13")
}

/// Whether one of the words of this header, parted by commas, is this one, in letters of either size.
fn has(headers: &HeaderMap, name: &str, word: &str) -> bool {
    for value in headers.get_all(name).iter() {
        let Ok(text) = value.to_str() else {
            return false;
        };
        for part in text.split(',') {
            if part.trim().eq_ignore_ascii_case(word) {
                return true;
            }
        }
    }
    false
}

/// What answers the key of a request for an upgrade.
fn accept_of(headers: &HeaderMap) -> Option<[u8; 28]> {
    let key = headers.get("sec-websocket-key")?;
    accept_key(key.as_bytes()).ok()
}

impl Service for Pages {
    ghost answers = { λ _ _ _ _. Unit {0} };

    fn call(
        &mut self,
        request: &Request<Bytes>,
        response: &mut Response,
    ) -> Result<(), AllocError> {
        match self.serve_or_close(request, response) {
            Ok(answered) => {
                self.answered = self.answered.wrapping_add(1);
                self.count(response.status.as_u16());
                self.note_brought(request);
                if let Answered::Upgraded(brought) = answered {
                    self.visit.brought = brought;
                }
                Ok(())
            }
            Err(error) => Err(error),
        }
    }
}

impl Answers for Pages {
    fn answered(&self) -> u64 {
        self.answered
    }
}

impl Visits for Pages {
    fn rights(&self) -> Option<Rights> {
        let brought = self.visit.brought?;
        Some(brought.rights)
    }
}
