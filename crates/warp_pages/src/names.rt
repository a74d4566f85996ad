//! By which names a host may be reached over HTTP, and which pages may reach it.

ghost use Rattle.std.specs.Prelude.{◌≡◌, ◌||◌, ◌++◌, codes, map, string_bytes};
ghost use Rattle.std.specs.Str.{bytes_eq};
ghost use Rattle.warp_pages.specs.Names.{is_allowed, is_own, is_own_origin, names_allowed, port_text};

use arrayvec::ArrayString;
use itoa::Buffer;

/// The room for an address, in bytes.
const ADDRESS: usize = 64;

/// The names of a host: the address and the port that it listens on, and the origins that it allows beside its own.
#[derive(Drop)]
pub struct Names {
    address: ArrayString<ADDRESS>,
    port: u16,
    allowed: Vec<String>,
}

impl Names {
    /// The names of a host that listens here, and allows these origins.
    pub fn new(address: ArrayString<ADDRESS>, port: u16, allowed: Vec<String>) -> Names {
        Names {
            address,
            port,
            allowed,
        }
    }

    /// Whether a page of this origin may reach the host: one of its own, or one that it allows, compared as a whole.
    pub fn is_origin_allowed(&self, origin: &str) -> bool
        ensures { result ≡ (is_own_origin self.now.address.bytes self.now.port origin.now
            || is_allowed (map (λ url. string_bytes url) self.now.allowed.items) origin.now) }
    {
        is_own_origin(self.address.as_str(), self.port, origin) || is_allowed(&self.allowed, origin)
    }

    /// Whether a request to this `Host` is one to this host: its own name with its port, or what an origin that it
    /// allows has behind `http://` or `https://`.
    pub fn is_host_allowed(&self, name: &str) -> bool
        ensures { result ≡ (is_own self.now.address.bytes self.now.port name.now
            || names_allowed (map (λ url. string_bytes url) self.now.allowed.items) name.now) }
    {
        is_own(self.address.as_str(), self.port, name) || names_allowed(&self.allowed, name)
    }
}

/// `:PORT`, or nothing for the port of HTTP.
fn port_text(port: u16) -> ArrayString<24>
    ensures { result.bytes ≡ port_text port }
{
    let mut text = ArrayString::new();
    if port == 80 {
        return text;
    }
    let mut digits = Buffer::new();
    text.push(':');
    text.push_str(digits.format(port));
    text
}

/// Whether the text is this front with that behind it.
fn is_joined(text: &[u8], front: &[u8], behind: &[u8]) -> bool
    ensures { result ≡ bytes_eq text.now (front.now ++ behind.now) }
{
    let (first, rest) = text.split_at(front.len().min(text.len()));
    first == front && rest == behind
}

/// The same of texts.
fn is_with(text: &str, front: &str, behind: &str) -> bool
    ensures { result ≡ bytes_eq text.now (front.now ++ behind.now) }
{
    is_joined(text.as_bytes(), front.as_bytes(), behind.as_bytes())
}

/// Whether the text names the host by its own names, with its port.
fn is_own(address: &str, port: u16, text: &str) -> bool
    ensures { result ≡ is_own address.now port text.now }
{
    let port = port_text(port);
    let behind = port.as_str();
    is_with(text, "127.0.0.1", behind)
        || is_with(text, "localhost", behind)
        || is_with(text, "[::1]", behind)
        || is_with(text, address, behind)
}

/// Whether the text is the origin of a page of the host's own.
fn is_own_origin(address: &str, port: u16, text: &str) -> bool
    ensures { result ≡ is_own_origin address.now port text.now }
{
    let port = port_text(port);
    let behind = port.as_str();
    is_page_of(text, "127.0.0.1", behind)
        || is_page_of(text, "localhost", behind)
        || is_page_of(text, "[::1]", behind)
        || is_page_of(text, address, behind)
}

/// Whether the text is `http://`, this name and that behind it.
fn is_page_joined(text: &[u8], name: &[u8], behind: &[u8]) -> bool
    ensures { result ≡ bytes_eq text.now (codes "http://" ++ (name.now ++ behind.now)) }
{
    let (first, rest) = text.split_at(HTTP.len().min(text.len()));
    first == HTTP && is_joined(rest, name, behind)
}

/// The same of texts.
fn is_page_of(text: &str, name: &str, behind: &str) -> bool
    ensures { result ≡ bytes_eq text.now (codes "http://" ++ (name.now ++ behind.now)) }
{
    is_page_joined(text.as_bytes(), name.as_bytes(), behind.as_bytes())
}

/// What stands in front of a name in an origin.
const HTTP: &[u8] = b"http://";

/// Whether the text is one of these origins.
fn is_allowed(allowed: &[String], text: &str) -> bool
    ensures { result ≡ is_allowed (map (λ url. string_bytes url) allowed.now) text.now }
{
    for origin in allowed {
        if origin.as_str() == text {
            return true;
        }
    }
    false
}

/// Whether the text stands behind `http://` or `https://` in this origin.
fn is_named_by(origin: &str, text: &str) -> bool
    ensures { result ≡ (bytes_eq origin.now (codes "http://" ++ text.now)
        || bytes_eq origin.now (codes "https://" ++ text.now)) }
{
    is_with(origin, "http://", text) || is_with(origin, "https://", text)
}

/// Whether the text stands behind `http://` or `https://` in one of these origins.
fn names_allowed(allowed: &[String], text: &str) -> bool
    ensures { result ≡ names_allowed (map (λ url. string_bytes url) allowed.now) text.now }
{
    for origin in allowed {
        if is_named_by(origin.as_str(), text) {
            return true;
        }
    }
    false
}
