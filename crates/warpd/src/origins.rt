//! What the origin of a page is, as a browser spells it, and what names a peer.

use warp_record::read_u32;

/// The greatest number of a port.
const LAST_PORT: u32 = 65_535;

/// The ports that a browser leaves out.
const HTTP_PORT: u32 = 80;

const HTTPS_PORT: u32 = 443;

/// Whether the text is `http://HOST[:PORT]` or `https://HOST[:PORT]` as a browser spells it: in small letters, without
/// the port that is meant where none stands. HOST is a name or an address; one of IPv6 stands in brackets.
pub(crate) fn is_origin(text: &[u8]) -> bool {
    if let Some(place) = text.strip_prefix(b"https://") {
        return is_spelled(place, HTTPS_PORT);
    }
    match text.strip_prefix(b"http://") {
        Some(place) => is_spelled(place, HTTP_PORT),
        None => false,
    }
}

/// Whether the text names a peer: `HOST:PORT`, with a port from 1.
pub(crate) fn is_address(text: &[u8]) -> bool {
    let end = end_of_host(text);
    is_host(text.get(..end).unwrap_or(b"")) && port_of(text.get(end..).unwrap_or(b"")).is_some()
}

/// Whether the text is `HOST` or `HOST:PORT` in small letters, with another port than this.
fn is_spelled(text: &[u8], meant: u32) -> bool {
    let end = end_of_host(text);
    let host = text.get(..end).unwrap_or(b"");
    let rest = text.get(end..).unwrap_or(b"");
    if !is_host(host) || host.iter().any(|byte| byte.is_ascii_uppercase()) {
        return false;
    }
    if rest.is_empty() {
        return true;
    }
    match port_of(rest) {
        Some(port) => port != meant,
        None => false,
    }
}

/// Where the host ends that the text begins with.
fn end_of_host(text: &[u8]) -> usize {
    let is_in_brackets = text.starts_with(b"[");
    let last = if is_in_brackets { b']' } else { b':' };
    match text.iter().position(|byte| *byte == last) {
        Some(place) if is_in_brackets => place.saturating_add(1),
        Some(place) => place,
        None => text.len(),
    }
}

/// Whether the text is a name, an address, or one of IPv6 in brackets.
fn is_host(text: &[u8]) -> bool {
    match text.strip_prefix(b"[") {
        Some(rest) => match rest.strip_suffix(b"]") {
            Some(address) => !address.is_empty() && address.iter().all(|byte| is_of_address(*byte)),
            None => false,
        },
        None => !text.is_empty() && text.iter().all(|byte| is_of_name(*byte)),
    }
}

/// Whether an address of IPv6 may have this byte.
fn is_of_address(byte: u8) -> bool {
    byte.is_ascii_hexdigit() || byte == b':' || byte == b'.'
}

/// Whether a name may have this byte.
fn is_of_name(byte: u8) -> bool {
    byte.is_ascii_alphanumeric() || byte == b'-' || byte == b'.' || byte == b'_'
}

/// The port, from 1, where the text is a colon and its number.
fn port_of(text: &[u8]) -> Option<u32> {
    let port = read_u32(text.strip_prefix(b":")?, LAST_PORT)?;
    if port == 0 {
        return None;
    }
    Some(port)
}
