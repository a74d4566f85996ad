//! The token in the query of a request.

use arrayvec::ArrayVec;
use percent_encoding::percent_decode;

/// The most bytes of a token.
const LONGEST_TOKEN: usize = 128;

/// The value of `token` in this query, if it has one of 1 to 128 bytes.
pub(crate) fn token_of(query: &[u8]) -> Option<ArrayVec<u8, LONGEST_TOKEN>> {
    for pair in query.split(|byte| *byte == b'&') {
        if let Some(value) = pair.strip_prefix(b"token=") {
            return decoded(value);
        }
    }
    None
}

/// What these bytes stand for, where there are not too many.
fn decoded(value: &[u8]) -> Option<ArrayVec<u8, LONGEST_TOKEN>> {
    let mut token = ArrayVec::new();
    for byte in percent_decode(value) {
        if token.try_push(byte).is_err() {
            return None;
        }
    }
    Some(token)
}
