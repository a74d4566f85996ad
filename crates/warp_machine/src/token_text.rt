//! The text of a file of tokens of clients: the tokens in it, or which line is refused, and why.

ghost use Rattle.std.specs.Prelude.{IfOk};
ghost use Rattle.warp_hub.specs.Tokens.{AreEntries, lines_of};

use std::alloc::Global;
use warp_events::{BadTokens, TokenWhy};
use warp_hub::{Tokens, TokensFault};
use warp_record::read_u32;
use warp_tag::Form;

/// The most bytes of a token that a line of 128 bytes can say.
pub const LONGEST_SAID: usize = 122;

/// Why a text has no tokens.
#[derive(Clone, Copy, Debug, PartialEq, Eq)]
pub enum NoTokens {
    /// A line of it is refused.
    Bad(BadTokens),
    /// No memory was to be had.
    NoMemory,
}

/// The tokens in this text, for a program of this form with so many origins: one at least, and no origin that the program
/// does not have.
pub fn read_tokens(alloc: Global, form: Form, origins: u32, text: &[u8]) -> Result<Tokens, NoTokens>
    ensures { IfOk result (AreEntries form (lines_of text.now)) }
{
    match Tokens::read(alloc, form, text) {
        Ok(tokens) => match strange_line(text, origins) {
            None => Ok(tokens),
            Some(bad) => Err(NoTokens::Bad(bad)),
        },
        Err(TokensFault::Line(line)) => Err(NoTokens::Bad(bad_line(text, line, origins))),
        Err(TokensFault::Twice(line)) => Err(NoTokens::Bad(BadTokens {
            line,
            why: TokenWhy::Twice,
        })),
        Err(TokensFault::NoMemory) => Err(NoTokens::NoMemory),
    }
}

/// The first line, from 1, with an origin that a program with so many origins does not have; or 1, where there is no token
/// at all.
fn strange_line(text: &[u8], origins: u32) -> Option<BadTokens> {
    let mut line: u32 = 0;
    let mut has_token = false;
    for bytes in text.split(|byte| *byte == b'\n') {
        line = line.saturating_add(1);
        has_token |= !is_silent(bytes);
        if let Some(origin) = strange_origin(bytes, origins) {
            let why = TokenWhy::NoOrigin(origin);
            return Some(BadTokens { line, why });
        }
    }
    if has_token {
        return None;
    }
    Some(BadTokens {
        line: 1,
        why: TokenWhy::NoToken,
    })
}

/// Why this line, from 1, is none of a file of tokens.
fn bad_line(text: &[u8], line: u32, origins: u32) -> BadTokens {
    let place = line.saturating_sub(1) as usize;
    let bytes = text.split(|byte| *byte == b'\n').nth(place);
    let bytes = bytes.unwrap_or(b"");
    let why = match strange_origin(bytes, origins) {
        Some(origin) if has_token(bytes) => TokenWhy::NoOrigin(origin),
        _ => why_none(bytes),
    };
    BadTokens { line, why }
}

/// Whether a line says nothing.
pub fn is_silent(line: &[u8]) -> bool {
    line.is_empty() || line.starts_with(b"#")
}

/// What stands in front of the first space of a line, and behind it.
fn parts_of(line: &[u8]) -> Option<(&[u8], &[u8])> {
    let space = line.iter().position(|byte| *byte == b' ')?;
    Some((line.get(..space)?, line.get(space.saturating_add(1)..)?))
}

/// The first origin of a line that a program with so many origins does not have.
fn strange_origin(line: &[u8], origins: u32) -> Option<u32> {
    if is_silent(line) {
        return None;
    }
    let (_, rights) = parts_of(line)?;
    for word in rights.split(|byte| *byte == b',') {
        if let Some(origin) = read_u32(word, u32::MAX) {
            if origin >= origins {
                return Some(origin);
            }
        }
    }
    None
}

/// Whether a token stands in front of the first space of a line: 1 to 122 bytes of `!` to `~`.
fn has_token(line: &[u8]) -> bool {
    match parts_of(line) {
        Some((token, _)) => {
            let fits = !token.is_empty() && token.len() <= LONGEST_SAID;
            fits && token.iter().all(|byte| byte.is_ascii_graphic())
        }
        None => false,
    }
}

/// Why a line is none of a file of tokens.
fn why_none(line: &[u8]) -> TokenWhy {
    if line.ends_with(b"\r") {
        TokenWhy::Return
    } else if parts_of(line).is_none() {
        TokenWhy::Alone
    } else if has_token(line) {
        TokenWhy::NoRights
    } else {
        TokenWhy::NoSuchToken
    }
}
