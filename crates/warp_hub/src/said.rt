//! What may be said to a host at all.

ghost use Rattle.std.specs.Prelude.{◌↔◌, IsTrue};
ghost use Rattle.warp_hub.specs.Said.{IsSaid};

use crate::words::{read_token, read_word};
use warp_record::read_line;
use warp_tag::Form;

/// Whether these bytes, without their line feed, say something to a host of a program of this form: a line of a session, a
/// word, or a token.
pub fn is_said(form: Form, bytes: &[u8]) -> bool
    ensures { IsTrue result ↔ IsSaid form bytes.now }
{
    if read_line(form, bytes).is_some() {
        return true;
    }
    if read_token(bytes).is_some() {
        return true;
    }
    read_word(bytes).is_some()
}
