//! Texts for people: how a thing of a program is called.
ghost use Rattle.std.specs.Prelude.{◌≡◌};
ghost use Rattle.warp_prog.specs.Word.{are_printed_bytes, is_printed, is_printed_byte, printed_of};

use arrayvec::ArrayString;
use std::marker::Model;

/// How many bytes such a text has at most.
const LONGEST_TEXT: usize = 120;

/// A text of 1 to 120 bytes of ASCII that can be printed, without what JSON writes otherwise. It takes no memory of its
/// own. Contracts see it as its bytes.
#[derive(Drop)]
pub struct Printed {
    text: ArrayString<120>,
}

impl Model for Printed {
    ghost use Rattle.std.specs.Prelude.{ℕ, List};
    ghost use Rattle.std.specs.Coded.{coded_ℕ, coded_list};

    ghost Value = { List ℕ };

    ghost coded = { coded_list coded_ℕ };

    ghost view = { λ p. p.text.bytes };
}

impl Printed {
    /// The text for people that a text is, if it is one.
    pub fn read(text: &str) -> Option<Printed>
        ensures { result ≡ printed_of text.now }
    {
        if !is_printed(text.as_bytes()) {
            return None;
        }
        match ArrayString::from(text) {
            Ok(text) => Some(Printed { text }),
            Err(_) => None,
        }
    }

    /// The text.
    pub fn as_str(&self) -> &str
        ensures { result.now ≡ self.now }
    {
        self.text.as_str()
    }
}

/// Whether a byte can be printed, and JSON writes it as it is.
fn is_printed_byte(byte: u8) -> bool
    ensures { result ≡ is_printed_byte byte }
{
    b' ' <= byte && byte <= b'~' && byte != b'"' && byte != b'\\'
}

fn are_printed_bytes(text: &[u8]) -> bool
    ensures { result ≡ are_printed_bytes text.now }
{
    for byte in text {
        if !is_printed_byte(*byte) {
            return false;
        }
    }
    true
}

fn is_printed(text: &[u8]) -> bool
    ensures { result ≡ is_printed text.now }
{
    !text.is_empty() && text.len() <= LONGEST_TEXT && are_printed_bytes(text)
}
