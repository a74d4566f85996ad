//! The lines beside records that clients send most, each read off its text in one pass over the bytes.
ghost use Rattle.std.specs.Prelude.{◌≡◌, ℕ, ◌≤◌, [], ◌∷◌, List, IfSome, IfNone, codes, decimal};
ghost use Rattle.std.specs.List.{slice_split};
ghost use Rattle.warp_tag.specs.Limits.{last_number};
ghost use Rattle.warp_tag.specs.declared.form.Form.{Form};
ghost use Rattle.warp_record.specs.Line.{IsLine, spelling};
ghost use Rattle.warp_record.specs.Number.{is_space};
ghost use Rattle.warp_record.specs.inner.Behind.{words_behind};

use crate::cut::{are_four, cut_u32, is_at_end};
use crate::line::{Line, Query};

/// What is left behind the word `var` and the space that follows it.
#[inline(always)]
pub(crate) fn behind_var(bytes: &[u8]) -> Option<&[u8]>
    ensures found { IfSome result (λ text. slice_split is_space bytes.now ≡ codes "var" ∷ words_behind text.now) }
    ensures none { IfNone result ((word : List ℕ) (words : List (List ℕ)) →
        slice_split is_space bytes.now ≡ codes "var" ∷ word ∷ words → ⊥) }
{
    if bytes.len() > 3 && are_four(bytes, 0, *b"var ") {
        Some(&bytes[3..])
    } else {
        None
    }
}

/// What is left behind the word `output` and the space that follows it.
#[inline(always)]
pub(crate) fn behind_output(bytes: &[u8]) -> Option<&[u8]>
    ensures found { IfSome result (λ text. slice_split is_space bytes.now ≡ codes "output" ∷ words_behind text.now) }
{
    if bytes.len() > 6
        && are_four(bytes, 0, *b"outp")
        && bytes[4] == b'u'
        && bytes[5] == b't'
        && bytes[6] == b' '
    {
        Some(&bytes[6..])
    } else {
        None
    }
}

/// The number of a variable or an output that is the next word and the last one.
#[inline(always)]
pub(crate) fn cut_last_index(text: &[u8]) -> Option<u32>
    ensures found { IfSome result (λ number. (number ≤ last_number) × (words_behind text.now ≡ decimal number ∷ [])) }
    ensures none { IfNone result
        ((number : ℕ) → number ≤ last_number → words_behind text.now ≡ decimal number ∷ [] → ⊥) }
{
    let (number, rest) = cut_u32(text, u32::MAX)?;
    if is_at_end(rest) { Some(number) } else { None }
}

/// The line of one word that clients send most, where it is one of these: in range in any form.
#[inline(always)]
pub(crate) fn read_word(bytes: &[u8]) -> Option<Line>
    ensures { (f : Form) → IfSome result (λ line. IsLine f line × (bytes.now ≡ spelling line)) }
{
    match bytes {
        b"outputs" => Some(Line::Ask(Query::Outputs)),
        b"horizon" => Some(Line::Ask(Query::Horizon)),
        b"released" => Some(Line::Ask(Query::Released)),
        b"collect" => Some(Line::Collect),
        _ => None,
    }
}
