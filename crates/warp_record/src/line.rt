//! The lines that come in: their type, and reading them. Each has one spelling.
ghost use Rattle.std.specs.Prelude.{◌≡◌, ℕ, ◌≤◌, [], ◌∷◌, IfSome, IfNone, codes, decimal, map};
ghost use Rattle.std.specs.List.{slice_split};
ghost use Rattle.warp_tag.specs.Limits.{last_number, most_origins};
ghost use Rattle.warp_tag.specs.declared.form.Form.{Form};
ghost use Rattle.warp_record.specs.declared.line.Line.{Line};
ghost use Rattle.warp_record.specs.declared.record.Record.{Record};
ghost use Rattle.warp_record.specs.Number.{is_space};
ghost use Rattle.warp_record.specs.Record.{record_words};
ghost use Rattle.warp_record.specs.Line.{IsLine, line_words, spelling};

use crate::number::read_u32;
use crate::query_text::{behind_output, behind_var, cut_last_index, read_word};
use crate::record::{Record, last_origin};
use crate::record_text::{
    behind_announce, behind_event, behind_withdraw, read_announcement, read_event, read_withdrawal,
};
use crate::split::{is_all, is_keyword, split_words};
use warp_tag::Form;

/// The first word of a query for a variable.
pub(crate) const VAR: &[u8] = b"var";

/// The word of a query for the number of outputs.
pub(crate) const OUTPUTS: &[u8] = b"outputs";

/// The first word of a query for an output.
pub(crate) const OUTPUT: &[u8] = b"output";

/// The word of a query for the horizon.
pub(crate) const HORIZON: &[u8] = b"horizon";

/// The word of a query for the number of released outputs.
pub(crate) const RELEASED: &[u8] = b"released";

/// The word of a query for what was lost.
pub(crate) const LOST: &[u8] = b"lost";

/// The first word of a query for whether an origin is broken.
pub(crate) const BREACH: &[u8] = b"breach";

/// The first word of a query for a place of the log.
pub(crate) const LOG: &[u8] = b"log";

/// A question about the state. Each reply tells the length of the log.
#[derive(Clone, Copy, Debug, PartialEq, Eq)]
pub enum Query {
    /// `var K`: the value of the variable with this number, after the last row.
    Var(u32),
    /// `outputs`: how many outputs there are.
    Outputs,
    /// `output I`: the output with this number, from 0.
    Output(u32),
    /// `horizon`: the tag before which outputs are released.
    Horizon,
    /// `released`: how many outputs are released.
    Released,
    /// `lost`: how much was lost, past the last microstep or the most pending entries.
    Lost,
    /// `breach O`: whether the origin, 0 to 31 in form One and 0 to 63 in the others, broke an announcement of its own.
    Breach(u32),
    /// `breach *`, in form Four alone: whether a joint announcement is broken.
    JointBreach,
    /// `log I`: the record at this place of the log, from 1.
    Log(u32),
}

/// The word of a line that collects.
pub(crate) const COLLECT: &[u8] = b"collect";

/// The word of a look at the board's size.
pub(crate) const BOARD: &[u8] = b"board";

/// The first word of a look at a row.
pub(crate) const ROW: &[u8] = b"row";

/// A look at the board, where there is one.
#[derive(Clone, Copy, Debug, PartialEq, Eq)]
pub enum Look {
    /// `board`: how many rows the board has, and whether it is frozen.
    Board,
    /// `row I`: the row with this number, from 0.
    Row(u32),
}

/// A line that came in.
#[derive(Clone, Copy, Debug, PartialEq, Eq)]
pub enum Line {
    /// A record to take.
    Put(Record),
    /// A query to answer.
    Ask(Query),
    /// `collect`: let go of what is not needed before the horizon.
    Collect,
    /// A look at the board.
    Look(Look),
}

/// The number of a variable, an output, a place or a row, which the word spells.
fn read_index(word: &[u8]) -> Option<u32>
    ensures found { IfSome result (λ number. (number ≤ last_number) × (word.now ≡ decimal number)) }
    ensures none { IfNone result ((number : ℕ) → number ≤ last_number → word.now ≡ decimal number → ⊥) }
{
    read_u32(word, u32::MAX)
}

/// The line in range in any form whose only word this is; `None` where there is none.
fn line_of_word(word: &[u8]) -> Option<Line>
    ensures found { (f : Form) → IfSome result (λ line. IsLine f line × (word.now ∷ [] ≡ line_words line)) }
    ensures none { (f : Form) → IfNone result ((line : Line) → IsLine f line → word.now ∷ [] ≡ line_words line → ⊥) }
{
    if is_keyword(word, OUTPUTS) {
        Some(Line::Ask(Query::Outputs))
    } else if is_keyword(word, HORIZON) {
        Some(Line::Ask(Query::Horizon))
    } else if is_keyword(word, RELEASED) {
        Some(Line::Ask(Query::Released))
    } else if is_keyword(word, LOST) {
        Some(Line::Ask(Query::Lost))
    } else if is_keyword(word, COLLECT) {
        Some(Line::Collect)
    } else if is_keyword(word, BOARD) {
        Some(Line::Look(Look::Board))
    } else {
        None
    }
}

/// The query for this origin's breach, where the form has such an origin.
fn breach_of(form: Form, origin: u32) -> Option<Line>
    ensures found { IfSome result
        (λ line. IsLine form line × (codes "breach" ∷ decimal origin ∷ [] ≡ line_words line)) }
    ensures none { IfNone result (most_origins form ≤ origin) }
{
    if origin > last_origin(form) {
        return None;
    }
    Some(Line::Ask(Query::Breach(origin)))
}

/// The line in range in this form whose words are this one and `*`; `None` where there is none.
fn line_of_all(form: Form, word: &[u8]) -> Option<Line>
    ensures found { IfSome result
        (λ line. IsLine form line × (word.now ∷ codes "*" ∷ [] ≡ line_words line)) }
    ensures none { IfNone result
        ((line : Line) → IsLine form line → word.now ∷ codes "*" ∷ [] ≡ line_words line → ⊥) }
{
    if !form.has_joint() {
        return None;
    }
    if !is_keyword(word, BREACH) {
        return None;
    }
    Some(Line::Ask(Query::JointBreach))
}

/// The line in range in this form whose words are these two; `None` where there is none.
fn line_of_two(form: Form, word: &[u8], other: &[u8]) -> Option<Line>
    ensures found { IfSome result
        (λ line. IsLine form line × (word.now ∷ other.now ∷ [] ≡ line_words line)) }
    ensures none { IfNone result
        ((line : Line) → IsLine form line → word.now ∷ other.now ∷ [] ≡ line_words line → ⊥) }
{
    if is_all(other) {
        return line_of_all(form, word);
    }
    let number = read_index(other)?;
    line_of_number(form, word, number)
}

/// The line in range in this form whose words are this one and this number; `None` where there is none.
fn line_of_number(form: Form, word: &[u8], number: u32) -> Option<Line>
    ensures found { IfSome result
        (λ line. IsLine form line × (word.now ∷ decimal number ∷ [] ≡ line_words line)) }
    ensures none { IfNone result
        ((line : Line) → IsLine form line → word.now ∷ decimal number ∷ [] ≡ line_words line → ⊥) }
{
    if is_keyword(word, BREACH) {
        breach_of(form, number)
    } else if is_keyword(word, LOG) {
        Some(Line::Ask(Query::Log(number)))
    } else if is_keyword(word, ROW) {
        Some(Line::Look(Look::Row(number)))
    } else if is_keyword(word, VAR) {
        Some(Line::Ask(Query::Var(number)))
    } else if is_keyword(word, OUTPUT) {
        Some(Line::Ask(Query::Output(number)))
    } else {
        None
    }
}

/// The line in range in this form that is no record with these words; `None` where there is none.
fn line_of(form: Form, words: &[&[u8]]) -> Option<Line>
    ensures found { IfSome result (λ line. IsLine form line × (map (λ word. word.now) words.now ≡ line_words line)) }
    ensures none { IfNone result ((line : Line) → IsLine form line →
        map (λ word. word.now) words.now ≡ line_words line →
        (said : Record) × (map (λ word. word.now) words.now ≡ record_words said)) }
{
    match words {
        [word] => line_of_word(word),
        [word, other] => line_of_two(form, word, other),
        _ => None,
    }
}

/// The line in range in this form that is no record with this spelling; `None` where there is none.
fn read_other(form: Form, bytes: &[u8]) -> Option<Line>
    ensures found { IfSome result (λ line. IsLine form line × (bytes.now ≡ spelling line)) }
    ensures none { IfNone result ((line : Line) → IsLine form line → bytes.now ≡ spelling line →
        (said : Record) × (slice_split is_space bytes.now ≡ record_words said)) }
{
    let words = split_words(bytes)?;
    line_of(form, &words)
}

/// The line in range in this form that is no record with this spelling, those that clients send most first.
#[inline(always)]
fn read_asked(form: Form, bytes: &[u8]) -> Option<Line>
    ensures found { IfSome result (λ line. IsLine form line × (bytes.now ≡ spelling line)) }
    ensures none { IfNone result ((line : Line) → IsLine form line → bytes.now ≡ spelling line →
        (said : Record) × (slice_split is_space bytes.now ≡ record_words said)) }
{
    if let Some(text) = behind_var(bytes) {
        return Some(Line::Ask(Query::Var(cut_last_index(text)?)));
    }
    if let Some(text) = behind_output(bytes) {
        return Some(Line::Ask(Query::Output(cut_last_index(text)?)));
    }
    if let Some(line) = read_word(bytes) {
        return Some(line);
    }
    read_other(form, bytes)
}

/// The line in range in this form with this spelling; `None` where there is none.
#[inline(always)]
pub fn read_line(form: Form, bytes: &[u8]) -> Option<Line>
    ensures found { IfSome result (λ line. IsLine form line × (bytes.now ≡ spelling line)) }
    ensures none { IfNone result ((line : Line) → IsLine form line → bytes.now ≡ spelling line → ⊥) }
{
    if let Some(text) = behind_event(bytes) {
        return Some(Line::Put(read_event(form, text)?));
    }
    if let Some(text) = behind_withdraw(bytes) {
        return Some(Line::Put(read_withdrawal(form, text)?));
    }
    if let Some(text) = behind_announce(bytes) {
        return Some(Line::Put(read_announcement(form, text)?));
    }
    read_asked(form, bytes)
}
