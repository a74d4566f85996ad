//! Lines that are read where they stand in a longer text, with no look for their end first: those that come most often.
//!
//! What is read here is a line. What is not may be one all the same, and is read as any other. What comes most often is
//! put into the code that asks for a line, if it is not too large: so what records have in common stands once.
ghost use Rattle.std.specs.Prelude.{◌≡◌, ◌+◌, ◌<◌, ◌≤◌, ◌^◌, ◌↔◌, ◌∷◌, ◌++◌, IfSome, IsTrue, FitsSigned, codes};
ghost use Rattle.std.specs.Prelude.{decimal, drop, length};
ghost use Rattle.std.specs.Fmt.{signed_decimal};
ghost use Rattle.std.specs.Int.{w64};
ghost use Rattle.std.specs.List.{before_first};
ghost use Rattle.warp_tag.specs.Limits.{last_time, longest_line, most_origins, most_records};
ghost use Rattle.warp_tag.specs.Moment.{IsTagOf};
ghost use Rattle.warp_tag.specs.declared.form.Form.{Form};
ghost use Rattle.warp_record.specs.Line.{IsLine, spelling};
ghost use Rattle.warp_record.specs.Lines.{first_end, is_end};
ghost use Rattle.warp_record.specs.Record.{IsRecord, record_spelling};
ghost use Rattle.warp_record.specs.inner.Front.{kind_word};

use crate::count::Count;
use crate::cut::{are_four, digits_up_to};
use crate::digits_at_once::{EIGHT, count_digits, value_of_first};
use crate::line::{Line, Query};
use crate::number::{FEW_DIGITS, digit, is_padded, with_sign};
use crate::record::Record;
use warp_tag::{Form, Tag};

/// How many bytes have to be there, so that wherever a number of a line begins eight can be read at once.
const FRONT_ROOM: usize = 64;

/// The bytes from this place on.
#[inline(always)]
fn from_place(bytes: &[u8], place: usize) -> &[u8]
    requires { place ≤ length bytes.now }
    ensures { result.now ≡ drop place bytes.now }
{
    &bytes[place..]
}

/// The digit behind a space at the place.
#[inline(always)]
fn digit_field(bytes: &[u8], place: usize) -> Option<u32>
    requires { place + 2 ≤ length bytes.now }
    ensures { IfSome result (λ number. (number < 10)
        × (drop place bytes.now ≡ 32 ∷ decimal number ++ drop (place + 2) bytes.now)) }
{
    if bytes[place] != b' ' {
        return None;
    }
    let number = digit(bytes[place + 1])?;
    Some(number as u32)
}

/// The number of up to seven digits at the place, and the place behind it.
#[inline(always)]
fn short_number(bytes: &[u8], place: usize) -> Option<(u64, usize)>
    requires { place + 8 ≤ length bytes.now }
    ensures { IfSome result (λ taken. (taken.0 < 10 ^ 7) × (taken.1 ≤ place + 7)
        × (drop place bytes.now ≡ decimal taken.0 ++ drop taken.1 bytes.now)) }
{
    let text = from_place(bytes, place);
    let count = count_digits(text);
    if count == 0 {
        return None;
    }
    if count == EIGHT {
        return None;
    }
    if is_padded(&text[..count]) {
        return None;
    }
    Some((value_of_first(text, count), place + count))
}

/// The number of up to eighteen digits at the place, and the place behind it.
#[cold]
#[inline(never)]
fn long_number(bytes: &[u8], place: usize) -> Option<(u64, usize)>
    requires { place + 18 ≤ length bytes.now }
    ensures { IfSome result (λ taken. (taken.0 < 10 ^ 18) × (taken.1 ≤ place + 18)
        × (drop place bytes.now ≡ decimal taken.0 ++ drop taken.1 bytes.now)) }
{
    let text = from_place(bytes, place);
    let (number, count) = digits_up_to(text, FEW_DIGITS);
    if count == 0 {
        return None;
    }
    if is_padded(&text[..count]) {
        return None;
    }
    Some((number, place + count))
}

/// The number at the place, of few digits as a rule and of up to eighteen, and the place behind it.
#[inline(always)]
fn number_at(bytes: &[u8], place: usize) -> Option<(u64, usize)>
    requires { place + 18 ≤ length bytes.now }
    ensures { IfSome result (λ taken. (taken.0 < 10 ^ 18) × (taken.1 ≤ place + 18)
        × (drop place bytes.now ≡ decimal taken.0 ++ drop taken.1 bytes.now)) }
{
    if let Some((number, behind)) = short_number(bytes, place) {
        return Some((number, behind));
    }
    long_number(bytes, place)
}

/// The signed number of up to eighteen digits at the place, and the place behind it.
#[inline(always)]
fn int_at(bytes: &[u8], place: usize) -> Option<(i64, usize)>
    requires { place + 19 ≤ length bytes.now }
    ensures { IfSome result (λ taken. FitsSigned w64 taken.0 × (taken.1 ≤ place + 19)
        × (drop place bytes.now ≡ signed_decimal taken.0 ++ drop taken.1 bytes.now)) }
{
    let minus = bytes[place] == b'-';
    let (size, behind) = number_at(bytes, place + usize::from(minus))?;
    if size == 0 {
        return if minus { None } else { Some((0, behind)) };
    }
    Some((with_sign(size, minus), behind))
}

/// Whether the time is in range in this form: mostly it is in each.
#[inline(always)]
fn is_in_time(form: Form, time: u64) -> bool
    ensures { IsTrue result ↔ (time ≤ last_time form) }
{
    if time <= Form::One.last_time() {
        return true;
    }
    time <= form.last_time()
}

/// The origin, the time and the microstep in range in this form, a space in front of each, at the place, and the place
/// behind them.
#[inline(always)]
fn name_field(form: Form, bytes: &[u8], place: usize) -> Option<(u32, Tag, usize)>
    requires { place + 13 ≤ length bytes.now }
    ensures { IfSome result (λ name. (name.0 < most_origins form) × IsTagOf form name.1 × (name.2 ≤ place + 12)
        × (drop place bytes.now ≡ 32 ∷ decimal name.0 ++ (32 ∷ decimal name.1.time ++ (32 ∷ decimal name.1.microstep
        ++ drop name.2 bytes.now)))) }
{
    let origin = digit_field(bytes, place)?;
    if bytes[place + 2] != b' ' {
        return None;
    }
    let (time, behind) = short_number(bytes, place + 3)?;
    if !is_in_time(form, time) {
        return None;
    }
    let micro = digit_field(bytes, behind)?;
    let tag = Tag::new(time, micro)?;
    Some((origin, tag, behind + 2))
}

/// Whether the word `event` is in front.
#[inline(always)]
fn is_event(bytes: &[u8]) -> bool
    requires { 5 ≤ length bytes.now }
    ensures { IsTrue result → bytes.now ≡ codes "event" ++ drop 5 bytes.now }
{
    are_four(bytes, 0, *b"even") && bytes[4] == b't'
}

/// Whether the word `withdraw` is in front.
#[inline(always)]
fn is_withdrawal(bytes: &[u8]) -> bool
    requires { 8 ≤ length bytes.now }
    ensures { IsTrue result → bytes.now ≡ codes "withdraw" ++ drop 8 bytes.now }
{
    are_four(bytes, 0, *b"with") && are_four(bytes, 4, *b"draw")
}

/// Whether the word `announce` is in front.
#[inline(always)]
fn is_announcement(bytes: &[u8]) -> bool
    requires { 8 ≤ length bytes.now }
    ensures { IsTrue result → bytes.now ≡ codes "announce" ++ drop 8 bytes.now }
{
    are_four(bytes, 0, *b"anno") && are_four(bytes, 4, *b"unce")
}

/// An event's input and value, a space in front of each, and a line feed at the place, and the place behind these.
#[inline(always)]
fn event_fields(bytes: &[u8], place: usize) -> Option<(u32, i64, usize)>
    requires { place + 23 ≤ length bytes.now }
    ensures { IfSome result (λ taken. (taken.0 < 10) × FitsSigned w64 taken.1 × (taken.2 ≤ place + 23)
        × (drop place bytes.now ≡ 32 ∷ decimal taken.0 ++ (32 ∷ signed_decimal taken.1
        ++ (10 ∷ drop taken.2 bytes.now)))) }
{
    let input = digit_field(bytes, place)?;
    if bytes[place + 2] != b' ' {
        return None;
    }
    let (value, end) = int_at(bytes, place + 3)?;
    if bytes[end] != b'\n' {
        return None;
    }
    Some((input, value, end + 1))
}

/// An announcement's counts in range in this form, a space in front of each, and a line feed at the place, and the
/// place behind these.
#[inline(always)]
fn count_fields(form: Form, bytes: &[u8], place: usize) -> Option<(Count, Count, usize)>
    requires { place + 11 ≤ length bytes.now }
    ensures { IfSome result (λ taken. (taken.0 ≤ most_records form) × (taken.1 ≤ most_records form)
        × (taken.2 ≤ place + 11)
        × (drop place bytes.now ≡ 32 ∷ decimal taken.0 ++ (32 ∷ decimal taken.1 ++ (10 ∷ drop taken.2 bytes.now)))) }
{
    if bytes[place] != b' ' {
        return None;
    }
    let (some, behind) = short_number(bytes, place + 1)?;
    let gone = digit_field(bytes, behind)?;
    if bytes[behind + 2] != b'\n' {
        return None;
    }
    if u64::from(form.most_records()) < some {
        return None;
    }
    let events = Count::new(some as u32)?;
    let withdrawn = Count::new(gone)?;
    Some((events, withdrawn, behind + 3))
}

/// What a record is, as its first word tells.
#[derive(Clone, Copy)]
enum RecordKind {
    /// `event`.
    Event,
    /// `withdraw`.
    Withdraw,
    /// `announce`.
    Announce,
}

/// The kind of the record whose first word is in front, and the place behind the word.
#[inline(always)]
fn first_word(bytes: &[u8]) -> Option<(RecordKind, usize)>
    requires { 8 ≤ length bytes.now }
    ensures { IfSome result (λ first. (first.1 ≤ 8) × (bytes.now ≡ kind_word first.0 ++ drop first.1 bytes.now)) }
{
    if is_event(bytes) {
        Some((RecordKind::Event, 5))
    } else if is_withdrawal(bytes) {
        Some((RecordKind::Withdraw, 8))
    } else if is_announcement(bytes) {
        Some((RecordKind::Announce, 8))
    } else {
        None
    }
}

/// The record in range in this form whose spelling and a line feed are in front, and the place behind these.
#[inline(always)]
fn front_record(form: Form, bytes: &[u8]) -> Option<(Record, usize)>
    requires { 64 ≤ length bytes.now }
    ensures { IfSome result (λ taken. IsRecord form taken.0 × (taken.1 ≤ 64)
        × (bytes.now ≡ record_spelling taken.0 ++ 10 ∷ drop taken.1 bytes.now)) }
{
    let (kind, place) = first_word(bytes)?;
    let (origin, tag, place) = name_field(form, bytes, place)?;
    match kind {
        RecordKind::Event => {
            let (input, value, behind) = event_fields(bytes, place)?;
            Some((
                Record::Event {
                    origin,
                    tag,
                    input,
                    value,
                },
                behind,
            ))
        }
        RecordKind::Withdraw => {
            if bytes[place] != b'\n' {
                return None;
            }
            Some((Record::Withdraw { origin, tag }, place + 1))
        }
        RecordKind::Announce => {
            let (events, withdrawn, behind) = count_fields(form, bytes, place)?;
            Some((
                Record::Announce {
                    origin,
                    tag,
                    events,
                    withdrawn,
                },
                behind,
            ))
        }
    }
}

/// The number of the variable that is asked for by a query whose spelling and a line feed are in front.
#[inline(always)]
fn front_query(bytes: &[u8]) -> Option<u32>
    requires { 6 ≤ length bytes.now }
    ensures { IfSome result (λ number. (number < 10)
        × (bytes.now ≡ codes "var" ++ 32 ∷ decimal number ++ 10 ∷ drop 6 bytes.now)) }
{
    if !are_four(bytes, 0, *b"var ") || bytes[5] != b'\n' {
        return None;
    }
    let number = digit(bytes[4])?;
    Some(number as u32)
}

/// The line in range in this form whose spelling and a line feed are in front, and the place behind these, where it is
/// one of those that come most often.
#[inline(always)]
fn front_line(form: Form, bytes: &[u8]) -> Option<(Line, usize)>
    requires { 64 ≤ length bytes.now }
    ensures { IfSome result (λ taken. IsLine form taken.0 × (taken.1 ≤ 64)
        × (bytes.now ≡ spelling taken.0 ++ 10 ∷ drop taken.1 bytes.now)) }
{
    if let Some(number) = front_query(bytes) {
        return Some((Line::Ask(Query::Var(number)), 6));
    }
    let (record, behind) = front_record(form, bytes)?;
    Some((Line::Put(record), behind))
}

/// The line in range in this form that these bytes begin with, and how many bytes it has with its line feed, where it
/// is one of those that come most often: a record with an origin, a microstep, an input and a count of withdrawn events
/// of one digit, or a query for a variable of one digit. `None` says nothing of what they begin with.
#[inline(always)]
pub fn read_front(form: Form, bytes: &[u8]) -> Option<(Line, usize)>
    ensures { IfSome result (λ front. IsLine form front.0 × (before_first is_end bytes.now ≡ spelling front.0)
        × (front.1 ≡ first_end bytes.now + 1) × (first_end bytes.now < length bytes.now)
        × (first_end bytes.now ≤ longest_line)) }
{
    if bytes.len() < FRONT_ROOM {
        return None;
    }
    front_line(form, bytes)
}
