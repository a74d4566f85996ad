//! Cutting words off the front of a text, in one pass over its bytes.
//!
//! What is left of a text begins with the space behind the last word that was cut off, or is empty at the end.
ghost use Rattle.std.specs.Prelude.{◌≡◌, ℕ, ℤ, ◌+◌, ◌<◌, ◌≤◌, ◌^◌, [], ◌∷◌, List, IfSome, IfNone, SomeIff, IsTrue, ◌↔◌};
ghost use Rattle.std.specs.Prelude.{FitsSigned, decimal, length, slice_index, take};
ghost use Rattle.std.specs.Char.{digit_value};
ghost use Rattle.std.specs.Fmt.{signed_decimal};
ghost use Rattle.std.specs.Int.{w64};
ghost use Rattle.std.specs.List.{before_first, position_or_len};
ghost use Rattle.std.specs.Str.Parse.{AllDigits, digits_value};
ghost use Rattle.warp_record.specs.Number.{is_space};
ghost use Rattle.warp_record.specs.inner.Behind.{words_behind};

use crate::digits_at_once::{EIGHT, count_digits, value_of_first};
use crate::number::{FEW_DIGITS, digit, is_padded, read_int};

/// Whether these four bytes stand at the place: one comparison of numbers.
#[inline(always)]
pub(crate) fn are_four(bytes: &[u8], place: usize, four: [u8; 4]) -> bool
    requires { place + 4 ≤ length bytes.now }
    ensures { IsTrue result ↔ ((slice_index bytes.now place ≡ slice_index four 0)
        × (slice_index bytes.now (place + 1) ≡ slice_index four 1)
        × (slice_index bytes.now (place + 2) ≡ slice_index four 2)
        × (slice_index bytes.now (place + 3) ≡ slice_index four 3)) }
{
    let found = [
        bytes[place],
        bytes[place + 1],
        bytes[place + 2],
        bytes[place + 3],
    ];
    u32::from_le_bytes(found) == u32::from_le_bytes(four)
}

/// The number that the digits at the front write, of which it takes up to `most`, and how many these are.
#[inline(always)]
pub(crate) fn digits_up_to(bytes: &[u8], most: usize) -> (u64, usize)
    requires { (most ≤ length bytes.now) × (most ≤ FEW_DIGITS) }
    ensures within { result.1 ≤ position_or_len is_space bytes.now }
    ensures short { result.1 ≤ most }
    ensures all_digits { AllDigits 10 (take result.1 bytes.now) }
    ensures value { digits_value 10 (take result.1 bytes.now) ≡ result.0 }
    ensures end { result.1 < most → digit_value (slice_index bytes.now result.1) < 10 → ⊥ }
{
    let mut number = 0;
    let mut place = 0;
    while place < most {
        let Some(next) = digit(bytes[place]) else {
            return (number, place);
        };
        number = number * 10 + next;
        place += 1;
    }
    (number, place)
}

/// The number that the digits at the front write, of which it takes up to `FEW_DIGITS`, and how many these are.
#[inline(always)]
fn front_digits(bytes: &[u8]) -> (u64, usize)
    ensures within { result.1 ≤ position_or_len is_space bytes.now }
    ensures short { result.1 ≤ FEW_DIGITS }
    ensures all_digits { AllDigits 10 (take result.1 bytes.now) }
    ensures value { digits_value 10 (take result.1 bytes.now) ≡ result.0 }
    ensures end { result.1 < FEW_DIGITS → result.1 < length bytes.now →
        digit_value (slice_index bytes.now result.1) < 10 → ⊥ }
{
    // Mostly there are fewer than eight, with bytes behind them: these are read at once.
    if bytes.len() >= EIGHT {
        let count = count_digits(bytes);
        if 0 < count && count < EIGHT {
            return (value_of_first(bytes, count), count);
        }
    }
    digits_up_to(bytes, bytes.len().min(FEW_DIGITS))
}

/// Whether so many bytes are all those up to the first space, or the end.
#[inline(always)]
fn ends_word(bytes: &[u8], count: usize) -> bool
    requires { count ≤ position_or_len is_space bytes.now }
    ensures { IsTrue result ↔ (count ≡ position_or_len is_space bytes.now) }
{
    if count == bytes.len() {
        return true;
    }
    bytes[count] == b' '
}

/// The number up to `max` that the first byte spells, behind which a space stands.
#[inline(always)]
fn one_digit(bytes: &[u8], max: u64) -> Option<u64>
    requires { (1 < length bytes.now) × (slice_index bytes.now 1 ≡ 32) × (max < 10 ^ FEW_DIGITS) }
    ensures found { IfSome result (λ number. (number ≤ max) × (1 ≡ position_or_len is_space bytes.now)
        × (before_first is_space bytes.now ≡ decimal number)) }
    ensures none { IfNone result ((number : ℕ) → number ≤ max → before_first is_space bytes.now ≡ decimal number → ⊥) }
{
    let number = digit(bytes[0])?;
    if number > max {
        return None;
    }
    Some(number)
}

/// The number up to `max` that the bytes up to the first space, or the end, spell, and how many these are.
#[inline(always)]
fn front_number(bytes: &[u8], max: u64) -> Option<(u64, usize)>
    requires { max < 10 ^ FEW_DIGITS }
    ensures found { IfSome result (λ front. (front.0 ≤ max) × (front.1 ≡ position_or_len is_space bytes.now)
        × (before_first is_space bytes.now ≡ decimal front.0)) }
    ensures none { IfNone result ((number : ℕ) → number ≤ max → before_first is_space bytes.now ≡ decimal number → ⊥) }
{
    let (number, count) = front_digits(bytes);
    if count == 0 {
        return None;
    }
    if !ends_word(bytes, count) {
        return None;
    }
    if number > max {
        return None;
    }
    if is_padded(&bytes[..count]) {
        return None;
    }
    Some((number, count))
}

/// The number up to `max` that is the next word, and what is left behind it: for numbers that have more than one digit
/// as a rule.
#[inline(always)]
pub(crate) fn cut_number(text: &[u8], max: u64) -> Option<(u64, &[u8])>
    requires { max < 10 ^ FEW_DIGITS }
    ensures found { IfSome result
        (λ cut. (cut.0 ≤ max) × (words_behind text.now ≡ decimal cut.0 ∷ words_behind cut.1.now)) }
    ensures none { IfNone result ((number : ℕ) (words : List (List ℕ)) → number ≤ max →
        words_behind text.now ≡ decimal number ∷ words → ⊥) }
{
    let [_, bytes @ ..] = text else {
        return None;
    };
    let (number, count) = front_number(bytes, max)?;
    Some((number, &bytes[count..]))
}

/// The number up to `max` that is the next word, and what is left behind it: for numbers of one digit as a rule.
#[inline(always)]
fn cut_short(text: &[u8], max: u64) -> Option<(u64, &[u8])>
    requires { max < 10 ^ FEW_DIGITS }
    ensures found { IfSome result
        (λ cut. (cut.0 ≤ max) × (words_behind text.now ≡ decimal cut.0 ∷ words_behind cut.1.now)) }
    ensures none { IfNone result ((number : ℕ) (words : List (List ℕ)) → number ≤ max →
        words_behind text.now ≡ decimal number ∷ words → ⊥) }
{
    if text.len() > 2 && text[2] == b' ' {
        let digit = one_digit(&text[1..], max)?;
        return Some((digit, &text[2..]));
    }
    cut_number(text, max)
}

/// The number up to `max` that is the next word and fits 32 bits, and what is left behind it.
#[inline(always)]
pub(crate) fn cut_u32(text: &[u8], max: u32) -> Option<(u32, &[u8])>
    ensures found { IfSome result
        (λ cut. (cut.0 ≤ max) × (words_behind text.now ≡ decimal cut.0 ∷ words_behind cut.1.now)) }
    ensures none { IfNone result ((number : ℕ) (words : List (List ℕ)) → number ≤ max →
        words_behind text.now ≡ decimal number ∷ words → ⊥) }
{
    let (number, rest) = cut_short(text, u64::from(max))?;
    Some((number as u32, rest))
}

/// The signed number that is the next word and the last one.
#[inline(always)]
pub(crate) fn cut_last_int(text: &[u8]) -> Option<i64>
    ensures found { IfSome result
        (λ number. FitsSigned w64 number × (words_behind text.now ≡ signed_decimal number ∷ [])) }
    ensures none { IfNone result
        ((number : ℤ) → FitsSigned w64 number → words_behind text.now ≡ signed_decimal number ∷ [] → ⊥) }
{
    let [_, word @ ..] = text else {
        return None;
    };
    let number = read_int(word)?;
    Some(number)
}

/// Whether no word is left.
#[inline(always)]
pub(crate) fn is_at_end(text: &[u8]) -> bool
    ensures { IsTrue result ↔ (words_behind text.now ≡ []) }
{
    text.is_empty()
}
