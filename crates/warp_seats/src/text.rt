//! Seats as a file has them, so that they are kept over a restart: a line `seat ORIGIN GENERATION DIGEST` for each on which
//! somebody sits, in the order of origins. Each such text has one spelling, and what is another one is refused.
ghost use Rattle.std.specs.Prelude.{◌≡◌, ◌<◌, ◌++◌, ◌∷◌, ◌↔◌, [], ℕ, IfNone, IfSome, List, OnOk, decimal, length, map, IsTrue, if◌then◌else◌};
ghost use Rattle.std.specs.List.{join_with_byte, position};
ghost use Rattle.hex.specs.Hex.{IsBytes, encode_lower};
ghost use Rattle.warp_record.specs.Lines.{IsOneLine, is_end};
ghost use Rattle.warp_seats.specs.declared.seat.Said.{Said};
ghost use Rattle.warp_seats.specs.Seats.{SeatsState, is_empty};
ghost use Rattle.warp_seats.specs.Text.{AreKept, CanSay, HasNoLine, IsWrong, ReadsOn, said_of, seat_line, seat_words, text_of};

use crate::seat::{Said, Seat};
use crate::seats::{MOST_ORIGINS, Seats, first_with};
use itoa::Buffer;
use std::alloc::AllocError;
use warp_record::{is_keyword, read_u32, split_words};

/// How many digits a digest has.
const DIGITS: usize = 64;

/// The digits of a digest.
fn digits_of(digest: &[u8; 32]) -> [u8; DIGITS]
    ensures digits { result ≡ encode_lower digest.now }
    ensures range { IsBytes digest.now × (length digest.now ≡ 32) }
{
    let mut digits = [0; DIGITS];
    let _ = hex::encode_to_slice(*digest, &mut digits);
    digits
}

/// Appends the line of an origin's seat.
fn add_line(text: &mut Vec<u8>, origin: u32, said: &Said) -> Result<(), AllocError>
    ensures { OnOk result (text.new.items ≡ text.old.items ++ seat_line origin said.now) }
{
    let mut number = Buffer::new();
    text.extend_from_slice(b"seat ")?;
    text.extend_from_slice(number.format(origin).as_bytes())?;
    text.push(b' ')?;
    text.extend_from_slice(number.format(said.generation).as_bytes())?;
    text.push(b' ')?;
    text.extend_from_slice(&digits_of(&said.digest))?;
    text.push(b'\n')?;
    Ok(())
}

/// Appends the line of an origin's seat, if somebody sits there.
fn add_seat(text: &mut Vec<u8>, origin: u32, seat: &Seat) -> Result<(), AllocError>
    ensures { OnOk result (text.new.items ≡ text.old.items
        ++ (if is_empty seat.now.sitter then [] else seat_line origin (said_of seat.now))) }
{
    if seat.sitter.is_empty() {
        return Ok(());
    }
    let said = Said {
        generation: seat.generation,
        digest: seat.digest,
    };
    add_line(text, origin, &said)?;
    Ok(())
}

/// The digest that has these digits.
fn read_digest(text: &[u8]) -> Option<[u8; 32]>
    ensures found { IfSome result (λ digest. text.now ≡ encode_lower digest) }
    ensures range { IfSome result (λ digest. IsBytes digest × (length digest ≡ 32)) }
    ensures none { IfNone result ((digest : List ℕ) → IsBytes digest → length digest ≡ 32 → text.now ≡ encode_lower digest → ⊥) }
{
    let mut digest = [0; 32];
    if hex::decode_to_slice(text, &mut digest).is_err() {
        return None;
    }
    if digits_of(&digest).as_slice() != text {
        return None;
    }
    Some(digest)
}

/// What the last two words of a line say.
fn read_said(generation: &[u8], digest: &[u8]) -> Option<Said>
    ensures found { IfSome result (λ said. (generation.now ≡ decimal said.generation) × (digest.now ≡ encode_lower said.digest)) }
    ensures can { IfSome result CanSay }
    ensures none { IfNone result ((said : Said) → CanSay said → generation.now ≡ decimal said.generation →
        digest.now ≡ encode_lower said.digest → ⊥) }
{
    let Some(generation) = read_u32(generation, u32::MAX) else {
        return None;
    };
    let Some(digest) = read_digest(digest) else {
        return None;
    };
    Some(Said { generation, digest })
}

/// Whether the word spells this number.
fn is_number(word: &[u8], number: u32) -> bool
    ensures { IsTrue result ↔ (word.now ≡ decimal number) }
{
    match read_u32(word, u32::MAX) {
        Some(found) => found == number,
        None => false,
    }
}

/// What these words say of an origin's seat.
fn read_words(words: &[&[u8]], origin: u32) -> Option<Said>
    ensures found { IfSome result (λ said. map (λ word. word.now) words.now ≡ seat_words origin said) }
    ensures can { IfSome result CanSay }
    ensures none { IfNone result ((said : Said) → CanSay said → map (λ word. word.now) words.now ≡ seat_words origin said → ⊥) }
{
    let [word, number, generation, digest] = words else {
        return None;
    };
    if !is_keyword(word, b"seat") {
        return None;
    }
    if !is_number(number, origin) {
        return None;
    }
    let Some(said) = read_said(generation, digest) else {
        return None;
    };
    Some(said)
}

/// Where the first line feed is.
fn find_end(text: &[u8]) -> Option<usize>
    ensures { result ≡ position is_end text.now }
{
    text.iter().position(|byte| *byte == b'\n')
}

/// What stands in front of the first line feed, and behind it.
fn cut_line(text: &[u8]) -> Option<(&[u8], &[u8])>
    ensures found { IfSome result (λ cut. text.now ≡ cut.0.now ++ 10 ∷ cut.1.now) }
    ensures first { IfSome result (λ cut. IsOneLine cut.0.now) }
    ensures none { IfNone result (IsOneLine text.now) }
{
    let end = find_end(text)?;
    Some((&text[..end], &text[end + 1..]))
}

/// What a line says of an origin's seat, without its line feed.
fn read_text(line: &[u8], origin: u32) -> Option<Said>
    requires { IsOneLine line.now }
    ensures found { IfSome result (λ said. line.now ≡ join_with_byte 32 (seat_words origin said)) }
    ensures can { IfSome result CanSay }
    ensures none { IfNone result ((said : Said) → CanSay said → line.now ≡ join_with_byte 32 (seat_words origin said) → ⊥) }
{
    let Some(words) = split_words(line) else {
        return None;
    };
    let Some(said) = read_words(&words, origin) else {
        return None;
    };
    Some(said)
}

/// What the line in front of this text says of an origin's seat, and what stands behind it.
fn read_line(text: &[u8], origin: u32) -> Option<(Said, &[u8])>
    ensures found { IfSome result (λ it. text.now ≡ seat_line origin it.0 ++ it.1.now) }
    ensures can { IfSome result (λ it. CanSay it.0) }
    ensures none { IfNone result (HasNoLine origin text.now) }
{
    let Some((line, behind)) = cut_line(text) else {
        return None;
    };
    let Some(said) = read_text(line, origin) else {
        return None;
    };
    Some((said, behind))
}

impl Seats {
    /// Appends the lines of all seats on which somebody sits. `Err` says that no memory was to be had.
    pub fn write(&self, text: &mut Vec<u8>) -> Result<(), AllocError>
        ensures { OnOk result (text.new.items ≡ text.old.items ++ text_of self.now) }
    {
        let mut origin = 0;
        for seat in &self.seats {
            add_seat(text, origin, seat)?;
            origin += 1;
        }
        Ok(())
    }

    /// The seats that a text has, where these origins are offered: who sat there is away since now, in microseconds. `None`
    /// where it is not the text of such seats, each with a secret of its own.
    pub fn read(offered: &[bool; MOST_ORIGINS], text: &[u8], now: u64) -> Option<Seats>
        ensures found { IfSome result (λ s. AreKept offered.now now s × (text.now ≡ text_of s)) }
        ensures none { IfNone result ((s : SeatsState) → AreKept offered.now now s → text.now ≡ text_of s → ⊥) }
    {
        let mut seats = Seats::new(offered);
        let mut rest = text;
        for origin in 0..MOST_ORIGINS as u32 {
            let Some(left) = seats.read_next(origin, rest, now) else {
                return None;
            };
            rest = left;
        }
        if !rest.is_empty() {
            return None;
        }
        Some(seats)
    }

    /// Reads the line of an origin's seat, if the text has it in front: what is left of the text. `None` where the seat is not
    /// offered, or the secret is that of another one.
    fn read_next<'t>(&mut self, origin: u32, text: &'t [u8], now: u64) -> Option<&'t [u8]>
        requires { origin < 64 }
        ensures read { IfSome result (λ rest. ReadsOn origin now text.now self.old rest.now self.new) }
        ensures wrong { IfNone result (IsWrong origin text.now self.old) }
    {
        let Some((said, behind)) = read_line(text, origin) else {
            return Some(text);
        };
        if !self.offered[origin as usize] {
            return None;
        }
        if first_with(&self.seats, &said.digest).is_some() {
            return None;
        }
        self.seats[origin as usize].keep(&said, now);
        Some(behind)
    }
}
