//! Cutting a stream of bytes into lines, however the stream is cut into pieces.
ghost use Rattle.std.specs.Prelude.{◌≡◌, ℕ, ◌+◌, ◌<◌, ◌≤◌, ◌↔◌, [], ◌++◌, List, take, length, min, not};
ghost use Rattle.std.specs.Prelude.{IsSome, IfSome, IfNone, IsTrue, OnSome, position};
ghost use Rattle.std.specs.Option.{option_map};
ghost use Rattle.std.specs.List.{before_first, prefix_len};
ghost use Rattle.std.specs.Simd.Lanes.{chunk};
ghost use Rattle.warp_tag.specs.Limits.{longest_line};
ghost use Rattle.warp_record.specs.Lines.{ended, unended, kept_of, piece_of, first_end, is_end};
ghost use Rattle.warp_record.specs.Lines.Piece.{Whole};

use arrayvec::ArrayVec;
use std::marker::Model;
use std::mem;
use std::simd::prelude::*;

/// The greatest length of a line, without its line feed.
pub const MAX_LINE: usize = 128;

/// A line that was cut from the stream.
#[derive(Debug, Drop)]
pub enum Fed {
    /// A line of at most `MAX_LINE` bytes, without its line feed.
    Text(ArrayVec<u8, MAX_LINE>),
    /// A line of more than `MAX_LINE` bytes.
    TooLong,
    /// A last line of at most `MAX_LINE` bytes that has no line feed.
    Torn,
}

/// Cuts bytes into lines. It is seen as what it keeps of the unfinished line:
/// its bytes, or `None` where these are more than `MAX_LINE`.
#[derive(Drop)]
pub struct Feed {
    kept: ArrayVec<u8, MAX_LINE>,
    is_long: bool,
}

impl Model for Feed {
    ghost use Rattle.std.specs.Prelude.{ℕ, List, Option, Some, None, if◌then◌else◌};

    ghost Value = { Option (List ℕ) };

    ghost view = { λ f. if f.is_long then None else Some f.kept.items };
}

/// How many bytes are looked at together.
const LANES: usize = 16;

/// How many of the bytes that are looked at together, from this place on, stand before a line feed.
#[inline(always)]
fn count_before_end(bytes: &[u8], at: usize) -> usize
    requires { at + LANES ≤ length bytes.now }
    ensures { result ≡ prefix_len (λ byte. not (is_end byte)) (chunk at LANES bytes.now) }
{
    let lanes = u8x16::from_slice(&bytes[at..]);
    let ends = lanes.simd_eq(u8x16::splat(b'\n')).to_bitmask();
    if ends == 0 {
        return LANES;
    }
    ends.trailing_zeros() as usize
}

/// The place of the first line feed from this place on, before which there is none.
#[inline(always)]
fn find_end_from(bytes: &[u8], start: usize) -> Option<usize>
    requires { start ≤ first_end bytes.now }
    ensures { result ≡ position is_end bytes.now }
{
    let mut at = start;
    while at < bytes.len() {
        if bytes[at] == b'\n' {
            return Some(at);
        }
        at += 1;
    }
    None
}

/// The place of the first line feed among the bytes.
#[inline(always)]
fn find_end(bytes: &[u8]) -> Option<usize>
    ensures { result ≡ position is_end bytes.now }
{
    let mut at = 0;
    while bytes.len() - at >= LANES {
        let before = count_before_end(bytes, at);
        if before < LANES {
            return Some(at + before);
        }
        at += LANES;
    }
    find_end_from(bytes, at)
}

impl Feed {
    /// A feed that has taken nothing yet.
    pub fn new() -> Feed
        ensures { result ≡ kept_of [] }
    {
        Feed {
            kept: ArrayVec::new(),
            is_long: false,
        }
    }

    /// Takes more bytes of the unfinished line.
    fn keep(&mut self, bytes: &[u8])
        ensures { (line : List ℕ) → self.old ≡ kept_of line → self.new ≡ kept_of (line ++ bytes.now) }
    {
        if !self.is_long && self.kept.try_extend_from_slice(bytes).is_err() {
            self.is_long = true;
        }
    }

    /// Takes bytes up to and with the first line feed, or all where there is none. Gives how many it took,
    /// and the line that the line feed ended.
    #[tactic(auto, using(crate::proofs::LineCuts::found_end, crate::proofs::LineCuts::no_end))]
    pub fn push(&mut self, piece: &[u8]) -> (usize, Option<Fed>)
        ensures taken { result.0 ≡ min (first_end piece.now + 1) (length piece.now) }
        ensures given { IsSome result.1 ↔ (first_end piece.now < length piece.now) }
        ensures line { IfSome result.1 (λ fed. (line : List ℕ) → self.old ≡ kept_of line →
            piece_of fed ≡ ended (line ++ before_first is_end piece.now)) }
        ensures fresh { OnSome result.1 (self.new ≡ kept_of []) }
        ensures kept { IfNone result.1 ((line : List ℕ) → self.old ≡ kept_of line →
            self.new ≡ kept_of (line ++ piece.now)) }
    {
        let Some(end) = find_end(piece) else {
            self.keep(piece);
            return (piece.len(), None);
        };
        self.keep(&piece[..end]);
        let whole = mem::replace(self, Feed::new());
        let fed = if whole.is_long {
            Fed::TooLong
        } else {
            Fed::Text(whole.kept)
        };
        (end + 1, Some(fed))
    }

    /// Whether nothing is kept of an unfinished line.
    #[inline(always)]
    pub fn is_fresh(&self) -> bool
        ensures { IsTrue result ↔ (self.now ≡ kept_of []) }
    {
        if self.is_long {
            return false;
        }
        self.kept.is_empty()
    }

    /// The line that these bytes begin with, without its line feed, where nothing is kept of it and it is no longer
    /// than `MAX_LINE`; `None` else. It takes nothing: the caller goes on behind the line feed.
    #[tactic(auto, using(crate::proofs::LineCuts::found_end, crate::proofs::LineCuts::no_end))]
    pub fn whole<'p>(&self, piece: &'p [u8]) -> Option<&'p [u8]>
        ensures found { IfSome result (λ text. (text.now ≡ before_first is_end piece.now)
            × (length text.now ≡ first_end piece.now) × (first_end piece.now < length piece.now)) }
        ensures line { IfSome result (λ text. (line : List ℕ) → self.now ≡ kept_of line →
            Whole text.now ≡ ended (line ++ before_first is_end piece.now)) }
        ensures fresh { OnSome result (self.now ≡ kept_of []) }
        ensures none { IfNone result (self.now ≡ kept_of [] → first_end piece.now < length piece.now →
            longest_line < first_end piece.now) }
    {
        if self.is_long || !self.kept.is_empty() {
            return None;
        }
        let end = find_end(piece)?;
        if end > MAX_LINE {
            return None;
        }
        Some(&piece[..end])
    }

    /// The last line, which has no line feed; `None` after a whole line.
    pub fn end(self) -> Option<Fed>
        ensures { (line : List ℕ) → self ≡ kept_of line → option_map piece_of result ≡ unended line }
    {
        if self.is_long {
            Some(Fed::TooLong)
        } else if self.kept.is_empty() {
            None
        } else {
            Some(Fed::Torn)
        }
    }
}
