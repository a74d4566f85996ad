//! What is pushed, as text: lines with their marks.

ghost use Rattle.std.specs.Prelude.{◌≡◌, ◌++◌, ◌==◌, ◌∷◌, ◌↔◌, ◌+◌, ◌<◌, ◌≤◌, [], IfOk, IfSome, IsTrue, OnOk, cond, drop, if◌then◌else◌, length};
ghost use Rattle.std.specs.List.{after_first, position};
ghost use Rattle.warp_push.specs.Marks.{sum_64};
ghost use Rattle.warp_push.specs.Texts.{behind_lines, ends_word, from_word_end, lines_in, marked, page_lines};
ghost use Rattle.warp_push.specs.Texts.{pushed_mark, skipped_text, value_in};

use arrayvec::ArrayVec;
use itoa::Buffer;
use std::alloc::{AllocError, Global};

/// What stands in front of a line that is pushed.
pub(crate) const MARK: &[u8] = b"* ";

/// What stands in front of a line of steps that is pushed.
pub(crate) const STEP_MARK: &[u8] = b"* step ";

/// The line that tells that the released outputs are frozen.
pub const FROZEN: &[u8] = b"* frozen\n";

/// How many bytes that line has without its mark.
const FROZEN_LEN: usize = 7;

/// What a client whose bytes were too many is told at last.
pub const GONE_SLOW: &[u8] = b"* gone slow\n";

/// The line that says how many lines of steps were left out.
pub fn skipped_line(left_out: u64) -> ArrayVec<u8, 32>
    ensures { result.items ≡ skipped_text left_out }
{
    let mut digits = Buffer::new();
    let mut line = ArrayVec::new();
    let _ = line.try_extend_from_slice(b"* skipped ");
    let _ = line.try_extend_from_slice(digits.format(left_out).as_bytes());
    let _ = line.try_push(b'\n');
    line
}

/// The lines of this text, each with the mark in front.
pub(crate) fn marked(alloc: Global, mark: &[u8], text: &[u8]) -> Result<Vec<u8>, AllocError>
    ensures { IfOk result (λ lines. lines.items ≡ marked mark.now text.now) }
{
    let mut lines = Vec::new(alloc);
    let mut starts = true;
    for byte in text {
        add_byte(&mut lines, mark, *byte, starts)?;
        starts = *byte == b'\n';
    }
    Ok(lines)
}

/// A byte more, behind the mark where it begins a line.
fn add_byte(lines: &mut Vec<u8>, mark: &[u8], byte: u8, starts: bool) -> Result<(), AllocError>
    ensures { OnOk result (lines.new.items ≡ lines.old.items ++ ((if starts then mark.now else []) ++ byte ∷ [])) }
{
    if starts {
        lines.extend_from_slice(mark)?;
        lines.push(byte)?;
        return Ok(());
    }
    lines.push(byte)?;
    Ok(())
}

/// The lines of a page that was told, each with its mark, but for a last one that says that all is frozen.
pub(crate) fn page_text(alloc: Global, text: &[u8], frozen: bool) -> Result<Vec<u8>, AllocError>
    ensures { IfOk result (λ lines. lines.items ≡ marked pushed_mark (page_lines frozen text.now)) }
{
    marked(alloc, MARK, lines_of(text, frozen))
}

/// A page that was told, but for a last line that says that all is frozen.
fn lines_of(text: &[u8], frozen: bool) -> &[u8]
    ensures { result.now ≡ page_lines frozen text.now }
{
    if !frozen {
        return text;
    }
    &text[..text.len().saturating_sub(FROZEN_LEN)]
}

/// A line with the mark in front.
pub(crate) fn marked_line(alloc: Global, line: &[u8]) -> Result<Vec<u8>, AllocError>
    ensures { IfOk result (λ text. text.items ≡ pushed_mark ++ line.now) }
{
    let mut text = Vec::from_slice(alloc, MARK)?;
    text.extend_from_slice(line)?;
    Ok(text)
}

/// Puts this line in the place of what is there. `Err` changes nothing.
pub(crate) fn put_line(line: &mut Vec<u8>, text: &[u8]) -> Result<(), AllocError>
    ensures { OnOk result (line.new.items ≡ text.now) }
{
    line.reserve(text.len())?;
    line.clear();
    line.extend_from_slice(text)?;
    Ok(())
}

/// Where the first of these bytes is.
fn find(text: &[u8], byte: u8) -> Option<usize>
    ensures { result ≡ position (λ b. b == byte) text.now }
{
    text.iter().position(|b| *b == byte)
}

/// Where the first of these bytes is behind so many.
pub(crate) fn find_behind(text: &[u8], start: usize, byte: u8) -> Option<usize>
    requires { start ≤ length text.now }
    ensures found { result ≡ position (λ b. b == byte) (drop start text.now) }
    ensures within { IfSome result (λ at. start + at < length text.now) }
{
    find(&text[start..], byte)
}

/// What stands behind the first of these bytes; nothing where there is none.
pub(crate) fn behind_first(text: &[u8], byte: u8) -> &[u8]
    ensures { result.now ≡ after_first (λ b. b == byte) text.now }
{
    let Some(end) = find(text, byte) else {
        return &[];
    };
    &text[end + 1..]
}

/// What stands behind the first so many lines; nothing where there are no more.
pub fn behind_lines(text: &[u8], count: u32) -> &[u8]
    ensures { result.now ≡ behind_lines count text.now }
{
    let mut rest = text;
    for _at in 0..count {
        if rest.is_empty() {
            return rest;
        }
        rest = behind_first(rest, b'\n');
    }
    rest
}

/// Where the first byte is that ends a word.
fn find_word_end(text: &[u8]) -> Option<usize>
    ensures { result ≡ position ends_word text.now }
{
    text.iter().position(|byte| *byte <= b' ')
}

/// From the first byte on that ends a word.
pub(crate) fn from_word_end(text: &[u8]) -> &[u8]
    ensures { result.now ≡ from_word_end text.now }
{
    let Some(end) = find_word_end(text) else {
        return &[];
    };
    &text[end..]
}

/// What stands behind the second word of a line: all but the length of the log.
fn value_in(line: &[u8]) -> &[u8]
    ensures { result.now ≡ value_in line.now }
{
    from_word_end(behind_first(line, b' '))
}

/// Whether two lines say the same behind their second words.
pub(crate) fn say_the_same(left: &[u8], right: &[u8]) -> bool
    ensures { IsTrue result ↔ (value_in left.now ≡ value_in right.now) }
{
    value_in(left) == value_in(right)
}

/// How many lines this text has, as far as 64 bits count.
pub(crate) fn lines_in(text: &[u8]) -> u64
    ensures { result ≡ lines_in text.now }
{
    let mut count = 0u64;
    for byte in text {
        count = with_byte(count, *byte);
    }
    count
}

/// One line more, where this byte ends one.
fn with_byte(count: u64, byte: u8) -> u64
    ensures { result ≡ sum_64 count (cond (byte == 10) 1 0) }
{
    if byte == b'\n' {
        return count.saturating_add(1);
    }
    count
}
