//! The stretch of a line of cells in which it differs from the line before.

ghost use Rattle.std.specs.Prelude.{◌≡◌, ◌≤◌, ◌∷◌, ◌++◌, [], IfOk, IfSome, decimal, length};
ghost use Rattle.warp_push.specs.Stretches.{AreAlike, AreAlikeBehind, BeginsAt, EndsAt, IsLastSpace, SaysStretch};
ghost use Rattle.warp_push.specs.Stretches.{behind_two, head_in, values_of};
ghost use Rattle.warp_push.specs.Texts.{pushed_mark, spaces_in};

use crate::page::{MARK, behind_first, find_behind, from_word_end};
use itoa::Buffer;
use std::alloc::{AllocError, Global};

/// What stands in a line behind its first two words.
fn behind_two(line: &[u8]) -> &[u8]
    ensures { result.now ≡ behind_two line.now }
{
    behind_first(behind_first(line, b' '), b' ')
}

/// What stands in a line of cells behind the number of the first: each value behind a space, and the line feed.
fn values_in(line: &[u8]) -> &[u8]
    ensures { result.now ≡ values_of line.now }
{
    from_word_end(behind_two(line))
}

/// What stands in a line of cells in front of the number of the first.
fn head_of(line: &[u8]) -> &[u8]
    ensures { result.now ≡ head_in line.now }
{
    &line[..line.len().saturating_sub(behind_two(line).len())]
}

/// How many bytes at their fronts two texts have alike.
fn alike_in_front(left: &[u8], right: &[u8]) -> usize
    ensures { AreAlike left.now right.now result }
{
    let most = left.len().min(right.len());
    for count in 0..most {
        if left[count] != right[count] {
            return count;
        }
    }
    most
}

/// How many bytes at their ends two texts have alike.
fn alike_behind(left: &[u8], right: &[u8]) -> usize
    ensures { AreAlikeBehind left.now right.now result }
{
    let most = left.len().min(right.len());
    for count in 0..most {
        if left[left.len() - 1 - count] != right[right.len() - 1 - count] {
            return count;
        }
    }
    most
}

/// Where the last space is of the first bytes of a text, of so many.
fn last_space(text: &[u8], many: usize) -> Option<usize>
    requires { many ≤ length text.now }
    ensures { IfSome result (IsLastSpace text.now many) }
{
    for back in 0..many {
        let at = many - 1 - back;
        if text[at] == b' ' {
            return Some(at);
        }
    }
    None
}

/// How many spaces a text has.
fn spaces_in(text: &[u8]) -> u32
    requires { length text.now ≤ 4294967295 }
    ensures { result ≡ spaces_in text.now }
{
    let mut count = 0u32;
    for byte in text {
        if *byte == b' ' {
            count += 1;
        }
    }
    count
}

/// Where the first value begins, at its space, in which these values differ from those before.
fn first_differing(old: &[u8], new: &[u8]) -> Option<usize>
    ensures begins { IfSome result (BeginsAt old.now new.now) }
    ensures within { IfSome result (λ at. at ≤ length new.now) }
{
    let alike = alike_in_front(old, new);
    last_space(new, alike)
}

/// Where the values end, at a space or the line feed, in which these differ from those before.
fn end_of_differing(old: &[u8], new: &[u8]) -> usize
    ensures ends { EndsAt old.now new.now result }
    ensures within { result ≤ length new.now }
{
    let alike = alike_behind(old, new);
    let start = new.len() - alike;
    match find_behind(new, start, b' ') {
        Some(at) => start + at,
        None => new.len().saturating_sub(1),
    }
}

/// The line that is pushed with the values from the first to the last that differ from those of the line before, at the number
/// of the first of them; the first of all has this one. None where no value differs, where a line is none of cells, and
/// without memory.
pub(crate) fn stretch_line(alloc: Global, first: u32, old: &[u8], new: &[u8]) -> Option<Vec<u8>>
    ensures { IfSome result (λ line. SaysStretch first old.now line.items new.now) }
{
    let values = values_in(new);
    let before = values_in(old);
    if values.len() > u32::MAX as usize {
        return None;
    }
    let from = first_differing(before, values)?;
    let until = end_of_differing(before, values);
    if until <= from {
        return None;
    }
    let number = first.checked_add(spaces_in(&values[..from]))?;
    let Ok(line) = spell(alloc, head_of(new), number, &values[from..until]) else {
        return None;
    };
    Some(line)
}

/// The line of these words, a number, and these values, each behind a space.
fn spell(alloc: Global, head: &[u8], number: u32, values: &[u8]) -> Result<Vec<u8>, AllocError>
    ensures { IfOk result (λ line. line.items ≡ pushed_mark ++ (head.now ++ (decimal number ++ (values.now ++ 10 ∷ [])))) }
{
    let mut digits = Buffer::new();
    let mut line = Vec::from_slice(alloc, MARK)?;
    line.extend_from_slice(head)?;
    line.extend_from_slice(digits.format(number).as_bytes())?;
    line.extend_from_slice(values)?;
    line.push(b'\n')?;
    Ok(line)
}
