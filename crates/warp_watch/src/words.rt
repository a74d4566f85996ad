//! Words and lines, appended one behind the other.
ghost use Rattle.std.specs.Prelude.{◌≡◌, ◌-◌, ◌∷◌, ◌++◌, [], OnOk, codes, decimal, drop, if◌then◌else◌, take};
ghost use Rattle.std.specs.Fmt.{signed_decimal};
ghost use Rattle.std.specs.List.{flat_map};
ghost use Rattle.warp_step.specs.Program.{told_of};
ghost use Rattle.warp_record.specs.Record.{tag_words};
ghost use Rattle.warp_record.specs.Reply.{flag_word, out_words, reply_line};
ghost use Rattle.warp_watch.specs.Lines.{frozen_line, line_of, output_lines};

use itoa::{Buffer, Integer};
use warp_record::{REPLY_ROOM, Reply, write_reply_line};
use warp_step::Variable;
use warp_tag::{Out, OutOfMemory, Tag};

/// Appends a space and a number.
pub(crate) fn add_number<I: Integer>(text: &mut Vec<u8>, number: I) -> Result<(), OutOfMemory>
    ensures { OnOk result (text.new.items ≡ text.old.items ++ 32 ∷ I.text number) }
{
    let mut digits = Buffer::new();
    text.push(b' ')?;
    text.extend_from_slice(digits.format(number).as_bytes())
}

/// Appends a space, a flag, 0 or 1, and a line feed.
pub(crate) fn add_flag(text: &mut Vec<u8>, flag: bool) -> Result<(), OutOfMemory>
    ensures { OnOk result (text.new.items ≡ text.old.items ++ 32 ∷ flag_word flag ++ 10 ∷ []) }
{
    if flag {
        text.extend_from_slice(b" 1\n")
    } else {
        text.extend_from_slice(b" 0\n")
    }
}

/// Appends a tag's two numbers, each behind a space, and a line feed.
pub(crate) fn add_tag(text: &mut Vec<u8>, tag: Tag) -> Result<(), OutOfMemory>
    ensures { OnOk result
        (text.new.items ≡ text.old.items ++ (flat_map (λ word. 32 ∷ word) (tag_words tag) ++ 10 ∷ [])) }
{
    add_number(text, tag.time())?;
    add_number(text, tag.micro())?;
    text.push(b'\n')?;
    Ok(())
}

/// Appends the line of a reply.
pub(crate) fn add_reply(text: &mut Vec<u8>, reply: &Reply) -> Result<(), OutOfMemory>
    ensures { OnOk result (text.new.items ≡ text.old.items ++ reply_line reply.now) }
{
    text.reserve(REPLY_ROOM)?;
    write_reply_line(text, reply);
    Ok(())
}

/// Appends `frozen`.
pub(crate) fn add_frozen(text: &mut Vec<u8>) -> Result<(), OutOfMemory>
    ensures { OnOk result (text.new.items ≡ text.old.items ++ frozen_line) }
{
    text.extend_from_slice(b"frozen\n")
}

/// Appends an output's words, each behind a space, and a line feed.
fn add_out(text: &mut Vec<u8>, out: &Out) -> Result<(), OutOfMemory>
    ensures { OnOk result (text.new.items
        ≡ text.old.items ++ (flat_map (λ word. 32 ∷ word) (out_words out.now) ++ 10 ∷ [])) }
{
    add_number(text, out.tag.time())?;
    add_number(text, out.tag.micro())?;
    add_number(text, out.port)?;
    add_number(text, out.value)?;
    text.push(b'\n')?;
    Ok(())
}

/// Appends the line of an output: a word, a number, and the output.
pub(crate) fn add_output(
    text: &mut Vec<u8>,
    word: &[u8],
    number: u32,
    out: &Out,
) -> Result<(), OutOfMemory>
    ensures { OnOk result (text.new.items
        ≡ text.old.items ++ line_of (word.now ∷ decimal number ∷ out_words out.now)) }
{
    text.extend_from_slice(word)?;
    add_number(text, number)?;
    add_out(text, out)
}

/// Appends the values of the variables that are told, each behind a space.
pub(crate) fn add_told(
    text: &mut Vec<u8>,
    variables: &[Variable],
    values: &[i64],
) -> Result<(), OutOfMemory>
    ensures { OnOk result (text.new.items
        ≡ text.old.items ++ flat_map (λ value. 32 ∷ signed_decimal value) (told_of variables.now values.now)) }
{
    for (variable, value) in variables.iter().zip(values) {
        add_value(text, variable.is_told, *value)?;
    }
    Ok(())
}

/// Appends a value behind a space, if it is told.
#[inline(always)]
fn add_value(text: &mut Vec<u8>, is_told: bool, value: i64) -> Result<(), OutOfMemory>
    ensures { OnOk result (text.new.items
        ≡ text.old.items ++ (if is_told then 32 ∷ signed_decimal value else [])) }
{
    if is_told {
        return add_number(text, value);
    }
    Ok(())
}

/// Appends a star behind a space, where this is so.
pub(crate) fn add_star(text: &mut Vec<u8>, is_so: bool) -> Result<(), OutOfMemory>
    ensures { OnOk result (text.new.items ≡ text.old.items ++ (if is_so then codes " *" else [])) }
{
    if is_so {
        return text.extend_from_slice(b" *");
    }
    Ok(())
}

/// Appends values, each behind a space.
pub(crate) fn add_values(text: &mut Vec<u8>, values: &[i64]) -> Result<(), OutOfMemory>
    ensures { OnOk result (text.new.items
        ≡ text.old.items ++ flat_map (λ value. 32 ∷ signed_decimal value) values.now) }
{
    for value in values {
        add_number(text, *value)?;
    }
    Ok(())
}

/// Appends the lines of the outputs of these numbers, the last number not among them.
pub(crate) fn add_rows(
    text: &mut Vec<u8>,
    rows: &[Out],
    first: u32,
    end: u32,
) -> Result<(), OutOfMemory>
    ensures { OnOk result
        (text.new.items ≡ text.old.items ++ output_lines first (take (end - first) (drop first rows.now))) }
{
    for number in first..end {
        let Some(out) = rows.get(number as usize) else {
            return Ok(());
        };
        add_output(text, b"released", number, out)?;
    }
    Ok(())
}
