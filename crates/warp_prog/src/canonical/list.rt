//! Lists of a canonical text, and what stands in them.
ghost use Rattle.std.specs.Prelude.{◌≡◌, ◌++◌, ℕ, List, OnOk, map, string_bytes};
ghost use Rattle.warp_prog.specs.Canonical.{comma, listed, part_unless_empty, quoted, separated};

use std::alloc::AllocError;

/// A part of a program file that may stand in a list.
pub(crate) trait Spell {
    ghost spelled: { Self → List ℕ };

    /// Adds its text.
    fn spell(&self, text: &mut String) -> Result<(), AllocError>
        ensures { OnOk result (string_bytes text.new ≡ string_bytes text.old ++ spelled self.now) };
}

/// Adds a key, as it stands behind what is before it, and the list of these parts.
pub(crate) fn spell_list<T: Spell>(
    text: &mut String,
    key: &str,
    parts: &[T],
) -> Result<(), AllocError>
    ensures { OnOk result
        (string_bytes text.new ≡ string_bytes text.old ++ (key.now ++ listed (map T.spelled parts.now))) }
{
    text.push_str(key)?;
    text.push_str("[")?;
    spell_each(text, parts)?;
    text.push_str("]")
}

/// The same where there are parts; nothing where there are none. So are keys spelled that came with version 4.
pub(crate) fn spell_unless_empty<T: Spell>(
    text: &mut String,
    key: &str,
    parts: &[T],
) -> Result<(), AllocError>
    ensures { OnOk result (string_bytes text.new
        ≡ string_bytes text.old ++ part_unless_empty key.now (map T.spelled parts.now)) }
{
    if parts.is_empty() {
        return Ok(());
    }
    spell_list(text, key, parts)
}

/// Adds these parts, with commas between them.
fn spell_each<T: Spell>(text: &mut String, parts: &[T]) -> Result<(), AllocError>
    ensures { OnOk result
        (string_bytes text.new ≡ string_bytes text.old ++ separated 0 (map T.spelled parts.now)) }
{
    for (i, part) in parts.iter().enumerate() {
        add_comma(text, i)?;
        part.spell(text)?;
    }
    Ok(())
}

/// Adds a comma, but before the first item of a list, which has number 0.
pub(crate) fn add_comma(text: &mut String, number: usize) -> Result<(), AllocError>
    ensures { OnOk result (string_bytes text.new ≡ string_bytes text.old ++ comma number) }
{
    if number == 0 {
        Ok(())
    } else {
        text.push_str(",")
    }
}

/// Adds a word between quotation marks. It has no byte that JSON writes otherwise.
pub(crate) fn spell_quoted(text: &mut String, word: &str) -> Result<(), AllocError>
    ensures { OnOk result (string_bytes text.new ≡ string_bytes text.old ++ quoted word.now) }
{
    text.push_str("\"")?;
    text.push_str(word)?;
    text.push_str("\"")
}
