//! Numbers of a canonical text.
ghost use Rattle.std.specs.Prelude.{◌≡◌, ◌++◌, OnOk, codes, string_bytes};
ghost use Rattle.std.specs.Fmt.{signed_decimal};

use itoa::Buffer;
use std::alloc::AllocError;

/// Adds a number in decimal digits.
pub(crate) fn spell_number(text: &mut String, number: i64) -> Result<(), AllocError>
    ensures { OnOk result (string_bytes text.new ≡ string_bytes text.old ++ signed_decimal number) }
{
    let mut digits = Buffer::new();
    text.push_str(digits.format(number))
}

/// Adds a key, as it stands behind what is before it, and a number.
pub(crate) fn spell_keyed(text: &mut String, key: &str, number: i64) -> Result<(), AllocError>
    ensures { OnOk result
        (string_bytes text.new ≡ string_bytes text.old ++ (key.now ++ signed_decimal number)) }
{
    text.push_str(key)?;
    spell_number(text, number)
}

/// Adds a comma and a number.
pub(crate) fn spell_further(text: &mut String, number: i64) -> Result<(), AllocError>
    ensures { OnOk result
        (string_bytes text.new ≡ string_bytes text.old ++ (codes "," ++ signed_decimal number)) }
{
    spell_keyed(text, ",", number)
}
