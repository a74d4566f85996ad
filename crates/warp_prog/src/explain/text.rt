//! Text that is put together of parts.

use std::alloc::AllocError;

/// Adds these parts to a text, one after another.
pub(crate) fn push_all(text: &mut String, parts: &[&str]) -> Result<(), AllocError> {
    for part in parts {
        text.push_str(*part)?;
    }
    Ok(())
}
