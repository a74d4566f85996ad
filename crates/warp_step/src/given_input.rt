//! What goes into a step.

/// A program input that is given at a tag, with its value.
#[derive(Clone, Copy, Debug, PartialEq, Eq)]
pub struct Given {
    /// The number of the program input.
    pub input: u32,
    /// The value.
    pub value: i64,
}
