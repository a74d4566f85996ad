//! What a program puts out.
use crate::tag::Tag;

/// A program output that a step put.
#[derive(Clone, Copy, Debug, PartialEq, Eq)]
pub struct Out {
    /// The tag of the step.
    pub tag: Tag,
    /// The number of the program output, 0 to 63.
    pub port: u32,
    /// The value.
    pub value: i64,
}
