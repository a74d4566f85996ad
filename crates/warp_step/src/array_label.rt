//! What the cells of an array are called.

/// What an array is called, and which of a program's variables its cells are.
#[derive(Drop)]
pub struct ArrayLabel {
    /// What it is called.
    pub label: String,
    /// The number of its first cell among the variables.
    pub first: u32,
    /// How many cells it has.
    pub count: u32,
}
