//! The board: released rows that any thread reads without waiting.
//!
//! One writer appends rows and may freeze the board; readers load the count, the flag and single rows, each in atomic
//! steps with no lock. A row that was seen never changes, and a raised flag never falls.
#![tactic(auto)]

mod make;
mod notes;
mod reader;
mod rule;
mod shared;
mod spell;
#[cfg(test)]
mod tests;
mod writer;

pub use make::board;
pub use reader::{Reader, join_readers, split_reader};
pub use shared::Board;
pub use spell::{PORTS, read_row, spell_row};
pub use writer::{Full, Writer, meet};
