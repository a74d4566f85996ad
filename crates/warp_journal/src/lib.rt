//! A journal: the text that a host keeps of its log, so that nothing that was told is lost.
//!
//! It is written and read a line at a time, here without a file: `Journal` has what the next line depends on. Each line
//! is a record as it is spelled, or a sum over all that stands before it.
#![tactic(auto)]

mod journal;
mod keeping;
mod reading;

pub use journal::{Fault, Journal, first_line, old_first_line};
pub use keeping::{Disk, Failed, Keeper};
pub use reading::{Ending, Found, Front, NotRead, Reading};

#[cfg(test)]
mod tests;
