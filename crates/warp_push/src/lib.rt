//! Who watches what, and what is pushed of it: pages of the log and of what is released, newest values, and steps.
//!
//! `Watchers` keeps of each client what it watches and how far it was pushed, says what is to be asked for them, and makes
//! of what was told the news that are pushed. It has no socket, no client's bytes and no clock.
#![tactic(auto)]

mod groups;
mod law;
mod lists;
mod marks;
mod page;
mod places;
mod shared;
mod steps;
mod stretch;
mod watchers;

pub use law::pages_leave_nothing_out;
pub use marks::{CellRange, Given, News};
pub use page::{FROZEN, GONE_SLOW, behind_lines, skipped_line};
pub use steps::{Executed, Steps};
pub use watchers::{Answered, Asked, MOST_TOLD, Pushing, Watchers};
