//! The clock of a host that keeps origins: which tick it is (`Clock`), and when a round of announcements is due and up
//! to which tag (`Closing`). Nothing here has a time of its own: moments are microseconds of any one clock that are handed in.
#![tactic(auto)]

mod clock;
mod closing;
mod hertz;
mod laws;
#[cfg(test)]
mod tests;

pub use clock::{Clock, Pause, Ticks, Turned};
pub use closing::Closing;
pub use hertz::Hertz;
pub use laws::{
    due_is_exact, grace_is_kept, pauses_are_bounded, rounds_are_apart, rounds_keep_up,
    rounds_only_grow, ticks_are_exact, ticks_never_go_back,
};
