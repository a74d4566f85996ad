//! What a host wants of the system.

pub use warp_events::{Action, Ending};
