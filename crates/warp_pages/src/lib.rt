//! What a host answers over HTTP: its page, what it measures, its program and its names; and which requests may speak
//! WebSocket, with which rights.
#![tactic(auto)]

mod histogram;
mod metrics;
mod names;
mod page;
mod pages;
mod query;
mod ready;
mod site;

pub use histogram::{Histogram, Stopwatch};
pub use metrics::Seen;
pub use names::Names;
pub use pages::{Pages, Texts, Visit};
pub use ready::Lacks;
pub use site::Site;
