//! Tests alone: what no clause says of threads, sessions and servers over the timeline that rolls back. Nothing stands on
//! this crate, and it has no code of its own, so that no crate below is proved a second time with its tests.
#![tactic(auto)]

#[cfg(test)]
mod tests;
