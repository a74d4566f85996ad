//! Tags: when something happens, and where a delay lands from there.
//!
//! A tag is a time and a microstep, in lexicographic order (Lohstroh et al. 2021, "superdense time").
//! Contracts see a `Tag` as its `Moment`. Each `Tag` is in range by its type. An `Entry` is what is known of one name
//! (origin, tag) of a table. The limits that several crates share stand in `specs/Limits.antt`.
#![tactic(auto)]

mod entry;
mod form;
mod out;
mod tag;

pub use entry::{Entry, is_lesser};
pub use form::Form;
pub use out::Out;
pub use std::alloc::AllocError as OutOfMemory;
pub use tag::{
    LAST_MICROSTEP, Landing, MAX_DELAY, MAX_PERIOD, MAX_STOP, MAX_TIME, Tag, tag_limits,
};
