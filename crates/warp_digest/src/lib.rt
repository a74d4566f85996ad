//! The digest of a log: one number for the set of its records, whatever the order in which they came.
//!
//! Each record has a number, the first 16 bytes of the SHA-256 of its spelled line; the digest is their sum modulo 2 to the
//! power of 128. So one record more is one addition, and two logs of the same records have one digest (`any_order`). A
//! `Digest` counts records as they are given to it.
#![tactic(auto)]

mod counting;
mod law;

pub use counting::Digest;
pub use law::any_order;
