//! The node arena: entries of names (origin, tag), threaded in two orders without moving one.
//!
//! An `Arena` is a `Vec` of nodes. Each used node is in the doubly linked tag list (by tag, then by origin) and
//! in the doubly linked list of its origin (by tag); the unused ones are in a free list. Contracts see none of
//! these links: they see the entries in order, each with the handle that names it, how many nodes are free, and for how
//! many memory was taken.
//!
//! A name is looked for from the end of a list back. For names that come newest first the arena keeps for each origin
//! the node touched last: the walk along the origin's list starts there where that is after the name, and the walk
//! along the tag list at the origin's next node. A late name is sought from a hint: each 37th node is one, and the
//! middle of each walk that was long. No clause speaks of that.
#![tactic(auto)]

mod arena;
mod hints;
pub mod law;
mod links;
mod node;
mod packed;

pub use arena::Arena;
pub use node::{Cursor, Gap, MAX_USED, NodeId};
pub use warp_tag::{Entry, OutOfMemory};
