//! The nodes of an arena: their entries, their links, and the handles that name them.
use crate::packed::Packed;
use std::marker::Model;

/// The most entries that an arena holds.
pub const MAX_USED: usize = 4_000_000_000;

/// Stands in a link for "no node": an end of a list.
pub(crate) const NO_NODE: u32 = u32::MAX;

/// A node is a hint where its index is a multiple of this. A prime, so that of origins which come in turn each has
/// hints, unless they are just so many.
pub(crate) const HINTED: u32 = 37;

/// Among so many hints at most one of an origin is looked for.
pub(crate) const MOST_SEEN: usize = 64;

/// A walk that passed more nodes than this leaves a hint in its middle.
pub(crate) const MOST_PASSED: u32 = 64;

/// The handle of a node of an arena. It names the same entry until the node is freed.
#[derive(Clone, Copy, Debug, PartialEq, Eq)]
pub struct NodeId {
    index: u32,
}

impl Model for NodeId {
    ghost use Rattle.std.specs.Prelude.{ℕ};

    ghost Value = { ℕ };

    ghost view = { λ n. n.index };

    ghost inverse = { λ i. record { index = i } };
}

impl NodeId {
    ghost use Rattle.std.specs.Prelude.{◌≡◌};

    /// The handle of the node at this index.
    pub(crate) fn new(index: u32) -> NodeId
        ensures { result ≡ index }
    {
        NodeId { index }
    }

    /// The index of the node.
    pub(crate) fn index(self) -> u32
        ensures { result ≡ self }
    {
        self.index
    }
}

/// Where a walk along an arena's entries stands: at the entry of a handle, or behind the last one. Contracts see it as
/// that handle, if there is one. It takes four bytes, where a handle that may be none takes eight.
#[derive(Debug, Drop)]
pub struct Cursor {
    at: u32,
}

impl Model for Cursor {
    ghost use Rattle.std.specs.Prelude.{ℕ, Option, Some, None, if◌then◌else◌, ◌==◌};
    ghost use Rattle.warp_arena.specs.declared.node.TheConstants.{NO_NODE};

    ghost Value = { Option ℕ };

    ghost view = { λ c. if c.at == NO_NODE then None else Some c.at };
}

impl Cursor {
    ghost use Rattle.std.specs.Prelude.{◌≡◌, None, Some, if◌then◌else◌, ◌==◌};
    ghost use Rattle.warp_arena.specs.declared.node.TheConstants.{NO_NODE};

    /// Behind the last entry.
    pub fn end() -> Cursor
        ensures { result ≡ None }
    {
        Cursor { at: NO_NODE }
    }

    /// At the node at this index, or behind the last entry for `NO_NODE`.
    #[inline(always)]
    pub(crate) fn new(at: u32) -> Cursor
        ensures { result ≡ (if at == NO_NODE then None else Some at) }
    {
        Cursor { at }
    }

    /// The handle of the entry at which it stands, or none behind the last one.
    #[inline(always)]
    pub fn node(&self) -> Option<NodeId>
        ensures { result ≡ self.now }
    {
        if self.at == NO_NODE {
            None
        } else {
            Some(NodeId::new(self.at))
        }
    }
}

/// The indices of a node's neighbours in a list, or `NO_NODE` at its ends. Where it stands for a list as a
/// whole, `next` is the first node and `prev` the last.
#[derive(Clone, Copy)]
pub(crate) struct Links {
    pub next: u32,
    pub prev: u32,
}

impl Links {
    /// A list without a node.
    pub const EMPTY: Links = Links {
        next: NO_NODE,
        prev: NO_NODE,
    };
}

/// Where a node comes in: the places between which it stands in the tag list and in its origin's list.
#[derive(Clone, Copy)]
pub struct Gap {
    pub(crate) before: u32,
    pub(crate) after: u32,
    pub(crate) own_before: u32,
    pub(crate) own_after: u32,
}

/// The end of a walk back along a list: the node where it stopped, or `NO_NODE`, and how many nodes it passed.
#[derive(Clone, Copy)]
pub(crate) struct Walk {
    pub at: u32,
    pub passed: u32,
}

/// What the arena keeps of an origin: the ends of its list, and the node of it that was touched last, or `NO_NODE`.
#[derive(Clone, Copy)]
pub(crate) struct Origin {
    pub ends: Links,
    pub touched: u32,
}

impl Origin {
    /// An origin without a node.
    pub const EMPTY: Origin = Origin {
        ends: Links::EMPTY,
        touched: NO_NODE,
    };

    ghost use Rattle.std.specs.Prelude.{◌≡◌, ◌==◌, if◌then◌else◌};

    /// The node touched last, or `NO_NODE` where that is this one, which is freed.
    pub fn touched_without(&self, freed: u32) -> u32
        ensures { result ≡ (if self.now.touched == freed then NO_NODE else self.now.touched) }
    {
        if self.touched == freed {
            NO_NODE
        } else {
            self.touched
        }
    }
}

/// A node of 40 bytes: its entry, and its neighbours in the tag list and in its origin's list. Of an unused node only
/// `by_tag.next` counts, the next node of the free list.
#[derive(Drop)]
pub(crate) struct Node {
    pub entry: Packed,
    pub by_tag: Links,
    pub of_origin: Links,
}

impl Node {
    ghost use Rattle.std.specs.Prelude.{◌≡◌};
    ghost use Rattle.warp_arena.specs.Shape.{no_node};

    /// A node that no list holds.
    #[inline(always)]
    pub fn unused() -> Node
        ensures { result ≡ no_node }
    {
        // Inlined, so that a node that is pushed is written at its place and not on the stack first.
        Node {
            entry: Packed::blank(),
            by_tag: Links::EMPTY,
            of_origin: Links::EMPTY,
        }
    }
}
