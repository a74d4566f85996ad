//! Hints: nodes from which a walk back along a list may start. On them hangs what a walk costs; what it finds hangs
//! only on what is tested of one where it is used.
ghost use Rattle.std.specs.Prelude.{◌≡◌, ℕ, ◌+◌, ◌/◌, ◌<◌, ◌≢◌, ◌≤◌, All, length, IsOk, IsTrue, OnOk};
ghost use Rattle.std.specs.Prelude.{vec_len, vec_capacity};
ghost use Rattle.std.specs.List.{AllByRecursion};
ghost use Rattle.warp_tag.specs.Table.{name_before};
ghost use Rattle.warp_arena.specs.Shape.{IsOwnAfter, entry_at};
ghost use Rattle.warp_arena.specs.Changes.{is_later};

use crate::node::{MOST_SEEN, NO_NODE, Node};
use warp_tag::{OutOfMemory, Tag};

/// Makes room for more hints, where there is no room for a node more, so that room for hints grows with that for nodes.
/// The only error is want of memory. The hints stay.
pub(crate) fn reserve_hints(
    hints: &mut Vec<u32>,
    own_hints: &mut Vec<u32>,
    nodes: &Vec<Node>,
) -> Result<(), OutOfMemory>
    ensures items { hints.new.items ≡ hints.old.items }
    ensures own_items { own_hints.new.items ≡ own_hints.old.items }
    ensures room { OnOk result (vec_capacity nodes.now ≤ length nodes.now.items →
        vec_len hints.new + (length nodes.now.items / 8 + 4) ≤ vec_capacity hints.new) }
    ensures own_room { OnOk result (vec_capacity nodes.now ≤ length nodes.now.items →
        vec_len own_hints.new + (length nodes.now.items / 16 + 4) ≤ vec_capacity own_hints.new) }
    ensures spare { length nodes.now.items < vec_capacity nodes.now → IsOk result }
    ensures grown { vec_capacity hints.old ≤ vec_capacity hints.new }
    ensures own_grown { vec_capacity own_hints.old ≤ vec_capacity own_hints.new }
    ensures kept { length nodes.now.items < vec_capacity nodes.now →
        (vec_capacity hints.new ≡ vec_capacity hints.old) × (vec_capacity own_hints.new ≡ vec_capacity own_hints.old) }
{
    if nodes.len() < nodes.capacity() {
        return Ok(());
    }
    hints.reserve(nodes.len() / 8 + 4)?;
    own_hints.reserve(nodes.len() / 16 + 4)?;
    Ok(())
}

/// The place of the first hint whose name is after this one, sought by halves, where hints stand in order.
pub(crate) fn place_of_hint(hints: &[u32], nodes: &[Node], origin: u32, tag: Tag) -> usize
    requires { All (λ h. h < length nodes.now) hints.now }
    ensures { result ≤ length hints.now }
{
    let mut low = 0;
    let mut high = hints.len();
    while low < high {
        let middle = low + (high - low) / 2;
        if nodes[hints[middle] as usize].entry.comes_after(origin, tag) {
            high = middle;
        } else {
            low = middle + 1;
        }
    }
    low
}

/// Whether the node's name is after this one in order of origin, then of tag.
fn is_past(node: &Node, origin: u32, tag: Tag) -> bool {
    let of = node.entry.origin();
    of > origin || (of == origin && node.entry.comes_after(origin, tag))
}

/// The place of the first hint whose name is after this one in order of origin, then of tag, sought by halves, where
/// hints stand in that order.
pub(crate) fn place_of_own_hint(hints: &[u32], nodes: &[Node], origin: u32, tag: Tag) -> usize
    requires { All (λ h. h < length nodes.now) hints.now }
    ensures { result ≤ length hints.now }
{
    let mut low = 0;
    let mut high = hints.len();
    while low < high {
        let middle = low + (high - low) / 2;
        if is_past(&nodes[hints[middle] as usize], origin, tag) {
            high = middle;
        } else {
            low = middle + 1;
        }
    }
    low
}

/// The first of the hints that is of the origin, and whose name is after this one, where hints stand in order of
/// origin, then of tag; or `NO_NODE`.
#[inline(never)]
pub(crate) fn kept_hint(hints: &[u32], nodes: &[Node], origin: u32, tag: Tag) -> u32
    requires { All (λ h. h < length nodes.now) hints.now }
    ensures { result ≢ NO_NODE → IsOwnAfter origin tag (entry_at nodes.now result) }
{
    let first = place_of_own_hint(hints, nodes, origin, tag);
    let next = &hints[first..];
    first_own(&next[..next.len().min(1)], nodes, origin, tag)
}

/// Whether the name is before the last few hints, so that a walk from the end may be long. On this hangs what a walk
/// costs, and nothing else.
fn is_far(hints: &[u32], nodes: &[Node], origin: u32, tag: Tag) -> bool
    requires { All (λ h. h < length nodes.now) hints.now }
{
    hints.len() > 3
        && nodes[hints[hints.len() - 3] as usize]
            .entry
            .comes_after(origin, tag)
}

/// The first of these nodes that is of the origin, and whose name is after this one, or `NO_NODE`.
fn first_own(hints: &[u32], nodes: &[Node], origin: u32, tag: Tag) -> u32
    requires { All (λ h. h < length nodes.now) hints.now }
    ensures { result ≢ NO_NODE → IsOwnAfter origin tag (entry_at nodes.now result) }
{
    for hint in hints {
        let entry = &nodes[*hint as usize].entry;
        if entry.origin() == origin && entry.comes_after(origin, tag) {
            return *hint;
        }
    }
    NO_NODE
}

/// Where this name is far from the end, a hint of its origin that is after it, the nearest one if it is among the next
/// few hints; else `NO_NODE`.
#[inline(never)]
pub(crate) fn own_hint(hints: &[u32], nodes: &[Node], origin: u32, tag: Tag) -> u32
    requires { All (λ h. h < length nodes.now) hints.now }
    ensures { result ≢ NO_NODE → IsOwnAfter origin tag (entry_at nodes.now result) }
{
    if !is_far(hints, nodes, origin, tag) {
        return NO_NODE;
    }
    let first = place_of_hint(hints, nodes, origin, tag);
    let next = &hints[first..];
    first_own(&next[..next.len().min(MOST_SEEN)], nodes, origin, tag)
}

/// Where this name is far from the end, the first hint that is after it; else `NO_NODE`.
pub(crate) fn tag_hint(hints: &[u32], nodes: &[Node], origin: u32, tag: Tag) -> u32
    requires { All (λ h. h < length nodes.now) hints.now }
    ensures { result ≢ NO_NODE → IsTrue (name_before origin tag (entry_at nodes.now result)) }
{
    if !is_far(hints, nodes, origin, tag) {
        return NO_NODE;
    }
    let first = place_of_hint(hints, nodes, origin, tag);
    match hints.get(first) {
        Some(hint) if nodes[*hint as usize].entry.comes_after(origin, tag) => *hint,
        _ => NO_NODE,
    }
}

/// Whether the node before the one at this index in its origin's list is not after the name. On this hangs what a walk
/// costs, and nothing else.
pub(crate) fn leads_back(nodes: &[Node], at: u32, origin: u32, tag: Tag) -> bool {
    let Some(node) = nodes.get(at as usize) else {
        return true;
    };
    match nodes.get(node.of_origin.prev as usize) {
        Some(before) => !before.entry.comes_after(origin, tag),
        None => true,
    }
}

/// Whether the node at this index is the next one by tag behind another. On this hangs what a walk costs, and nothing
/// else.
pub(crate) fn stands_behind(nodes: &[Node], at: u32, before: u32) -> bool {
    match nodes.get(at as usize) {
        Some(node) => node.by_tag.prev == before,
        None => false,
    }
}

/// Where a walk back to this name along its origin's list may start: what `own_hint` says, or else `kept_hint`.
pub(crate) fn near_hint(
    hints: &[u32],
    own_hints: &[u32],
    nodes: &[Node],
    origin: u32,
    tag: Tag,
) -> u32
    requires hints { All (λ h. h < length nodes.now) hints.now }
    requires own_hints { All (λ h. h < length nodes.now) own_hints.now }
    ensures { result ≢ NO_NODE → IsOwnAfter origin tag (entry_at nodes.now result) }
{
    let hint = own_hint(hints, nodes, origin, tag);
    if hint != NO_NODE {
        return hint;
    }
    kept_hint(own_hints, nodes, origin, tag)
}

/// Whether the tag of the node at this index, if there is one, is after this one.
fn is_later(nodes: &[Node], at: u32, tag: Tag) -> bool
    ensures { result ≡ is_later nodes.now tag at }
{
    match nodes.get(at as usize) {
        Some(node) => tag.is_before(node.entry.tag()),
        None => false,
    }
}

/// Takes out of the hints, in one pass, those of nodes whose tags are not after this one. A node that is free has the
/// first tag of all.
pub(crate) fn keep_later(hints: &mut Vec<u32>, nodes: &[Node], tag: Tag)
    ensures below { (bound : ℕ) → AllByRecursion (λ h. h < bound) hints.old.items
        → AllByRecursion (λ h. h < bound) hints.new.items }
    ensures room { vec_capacity hints.new ≡ vec_capacity hints.old }
{
    hints.retain(|hint| is_later(nodes, *hint, tag));
}

/// The node that is so many before this one in its origin's list. On this hangs what a walk costs, and nothing else.
pub(crate) fn back_of_origin(nodes: &[Node], from: u32, count: u32) -> u32 {
    let mut at = from;
    for _ in 0..count {
        match nodes.get(at as usize) {
            Some(node) => at = node.of_origin.prev,
            None => return NO_NODE,
        }
    }
    at
}

/// The node that is so many before this one in the tag list. On this hangs what a walk costs, and nothing else.
pub(crate) fn back_by_tag(nodes: &[Node], from: u32, count: u32) -> u32 {
    let mut at = from;
    for _ in 0..count {
        match nodes.get(at as usize) {
            Some(node) => at = node.by_tag.prev,
            None => return NO_NODE,
        }
    }
    at
}
