//! The links of an arena's nodes: how a node comes into its two lists and goes from them.
ghost use Rattle.std.specs.Prelude.{◌≡◌, ℕ, ◌<◌, [], ◌∷◌, ◌++◌, ◌+◌, max, length, None, Some, if◌then◌else◌, ◌==◌};
ghost use Rattle.std.specs.Prelude.{◌≢◌, ◌≤◌, All, Contains, is_ok, IsOk, IsTrue, OnOk, OnErr};
ghost use Rattle.std.specs.Vec.{vec_capacity};
ghost use Rattle.warp_tag.specs.Table.{name_before};
ghost use Rattle.warp_arena.specs.Places.{room_after};
ghost use Rattle.warp_arena.specs.Shape.{by_tag, entry_at, of_origin, next_in, prev_in, no_node};
ghost use Rattle.warp_arena.specs.Changes.{IsPassed, IsPlace, CanThread, CanUnthread, SetsNext, SetsPrev, KeepsButTags};
ghost use Rattle.warp_arena.specs.Changes.{KeepsButOwn, SetsEntry, Inserts, Skips, Threaded, Unthreaded};

use crate::node::{Gap, Links, NO_NODE, Node, NodeId};
use crate::packed::Packed;
use warp_tag::{OutOfMemory, Tag};

/// The handle of the node at this index, or none for `NO_NODE`.
pub(crate) fn handle(index: u32) -> Option<NodeId>
    ensures { result ≡ (if index == NO_NODE then None else Some index) }
{
    if index == NO_NODE {
        None
    } else {
        Some(NodeId::new(index))
    }
}

/// Adds an unused node at the end, and takes memory only where there is no room for it: for twice as many nodes as
/// there are, and four more at least. The only error is want of memory; then all is as before.
pub(crate) fn add_node(nodes: &mut Vec<Node>) -> Result<(), OutOfMemory>
    ensures ok { OnOk result (nodes.new.items ≡ nodes.old.items ++ no_node ∷ []) }
    ensures err { OnErr result (nodes.new.items ≡ nodes.old.items) }
    ensures room { vec_capacity nodes.new
        ≡ (if is_ok result then room_after (length nodes.old.items) (vec_capacity nodes.old)
        else vec_capacity nodes.old) }
    ensures spare { length nodes.old.items < vec_capacity nodes.old → IsOk result }
{
    if nodes.len() < nodes.capacity() {
        nodes.push_reserved(Node::unused());
        return Ok(());
    }
    add_with_room(nodes)
}

/// Adds an unused node at the end, where there is no room for it, and takes memory first: for twice as many nodes, and
/// four more at least. The only error is want of memory; then all is as before.
#[inline(never)]
fn add_with_room(nodes: &mut Vec<Node>) -> Result<(), OutOfMemory>
    requires { vec_capacity nodes.old ≡ length nodes.old.items }
    ensures ok { OnOk result (nodes.new.items ≡ nodes.old.items ++ no_node ∷ []) }
    ensures err { OnErr result (nodes.new.items ≡ nodes.old.items) }
    ensures room { vec_capacity nodes.new
        ≡ (if is_ok result then length nodes.old.items + max 4 (length nodes.old.items) else length nodes.old.items) }
{
    let count = nodes.len();
    nodes.reserve_exact(count.max(4))?;
    nodes.push_reserved(Node::unused());
    Ok(())
}

/// Whether the place is a list's end, or the name of its entry comes before this one.
pub(crate) fn is_passed(nodes: &[Node], at: u32, origin: u32, tag: Tag) -> bool
    requires { IsPlace (length nodes.now) at }
    ensures { IsTrue result → IsPassed origin tag nodes.now at }
{
    at == NO_NODE || nodes[at as usize].entry.comes_before(origin, tag)
}

/// Makes this place of the tag list lead on to another; `NO_NODE` stands for the list's end.
pub(crate) fn set_next_by_tag(nodes: &mut [Node], ends: &mut Links, at: u32, to: u32)
    requires { IsPlace (length nodes.old) at }
    ensures sets { SetsNext ends.old ends.new (by_tag nodes.old) (by_tag nodes.new) at to }
    ensures keeps { KeepsButTags nodes.old nodes.new }
{
    if at == NO_NODE {
        ends.next = to;
    } else {
        nodes[at as usize].by_tag.next = to;
    }
}

/// Makes this place of the tag list lead back to another.
pub(crate) fn set_prev_by_tag(nodes: &mut [Node], ends: &mut Links, at: u32, to: u32)
    requires { IsPlace (length nodes.old) at }
    ensures sets { SetsPrev ends.old ends.new (by_tag nodes.old) (by_tag nodes.new) at to }
    ensures keeps { KeepsButTags nodes.old nodes.new }
{
    if at == NO_NODE {
        ends.prev = to;
    } else {
        nodes[at as usize].by_tag.prev = to;
    }
}

/// Makes this place of an origin's list lead on to another.
pub(crate) fn set_next_of_origin(nodes: &mut [Node], ends: &mut Links, at: u32, to: u32)
    requires { IsPlace (length nodes.old) at }
    ensures sets { SetsNext ends.old ends.new (of_origin nodes.old) (of_origin nodes.new) at to }
    ensures keeps { KeepsButOwn nodes.old nodes.new }
{
    if at == NO_NODE {
        ends.next = to;
    } else {
        nodes[at as usize].of_origin.next = to;
    }
}

/// Makes this place of an origin's list lead back to another.
pub(crate) fn set_prev_of_origin(nodes: &mut [Node], ends: &mut Links, at: u32, to: u32)
    requires { IsPlace (length nodes.old) at }
    ensures sets { SetsPrev ends.old ends.new (of_origin nodes.old) (of_origin nodes.new) at to }
    ensures keeps { KeepsButOwn nodes.old nodes.new }
{
    if at == NO_NODE {
        ends.prev = to;
    } else {
        nodes[at as usize].of_origin.prev = to;
    }
}

/// The place after this one in the tag list.
pub(crate) fn next_by_tag(nodes: &[Node], ends: &Links, at: u32) -> u32
    requires { IsPlace (length nodes.now) at }
    ensures { result ≡ next_in ends.now (by_tag nodes.now) at }
{
    if at == NO_NODE {
        ends.next
    } else {
        nodes[at as usize].by_tag.next
    }
}

/// The place after this one in an origin's list.
pub(crate) fn next_of_origin(nodes: &[Node], ends: &Links, at: u32) -> u32
    requires { IsPlace (length nodes.now) at }
    ensures { result ≡ next_in ends.now (of_origin nodes.now) at }
{
    if at == NO_NODE {
        ends.next
    } else {
        nodes[at as usize].of_origin.next
    }
}

/// Puts the node into the tag list, between these places.
pub(crate) fn thread_by_tag(nodes: &mut [Node], ends: &mut Links, before: u32, after: u32, at: u32)
    requires place { CanThread (length nodes.old) (next_in ends.old (by_tag nodes.old)) before at }
    requires after { after ≡ next_in ends.old (by_tag nodes.old) before }
    ensures keeps { KeepsButTags nodes.old nodes.new }
    ensures inserts { Inserts (next_in ends.old (by_tag nodes.old)) (prev_in ends.old (by_tag nodes.old))
        (next_in ends.new (by_tag nodes.new)) (prev_in ends.new (by_tag nodes.new))
        before at (next_in ends.old (by_tag nodes.old) before) }
{
    set_next_by_tag(nodes, ends, before, at);
    set_prev_by_tag(nodes, ends, after, at);
    let links = &mut nodes[at as usize].by_tag;
    links.next = after;
    links.prev = before;
}

/// Puts the node into its origin's list, between these places.
pub(crate) fn thread_of_origin(
    nodes: &mut [Node],
    ends: &mut Links,
    before: u32,
    after: u32,
    at: u32,
)
    requires place { CanThread (length nodes.old) (next_in ends.old (of_origin nodes.old)) before at }
    requires after { after ≡ next_in ends.old (of_origin nodes.old) before }
    ensures keeps { KeepsButOwn nodes.old nodes.new }
    ensures inserts { Inserts (next_in ends.old (of_origin nodes.old)) (prev_in ends.old (of_origin nodes.old))
        (next_in ends.new (of_origin nodes.new)) (prev_in ends.new (of_origin nodes.new))
        before at (next_in ends.old (of_origin nodes.old) before) }
{
    set_next_of_origin(nodes, ends, before, at);
    set_prev_of_origin(nodes, ends, after, at);
    let links = &mut nodes[at as usize].of_origin;
    links.next = after;
    links.prev = before;
}

/// Gives the node this entry.
fn set_entry(nodes: &mut [Node], at: u32, entry: Packed)
    requires { at < length nodes.old }
    ensures { SetsEntry nodes.old nodes.new at entry }
{
    nodes[at as usize].entry = entry;
}

/// Gives the node this entry, and puts it into this gap of the tag list and of its origin's list.
pub(crate) fn thread_node(
    nodes: &mut [Node],
    ends: &mut Links,
    own_ends: &mut Links,
    gap: &Gap,
    at: u32,
    entry: Packed,
)
    requires tags { CanThread (length nodes.old) (next_in ends.old (by_tag nodes.old)) gap.now.before at }
    requires owns { CanThread (length nodes.old) (next_in own_ends.old (of_origin nodes.old)) gap.now.own_before at }
    requires after { gap.now.after ≡ next_in ends.old (by_tag nodes.old) gap.now.before }
    requires own_after { gap.now.own_after ≡ next_in own_ends.old (of_origin nodes.old) gap.now.own_before }
    ensures { Threaded nodes.old nodes.new ends.old ends.new own_ends.old own_ends.new
        gap.now.before gap.now.own_before at entry }
{
    set_entry(nodes, at, entry);
    thread_by_tag(nodes, ends, gap.before, gap.after, at);
    thread_of_origin(nodes, own_ends, gap.own_before, gap.own_after, at);
}

/// Takes the first node of the tag list out of it.
pub(crate) fn unthread_by_tag(nodes: &mut [Node], ends: &mut Links, at: u32)
    requires { CanUnthread (length nodes.old) (next_in ends.old (by_tag nodes.old)) at }
    ensures keeps { KeepsButTags nodes.old nodes.new }
    ensures skips { Skips (next_in ends.old (by_tag nodes.old)) (prev_in ends.old (by_tag nodes.old))
        (next_in ends.new (by_tag nodes.new)) (prev_in ends.new (by_tag nodes.new)) NO_NODE at }
{
    let after = next_by_tag(nodes, ends, at);
    set_next_by_tag(nodes, ends, NO_NODE, after);
    set_prev_by_tag(nodes, ends, after, NO_NODE);
}

/// Takes the first node of an origin's list out of it.
pub(crate) fn unthread_of_origin(nodes: &mut [Node], ends: &mut Links, at: u32)
    requires { CanUnthread (length nodes.old) (next_in ends.old (of_origin nodes.old)) at }
    ensures keeps { KeepsButOwn nodes.old nodes.new }
    ensures skips { Skips (next_in ends.old (of_origin nodes.old)) (prev_in ends.old (of_origin nodes.old))
        (next_in ends.new (of_origin nodes.new)) (prev_in ends.new (of_origin nodes.new)) NO_NODE at }
{
    let after = next_of_origin(nodes, ends, at);
    set_next_of_origin(nodes, ends, NO_NODE, after);
    set_prev_of_origin(nodes, ends, after, NO_NODE);
}

/// Takes the node, the first of the tag list and of its origin's list, out of both, and makes it lead to this
/// first unused node. It has the least of all names then.
pub(crate) fn unthread_node(
    nodes: &mut [Node],
    ends: &mut Links,
    own_ends: &mut Links,
    at: u32,
    free: u32,
)
    requires tags { CanUnthread (length nodes.old) (next_in ends.old (by_tag nodes.old)) at }
    requires owns { CanUnthread (length nodes.old) (next_in own_ends.old (of_origin nodes.old)) at }
    ensures { Unthreaded nodes.old nodes.new ends.old ends.new own_ends.old own_ends.new at free }
{
    unthread_by_tag(nodes, ends, at);
    unthread_of_origin(nodes, own_ends, at);
    nodes[at as usize].entry = Packed::blank();
    nodes[at as usize].by_tag.next = free;
}
