//! Walks along the places of an arena.
ghost use Rattle.std.specs.Prelude.{◌≡◌, ◌≤◌, ◌++◌, ◌∷◌, [], true, IsTrue, List, Some, map, IfOk, IfSome, OnOk};
ghost use Rattle.std.specs.Prelude.{if◌then◌else◌, IsSomeAnd};
ghost use Rattle.std.specs.Option.{option_map};
ghost use Rattle.warp_tag.specs.Table.{live, live_event};
ghost use Rattle.warp_step.specs.Run.{given_of, is_after};
ghost use Rattle.warp_arena.specs.Places.{Place, Reaches, entry_of};
ghost use Rattle.warp_run.specs.Skips.{AreFree};
ghost use Rattle.warp_run.specs.Walk.{AreThrough, FindsBefore, FindsFirst, FindsPlace, FindsPlaceBefore};
ghost use Rattle.warp_run.specs.Walk.{ahead, event_at, given_by, live_of, through};

use crate::skips::Skips;
use warp_arena::{Arena, NodeId};
use warp_step::Given;
use warp_tag::{Entry, OutOfMemory, Tag};

/// Whether the tag is after the last row, if there is one.
pub(crate) fn is_after(last: Option<Tag>, tag: Tag) -> bool
    ensures { result ≡ is_after last tag }
{
    match last {
        Some(last) => last.is_before(tag),
        None => true,
    }
}

/// Frees the nodes whose tags are not after the floor, if there is one.
pub(crate) fn free_behind(arena: &mut Arena, floor: Option<Tag>)
    ensures places { arena.new ≡ record arena.old { places = ahead floor arena.old.places; free = arena.new.free } }
    ensures free { arena.old.free ≤ arena.new.free }
{
    if let Some(floor) = floor {
        arena.free_through(floor);
    }
}

/// A live event of an arena's place.
#[derive(Clone, Copy)]
pub(crate) struct Live {
    /// Its place.
    pub node: NodeId,
    pub tag: Tag,
    /// What it gives.
    pub given: Given,
}

/// A row that is next.
#[derive(Clone, Copy)]
pub(crate) enum Next {
    /// At the tag of the first live event after the last row.
    AtEvent(Live),
    /// At the tag of a pending entry. There may be live events at it as well.
    AtEntry(Tag),
}

/// The event of an entry at this place, where it counts: one came, and it is not withdrawn.
#[inline(always)]
fn live_at(node: NodeId, entry: &Entry) -> Option<Live>
    ensures { result ≡ option_map (event_at node) (live_event entry.now) }
{
    if entry.withdrawn {
        return None;
    }
    let (input, value) = entry.event?;
    Some(Live {
        node,
        tag: entry.tag,
        given: Given { input, value },
    })
}

/// Adds what a live entry gives.
fn add_given(entry: &Entry, given: &mut Vec<Given>) -> Result<(), OutOfMemory>
    ensures { OnOk result (given.new.items ≡ given.old.items ++ map given_of (live (entry.now ∷ []))) }
{
    if !entry.withdrawn
        && let Some((input, value)) = entry.event
    {
        given.push(Given { input, value })?;
    }
    Ok(())
}

/// The first live event from the cursor on: mostly that of the first place.
#[inline(always)]
pub(crate) fn next_event(
    arena: &Arena,
    skips: &Skips,
    cursor: Option<NodeId>,
    latest: &Option<Tag>,
) -> Option<Live>
    requires { (rest : List Place) × Reaches arena.now.places rest cursor × AreThrough latest.now (live_of rest) ×
        AreFree skips.now (live_of rest) }
    ensures { (rest : List Place) → Reaches arena.now.places rest cursor → AreThrough latest.now (live_of rest) →
        FindsFirst arena.now.places rest result }
{
    let node = cursor?;
    let live = live_at(node, &arena.entry(node));
    if live.is_some() {
        return live;
    }
    let found = later_event(arena, skips, node, latest)?;
    live_at(found, &arena.entry(found))
}

/// The place of the first live event from a place on, sought apart from where it is mostly that of the first place.
#[inline(never)]
fn later_event(arena: &Arena, skips: &Skips, node: NodeId, latest: &Option<Tag>) -> Option<NodeId>
    requires { (rest : List Place) × Reaches arena.now.places rest (Some node) × AreThrough latest.now (live_of rest) ×
        AreFree skips.now (live_of rest) }
    ensures { (rest : List Place) → Reaches arena.now.places rest (Some node) → AreThrough latest.now (live_of rest) →
        FindsPlace arena.now.places rest result }
{
    let live = seek_event(arena, skips, Some(node), latest)?;
    Some(live.node)
}

/// The first live event from the cursor on, sought. No live event is after the latest tag, so the walk ends there.
#[inline(always)]
fn seek_event(
    arena: &Arena,
    skips: &Skips,
    cursor: Option<NodeId>,
    latest: &Option<Tag>,
) -> Option<Live>
    requires { (rest : List Place) × Reaches arena.now.places rest cursor × AreThrough latest.now (live_of rest) ×
        AreFree skips.now (live_of rest) }
    ensures { (rest : List Place) → Reaches arena.now.places rest cursor → AreThrough latest.now (live_of rest) →
        FindsFirst arena.now.places rest result }
{
    arena.ordered();
    let Some(latest) = *latest else {
        return None;
    };
    let mut at = cursor;
    while let Some(node) = at {
        let entry = arena.entry(node);
        let live = live_at(node, &entry);
        if live.is_some() {
            return live;
        }
        if latest.is_before(entry.tag) {
            return None;
        }
        at = skips.behind(arena, node, entry.tag);
    }
    None
}

/// The first live event from the cursor on that is before the tag: mostly that of the first place, or none, since that
/// place is not before it.
#[inline(always)]
pub(crate) fn event_before(
    arena: &Arena,
    skips: &Skips,
    cursor: Option<NodeId>,
    tag: Tag,
) -> Option<Live>
    requires { (rest : List Place) × Reaches arena.now.places rest cursor × AreFree skips.now (live_of rest) }
    ensures { (rest : List Place) →
        Reaches arena.now.places rest cursor → FindsBefore arena.now.places rest tag result }
{
    arena.ordered();
    let node = cursor?;
    let first = arena.entry(node);
    if !first.tag.is_before(tag) {
        return None;
    }
    let live = live_at(node, &first);
    if live.is_some() {
        return live;
    }
    let found = later_before(arena, skips, node, tag)?;
    live_at(found, &arena.entry(found))
}

/// The place of the first live event from a place on that is before the tag, sought apart from where it is mostly that
/// of the first place.
#[inline(never)]
fn later_before(arena: &Arena, skips: &Skips, node: NodeId, tag: Tag) -> Option<NodeId>
    requires { (rest : List Place) × Reaches arena.now.places rest (Some node) × AreFree skips.now (live_of rest) }
    ensures { (rest : List Place) → Reaches arena.now.places rest (Some node) →
        FindsPlaceBefore arena.now.places rest tag result }
{
    let live = seek_before(arena, skips, Some(node), tag)?;
    Some(live.node)
}

/// The first live event from the cursor on that is before the tag, sought: the walk ends at the first place that is
/// not.
#[inline(always)]
fn seek_before(arena: &Arena, skips: &Skips, cursor: Option<NodeId>, tag: Tag) -> Option<Live>
    requires { (rest : List Place) × Reaches arena.now.places rest cursor × AreFree skips.now (live_of rest) }
    ensures { (rest : List Place) →
        Reaches arena.now.places rest cursor → FindsBefore arena.now.places rest tag result }
{
    arena.ordered();
    let mut at = cursor;
    while let Some(node) = at {
        let entry = arena.entry(node);
        if !entry.tag.is_before(tag) {
            return None;
        }
        let live = live_at(node, &entry);
        if live.is_some() {
            return live;
        }
        at = skips.behind(arena, node, entry.tag);
    }
    None
}

/// Whether each place from the cursor on is after the tag.
#[inline(always)]
pub(crate) fn is_past(arena: &Arena, cursor: &Option<NodeId>, tag: Tag) -> bool
    requires { (rest : List Place) × Reaches arena.now.places rest cursor.now }
    ensures { IsTrue result → (rest : List Place) → Reaches arena.now.places rest cursor.now →
        Reaches arena.now.places (ahead (Some tag) rest) cursor.now × (given_by (through tag rest) ≡ []) }
{
    arena.ordered();
    match *cursor {
        Some(node) => tag.is_before(arena.entry(node).tag),
        None => true,
    }
}

/// Adds what the live events from a place on give, up to a tag and with it, and answers the first place after it.
pub(crate) fn gather_from(
    arena: &Arena,
    cursor: Option<NodeId>,
    tag: Tag,
    given: &mut Vec<Given>,
) -> Result<Option<NodeId>, OutOfMemory>
    requires { (rest : List Place) × Reaches arena.now.places rest cursor }
    ensures { IfOk result (λ at. (rest : List Place) → Reaches arena.now.places rest cursor →
        Reaches arena.now.places (ahead (Some tag) rest) at ×
        (given.new.items ≡ given.old.items ++ given_by (through tag rest))) }
{
    arena.ordered();
    let mut at = cursor;
    while let Some(node) = at {
        let entry = arena.entry(node);
        if tag.is_before(entry.tag) {
            break;
        }
        add_given(&entry, given)?;
        at = arena.next(node);
    }
    Ok(at)
}

/// The first place after a tag, sought on from the first place after an earlier one.
pub(crate) fn first_from(arena: &Arena, cursor: Option<NodeId>, last: Tag) -> Option<NodeId>
    requires { (rest : List Place) × Reaches arena.now.places rest cursor }
    ensures { (rest : List Place) → Reaches arena.now.places rest cursor →
        Reaches arena.now.places (ahead (Some last) rest) result }
{
    arena.ordered();
    let mut at = cursor;
    while let Some(node) = at {
        if last.is_before(arena.entry(node).tag) {
            break;
        }
        at = arena.next(node);
    }
    at
}

/// The first place after the last row, sought back from a place that is after it.
pub(crate) fn first_after(arena: &Arena, node: NodeId, last: Option<Tag>) -> Option<NodeId>
    requires { IsSomeAnd (entry_of node arena.now.places) (λ e. is_after last e.tag ≡ true) }
    ensures { Reaches arena.now.places (ahead last arena.now.places) result }
{
    arena.ordered();
    let Some(last) = last else {
        return arena.first();
    };
    let mut at = node;
    while let Some(before) = arena.prev(at) {
        if !last.is_before(arena.entry(before).tag) {
            break;
        }
        at = before;
    }
    Some(at)
}
