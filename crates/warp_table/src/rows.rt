//! What is known of the names of one origin, in the order of their tags, in blocks.
//!
//! Names come nearly in order of tags, so a row is looked for at the end first, and put there; only a tag that comes
//! late is sought by halves. Before that it is looked for in front of the row that was sought last, since names are
//! often withdrawn newest first.
ghost use Rattle.std.specs.Prelude.{◌≡◌, ◌<◌, ◌≤◌, IsTrue, is_some, length, map, true};
ghost use Rattle.std.specs.Vec.{vec_items};
ghost use Rattle.warp_table.specs.inner.Blocks.{AreBlocks, IsBlockOf, flat};
ghost use Rattle.warp_table.specs.inner.NamesByOrigin.{AreInOrder, IsWith, row_of, row_place};

use crate::announcer::Announcer;
use crate::blocks::{Tagged, block_near, has_room_beyond_all, make_room_anywhere, put, put_last};
use crate::tally::EventOrWithdrawal;
use std::alloc::Global;
use std::marker::Model;
use warp_tag::{OutOfMemory, Tag};

/// What is kept of a name beside the name itself: the places, from 1, of the event with the greatest payload and of the
/// withdrawal; 0 where none came.
#[derive(Clone, Copy)]
pub(crate) struct Known {
    pub(crate) event: u32,
    pub(crate) withdrawal: u32,
}

impl Known {
    ghost use Rattle.warp_table.specs.inner.Kept.{nothing_known, with_event_at, with_withdrawal_at};

    /// Where nothing came.
    pub(crate) fn nothing() -> Known
        ensures { result ≡ nothing_known }
    {
        Known {
            event: 0,
            withdrawal: 0,
        }
    }

    /// With the event at this place.
    pub(crate) fn with_event(self, place: u32) -> Known
        ensures { result ≡ with_event_at place self }
    {
        Known {
            event: place,
            withdrawal: self.withdrawal,
        }
    }

    /// With the withdrawal at this place.
    pub(crate) fn with_withdrawal(self, place: u32) -> Known
        ensures { result ≡ with_withdrawal_at place self }
    {
        Known {
            event: self.event,
            withdrawal: place,
        }
    }
}

/// What is known of the name of this tag.
#[derive(Clone, Copy)]
pub(crate) struct NameRow {
    tag: Tag,
    known: Known,
}

impl Tagged for NameRow {
    ghost tag_of = { λ r. r.tag };

    fn tag(&self) -> Tag {
        self.tag
    }
}

/// The place of the first row that is not before the tag, sought by halves.
#[inline(never)]
fn row_by_halves(rows: &[NameRow], tag: Tag) -> usize
    requires { AreInOrder rows.now }
    ensures place { result ≡ row_place tag rows.now }
    ensures within { result ≤ length rows.now }
{
    rows.partition_point(|row| row.tag.is_before(tag))
}

/// The place of the first row that is not before the tag: at the end, where what comes in order lands, and else sought.
fn place_of(rows: &[NameRow], tag: Tag) -> usize
    requires { AreInOrder rows.now }
    ensures { result ≡ row_place tag rows.now }
{
    let Some(last) = rows.last() else {
        return 0;
    };
    if last.tag.is_before(tag) {
        return rows.len();
    }
    if tag.is_before(last.tag) {
        return row_by_halves(rows, tag);
    }
    rows.len() - 1
}

/// The place of the first row that is not before the tag: this one, where it is the tag's, or else sought.
fn place_near(rows: &[NameRow], tag: Tag, near: usize) -> usize
    requires { AreInOrder rows.now }
    ensures { result ≡ row_place tag rows.now }
{
    if near < rows.len() {
        if rows[near].tag.is_same(tag) {
            return near;
        }
    }
    place_of(rows, tag)
}

/// What is known of the name of this tag, `None` where it has no row; and the place of the first row that is not before
/// it. It is looked for in front of the place `behind` first.
fn known_at(rows: &[NameRow], tag: Tag, behind: usize) -> (Option<Known>, usize)
    requires { AreInOrder rows.now }
    ensures { result.0 ≡ row_of tag rows.now }
{
    let near = if behind > 0 { behind - 1 } else { 0 };
    let place = place_near(rows, tag, near);
    let Some(row) = rows.get(place) else {
        return (None, place);
    };
    if tag.is_before(row.tag) {
        (None, place)
    } else {
        (Some(row.known), place)
    }
}

/// Whether the row at this place of this block is the tag's.
fn is_row_of(blocks: &[Vec<NameRow>], tag: Tag, at: usize, place: usize) -> bool
    requires { AreInOrder (flat vec_items blocks.now) }
    ensures { result ≡ true → IsBlockOf vec_items (λ r. r.tag) tag blocks.now at }
{
    if blocks.len() <= at {
        return false;
    }
    let rows = &blocks[at];
    if rows.len() <= place {
        return false;
    }
    rows[place].tag.is_same(tag)
}

/// The block of a tag: this one, where its row stands at this place, or else sought.
fn block_with(blocks: &[Vec<NameRow>], tag: Tag, near: usize, place: usize) -> usize
    requires some { 0 < length blocks.now }
    requires kept { AreBlocks vec_items blocks.now }
    requires in_order { AreInOrder (flat vec_items blocks.now) }
    ensures { IsBlockOf vec_items (λ r. r.tag) tag blocks.now result }
{
    if is_row_of(blocks, tag, near, place) {
        return near;
    }
    block_near(blocks, tag, near)
}

/// Has this known of the name of this tag, which has a row; it is looked for at this place first.
fn set_at(rows: &mut [NameRow], tag: Tag, known: Known, near: usize)
    requires in_order { AreInOrder rows.old }
    requires there { IsTrue (is_some (row_of tag rows.old)) }
    ensures tags { map (λ r. r.tag) rows.new ≡ map (λ r. r.tag) rows.old }
    ensures row { IsWith tag known rows.old rows.new }
{
    let place = place_near(rows, tag, near);
    rows[place].known = known;
}

/// What is known of an origin's names, seen as the rows of their tags in order. Their contracts say what a look-up
/// finds.
#[derive(Drop)]
pub(crate) struct Rows {
    blocks: Vec<Vec<NameRow>>,
    /// In which block, and where there, the row stands that was sought last. It only shortens the search.
    near: usize,
    place: usize,
}

impl Model for Rows {
    ghost use Rattle.std.specs.Prelude.{List};
    ghost use Rattle.std.specs.Vec.{vec_items};
    ghost use Rattle.warp_table.specs.declared.rows.NameRow.{NameRow};
    ghost use Rattle.warp_table.specs.inner.Blocks.{AreBlocks, flat};
    ghost use Rattle.warp_table.specs.inner.NamesByOrigin.{AreInOrder};

    ghost Value = { List NameRow };

    ghost view = { λ r. flat vec_items r.blocks.items };

    ghost invariant = { λ r. AreBlocks vec_items r.blocks.items × AreInOrder (flat vec_items r.blocks.items) };
}

impl Rows {
    ghost use Rattle.std.specs.Prelude.{◌≡◌, [], None, IsTrue, IfNone, IfSome, is_some, Contains, OnOk, OnErr, false};
    ghost use Rattle.warp_tag.specs.Moment.{Moment, is_before};
    ghost use Rattle.warp_table.specs.inner.Heard.{with_tag};
    ghost use Rattle.warp_table.specs.inner.NamesByOrigin.{IsWith, row_of};
    ghost use Rattle.warp_table.specs.inner.Tally.{tags_of, with_noted};

    /// None yet. They grow in `alloc`.
    pub(crate) fn new(alloc: Global) -> Rows
        ensures { result ≡ [] }
    {
        Rows {
            blocks: Vec::new(alloc),
            near: 0,
            place: 0,
        }
    }

    /// What is known of the name of this tag; `None` where it has no row.
    pub(crate) fn known(&self, tag: Tag) -> Option<Known>
        ensures { result ≡ row_of tag self.now }
    {
        if self.blocks.is_empty() {
            return None;
        }
        let at = block_near(&self.blocks, tag, self.near);
        let (known, _place) = known_at(&self.blocks[at], tag, self.place);
        known
    }

    /// The greatest tag of a row; `None` where there is no row.
    pub(crate) fn last(&self) -> Option<Tag>
        ensures there { IfSome result (λ tag. IsTrue (is_some (row_of tag self.now))) }
        ensures greatest { IfSome result
            (λ tag. (other : Moment) → IsTrue (is_before tag other) → row_of other self.now ≡ None) }
        ensures none { IfNone result (self.now ≡ []) }
    {
        let block = self.blocks.last()?;
        let row = block.last()?;
        Some(row.tag)
    }

    /// What is known of the name of this tag, which may change next; `None` where it has no row.
    #[inline(never)]
    pub(crate) fn seek(&mut self, tag: Tag) -> Option<Known>
        ensures known { result ≡ row_of tag self.old }
        ensures same { self.new ≡ self.old }
    {
        if self.blocks.is_empty() {
            return None;
        }
        let at = block_near(&self.blocks, tag, self.near);
        let (known, place) = known_at(&self.blocks[at], tag, self.place);
        self.near = at;
        self.place = place;
        known
    }

    /// Has this known of the name of this tag, which has a row.
    pub(crate) fn set(&mut self, tag: Tag, known: Known)
        requires { IsTrue (is_some (row_of tag self.old)) }
        ensures { IsWith tag known self.old self.new }
    {
        let place = self.place;
        let at = block_with(&self.blocks, tag, self.near, place);
        set_at(&mut self.blocks[at], tag, known, place);
    }

    /// Puts in the row of a name of which this is known, where its tag is beyond all and there is room at once, and
    /// tells its origin that it has an event: whether it did.
    #[inline(always)]
    pub(crate) fn insert_last(&mut self, tag: Tag, known: Known, announcer: &mut Announcer) -> bool
        requires fresh { row_of tag self.old ≡ None → ¬ Contains announcer.old.events tag }
        ensures new { IsTrue result → row_of tag self.old ≡ None }
        ensures with { IsTrue result → IsWith tag known self.old self.new }
        ensures heard { IsTrue result →
            announcer.new ≡ record announcer.old { events = with_tag tag announcer.old.events } }
        ensures other { result ≡ false → (self.new ≡ self.old) × (announcer.new ≡ announcer.old) }
    {
        if !has_room_beyond_all(&self.blocks, tag) {
            return false;
        }
        if !announcer.note_event_last(tag) {
            return false;
        }
        put_last(&mut self.blocks, NameRow { tag, known });
        true
    }

    /// Puts in the row of a new name of which this is known, and tells its origin that it has an event or a withdrawal.
    /// An `Err` changes nothing.
    #[inline(always)]
    pub(crate) fn insert(
        &mut self,
        tag: Tag,
        known: Known,
        kind: EventOrWithdrawal,
        announcer: &mut Announcer,
    ) -> Result<(), OutOfMemory>
        requires new { row_of tag self.old ≡ None }
        requires fresh { ¬ Contains (tags_of kind announcer.old) tag }
        ensures ok { OnOk result (IsWith tag known self.old self.new) }
        ensures heard { OnOk result (announcer.new ≡ with_noted kind tag announcer.old) }
        ensures err { OnErr result ((self.new ≡ self.old) × (announcer.new ≡ announcer.old)) }
    {
        let place = self.place;
        let at = make_room_anywhere(&mut self.blocks, tag, self.near)?;
        announcer.note(kind, tag)?;
        put(&mut self.blocks, at, NameRow { tag, known }, place);
        Ok(())
    }
}
