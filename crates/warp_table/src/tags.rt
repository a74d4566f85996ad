//! The tags of an origin's names, in order, in blocks: so one that comes late moves those of one block alone.
ghost use Rattle.std.specs.Prelude.{◌≡◌, ◌+◌, ◌<◌, ◌≤◌, ◌^◌, [], AllPairs, IsTrue, OnOk, OnErr, false, length};
ghost use Rattle.std.specs.List.{position_or_len};
ghost use Rattle.std.specs.Vec.{vec_items};
ghost use Rattle.warp_tag.specs.Moment.{is_before};
ghost use Rattle.warp_table.specs.inner.Blocks.{AreOrdered, begins_before, flat};
ghost use Rattle.warp_table.specs.inner.Heard.{count_before as tags_before, with_tag};

pub(crate) use crate::blocks::Tagged;
use crate::blocks::{
    has_room_beyond_all, is_behind_all, make_room, place_by_halves, put, put_last,
};
use std::alloc::{AllocError, Global};
use std::marker::Model;
use warp_tag::Tag;

impl Tagged for Tag {
    ghost tag_of = { λ t. t };

    fn tag(&self) -> Tag {
        *self
    }
}

/// The place of the first one beyond the tag: at the end, where what comes in order of tag lands, and else sought by
/// halves.
pub(crate) fn place<T: Tagged>(items: &[T], tag: Tag) -> usize
    requires { AllPairs (λ a b. is_before (T.tag_of b) (T.tag_of a) ≡ false) items.now }
    ensures place { result ≡ position_or_len (λ a. is_before tag (T.tag_of a)) items.now }
    ensures within { result ≤ length items.now }
{
    if is_behind_all(items, tag) {
        return items.len();
    }
    place_by_halves(items, tag)
}

/// Whether the first of the tags is before this one.
fn begins_before(tags: &[Tag], tag: Tag) -> bool
    ensures { result ≡ begins_before tag tags.now }
{
    match tags.first() {
        Some(first) => first.is_before(tag),
        None => false,
    }
}

/// How many of the tags, which stand in order, are before this one: all, or sought by halves.
fn count_in_order(tags: &[Tag], tag: Tag) -> usize
    requires { AreOrdered (λ t. t) tags.now }
    ensures count { result ≡ tags_before tag tags.now }
    ensures within { result ≤ length tags.now }
{
    if let Some(last) = tags.last() {
        if last.is_before(tag) {
            return tags.len();
        }
    }
    tags.partition_point(|t| t.is_before(tag))
}

/// How many of the tags of these blocks are before this one. `len` are there in all: the blocks behind it are counted
/// off.
fn count_in_blocks(blocks: &[Vec<Tag>], len: usize, tag: Tag) -> usize
    requires in_order { AreOrdered (λ t. t) (flat vec_items blocks.now) }
    requires len { len ≡ length (flat vec_items blocks.now) }
    ensures { result ≡ tags_before tag (flat vec_items blocks.now) }
{
    let mut count = len;
    let mut at = blocks.len();
    while at > 0 {
        at -= 1;
        let block = &blocks[at];
        if begins_before(block, tag) {
            return count - (block.len() - count_in_order(block, tag));
        }
        count -= block.len();
    }
    0
}

/// Tags, seen as their one list in order.
#[derive(Drop)]
pub(crate) struct Tags {
    blocks: Vec<Vec<Tag>>,
    len: usize,
}

impl Model for Tags {
    ghost use Rattle.std.specs.Prelude.{◌≡◌, List, length};
    ghost use Rattle.std.specs.Vec.{vec_items};
    ghost use Rattle.warp_tag.specs.Moment.{Moment};
    ghost use Rattle.warp_table.specs.inner.Blocks.{AreBlocks, AreOrdered, flat};

    ghost Value = { List Moment };

    ghost view = { λ t. flat vec_items t.blocks.items };

    ghost invariant = { λ t.
        AreBlocks vec_items t.blocks.items × AreOrdered (λ u. u) (flat vec_items t.blocks.items)
        × (t.len ≡ length (flat vec_items t.blocks.items)) };
}

impl Tags {
    /// None yet. They grow in `alloc`.
    pub(crate) fn new(alloc: Global) -> Tags
        ensures { result ≡ [] }
    {
        Tags {
            blocks: Vec::new(alloc),
            len: 0,
        }
    }

    /// Puts a tag in its place. An `Err` changes nothing.
    #[inline(always)]
    pub(crate) fn insert(&mut self, tag: Tag) -> Result<(), AllocError>
        ensures ok { OnOk result (self.new ≡ with_tag tag self.old) }
        ensures err { OnErr result (self.new ≡ self.old) }
        ensures room { OnOk result (length self.old + 1 < 2 ^ 64) }
    {
        if self.len == usize::MAX {
            return Err(AllocError);
        }
        let at = make_room(&mut self.blocks, tag, 0)?;
        put(&mut self.blocks, at, tag, 0);
        self.len += 1;
        Ok(())
    }

    /// Puts in a tag that is beyond all, where there is room at once: whether it did.
    #[inline(always)]
    pub(crate) fn insert_last(&mut self, tag: Tag) -> bool
        ensures came { IsTrue result → self.new ≡ with_tag tag self.old }
        ensures other { result ≡ false → self.new ≡ self.old }
    {
        if self.len == usize::MAX {
            return false;
        }
        if !has_room_beyond_all(&self.blocks, tag) {
            return false;
        }
        put_last(&mut self.blocks, tag);
        self.len += 1;
        true
    }

    /// How many there are.
    pub(crate) fn len(&self) -> usize
        ensures { result ≡ length self.now }
    {
        self.len
    }

    /// How many of them are before this one.
    pub(crate) fn count_before(&self, tag: Tag) -> usize
        ensures { result ≡ tags_before tag self.now }
    {
        count_in_blocks(&self.blocks, self.len, tag)
    }
}
