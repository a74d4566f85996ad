//! Lists in order of tags, kept in blocks, so that an item that comes late moves those of one block alone.
//!
//! No block is empty but the first, which is where nothing came. What comes in order of tags goes to the end of the
//! last block. On how many items a block has hangs what an insertion costs, and nothing else.
ghost use Rattle.std.specs.Prelude.{◌≡◌, ◌-◌, ◌<◌, ◌≤◌, All, IfOk, IsTrue, OnErr, OnOk, drop, false, length, take};
ghost use Rattle.std.specs.Prelude.{true};
ghost use Rattle.std.specs.List.{position_or_len};
ghost use Rattle.std.specs.Vec.{vec_capacity, vec_items, vec_len};
ghost use Rattle.warp_tag.specs.Moment.{Moment, is_before};
ghost use Rattle.warp_table.specs.inner.Blocks.{AreBlocks, AreOrdered, HasRoom, IsBlockOf};
ghost use Rattle.warp_table.specs.inner.Blocks.{IsLonger, begins_beyond, flat, with_item};

use std::alloc::AllocError;
use warp_tag::Tag;

/// So many items a block has at most: what comes late moves so many at most, and parts one in so many times.
const MOST: usize = 128;

/// What stands in order of tags.
pub(crate) trait Tagged {
    ghost tag_of: { Self → Moment };

    /// Its tag.
    fn tag(&self) -> Tag
        ensures { result ≡ tag_of self.now };

    /// Whether it is beyond the other tag.
    fn is_beyond(&self, other: Tag) -> bool
        ensures { result ≡ is_before other (tag_of self.now) }
    {
        other.is_before(self.tag())
    }
}

/// Whether the first of the items is beyond the tag.
fn begins_beyond<T: Tagged>(block: &[T], tag: Tag) -> bool
    ensures { result ≡ begins_beyond T.tag_of tag block.now }
{
    match block.first() {
        Some(first) => first.is_beyond(tag),
        None => false,
    }
}

/// The block of a tag, sought by halves: the last one that does not begin beyond it.
#[inline(never)]
fn block_by_halves<T: Tagged>(blocks: &[Vec<T>], tag: Tag) -> usize
    requires some { 0 < length blocks.now }
    requires kept { AreBlocks vec_items blocks.now }
    requires in_order { AreOrdered T.tag_of (flat vec_items blocks.now) }
    ensures { IsBlockOf vec_items T.tag_of tag blocks.now result }
{
    let mut low = 0;
    let mut high = blocks.len();
    while high - low > 1 {
        let middle = low + (high - low) / 2;
        if begins_beyond(&blocks[middle], tag) {
            high = middle;
        } else {
            low = middle;
        }
    }
    low
}

/// The block of a tag: the last one, where what comes in order lands, or else sought.
pub(crate) fn block_of<T: Tagged>(blocks: &[Vec<T>], tag: Tag) -> usize
    requires some { 0 < length blocks.now }
    requires kept { AreBlocks vec_items blocks.now }
    requires in_order { AreOrdered T.tag_of (flat vec_items blocks.now) }
    ensures { IsBlockOf vec_items T.tag_of tag blocks.now result }
{
    let last = blocks.len() - 1;
    if !begins_beyond(&blocks[last], tag) {
        return last;
    }
    block_by_halves(blocks, tag)
}

/// Whether this is the block of a tag.
fn is_block_of<T: Tagged>(blocks: &[Vec<T>], tag: Tag, at: usize) -> bool
    requires kept { AreBlocks vec_items blocks.now }
    requires in_order { AreOrdered T.tag_of (flat vec_items blocks.now) }
    ensures { result ≡ true → IsBlockOf vec_items T.tag_of tag blocks.now at }
{
    if blocks.len() <= at {
        return false;
    }
    if begins_beyond(&blocks[at], tag) {
        return false;
    }
    let next = at + 1;
    if next == blocks.len() {
        return true;
    }
    begins_beyond(&blocks[next], tag)
}

/// The block of a tag: this one, where it is, or else sought.
pub(crate) fn block_near<T: Tagged>(blocks: &[Vec<T>], tag: Tag, near: usize) -> usize
    requires some { 0 < length blocks.now }
    requires kept { AreBlocks vec_items blocks.now }
    requires in_order { AreOrdered T.tag_of (flat vec_items blocks.now) }
    ensures { IsBlockOf vec_items T.tag_of tag blocks.now result }
{
    if is_block_of(blocks, tag, near) {
        return near;
    }
    block_of(blocks, tag)
}

/// Whether none of these, which stand in order, is beyond the tag.
pub(crate) fn is_behind_all<T: Tagged>(items: &[T], tag: Tag) -> bool
    requires { AreOrdered T.tag_of items.now }
    ensures { result ≡ true → All (λ x. is_before tag (T.tag_of x) ≡ false) items.now }
{
    match items.last() {
        Some(last) => !last.is_beyond(tag),
        None => true,
    }
}

/// The place of the first one beyond the tag, sought by halves.
pub(crate) fn place_by_halves<T: Tagged>(items: &[T], tag: Tag) -> usize
    requires { AreOrdered T.tag_of items.now }
    ensures place { result ≡ position_or_len (λ x. is_before tag (T.tag_of x)) items.now }
    ensures within { result ≤ length items.now }
{
    items.partition_point(|item| !item.is_beyond(tag))
}

/// Whether this is the place of the first one beyond the tag, and not the end.
fn is_place<T: Tagged>(items: &[T], tag: Tag, at: usize) -> bool
    requires { AreOrdered T.tag_of items.now }
    ensures place { result ≡ true → at ≡ position_or_len (λ x. is_before tag (T.tag_of x)) items.now }
    ensures within { result ≡ true → at ≤ length items.now }
{
    if items.len() <= at {
        return false;
    }
    if !items[at].is_beyond(tag) {
        return false;
    }
    if at == 0 {
        return true;
    }
    !items[at - 1].is_beyond(tag)
}

/// The place of the first one beyond the tag: this one, where it is, or else sought by halves.
fn place_near<T: Tagged>(items: &[T], tag: Tag, near: usize) -> usize
    requires { AreOrdered T.tag_of items.now }
    ensures place { result ≡ position_or_len (λ x. is_before tag (T.tag_of x)) items.now }
    ensures within { result ≤ length items.now }
{
    if is_place(items, tag, near) {
        return near;
    }
    place_by_halves(items, tag)
}

/// Puts an item among others of a block, which has room for it: at this place, where it belongs there, or else sought.
#[inline(never)]
fn put_among<T: Tagged + Copy>(block: &mut Vec<T>, item: T, near: usize)
    requires in_order { AreOrdered T.tag_of block.old.items }
    requires room { vec_len block.old < vec_capacity block.old }
    ensures { block.new.items ≡ with_item T.tag_of item block.old.items }
{
    let at = place_near(block, item.tag(), near);
    let _ = block.insert(at, item);
}

/// Puts an item at its place in a block, which has room for it; it is looked for at this place first.
fn put_in<T: Tagged + Copy>(block: &mut Vec<T>, item: T, near: usize)
    requires in_order { AreOrdered T.tag_of block.old.items }
    requires room { vec_len block.old < vec_capacity block.old }
    ensures { block.new.items ≡ with_item T.tag_of item block.old.items }
{
    if is_behind_all(block, item.tag()) {
        block.push_reserved(item);
        return;
    }
    put_among(block, item, near);
}

/// Puts an item at its place in its block, which has room for it; it is looked for at this place first.
pub(crate) fn put<T: Tagged + Copy>(blocks: &mut Vec<Vec<T>>, at: usize, item: T, near: usize)
    requires kept { AreBlocks vec_items blocks.old.items }
    requires in_order { AreOrdered T.tag_of (flat vec_items blocks.old.items) }
    requires block { IsBlockOf vec_items T.tag_of (T.tag_of item) blocks.old.items at }
    requires room { HasRoom vec_len vec_capacity blocks.old.items at }
    ensures items { flat vec_items blocks.new.items ≡ with_item T.tag_of item (flat vec_items blocks.old.items) }
    ensures kept { AreBlocks vec_items blocks.new.items }
{
    put_in(&mut blocks[at], item, near);
}

/// Whether the tag is beyond all items, as the last one tells, and the last block has room for one more.
pub(crate) fn has_room_beyond_all<T: Tagged>(blocks: &Vec<Vec<T>>, tag: Tag) -> bool
    requires { AreOrdered T.tag_of (flat vec_items blocks.now.items) }
    ensures some { result ≡ true → 0 < length blocks.now.items }
    ensures beyond { result ≡ true → All (λ x. IsTrue (is_before (T.tag_of x) tag)) (flat vec_items blocks.now.items) }
    ensures room { result ≡ true →
        HasRoom vec_len vec_capacity blocks.now.items (length blocks.now.items - 1) }
{
    let Some(block) = blocks.last() else {
        return false;
    };
    if block.capacity() == block.len() {
        return false;
    }
    match block.last() {
        Some(last) => last.tag().is_before(tag),
        None => false,
    }
}

/// Puts an item that is beyond all behind them, in the last block, which has room for it.
pub(crate) fn put_last<T: Tagged + Copy>(blocks: &mut Vec<Vec<T>>, item: T)
    requires some { 0 < length blocks.old.items }
    requires kept { AreBlocks vec_items blocks.old.items }
    requires in_order { AreOrdered T.tag_of (flat vec_items blocks.old.items) }
    requires beyond { All (λ x. IsTrue (is_before (T.tag_of x) (T.tag_of item))) (flat vec_items blocks.old.items) }
    requires room { HasRoom vec_len vec_capacity blocks.old.items (length blocks.old.items - 1) }
    ensures items { flat vec_items blocks.new.items ≡ with_item T.tag_of item (flat vec_items blocks.old.items) }
    ensures kept { AreBlocks vec_items blocks.new.items }
{
    let last = blocks.len() - 1;
    blocks[last].push_reserved(item);
}

/// Where a full block is parted for a tag: before its last item, where the tag comes behind all, so that what comes in
/// order leaves full blocks, and else in the middle.
fn cut_of<T: Tagged>(blocks: &[Vec<T>], at: usize, tag: Tag) -> usize
    requires within { at < length blocks.now }
    requires in_order { AreOrdered T.tag_of (flat vec_items blocks.now) }
    ensures some { 0 < result }
    ensures less { result < 128 }
{
    if at + 1 == blocks.len() && is_behind_all(&blocks[at], tag) {
        MOST - 1
    } else {
        MOST / 2
    }
}

/// Cuts the items from this place on off, and gives them with room for a whole block. An `Err` changes nothing.
fn cut_off<T: Copy + Drop>(block: &mut Vec<T>, cut: usize) -> Result<Vec<T>, AllocError>
    requires { cut ≤ vec_len block.old }
    ensures ok { IfOk result (λ more.
        (block.new.items ≡ take cut block.old.items) × (more.items ≡ drop cut block.old.items)) }
    ensures err { OnErr result (block.new.items ≡ block.old.items) }
{
    let alloc = *block.allocator();
    let mut more = Vec::with_capacity(alloc, MOST)?;
    more.extend_from_slice(&block[cut..])?;
    block.truncate(cut);
    Ok(more)
}

/// Parts a block in two. The items stay, also on an `Err`.
#[inline(never)]
fn part<T: Copy + Drop>(blocks: &mut Vec<Vec<T>>, at: usize, cut: usize) -> Result<(), AllocError>
    requires kept { AreBlocks vec_items blocks.old.items }
    requires within { at < length blocks.old.items }
    requires cut { 0 < cut }
    requires long { IsLonger vec_len blocks.old.items at cut }
    ensures items { flat vec_items blocks.new.items ≡ flat vec_items blocks.old.items }
    ensures kept { AreBlocks vec_items blocks.new.items }
    ensures some { 0 < length blocks.new.items }
{
    blocks.reserve(1)?;
    let more = cut_off(&mut blocks[at], cut)?;
    let _ = blocks.insert(at + 1, more);
    Ok(())
}

/// Makes the first block, or parts that of a tag where it is full. The items stay, also on an `Err`.
fn prepare<T: Tagged + Copy + Drop>(blocks: &mut Vec<Vec<T>>, tag: Tag) -> Result<(), AllocError>
    requires kept { AreBlocks vec_items blocks.old.items }
    requires in_order { AreOrdered T.tag_of (flat vec_items blocks.old.items) }
    ensures items { flat vec_items blocks.new.items ≡ flat vec_items blocks.old.items }
    ensures kept { AreBlocks vec_items blocks.new.items }
    ensures some { OnOk result (0 < length blocks.new.items) }
{
    if blocks.is_empty() {
        let alloc = *blocks.allocator();
        blocks.push(Vec::new(alloc))?;
        return Ok(());
    }
    let at = block_of(blocks, tag);
    if blocks[at].len() < MOST {
        return Ok(());
    }
    let cut = cut_of(blocks, at, tag);
    part(blocks, at, cut)
}

/// The block of a tag, which has fewer items than a block has at most: the first one is made, and a full one parted.
/// The items stay, also on an `Err`.
fn block_for<T: Tagged + Copy + Drop>(
    blocks: &mut Vec<Vec<T>>,
    tag: Tag,
    near: usize,
) -> Result<usize, AllocError>
    requires kept { AreBlocks vec_items blocks.old.items }
    requires in_order { AreOrdered T.tag_of (flat vec_items blocks.old.items) }
    ensures items { flat vec_items blocks.new.items ≡ flat vec_items blocks.old.items }
    ensures kept { AreBlocks vec_items blocks.new.items }
    ensures block { IfOk result (λ at. IsBlockOf vec_items T.tag_of tag blocks.new.items at) }
{
    if !blocks.is_empty() {
        let at = block_near(blocks, tag, near);
        if blocks[at].len() < MOST {
            return Ok(at);
        }
    }
    prepare(blocks, tag)?;
    Ok(block_of(blocks, tag))
}

/// Makes room for one more item of a tag, wherever it goes, and gives its block, which is this one, where it is, or
/// else sought. The items stay, also on an `Err`.
#[inline(never)]
pub(crate) fn make_room_anywhere<T: Tagged + Copy + Drop>(
    blocks: &mut Vec<Vec<T>>,
    tag: Tag,
    near: usize,
) -> Result<usize, AllocError>
    requires kept { AreBlocks vec_items blocks.old.items }
    requires in_order { AreOrdered T.tag_of (flat vec_items blocks.old.items) }
    ensures items { flat vec_items blocks.new.items ≡ flat vec_items blocks.old.items }
    ensures kept { AreBlocks vec_items blocks.new.items }
    ensures block { IfOk result (λ at. IsBlockOf vec_items T.tag_of tag blocks.new.items at) }
    ensures room { IfOk result (λ at. HasRoom vec_len vec_capacity blocks.new.items at) }
{
    let at = block_for(blocks, tag, near)?;
    blocks[at].reserve(1)?;
    Ok(at)
}

/// Whether an item of this tag goes behind all of a block's, and there is room for it.
fn has_room_behind<T: Tagged>(block: &Vec<T>, tag: Tag) -> bool
    requires { AreOrdered T.tag_of block.now.items }
    ensures behind { result ≡ true → All (λ x. is_before tag (T.tag_of x) ≡ false) block.now.items }
    ensures room { result ≡ true → vec_len block.now < vec_capacity block.now }
{
    if block.len() == block.capacity() {
        return false;
    }
    is_behind_all(block, tag)
}

/// Makes room for one more item of a tag, and gives its block: behind all where it comes in order, and there is room at
/// once, or else near this block. The items stay, also on an `Err`.
#[inline(always)]
pub(crate) fn make_room<T: Tagged + Copy + Drop>(
    blocks: &mut Vec<Vec<T>>,
    tag: Tag,
    near: usize,
) -> Result<usize, AllocError>
    requires kept { AreBlocks vec_items blocks.old.items }
    requires in_order { AreOrdered T.tag_of (flat vec_items blocks.old.items) }
    ensures items { flat vec_items blocks.new.items ≡ flat vec_items blocks.old.items }
    ensures kept { AreBlocks vec_items blocks.new.items }
    ensures block { IfOk result (λ at. IsBlockOf vec_items T.tag_of tag blocks.new.items at) }
    ensures room { IfOk result (λ at. HasRoom vec_len vec_capacity blocks.new.items at) }
{
    let count = blocks.len();
    if count > 0 && has_room_behind(&blocks[count - 1], tag) {
        return Ok(count - 1);
    }
    make_room_anywhere(blocks, tag, near)
}
