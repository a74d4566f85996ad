//! Lists that stand filled up to their room, with a count of how much of them is in use, and lists that have room.
ghost use Rattle.std.specs.Prelude.{◌≡◌, ◌+◌, ◌<◌, ◌≤◌, ◌-◌, ◌++◌, length, take, drop, OnOk, vec_len, vec_capacity};

use warp_tag::OutOfMemory;

/// So many items are filled in at once.
pub(crate) const BLOCK: usize = 64;

/// Up to so many items are written one by one.
const FEW: usize = 4;

/// Writes items behind so many that are in use.
#[inline(always)]
pub(crate) fn write<T: Copy>(list: &mut Vec<T>, used: usize, items: &[T])
    requires { used + length items.now ≤ vec_len list.old }
    ensures items { take (used + length items.now) list.new.items ≡ take used list.old.items ++ items.now }
    ensures len { vec_len list.new ≡ vec_len list.old }
{
    copy(&mut list[used..used + items.len()], items);
}

/// Writes items over as many. Mostly they are few, and a call would cost more than they do.
#[inline(always)]
fn copy<T: Copy>(to: &mut [T], items: &[T])
    requires { length items.now ≡ length to.old }
    ensures { to.new ≡ items.now }
{
    if items.len() > FEW {
        return copy_many(to, items);
    }
    for (at, item) in items.iter().enumerate() {
        to[at] = *item;
    }
}

/// Writes items over as many, in one block.
#[inline(never)]
fn copy_many<T: Copy>(to: &mut [T], items: &[T])
    requires { length items.now ≡ length to.old }
    ensures { to.new ≡ items.now }
{
    to.copy_from_slice(items);
}

/// Of so many items that are in use the last ones.
#[inline(always)]
pub(crate) fn last_of<T>(list: &[T], used: usize, count: usize) -> &[T]
    requires used { used ≤ length list.now }
    requires count { count ≤ used }
    ensures { result.now ≡ drop (length (take used list.now) - count) (take used list.now) }
{
    &list[used - count..used]
}

/// Makes a list at least so long, and fills it up to its room with copies of a block. What is there stays.
pub(crate) fn grow<T: Copy>(list: &mut Vec<T>, len: usize, block: &[T]) -> Result<(), OutOfMemory>
    requires { 0 < length block.now }
    ensures items { take (vec_len list.old) list.new.items ≡ list.old.items }
    ensures len { OnOk result (len ≤ vec_len list.new) }
{
    if len <= list.len() {
        return Ok(());
    }
    list.try_reserve(len - list.len())?;
    let room = list.capacity();
    fill(list, room, block)
}

/// Fills a list up to so many items with copies of a block. What is there stays.
fn fill<T: Copy>(list: &mut Vec<T>, len: usize, block: &[T]) -> Result<(), OutOfMemory>
    requires some { 0 < length block.now }
    requires more { vec_len list.old ≤ len }
    ensures items { take (vec_len list.old) list.new.items ≡ list.old.items }
    ensures len { OnOk result (len ≤ vec_len list.new) }
{
    while len - list.len() > block.len() {
        list.extend_from_slice(block)?;
    }
    list.extend_from_slice(&block[..len - list.len()])?;
    Ok(())
}

/// Moves the items behind the first so many up to so many to the front. No other item is of use after it.
pub(crate) fn move_front<T: Copy>(list: &mut Vec<T>, from: usize, to: usize)
    requires order { from ≤ to }
    requires within { to ≤ vec_len list.old }
    ensures items { take (to - from) list.new.items ≡ drop from (take to list.old.items) }
    ensures len { vec_len list.new ≡ vec_len list.old }
    ensures capacity { vec_capacity list.new ≡ vec_capacity list.old }
{
    list.copy_within(from..to, 0);
}

/// Appends items to a list that has room for them.
#[inline(never)]
pub(crate) fn append<T: Copy>(list: &mut Vec<T>, items: &[T])
    requires { vec_len list.old + length items.now ≤ vec_capacity list.old }
    ensures items { list.new.items ≡ list.old.items ++ items.now }
    ensures capacity { vec_capacity list.new ≡ vec_capacity list.old }
{
    for item in items {
        list.push_reserved(*item);
    }
}
