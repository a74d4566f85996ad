//! Values of checkpoints that are kept whole, one after another, in a list that is filled up to its room.
ghost use Rattle.std.specs.Prelude.{◌≡◌, ◌+◌, ◌*◌, ◌≤◌, ◌-◌, ◌++◌, [], OnOk, length, take, drop};
ghost use Rattle.warp_run.specs.Stack.{no_copies};

use crate::lists::{BLOCK, grow, last_of, move_front, write};
use std::alloc::Global;
use std::marker::Model;
use warp_tag::OutOfMemory;

/// Values, and a count of how many of the list's items are in use. Contracts see those in use, and the room for them.
#[derive(Drop)]
pub(crate) struct Copies {
    list: Vec<i64>,
    used: usize,
}

impl Model for Copies {
    ghost use Rattle.std.specs.Prelude.{◌≤◌, length, take};
    ghost use Rattle.warp_run.specs.Stack.{Copied};

    ghost Value = { Copied };

    ghost view = { λ h. record { values = take h.used h.list.items; room = length h.list.items } };

    ghost invariant = { λ h. h.used ≤ length h.list.items };
}

impl Copies {
    /// No values, and no room.
    pub fn new(alloc: Global) -> Copies
        ensures { result ≡ no_copies }
    {
        Copies {
            list: Vec::new(alloc),
            used: 0,
        }
    }

    /// For how many values more there is room.
    #[inline(always)]
    pub fn free(&self) -> usize
        ensures { result ≡ self.now.room - length self.now.values }
    {
        self.list.len() - self.used
    }

    /// Puts values behind those there. The room stays as it is.
    #[inline(always)]
    pub fn push(&mut self, values: &[i64])
        requires { length values.now ≤ self.old.room - length self.old.values }
        ensures { self.new ≡ record self.old { values = self.old.values ++ values.now } }
    {
        write(&mut self.list, self.used, values);
        self.used += values.len();
    }

    /// The last so many values.
    #[inline(always)]
    pub fn last(&self, count: usize) -> &[i64]
        requires { count ≤ length self.now.values }
        ensures { result.now ≡ drop (length self.now.values - count) self.now.values }
    {
        last_of(&self.list, self.used, count)
    }

    /// Drops the last so many values. The room stays as it is.
    #[inline(always)]
    pub fn pop(&mut self, count: usize)
        requires { count ≤ length self.old.values }
        ensures { self.new ≡ record self.old { values = take (length self.old.values - count) self.old.values } }
    {
        self.used -= count;
    }

    /// Drops all values. The room stays as it is.
    #[inline(always)]
    pub fn clear(&mut self)
        ensures { self.new ≡ record self.old { values = [] } }
    {
        self.used = 0;
    }

    /// Drops so many times as many values in front. The room stays as it is.
    pub fn drop_front(&mut self, count: usize, width: usize)
        requires { count * width ≤ length self.old.values }
        ensures { self.new ≡ record self.old { values = drop (count * width) self.old.values } }
    {
        let used = self.used;
        let values = count * width;
        move_front(&mut self.list, values, used);
        self.used = used - values;
    }

    /// Makes room for as many values more as these.
    pub fn reserve(&mut self, values: &[i64]) -> Result<(), OutOfMemory>
        ensures same { self.new ≡ record self.old { room = self.new.room } }
        ensures room { OnOk result (length self.new.values + length values.now ≤ self.new.room) }
    {
        grow(&mut self.list, self.used + values.len(), &[0; BLOCK])
    }

    /// Makes room for as many values as others have room for.
    pub fn reserve_for(&mut self, other: &Copies) -> Result<(), OutOfMemory>
        ensures same { self.new ≡ record self.old { room = self.new.room } }
        ensures room { OnOk result (other.now.room ≤ self.new.room) }
    {
        grow(&mut self.list, other.list.len(), &[0; BLOCK])
    }
}
