//! The values of checkpoints: of few variables whole copies, of more the newest and what each wrote over.
ghost use Rattle.std.specs.Prelude.{◌≡◌, ◌*◌, ◌<◌, ◌≤◌, ◌-◌, ◌++◌, [], IfOk, OnOk, length, take, drop};
ghost use Rattle.warp_run.specs.Stack.{IsRoomLike, is_wide, no_values};

use crate::changes::Changes;
use crate::copies::Copies;
use std::alloc::Global;
use std::marker::Model;
use warp_tag::OutOfMemory;

/// Of so many variables at most all values are copied: of so few, that costs less than to compare them.
const MOST_COPIED: usize = 32;

/// The values of checkpoints, as many of each. Contracts see those of all in one list, the oldest first.
#[derive(Drop)]
pub(crate) struct Stack {
    width: usize,
    /// Of a program with few variables,
    copies: Copies,
    /// and of one with more.
    changes: Changes,
}

impl Model for Stack {
    ghost use Rattle.std.specs.Prelude.{◌≡◌, ◌-◌, if◌then◌else◌, length, IsTrue};
    ghost use Rattle.warp_run.specs.Stack.{Stacked, is_wide};

    ghost Value = { Stacked };

    ghost view = { λ h. record {
      width = h.width;
      values = if is_wide h.width then h.changes.values else h.copies.values;
      room = record { values = h.copies.room; cells = h.changes.cells; steps = h.changes.steps };
      free = if is_wide h.width then h.changes.free else h.copies.room - length h.copies.values;
    } };

    ghost invariant = { λ h. IsTrue (is_wide h.width) → h.changes.width ≡ h.width };
}

impl Stack {
    /// No checkpoint of a program with so many variables.
    pub fn new(alloc: Global, width: usize) -> Result<Stack, OutOfMemory>
        ensures { IfOk result (λ h. h ≡ no_values width) }
    {
        let image = if width > MOST_COPIED { width } else { 0 };
        let changes = Changes::new(alloc, image)?;
        Ok(Stack {
            width,
            copies: Copies::new(alloc),
            changes,
        })
    }

    /// Of how many variables each has values.
    #[inline(always)]
    pub fn width(&self) -> usize
        ensures { result ≡ self.now.width }
    {
        self.width
    }

    /// Whether there are many variables.
    #[inline(always)]
    fn is_wide(&self) -> bool
        ensures { result ≡ is_wide self.now.width }
    {
        self.width > MOST_COPIED
    }

    /// For how many values of one checkpoint more there is room.
    #[inline(always)]
    pub fn free(&self) -> usize
        ensures { result ≡ self.now.free }
    {
        if self.is_wide() {
            self.changes.free()
        } else {
            self.copies.free()
        }
    }

    /// Adds a checkpoint with these values. The room stays as it is.
    #[inline(always)]
    pub fn push(&mut self, values: &[i64])
        requires len { length values.now ≡ self.old.width }
        requires room { self.old.width ≤ self.old.free }
        ensures { self.new ≡ record self.old { values = self.old.values ++ values.now; free = self.new.free } }
    {
        if self.is_wide() {
            self.changes.push(values);
        } else {
            self.copies.push(values);
        }
    }

    /// The values of the newest checkpoint.
    #[inline(always)]
    pub fn last(&self) -> &[i64]
        requires { self.now.width ≤ length self.now.values }
        ensures { result.now ≡ drop (length self.now.values - self.now.width) self.now.values }
    {
        if self.is_wide() {
            self.changes.last()
        } else {
            self.copies.last(self.width)
        }
    }

    /// Drops the newest checkpoint. The room stays as it is.
    #[inline(always)]
    pub fn pop(&mut self)
        requires { self.old.width ≤ length self.old.values }
        ensures { self.new ≡ record self.old {
          values = take (length self.old.values - self.old.width) self.old.values;
          free = self.new.free;
        } }
    {
        if self.is_wide() {
            self.changes.pop();
        } else {
            self.copies.pop(self.width);
        }
    }

    /// Drops all checkpoints. The room stays as it is.
    #[inline(always)]
    pub fn clear(&mut self)
        ensures { self.new ≡ record self.old { values = []; free = self.new.free } }
    {
        self.copies.clear();
        if self.is_wide() {
            self.changes.clear();
        }
    }

    /// Drops so many of the oldest checkpoints. The room stays as it is.
    pub fn drop_front(&mut self, count: usize)
        requires { count * self.old.width ≤ length self.old.values }
        ensures { self.new ≡ record self.old {
          values = drop (count * self.old.width) self.old.values;
          free = self.new.free;
        } }
    {
        if self.is_wide() {
            self.changes.drop_front(count);
        } else {
            self.copies.drop_front(count, self.width);
        }
    }

    /// Makes room for one checkpoint more, with as many values as these.
    pub fn reserve(&mut self, values: &[i64]) -> Result<(), OutOfMemory>
        ensures same { self.new ≡ record self.old { room = self.new.room; free = self.new.free } }
        ensures room { OnOk result (length values.now ≤ self.new.free) }
    {
        if self.is_wide() {
            self.changes.reserve(values)
        } else {
            self.copies.reserve(values)
        }
    }

    /// Makes room for as much as others have room for.
    pub fn reserve_for(&mut self, other: &Stack) -> Result<(), OutOfMemory>
        ensures same { self.new ≡ record self.old { room = self.new.room; free = self.new.free } }
        ensures room { OnOk result (IsRoomLike other.now.room self.new.room) }
    {
        self.copies.reserve_for(&other.copies)?;
        self.changes.reserve_for(&other.changes)
    }
}
