//! Values of checkpoints of which the newest are kept whole, and else the values that were written over.
ghost use Rattle.std.specs.Prelude.{◌≡◌, ◌↔◌, ◌+◌, ◌*◌, ◌^◌, ◌<◌, ◌≤◌, ◌-◌, ◌++◌, [], IsTrue, List, IfOk, OnOk, length, take, drop};
ghost use Rattle.std.specs.Prelude.{slice_set, vec_len, vec_capacity};
ghost use Rattle.warp_run.specs.Stack.{cells_in, given_back, no_changes};
ghost use Rattle.warp_run.specs.declared.changes.Cell.{Cell};

use crate::lists::move_front;
use std::alloc::Global;
use std::marker::Model;
use warp_tag::OutOfMemory;

/// So many values are compared at once.
const PART: usize = 32;

/// A value that was written over, and where.
#[derive(Clone, Copy)]
struct Cell {
    /// The number of the variable.
    at: usize,
    value: i64,
}

/// Gives an image these values from one place up to another, and keeps what they replace.
fn replace_part(image: &mut [i64], values: &[i64], from: usize, to: usize, cells: &mut Vec<Cell>)
    requires len { length values.now ≡ length image.old }
    requires order { from ≤ to }
    requires within { to ≤ length values.now }
    requires front { take from image.old ≡ take from values.now }
    requires room { vec_len cells.old + (to - from) ≤ vec_capacity cells.old }
    ensures front { take to image.new ≡ take to values.now }
    ensures len { length image.new ≡ length image.old }
    ensures cells { (more : List Cell) × (cells.new.items ≡ cells.old.items ++ more) ×
        (given_back more image.new ≡ image.old) }
    ensures few { vec_len cells.new ≤ vec_len cells.old + (to - from) }
    ensures capacity { vec_capacity cells.new ≡ vec_capacity cells.old }
{
    'cells: for at in from..to {
        let old = image[at];
        if old != values[at] {
            cells.push_reserved(Cell { at, value: old });
            image[at] = values[at];
        }
    }
}

/// Whether two lists are equal.
#[inline(always)]
fn are_equal(a: &[i64], b: &[i64]) -> bool
    ensures { IsTrue result ↔ (a.now ≡ b.now) }
{
    a == b
}

/// Gives an image these values, and keeps what they replace.
fn replace(image: &mut [i64], values: &[i64], cells: &mut Vec<Cell>)
    requires len { length values.now ≡ length image.old }
    requires room { vec_len cells.old + length values.now ≤ vec_capacity cells.old }
    ensures image { image.new ≡ values.now }
    ensures cells { (more : List Cell) × (cells.new.items ≡ cells.old.items ++ more) ×
        (given_back more image.new ≡ image.old) }
    ensures capacity { vec_capacity cells.new ≡ vec_capacity cells.old }
{
    let mut at = 0;
    'parts: while at < values.len() {
        let to = values.len().min(at + PART);
        if !are_equal(&image[at..to], &values[at..to]) {
            replace_part(image, values, at, to, cells);
        }
        at = to;
    }
}

/// Writes a value back where it was.
fn put_back(image: &mut [i64], cell: Cell)
    ensures image { image.new ≡ slice_set image.old cell.at cell.value }
    ensures len { length image.new ≡ length image.old }
{
    if cell.at < image.len() {
        image[cell.at] = cell.value;
    }
}

/// Gives back the last so many values that were written over, the last first.
fn give_back(image: &mut [i64], cells: &mut Vec<Cell>, count: usize)
    requires { count ≤ vec_len cells.old }
    ensures image { image.new ≡ given_back (drop (vec_len cells.old - count) cells.old.items) image.old }
    ensures len { length image.new ≡ length image.old }
    ensures cells { cells.new.items ≡ take (vec_len cells.old - count) cells.old.items }
    ensures capacity { vec_capacity cells.new ≡ vec_capacity cells.old }
{
    let rest = cells.len() - count;
    'values: while cells.len() > rest {
        let Some(last) = cells.pop() else {
            return;
        };
        put_back(image, last);
    }
}

/// How many cells the first so many checkpoints wrote over.
fn cells_of(steps: &[usize], count: usize) -> usize
    requires within { count ≤ length steps.now }
    requires small { cells_in steps.now < 2 ^ 64 }
    ensures { result ≡ cells_in (take count steps.now) }
{
    let mut cells = 0;
    'steps: for at in 0..count {
        cells += steps[at];
    }
    cells
}

/// The values of checkpoints, the newest of which are whole. Contracts see those of all, the oldest first.
///
/// Each but the oldest wrote over some values of the one before it, and its step says how many.
#[derive(Drop)]
pub(crate) struct Changes {
    image: Vec<i64>,
    cells: Vec<Cell>,
    steps: Vec<usize>,
}

impl Model for Changes {
    ghost use Rattle.std.specs.Prelude.{◌≡◌, ◌-◌, length, vec_capacity};
    ghost use Rattle.warp_run.specs.Stack.{Changed, cells_in, free_for, values_of};

    ghost Value = { Changed };

    ghost view = { λ h. record {
      width = length h.image.items;
      values = values_of h.image.items h.cells.items h.steps.items;
      cells = vec_capacity h.cells;
      steps = vec_capacity h.steps;
      free = free_for (length h.steps.items) (vec_capacity h.steps) (vec_capacity h.cells - length h.cells.items);
    } };

    ghost invariant = { λ h. cells_in h.steps.items ≡ length h.cells.items };
}

impl Changes {
    /// No checkpoint of a program with so many variables. An image of them takes memory.
    pub fn new(alloc: Global, width: usize) -> Result<Changes, OutOfMemory>
        ensures { IfOk result (λ h. h ≡ no_changes width) }
    {
        let image = vec![in alloc; 0; width]?;
        Ok(Changes {
            image,
            cells: Vec::new(alloc),
            steps: Vec::new(alloc),
        })
    }

    /// For how many values of one checkpoint more there is room, whichever it changes.
    pub fn free(&self) -> usize
        ensures { result ≡ self.now.free }
    {
        if self.steps.len() == self.steps.capacity() {
            return 0;
        }
        self.cells.capacity() - self.cells.len()
    }

    /// Adds a checkpoint with these values. The room stays as it is.
    pub fn push(&mut self, values: &[i64])
        requires len { length values.now ≡ self.old.width }
        requires some { 0 < self.old.width }
        requires room { self.old.width ≤ self.old.free }
        ensures { self.new ≡ record self.old { values = self.old.values ++ values.now; free = self.new.free } }
    {
        if self.steps.is_empty() {
            self.image.copy_from_slice(values);
            self.steps.push_reserved(0);
            return;
        }
        let before = self.cells.len();
        replace(&mut self.image, values, &mut self.cells);
        self.steps.push_reserved(self.cells.len() - before);
    }

    /// The values of the newest checkpoint.
    pub fn last(&self) -> &[i64]
        requires some { 0 < self.now.width }
        requires within { self.now.width ≤ length self.now.values }
        ensures { result.now ≡ drop (length self.now.values - self.now.width) self.now.values }
    {
        &self.image
    }

    /// Drops the newest checkpoint. The room stays as it is.
    pub fn pop(&mut self)
        requires some { 0 < self.old.width }
        requires within { self.old.width ≤ length self.old.values }
        ensures { self.new ≡ record self.old {
          values = take (length self.old.values - self.old.width) self.old.values;
          free = self.new.free;
        } }
    {
        if let Some(count) = self.steps.pop() {
            give_back(&mut self.image, &mut self.cells, count);
        }
    }

    /// Drops all checkpoints. The room stays as it is.
    pub fn clear(&mut self)
        ensures { self.new ≡ record self.old { values = []; free = self.new.free } }
    {
        self.cells.clear();
        self.steps.clear();
    }

    /// Drops so many of the oldest checkpoints. The room stays as it is.
    pub fn drop_front(&mut self, count: usize)
        requires some { 0 < self.old.width }
        requires within { count * self.old.width ≤ length self.old.values }
        ensures { self.new ≡ record self.old {
          values = drop (count * self.old.width) self.old.values;
          free = self.new.free;
        } }
    {
        let gone = cells_of(&self.steps, count);
        let cells = self.cells.len();
        move_front(&mut self.cells, gone, cells);
        self.cells.truncate(cells - gone);
        let steps = self.steps.len();
        move_front(&mut self.steps, count, steps);
        self.steps.truncate(steps - count);
    }

    /// Makes room for one checkpoint more, with as many values as these.
    pub fn reserve(&mut self, values: &[i64]) -> Result<(), OutOfMemory>
        ensures same { self.new ≡ record self.old {
          cells = self.new.cells;
          steps = self.new.steps;
          free = self.new.free;
        } }
        ensures room { OnOk result (length values.now ≤ self.new.free) }
    {
        self.cells.try_reserve(values.len())?;
        self.steps.try_reserve(1)
    }

    /// Makes room for as much as others have room for, and for the values of one checkpoint more.
    pub fn reserve_for(&mut self, other: &Changes) -> Result<(), OutOfMemory>
        ensures same { self.new ≡ record self.old {
          cells = self.new.cells;
          steps = self.new.steps;
          free = self.new.free;
        } }
        ensures cells { OnOk result (other.now.cells ≤ self.new.cells) }
        ensures steps { OnOk result (other.now.steps ≤ self.new.steps) }
    {
        let cells = other.cells.capacity().saturating_add(self.image.len());
        self.cells
            .try_reserve(cells.saturating_sub(self.cells.len()))?;
        let steps = other.steps.capacity();
        self.steps
            .try_reserve(steps.saturating_sub(self.steps.len()))
    }
}
