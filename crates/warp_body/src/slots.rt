//! The places of one kind of target.
ghost use Rattle.std.specs.Prelude.{◌≡◌, ◌<◌, length, replicate, slice_index_or, slice_set, IsTrue, None, Some, IfOk};
ghost use Rattle.warp_body.specs.inner.Slots.{empty, slot, slots, are_past};

use std::alloc::Global;
use warp_tag::OutOfMemory;

/// A place: the value that was last put there, and the moment at which.
///
/// Moments are counted from 1, and a place is present exactly if its value was put there at the present moment: so to
/// clear all places is to go on to the next moment.
#[derive(Clone, Copy, Debug)]
pub(crate) struct Slot {
    stamp: u64,
    value: i64,
}

/// A place where nothing was put: no moment has the number 0.
const EMPTY: Slot = Slot { stamp: 0, value: 0 };

impl Slot {
    /// A place where nothing was put.
    pub(crate) fn empty() -> Slot
        ensures { result ≡ empty }
    {
        EMPTY
    }

    /// A place with a value that was put there at a moment.
    #[inline(always)]
    pub(crate) fn at(moment: u64, value: i64) -> Slot
        ensures { result ≡ record { stamp = moment; value = value } }
    {
        Slot {
            stamp: moment,
            value,
        }
    }

    /// What it is present with at a moment.
    #[inline(always)]
    pub(crate) fn get(self, moment: u64) -> Option<i64>
        ensures { result ≡ slot moment self }
    {
        if self.stamp == moment {
            Some(self.value)
        } else {
            None
        }
    }
}

/// Places by number, each absent or present with a value at the moment that each call is told.
#[derive(Debug, Drop)]
pub(crate) struct Slots {
    places: Vec<Slot>,
}

impl Slots {
    /// So many places, in which nothing was put.
    pub(crate) fn new(alloc: Global, count: usize) -> Result<Slots, OutOfMemory>
        ensures { IfOk result (λ s. s.places.items ≡ replicate count empty) }
    {
        let places = vec![in alloc; EMPTY; count]?;
        Ok(Slots { places })
    }

    /// How many there are.
    pub(crate) fn len(&self) -> usize
        ensures { result ≡ length self.now.places.items }
    {
        self.places.len()
    }

    /// What the place with this number is present with at a moment.
    #[inline(always)]
    pub(crate) fn get(&self, number: u32, moment: u64) -> Option<i64>
        requires { number < length self.now.places.items }
        ensures { result ≡ slice_index_or (slots moment self.now.places.items) number None }
    {
        self.places[number as usize].get(moment)
    }

    /// Makes the place with this number present with a value at a moment; no place has a value of a later one.
    #[inline(always)]
    pub(crate) fn put(&mut self, number: u32, value: i64, moment: u64)
        requires number { number < length self.old.places.items }
        requires past { IsTrue (are_past moment self.old.places.items) }
        ensures value { slots moment self.new.places.items
            ≡ slice_set (slots moment self.old.places.items) number (Some value) }
        ensures past { IsTrue (are_past moment self.new.places.items) }
    {
        self.places[number as usize] = Slot::at(moment, value);
    }

    /// Empties all.
    pub(crate) fn restart(&mut self)
        ensures { self.new.places.items ≡ replicate (length self.old.places.items) empty }
    {
        self.places.fill(EMPTY);
    }
}
