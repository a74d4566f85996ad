//! Rows that are executed again: each that is executed though a later one was executed before, as a late record makes them.
ghost use Rattle.std.specs.Prelude.{◌≡◌};
ghost use Rattle.warp_replica.specs.Answered.{facts_of};
ghost use Rattle.warp_step.specs.Counter.{IsUnused};
ghost use Rattle.warp_machine.specs.Moving.{Moved};

use crate::machine::Machine;
use crate::moves;
use std::marker::Brand;
use std::sync::ledger::{Blank, Ledger};
use warp_line::Timeline;
use warp_step::{Counter, Given, Meter, State};
use warp_tag::Tag;

/// A meter that counts rows which are not after the last that was executed before. Contracts see how often it was ticked, and nothing
/// of that.
#[derive(Drop)]
struct RowsAgain<L: Ledger> {
    ticks: Counter<L>,
    /// The last tag that was executed.
    front: Option<Tag>,
    again: u64,
}

impl<L: Ledger> Meter for RowsAgain<L> {
    ghost ticks = { λ r. r.ticks };

    fn tick(&mut self) {
        self.ticks.grow();
    }

    #[inline(always)]
    fn look_before(&mut self, tag: Tag, _state: &State, _given: &[Given]) {
        if is_through(self.front, tag) {
            self.again = self.again.wrapping_add(1);
        } else {
            self.front = Some(tag);
        }
    }
}

impl<L: Ledger> RowsAgain<L> {
    /// A meter that was not ticked yet, where rows were executed up to this tag.
    fn new(front: Option<Tag>, blank: Blank) -> RowsAgain<L>
        requires { IsUnused blank L.name L.parts }
    {
        RowsAgain {
            ticks: Counter::new(blank),
            front,
            again: 0,
        }
    }
}

/// Whether this tag is not after the front.
fn is_through(front: Option<Tag>, tag: Tag) -> bool {
    match front {
        Some(front) => !front.is_before(tag),
        None => false,
    }
}

impl<T: Timeline> Machine<T> {
    /// Makes at most so many steps, and counts rows that are executed again. `false` where there was no memory.
    pub(crate) fn make_steps(&mut self, most: u64) -> bool
        ensures { Moved (facts_of T.settled T.refused T.floor T.SLACK) self.old.clients self.new.clients }
    {
        self.make_counted::<Brand>(most, Blank::new(1))
    }

    /// The same. Steps are counted in the ledger that `blank` opens, for contracts alone.
    fn make_counted<L: Ledger>(&mut self, most: u64, blank: Blank) -> bool
        requires { IsUnused blank L.name L.parts }
        ensures { Moved (facts_of T.settled T.refused T.floor T.SLACK) self.old.clients self.new.clients }
    {
        let mut rows = RowsAgain::<L>::new(self.counted.front, blank);
        let is_made = moves::execute_some(&mut self.clients, most, &mut rows);
        self.note_rows(rows.front, rows.again);
        is_made
    }

    /// Rows were executed up to this tag, so many of them again.
    pub(crate) fn note_rows(&mut self, front: Option<Tag>, again: u64)
        ensures { self.new.clients ≡ self.old.clients }
    {
        self.counted.rows_again = self.counted.rows_again.wrapping_add(again);
        if let Some(tag) = front {
            self.note_front(tag);
        }
    }

    /// Rows were executed up to this tag.
    fn note_front(&mut self, tag: Tag)
        ensures { self.new.clients ≡ self.old.clients }
    {
        if !is_through(self.counted.front, tag) {
            self.counted.front = Some(tag);
        }
    }
}
