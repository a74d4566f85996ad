//! What a rollback sets aside: the checkpoints that it drops, with the outputs of the rows between them. Where the run
//! comes to the tag of one of them in the same state, it is the run that was: it can go on over them.
ghost use Rattle.std.specs.Prelude.{◌≡◌, ◌+◌, ◌<◌, ◌≤◌, ◌↔◌, ◌⊎◌, ◌∷◌, ◌++◌, IsTrue, IsSomeAnd, List, [], length, drop};
ghost use Rattle.std.specs.Prelude.{IfOk, OnErr, OnOk, Some};
ghost use Rattle.warp_run.specs.Aside.{IsSameAside, KeepsFrom, outputs_between, set_aside, since};
ghost use Rattle.warp_run.specs.History.{IsAtLeast, IsOfState, Saved, before, newest, no_saves};

use crate::history::{Done, History};
use crate::lists::append;
use std::alloc::Global;
use std::marker::Model;
use warp_step::{Out, State};
use warp_tag::{OutOfMemory, Tag};

/// After so many rollbacks in a row whose checkpoints were not met again, few set some aside.
const PATIENCE: u32 = 8;

/// How many rollbacks there are then for one that sets some aside.
const PAUSE: u32 = 16;

/// Checkpoints that a rollback dropped, and the outputs of the rows between them.
#[derive(Drop)]
pub(crate) struct Aside {
    /// The earliest was put in last, and is the newest here.
    history: History,
    /// How many outputs were before those that are kept.
    first: usize,
    outputs: Vec<Out>,
    /// How many rollbacks set some aside, or were to, since the run last met one.
    unmet: u32,
}

impl Model for Aside {
    ghost use Rattle.warp_run.specs.Aside.{SetAside};

    ghost Value = { SetAside };

    ghost use Rattle.std.specs.Vec.{vec_capacity};

    ghost view = { λ a.
        record { history = a.history; first = a.first; outputs = a.outputs.items; room = vec_capacity a.outputs } };
}

impl Aside {
    /// Nothing is aside, of a program with so many variables.
    pub fn new(alloc: Global, width: usize) -> Result<Aside, OutOfMemory>
        ensures { IfOk result (λ a. a ≡ record { history = no_saves width; first = 0; outputs = []; room = 0 }) }
    {
        Ok(Aside {
            history: History::new(alloc, width)?,
            first: 0,
            outputs: Vec::new(alloc),
            unmet: 0,
        })
    }

    /// Makes at least as much room for checkpoints as there is among these.
    pub fn reserve_for(&mut self, history: &History) -> Result<(), OutOfMemory>
        ensures same { IsSameAside self.old self.new }
        ensures room { OnOk result (IsAtLeast history.now.room self.new.history.room) }
    {
        self.history.reserve_for(history)
    }

    /// Makes room for so many outputs in all.
    pub fn reserve_outputs(&mut self, outputs: usize) -> Result<(), OutOfMemory>
        ensures same { IsSameAside self.old self.new }
        ensures room { OnOk result (outputs ≤ self.new.room) }
    {
        let more = outputs.saturating_sub(self.outputs.len());
        self.outputs.try_reserve(more)
    }

    /// Drops all that is aside. The room stays as it is.
    pub fn clear(&mut self)
        ensures { self.new ≡ record self.old {
          history = record self.old.history { saves = []; free = self.new.history.free };
        } }
    {
        self.history.clear();
    }

    /// Sets the checkpoints aside whose last row is not before the tag, in the place of all that was, with their
    /// outputs, of which these are all. Where there is no room, or it was in vain too often, nothing is aside. The room
    /// stays as it is.
    #[inline(always)]
    pub fn take_from(&mut self, tag: Tag, history: &mut History, outputs: &[Out])
        requires { self.old.history.width ≡ history.old.width }
        ensures left { history.new ≡
            record history.old { saves = before tag history.old.saves; free = history.new.free } }
        ensures width { self.new.history.width ≡ self.old.history.width }
        ensures aside { (self.new.history.saves ≡ []) ⊎
            KeepsFrom (set_aside tag history.old.saves []) outputs.now self.new }
        ensures room { (self.new.history.room ≡ self.old.history.room) × (self.new.room ≡ self.old.room) }
    {
        self.unmet = self.unmet.wrapping_add(1);
        if self.unmet > PATIENCE && self.unmet % PAUSE != 0 {
            self.history.clear();
            history.drop_from(tag);
        } else {
            self.take_with_room(tag, history, outputs);
        }
    }

    /// Sets the checkpoints aside whose last row is not before the tag, if there is room, apart from where they are
    /// only dropped.
    #[inline(never)]
    fn take_with_room(&mut self, tag: Tag, history: &mut History, outputs: &[Out])
        requires { self.old.history.width ≡ history.old.width }
        ensures left { history.new ≡
            record history.old { saves = before tag history.old.saves; free = history.new.free } }
        ensures width { self.new.history.width ≡ self.old.history.width }
        ensures aside { (self.new.history.saves ≡ []) ⊎
            KeepsFrom (set_aside tag history.old.saves []) outputs.now self.new }
        ensures room { (self.new.history.room ≡ self.old.history.room) × (self.new.room ≡ self.old.room) }
    {
        history.set_aside(tag, &mut self.history);
        self.outputs.clear();
        let Some(earliest) = self.history.newest() else {
            return;
        };
        match outputs.get(earliest.outputs..) {
            Some(kept) if kept.len() <= self.outputs.capacity() => {
                append(&mut self.outputs, kept);
                self.first = earliest.outputs;
            }
            _ => self.history.clear(),
        }
    }

    /// Lets go of what is before the tag.
    pub fn let_go_before(&mut self, tag: Tag)
        ensures { self.new ≡ record self.old {
          history =
              record self.old.history { saves = since tag self.old.history.saves; free = self.new.history.free };
        } }
    {
        self.history.drop_before(tag);
    }

    /// Lets go of what is before the last row, and answers whether the earliest checkpoint that is left is after this
    /// row, in this state.
    pub fn meets(&mut self, last: Tag, state: &State) -> bool
        ensures left { self.new ≡ record self.old {
          history =
              record self.old.history { saves = since last self.old.history.saves; free = self.new.history.free };
        } }
        ensures met { IsTrue result ↔
            (IsSomeAnd (newest self.new.history.saves) (λ done. done.last ≡ Some last) ×
            IsOfState self.new.history.saves state.now) }
    {
        self.let_go_before(last);
        let meets = match self.history.newest() {
            Some(done) if done.last == Some(last) => self.history.is_of(state),
            _ => false,
        };
        if meets {
            self.unmet = 0;
        }
        meets
    }

    /// How far the earliest checkpoint is, if there is one.
    pub fn earliest(&self) -> Option<Done>
        ensures { result ≡ newest self.now.history.saves }
    {
        self.history.newest()
    }

    /// Lets go of the earliest checkpoint.
    pub fn let_go_earliest(&mut self)
        requires { 0 < length self.old.history.saves }
        ensures { self.new ≡ record self.old {
          history =
              record self.old.history { saves = drop 1 self.old.history.saves; free = self.new.history.free };
        } }
    {
        self.history.drop_newest();
    }

    /// Appends the outputs from behind the first so many up to so many. An `Err` appends nothing.
    pub fn append_outputs(
        &self,
        from: usize,
        to: usize,
        outputs: &mut Vec<Out>,
    ) -> Result<(), OutOfMemory>
        requires start { self.now.first ≤ from }
        requires order { from ≤ to }
        requires within { to ≤ self.now.first + length self.now.outputs }
        ensures ok { OnOk result
            (outputs.new.items ≡ outputs.old.items ++ outputs_between self.now.first self.now.outputs from to) }
        ensures err { OnErr result (outputs.new.items ≡ outputs.old.items) }
    {
        outputs.extend_from_slice(&self.outputs[from - self.first..to - self.first])
    }

    /// Gives a state back as it was at the earliest checkpoint, if there is one.
    pub fn restore(&self, state: &mut State)
        requires { length state.old.vars ≡ self.now.history.width }
        ensures { (earliest : Saved) (others : List Saved) → self.now.history.saves ≡ earliest ∷ others →
            state.new ≡ earliest.state }
    {
        self.history.restore(state);
    }
}
