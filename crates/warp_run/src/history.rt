//! The checkpoints of a run, in lists that they share: one more is appended to each, and going back cuts them.
ghost use Rattle.std.specs.Prelude.{◌≡◌, ◌<◌, ◌≤◌, ◌-◌, ◌↔◌, List, [], ◌∷◌, ◌++◌, length, take, drop, IsTrue};
ghost use Rattle.std.specs.Prelude.{if◌then◌else◌, Some, None, IfOk, IfSome, OnOk};
ghost use Rattle.warp_tag.specs.Limits.{most_pending};
ghost use Rattle.warp_step.specs.Snapshot.{AreInOrder, Snapshot};
ghost use Rattle.warp_run.specs.Aside.{set_aside, since};
ghost use Rattle.warp_run.specs.History.{ArePartedBy, HasRoomFor, IsAtLeast, IsOfState, Saved, before, down_to};
ghost use Rattle.warp_run.specs.History.{newest, no_saves, saved_at};

use crate::lists::{BLOCK, grow, last_of, move_front, write};
use crate::stack::Stack;
use std::alloc::Global;
use std::marker::Model;
use warp_step::{State, Waiting};
use warp_tag::{OutOfMemory, Tag};

/// How far a run is done.
#[derive(Clone, Copy)]
pub(crate) struct Done {
    /// How many rows.
    pub rows: usize,
    /// How many outputs.
    pub outputs: usize,
    /// The tag of the last row, if there is one.
    pub last: Option<Tag>,
}

impl Done {
    ghost use Rattle.std.specs.Prelude.{◌↔◌, IsSomeAnd, IsTrue};
    ghost use Rattle.warp_tag.specs.Moment.{is_before};
    ghost use Rattle.warp_step.specs.Run.{is_after};

    /// Whether the tag is after the last row.
    pub fn is_before(&self, tag: Tag) -> bool
        ensures { result ≡ is_after self.now.last tag }
    {
        match self.last {
            Some(last) => last.is_before(tag),
            None => true,
        }
    }

    /// Whether the tag is before the last row.
    pub fn is_after(&self, tag: Tag) -> bool
        ensures { IsTrue result ↔ IsSomeAnd self.now.last (λ last. IsTrue (is_before tag last)) }
    {
        match self.last {
            Some(last) => tag.is_before(last),
            None => false,
        }
    }
}

/// One checkpoint: how far the run was, and of its state the loss and how many entries were pending.
#[derive(Clone, Copy)]
struct Mark {
    done: Done,
    pending: usize,
    lost: u64,
}

/// The checkpoints of one run. Contracts see them as a list, the newest first.
///
/// Each has as many values of variables as the program has variables, which a stack keeps. The pending entries of all
/// stand in one list, which is filled up to its room, and a count says how much of it is in use.
#[derive(Drop)]
pub(crate) struct History {
    marks: Vec<Mark>,
    values: Stack,
    entries: Vec<Waiting>,
    entries_used: usize,
}

impl Model for History {
    ghost use Rattle.std.specs.Prelude.{[], ◌≤◌, length, take};
    ghost use Rattle.warp_run.specs.History.{Saves, AreKept, saves_of};

    ghost Value = { Saves };

    ghost use Rattle.std.specs.Vec.{vec_capacity};

    ghost view = { λ h. record {
      width = h.values.width;
      saves = saves_of h.values.width [] h.marks.items h.values.values (take h.entries_used h.entries.items);
      room = record { marks = vec_capacity h.marks; values = h.values.room; entries = length h.entries.items };
      free = h.values.free;
    } };

    ghost invariant = { λ h. (h.entries_used ≤ length h.entries.items) ×
        AreKept h.values.width h.marks.items h.values.values (take h.entries_used h.entries.items) };
}

impl History {
    /// No checkpoint of a program with so many variables.
    pub fn new(alloc: Global, width: usize) -> Result<History, OutOfMemory>
        ensures { IfOk result (λ h. h ≡ no_saves width) }
    {
        let values = Stack::new(alloc, width)?;
        Ok(History {
            marks: Vec::new(alloc),
            values,
            entries: Vec::new(alloc),
            entries_used: 0,
        })
    }

    /// Makes a checkpoint of the state that is reached so far, if there is room for it, and answers whether there is.
    /// The room stays as it is.
    #[inline(always)]
    pub fn save(&mut self, done: Done, state: &State) -> bool
        requires { length state.now.vars ≡ self.old.width }
        ensures saves { self.new ≡
            (if result
            then record self.old { saves = saved_at done state.now ∷ self.old.saves; free = self.new.free }
            else self.old) }
        ensures room { IsTrue result ↔ HasRoomFor self.old state.now }
    {
        state.valid();
        let lost = state.lost();
        self.add(done, state.vars(), state.pending(), lost)
    }

    /// Makes room for one more checkpoint, of this state.
    pub fn reserve(&mut self, state: &State) -> Result<(), OutOfMemory>
        ensures same { self.new ≡ record self.old { room = self.new.room; free = self.new.free } }
        ensures room { OnOk result (HasRoomFor self.new state.now) }
    {
        let entries = self.entries_used + state.pending().len();
        self.marks.try_reserve(1)?;
        self.values.reserve(state.vars())?;
        grow(&mut self.entries, entries, &[Waiting::default(); BLOCK])?;
        Ok(())
    }

    /// How far the newest checkpoint is.
    pub fn newest(&self) -> Option<Done>
        ensures { result ≡ newest self.now.saves }
    {
        let mark = self.marks.last()?;
        Some(mark.done)
    }

    /// Whether the newest checkpoint is of this state.
    pub fn is_of(&self, state: &State) -> bool
        ensures { IsTrue result ↔ IsOfState self.now.saves state.now }
    {
        let Some(mark) = self.marks.last() else {
            return false;
        };
        let values = self.values.last();
        let entries = last_of(&self.entries, self.entries_used, mark.pending);
        state.is_same_as(values, entries, mark.lost)
    }

    /// Makes room for as much as another history has room for.
    pub fn reserve_for(&mut self, other: &History) -> Result<(), OutOfMemory>
        ensures same { self.new ≡ record self.old { room = self.new.room; free = self.new.free } }
        ensures room { OnOk result (IsAtLeast other.now.room self.new.room) }
    {
        let marks = other.marks.capacity().saturating_sub(self.marks.len());
        self.marks.try_reserve(marks)?;
        self.values.reserve_for(&other.values)?;
        grow(
            &mut self.entries,
            other.entries.len(),
            &[Waiting::default(); BLOCK],
        )?;
        Ok(())
    }

    /// Drops all checkpoints. The room stays as it is.
    pub fn clear(&mut self)
        ensures { self.new ≡ record self.old { saves = []; free = self.new.free } }
    {
        self.marks.clear();
        self.values.clear();
        self.entries_used = 0;
    }

    /// Moves the checkpoints whose last row is not before the tag, the newest first, to another history in the place of
    /// those there, and answers whether it did: else that is left with none. The rooms of both stay as they are.
    pub fn set_aside(&mut self, tag: Tag, aside: &mut History) -> bool
        requires { aside.old.width ≡ self.old.width }
        ensures left { self.new ≡ record self.old { saves = before tag self.old.saves; free = self.new.free } }
        ensures aside { aside.new ≡ record aside.old {
          saves = if result then set_aside tag self.old.saves [] else [];
          free = aside.new.free;
        } }
    {
        aside.clear();
        while let Some(newest) = self.newest()
            && !newest.is_before(tag)
        {
            if !self.move_newest(aside) {
                aside.clear();
                self.drop_from(tag);
                return false;
            }
        }
        true
    }

    /// Moves the newest checkpoint in front of those of another history, if that has room for it, and answers whether
    /// it did. The rooms of both stay as they are.
    fn move_newest(&mut self, other: &mut History) -> bool
        requires width { other.old.width ≡ self.old.width }
        requires some { 0 < length self.old.saves }
        ensures left { self.new ≡ (if result
            then record self.old { saves = drop 1 self.old.saves; free = self.new.free } else self.old) }
        ensures other { other.new ≡ (if result
            then record other.old { saves = take 1 self.old.saves ++ other.old.saves; free = other.new.free }
            else other.old) }
    {
        let Some(mark) = self.marks.last() else {
            return false;
        };
        let values = self.values.last();
        let entries = last_of(&self.entries, self.entries_used, mark.pending);
        if !other.add(mark.done, values, entries, mark.lost) {
            return false;
        }
        self.drop_newest();
        true
    }

    /// Adds a checkpoint with these values and entries and this loss, if there is room for it, and answers whether
    /// there is. The room stays as it is.
    #[inline(always)]
    fn add(&mut self, done: Done, values: &[i64], entries: &[Waiting], lost: u64) -> bool
        requires values { length values.now ≡ self.old.width }
        requires entries { (length entries.now ≤ most_pending) × AreInOrder entries.now }
        ensures saves { self.new ≡ (if result
            then record self.old {
              saves = saved_at done (record { vars = values.now; pending = entries.now; lost = lost }) ∷ self.old.saves;
              free = self.new.free;
            } else self.old) }
        ensures room { IsTrue result ↔
            HasRoomFor self.old (record { vars = values.now; pending = entries.now; lost = lost }) }
    {
        if self.marks.len() == self.marks.capacity() {
            return false;
        }
        if values.len() > self.values.free() {
            return false;
        }
        if entries.len() > self.entries.len() - self.entries_used {
            return false;
        }
        let mark = Mark {
            done,
            pending: entries.len(),
            lost,
        };
        self.marks.push_reserved(mark);
        self.values.push(values);
        write(&mut self.entries, self.entries_used, entries);
        self.entries_used += entries.len();
        true
    }

    /// Drops the newest checkpoints up to one whose last row is not before the tag.
    pub fn drop_before(&mut self, tag: Tag)
        ensures { self.new ≡ record self.old { saves = since tag self.old.saves; free = self.new.free } }
    {
        while let Some(done) = self.newest()
            && done.is_before(tag)
        {
            self.drop_newest();
        }
    }

    /// Drops the checkpoints older than the newest one that is before the tag, and answers how far that one is. Where
    /// none is before the tag, none is dropped. The room stays as it is. The checkpoints stand in order of their tags,
    /// so the newest one is found by halving, and where none is dropped none is touched.
    pub fn drop_older(&mut self, tag: Tag) -> Option<Done>
        ensures others { self.new ≡ record self.old { saves = self.new.saves; free = self.new.free } }
        ensures left { ArePartedBy tag self.old.saves → self.new.saves ≡ down_to tag self.old.saves }
        ensures newest { ArePartedBy tag self.old.saves → result ≡ newest (before tag self.old.saves) }
    {
        let (older, done) = self.newest_before(tag)?;
        if older > 0 {
            self.drop_oldest(older);
        }
        Some(done)
    }

    /// How many checkpoints are older than the newest one that is before the tag, if there is one, and how far that is.
    fn newest_before(&self, tag: Tag) -> Option<(usize, Done)>
        ensures none { result ≡ None → ArePartedBy tag self.now.saves →
            (newest (before tag self.now.saves) ≡ None) × (down_to tag self.now.saves ≡ self.now.saves) }
        ensures within { IfSome result (λ found. found.0 ≤ length self.now.saves) }
        ensures some { ArePartedBy tag self.now.saves → IfSome result (λ found.
            (newest (before tag self.now.saves) ≡ Some found.1) ×
            (down_to tag self.now.saves ≡ take (length self.now.saves - found.0) self.now.saves)) }
    {
        let count = self.marks.partition_point(|mark| mark.done.is_before(tag));
        if count == 0 {
            return None;
        }
        let older = count - 1;
        Some((older, self.marks[older].done))
    }

    /// Drops so many of the oldest checkpoints. The room stays as it is.
    fn drop_oldest(&mut self, count: usize)
        requires { count ≤ length self.old.saves }
        ensures { self.new ≡
            record self.old { saves = take (length self.old.saves - count) self.old.saves; free = self.new.free } }
    {
        let mut entries = 0;
        let mut at = 0;
        while at < count {
            entries += self.marks[at].pending;
            at += 1;
        }
        self.values.drop_front(count);
        move_front(&mut self.entries, entries, self.entries_used);
        self.entries_used -= entries;
        let marks = self.marks.len();
        move_front(&mut self.marks, count, marks);
        self.marks.truncate(marks - count);
    }

    /// Drops the checkpoints whose last row is not before the tag.
    pub fn drop_from(&mut self, tag: Tag)
        ensures { self.new ≡ record self.old { saves = before tag self.old.saves; free = self.new.free } }
    {
        while let Some(done) = self.newest()
            && !done.is_before(tag)
        {
            self.drop_newest();
        }
    }

    /// Drops the newest checkpoint.
    pub fn drop_newest(&mut self)
        requires { 0 < length self.old.saves }
        ensures { self.new ≡ record self.old { saves = drop 1 self.old.saves; free = self.new.free } }
    {
        if let Some(mark) = self.marks.pop() {
            self.values.pop();
            self.entries_used -= mark.pending;
        }
    }

    /// Gives a state back as it was at the newest checkpoint, if there is one.
    pub fn restore(&self, state: &mut State)
        requires { length state.old.vars ≡ self.now.width }
        ensures { (newest : Saved) (others : List Saved) → self.now.saves ≡ newest ∷ others → state.new ≡ newest.state }
    {
        if let Some(mark) = self.marks.last() {
            let values = self.values.last();
            let entries = last_of(&self.entries, self.entries_used, mark.pending);
            state.restore(values, entries, mark.lost);
        }
    }
}
