//! The tip of a run, what is executed of it: its state, its outputs, and the checkpoints to which it can go back.
ghost use Rattle.std.specs.Prelude.{◌≡◌, ◌+◌, ◌<◌, ◌≤◌, ◌↔◌, ◌++◌, ◌∷◌, false, true, IsTrue, List, [], Some, length};
ghost use Rattle.std.specs.Prelude.{IfOk, IsOk, OnOk, OnErr, vec_len, vec_capacity};
ghost use Rattle.warp_tag.specs.Limits.{most_names};
ghost use Rattle.warp_tag.specs.Table.{Event};
ghost use Rattle.warp_step.specs.Program.{Program};
ghost use Rattle.warp_step.specs.Run.{Row, Run, IsNext, given_at, is_after};
ghost use Rattle.warp_line.specs.Timeline.{MovesFloor, rows_before, rows_behind};
ghost use Rattle.warp_run.specs.Aside.{IsMet, IsSameAside};
ghost use Rattle.warp_run.specs.Tip.{AreFew, CanGive, GoesBack, ExecutesMore, HasExecuted, IsRoom, IsSame, KeepsRoom};
ghost use Rattle.warp_run.specs.History.{HasRoomFor, IsAtLeast, reach, spacing};

use crate::aside::Aside;
use crate::history::{Done, History};
use crate::walk::is_after;
use std::alloc::Global;
use warp_step::{Given, Meter, Out, Program, Scratch, State, step};
use warp_tag::{OutOfMemory, Tag};

/// After how many rows at most a checkpoint stands.
const SPACING: usize = 16;

/// Makes room for so many outputs more. Where there was at least as much room for outputs that are aside, there is so
/// still.
#[inline(always)]
fn reserve_outputs(
    outputs: &mut Vec<Out>,
    aside: &mut Aside,
    more: usize,
) -> Result<(), OutOfMemory>
    ensures items { outputs.new.items ≡ outputs.old.items }
    ensures aside { IsSameAside aside.old aside.new }
    ensures room { OnOk result (vec_len outputs.new + more ≤ vec_capacity outputs.new) }
    ensures covered { OnOk result
        (vec_capacity outputs.old ≤ aside.old.room → vec_capacity outputs.new ≤ aside.new.room) }
    ensures fits { vec_len outputs.old + more ≤ vec_capacity outputs.old → IsOk result }
{
    if more <= outputs.capacity() - outputs.len() {
        return Ok(());
    }
    take_room_for_outputs(outputs, aside, more)
}

/// Takes memory for so many outputs more, and makes at least as much room for outputs that are aside.
#[inline(never)]
fn take_room_for_outputs(
    outputs: &mut Vec<Out>,
    aside: &mut Aside,
    more: usize,
) -> Result<(), OutOfMemory>
    ensures items { outputs.new.items ≡ outputs.old.items }
    ensures aside { IsSameAside aside.old aside.new }
    ensures room { OnOk result (vec_len outputs.new + more ≤ vec_capacity outputs.new) }
    ensures covered { OnOk result (vec_capacity outputs.new ≤ aside.new.room) }
{
    outputs.try_reserve(more)?;
    aside.reserve_outputs(outputs.capacity())
}

/// The rows of a run that are executed.
#[derive(Drop)]
pub(crate) struct Tip {
    state: State,
    outputs: Vec<Out>,
    /// How many rows.
    rows: usize,
    /// The tag of the last row.
    last: Option<Tag>,
    /// With so many rows the next checkpoint is made before one more.
    due: usize,
    /// How many rows the base has: no checkpoint has fewer.
    base: usize,
    /// The tag of the last of these rows, if there are any.
    floor: Option<Tag>,
    history: History,
    aside: Aside,
    scratch: Scratch,
}

impl Tip {
    /// Nothing is executed of the run of this program.
    pub fn start(alloc: Global, program: &Program) -> Result<Tip, OutOfMemory>
        ensures { IfOk result (λ x. (E : List Event) → HasExecuted program.now E x []) }
    {
        program.valid();
        Ok(Tip {
            state: State::start(alloc, program)?,
            outputs: Vec::new(alloc),
            rows: 0,
            last: None,
            due: 0,
            base: 0,
            floor: None,
            history: History::new(alloc, program.variables().len())?,
            aside: Aside::new(alloc, program.variables().len())?,
            scratch: Scratch::new(alloc, program)?,
        })
    }

    /// The tag of the last row, if there is one.
    pub fn last(&self) -> Option<Tag>
        ensures { result ≡ self.now.last }
    {
        self.last
    }

    /// The tag of the last row of the base, if it has one.
    pub fn floor(&self) -> Option<Tag>
        ensures { result ≡ self.now.floor }
    {
        self.floor
    }

    /// The state after the last row.
    pub fn state(&self) -> &State
        ensures { result.now ≡ self.now.state }
    {
        &self.state
    }

    /// The outputs of all rows, in order.
    pub fn outputs(&self) -> &[Out]
        ensures { result.now ≡ self.now.outputs.items }
    {
        &self.outputs
    }

    /// Makes room for one more row: where the newest checkpoint is as far back as they stand apart, it makes one, and
    /// it makes room for the row's outputs. What is executed and what is aside stay as they were, also at an `Err`.
    /// Where there is room for a checkpoint and for the outputs, there is none.
    #[inline(always)]
    pub fn get_ready(&mut self, program: &Program) -> Result<(), OutOfMemory>
        requires { (E : List Event) × (done : List Row) × HasExecuted program.now E self.old done }
        ensures same { IsSame self.old self.new }
        ensures room { OnOk result (IsRoom program.now self.new) }
        ensures fits { HasRoomFor self.old.history self.old.state →
            vec_len self.old.outputs + length program.now.outputs ≤ vec_capacity self.old.outputs → IsOk result }
    {
        self.save_if_due()?;
        reserve_outputs(&mut self.outputs, &mut self.aside, program.outputs().len())
    }

    /// Executes one more row, at the next tag that waits, with what is given there.
    #[inline(always)]
    pub fn step<M: Meter>(&mut self, program: &Program, tag: Tag, given: &[Given], meter: &mut M)
        requires at { (E : List Event) × (done : List Row) × HasExecuted program.now E self.old done
            × IsNext E self.old.last self.old.state tag × (given.now ≡ given_at tag E) }
        requires given { CanGive program.now tag given.now }
        requires few { self.old.rows < most_names }
        requires room { IsRoom program.now self.old }
        ensures stepped { (E : List Event) (done : List Row) → HasExecuted program.now E self.old done →
            IsNext E self.old.last self.old.state tag → given.now ≡ given_at tag E →
            (row : Row) × HasExecuted program.now E self.new (done ++ row ∷ []) }
        ensures last { self.new.last ≡ Some tag }
        ensures floor { self.new.floor ≡ self.old.floor }
        ensures ticked { M.ticks meter.new ≡ M.ticks meter.old + 1 }
    {
        step(
            program,
            &mut self.state,
            &mut self.scratch,
            tag,
            given,
            &mut self.outputs,
            meter,
        );
        self.rows += 1;
        self.last = Some(tag);
    }

    /// Makes a checkpoint, where one more row is not to be executed without.
    #[inline(always)]
    fn save_if_due(&mut self) -> Result<(), OutOfMemory>
        requires { (P : Program) × (E : List Event) × (done : List Row) × HasExecuted P E self.old done }
        ensures others { self.new ≡
            record self.old { due = self.new.due; history = self.new.history; aside = self.new.aside } }
        ensures aside { IsSameAside self.old.aside self.new.aside }
        ensures kept { (P : Program) (E : List Event) (done : List Row) → HasExecuted P E self.old done →
            HasExecuted P E self.new done }
        ensures room { OnOk result (self.new.rows + 1 ≤ reach self.new.base self.new.history.saves) }
        ensures fits { HasRoomFor self.old.history self.old.state → IsOk result }
    {
        if self.rows < self.due {
            return Ok(());
        }
        self.add_checkpoint()
    }

    /// Makes a checkpoint, where none stands or so many rows more are more than `SPACING` after the newest.
    fn save_for(&mut self, more: usize) -> Result<(), OutOfMemory>
        requires at { (P : Program) × (E : List Event) × (done : List Row) × HasExecuted P E self.old done }
        requires few { more ≤ spacing }
        ensures others { self.new ≡
            record self.old { due = self.new.due; history = self.new.history; aside = self.new.aside } }
        ensures aside { IsSameAside self.old.aside self.new.aside }
        ensures kept { (P : Program) (E : List Event) (done : List Row) → HasExecuted P E self.old done →
            HasExecuted P E self.new done }
        ensures room { OnOk result (self.new.rows + more ≤ reach self.new.base self.new.history.saves) }
        ensures fits { HasRoomFor self.old.history self.old.state → IsOk result }
    {
        if self.is_near(more) {
            return Ok(());
        }
        self.add_checkpoint()
    }

    /// Makes a checkpoint.
    #[inline(never)]
    fn add_checkpoint(&mut self) -> Result<(), OutOfMemory>
        requires { (P : Program) × (E : List Event) × (done : List Row) × HasExecuted P E self.old done }
        ensures others { self.new ≡
            record self.old { due = self.new.due; history = self.new.history; aside = self.new.aside } }
        ensures aside { IsSameAside self.old.aside self.new.aside }
        ensures kept { (P : Program) (E : List Event) (done : List Row) → HasExecuted P E self.old done →
            HasExecuted P E self.new done }
        ensures room { OnOk result (self.new.rows + spacing ≤ reach self.new.base self.new.history.saves) }
        ensures fits { HasRoomFor self.old.history self.old.state → IsOk result }
    {
        if self.add_in_room() {
            return Ok(());
        }
        self.add_with_room()
    }

    /// Makes room for a checkpoint, and at least as much room for checkpoints that are aside, and makes the checkpoint.
    #[inline(never)]
    fn add_with_room(&mut self) -> Result<(), OutOfMemory>
        requires { (P : Program) × (E : List Event) × (done : List Row) × HasExecuted P E self.old done }
        ensures others { self.new ≡
            record self.old { due = self.new.due; history = self.new.history; aside = self.new.aside } }
        ensures aside { IsSameAside self.old.aside self.new.aside }
        ensures kept { (P : Program) (E : List Event) (done : List Row) → HasExecuted P E self.old done →
            HasExecuted P E self.new done }
        ensures room { OnOk result (self.new.rows + spacing ≤ reach self.new.base self.new.history.saves) }
        ensures covered { OnOk result (IsAtLeast self.new.history.room self.new.aside.history.room) }
    {
        self.history.reserve(&self.state)?;
        self.aside.reserve_for(&self.history)?;
        // There is room, so it is made.
        self.add_in_room();
        Ok(())
    }

    /// Makes a checkpoint, if there is room for it, and answers whether there is. The room stays as it is.
    #[inline(always)]
    fn add_in_room(&mut self) -> bool
        requires { (P : Program) × (E : List Event) × (done : List Row) × HasExecuted P E self.old done }
        ensures others { self.new ≡ record self.old { due = self.new.due; history = self.new.history } }
        ensures kept { (P : Program) (E : List Event) (done : List Row) → HasExecuted P E self.old done →
            HasExecuted P E self.new done }
        ensures room { IsTrue result → self.new.rows + spacing ≤ reach self.new.base self.new.history.saves }
        ensures fits { HasRoomFor self.old.history self.old.state → IsTrue result }
        ensures capacity { self.new.history.room ≡ self.old.history.room }
    {
        let done = Done {
            rows: self.rows,
            outputs: self.outputs.len(),
            last: self.last,
        };
        let is_room = self.history.save(done, &self.state);
        if is_room {
            self.due = self.rows.saturating_add(SPACING);
        }
        is_room
    }

    /// Whether so many rows more are at most `SPACING` after the newest checkpoint.
    fn is_near(&self, more: usize) -> bool
        requires at { (P : Program) × (E : List Event) × (done : List Row) × HasExecuted P E self.now done }
        requires few { more ≤ spacing }
        ensures { IsTrue result → self.now.rows + more ≤ reach self.now.base self.now.history.saves }
    {
        match self.history.newest() {
            Some(newest) => self.rows - newest.rows + more <= SPACING,
            None => false,
        }
    }

    /// Goes back to the newest checkpoint before a tag that is not after the last row, but after the floor, and sets
    /// those after it aside. The room of each list stays as it is.
    #[inline(never)]
    pub fn go_back(&mut self, tag: Tag)
        requires at { (P : Program) × (E : List Event) × (done : List Row) × HasExecuted P E self.old done }
        requires late { is_after self.old.last tag ≡ false }
        requires ahead { is_after self.old.floor tag ≡ true }
        ensures back { (P : Program) (E : List Event) (done : List Row) → HasExecuted P E self.old done →
            GoesBack P E tag done self.new }
        ensures floor { self.new.floor ≡ self.old.floor }
        ensures room { KeepsRoom self.old self.new }
    {
        self.aside.take_from(tag, &mut self.history, &self.outputs);
        if let Some(done) = self.history.newest() {
            self.history.restore(&mut self.state);
            self.outputs.truncate(done.outputs);
            self.rows = done.rows;
            self.last = done.last;
            self.due = done.rows.saturating_add(SPACING);
        }
    }

    /// Lets go of what is aside and before a tag after the last row.
    pub fn let_go_before(&mut self, tag: Tag)
        requires { is_after self.old.last tag ≡ true }
        ensures others { self.new ≡ record self.old { aside = self.new.aside } }
        ensures kept { (P : Program) (E : List Event) (done : List Row) → HasExecuted P E self.old done →
            GoesBack P E tag done self.new }
        ensures room { KeepsRoom self.old self.new }
    {
        self.aside.let_go_before(tag);
    }

    /// Moves the base up to the last row, where that is before the tag, and else to the newest checkpoint that is, if
    /// there is one. Older checkpoints, and all that are aside, are dropped. What is executed stays, and so does the
    /// room of each list.
    pub fn collect(&mut self, below: Tag)
        ensures others { self.new ≡ record self.old {
          due = self.new.due;
          base = self.new.base;
          floor = self.new.floor;
          history = self.new.history;
          aside = self.new.aside;
        } }
        ensures kept { (P : Program) (E : List Event) (done : List Row) → HasExecuted P E self.old done →
            HasExecuted P E self.new done }
        ensures floor { (P : Program) (E : List Event) (done : List Row) → HasExecuted P E self.old done →
            MovesFloor below self.old.floor self.new.floor }
        ensures behind { (P : Program) (E : List Event) (done : List Row) → HasExecuted P E self.old done →
            Run P E done → rows_before below done ≤ rows_behind self.new.floor done + spacing }
        ensures room { KeepsRoom self.old self.new }
    {
        self.aside.clear();
        if is_after(self.last, below) {
            // The next row makes a checkpoint first.
            self.history.clear();
            self.due = self.rows;
            self.base = self.rows;
            self.floor = self.last;
        } else if let Some(done) = self.history.drop_older(below) {
            self.base = done.rows;
            self.floor = done.last;
        }
    }

    /// Whether the run has come to the earliest checkpoint that is aside.
    #[inline(always)]
    pub fn comes_to_aside(&self) -> bool
        ensures { IsTrue result → 0 < length self.now.aside.history.saves }
    {
        match (self.aside.earliest(), self.last) {
            (Some(earliest), Some(last)) => !earliest.is_after(last),
            _ => false,
        }
    }

    /// Goes on over what is aside, where the run is at the earliest checkpoint of it, in the same state. What is before
    /// the last row is let go. An `Err` comes behind the rows that are gone over.
    #[inline(never)]
    pub fn rejoin(&mut self) -> Result<(), OutOfMemory>
        requires at { (P : Program) × (E : List Event) × (done : List Row) ×
            HasExecuted P E self.old done × AreFew P E }
        ensures { ExecutesMore self.old self.new }
    {
        let Some(last) = self.last else {
            return Ok(());
        };
        if self.aside.meets(last, &self.state) {
            while self.jump()? {}
        }
        Ok(())
    }

    /// Goes on from the earliest checkpoint that is aside to the next one, if there is one.
    fn jump(&mut self) -> Result<bool, OutOfMemory>
        requires at { (P : Program) × (E : List Event) × (done : List Row) ×
            HasExecuted P E self.old done × AreFew P E }
        requires met { IsMet self.old.last self.old.state self.old.aside.history.saves }
        ensures on { ExecutesMore self.old self.new }
        ensures met { IfOk result
            (λ more. IsTrue more → IsMet self.new.last self.new.state self.new.aside.history.saves) }
        ensures fewer { IfOk result (λ more. IsTrue more →
            length self.new.aside.history.saves < length self.old.aside.history.saves) }
    {
        let Some(here) = self.aside.earliest() else {
            return Ok(false);
        };
        self.aside.let_go_earliest();
        let Some(next) = self.aside.earliest() else {
            return Ok(false);
        };
        let rows = next.rows - here.rows;
        self.save_for(rows)?;
        let outputs = next.outputs - here.outputs;
        reserve_outputs(&mut self.outputs, &mut self.aside, outputs)?;
        self.aside
            .append_outputs(here.outputs, next.outputs, &mut self.outputs)?;
        self.aside.restore(&mut self.state);
        self.rows += rows;
        self.last = next.last;
        Ok(true)
    }
}
