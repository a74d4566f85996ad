//! The contract of timelines, which the layers above use.
use crate::progress::Progress;
use std::alloc::Global;
use warp_step::{Meter, Out, Program, State};
use warp_tag::{OutOfMemory, Tag};

/// A program's run over a table of names that grows, executed as far as it is known.
///
/// A value stands for a program, a table of names (with payload and withdrawn mark) and so many rows of the
/// run as are done (`Standing`): that is a relation, since a value need not keep what it stands for. What was let go of
/// is known by its floor: no name whose tag is behind it is put or withdrawn any more.
pub trait Timeline: Sized + Drop {
    ghost use Rattle.std.specs.Prelude.{◌≡◌, ◌<◌, ◌≤◌, ◌+◌, ◌-◌, ℕ, ℤ, Bool, false, IsTrue, List, [], length, IfOk};
    ghost use Rattle.std.specs.Prelude.{◌↔◌, OnOk, OnErr, IsOk, Ok, Option, None};
    ghost use Rattle.warp_tag.specs.Limits.{most_names};
    ghost use Rattle.warp_tag.specs.Moment.{Moment};
    ghost use Rattle.warp_tag.specs.Table.{changed, with_event, with_withdrawal, live};
    ghost use Rattle.warp_step.specs.Run.{Row, state_at_end, outputs_of};
    ghost use Rattle.warp_step.specs.Snapshot.{start_state};
    ghost use Rattle.warp_step.specs.Events.{IsEventOf, IsNameOf};
    ghost use Rattle.warp_line.specs.Timeline.{Standing, IsDone, IsFront, NowStands, Settles, TakesNoRoom, rows_before};
    ghost use Rattle.warp_line.specs.Timeline.{MovesFloor, is_behind, rows_behind};
    ghost use Rattle.warp_line.specs.declared.progress.Progress.{Progress};

    /// Whether a value stands for this program, table and done rows.
    ghost stands_for: { Self → Standing → Type 0 };

    /// Whether there is room for one more name.
    ghost is_prepared: { Self → Type 0 };

    /// For how many elements each of its lists has taken memory, in an order of its own.
    ghost room: { Self → List ℕ };

    /// Whether all rows are done and their state and outputs are at hand.
    ghost settled: { Self → Bool };

    /// That settling it lacked memory: no other call says so.
    ghost refused: { Self → Type 0 };

    /// The last tag through which names were let go of; `None` while none were.
    ghost floor: { Self → Option Moment };

    /// How many rows before a change may have to be executed again after it.
    const SLACK: u64;

    ghost SLACK: { ℕ };

    /// How many done rows a change may drop where its tag is after the last of them.
    ghost drops: { ℕ };

    /// A run of this program over no names, of which nothing is done, and nothing let go of.
    fn start(alloc: Global, program: &Program) -> Result<Self, OutOfMemory>
        ensures stands { IfOk result (λ t. stands_for t (record { program = program.now; table = []; done = [] })) }
        ensures floor { IfOk result (λ t. floor t ≡ None) };

    /// Whether a tag is behind: not after the last one through which names were let go of. No name there may change any
    /// more.
    fn behind(&self, tag: Tag) -> bool
        ensures { result ≡ is_behind (floor self.now) tag };

    /// Makes room for one name more than the fewer than 4,000,000,000 that are there. An `Err` changes nothing, and
    /// keeps the room that was there; where there is room already, there is none.
    fn prepare(&mut self, alloc: Global) -> Result<(), OutOfMemory>
        requires { (m : Standing) × stands_for self.old m × (length m.table < most_names) }
        ensures stands { (m : Standing) → stands_for self.old m → stands_for self.new m }
        ensures settled { settled self.new ≡ settled self.old }
        ensures floor { floor self.new ≡ floor self.old }
        ensures kept { is_prepared self.old → is_prepared self.new }
        ensures prepared { OnOk result (is_prepared self.new) }
        ensures again { is_prepared self.old → IsOk result };

    /// Takes an event that the program takes and that is not behind: of several payloads of one name the greatest
    /// counts. Where no live event changes, a settled value stays settled. The room of each list stays as it is.
    fn put(&mut self, origin: u32, tag: Tag, input: u32, value: i64)
        requires prepared { is_prepared self.old }
        requires ahead { is_behind (floor self.old) tag ≡ false }
        requires event { (m : Standing) × stands_for self.old m × IsEventOf m.program origin tag input }
        ensures stands { (m : Standing) → stands_for self.old m → IsEventOf m.program origin tag input →
            NowStands stands_for SLACK drops tag self.new m (changed (with_event input value) origin tag m.table) }
        ensures settled { (m : Standing) → stands_for self.old m → IsEventOf m.program origin tag input →
            live (changed (with_event input value) origin tag m.table) ≡ live m.table →
            settled self.new ≡ settled self.old }
        ensures floor { floor self.new ≡ floor self.old }
        ensures room { room self.new ≡ room self.old };

    /// Takes a withdrawal of a name that the program takes and that is not behind: no event of the name counts, whether
    /// it came before or comes later. Where no live event changes, a settled value stays settled. The room of each list
    /// stays as it is.
    fn withdraw(&mut self, origin: u32, tag: Tag)
        requires prepared { is_prepared self.old }
        requires ahead { is_behind (floor self.old) tag ≡ false }
        requires name { (m : Standing) × stands_for self.old m × IsNameOf m.program origin tag }
        ensures stands { (m : Standing) → stands_for self.old m → IsNameOf m.program origin tag →
            NowStands stands_for SLACK drops tag self.new m (changed with_withdrawal origin tag m.table) }
        ensures settled { (m : Standing) → stands_for self.old m → IsNameOf m.program origin tag →
            live (changed with_withdrawal origin tag m.table) ≡ live m.table →
            settled self.new ≡ settled self.old }
        ensures floor { floor self.new ≡ floor self.old }
        ensures room { room self.new ≡ room self.old };

    /// Executes what is not done. At an `Err` it stands done through some tag, whole, says that it is not settled, and
    /// may be settled later.
    /// Of a settled value it changes nothing, ticks nothing, and cannot fail.
    fn settle<M: Meter>(
        &mut self,
        alloc: Global,
        program: &Program,
        meter: &mut M,
    ) -> Result<(), OutOfMemory>
        requires { (m : Standing) × stands_for self.old m × (m.program ≡ program.now) }
        ensures stands { (m : Standing) → stands_for self.old m → m.program ≡ program.now →
            (done : List Row) × Settles stands_for self.new m (M.ticks meter.new - M.ticks meter.old) done ×
            OnOk result (IsDone (record m { done = done })) }
        ensures floor { floor self.new ≡ floor self.old }
        ensures ticked { M.ticks meter.old ≤ M.ticks meter.new }
        ensures settled { OnOk result (IsTrue (settled self.new)) }
        ensures unsettled { OnErr result (settled self.new ≡ false) }
        ensures refused { OnErr result (refused self.new) }
        ensures idle { IsTrue (settled self.old) → IsOk result × (self.new ≡ self.old) ×
            (M.ticks meter.new ≡ M.ticks meter.old) };

    /// Executes what is not done, but at most so many rows by a step each. Where it pauses, so many were executed, and
    /// one more waits: then, as at an `Err`, it stands done through some tag, whole, says that it is not settled, and
    /// may be settled later, so too after other calls. What takes no step is not counted.
    /// Of a settled value it changes nothing, ticks nothing, and cannot fail.
    fn settle_some<M: Meter>(
        &mut self,
        alloc: Global,
        program: &Program,
        most: u64,
        meter: &mut M,
    ) -> Result<Progress, OutOfMemory>
        requires { (m : Standing) × stands_for self.old m × (m.program ≡ program.now) }
        ensures stands { (m : Standing) → stands_for self.old m → m.program ≡ program.now →
            (done : List Row) × Settles stands_for self.new m (M.ticks meter.new - M.ticks meter.old) done ×
            IfOk result (λ p. p ≡ Progress.Settled ↔ IsDone (record m { done = done })) }
        ensures floor { floor self.new ≡ floor self.old }
        ensures ticked { M.ticks meter.old ≤ M.ticks meter.new }
        ensures most { M.ticks meter.new ≤ M.ticks meter.old + most }
        ensures settled { IfOk result (λ p. p ≡ Progress.Settled → IsTrue (settled self.new)) }
        ensures paused { IfOk result (λ p. p ≡ Progress.Paused → (M.ticks meter.new ≡ M.ticks meter.old + most) ×
            (settled self.new ≡ false)) }
        ensures unsettled { OnErr result (settled self.new ≡ false) }
        ensures refused { OnErr result (refused self.new) }
        ensures idle { IsTrue (settled self.old) → (result ≡ Ok Progress.Settled) × (self.new ≡ self.old) ×
            (M.ticks meter.new ≡ M.ticks meter.old) };

    /// Whether it is settled: then all rows are done. One that is not may have none left to do, as one just started.
    fn is_settled(&self) -> bool
        ensures value { result ≡ settled self.now }
        ensures whole { IsTrue result → (m : Standing) → stands_for self.now m → IsDone m };

    /// The state after the last row: the start state if there is none. The value is settled.
    fn state(&self) -> &State
        requires { IsTrue (settled self.now) }
        ensures { (m : Standing) → stands_for self.now m → IsDone m ×
            (result.now ≡ state_at_end (start_state m.program) m.done) };

    /// The outputs of all rows, in order. The value is settled.
    fn outputs(&self) -> &[Out]
        requires { IsTrue (settled self.now) }
        ensures { (m : Standing) → stands_for self.now m → IsDone m × (result.now ≡ outputs_of m.done) };

    /// Lets go of what is not needed for tags from `below` on, of a settled value: the caller says that nothing changes
    /// before it any more. The floor stays or comes up to a tag before `below`: all but `SLACK` of the done rows before
    /// it are behind then. It changes no answer, leaves the done rows as they are, and cannot fail. No list gets more
    /// room.
    fn collect(&mut self, below: Tag)
        requires { IsTrue (settled self.old) }
        ensures stands { (m : Standing) → stands_for self.old m → stands_for self.new m }
        ensures settled { IsTrue (settled self.new) }
        ensures floor { (m : Standing) → stands_for self.old m → MovesFloor below (floor self.old) (floor self.new) }
        ensures behind { (m : Standing) → stands_for self.old m →
            rows_before below m.done ≤ rows_behind (floor self.new) m.done + SLACK }
        ensures kept { is_prepared self.old → is_prepared self.new }
        ensures room { TakesNoRoom (room self.old) (room self.new) };

    /// What is done is a front of the run.
    ghost done_is_front: { (value : Self) (m : Standing) → stands_for value m → IsFront m };
}
