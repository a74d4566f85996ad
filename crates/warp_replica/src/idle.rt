//! A meter for those who need no count, and settling with it.
ghost use Rattle.std.specs.Prelude.{◌≡◌, ◌↔◌, ◌≤◌, ℕ, false, IfOk, IsOk, IsTrue, List, Ok, OnErr, OnOk};
ghost use Rattle.warp_step.specs.Counter.{IsUnused};
ghost use Rattle.warp_step.specs.Run.{Row};
ghost use Rattle.warp_line.specs.Timeline.{IsDone, Settles};
ghost use Rattle.warp_line.specs.declared.progress.Progress.{Progress};
ghost use Rattle.warp_replica.specs.Replica.{Stands, standing_of};

use crate::replica::Replica;
use std::alloc::Global;
use std::marker::{Brand, Model};
use std::sync::ledger::{Blank, Ledger};
use warp_line::{Progress, Timeline};
use warp_step::{Counter, Meter};
use warp_tag::OutOfMemory;

/// A meter that keeps no bytes: it counts in a ledger, for contracts alone. Contracts see how often it was ticked.
#[derive(Drop)]
pub struct Idle<L: Ledger> {
    counter: Counter<L>,
}

impl<L: Ledger> Model for Idle<L> {
    ghost use Rattle.std.specs.Prelude.{ℕ};

    ghost Value = { ℕ };

    ghost view = { λ m. m.counter };
}

impl<L: Ledger> Idle<L> {
    /// A meter that was not ticked yet, which counts in the ledger that `blank` opens.
    pub fn new(blank: Blank) -> Idle<L>
        requires { IsUnused blank L.name L.parts }
        ensures { result ≡ 0 }
    {
        Idle {
            counter: Counter::new(blank),
        }
    }
}

impl<L: Ledger> Meter for Idle<L> {
    ghost ticks = { λ m. m };

    fn tick(&mut self) {
        self.counter.grow();
    }
}

/// Has a replica execute what is not done, as `Replica::settle` does, for whoever counts no ticks.
#[inline(never)]
pub(crate) fn settle_untold<T: Timeline>(
    replica: &mut Replica<T>,
    alloc: Global,
) -> Result<(), OutOfMemory>
    ensures stands { (done : List Row) → Stands T.stands_for replica.old done →
        (ticks : ℕ) × (after : List Row)
        × Settles T.stands_for replica.new.timeline (standing_of replica.old done) ticks after
        × OnOk result (IsDone (standing_of replica.new after)) }
    ensures program { replica.new.program ≡ replica.old.program }
    ensures records { replica.new.records ≡ replica.old.records }
    ensures floor { T.floor replica.new.timeline ≡ T.floor replica.old.timeline }
    ensures settled { OnOk result (IsTrue (T.settled replica.new.timeline)) }
    ensures unsettled { OnErr result (T.settled replica.new.timeline ≡ false) }
    ensures refused { OnErr result (T.refused replica.new.timeline) }
    ensures idle { IsTrue (T.settled replica.old.timeline) → IsOk result × (replica.new ≡ replica.old) }
{
    settle_in::<T, Brand>(replica, alloc, Blank::new(1))
}

/// Settles. `blank` is the ledger that the ticks are counted in, which nobody asks for.
fn settle_in<T: Timeline, L: Ledger>(
    replica: &mut Replica<T>,
    alloc: Global,
    blank: Blank,
) -> Result<(), OutOfMemory>
    requires { IsUnused blank L.name L.parts }
    ensures stands { (done : List Row) → Stands T.stands_for replica.old done →
        (ticks : ℕ) × (after : List Row)
        × Settles T.stands_for replica.new.timeline (standing_of replica.old done) ticks after
        × OnOk result (IsDone (standing_of replica.new after)) }
    ensures program { replica.new.program ≡ replica.old.program }
    ensures records { replica.new.records ≡ replica.old.records }
    ensures floor { T.floor replica.new.timeline ≡ T.floor replica.old.timeline }
    ensures settled { OnOk result (IsTrue (T.settled replica.new.timeline)) }
    ensures unsettled { OnErr result (T.settled replica.new.timeline ≡ false) }
    ensures refused { OnErr result (T.refused replica.new.timeline) }
    ensures idle { IsTrue (T.settled replica.old.timeline) → IsOk result × (replica.new ≡ replica.old) }
{
    let mut idle = Idle::<L>::new(blank);
    replica.settle(alloc, &mut idle)
}

/// Has a replica execute what is not done, but at most so many rows, as `Replica::settle_some` does, for whoever counts
/// no ticks.
#[inline(never)]
pub(crate) fn settle_some_untold<T: Timeline>(
    replica: &mut Replica<T>,
    alloc: Global,
    most: u64,
) -> Result<Progress, OutOfMemory>
    ensures stands { (done : List Row) → Stands T.stands_for replica.old done →
        (ticks : ℕ) × (after : List Row)
        × Settles T.stands_for replica.new.timeline (standing_of replica.old done) ticks after
        × (ticks ≤ most)
        × IfOk result (λ p. (p ≡ Progress.Settled ↔ IsDone (standing_of replica.new after))
        × (p ≡ Progress.Paused → ticks ≡ most)) }
    ensures program { replica.new.program ≡ replica.old.program }
    ensures records { replica.new.records ≡ replica.old.records }
    ensures floor { T.floor replica.new.timeline ≡ T.floor replica.old.timeline }
    ensures settled { IfOk result (λ p. p ≡ Progress.Settled → IsTrue (T.settled replica.new.timeline)) }
    ensures paused { IfOk result (λ p. p ≡ Progress.Paused → T.settled replica.new.timeline ≡ false) }
    ensures unsettled { OnErr result (T.settled replica.new.timeline ≡ false) }
    ensures refused { OnErr result (T.refused replica.new.timeline) }
    ensures idle { IsTrue (T.settled replica.old.timeline) → (result ≡ Ok Progress.Settled) ×
        (replica.new ≡ replica.old) }
{
    settle_some_in::<T, Brand>(replica, alloc, most, Blank::new(1))
}

/// Settles so far. `blank` is the ledger that the ticks are counted in, which nobody asks for.
fn settle_some_in<T: Timeline, L: Ledger>(
    replica: &mut Replica<T>,
    alloc: Global,
    most: u64,
    blank: Blank,
) -> Result<Progress, OutOfMemory>
    requires { IsUnused blank L.name L.parts }
    ensures stands { (done : List Row) → Stands T.stands_for replica.old done →
        (ticks : ℕ) × (after : List Row)
        × Settles T.stands_for replica.new.timeline (standing_of replica.old done) ticks after
        × (ticks ≤ most)
        × IfOk result (λ p. (p ≡ Progress.Settled ↔ IsDone (standing_of replica.new after))
        × (p ≡ Progress.Paused → ticks ≡ most)) }
    ensures program { replica.new.program ≡ replica.old.program }
    ensures records { replica.new.records ≡ replica.old.records }
    ensures floor { T.floor replica.new.timeline ≡ T.floor replica.old.timeline }
    ensures settled { IfOk result (λ p. p ≡ Progress.Settled → IsTrue (T.settled replica.new.timeline)) }
    ensures paused { IfOk result (λ p. p ≡ Progress.Paused → T.settled replica.new.timeline ≡ false) }
    ensures unsettled { OnErr result (T.settled replica.new.timeline ≡ false) }
    ensures refused { OnErr result (T.refused replica.new.timeline) }
    ensures idle { IsTrue (T.settled replica.old.timeline) → (result ≡ Ok Progress.Settled) ×
        (replica.new ≡ replica.old) }
{
    let mut idle = Idle::<L>::new(blank);
    replica.settle_some(alloc, most, &mut idle)
}
