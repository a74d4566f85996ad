//! The law on rework of a replica: what it costs to settle after records came.
ghost use Rattle.std.specs.Prelude.{◌≡◌, ◌≤◌, ◌+◌, ℕ, List, None, length};
ghost use Rattle.warp_tag.specs.Moment.{Moment};
ghost use Rattle.warp_tag.specs.Table.{live};
ghost use Rattle.warp_step.specs.Run.{Row, Run};
ghost use Rattle.warp_line.specs.Begin.{last_after};
ghost use Rattle.warp_line.specs.Rework.{rework};
ghost use Rattle.warp_table.specs.LogNames.{table_of};
ghost use Rattle.warp_replica.specs.Chain.{Taking, TakeAll, ComeAhead, ChangeAfter, ChangeFrom, ChangeNone};
ghost use Rattle.warp_replica.specs.Chain.{IsAllDone, SettlesWith};
ghost use Rattle.warp_replica.specs.Replica.{ReplicaState, Stands};

use warp_line::Timeline;

/// A law: after a settled replica took records, one after another, none of which came in behind what was let go of,
/// settling it ticks at most once for each row of the run over its records then that is not before the least tag at
/// which a record changed the live events, and `SLACK` times more; not at all where none changed them. Where each that
/// changed them is after the last row that was done, and the timeline drops none there, no done row is executed again,
/// whether all were done or not. What is asked of each taking is what `Replica::take` ensures, and of settling what
/// `Replica::settle` does.
pub fn rework_after_takes<T: Timeline>()
    ensures bound { (r last settled : ReplicaState T) (takings : List (Taking T)) (tag : Moment) (ticks : ℕ)
        (trace : List Row) → IsAllDone T.stands_for r → TakeAll T.stands_for T.floor T.SLACK T.drops r takings last →
        ComeAhead T.floor r takings → ChangeFrom tag r takings → SettlesWith T.stands_for last ticks settled →
        Run last.program (live (table_of last.records)) trace → ticks ≤ rework tag trace + T.SLACK }
    ensures idle { (r last settled : ReplicaState T) (takings : List (Taking T)) (ticks : ℕ) →
        IsAllDone T.stands_for r → TakeAll T.stands_for T.floor T.SLACK T.drops r takings last →
        ComeAhead T.floor r takings → ChangeNone r takings → SettlesWith T.stands_for last ticks settled → ticks ≡ 0 }
    ensures ahead { T.drops ≡ 0 → (r last settled : ReplicaState T) (takings : List (Taking T)) (ticks : ℕ)
        (done trace : List Row) → Stands T.stands_for r done →
        TakeAll T.stands_for T.floor T.SLACK T.drops r takings last → ComeAhead T.floor r takings →
        ChangeAfter (last_after None done) r takings → SettlesWith T.stands_for last ticks settled →
        Run last.program (live (table_of last.records)) trace → ticks + length done ≤ length trace }
{}
