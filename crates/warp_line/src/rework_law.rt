//! The law on rework: what it costs to settle after changes.
ghost use Rattle.std.specs.Prelude.{◌≡◌, ◌≤◌, ◌+◌, ℕ, List, None, length};
ghost use Rattle.warp_tag.specs.Moment.{Moment};
ghost use Rattle.warp_tag.specs.Table.{live};
ghost use Rattle.warp_step.specs.Run.{Row, Run};
ghost use Rattle.warp_line.specs.Begin.{last_after};
ghost use Rattle.warp_line.specs.Timeline.{Standing, IsDone};
ghost use Rattle.warp_line.specs.Rework.{Change, Follow, AreAfter, AreNotBefore, ChangeNothing, TicksAtMost};
ghost use Rattle.warp_line.specs.Rework.{rework};

/// A law: after changes of a timeline of which all rows were done, settling ticks at most once for each row of the
/// new run that is not before the least tag at which a live event changed, and `slack` times more; not at all where
/// none changed. Where each that changed the live events is after the last row that was done, and the timeline drops
/// none there, no row that was done is executed again, whether all were done or not.
pub fn rework_is_bounded()
    ensures bound { (slack drops : ℕ) (m n : Standing) (changes : List Change) (tag : Moment) (ticks : ℕ)
        (trace : List Row) → IsDone m → Follow slack drops m changes n → AreNotBefore tag m changes →
        TicksAtMost n ticks → Run n.program (live n.table) trace → ticks ≤ rework tag trace + slack }
    ensures idle { (slack drops : ℕ) (m n : Standing) (changes : List Change) (ticks : ℕ) →
        IsDone m → Follow slack drops m changes n → ChangeNothing m changes → TicksAtMost n ticks → ticks ≡ 0 }
    ensures ahead { (slack : ℕ) (m n : Standing) (changes : List Change) (ticks : ℕ) (trace : List Row) →
        Follow slack 0 m changes n → AreAfter (last_after None m.done) m changes → TicksAtMost n ticks →
        Run n.program (live n.table) trace → ticks + length m.done ≤ length trace }
{}
