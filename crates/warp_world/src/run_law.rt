//! The law of a run's length.
ghost use Rattle.std.specs.Prelude.{◌+◌, ◌*◌, ◌≤◌, IsTrue, List, length};
ghost use Rattle.std.specs.List.{list_all};
ghost use Rattle.warp_tag.specs.Table.{Event};
ghost use Rattle.warp_step.specs.Events.{event_fits};
ghost use Rattle.warp_step.specs.Program.{Program, top_of};
ghost use Rattle.warp_step.specs.Run.{Row, Run};

/// A law: over events that it takes, a program's run has at most as many rows as there are tags up to its stop: for
/// each time, from 0 to the stop, one for each microstep, from 0 to the last one.
pub fn runs_are_short()
    ensures { (P : Program) (E : List Event) (trace : List Row) → IsTrue (list_all (event_fits P) E) → Run P E trace →
        length trace ≤ (P.stop + 1) * (top_of P + 1) }
{}
