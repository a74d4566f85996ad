//! The slow twin: a sorted table, and a run from the start where it is settled after a change.
use crate::progress::Progress;
use crate::replay::replay;
use crate::sorted_names::{note_event, note_withdrawal};
use crate::timeline::Timeline;
use std::alloc::Global;
use warp_step::{Meter, Out, Program, State};
use warp_tag::{Entry, OutOfMemory, Tag};

/// The timeline that keeps a sorted table, and runs from the start where it is settled after a change.
#[derive(Drop)]
pub struct Plain {
    entries: Vec<Entry>,
    state: State,
    outputs: Vec<Out>,
    settled: bool,
}

impl Timeline for Plain {
    ghost use Rattle.warp_tag.specs.Limits.{most_names};
    ghost use Rattle.warp_line.specs.Plain.{StandsFor, HasRoom, room_in};

    ghost stands_for = { StandsFor };

    ghost is_prepared = { HasRoom };

    ghost room = { room_in };

    ghost settled = { λ p. p.settled };

    ghost use Rattle.std.specs.Prelude.{◌≡◌, false};

    ghost refused = { λ p. p.settled ≡ false };

    ghost use Rattle.std.specs.Prelude.{None};

    ghost floor = { λ p. None };

    ghost SLACK = { most_names };

    ghost drops = { most_names };

    ghost use Rattle.std.proofs.Common.{inl, inr};
    ghost use Rattle.std.proofs.lemmas.Bool.{cases_Bool, MatchBool-at_true, MatchBool-at_false};
    ghost use Rattle.warp_tag.specs.Table.{live};
    ghost use Rattle.warp_step.proofs.TraceLemmas.{whole_front, none_front};

    ghost done_is_front = { λ p m h trace run. elim (cases_Bool p.settled) [
      | inl s ↦ whole_front m.program (live m.table) m.done trace (MatchBool-at_true _ _ s h.rows).done run
      | inr s ↦ none_front m.done trace (MatchBool-at_false _ _ s h.rows)
    ] };

    /// No run has more rows: each stands at a tag of its own, at a time of at most 15,624,999 and a microstep of at
    /// most 255.
    const SLACK: u64 = 4_000_000_000;

    fn start(alloc: Global, program: &Program) -> Result<Plain, OutOfMemory> {
        program.valid();
        let state = State::start(alloc, program)?;
        Ok(Plain {
            entries: Vec::new(alloc),
            state,
            outputs: Vec::new(alloc),
            settled: false,
        })
    }

    /// Nothing is behind, since it lets go of nothing.
    fn behind(&self, _tag: Tag) -> bool {
        false
    }

    fn prepare(&mut self, _alloc: Global) -> Result<(), OutOfMemory> {
        self.entries.try_reserve(1)
    }

    fn put(&mut self, origin: u32, tag: Tag, input: u32, value: i64) {
        self.settled &= !note_event(&mut self.entries, origin, tag, input, value);
    }

    fn withdraw(&mut self, origin: u32, tag: Tag) {
        self.settled &= !note_withdrawal(&mut self.entries, origin, tag);
    }

    fn settle<M: Meter>(
        &mut self,
        alloc: Global,
        program: &Program,
        meter: &mut M,
    ) -> Result<(), OutOfMemory> {
        // No run has so many rows.
        let _progress = self.settle_some(alloc, program, u64::MAX, meter)?;
        Ok(())
    }

    /// Where it pauses, nothing is done: it runs from the start again.
    fn settle_some<M: Meter>(
        &mut self,
        alloc: Global,
        program: &Program,
        most: u64,
        meter: &mut M,
    ) -> Result<Progress, OutOfMemory> {
        if !self.settled {
            let Some((state, outputs)) = replay(alloc, program, &self.entries, most, meter)? else {
                return Ok(Progress::Paused);
            };
            self.state = state;
            self.outputs = outputs;
            self.settled = true;
        }
        Ok(Progress::Settled)
    }

    /// It lets go of nothing, since it runs from the start.
    fn collect(&mut self, _below: Tag) {}

    fn is_settled(&self) -> bool {
        self.settled
    }

    fn state(&self) -> &State {
        &self.state
    }

    fn outputs(&self) -> &[Out] {
        &self.outputs
    }
}
