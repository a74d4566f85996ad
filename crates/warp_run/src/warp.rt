//! The timeline with rollback.
ghost use Rattle.std.specs.Prelude.{◌≡◌, ◌+◌, ◌-◌, ◌≤◌, false, true, IsTrue, List, None, IfSome, OnOk, OnErr};
ghost use Rattle.std.specs.Prelude.{◌↔◌, IfOk, IsSome, IsSomeAnd, length};
ghost use Rattle.warp_tag.specs.Table.{Event, changed, fresh, live, with_event};
ghost use Rattle.warp_step.specs.Program.{Program};
ghost use Rattle.warp_step.specs.Events.{IsEventOf, IsNameOf};
ghost use Rattle.warp_step.specs.Run.{Row, IsNext, is_after};
ghost use Rattle.warp_arena.specs.Places.{IsBehindAll, Reaches, entries_of, entry_of, node_of};
ghost use Rattle.warp_arena.specs.Shape.{IsGap};
ghost use Rattle.warp_line.specs.Begin.{last_after};
ghost use Rattle.warp_line.specs.Timeline.{NowStands, Standing, IsDone, is_behind};
ghost use Rattle.warp_line.specs.declared.progress.Progress.{Progress};
ghost use Rattle.warp_run.specs.Walk.{IsAhead, IsAtFirst, ahead, tag_of_next};
ghost use Rattle.warp_run.specs.Skips.{IsCut};
ghost use Rattle.warp_run.specs.Tip.{GoesBack, HasExecuted, KeepsRoom};
ghost use Rattle.warp_run.specs.Warp.{ChangedFrom, Goes, HasRoom, NamesAt, StandsFor};
ghost use Rattle.warp_run.specs.Warp.{ahead_of, floor_of, latest_with, room_in};

use crate::skips::Skips;
use crate::tip::Tip;
use crate::walk::{
    Live, Next, event_before, first_after, first_from, free_behind, gather_from, is_after, is_past,
    next_event,
};
use std::alloc::Global;
use std::slice;
use warp_arena::law::{changes_found, changes_new, finds_known};
use warp_arena::{Arena, Cursor, Gap, NodeId};
use warp_line::{Progress, Timeline};
use warp_step::{Given, Meter, Out, Program, State};
use warp_tag::{OutOfMemory, Tag};

/// The timeline that executes at once what it has, and after a change at a tag that is executed already goes back to
/// the newest checkpoint before that tag. Where the run is then again in a state that it was in, it can go on over what
/// was executed behind that. Where it collects, it frees the names through the last tag of its base, a checkpoint or
/// the present state, and drops what is older.
#[derive(Drop)]
pub struct Warp {
    arena: Arena,
    /// The first place after the last row.
    cursor: Cursor,
    /// A tag after which no live event is.
    latest: Option<Tag>,
    tip: Tip,
    /// Room for what is given to a step, where it is gathered.
    given: Vec<Given>,
    settled: bool,
    /// Stretches at whose tags no live event is.
    skips: Skips,
}

impl Timeline for Warp {
    ghost use Rattle.warp_run.specs.Warp.{HasRoom, StandsFor, room_in};

    ghost stands_for = { StandsFor };

    ghost is_prepared = { HasRoom };

    ghost room = { room_in };

    ghost settled = { λ w. w.settled };

    ghost use Rattle.std.specs.Prelude.{◌≡◌, false};

    ghost refused = { λ w. w.settled ≡ false };

    ghost use Rattle.warp_run.specs.Warp.{floor_of};

    ghost floor = { floor_of };

    ghost SLACK = { 16 };

    ghost drops = { 0 };

    ghost use Rattle.warp_tag.specs.Table.{live};
    ghost use Rattle.warp_line.proofs.Begins.{front_begins};

    ghost done_is_front = { λ w m h trace run. front_begins m.program (live m.table) m.done trace h.tip.begin run };

    /// A checkpoint stands at most sixteen rows behind the one before it.
    const SLACK: u64 = 16;

    fn start(alloc: Global, program: &Program) -> Result<Warp, OutOfMemory> {
        program.valid();
        Ok(Warp {
            arena: Arena::start(alloc, program.origins())?,
            cursor: Cursor::end(),
            latest: None,
            tip: Tip::start(alloc, program)?,
            given: Vec::new(alloc),
            settled: false,
            skips: Skips::new(),
        })
    }

    fn behind(&self, tag: Tag) -> bool {
        !is_after(self.tip.floor(), tag)
    }

    #[inline(always)]
    fn prepare(&mut self, alloc: Global) -> Result<(), OutOfMemory> {
        self.arena.reserve_one(alloc)
    }

    #[inline(never)]
    fn put(&mut self, origin: u32, tag: Tag, input: u32, value: i64) {
        match self.arena.gap_at_end(origin, tag) {
            Some(gap) if is_after(self.tip.last(), tag) => {
                self.put_last(origin, tag, input, value, &gap);
            }
            _ => self.put_among(origin, tag, input, value),
        }
    }

    #[inline(never)]
    fn withdraw(&mut self, origin: u32, tag: Tag) {
        let node = self.node(origin, tag);
        let changes = self.arena.entry(node).withdraw();
        self.arena.set_withdrawn(node);
        if changes {
            self.undo_from(node, tag);
        }
    }

    fn settle<M: Meter>(
        &mut self,
        _alloc: Global,
        program: &Program,
        meter: &mut M,
    ) -> Result<(), OutOfMemory> {
        if !self.settled {
            self.catch_up(program, meter)?;
            self.latest = self.tip.last();
            self.settled = true;
        }
        Ok(())
    }

    fn settle_some<M: Meter>(
        &mut self,
        _alloc: Global,
        program: &Program,
        most: u64,
        meter: &mut M,
    ) -> Result<Progress, OutOfMemory> {
        if self.settled {
            return Ok(Progress::Settled);
        }
        match self.catch_up_some(program, most, meter)? {
            Progress::Settled => {
                self.latest = self.tip.last();
                self.settled = true;
                Ok(Progress::Settled)
            }
            Progress::Paused => Ok(Progress::Paused),
        }
    }

    /// The base comes to the present state, where all that is done is before `below`, and else to the newest
    /// checkpoint whose done tags are all before it, if there is one. The nodes of all names through the base's last
    /// tag are freed, and older checkpoints are dropped, and so is what a rollback set aside. All outputs stay.
    fn collect(&mut self, below: Tag) {
        self.tip.collect(below);
        free_behind(&mut self.arena, self.tip.floor());
    }

    fn is_settled(&self) -> bool {
        self.settled
    }

    fn state(&self) -> &State {
        self.tip.state()
    }

    fn outputs(&self) -> &[Out] {
        self.tip.outputs()
    }
}

impl Warp {
    /// Its arena: the names that are not behind, in order of tag, then of origin, each with its greatest payload and
    /// its withdrawn mark.
    pub fn arena(&self) -> &Arena
        ensures { (m : Standing) → StandsFor self.now m →
            entries_of result.now.places ≡ ahead_of (floor_of self.now) m.table }
    {
        &self.arena
    }

    /// The tag of the last row that is done, if there is one.
    pub fn last(&self) -> Option<Tag>
        ensures { (m : Standing) → StandsFor self.now m → result ≡ last_after None m.done }
    {
        self.tip.last()
    }

    /// How many names its arena holds: those that are not behind.
    pub fn held(&self) -> usize
        ensures { (m : Standing) → StandsFor self.now m → result ≡ length (ahead_of (floor_of self.now) m.table) }
    {
        self.arena.len()
    }

    /// Executes rows until none waits.
    fn catch_up<M: Meter>(&mut self, program: &Program, meter: &mut M) -> Result<(), OutOfMemory>
        requires stands { (m : Standing) × StandsFor self.old m × (m.program ≡ program.now) }
        requires unsettled { self.old.settled ≡ false }
        ensures goes { Goes program.now self.old self.new (M.ticks meter.new - M.ticks meter.old) }
        ensures ticked { M.ticks meter.old ≤ M.ticks meter.new }
        ensures unsettled { self.new.settled ≡ false }
        ensures floor { self.new.tip.floor ≡ self.old.tip.floor }
        ensures done { OnOk result ((m : Standing) → StandsFor self.new m → m.program ≡ program.now → IsDone m) }
    {
        while let Some(next) = self.next_row() {
            self.go_on(program, &next, meter)?;
        }
        Ok(())
    }

    /// Executes rows until none waits, but at most so many by a step each.
    fn catch_up_some<M: Meter>(
        &mut self,
        program: &Program,
        most: u64,
        meter: &mut M,
    ) -> Result<Progress, OutOfMemory>
        requires stands { (m : Standing) × StandsFor self.old m × (m.program ≡ program.now) }
        requires unsettled { self.old.settled ≡ false }
        ensures goes { Goes program.now self.old self.new (M.ticks meter.new - M.ticks meter.old) }
        ensures ticked { M.ticks meter.old ≤ M.ticks meter.new }
        ensures most { M.ticks meter.new ≤ M.ticks meter.old + most }
        ensures unsettled { self.new.settled ≡ false }
        ensures floor { self.new.tip.floor ≡ self.old.tip.floor }
        ensures done { IfOk result (λ p. (m : Standing) → StandsFor self.new m → m.program ≡ program.now →
            p ≡ Progress.Settled ↔ IsDone m) }
        ensures paused { IfOk result (λ p. p ≡ Progress.Paused → M.ticks meter.new ≡ M.ticks meter.old + most) }
    {
        let mut left = most;
        while let Some(next) = self.next_row() {
            if left == 0 {
                return Ok(Progress::Paused);
            }
            left -= 1;
            self.go_on(program, &next, meter)?;
        }
        Ok(Progress::Settled)
    }

    /// Executes the next row, and goes on over what is aside, where the run comes to it.
    #[inline(always)]
    fn go_on<M: Meter>(
        &mut self,
        program: &Program,
        next: &Next,
        meter: &mut M,
    ) -> Result<(), OutOfMemory>
        requires stands { (m : Standing) × StandsFor self.old m × (m.program ≡ program.now) }
        requires next { (m : Standing) → StandsFor self.old m →
            IsNext (live m.table) self.old.tip.last self.old.tip.state (tag_of_next next.now) }
        requires event { IsAtFirst self.old.arena.places (ahead self.old.tip.last self.old.arena.places) next.now }
        requires unsettled { self.old.settled ≡ false }
        ensures goes { Goes program.now self.old self.new (M.ticks meter.new - M.ticks meter.old) }
        ensures ticked { OnOk result (M.ticks meter.new ≡ M.ticks meter.old + 1) }
        ensures least { M.ticks meter.old ≤ M.ticks meter.new }
        ensures most { M.ticks meter.new ≤ M.ticks meter.old + 1 }
        ensures unsettled { self.new.settled ≡ false }
        ensures floor { self.new.tip.floor ≡ self.old.tip.floor }
    {
        self.note_passed(next);
        self.turn(program, next, meter)?;
        if self.tip.comes_to_aside() {
            return self.rejoin();
        }
        Ok(())
    }

    /// Goes on over the rows that a rollback set aside, where the run is there again in the same state.
    #[inline(never)]
    fn rejoin(&mut self) -> Result<(), OutOfMemory>
        requires stands { (m : Standing) × StandsFor self.old m }
        requires unsettled { self.old.settled ≡ false }
        ensures goes { (P : Program) → Goes P self.old self.new 0 }
        ensures unsettled { self.new.settled ≡ false }
        ensures floor { self.new.tip.floor ≡ self.old.tip.floor }
    {
        let rejoined = self.tip.rejoin();
        if let Some(last) = self.tip.last() {
            let place = first_from(&self.arena, self.cursor.node(), last);
            self.cursor = self.arena.cursor_at(place);
        }
        rejoined
    }

    /// The next row: at the next tag that waits, of a live event or a pending entry. No place is looked at that is
    /// behind the next pending entry, but for the first.
    #[inline(always)]
    fn next_row(&self) -> Option<Next>
        requires { (m : Standing) × StandsFor self.now m }
        ensures none { result ≡ None → (m : Standing) → StandsFor self.now m → IsDone m }
        ensures some { IfSome result
            (λ r. (m : Standing) → StandsFor self.now m →
            IsNext (live m.table) self.now.tip.last self.now.tip.state (tag_of_next r)) }
        ensures event { IfSome result
            (IsAtFirst self.now.arena.places (ahead self.now.tip.last self.now.arena.places)) }
    {
        self.arena.ordered();
        let Some(pending) = self.tip.state().next() else {
            let live = next_event(&self.arena, &self.skips, self.cursor.node(), &self.latest)?;
            return Some(Next::AtEvent(live));
        };
        match event_before(&self.arena, &self.skips, self.cursor.node(), pending) {
            Some(live) => Some(Next::AtEvent(live)),
            None => Some(Next::AtEntry(pending)),
        }
    }

    /// Keeps what was passed up to the next row's event, where that is a long way.
    #[inline(always)]
    fn note_passed(&mut self, next: &Next)
        requires next { (m : Standing) → StandsFor self.old m →
            IsNext (live m.table) self.old.tip.last self.old.tip.state (tag_of_next next.now) }
        requires cursor { Reaches self.old.arena.places
            (ahead self.old.tip.last self.old.arena.places) self.old.cursor }
        requires event { IsAtFirst self.old.arena.places (ahead self.old.tip.last self.old.arena.places) next.now }
        ensures others { self.new ≡ record self.old { skips = self.new.skips } }
        ensures stands { (m : Standing) → StandsFor self.old m → StandsFor self.new m }
    {
        if let Next::AtEvent(live) = *next
            && let Some(first) = self.cursor.node()
            && first != live.node
        {
            let last = self.tip.last();
            self.skips
                .note(&self.arena, last, live.tag, first, live.node);
        }
    }

    /// Executes the next row. At an `Err` it is not executed.
    #[inline(always)]
    fn turn<M: Meter>(
        &mut self,
        program: &Program,
        next: &Next,
        meter: &mut M,
    ) -> Result<(), OutOfMemory>
        requires next { (m : Standing) × StandsFor self.old m × (m.program ≡ program.now)
            × IsNext (live m.table) self.old.tip.last self.old.tip.state (tag_of_next next.now) }
        requires event { IsAtFirst self.old.arena.places (ahead self.old.tip.last self.old.arena.places) next.now }
        requires unsettled { self.old.settled ≡ false }
        ensures goes { Goes program.now self.old self.new (M.ticks meter.new - M.ticks meter.old) }
        ensures ticked { OnOk result (M.ticks meter.new ≡ M.ticks meter.old + 1) }
        ensures stays { OnErr result (M.ticks meter.new ≡ M.ticks meter.old) }
        ensures unsettled { self.new.settled ≡ false }
        ensures floor { self.new.tip.floor ≡ self.old.tip.floor }
    {
        match *next {
            Next::AtEvent(live) => self.turn_at_event(program, &live, meter),
            Next::AtEntry(tag) => self.turn_at_entry(program, tag, meter),
        }
    }

    /// Executes the next row, at the tag of the first live event after the last row. Mostly no other is at it: then
    /// just what that event gives is given.
    #[inline(always)]
    fn turn_at_event<M: Meter>(
        &mut self,
        program: &Program,
        first: &Live,
        meter: &mut M,
    ) -> Result<(), OutOfMemory>
        requires next { (m : Standing) × StandsFor self.old m × (m.program ≡ program.now)
            × IsNext (live m.table) self.old.tip.last self.old.tip.state first.now.tag }
        requires event { IsAhead self.old.arena.places (ahead self.old.tip.last self.old.arena.places) first.now }
        requires unsettled { self.old.settled ≡ false }
        ensures goes { Goes program.now self.old self.new (M.ticks meter.new - M.ticks meter.old) }
        ensures ticked { OnOk result (M.ticks meter.new ≡ M.ticks meter.old + 1) }
        ensures stays { OnErr result (M.ticks meter.new ≡ M.ticks meter.old) }
        ensures unsettled { self.new.settled ≡ false }
        ensures floor { self.new.tip.floor ≡ self.old.tip.floor }
    {
        self.arena.ordered();
        let behind = self.arena.next(first.node);
        if !is_past(&self.arena, &behind, first.tag) {
            return self.turn_at(program, first.tag, meter);
        }
        self.tip.get_ready(program)?;
        self.cursor = self.arena.cursor_at(behind);
        let alone = slice::from_ref(&first.given);
        self.tip.step(program, first.tag, alone, meter);
        Ok(())
    }

    /// Executes the next row, at the tag of a pending entry. Mostly no event is at it: then nothing is given.
    #[inline(always)]
    fn turn_at_entry<M: Meter>(
        &mut self,
        program: &Program,
        tag: Tag,
        meter: &mut M,
    ) -> Result<(), OutOfMemory>
        requires next { (m : Standing) × StandsFor self.old m × (m.program ≡ program.now)
            × IsNext (live m.table) self.old.tip.last self.old.tip.state tag }
        requires unsettled { self.old.settled ≡ false }
        ensures goes { Goes program.now self.old self.new (M.ticks meter.new - M.ticks meter.old) }
        ensures ticked { OnOk result (M.ticks meter.new ≡ M.ticks meter.old + 1) }
        ensures stays { OnErr result (M.ticks meter.new ≡ M.ticks meter.old) }
        ensures unsettled { self.new.settled ≡ false }
        ensures floor { self.new.tip.floor ≡ self.old.tip.floor }
    {
        self.arena.ordered();
        if !is_past(&self.arena, &self.cursor.node(), tag) {
            return self.turn_at(program, tag, meter);
        }
        self.tip.get_ready(program)?;
        self.tip.step(program, tag, &[], meter);
        Ok(())
    }

    /// Executes the next row, at a tag, with what all live events at it give.
    #[inline(never)]
    fn turn_at<M: Meter>(
        &mut self,
        program: &Program,
        tag: Tag,
        meter: &mut M,
    ) -> Result<(), OutOfMemory>
        requires next { (m : Standing) × StandsFor self.old m × (m.program ≡ program.now)
            × IsNext (live m.table) self.old.tip.last self.old.tip.state tag }
        requires unsettled { self.old.settled ≡ false }
        ensures goes { Goes program.now self.old self.new (M.ticks meter.new - M.ticks meter.old) }
        ensures ticked { OnOk result (M.ticks meter.new ≡ M.ticks meter.old + 1) }
        ensures stays { OnErr result (M.ticks meter.new ≡ M.ticks meter.old) }
        ensures unsettled { self.new.settled ≡ false }
        ensures floor { self.new.tip.floor ≡ self.old.tip.floor }
    {
        self.arena.ordered();
        self.given.clear();
        let cursor = gather_from(&self.arena, self.cursor.node(), tag, &mut self.given)?;
        self.tip.get_ready(program)?;
        self.cursor = self.arena.cursor_at(cursor);
        self.tip.step(program, tag, &self.given, meter);
        Ok(())
    }

    /// Takes an event that is not behind, as `put`, where its name may stand among others.
    #[inline(never)]
    fn put_among(&mut self, origin: u32, tag: Tag, input: u32, value: i64)
        requires prepared { HasRoom self.old }
        requires ahead { is_behind (floor_of self.old) tag ≡ false }
        requires event { (m : Standing) × StandsFor self.old m × IsEventOf m.program origin tag input }
        ensures stands { (m : Standing) → StandsFor self.old m → IsEventOf m.program origin tag input →
            NowStands StandsFor 16 0 tag self.new m (changed (with_event input value) origin tag m.table) }
        ensures settled { (m : Standing) → StandsFor self.old m → IsEventOf m.program origin tag input →
            live (changed (with_event input value) origin tag m.table) ≡ live m.table →
            self.new.settled ≡ self.old.settled }
        ensures floor { floor_of self.new ≡ floor_of self.old }
        ensures room { room_in self.new ≡ room_in self.old }
    {
        let node = self.node(origin, tag);
        let changes = self.arena.entry(node).note_event(input, value);
        self.arena.set_event(node, input, value);
        if changes {
            self.undo_from(node, tag);
        }
    }

    /// Takes an event that is not behind, as `put`, where its name comes behind all others and after the last row.
    #[inline(always)]
    fn put_last(&mut self, origin: u32, tag: Tag, input: u32, value: i64, gap: &Gap)
        requires prepared { HasRoom self.old }
        requires ahead { is_behind (floor_of self.old) tag ≡ false }
        requires event { (m : Standing) × StandsFor self.old m × IsEventOf m.program origin tag input }
        requires absent { node_of origin tag self.old.arena.places ≡ None }
        requires gap { IsGap origin tag self.old.arena.places gap.now }
        requires behind { IsBehindAll origin tag self.old.arena.places }
        requires later { is_after self.old.tip.last tag ≡ true }
        ensures stands { (m : Standing) → StandsFor self.old m → IsEventOf m.program origin tag input →
            NowStands StandsFor 16 0 tag self.new m (changed (with_event input value) origin tag m.table) }
        ensures settled { (m : Standing) → StandsFor self.old m → IsEventOf m.program origin tag input →
            live (changed (with_event input value) origin tag m.table) ≡ live m.table →
            self.new.settled ≡ self.old.settled }
        ensures floor { floor_of self.new ≡ floor_of self.old }
        ensures room { room_in self.new ≡ room_in self.old }
    {
        let place = self.come_in(origin, tag, input, value, gap);
        self.skips.cut(&self.arena, place, tag);
        self.note_change(tag);
        self.tip.let_go_before(tag);
        // A hint is put by a call in last place, so no register is saved for it.
        self.arena.note_hint(place, origin, tag);
    }

    /// Has a name that is behind all others and after the last row come in at this gap, with an event, and answers its
    /// handle.
    #[inline(always)]
    fn come_in(&mut self, origin: u32, tag: Tag, input: u32, value: i64, gap: &Gap) -> NodeId
        requires room { HasRoom self.old }
        requires name { (m : Standing) × StandsFor self.old m × IsNameOf m.program origin tag }
        requires absent { node_of origin tag self.old.arena.places ≡ None }
        requires gap { IsGap origin tag self.old.arena.places gap.now }
        requires behind { IsBehindAll origin tag self.old.arena.places }
        requires later { is_after self.old.tip.last tag ≡ true }
        ensures changed { ChangedFrom (fresh origin tag) (with_event input value) self.old self.new origin tag }
        ensures entry { IsSome (entry_of result self.new.arena.places) }
        ensures room { self.new.arena.room ≡ self.old.arena.room }
    {
        finds_known(&self.arena, origin, tag);
        let event = Some((input, value));
        let new = self.arena.thread_in(origin, tag, event, gap);
        self.arena.ordered();
        if self.cursor.node().is_none() {
            self.cursor = self.arena.cursor_at(Some(new));
        }
        new
    }

    /// The handle of a name: one of which nothing is known comes in.
    #[inline(always)]
    fn node(&mut self, origin: u32, tag: Tag) -> NodeId
        requires room { HasRoom self.old }
        requires name { (m : Standing) × StandsFor self.old m × IsNameOf m.program origin tag }
        ensures names { NamesAt self.old self.new origin tag result }
        ensures room { self.new.arena.room ≡ self.old.arena.room }
    {
        finds_known(&self.arena, origin, tag);
        changes_found(&self.arena, origin, tag);
        changes_new(&self.arena, origin, tag);
        let known = self.arena.len();
        let node = self.arena.enter(origin, tag);
        if self.arena.len() == known {
            return node;
        }
        self.arena.ordered();
        if is_after(self.tip.last(), tag) {
            match self.cursor.node() {
                Some(cursor) if self.arena.entry(cursor).comes_before(origin, tag) => {}
                _ => self.cursor = self.arena.cursor_at(Some(node)),
            }
        }
        node
    }

    /// Goes back behind a tag after the floor at which the live events changed, if it is executed.
    fn undo_from(&mut self, node: NodeId, tag: Tag)
        requires named { IsSomeAnd (entry_of node self.old.arena.places) (λ e. e.tag ≡ tag) }
        requires tip { (P : Program) × (E : List Event) × (done : List Row) × HasExecuted P E self.old.tip done }
        requires ahead { is_after self.old.tip.floor tag ≡ true }
        ensures arena { self.new.arena ≡ self.old.arena }
        ensures latest { self.new.latest ≡ latest_with tag self.old.latest }
        ensures unsettled { self.new.settled ≡ false }
        ensures given { self.new.given ≡ self.old.given }
        ensures room { KeepsRoom self.old.tip self.new.tip }
        // A change after the last row leaves what is executed.
        ensures ahead { is_after self.old.tip.last tag ≡ true →
            self.new.tip ≡ record self.old.tip { aside = self.new.tip.aside } }
        ensures tip { (P : Program) (E : List Event) (done : List Row) → HasExecuted P E self.old.tip done →
            GoesBack P E tag done self.new.tip }
        ensures cursor { Reaches self.old.arena.places
            (ahead self.old.tip.last self.old.arena.places) self.old.cursor →
            Reaches self.new.arena.places (ahead self.new.tip.last self.new.arena.places) self.new.cursor }
        ensures floor { self.new.tip.floor ≡ self.old.tip.floor }
        ensures skips { IsCut tag self.old.skips self.new.skips }
    {
        self.skips.cut(&self.arena, node, tag);
        self.note_change(tag);
        if !is_after(self.tip.last(), tag) {
            self.go_back(node, tag);
        } else {
            self.tip.let_go_before(tag);
        }
    }

    /// Notes that the live events changed at this tag.
    #[inline(always)]
    fn note_change(&mut self, tag: Tag)
        ensures { self.new ≡ record self.old { latest = latest_with tag self.old.latest; settled = false } }
    {
        self.settled = false;
        if is_after(self.latest, tag) {
            self.latest = Some(tag);
        }
    }

    /// Goes back behind a tag after the floor that is executed, of which this is a place.
    #[inline(never)]
    fn go_back(&mut self, node: NodeId, tag: Tag)
        requires named { IsSomeAnd (entry_of node self.old.arena.places) (λ e. e.tag ≡ tag) }
        requires tip { (P : Program) × (E : List Event) × (done : List Row) × HasExecuted P E self.old.tip done }
        requires late { is_after self.old.tip.last tag ≡ false }
        requires ahead { is_after self.old.tip.floor tag ≡ true }
        ensures others { self.new ≡ record self.old { tip = self.new.tip; cursor = self.new.cursor } }
        ensures room { KeepsRoom self.old.tip self.new.tip }
        ensures tip { (P : Program) (E : List Event) (done : List Row) → HasExecuted P E self.old.tip done →
            GoesBack P E tag done self.new.tip }
        ensures cursor { Reaches self.new.arena.places (ahead self.new.tip.last self.new.arena.places) self.new.cursor }
        ensures floor { self.new.tip.floor ≡ self.old.tip.floor }
    {
        self.tip.go_back(tag);
        let start = self.skips.start(&self.arena, node, self.tip.last());
        let place = first_after(&self.arena, start, self.tip.last());
        self.cursor = self.arena.cursor_at(place);
    }
}
