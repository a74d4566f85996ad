//! What is present at a tag before the reactions run: the entries that are pending there, and what is given. Those
//! timers among the entries that have a period are made pending again.
ghost use Rattle.std.specs.Prelude.{◌≡◌, ◌<◌, ◌≤◌, ◌∷◌, IsTrue, List, false, not};
ghost use Rattle.std.specs.Prelude.{length, map, take, drop, filter, slice_get};
ghost use Rattle.std.specs.Option.{option_map_or};
ghost use Rattle.std.specs.List.{list_all};
ghost use Rattle.warp_tag.specs.Moment.{is_before, is_same};
ghost use Rattle.warp_body.specs.Presence.{places_of, target_fits, with_value};
ghost use Rattle.warp_step.specs.Program.{top_of};
ghost use Rattle.warp_step.specs.Valid.{program_places};
ghost use Rattle.warp_step.specs.Snapshot.{AreInOrder, IsStateOf};
ghost use Rattle.warp_step.specs.Step.{AreInputs, absent, arrived, arrived_entries, sources_of, with_repeats};
ghost use Rattle.warp_step.specs.inner.Plan.{plan_of, shared_period};
ghost use Rattle.warp_step.specs.Step.{without_entries};
ghost use Rattle.warp_step.specs.inner.Due.{AreDue};
ghost use Rattle.warp_step.specs.inner.Again.{again, again_each};
ghost use Rattle.warp_step.specs.inner.Taken.{SoFar};
ghost use Rattle.warp_tag.specs.Landing.{landing};
ghost use Rattle.warp_tag.specs.declared.tag.Landing.TheVariants.{At};
ghost use Rattle.warp_tag.specs.Limits.{most_pending};
ghost use Rattle.warp_step.specs.declared.pending.Waiting.{Waiting};
ghost use Rattle.warp_step.specs.inner.TriggeredTurn.{IsTriggeredTurn};

use crate::entries::MOST_PENDING;
use crate::given_input::Given;
use crate::marks::Marks;
use crate::pending::Waiting;
use crate::plan::{Concerned, NO_REACTION, Plan};
use crate::program::Program;
use crate::state::State;
use warp_body::{Present, Target};
use warp_tag::{Landing, Tag};

impl State {
    /// Makes the targets of the entries at the tag present, takes these entries out, and makes the timers among them
    /// that have a period pending again. Answers whom they concern. Mostly there is one entry at the tag or none.
    #[inline(always)]
    pub(crate) fn take_entries(
        &mut self,
        program: &Program,
        plan: &Plan,
        tag: Tag,
        present: &mut Present,
    ) -> Concerned
        requires state { IsStateOf program.now self.old }
        requires time { tag.time ≤ program.now.stop }
        requires microstep { tag.microstep ≤ top_of program.now }
        requires none_before { IsTrue (list_all (λ w. not (is_before w.tag tag)) self.old.pending) }
        requires plan { plan.now ≡ plan_of program.now }
        requires absent { present.old ≡ absent program.now tag }
        ensures state { self.new ≡
            with_repeats program.now tag present.new 0 program.now.timers (without_entries tag self.old) }
        ensures present { present.new ≡
            arrived_entries (filter (λ w. is_same w.tag tag) self.old.pending) (absent program.now tag) }
        ensures places { places_of present.new ≡ places_of present.old }
        ensures sources { present.new.sources ≡ present.old.sources }
        ensures due { AreDue program.now present.new result.marks.word }
        ensures triggered_turn { IsTriggeredTurn program.now present.new result.first }
    {
        program.valid();
        if !is_at(self.pending.as_slice(), 0, tag) {
            return Concerned::none();
        }
        if is_at(self.pending.as_slice(), 1, tag) {
            return self.take_several(program, plan, tag, present);
        }
        self.take_one(program, plan, tag, present)
    }

    /// Makes the target of the first entry present, which alone is at the tag, takes the entry out, and makes its
    /// target pending again if it is a timer with a period. Answers whom it concerns.
    #[inline(always)]
    fn take_one(
        &mut self,
        program: &Program,
        plan: &Plan,
        tag: Tag,
        present: &mut Present,
    ) -> Concerned
        requires state { IsStateOf program.now self.old }
        requires time { tag.time ≤ program.now.stop }
        requires microstep { tag.microstep ≤ top_of program.now }
        requires some { 0 < length self.old.pending }
        requires plan { plan.now ≡ plan_of program.now }
        requires absent { present.old ≡ absent program.now tag }
        ensures state { self.new ≡ with_repeats program.now tag present.new 0 program.now.timers
            (record self.old { pending = drop 1 self.old.pending }) }
        ensures present { present.new ≡ arrived_entries (take 1 self.old.pending) (absent program.now tag) }
        ensures places { places_of present.new ≡ places_of present.old }
        ensures sources { present.new.sources ≡ present.old.sources }
        ensures due { AreDue program.now present.new result.marks.word }
        ensures triggered_turn { IsTriggeredTurn program.now present.new result.first }
    {
        program.valid();
        let mut due = Marks::none();
        let mut triggered_turn = NO_REACTION;
        self.take_first(program, plan, &mut due, &mut triggered_turn, tag, present);
        Concerned {
            marks: due,
            first: triggered_turn,
        }
    }

    /// Makes the targets of the entries at the tag present, takes these entries out, and makes the timers among them
    /// that have a period pending again. Answers whom they concern.
    #[inline(never)]
    fn take_several(
        &mut self,
        program: &Program,
        plan: &Plan,
        tag: Tag,
        present: &mut Present,
    ) -> Concerned
        requires state { IsStateOf program.now self.old }
        requires time { tag.time ≤ program.now.stop }
        requires microstep { tag.microstep ≤ top_of program.now }
        requires some { 0 < length self.old.pending }
        requires none_before { IsTrue (list_all (λ w. not (is_before w.tag tag)) self.old.pending) }
        requires plan { plan.now ≡ plan_of program.now }
        requires absent { present.old ≡ absent program.now tag }
        ensures state { self.new ≡
            with_repeats program.now tag present.new 0 program.now.timers (without_entries tag self.old) }
        ensures present { present.new ≡
            arrived_entries (filter (λ w. is_same w.tag tag) self.old.pending) (absent program.now tag) }
        ensures places { places_of present.new ≡ places_of present.old }
        ensures sources { present.new.sources ≡ present.old.sources }
        ensures due { AreDue program.now present.new result.marks.word }
        ensures triggered_turn { IsTriggeredTurn program.now present.new result.first }
    {
        program.valid();
        let mut due = Marks::none();
        let mut triggered_turn = NO_REACTION;
        self.take_each(program, plan, &mut due, &mut triggered_turn, tag, present);
        Concerned {
            marks: due,
            first: triggered_turn,
        }
    }

    /// Makes the targets of the entries at the tag present, one after another, takes these entries out, and makes the
    /// timers among them that have a period pending again. Whom they concern is due, and the first reaction that the
    /// last one triggers is noted.
    #[inline(always)]
    fn take_each(
        &mut self,
        program: &Program,
        plan: &Plan,
        due: &mut Marks,
        triggered_turn: &mut usize,
        tag: Tag,
        present: &mut Present,
    )
        requires state { IsStateOf program.now self.old }
        requires time { tag.time ≤ program.now.stop }
        requires microstep { tag.microstep ≤ top_of program.now }
        requires some { 0 < length self.old.pending }
        requires places { places_of present.old ≡ program_places program.now }
        requires none_before { IsTrue (list_all (λ w. not (is_before w.tag tag)) self.old.pending) }
        requires plan { plan.now ≡ plan_of program.now }
        requires own { present.old.sources ≡ sources_of program.now }
        ensures state { self.new ≡ again_each program.now tag
            (map (λ w. w.target) (filter (λ w. is_same w.tag tag) self.old.pending)) (without_entries tag self.old) }
        ensures order { AreInOrder self.old.pending }
        ensures present { present.new ≡ arrived_entries (filter (λ w. is_same w.tag tag) self.old.pending) present.old }
        ensures places { places_of present.new ≡ places_of present.old }
        ensures sources { present.new.sources ≡ present.old.sources }
        ensures due { AreDue program.now present.old due.old.word → AreDue program.now present.new due.new.word }
        ensures triggered_turn { IsTriggeredTurn program.now present.old triggered_turn.old →
            IsTriggeredTurn program.now present.new triggered_turn.new }
    {
        // A look at the entries shows how many there are at most.
        let _most = self.pending.len();
        let count = self.take_alike(program, plan, due, triggered_turn, tag, present);
        for _ in 0..MOST_PENDING {
            if !is_at(self.pending.as_slice(), 0, tag) {
                return;
            }
            self.take_first(program, plan, due, triggered_turn, tag, present);
        }
    }

    /// Takes the first entries out that are timers, if all timers share a period and these land behind all entries:
    /// makes them present and pending again. Answers how many they are. Whom they concern is due, and the first
    /// reaction that the last one triggers is noted.
    #[inline(always)]
    fn take_alike(
        &mut self,
        program: &Program,
        plan: &Plan,
        due: &mut Marks,
        triggered_turn: &mut usize,
        tag: Tag,
        present: &mut Present,
    ) -> usize
        requires state { IsStateOf program.now self.old }
        requires time { tag.time ≤ program.now.stop }
        requires microstep { tag.microstep ≤ top_of program.now }
        requires some { 0 < length self.old.pending }
        requires places { places_of present.old ≡ program_places program.now }
        requires none_before { IsTrue (list_all (λ w. not (is_before w.tag tag)) self.old.pending) }
        requires plan { plan.now ≡ plan_of program.now }
        requires own { present.old.sources ≡ sources_of program.now }
        ensures so_far { SoFar program.now tag self.old result self.new present.old present.new }
        ensures places { places_of present.new ≡ places_of present.old }
        ensures sources { present.new.sources ≡ present.old.sources }
        ensures due { AreDue program.now present.old due.old.word → AreDue program.now present.new due.new.word }
        ensures triggered_turn { IsTriggeredTurn program.now present.old triggered_turn.old →
            IsTriggeredTurn program.now present.new triggered_turn.new }
    {
        program.valid();
        // A look at the entries shows that they are in order.
        let _count = self.pending.len();
        let period = plan.period();
        if period == 0 {
            return 0;
        }
        match tag.after(period, program.stop(), program.top()) {
            Landing::At(later) => {
                self.take_until(
                    program,
                    plan,
                    due,
                    triggered_turn,
                    tag,
                    period,
                    later,
                    present,
                )
            }
            _ => 0,
        }
    }

    /// Takes the first entries out that have this period, if all entries are before where they land: makes them present
    /// and pending again. Answers how many they are. Whom they concern is due, and the first reaction that the last one
    /// triggers is noted.
    #[inline(always)]
    fn take_until(
        &mut self,
        program: &Program,
        plan: &Plan,
        due: &mut Marks,
        triggered_turn: &mut usize,
        tag: Tag,
        period: u64,
        later: Tag,
        present: &mut Present,
    ) -> usize
        requires state { IsStateOf program.now self.old }
        requires some { 0 < length self.old.pending }
        requires period { 0 < period }
        requires shared { period ≡ shared_period program.now.timers }
        requires lands { landing program.now.stop (top_of program.now) tag period ≡ At later }
        requires places { places_of present.old ≡ program_places program.now }
        requires none_before { IsTrue (list_all (λ w. not (is_before w.tag tag)) self.old.pending) }
        requires plan { plan.now ≡ plan_of program.now }
        requires own { present.old.sources ≡ sources_of program.now }
        ensures so_far { SoFar program.now tag self.old result self.new present.old present.new }
        ensures places { places_of present.new ≡ places_of present.old }
        ensures sources { present.new.sources ≡ present.old.sources }
        ensures due { AreDue program.now present.old due.old.word → AreDue program.now present.new due.new.word }
        ensures triggered_turn { IsTriggeredTurn program.now present.old triggered_turn.old →
            IsTriggeredTurn program.now present.new triggered_turn.new }
    {
        if !self.pending.last().tag.is_before(later) {
            return 0;
        }
        self.pending.take_alike(
            program,
            plan,
            due,
            triggered_turn,
            tag,
            period,
            later,
            present,
        )
    }

    /// Makes the target of the first entry present, takes the entry out, and makes its target pending again if it is a
    /// timer with a period. Whom it concerns is due, and the first reaction that it triggers is noted.
    #[inline(always)]
    fn take_first(
        &mut self,
        program: &Program,
        plan: &Plan,
        due: &mut Marks,
        triggered_turn: &mut usize,
        tag: Tag,
        present: &mut Present,
    )
        requires time { tag.time ≤ program.now.stop }
        requires microstep { tag.microstep ≤ top_of program.now }
        requires some { 0 < length self.old.pending }
        requires targets { IsTrue (list_all (λ w. target_fits (program_places program.now) w.target)
            (take 1 self.old.pending)) }
        requires places { places_of present.old ≡ program_places program.now }
        requires plan { plan.now ≡ plan_of program.now }
        requires own { present.old.sources ≡ sources_of program.now }
        ensures state { (first : Waiting) × (self.old.pending ≡ first ∷ drop 1 self.old.pending)
            × (self.new ≡ again program.now tag first.target (record self.old { pending = drop 1 self.old.pending }))
            × (present.new ≡ with_value first.target first.value present.old) }
        ensures few { length self.old.pending ≤ most_pending }
        ensures places { places_of present.new ≡ places_of present.old }
        ensures sources { present.new.sources ≡ present.old.sources }
        ensures due { AreDue program.now present.old due.old.word → AreDue program.now present.new due.new.word }
        ensures triggered_turn { IsTriggeredTurn program.now present.new triggered_turn.new }
    {
        let first = self.pending.as_slice()[0];
        self.pending.drop_front(1);
        self.arrive_next(program, plan, due, triggered_turn, tag, present, first);
    }

    /// Makes the target of an entry present, and pending again if it is a timer with a period. Whom it concerns is due,
    /// and the first reaction that it triggers is noted.
    #[inline(always)]
    fn arrive_next(
        &mut self,
        program: &Program,
        plan: &Plan,
        due: &mut Marks,
        triggered_turn: &mut usize,
        tag: Tag,
        present: &mut Present,
        entry: Waiting,
    )
        requires time { tag.time ≤ program.now.stop }
        requires microstep { tag.microstep ≤ top_of program.now }
        requires target { IsTrue (target_fits (program_places program.now) entry.target) }
        requires places { places_of present.old ≡ program_places program.now }
        requires plan { plan.now ≡ plan_of program.now }
        requires own { present.old.sources ≡ sources_of program.now }
        ensures state { self.new ≡ again program.now tag entry.target self.old }
        ensures present { present.new ≡ with_value entry.target entry.value present.old }
        ensures places { places_of present.new ≡ places_of present.old }
        ensures sources { present.new.sources ≡ present.old.sources }
        ensures due { AreDue program.now present.old due.old.word → AreDue program.now present.new due.new.word }
        ensures triggered_turn { IsTriggeredTurn program.now present.new triggered_turn.new }
    {
        program.valid();
        // A timer is what is mostly pending: where its kind is known, nothing asks for it again.
        match entry.target {
            Target::Timer(n) => {
                put(
                    program,
                    plan,
                    due,
                    triggered_turn,
                    present,
                    Target::Timer(n),
                    entry.value,
                );
                self.repeat_timer(program, tag, n, &program.timers()[n as usize]);
            }
            _ => put(
                program,
                plan,
                due,
                triggered_turn,
                present,
                entry.target,
                entry.value,
            ),
        }
    }
}

/// Whether the entry at an index is there and at the tag.
#[inline(always)]
fn is_at(entries: &[Waiting], index: usize, tag: Tag) -> bool
    ensures { result ≡ option_map_or (λ w. is_same w.tag tag) (slice_get entries.now index) false }
{
    match entries.get(index) {
        Some(entry) => entry.tag.is_same(tag),
        None => false,
    }
}

/// Makes a target present with a value. Whom it concerns is due, and the first reaction that it triggers is noted.
#[inline(always)]
pub(crate) fn put(
    program: &Program,
    plan: &Plan,
    due: &mut Marks,
    triggered_turn: &mut usize,
    present: &mut Present,
    target: Target,
    value: i64,
)
    requires plan { plan.now ≡ plan_of program.now }
    requires places { places_of present.old ≡ program_places program.now }
    requires own { present.old.sources ≡ sources_of program.now }
    requires target { IsTrue (target_fits (places_of present.old) target) }
    ensures value { present.new ≡ with_value target value present.old }
    ensures places { places_of present.new ≡ places_of present.old }
    ensures sources { present.new.sources ≡ present.old.sources }
    ensures due { AreDue program.now present.old due.old.word → AreDue program.now present.new due.new.word }
    ensures triggered_turn { IsTriggeredTurn program.now present.new triggered_turn.new }
{
    program.valid();
    present.put(target, value);
    let concerned = plan.concerned(target);
    due.add_all(concerned.marks);
    *triggered_turn = concerned.first;
}

/// Makes the ports of the given inputs present. Whom they concern is due, and the first reaction that the last one
/// triggers is noted.
#[inline(always)]
pub(crate) fn arrive(
    program: &Program,
    plan: &Plan,
    due: &mut Marks,
    triggered_turn: &mut usize,
    given: &[Given],
    present: &mut Present,
)
    requires plan { plan.now ≡ plan_of program.now }
    requires own { present.old.sources ≡ sources_of program.now }
    requires inputs { AreInputs program.now given.now }
    requires places { places_of present.old ≡ program_places program.now }
    ensures present { present.new ≡ arrived program.now given.now present.old }
    ensures places { places_of present.new ≡ places_of present.old }
    ensures sources { present.new.sources ≡ present.old.sources }
    ensures due { AreDue program.now present.old due.old.word → AreDue program.now present.new due.new.word }
    ensures triggered_turn { IsTriggeredTurn program.now present.old triggered_turn.old →
        IsTriggeredTurn program.now present.new triggered_turn.new }
{
    for g in given {
        let port = Target::Port(program.port(g.input));
        put(program, plan, due, triggered_turn, present, port, g.value);
    }
}
