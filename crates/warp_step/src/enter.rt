//! What a step enters into the pending entries: timers that repeat, wishes, and what links with a delay deliver.
ghost use Rattle.std.specs.Prelude.{◌≡◌, ◌<◌, ◌≤◌, IsTrue, length, map, nat_lt, pos, replicate, vec_capacity, List, []};
ghost use Rattle.std.specs.Prelude.{if◌then◌else◌, ◌-◌, drop};
ghost use Rattle.warp_step.specs.inner.Marks.{first_link};
ghost use Rattle.std.specs.List.{list_all};
ghost use Rattle.warp_tag.specs.Limits.{longest_period, widest};
ghost use Rattle.warp_body.specs.Presence.{places_of, present_at};
ghost use Rattle.warp_body.specs.declared.place.Target.TheVariants as to;
ghost use Rattle.warp_body.specs.Effect.{wish_fits};
ghost use Rattle.warp_step.specs.Program.{top_of};
ghost use Rattle.warp_step.specs.Valid.{link_fits, program_places, program_sizes};
ghost use Rattle.warp_step.specs.Snapshot.{landed};
ghost use Rattle.warp_step.specs.inner.Due.{AreDue};
ghost use Rattle.warp_step.specs.inner.Flagged.{AreOf};
ghost use Rattle.warp_step.specs.Step.{with_wish, with_wishes, with_all_wishes, with_links, delivered};
ghost use Rattle.warp_step.specs.inner.Plan.{plan_of};
ghost use Rattle.warp_step.specs.inner.Room.{lists_of};

use crate::marks::{Marks, first_link};
use crate::parts::{Link, Timer};
use crate::plan::Plan;
use crate::program::Program;
use crate::react::Wished;
use crate::state::State;
use warp_body::{Present, Target, Wish, Wishes};
use warp_tag::Tag;

impl State {
    /// Makes the timer with this number, which is present, pending again if it has a period.
    #[inline(always)]
    pub(crate) fn repeat_timer(&mut self, program: &Program, tag: Tag, number: u32, timer: &Timer)
        requires time { tag.time ≤ program.now.stop }
        requires microstep { tag.microstep ≤ top_of program.now }
        requires period { timer.now.period ≤ longest_period widest }
        ensures { self.new ≡ (if nat_lt 0 timer.now.period
            then landed program.now tag timer.now.period (to.Timer number) (pos 0) self.old
            else self.old) }
    {
        if timer.period > 0 {
            self.land(program, tag, timer.period, Target::Timer(number), 0);
        }
    }

    /// Enters the wishes of the reactions and empties their lists, then enters what links with a delay deliver.
    #[inline(always)]
    pub(crate) fn enter_later(
        &mut self,
        program: &Program,
        plan: &Plan,
        tag: Tag,
        due: Marks,
        present: &Present,
        wishes: &mut Vec<Wishes>,
        wished: Wished,
    )
        requires time { tag.time ≤ program.now.stop }
        requires microstep { tag.microstep ≤ top_of program.now }
        requires places { places_of present.now ≡ program_places program.now }
        requires plan { plan.now ≡ plan_of program.now }
        requires due { AreDue program.now present.now due.word }
        requires wishes { IsTrue (list_all (list_all (wish_fits (program_sizes program.now)))
            (lists_of wishes.old.items)) }
        requires none { AreOf wished (lists_of wishes.old.items) }
        ensures state { self.new ≡ with_links program.now tag present.now program.now.links
            (with_all_wishes program.now tag (lists_of wishes.old.items) self.old) }
        ensures none { lists_of wishes.new.items ≡ replicate (length wishes.old.items) [] }
        ensures room { vec_capacity wishes.new ≡ vec_capacity wishes.old }
    {
        self.enter_wishes(program, tag, wishes, wished);
        self.deliver(program, plan, tag, due, present);
    }

    /// Enters the wishes of the reactions and empties their lists. Mostly at most one reaction may have some.
    #[inline(always)]
    fn enter_wishes(
        &mut self,
        program: &Program,
        tag: Tag,
        wishes: &mut Vec<Wishes>,
        wished: Wished,
    )
        requires time { tag.time ≤ program.now.stop }
        requires microstep { tag.microstep ≤ top_of program.now }
        requires wishes { IsTrue (list_all (list_all (wish_fits (program_sizes program.now)))
            (lists_of wishes.old.items)) }
        requires none { AreOf wished (lists_of wishes.old.items) }
        ensures state { self.new ≡ with_all_wishes program.now tag (lists_of wishes.old.items) self.old }
        ensures none { lists_of wishes.new.items ≡ replicate (length wishes.old.items) [] }
        ensures room { vec_capacity wishes.new ≡ vec_capacity wishes.old }
    {
        if wished.count == 0 {
            return;
        }
        if wished.count == 1 {
            return self.enter_wish(program, tag, &mut wishes[wished.last]);
        }
        self.enter_lists(program, tag, wishes);
    }

    /// Enters the wishes of one reaction and empties its list. Mostly it has one.
    #[inline(always)]
    fn enter_wish(&mut self, program: &Program, tag: Tag, list: &mut Wishes)
        requires time { tag.time ≤ program.now.stop }
        requires microstep { tag.microstep ≤ top_of program.now }
        requires wishes { IsTrue (list_all (wish_fits (program_sizes program.now)) list.old.items) }
        ensures state { self.new ≡ with_wishes program.now tag list.old.items self.old }
        ensures none { list.new.items ≡ [] }
    {
        if list.len() == 1 {
            self.enter_one(program, tag, &list[0]);
            list.pop();
        } else if list.len() > 1 {
            self.enter_several(program, tag, list);
        }
    }

    /// Enters the wishes of one reaction, of which there are several, and empties its list.
    #[inline(never)]
    fn enter_several(&mut self, program: &Program, tag: Tag, list: &mut Wishes)
        requires time { tag.time ≤ program.now.stop }
        requires microstep { tag.microstep ≤ top_of program.now }
        requires wishes { IsTrue (list_all (wish_fits (program_sizes program.now)) list.old.items) }
        ensures state { self.new ≡ with_wishes program.now tag list.old.items self.old }
        ensures none { list.new.items ≡ [] }
    {
        self.enter_list(program, tag, list);
        list.clear();
    }

    /// Enters wishes in their order.
    #[inline(always)]
    fn enter_list(&mut self, program: &Program, tag: Tag, wishes: &[Wish])
        requires time { tag.time ≤ program.now.stop }
        requires microstep { tag.microstep ≤ top_of program.now }
        requires wishes { IsTrue (list_all (wish_fits (program_sizes program.now)) wishes.now) }
        ensures { self.new ≡ with_wishes program.now tag wishes.now self.old }
    {
        for wish in wishes {
            self.enter_one(program, tag, wish);
        }
    }

    /// Enters one wish: it lands after the action's minimum delay and its own.
    #[inline(always)]
    fn enter_one(&mut self, program: &Program, tag: Tag, wish: &Wish)
        requires time { tag.time ≤ program.now.stop }
        requires microstep { tag.microstep ≤ top_of program.now }
        requires wish { IsTrue (wish_fits (program_sizes program.now) wish.now) }
        ensures { self.new ≡ with_wish program.now tag wish.now self.old }
    {
        let delay = program.delay(wish.action) + wish.delay;
        self.land(program, tag, delay, Target::Action(wish.action), wish.value);
    }

    /// Enters the wishes of each reaction, in the order of the file, and empties its list.
    #[inline(never)]
    fn enter_lists(&mut self, program: &Program, tag: Tag, wishes: &mut [Wishes])
        requires time { tag.time ≤ program.now.stop }
        requires microstep { tag.microstep ≤ top_of program.now }
        requires wishes { IsTrue (list_all (list_all (wish_fits (program_sizes program.now))) (lists_of wishes.old)) }
        ensures state { self.new ≡ with_all_wishes program.now tag (lists_of wishes.old) self.old }
        ensures none { lists_of wishes.new ≡ replicate (length wishes.old) [] }
    {
        for list in wishes.iter_mut() {
            self.enter_wish(program, tag, list);
        }
    }

    /// Enters what each link with a delay delivers whose source is present. Where none is due it is one test.
    #[inline(always)]
    fn deliver(&mut self, program: &Program, plan: &Plan, tag: Tag, due: Marks, present: &Present)
        requires time { tag.time ≤ program.now.stop }
        requires microstep { tag.microstep ≤ top_of program.now }
        requires places { places_of present.now ≡ program_places program.now }
        requires plan { plan.now ≡ plan_of program.now }
        requires due { AreDue program.now present.now due.word }
        ensures { self.new ≡ with_links program.now tag present.now program.now.links self.old }
    {
        if due.meets(plan.links()) {
            self.deliver_due(program, tag, due, present);
        }
    }

    /// Enters what each link with a delay delivers that is due and whose source is present.
    #[inline(never)]
    fn deliver_due(&mut self, program: &Program, tag: Tag, due: Marks, present: &Present)
        requires time { tag.time ≤ program.now.stop }
        requires microstep { tag.microstep ≤ top_of program.now }
        requires places { places_of present.now ≡ program_places program.now }
        requires due { AreDue program.now present.now due.word }
        ensures { self.new ≡ with_links program.now tag present.now program.now.links self.old }
    {
        program.valid();
        let links = program.links();
        let first = first_link(program);
        let end = first + links.len();
        let mut mark = due.next(first);
        while mark < end {
            self.deliver_link(program, tag, present, &links[mark - first]);
            mark = due.after(mark);
        }
    }

    /// Enters what one link delivers, if it has a delay and its source is present.
    fn deliver_link(&mut self, program: &Program, tag: Tag, present: &Present, link: &Link)
        requires time { tag.time ≤ program.now.stop }
        requires microstep { tag.microstep ≤ top_of program.now }
        requires places { places_of present.now ≡ program_places program.now }
        requires link { IsTrue (link_fits program.now link.now) }
        ensures { self.new ≡
            delivered program.now tag link.now.target
            (present_at present.now (to.Port link.now.source)) link.now.delay self.old }
    {
        if let Some(delay) = link.delay
            && let Some(value) = present.get(Target::Port(link.source))
        {
            self.land(program, tag, delay, Target::Port(link.target), value);
        }
    }
}
