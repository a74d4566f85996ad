//! The reactions of a step, and the outputs that it puts.
ghost use Rattle.std.specs.Prelude.{◌≡◌, ℕ, ◌+◌, ◌≤◌, ◌<◌, ◌++◌, IsTrue, is_some, false, true, List, [], map};
ghost use Rattle.std.specs.Prelude.{length, slice_index_or, vec_len, vec_capacity, if◌then◌else◌};
ghost use Rattle.std.specs.List.{list_all, list_any};
ghost use Rattle.warp_tag.specs.Limits.{most_wishes};
ghost use Rattle.warp_body.specs.Presence.{Presence, places_of, present_at, target_fits};
ghost use Rattle.warp_body.specs.declared.place.Target.TheVariants as to;
ghost use Rattle.warp_body.specs.Effect.{body_fits, schedules_of, wish_fits};
ghost use Rattle.warp_body.specs.Term.{sizes_of};
ghost use Rattle.warp_step.specs.Program.{Program, Rule};
ghost use Rattle.warp_step.specs.Valid.{is_valid, program_places, program_sizes, rule_fits};
ghost use Rattle.warp_step.specs.inner.Due.{AreDue};
ghost use Rattle.warp_step.specs.inner.Flagged.{AreOf};
ghost use Rattle.warp_step.specs.inner.Marks.{most_marks, no_marks};
ghost use Rattle.warp_step.specs.inner.Plan.{marks_of_places, plan_of, ready_turn, turn_rule, with_ports};
ghost use Rattle.warp_step.specs.inner.Room.{lists_of};
ghost use Rattle.warp_step.specs.inner.TriggeredTurn.{IsTriggeredTurn};
ghost use Rattle.warp_step.specs.Step.{Reacting, after_reactions, is_triggered, no_wishes};
ghost use Rattle.warp_step.specs.Step.{outputs_from, react, sources_of, with_output};

use crate::marks::{Marks, first_output};
use crate::plan::{Plan, ReadyReaction};
use crate::program::Program;
use warp_body::{Present, Target, Vars, Wishes};
use warp_tag::{Out, Tag};

/// Who may have wishes: of how many reactions that ran the bodies schedule something, and the number of the last one.
#[derive(Clone, Copy)]
pub(crate) struct Wished {
    pub(crate) count: usize,
    pub(crate) last: usize,
}

impl Wished {
    /// Counts the reaction with this number, if it may have wishes.
    #[inline(always)]
    fn note(&mut self, may_wish: bool, number: usize)
        requires { self.old.count < most_marks }
        ensures { self.new ≡ (if may_wish then record { count = self.old.count + 1; last = number } else self.old) }
    {
        if may_wish {
            self.count += 1;
            self.last = number;
        }
    }
}

/// Whether one of the reaction's triggers is present. Where that is sure they are not looked at.
#[inline(always)]
fn triggered(is_known: bool, ready: &ReadyReaction, present: &Present) -> bool
    requires triggered_turn { is_known ≡ true → is_triggered (turn_rule (ready_turn ready.now)) present.now ≡ true }
    requires triggers { IsTrue (list_all (target_fits (places_of present.now)) (ready_turn ready.now).triggers) }
    ensures { result ≡ is_triggered (turn_rule (ready_turn ready.now)) present.now }
{
    if is_known {
        return true;
    }
    // Nearly always there is one, and a loop would cost more than it.
    match ready.triggers.as_slice() {
        [] => false,
        [first, rest @ ..] => is_present(*first, present) || is_one_present(rest, present),
    }
}

/// Whether the target is present.
#[inline(always)]
fn is_present(target: Target, present: &Present) -> bool
    requires { IsTrue (target_fits (places_of present.now) target) }
    ensures { result ≡ is_some (present_at present.now target) }
{
    // What is not sure is mostly a port that another reaction of the row put. One kind is a test, all are a jump by
    // table.
    match target {
        Target::Port(n) => present.get(Target::Port(n)).is_some(),
        _ => is_seldom_present(target, present),
    }
}

/// Whether the target is present.
#[inline(never)]
fn is_seldom_present(target: Target, present: &Present) -> bool
    requires { IsTrue (target_fits (places_of present.now) target) }
    ensures { result ≡ is_some (present_at present.now target) }
{
    present.get(target).is_some()
}

/// Whether one of the targets is present.
#[inline(never)]
fn is_one_present(targets: &[Target], present: &Present) -> bool
    requires { IsTrue (list_all (target_fits (places_of present.now)) targets.now) }
    ensures { result ≡ list_any (λ target. is_some (present_at present.now target)) targets.now }
{
    for target in targets {
        if present.get(*target).is_some() {
            return true;
        }
    }
    false
}

/// Runs a reaction if it is triggered, and says whether it may have wishes then. Whether it is may be sure before. Whom
/// what it writes concerns is due then.
#[inline(always)]
fn run_reaction(
    is_known: bool,
    ready: &ReadyReaction,
    due: &mut Marks,
    vars: &mut Vars,
    present: &mut Present,
    wishes: &mut Vec<Wishes>,
) -> bool
    requires number { (ready_turn ready.now).number < length wishes.old.items }
    requires triggered_turn { is_known ≡ true → is_triggered (turn_rule (ready_turn ready.now)) present.old ≡ true }
    requires triggers { IsTrue (list_all (target_fits (places_of present.old)) (ready_turn ready.now).triggers) }
    requires body { IsTrue (body_fits (sizes_of vars.old present.old) (ready_turn ready.now).body) }
    requires room { schedules_of (ready_turn ready.now).body ≤ most_wishes }
    requires none { slice_index_or (lists_of wishes.old.items) (ready_turn ready.now).number [] ≡ [] }
    requires wish { (ready_turn ready.now).may_wish ≡ false → schedules_of (ready_turn ready.now).body ≤ 0 }
    ensures effect { record { vars = vars.new; present = present.new; wishes = lists_of wishes.new.items }
        ≡ react (ready_turn ready.now).number (turn_rule (ready_turn ready.now)) (record {
          vars = vars.old;
          present = present.old;
          wishes = lists_of wishes.old.items;
        }) }
    ensures vars { length vars.new ≡ length vars.old }
    ensures places { places_of present.new ≡ places_of present.old }
    ensures sources { present.new.sources ≡ present.old.sources }
    ensures wishes { IsTrue (list_all (list_all (wish_fits (sizes_of vars.old present.old))) (lists_of wishes.old.items)) →
        IsTrue (list_all (list_all (wish_fits (sizes_of vars.old present.old))) (lists_of wishes.new.items)) }
    ensures bodies { length wishes.new.items ≡ length wishes.old.items }
    ensures room { vec_capacity wishes.new ≡ vec_capacity wishes.old }
    ensures none { result ≡ false → lists_of wishes.new.items ≡ lists_of wishes.old.items }
    ensures due { (P : Program) (rule : Rule) → IsTrue (is_valid P) → IsTrue (rule_fits P rule) →
        rule.body ≡ (ready_turn ready.now).body → present.old.sources ≡ sources_of P →
        (ready_turn ready.now).after ≡ with_ports (marks_of_places P) rule.writes no_marks →
        AreDue P present.old due.old.word → AreDue P present.new due.new.word }
{
    if triggered(is_known, ready, present) {
        due.add_all(ready.after);
        ready.code.run(vars, present, &mut wishes[ready.number]);
        return ready.may_wish;
    }
    false
}

/// Runs the reactions that are triggered, in the program's order, and says who may have wishes then. It looks
/// at those that are due, which all are that something present triggers, and tests them but the first one where that
/// is noted.
#[inline(always)]
pub(crate) fn run_reactions(
    program: &Program,
    plan: &Plan,
    due: &mut Marks,
    triggered_turn: usize,
    vars: &mut Vars,
    present: &mut Present,
    wishes: &mut Vec<Wishes>,
) -> Wished
    requires vars { length vars.old ≡ length program.now.variables }
    requires places { places_of present.old ≡ program_places program.now }
    requires wishes { lists_of wishes.old.items ≡ no_wishes program.now }
    requires plan { plan.now ≡ plan_of program.now }
    requires own { present.old.sources ≡ sources_of program.now }
    requires due { AreDue program.now present.old due.old.word }
    requires triggered_turn { IsTriggeredTurn program.now present.old triggered_turn }
    ensures effect { record { vars = vars.new; present = present.new; wishes = lists_of wishes.new.items }
        ≡ after_reactions program.now program.now.order (record {
          vars = vars.old;
          present = present.old;
          wishes = no_wishes program.now;
        }) }
    ensures vars { length vars.new ≡ length vars.old }
    ensures places { places_of present.new ≡ places_of present.old }
    ensures sources { present.new.sources ≡ present.old.sources }
    ensures wishes { IsTrue (list_all (list_all (wish_fits (program_sizes program.now))) (lists_of wishes.new.items)) }
    ensures bodies { length wishes.new.items ≡ length wishes.old.items }
    ensures room { vec_capacity wishes.new ≡ vec_capacity wishes.old }
    ensures none { AreOf result (lists_of wishes.new.items) }
    ensures due { AreDue program.now present.new due.new.word }
{
    program.valid();
    let mut wished = Wished { count: 0, last: 0 };
    let mut turn = due.next(0);
    let mut is_known = turn == triggered_turn;
    while turn < plan.turns() {
        let ready = plan.reaction(turn);
        let may_wish = run_reaction(is_known, ready, due, vars, present, wishes);
        wished.note(may_wish, ready.number);
        is_known = false;
        turn = due.after(turn);
    }
    wished
}

/// Appends an output for each program output that is present. Where none is due it is one test.
#[inline(always)]
pub(crate) fn put_outputs(
    program: &Program,
    plan: &Plan,
    tag: Tag,
    due: Marks,
    present: &Present,
    out: &mut Vec<Out>,
)
    requires places { places_of present.now ≡ program_places program.now }
    requires plan { plan.now ≡ plan_of program.now }
    requires due { AreDue program.now present.now due.word }
    requires room { vec_len out.old + length program.now.outputs ≤ vec_capacity out.old }
    ensures outputs { out.new.items ≡ out.old.items ++ outputs_from 0 tag present.now program.now.outputs }
    ensures capacity { vec_capacity out.new ≡ vec_capacity out.old }
{
    if due.meets(plan.outputs()) {
        put_some_outputs(program, tag, due, present, out);
    }
}

/// Appends an output for each program output that is present.
#[inline(always)]
fn put_some_outputs(program: &Program, tag: Tag, due: Marks, present: &Present, out: &mut Vec<Out>)
    requires places { places_of present.now ≡ program_places program.now }
    requires due { AreDue program.now present.now due.word }
    requires room { vec_len out.old + length program.now.outputs ≤ vec_capacity out.old }
    ensures outputs { out.new.items ≡ out.old.items ++ outputs_from 0 tag present.now program.now.outputs }
    ensures capacity { vec_capacity out.new ≡ vec_capacity out.old }
{
    program.valid();
    let ports = program.outputs();
    // Many programs have one, and to look at it costs less than to look whether it is due.
    if ports.len() == 1 {
        put_output(0, ports[0], tag, present, out);
    } else {
        put_due_outputs(program, tag, due, present, out);
    }
}

/// Appends an output for each program output that is present. It looks at those that are due.
#[inline(always)]
fn put_due_outputs(program: &Program, tag: Tag, due: Marks, present: &Present, out: &mut Vec<Out>)
    requires places { places_of present.now ≡ program_places program.now }
    requires due { AreDue program.now present.now due.word }
    requires room { vec_len out.old + length program.now.outputs ≤ vec_capacity out.old }
    ensures outputs { out.new.items ≡ out.old.items ++ outputs_from 0 tag present.now program.now.outputs }
    ensures capacity { vec_capacity out.new ≡ vec_capacity out.old }
{
    program.valid();
    let ports = program.outputs();
    let first = first_output(program);
    let end = first + ports.len();
    let mut mark = due.next(first);
    while mark < end {
        let number = mark - first;
        put_output(number as u32, ports[number], tag, present, out);
        mark = due.after(mark);
    }
}

/// Appends the output with this number if its port is present.
#[inline(always)]
fn put_output(number: u32, port: u32, tag: Tag, present: &Present, out: &mut Vec<Out>)
    requires port { port < length present.now.ports }
    requires room { vec_len out.old < vec_capacity out.old }
    ensures outputs { out.new.items ≡ out.old.items ++
        with_output number tag (present_at present.now (to.Port port)) [] }
    ensures len { vec_len out.new ≤ vec_len out.old + 1 }
    ensures capacity { vec_capacity out.new ≡ vec_capacity out.old }
{
    if let Some(value) = present.get(Target::Port(port)) {
        out.push_reserved(Out {
            tag,
            port: number,
            value,
        });
    }
}
