//! Whom the presence of a place concerns: a step looks only at those. And the bodies of reactions, ready to run.
ghost use Rattle.std.specs.Prelude.{◌≡◌, ◌+◌, ◌<◌, ◌≤◌, [], ◌∷◌, map, length, IfOk, slice_index_or};
ghost use Rattle.std.specs.Prelude.{false, if◌then◌else◌, IsTrue, nat_lt, ◌==◌};
ghost use Rattle.std.specs.List.{list_all};
ghost use Rattle.warp_tag.specs.Limits.{most_reactions, widest};
ghost use Rattle.warp_body.specs.declared.place.Target.{Target};
ghost use Rattle.warp_body.specs.declared.place.Target.TheVariants as to;
ghost use Rattle.warp_step.specs.inner.Marks.{first_link, first_output, marks_from, most_marks, no_marks, with_mark};
ghost use Rattle.warp_step.specs.inner.Plan.{first_flagged, first_heeding, heeded, heeded_in_turn, heeds, in_turn};
ghost use Rattle.warp_step.specs.inner.Plan.{is_numbered, link_heeds, marks_of, marks_of_places, most_places};
ghost use Rattle.warp_step.specs.inner.Plan.{numbered_place, output_heeds, place_number, place_numbers, place_of};
ghost use Rattle.warp_step.specs.inner.Plan.{plan_of, ready_turn, rule_numbered, shared_period, turn_plan};
ghost use Rattle.warp_step.specs.inner.Plan.{with_heeding, with_ports, with_watchers};
ghost use Rattle.warp_step.specs.Program.{rule_of};
ghost use Rattle.warp_step.specs.Step.{sources_of};
ghost use Rattle.warp_step.specs.Valid.{program_sizes};

use crate::marks::{Marks, first_link, first_output};
use crate::parts::{Link, Timer};
use crate::program::Program;
use crate::reaction::Reaction;
use std::alloc::Global;
use std::marker::Model;
use warp_body::{Code, Places, Sizes, Target, fits};
use warp_tag::OutOfMemory;

/// How many numbers places have.
const PLACE_COUNT: usize = 1_345;

/// The place by whose presence a target is present: of a port its source, else itself.
fn place_of(sources: &[u32], target: Target) -> Target
    ensures { result ≡ place_of sources.now target }
{
    match target {
        Target::Port(n) => Target::Port(sources.get(n as usize).copied().unwrap_or(n)),
        _ => target,
    }
}

/// Whether the place is that of one of the triggers.
fn heeds(triggers: &[Target], sources: &[u32], place: Target) -> bool
    ensures { result ≡ heeds sources.now triggers.now place }
{
    triggers
        .iter()
        .any(|trigger| place.is_same(place_of(sources, *trigger)))
}

/// Marks a number if the place is that of one of the triggers.
fn watch(marks: &mut Marks, number: usize, triggers: &[Target], sources: &[u32], place: Target)
    ensures { marks.new.word ≡
        (if heeds sources.now triggers.now place then with_mark number marks.old.word else marks.old.word) }
{
    if heeds(triggers, sources, place) {
        marks.add(number);
    }
}

/// The triggers of the reaction with this number.
fn triggers_of(reactions: &[Reaction], number: u32) -> &[Target]
    requires { number < length reactions.now }
    ensures { result.now ≡ (rule_numbered (map rule_of reactions.now) number).triggers }
{
    &reactions[number as usize].triggers
}

/// Which places are those of triggers, by the place's number. So a place asks each reaction once, however many triggers
/// it has.
fn heeded(alloc: Global, triggers: &[Target], sources: &[u32]) -> Result<Vec<bool>, OutOfMemory>
    requires { IsTrue (list_all (λ trigger. is_numbered (place_of sources.now trigger)) triggers.now) }
    ensures { IfOk result (λ flags. flags.items ≡ heeded sources.now triggers.now) }
{
    let mut flags = vec![in alloc; false; PLACE_COUNT]?;
    for trigger in triggers {
        flags[place_number(place_of(sources, *trigger))] = true;
    }
    Ok(flags)
}

/// Which places each reaction heeds, in the order in which a step runs them.
fn heeded_in_turn(
    alloc: Global,
    program: &Program,
    sources: &[u32],
) -> Result<Vec<Vec<bool>>, OutOfMemory>
    requires { sources.now ≡ sources_of program.now }
    ensures { IfOk result (λ flag_lists. map (λ flags. flags.items) flag_lists.items ≡ heeded_in_turn program.now) }
{
    program.valid();
    let mut flag_lists = Vec::with_capacity(alloc, program.order().len())?;
    for number in program.order() {
        let triggers = triggers_of(program.reactions(), *number);
        let flags = heeded(alloc, triggers, sources)?;
        flag_lists.push(flags)?;
    }
    Ok(flag_lists)
}

/// Whether the place with this number is heeded.
fn is_heeded(flags: &[bool], number: usize) -> bool
    ensures { result ≡ slice_index_or flags.now number false }
{
    flags.get(number).copied().unwrap_or(false)
}

/// Marks the turns of the reactions that heed the place with this number.
fn watch_reactions(marks: &mut Marks, flag_lists: &[Vec<bool>], number: usize)
    ensures { marks.new.word ≡ with_heeding number 0 (map (λ flags. flags.items) flag_lists.now) marks.old.word }
{
    for (turn, flags) in flag_lists.iter().enumerate() {
        if is_heeded(flags, number) {
            marks.add(turn);
        }
    }
}

/// Marks the links with a delay whose source's place this is.
fn watch_links(marks: &mut Marks, first: usize, links: &[Link], sources: &[u32], place: Target)
    requires { first + length links.now ≤ most_marks }
    ensures { marks.new.word ≡ with_watchers link_heeds first sources.now place 0 links.now marks.old.word }
{
    for (number, link) in links.iter().enumerate() {
        watch_link(marks, first, number, link, sources, place);
    }
}

/// Marks the link with this number if it has a delay, and the place is that of its source.
fn watch_link(
    marks: &mut Marks,
    first: usize,
    number: usize,
    link: &Link,
    sources: &[u32],
    place: Target,
)
    requires { first + number < most_marks }
    ensures { marks.new.word ≡ (if heeds sources.now (link_heeds number link.now) place
        then with_mark (first + number) marks.old.word
        else marks.old.word) }
{
    match link.delay {
        None => watch(marks, first + number, &[], sources, place),
        Some(_) => watch(
            marks,
            first + number,
            &[Target::Port(link.source)],
            sources,
            place,
        ),
    }
}

/// Marks the program outputs whose port's place this is.
fn watch_outputs(marks: &mut Marks, first: usize, ports: &[u32], sources: &[u32], place: Target)
    requires { first + length ports.now ≤ most_marks }
    ensures { marks.new.word ≡ with_watchers output_heeds first sources.now place 0 ports.now marks.old.word }
{
    for (number, port) in ports.iter().enumerate() {
        watch(
            marks,
            first + number,
            &[Target::Port(*port)],
            sources,
            place,
        );
    }
}

/// The marks of those whom the presence of the place with this number concerns.
fn marks_of(program: &Program, sources: &[u32], flag_lists: &[Vec<bool>], number: usize) -> Marks
    requires place { number < most_places }
    requires sources { sources.now ≡ sources_of program.now }
    requires flag_lists { map (λ flags. flags.items) flag_lists.now ≡ heeded_in_turn program.now }
    ensures { result.word ≡ marks_of program.now (numbered_place number) }
{
    program.valid();
    let place = numbered_place(number);
    let mut marks = Marks::none();
    watch_reactions(&mut marks, flag_lists, number);
    let first = first_link(program);
    watch_links(&mut marks, first, program.links(), sources, place);
    let first = first_output(program);
    watch_outputs(&mut marks, first, program.outputs(), sources, place);
    marks
}

/// The place with this number.
fn numbered_place(number: usize) -> Target
    requires { number < most_places }
    ensures { result ≡ numbered_place number }
{
    if number == 0 {
        Target::Startup
    } else if number < 65 {
        Target::Timer((number - 1) as u32)
    } else if number < 321 {
        Target::Action((number - 65) as u32)
    } else {
        Target::Port((number - 321) as u32)
    }
}

/// The number of a place: startup, then the timers, then the actions, then the ports.
#[inline(always)]
fn place_number(place: Target) -> usize
    ensures { result ≡ place_number place }
{
    match place {
        Target::Startup => 0,
        Target::Timer(n) => 1 + n as usize,
        Target::Action(n) => 65 + n as usize,
        Target::Port(n) => 321 + n as usize,
    }
}

/// Whom the presence of places concerns: their marks, and the turn of the first reaction that the place put last
/// triggers. Where it triggers none, no reaction has this turn: it is `NO_REACTION`, or how many reactions there are.
#[derive(Clone, Copy)]
pub(crate) struct Concerned {
    pub(crate) marks: Marks,
    pub(crate) first: usize,
}

/// A turn that no reaction has.
pub(crate) const NO_REACTION: usize = usize::MAX;

impl Concerned {
    /// Nobody.
    #[inline(always)]
    pub fn none() -> Concerned
        ensures marks { result.marks.word ≡ no_marks }
        ensures first { most_reactions widest ≤ result.first }
    {
        Concerned {
            marks: Marks::none(),
            first: NO_REACTION,
        }
    }
}

/// The turn of the first reaction that heeds the place with this number, else how many reactions there are.
fn first_heeding(flag_lists: &[Vec<bool>], number: usize) -> usize
    ensures { result ≡ first_flagged number 0 (map (λ flags. flags.items) flag_lists.now) }
{
    for (turn, flags) in flag_lists.iter().enumerate() {
        if is_heeded(flags, number) {
            return turn;
        }
    }
    flag_lists.len()
}

/// Whom the place with this number concerns.
fn of_place(
    program: &Program,
    sources: &[u32],
    flag_lists: &[Vec<bool>],
    number: usize,
) -> Concerned
    requires place { number < most_places }
    requires sources { sources.now ≡ sources_of program.now }
    requires flag_lists { map (λ flags. flags.items) flag_lists.now ≡ heeded_in_turn program.now }
    ensures marks { result.marks.word ≡ marks_of program.now (numbered_place number) }
    ensures first { result.first ≡
        first_heeding (sources_of program.now) (numbered_place number) 0 (in_turn program.now) }
{
    Concerned {
        marks: marks_of(program, sources, flag_lists, number),
        first: first_heeding(flag_lists, number),
    }
}

/// Whom each place concerns, by its number.
fn of_places(
    alloc: Global,
    program: &Program,
    sources: &[u32],
) -> Result<Vec<Concerned>, OutOfMemory>
    requires { sources.now ≡ sources_of program.now }
    ensures marks { IfOk result (λ all. map (λ one. one.marks.word) all.items ≡ marks_of_places program.now) }
    ensures firsts { IfOk result (λ all. map (λ one. one.first) all.items
        ≡ map (λ n. first_heeding (sources_of program.now) (numbered_place n) 0 (in_turn program.now)) place_numbers) }
{
    let flag_lists = heeded_in_turn(alloc, program, sources)?;
    let mut all = Vec::with_capacity(alloc, PLACE_COUNT)?;
    for number in 0..PLACE_COUNT {
        all.push(of_place(program, sources, &flag_lists, number))?;
    }
    Ok(all)
}

/// The marks of those whom the ports among these targets concern.
fn marks_of_ports(places: &[Concerned], targets: &[Target]) -> Marks
    requires { IsTrue (list_all (λ target. nat_lt (place_number target) (length places.now)) targets.now) }
    ensures { result.word ≡ with_ports (map (λ one. one.marks.word) places.now) targets.now no_marks }
{
    let mut marks = Marks::none();
    for target in targets {
        if let Target::Port(_) = *target {
            marks.add_all(places[place_number(*target)].marks);
        }
    }
    marks
}

/// A reaction, ready to run: its number in the file, its triggers, its body, the marks of those whom what it writes
/// concerns, and whether it may have wishes, as its body schedules something.
#[derive(Drop)]
pub(crate) struct ReadyReaction {
    pub(crate) number: usize,
    pub(crate) triggers: Vec<Target>,
    pub(crate) code: Code,
    pub(crate) after: Marks,
    pub(crate) may_wish: bool,
}

/// How much there is of what the bodies of a program name.
fn sizes(program: &Program) -> Sizes
    ensures { result ≡ program_sizes program.now }
{
    Sizes {
        vars: program.variables().len(),
        places: Places {
            timers: program.timers().len(),
            actions: program.actions().len(),
            ports: program.ports().len(),
        },
    }
}

/// The reaction with this number, ready to run.
fn ready_reaction(
    alloc: Global,
    program: &Program,
    places: &[Concerned],
    number: usize,
) -> Result<ReadyReaction, OutOfMemory>
    requires number { number < length program.now.reactions }
    requires places { map (λ one. one.marks.word) places.now ≡ marks_of_places program.now }
    ensures { IfOk result (λ ready. ready_turn ready ≡ turn_plan program.now number) }
{
    program.valid();
    let reaction = &program.reactions()[number];
    let triggers = reaction.triggers.as_slice().to_vec(alloc)?;
    let code = Code::new(alloc, &reaction.body)?;
    let after = marks_of_ports(places, &reaction.writes);
    let may_wish = !fits(&reaction.body, sizes(program), 0);
    Ok(ReadyReaction {
        number,
        triggers,
        code,
        after,
        may_wish,
    })
}

/// The reactions of a program, ready to run, in the order in which a step runs them.
fn of_turns(
    alloc: Global,
    program: &Program,
    places: &[Concerned],
) -> Result<Vec<ReadyReaction>, OutOfMemory>
    requires { map (λ one. one.marks.word) places.now ≡ marks_of_places program.now }
    ensures { IfOk result (λ all. map ready_turn all.items ≡ map (turn_plan program.now) program.now.order) }
{
    program.valid();
    let mut all = Vec::with_capacity(alloc, program.order().len())?;
    for number in program.order() {
        let ready = ready_reaction(alloc, program, places, *number as usize)?;
        all.push(ready)?;
    }
    Ok(all)
}

/// Whom each place of a program concerns, by the place's number; the reactions, ready to run, in the order in which a
/// step runs them; the marks of all program outputs and of all links; and the period that all timers share.
#[derive(Drop)]
pub(crate) struct Plan {
    places: Vec<Concerned>,
    turns: Vec<ReadyReaction>,
    outputs: Marks,
    links: Marks,
    /// The period of all timers, 0 where they have not all the same.
    period: u64,
}

impl Model for Plan {
    ghost use Rattle.std.specs.Prelude.{map};
    ghost use Rattle.warp_step.specs.inner.Plan as specs;
    ghost use Rattle.warp_step.specs.inner.Plan.{plan_code, ready_turn};

    ghost Value = { specs.Plan };

    ghost coded = { plan_code };

    ghost view = { λ p. record {
      places = map (λ one. one.marks.word) p.places.items;
      firsts = map (λ one. one.first) p.places.items;
      turns = map ready_turn p.turns.items;
      outputs = p.outputs.word;
      links = p.links.word;
      period = p.period;
    } };
}

impl Plan {
    /// The plan of a program whose ports have these sources.
    pub fn new(alloc: Global, program: &Program, sources: &[u32]) -> Result<Plan, OutOfMemory>
        requires { sources.now ≡ sources_of program.now }
        ensures { IfOk result (λ plan. plan ≡ plan_of program.now) }
    {
        let places = of_places(alloc, program, sources)?;
        let turns = of_turns(alloc, program, &places)?;
        Ok(Plan {
            places,
            turns,
            outputs: all_outputs(program),
            links: all_links(program),
            period: shared_period(program.timers()),
        })
    }

    /// Those whom a place concerns.
    #[inline(always)]
    pub fn concerned(&self, place: Target) -> Concerned
        requires { place_number place < length self.now.places }
        ensures marks { result.marks.word ≡ slice_index_or self.now.places (place_number place) 0 }
        ensures first { result.first ≡ slice_index_or self.now.firsts (place_number place) 0 }
    {
        self.places[place_number(place)]
    }

    /// How many turns there are.
    #[inline(always)]
    pub fn turns(&self) -> usize
        ensures { result ≡ length self.now.turns }
    {
        self.turns.len()
    }

    /// The reaction that has this turn.
    #[inline(always)]
    pub fn reaction(&self, turn: usize) -> &ReadyReaction
        requires { turn < length self.now.turns }
        ensures { ready_turn result.now ≡ slice_index_or self.now.turns turn (ready_turn result.now) }
    {
        &self.turns[turn]
    }

    /// The marks of all program outputs.
    #[inline(always)]
    pub fn outputs(&self) -> Marks
        ensures { result.word ≡ self.now.outputs }
    {
        self.outputs
    }

    /// The marks of all links.
    #[inline(always)]
    pub fn links(&self) -> Marks
        ensures { result.word ≡ self.now.links }
    {
        self.links
    }

    /// The period that all timers share, 0 where they share none.
    #[inline(always)]
    pub fn period(&self) -> u64
        ensures { result ≡ self.now.period }
    {
        self.period
    }
}

/// The period of these timers if all have the same, else 0.
fn shared_period(timers: &[Timer]) -> u64
    ensures { result ≡ shared_period timers.now }
{
    match timers {
        [] => 0,
        [first, rest @ ..] => {
            if have_period(rest, first.period) {
                first.period
            } else {
                0
            }
        }
    }
}

/// Whether these timers all have this period.
fn have_period(timers: &[Timer], period: u64) -> bool
    ensures { result ≡ list_all (λ t. t.period == period) timers.now }
{
    timers.iter().all(|timer| timer.period == period)
}

/// The marks of all program outputs.
fn all_outputs(program: &Program) -> Marks
    ensures { result.word ≡ marks_from (first_output program.now) (length program.now.outputs) }
{
    Marks::range(first_output(program), program.outputs().len())
}

/// The marks of all links of a program.
fn all_links(program: &Program) -> Marks
    ensures { result.word ≡ marks_from (first_link program.now) (length program.now.links) }
{
    Marks::range(first_link(program), program.links().len())
}
