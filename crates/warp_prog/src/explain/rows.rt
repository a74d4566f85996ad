//! What is told beforehand of a program that may make very many rows or outputs by itself.
ghost use Rattle.std.specs.Prelude.{◌≡◌, ◌++◌, [], Bool, IfOk, OnOk, codes, string_bytes};
ghost use Rattle.std.specs.Prelude.{if◌then◌else◌};
ghost use Rattle.warp_prog.specs.OwnRows.{many_text, own_outputs, round_text, warning_text, work_text};

use crate::due::own_rows;
use crate::limits::work::Work;
use std::alloc::{AllocError, Global};
use warp_body::{Stmt, Target};
use warp_step::{Action, Link, Program};
use warp_tag::Form;

/// A program that makes more rows or outputs than these by itself is warned of.
const MANY: u64 = 1_000_000;

const MANY_ROWS: &str = "\
warning: startup and timers make more than 1,000,000 rows, which the first query has to wait for\n";

const MANY_OUTPUTS: &str = "\
warning: startup and timers may make more than 1,000,000 outputs, which the first query has to wait for\n";

/// A program of version 4 whose timers walk more nodes than these by themselves is warned of: on a slow machine that is ten
/// seconds.
const MANY_NODES: u64 = 1_000_000_000;

const LONG_WORK: &str = "\
warning: what startup and timers make may be more work than 1,000,000,000, for which the first query has to wait\n";

const ROUND: &str = "\
warning: one time may have a row at each microstep: actions or links lead round without delay\n";

/// How many outputs a program puts at most in the rows that it makes by itself: as many in each as it has. By its form
/// these are at most 64,000,064, 640,000,064, 1,000,000,000 or 4,000,000,000.
#[tactic(auto, using(crate::proofs::OwnLemmas::few_outputs))]
pub(crate) fn own_outputs(program: &Program) -> u64
    ensures { result ≡ own_outputs program.now }
{
    program.valid();
    own_rows(program) * program.outputs().len() as u64
}

/// Warnings, a line each: of a program that makes more than 1,000,000 rows by itself, or outputs in them; and of one in
/// which an action or a port leads back to itself without a delay, so that one time may have a row at each microstep.
/// And of one of version 4 whose reactions are so much work that these rows may take ten seconds. None for any other.
///
/// # Errors
///
/// Only where a growth was refused.
pub fn rows_warning(alloc: Global, program: &Program, work: &Work) -> Result<String, AllocError>
    ensures { IfOk result (λ text. (goes_round : Bool)
        × (string_bytes text ≡ warning_text program.now work.now.all goes_round)) }
{
    let mut text = String::new(alloc);
    let goes_round = leads_round(alloc, program)?;
    text.push_str(many_warning(program))?;
    text.push_str(work_warning(program, work.all))?;
    text.push_str(round_warning(goes_round))?;
    Ok(text)
}

/// The warning of many rows, or else of many outputs; empty where neither are many.
fn many_warning(program: &Program) -> &'static str
    ensures { result.now ≡ many_text program.now }
{
    if own_rows(program) > MANY {
        return MANY_ROWS;
    }
    if own_outputs(program) > MANY {
        MANY_OUTPUTS
    } else {
        ""
    }
}

/// The warning of a program of version 4 whose rows by itself may be so much work; empty for any other.
fn work_warning(program: &Program, work: u64) -> &'static str
    ensures { result.now ≡ work_text program.now work }
{
    match program.form() {
        Form::One | Form::Two | Form::Three => "",
        Form::Four => if own_rows(program).saturating_mul(work) > MANY_NODES {
            LONG_WORK
        } else {
            ""
        },
    }
}

/// The warning of a program that goes round without a delay; empty for any other.
fn round_warning(goes_round: bool) -> &'static str
    ensures { result.now ≡ round_text goes_round }
{
    if goes_round { ROUND } else { "" }
}

/// Whether an action or a port leads back to itself without a delay.
fn leads_round(alloc: Global, program: &Program) -> Result<bool, AllocError> {
    let most = program
        .actions()
        .len()
        .saturating_add(program.ports().len());
    let mut reached = Marks::new(alloc, program, true)?;
    // A way through more actions and ports than there are leads through one of them twice.
    for _ in 0..most {
        if !reached.any() {
            return Ok(false);
        }
        reached = led_to(alloc, program, &reached)?;
    }
    Ok(reached.any())
}

/// The actions and ports to which these lead without a delay.
fn led_to(alloc: Global, program: &Program, from: &Marks) -> Result<Marks, AllocError> {
    let mut to = Marks::new(alloc, program, false)?;
    for reaction in program.reactions() {
        if from.have_one(&reaction.triggers) {
            to.mark_body(program.actions(), &reaction.body);
        }
    }
    for link in program.links() {
        if is_at_once(link) && is_marked(&from.ports, link.source) {
            mark(&mut to.ports, link.target);
        }
    }
    Ok(to)
}

/// Whether a link delivers at the time at which it is given something.
fn is_at_once(link: &Link) -> bool {
    match link.delay {
        None => true,
        Some(delay) => delay == 0,
    }
}

/// Some of a program's actions and ports.
#[derive(Drop)]
struct Marks {
    actions: Vec<bool>,
    ports: Vec<bool>,
}

impl Marks {
    /// All of them, or none.
    fn new(alloc: Global, program: &Program, are_marked: bool) -> Result<Marks, AllocError> {
        let actions = vec![in alloc; are_marked; program.actions().len()]?;
        let ports = vec![in alloc; are_marked; program.ports().len()]?;
        Ok(Marks { actions, ports })
    }

    /// Whether there is one.
    fn any(&self) -> bool {
        has_mark(&self.actions) || has_mark(&self.ports)
    }

    /// Whether one of these targets is among them.
    fn have_one(&self, targets: &[Target]) -> bool {
        for target in targets {
            if self.has(*target) {
                return true;
            }
        }
        false
    }

    /// Whether this target is among them.
    fn has(&self, target: Target) -> bool {
        match target {
            Target::Action(action) => is_marked(&self.actions, action),
            Target::Port(port) => is_marked(&self.ports, port),
            Target::Startup | Target::Timer(_) => false,
        }
    }

    /// Adds what a body puts, and what it schedules without a delay.
    fn mark_body(&mut self, actions: &[Action], body: &[Stmt]) {
        for statement in body {
            match statement {
                Stmt::Set(..) | Stmt::SetAt(..) => {}
                Stmt::Put(port, _) => mark(&mut self.ports, *port),
                Stmt::Schedule(action, delay, _) => {
                    if *delay == 0 && lacks_delay(actions, *action) {
                        mark(&mut self.actions, *action);
                    }
                }
                Stmt::If(_, first, second) => {
                    self.mark_body(actions, first);
                    self.mark_body(actions, second);
                }
                Stmt::While(_, _, body) => self.mark_body(actions, body),
            }
        }
    }
}

/// Whether the action with this number has no minimum delay.
fn lacks_delay(actions: &[Action], number: u32) -> bool {
    match actions.get(number as usize) {
        Some(action) => action.delay == 0,
        None => false,
    }
}

fn has_mark(marks: &[bool]) -> bool {
    for mark in marks {
        if *mark {
            return true;
        }
    }
    false
}

fn is_marked(marks: &[bool], number: u32) -> bool {
    match marks.get(number as usize) {
        Some(mark) => *mark,
        None => false,
    }
}

fn mark(marks: &mut [bool], number: u32) {
    if let Some(mark) = marks.get_mut(number as usize) {
        *mark = true;
    }
}
