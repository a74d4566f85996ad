//! What stands in a reactor, with numbers in the place of names.
ghost use Rattle.std.specs.Prelude.{◌≡◌, ◌++◌, ◌-◌, OnOk, false, length, map, pos, replicate};
ghost use Rattle.warp_step.specs.Program.{rule_of};
ghost use Rattle.warp_prog.specs.File.{Word};
ghost use Rattle.warp_prog.specs.Numbered.{its_cells, its_variables, its_ports, its_actions, its_timers, its_reactions};
ghost use Rattle.warp_prog.specs.inner.Room.{HasRoom};
ghost use Rattle.warp_prog.specs.View.{reactor_tree};

use crate::file::{ArrayStart, Reactor};
use crate::name::Name;
use crate::named::is_among;
use crate::numbered::reaction::numbered_reaction;
use crate::scope::Before;
use std::alloc::Global;
use warp_step::{Action, Port, Reaction, Timer, Variable};
use warp_tag::OutOfMemory;

/// Adds the variables of a reactor.
pub(crate) fn add_variables(
    variables: &mut Vec<Variable>,
    before: &Before,
    reactor: &Reactor,
) -> Result<(), OutOfMemory>
    requires { HasRoom before.now (reactor_tree reactor.now) }
    ensures { let its = its_variables before.now (reactor_tree reactor.now) in
        OnOk result (variables.new.items ≡ variables.old.items ++ its) }
{
    for variable in &reactor.variables {
        variables.push(Variable {
            reactor: before.reactors as u32,
            is_told: !is_among(&reactor.hidden, &variable.name),
            start: variable.start,
        })?;
    }
    Ok(())
}

/// Adds the cells of a reactor's arrays.
pub(crate) fn add_cells(
    cells: &mut Vec<Variable>,
    before: &Before,
    reactor: &Reactor,
) -> Result<(), OutOfMemory>
    requires { HasRoom before.now (reactor_tree reactor.now) }
    ensures { let its = its_cells before.now (reactor_tree reactor.now) in
        OnOk result (cells.new.items ≡ cells.old.items ++ its) }
{
    let number = before.reactors as u32;
    for array in &reactor.arrays {
        let count = array.count.unsigned_abs() as usize;
        match &array.start {
            ArrayStart::All(start) => add_alike(cells, number, count, *start)?,
            ArrayStart::Each(starts) => add_given(cells, number, count, starts)?,
        }
    }
    Ok(())
}

/// Adds so many cells of a reactor that start alike.
fn add_alike(
    cells: &mut Vec<Variable>,
    reactor: u32,
    count: usize,
    start: i64,
) -> Result<(), OutOfMemory>
    ensures { let its = map (λ n. record { reactor = reactor; is_told = false; start = n }) (replicate count start) in
        OnOk result (cells.new.items ≡ cells.old.items ++ its) }
{
    for _ in 0..count {
        cells.push(Variable {
            reactor,
            is_told: false,
            start,
        })?;
    }
    Ok(())
}

/// Adds so many cells of a reactor, the first of which start with these numbers, the others with 0.
fn add_given(
    cells: &mut Vec<Variable>,
    reactor: u32,
    count: usize,
    starts: &[i64],
) -> Result<(), OutOfMemory>
    ensures { let its = map (λ n. record { reactor = reactor; is_told = false; start = n })
        (starts.now ++ replicate (count - length starts.now) (pos 0)) in
        OnOk result (cells.new.items ≡ cells.old.items ++ its) }
{
    for start in starts {
        cells.push(Variable {
            reactor,
            is_told: false,
            start: *start,
        })?;
    }
    add_alike(cells, reactor, count.saturating_sub(starts.len()), 0)
}

/// Adds the ports of a reactor: its inputs, then its outputs.
pub(crate) fn add_ports(
    ports: &mut Vec<Port>,
    before: &Before,
    reactor: &Reactor,
) -> Result<(), OutOfMemory>
    requires { HasRoom before.now (reactor_tree reactor.now) }
    ensures { let its = its_ports before.now (reactor_tree reactor.now) in
        OnOk result (ports.new.items ≡ ports.old.items ++ its) }
{
    let number = before.reactors as u32;
    add_each(ports, &reactor.inputs, number, true)?;
    add_each(ports, &reactor.outputs, number, false)
}

/// Adds a port of a reactor for each of these names.
fn add_each(
    ports: &mut Vec<Port>,
    names: &[Name],
    reactor: u32,
    is_input: bool,
) -> Result<(), OutOfMemory>
    ensures { let its = map (λ (name : Word). record { reactor = reactor; is_input = is_input }) names.now in
        OnOk result (ports.new.items ≡ ports.old.items ++ its) }
{
    for _name in names {
        ports.push(Port { reactor, is_input })?;
    }
    Ok(())
}

/// Adds the actions of a reactor.
pub(crate) fn add_actions(
    actions: &mut Vec<Action>,
    before: &Before,
    reactor: &Reactor,
) -> Result<(), OutOfMemory>
    requires { HasRoom before.now (reactor_tree reactor.now) }
    ensures { let its = its_actions before.now (reactor_tree reactor.now) in
        OnOk result (actions.new.items ≡ actions.old.items ++ its) }
{
    for action in &reactor.actions {
        actions.push(Action {
            reactor: before.reactors as u32,
            delay: action.delay.unsigned_abs(),
        })?;
    }
    Ok(())
}

/// Adds the timers of a reactor.
pub(crate) fn add_timers(
    timers: &mut Vec<Timer>,
    before: &Before,
    reactor: &Reactor,
) -> Result<(), OutOfMemory>
    requires { HasRoom before.now (reactor_tree reactor.now) }
    ensures { let its = its_timers before.now (reactor_tree reactor.now) in
        OnOk result (timers.new.items ≡ timers.old.items ++ its) }
{
    for timer in &reactor.timers {
        timers.push(Timer {
            reactor: before.reactors as u32,
            offset: timer.offset.unsigned_abs(),
            period: timer.period.unsigned_abs(),
        })?;
    }
    Ok(())
}

/// Adds the reactions of a reactor.
pub(crate) fn add_reactions(
    alloc: Global,
    reactions: &mut Vec<Reaction>,
    before: &Before,
    reactor: &Reactor,
) -> Result<(), OutOfMemory>
    requires { HasRoom before.now (reactor_tree reactor.now) }
    ensures { let its = its_reactions before.now (reactor_tree reactor.now) in
        OnOk result (map rule_of reactions.new.items ≡ map rule_of reactions.old.items ++ its) }
{
    for reaction in &reactor.reactions {
        let next = numbered_reaction(alloc, before, reactor, reaction)?;
        reactions.push(next)?;
    }
    Ok(())
}
