//! The names that stand for numbers: `REACTOR.NAME` of each thing of a program, in the order of its numbers.
ghost use Rattle.std.specs.Prelude.{◌≡◌, ◌≤◌, ◌+◌, ◌++◌, IfOk, OnOk, false, length, map, option_map, string_bytes};
ghost use Rattle.warp_tag.specs.Limits.{most_variables, widest};
ghost use Rattle.warp_step.specs.Labelled.{array_name};
ghost use Rattle.warp_prog.specs.Exceeds.{exceeds_limits};
ghost use Rattle.warp_prog.specs.Explain.{arrays_from, arrays_in, called_in, hidden_from, hidden_in, label_of, labelled};
ghost use Rattle.warp_prog.specs.Explain.{labels_in, names_of, port_called, port_names, reactor_called};
ghost use Rattle.warp_prog.specs.Limits.{cells_of, total};
ghost use Rattle.warp_prog.specs.Numbered.{variables_in};
ghost use Rattle.warp_prog.specs.Uses.{action_names, timer_names, variable_names};
ghost use Rattle.warp_prog.specs.View.{file_tree, reactor_tree};

use crate::file::{PortName, ProgramFile, Reactor};
use crate::name::Name;
use crate::named::{Named, is_among, is_same};
use crate::stands_twice::{Refers, called_name};
use std::alloc::{AllocError, Global};
use std::marker::Model;
use warp_step::ArrayLabel;

/// The names of a program's things by their numbers, each `REACTOR.NAME`, with what people call both where the file says
/// so. Contracts see them as the record `Names`.
#[derive(Drop)]
pub struct Labels {
    /// The names of the reactors, without a dot.
    pub reactors: Vec<String>,
    /// Of the variables that are no cells.
    pub variables: Vec<String>,
    /// The numbers of those that are told to nobody who does not ask for them.
    pub hidden: Vec<u32>,
    /// Of the arrays, with their cells.
    pub arrays: Vec<ArrayLabel>,
    /// Of the ports: of each reactor its inputs, then its outputs.
    pub ports: Vec<String>,
    /// Of the actions.
    pub actions: Vec<String>,
    /// Of the timers.
    pub timers: Vec<String>,
    /// Of the program's inputs: the port that each leads to.
    pub inputs: Vec<String>,
    /// Of the program's outputs: the port of each.
    pub outputs: Vec<String>,
}

impl Model for Labels {
    ghost use Rattle.std.specs.Prelude.{map, string_bytes};
    ghost use Rattle.warp_step.specs.Labelled.{array_name};
    ghost use Rattle.warp_prog.specs.Explain.{Names};

    ghost Value = { Names };

    ghost view = { λ l. record {
      reactors = map string_bytes l.reactors.items;
      variables = map string_bytes l.variables.items;
      hidden = l.hidden.items;
      arrays = map array_name l.arrays.items;
      ports = map string_bytes l.ports.items;
      actions = map string_bytes l.actions.items;
      timers = map string_bytes l.timers.items;
      inputs = map string_bytes l.inputs.items;
      outputs = map string_bytes l.outputs.items;
    } };
}

/// The labels of a file.
pub(crate) fn labels_of(alloc: Global, file: &ProgramFile) -> Result<Labels, AllocError>
    requires { exceeds_limits (file_tree file.now) ≡ false }
    ensures { IfOk result (λ l. l ≡ names_of (file_tree file.now)) }
{
    let inside = inside_all(alloc, &file.reactors)?;
    let hidden = hidden_numbers(alloc, &file.reactors)?;
    let arrays = array_labels(alloc, &file.reactors, inside.variables.len())?;
    let reactors = reactor_names(alloc, &file.reactors)?;
    let inputs = port_labels(alloc, &file.reactors, &file.inputs)?;
    let outputs = port_labels(alloc, &file.reactors, &file.outputs)?;
    Ok(Labels {
        reactors,
        variables: inside.variables,
        hidden,
        arrays,
        ports: inside.ports,
        actions: inside.actions,
        timers: inside.timers,
        inputs,
        outputs,
    })
}

/// The numbers of the hidden variables of these reactors.
fn hidden_numbers(alloc: Global, reactors: &[Reactor]) -> Result<Vec<u32>, AllocError>
    requires { variables_in (map reactor_tree reactors.now) ≤ most_variables widest }
    ensures { IfOk result (λ ns. ns.items ≡ hidden_from 0 (map reactor_tree reactors.now)) }
{
    let mut numbers = Vec::new(alloc);
    let mut first = 0;
    for reactor in reactors {
        add_hidden(&mut numbers, first, reactor)?;
        first += reactor.variables.len();
    }
    Ok(numbers)
}

/// Adds the numbers of the hidden variables of a reactor, whose first variable has this number.
fn add_hidden(numbers: &mut Vec<u32>, first: usize, reactor: &Reactor) -> Result<(), AllocError>
    requires { first + length reactor.now.variables.items ≤ most_variables widest }
    ensures { OnOk result (numbers.new.items ≡
        numbers.old.items ++ hidden_in first (reactor_tree reactor.now).hidden reactor.now.variables.items) }
{
    for (i, variable) in reactor.variables.iter().enumerate() {
        if is_among(&reactor.hidden, &variable.name) {
            numbers.push((first + i) as u32)?;
        }
    }
    Ok(())
}

/// The labels of the arrays of these reactors, with their cells, which stand behind so many variables.
fn array_labels(
    alloc: Global,
    reactors: &[Reactor],
    variables: usize,
) -> Result<Vec<ArrayLabel>, AllocError>
    requires { variables + total (λ r. cells_of r.arrays) (map reactor_tree reactors.now) ≤ most_variables widest }
    ensures { IfOk result
        (λ ls. map array_name ls.items ≡ arrays_from variables (map reactor_tree reactors.now)) }
{
    let mut labels = Vec::new(alloc);
    let mut first = variables;
    for reactor in reactors {
        first = add_arrays(alloc, &mut labels, first, reactor)?;
    }
    Ok(labels)
}

/// Adds the labels of the arrays of a reactor, whose first cell has this number. Answers the number behind the last.
fn add_arrays(
    alloc: Global,
    labels: &mut Vec<ArrayLabel>,
    first: usize,
    reactor: &Reactor,
) -> Result<usize, AllocError>
    requires { first + cells_of (reactor_tree reactor.now).arrays ≤ most_variables widest }
    ensures { IfOk result (λ next. (next ≡ first + cells_of (reactor_tree reactor.now).arrays)
        × (map array_name labels.new.items ≡ map array_name labels.old.items
        ++ arrays_in first (reactor_tree reactor.now) (reactor_tree reactor.now).arrays)) }
{
    let mut next = first;
    for array in &reactor.arrays {
        let count = array.count.unsigned_abs() as usize;
        let label = label(alloc, reactor, &array.name)?;
        labels.push(ArrayLabel {
            label,
            first: next as u32,
            count: count as u32,
        })?;
        next += count;
    }
    Ok(next)
}

/// The labels of what stands in reactors.
#[derive(Drop)]
struct Inside {
    variables: Vec<String>,
    ports: Vec<String>,
    actions: Vec<String>,
    timers: Vec<String>,
}

/// The labels of what stands in these reactors.
fn inside_all(alloc: Global, reactors: &[Reactor]) -> Result<Inside, AllocError>
    ensures variables { let rs = map reactor_tree reactors.now in
        IfOk result (λ l. map string_bytes l.variables.items ≡ labels_in variable_names rs) }
    ensures ports { let rs = map reactor_tree reactors.now in
        IfOk result (λ l. map string_bytes l.ports.items ≡ labels_in port_names rs) }
    ensures actions { let rs = map reactor_tree reactors.now in
        IfOk result (λ l. map string_bytes l.actions.items ≡ labels_in action_names rs) }
    ensures timers { let rs = map reactor_tree reactors.now in
        IfOk result (λ l. map string_bytes l.timers.items ≡ labels_in timer_names rs) }
{
    let mut inside = Inside {
        variables: Vec::new(alloc),
        ports: Vec::new(alloc),
        actions: Vec::new(alloc),
        timers: Vec::new(alloc),
    };
    for reactor in reactors {
        inside.add(alloc, reactor)?;
    }
    Ok(inside)
}

impl Inside {
    /// Adds the labels of what stands in a reactor.
    fn add(&mut self, alloc: Global, reactor: &Reactor) -> Result<(), AllocError>
        ensures variables { let its = labelled variable_names (reactor_tree reactor.now) in
            OnOk result (map string_bytes self.new.variables.items ≡ map string_bytes self.old.variables.items ++ its) }
        ensures ports { let its = labelled port_names (reactor_tree reactor.now) in
            OnOk result (map string_bytes self.new.ports.items ≡ map string_bytes self.old.ports.items ++ its) }
        ensures actions { let its = labelled action_names (reactor_tree reactor.now) in
            OnOk result (map string_bytes self.new.actions.items ≡ map string_bytes self.old.actions.items ++ its) }
        ensures timers { let its = labelled timer_names (reactor_tree reactor.now) in
            OnOk result (map string_bytes self.new.timers.items ≡ map string_bytes self.old.timers.items ++ its) }
    {
        add_each(alloc, &mut self.variables, reactor, &reactor.variables)?;
        add_each(alloc, &mut self.ports, reactor, &reactor.inputs)?;
        add_each(alloc, &mut self.ports, reactor, &reactor.outputs)?;
        add_each(alloc, &mut self.actions, reactor, &reactor.actions)?;
        add_each(alloc, &mut self.timers, reactor, &reactor.timers)
    }
}

/// Adds the labels of these things in a reactor.
fn add_each<T: Named>(
    alloc: Global,
    labels: &mut Vec<String>,
    reactor: &Reactor,
    things: &[T],
) -> Result<(), AllocError>
    ensures { let its = map (label_of (reactor_tree reactor.now)) (map T.called things.now) in
        OnOk result (map string_bytes labels.new.items ≡ map string_bytes labels.old.items ++ its) }
{
    for thing in things {
        let label = label(alloc, reactor, thing.name())?;
        labels.push(label)?;
    }
    Ok(())
}

/// What people call what has this name in a reactor, or the reactor itself; nothing where they call it by its name.
fn called_as<'f>(reactor: &'f Reactor, name: &str) -> Option<&'f str>
    ensures { option_map (λ t. t.now) result ≡ called_in (reactor_tree reactor.now).called name.now }
{
    for part in &reactor.called {
        if called_name(part) == name {
            return Some(part.text.as_str());
        }
    }
    None
}

/// What people call a reactor.
fn reactor_called(reactor: &Reactor) -> &str
    ensures { result.now ≡ reactor_called (reactor_tree reactor.now) }
{
    called_as(reactor, "").unwrap_or(reactor.name.as_str())
}

/// The label of what has this name in a reactor.
fn label(alloc: Global, reactor: &Reactor, name: &Name) -> Result<String, AllocError>
    ensures { IfOk result (λ text. string_bytes text ≡ label_of (reactor_tree reactor.now) name.now) }
{
    let mut text = String::from_str(alloc, reactor_called(reactor))?;
    text.push('.')?;
    text.push_str(called_as(reactor, name.as_str()).unwrap_or(name.as_str()))?;
    Ok(text)
}

/// The names of the reactors.
fn reactor_names(alloc: Global, reactors: &[Reactor]) -> Result<Vec<String>, AllocError>
    ensures { IfOk result
        (λ ls. map string_bytes ls.items ≡ map reactor_called (map reactor_tree reactors.now)) }
{
    let mut names = Vec::with_capacity(alloc, reactors.len())?;
    for reactor in reactors {
        let name = String::from_str(alloc, reactor_called(reactor))?;
        names.push(name)?;
    }
    Ok(names)
}

/// The label of the port to which a reference leads, in the first of these reactors that has its name.
fn port_label(alloc: Global, reactors: &[Reactor], port: &PortName) -> Result<String, AllocError>
    ensures { IfOk result (λ text. string_bytes text ≡ port_called (map reactor_tree reactors.now) port.now) }
{
    for reactor in reactors {
        if is_same(&port.reactor, &reactor.name) {
            return label(alloc, reactor, &port.port);
        }
    }
    Ok(String::new(alloc))
}

/// The labels of the ports to which these things refer.
fn port_labels<T: Refers>(
    alloc: Global,
    reactors: &[Reactor],
    things: &[T],
) -> Result<Vec<String>, AllocError>
    ensures { IfOk result (λ ls. map string_bytes ls.items
        ≡ map (λ t. port_called (map reactor_tree reactors.now) (T.refers_to t)) things.now) }
{
    let mut labels = Vec::with_capacity(alloc, things.len())?;
    for thing in things {
        let label = port_label(alloc, reactors, thing.port())?;
        labels.push(label)?;
    }
    Ok(labels)
}
