//! The names that a trace writes in the place of numbers.
ghost use Rattle.std.specs.Prelude.{◌≡◌, map, string_bytes};
ghost use Rattle.warp_step.specs.Labelled.{array_name};

use std::marker::Model;
use warp_step::ArrayLabel;

/// The names of a program's parts, each list by number. A number that its list does not reach is written as `?` and
/// the number. A cell is written as its array's name and its number in brackets. Names stand in JSON as they are: they
/// need no escape.
#[derive(Drop)]
pub struct Labels {
    pub(crate) variables: Vec<String>,
    pub(crate) inputs: Vec<String>,
    pub(crate) outputs: Vec<String>,
    pub(crate) timers: Vec<String>,
    pub(crate) actions: Vec<String>,
    pub(crate) ports: Vec<String>,
    /// Of arrays, whose cells are variables behind those that have names of their own.
    pub(crate) arrays: Vec<ArrayLabel>,
}

impl Model for Labels {
    ghost use Rattle.std.specs.Prelude.{map, string_bytes};
    ghost use Rattle.warp_step.specs.Labelled.{array_name};
    ghost use Rattle.warp_trace.specs.Labels.{Names};

    ghost Value = { Names };

    ghost view = { λ l. record {
      variables = map string_bytes l.variables.items;
      inputs = map string_bytes l.inputs.items;
      outputs = map string_bytes l.outputs.items;
      timers = map string_bytes l.timers.items;
      actions = map string_bytes l.actions.items;
      ports = map string_bytes l.ports.items;
      arrays = map array_name l.arrays.items;
    } };
}

impl Labels {
    /// These names: of the variables, of the program's inputs and outputs, of the timers, the actions, the ports and the
    /// arrays.
    pub fn new(
        variables: Vec<String>,
        inputs: Vec<String>,
        outputs: Vec<String>,
        timers: Vec<String>,
        actions: Vec<String>,
        ports: Vec<String>,
        arrays: Vec<ArrayLabel>,
    ) -> Labels
        ensures { result ≡ record {
          variables = map string_bytes variables.items;
          inputs = map string_bytes inputs.items;
          outputs = map string_bytes outputs.items;
          timers = map string_bytes timers.items;
          actions = map string_bytes actions.items;
          ports = map string_bytes ports.items;
          arrays = map array_name arrays.items;
        } }
    {
        Labels {
            variables,
            inputs,
            outputs,
            timers,
            actions,
            ports,
            arrays,
        }
    }
}
