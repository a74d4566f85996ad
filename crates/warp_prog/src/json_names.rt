//! What the numbers of a program stand for, as one line of JSON, for programs that speak with it.
ghost use Rattle.std.specs.Prelude.{◌≡◌, ◌++◌, IfOk, OnOk, decimal, map, string_bytes};
ghost use Rattle.warp_prog.specs.Canonical.{listed, separated};
ghost use Rattle.warp_prog.specs.Explain.{origin_at};
ghost use Rattle.warp_prog.specs.NamesLine.{cells_of_form, cells_text, form_number, names_text, numbers_part, owned_text, owned_texts};

use crate::canonical::{Spell, add_comma, spell_list, spell_quoted};
use crate::explain::{Labels, origin_at};
use itoa::Buffer;
use std::alloc::{AllocError, Global};
use warp_step::{ArrayLabel, Program, ProgramInput};
use warp_tag::Form;

/// What the numbers of a program with these labels stand for, as one line of JSON without its line feed: its form, how
/// many origins it has and its stop; and of its variables, inputs and outputs the name of each at the place of its
/// number, an input's behind the number of its origin. In the fourth form also its arrays, each with the number of its
/// first cell and how many it has, and the numbers of its hidden variables.
///
/// # Errors
///
/// Only where a growth was refused.
pub fn names_line(alloc: Global, program: &Program, labels: &Labels) -> Result<String, AllocError>
    ensures { IfOk result (λ text. string_bytes text ≡ names_text program.now labels.now) }
{
    let mut text = String::new(alloc);
    add_names(&mut text, program, labels)?;
    Ok(text)
}

/// Adds the line.
fn add_names(text: &mut String, program: &Program, labels: &Labels) -> Result<(), AllocError>
    ensures { OnOk result (string_bytes text.new ≡ string_bytes text.old ++ names_text program.now labels.now) }
{
    add_head(text, program)?;
    spell_list(text, ",\"vars\":", &labels.variables)?;
    add_cells_of_form(text, program.form(), labels)?;
    add_inputs(text, ",\"inputs\":", &labels.inputs, program.inputs())?;
    spell_list(text, ",\"outputs\":", &labels.outputs)?;
    text.push_str("}")?;
    Ok(())
}

/// Adds the arrays and the numbers of the hidden variables of a program of the fourth form; nothing of another.
fn add_cells_of_form(text: &mut String, form: Form, labels: &Labels) -> Result<(), AllocError>
    ensures { OnOk result (string_bytes text.new ≡ string_bytes text.old ++ cells_of_form form labels.now) }
{
    match form {
        Form::One | Form::Two | Form::Three => Ok(()),
        Form::Four => add_cells(text, labels),
    }
}

/// Adds the arrays and the numbers of the hidden variables, with their keys.
fn add_cells(text: &mut String, labels: &Labels) -> Result<(), AllocError>
    ensures { OnOk result (string_bytes text.new ≡ string_bytes text.old ++ cells_text labels.now) }
{
    spell_list(text, ",\"arrays\":", &labels.arrays)?;
    spell_list(text, ",\"hidden\":", &labels.hidden)?;
    Ok(())
}

impl Spell for ArrayLabel {
    ghost use Rattle.warp_step.specs.Labelled.{array_name};
    ghost use Rattle.warp_prog.specs.NamesLine.{array_text};

    ghost spelled = { λ a. array_text (array_name a) };

    fn spell(&self, text: &mut String) -> Result<(), AllocError> {
        text.push_str("[")?;
        spell_quoted(text, self.label.as_str())?;
        add_number(text, ",", u64::from(self.first))?;
        add_number(text, ",", u64::from(self.count))?;
        text.push_str("]")
    }
}

impl Spell for u32 {
    ghost use Rattle.std.specs.Prelude.{decimal};

    ghost spelled = { λ n. decimal n };

    fn spell(&self, text: &mut String) -> Result<(), AllocError> {
        add_number(text, "", u64::from(*self))
    }
}

/// Adds the numbers of a program with their keys.
fn add_head(text: &mut String, program: &Program) -> Result<(), AllocError>
    ensures { OnOk result (string_bytes text.new ≡ string_bytes text.old ++ numbers_part program.now) }
{
    add_number(text, "{\"form\":", form_number(program.form()))?;
    add_number(text, ",\"origins\":", program.origins() as u64)?;
    add_number(text, ",\"stop\":", program.stop())
}

/// The number of a form: that of its version.
fn form_number(form: Form) -> u64
    ensures { result ≡ form_number form }
{
    match form {
        Form::One => 1,
        Form::Two => 2,
        Form::Three => 3,
        Form::Four => 4,
    }
}

/// Adds what stands before a number, and the number.
fn add_number(text: &mut String, front: &str, number: u64) -> Result<(), AllocError>
    ensures { OnOk result (string_bytes text.new ≡ string_bytes text.old ++ (front.now ++ decimal number)) }
{
    let mut digits = Buffer::new();
    text.push_str(front)?;
    text.push_str(digits.format(number))
}

impl Spell for String {
    ghost use Rattle.std.specs.Prelude.{string_bytes};
    ghost use Rattle.warp_prog.specs.Canonical.{quoted};

    ghost spelled = { λ s. quoted (string_bytes s) };

    fn spell(&self, text: &mut String) -> Result<(), AllocError> {
        spell_quoted(text, self.as_str())
    }
}

/// Adds a key, as it stands behind what is before it, and the program inputs with these labels.
fn add_inputs(
    text: &mut String,
    key: &str,
    labels: &[String],
    inputs: &[ProgramInput],
) -> Result<(), AllocError>
    ensures { OnOk result (string_bytes text.new ≡ string_bytes text.old
        ++ (key.now ++ listed (owned_texts inputs.now 0 (map string_bytes labels.now)))) }
{
    text.push_str(key)?;
    text.push_str("[")?;
    add_each(text, labels, inputs)?;
    text.push_str("]")
}

/// Adds the program inputs with these labels, with commas between them.
fn add_each(text: &mut String, labels: &[String], inputs: &[ProgramInput]) -> Result<(), AllocError>
    ensures { OnOk result (string_bytes text.new ≡ string_bytes text.old
        ++ separated 0 (owned_texts inputs.now 0 (map string_bytes labels.now))) }
{
    for (i, label) in labels.iter().enumerate() {
        add_comma(text, i)?;
        add_owned(text, origin_at(inputs, i), label.as_str())?;
    }
    Ok(())
}

/// Adds a program input: the number of its origin, and its label.
fn add_owned(text: &mut String, origin: u32, label: &str) -> Result<(), AllocError>
    ensures { OnOk result (string_bytes text.new ≡ string_bytes text.old ++ owned_text origin label.now) }
{
    add_number(text, "[", origin as u64)?;
    text.push_str(",")?;
    spell_quoted(text, label)?;
    text.push_str("]")
}
