//! What is in a program: one line, the numbers by which lines and replies speak of it, its rows, and what it is.
ghost use Rattle.std.specs.Prelude.{◌≡◌, ◌++◌, ◌∷◌, [], IfOk, OnOk, codes, length, map, string_bytes};
ghost use Rattle.std.specs.Prelude.{if◌then◌else◌};
ghost use Rattle.warp_prog.specs.Account.{account_text, fingerprint_line, identity_text, measures_text, names_line};
ghost use Rattle.warp_prog.specs.Account.{most_part, rows_line, work_line};
ghost use Rattle.warp_step.specs.Labelled.{array_name};
ghost use Rattle.warp_prog.specs.Explain.{array_lines, cells_part, counted, input_lines, number_lines, numbers_text};
ghost use Rattle.warp_prog.specs.Explain.{origin_at, summary_line};

use crate::canonical::fingerprint;
use crate::due::own_rows;
use crate::explain::labels::Labels;
use crate::explain::rows::own_outputs;
use crate::json_names::names_line;
use crate::limits::work::Work;
use crate::loading::NamedProgram;
use itoa::Buffer;
use std::alloc::{AllocError, Global};
use warp_step::{ArrayLabel, Program, ProgramInput};

/// What an account of a program tells beside its first line.
#[derive(Clone, Copy, Debug, Drop, PartialEq, Eq)]
pub struct AccountOptions {
    /// For each variable, program input and program output a line with its number and its label, and an input's with
    /// its origin.
    pub numbers: bool,
    /// How many rows the program makes by itself, and how many outputs at most.
    pub rows: bool,
    /// How much work its reactions are together, and which of them is the most.
    pub work: bool,
    /// Its fingerprint.
    pub fingerprint: bool,
    /// Its names, as one line of JSON.
    pub names: bool,
}

/// What is in a program, as a line, and behind it what the options ask for.
///
/// # Errors
///
/// Only where a growth was refused.
pub fn program_account(
    alloc: Global,
    named: &NamedProgram,
    options: AccountOptions,
) -> Result<String, AllocError>
    ensures { IfOk result (λ text. string_bytes text
        ≡ account_text named.now.program named.now.labels named.now.work (string_bytes named.now.canonical) options) }
{
    let mut text = String::new(alloc);
    add_measures(&mut text, &named.program, &named.labels, options)?;
    add_wanted_work(&mut text, &named.labels, &named.work, options.work)?;
    add_identity(alloc, &mut text, named, options)?;
    Ok(text)
}

/// Adds how much is in a program, with its numbers and its rows where they are asked for.
fn add_measures(
    text: &mut String,
    program: &Program,
    labels: &Labels,
    options: AccountOptions,
) -> Result<(), AllocError>
    ensures { OnOk result (string_bytes text.new
        ≡ string_bytes text.old ++ measures_text program.now labels.now options) }
{
    add_summary(text, program, labels)?;
    add_wanted_numbers(text, program, labels, options.numbers)?;
    add_wanted_rows(text, program, options.rows)?;
    Ok(())
}

/// Adds the line of a program's work where it is wanted.
fn add_wanted_work(
    text: &mut String,
    labels: &Labels,
    work: &Work,
    is_wanted: bool,
) -> Result<(), AllocError>
    ensures { OnOk result (string_bytes text.new
        ≡ string_bytes text.old ++ (if is_wanted then work_line labels.now work.now else [])) }
{
    if is_wanted {
        add_work(text, labels, work)
    } else {
        Ok(())
    }
}

/// Adds the line of a program's work: of all reactions, and of the one that is the most.
fn add_work(text: &mut String, labels: &Labels, work: &Work) -> Result<(), AllocError>
    ensures { OnOk result
        (string_bytes text.new ≡ string_bytes text.old ++ work_line labels.now work.now) }
{
    add_count(text, "work", work.all)?;
    add_count(text, ", of a reaction at most", work.most)?;
    add_most(text, labels, work)?;
    end_line(text)?;
    Ok(())
}

/// Adds which reaction is the most work, where its reactor is there.
fn add_most(text: &mut String, labels: &Labels, work: &Work) -> Result<(), AllocError>
    ensures { OnOk result
        (string_bytes text.new ≡ string_bytes text.old ++ most_part labels.now work.now) }
{
    match labels.reactors.get(work.reactor) {
        Some(reactor) => add_reaction(text, work.reaction, reactor.as_str()),
        None => Ok(()),
    }
}

/// Adds a reaction by its number in the reactor of this name.
fn add_reaction(text: &mut String, number: usize, reactor: &str) -> Result<(), AllocError>
    ensures { OnOk result (string_bytes text.new
        ≡ string_bytes text.old ++ (counted (codes ", reaction") number ++ codes " of " ++ reactor.now)) }
{
    add_count(text, ", reaction", number as u64)?;
    text.push_str(" of ")?;
    text.push_str(reactor)
}

/// Adds which program it is, where that is asked for.
fn add_identity(
    alloc: Global,
    text: &mut String,
    named: &NamedProgram,
    options: AccountOptions,
) -> Result<(), AllocError>
    ensures { OnOk result (string_bytes text.new ≡ string_bytes text.old
        ++ identity_text named.now.program named.now.labels (string_bytes named.now.canonical) options) }
{
    add_wanted_fingerprint(alloc, text, &named.canonical, options.fingerprint)?;
    add_wanted_names(alloc, text, named, options.names)?;
    Ok(())
}

/// Adds the numbers where they are wanted.
fn add_wanted_numbers(
    text: &mut String,
    program: &Program,
    labels: &Labels,
    are_wanted: bool,
) -> Result<(), AllocError>
    ensures { let numbers = numbers_text program.now labels.now in
        OnOk result (string_bytes text.new ≡ string_bytes text.old ++ (if are_wanted then numbers else [])) }
{
    if are_wanted {
        add_numbers(text, program, labels)
    } else {
        Ok(())
    }
}

/// Adds the line of a program's own rows where it is wanted.
fn add_wanted_rows(text: &mut String, program: &Program, is_wanted: bool) -> Result<(), AllocError>
    ensures { let line = rows_line program.now in
        OnOk result (string_bytes text.new ≡ string_bytes text.old ++ (if is_wanted then line else [])) }
{
    if is_wanted {
        add_rows(text, program)
    } else {
        Ok(())
    }
}

/// Adds the line of the fingerprint of this text where it is wanted.
fn add_wanted_fingerprint(
    alloc: Global,
    text: &mut String,
    canonical: &str,
    is_wanted: bool,
) -> Result<(), AllocError>
    ensures { let line = fingerprint_line canonical.now in
        OnOk result (string_bytes text.new ≡ string_bytes text.old ++ (if is_wanted then line else [])) }
{
    if is_wanted {
        add_fingerprint(alloc, text, canonical)
    } else {
        Ok(())
    }
}

/// Adds the line of the fingerprint of this text.
fn add_fingerprint(alloc: Global, text: &mut String, canonical: &str) -> Result<(), AllocError>
    ensures { OnOk result (string_bytes text.new ≡ string_bytes text.old ++ fingerprint_line canonical.now) }
{
    let digits = fingerprint(alloc, canonical)?;
    text.push_str("fingerprint ")?;
    text.push_str(&digits)?;
    end_line(text)?;
    Ok(())
}

/// Adds the line of names where it is wanted.
fn add_wanted_names(
    alloc: Global,
    text: &mut String,
    named: &NamedProgram,
    are_wanted: bool,
) -> Result<(), AllocError>
    ensures { let line = names_line named.now.program named.now.labels in
        OnOk result (string_bytes text.new ≡ string_bytes text.old ++ (if are_wanted then line else [])) }
{
    if are_wanted {
        add_names(alloc, text, &named.program, &named.labels)
    } else {
        Ok(())
    }
}

/// Adds the line of names.
fn add_names(
    alloc: Global,
    text: &mut String,
    program: &Program,
    labels: &Labels,
) -> Result<(), AllocError>
    ensures { OnOk result
        (string_bytes text.new ≡ string_bytes text.old ++ names_line program.now labels.now) }
{
    let line = names_line(alloc, program, labels)?;
    text.push_str(&line)?;
    end_line(text)
}

/// Adds the line of how many rows a program makes by itself, and how many outputs at most.
fn add_rows(text: &mut String, program: &Program) -> Result<(), AllocError>
    ensures { OnOk result (string_bytes text.new ≡ string_bytes text.old ++ rows_line program.now) }
{
    let outputs = program.outputs().len() as u64;
    add_count(text, "own rows", own_rows(program))?;
    add_count(text, ", outputs of each at most", outputs)?;
    add_count(text, ", of all at most", own_outputs(program))?;
    end_line(text)?;
    Ok(())
}

/// Adds the line of what is in a program with these labels.
fn add_summary(text: &mut String, program: &Program, labels: &Labels) -> Result<(), AllocError>
    ensures { OnOk result
        (string_bytes text.new ≡ string_bytes text.old ++ summary_line labels.now program.now) }
{
    add_count(text, "reactors", labels.reactors.len() as u64)?;
    add_count(text, ", reactions", reaction_count(program) as u64)?;
    add_count(text, ", origins", program.origins() as u64)?;
    add_count(text, ", variables", labels.variables.len() as u64)?;
    add_cells(text, program, labels)?;
    add_count(text, ", stop", program.stop())?;
    end_line(text)?;
    Ok(())
}

/// Adds how many cells the arrays have, where there are arrays.
fn add_cells(text: &mut String, program: &Program, labels: &Labels) -> Result<(), AllocError>
    ensures { OnOk result (string_bytes text.new ≡ string_bytes text.old ++ cells_part labels.now program.now) }
{
    if labels.arrays.is_empty() {
        return Ok(());
    }
    let cells = program
        .variables()
        .len()
        .saturating_sub(labels.variables.len());
    add_count(text, ", cells", cells as u64)
}

/// Adds a line feed.
fn end_line(text: &mut String) -> Result<(), AllocError>
    ensures { OnOk result (string_bytes text.new ≡ string_bytes text.old ++ 10 ∷ []) }
{
    text.push('\n')
}

/// How many reactions there are.
fn reaction_count(program: &Program) -> usize
    ensures { result ≡ length program.now.reactions }
{
    program.reactions().len()
}

/// Adds a word, a space and a number.
pub(crate) fn add_count(text: &mut String, word: &str, number: u64) -> Result<(), AllocError>
    ensures { OnOk result (string_bytes text.new ≡ string_bytes text.old ++ counted word.now number) }
{
    let mut digits = Buffer::new();
    text.push_str(word)?;
    text.push(' ')?;
    text.push_str(digits.format(number))
}

/// Adds the numbers of the variables, the arrays, the program inputs and the program outputs.
fn add_numbers(text: &mut String, program: &Program, labels: &Labels) -> Result<(), AllocError>
    ensures { OnOk result (string_bytes text.new ≡ string_bytes text.old ++ numbers_text program.now labels.now) }
{
    add_labels(text, "var", &labels.variables)?;
    add_arrays(text, &labels.arrays)?;
    add_inputs(text, &labels.inputs, program.inputs())?;
    add_labels(text, "output", &labels.outputs)
}

/// Adds a line for each of these labels, numbered from 0.
fn add_labels(text: &mut String, word: &str, labels: &[String]) -> Result<(), AllocError>
    ensures { OnOk result (string_bytes text.new
        ≡ string_bytes text.old ++ number_lines word.now 0 (map string_bytes labels.now)) }
{
    for (i, label) in labels.iter().enumerate() {
        add_label(text, word, i, label.as_str())?;
    }
    Ok(())
}

/// Adds the line of a label.
fn add_label(text: &mut String, word: &str, number: usize, label: &str) -> Result<(), AllocError>
    ensures { OnOk result (string_bytes text.new
        ≡ string_bytes text.old ++ (counted word.now number ++ 32 ∷ label.now ++ 10 ∷ [])) }
{
    add_count(text, word, number as u64)?;
    text.push(' ')?;
    text.push_str(label)?;
    text.push('\n')
}

/// Adds a line for each of these arrays.
fn add_arrays(text: &mut String, arrays: &[ArrayLabel]) -> Result<(), AllocError>
    ensures { OnOk result
        (string_bytes text.new ≡ string_bytes text.old ++ array_lines (map array_name arrays.now)) }
{
    for array in arrays {
        add_array(text, array)?;
    }
    Ok(())
}

/// Adds the line of an array: the numbers of its first cell and of its last, and its label.
fn add_array(text: &mut String, array: &ArrayLabel) -> Result<(), AllocError>
    ensures { OnOk result
        (string_bytes text.new ≡ string_bytes text.old ++ array_lines (array_name array.now ∷ [])) }
{
    let last = u64::from(array.first) + u64::from(array.count);
    add_count(text, "vars", u64::from(array.first))?;
    add_count(text, " to", last.saturating_sub(1))?;
    text.push(' ')?;
    text.push_str(array.label.as_str())?;
    text.push('\n')
}

/// Adds a line for each of these labels of program inputs, numbered from 0.
fn add_inputs(
    text: &mut String,
    labels: &[String],
    inputs: &[ProgramInput],
) -> Result<(), AllocError>
    ensures { OnOk result (string_bytes text.new
        ≡ string_bytes text.old ++ input_lines inputs.now 0 (map string_bytes labels.now)) }
{
    for (i, label) in labels.iter().enumerate() {
        add_input(text, i, label.as_str(), origin_at(inputs, i))?;
    }
    Ok(())
}

/// The origin of the program input of this number, or 0 where there is none.
pub(crate) fn origin_at(inputs: &[ProgramInput], number: usize) -> u32
    ensures { result ≡ origin_at inputs.now number }
{
    match inputs.get(number) {
        Some(input) => input.origin,
        None => 0,
    }
}

/// Adds the line of a program input.
fn add_input(text: &mut String, number: usize, label: &str, origin: u32) -> Result<(), AllocError>
    ensures { OnOk result (string_bytes text.new ≡ string_bytes text.old
        ++ (counted (codes "input") number ++ 32 ∷ label.now ++ counted (codes " origin") origin ++ 10 ∷ [])) }
{
    add_count(text, "input", number as u64)?;
    text.push(' ')?;
    text.push_str(label)?;
    add_count(text, " origin", origin as u64)?;
    text.push('\n')
}
