//! What a loaded program has inside, whether two files spell one program, and what each error tells.
use crate::programs::program_of;
use crate::transcript::Transcript;
use std::alloc::{AllocError, Global};
use warp_prog::LoadError;
use warp_step::Program;

/// Tells of the program of each line whether it is the one of the first.
pub(crate) fn compare(alloc: Global, out: &mut Transcript, program: &str, lines: &str) {
    match program_of(alloc, program) {
        Ok(program) => compare_all(alloc, out, &program, lines),
        Err(_) => out.fail("no program"),
    }
}

/// Tells whether the programs of the lines are this one.
fn compare_all(alloc: Global, out: &mut Transcript, program: &Program, lines: &str) {
    for line in lines.lines() {
        match program_of(alloc, line) {
            Ok(other) => out.say(format_args!("the same {}", other.is_same(program))),
            Err(_) => out.fail("no program"),
        }
    }
}

/// Tells the ports, the links, the inputs and the outputs of a program, each by its numbers.
pub(crate) fn tell_parts(alloc: Global, out: &mut Transcript, program: &str) {
    match program_of(alloc, program) {
        Ok(program) => tell_ends(out, &program),
        Err(_) => out.fail("no program"),
    }
}

/// The same of a program that is loaded.
fn tell_ends(out: &mut Transcript, program: &Program) {
    for port in program.ports() {
        let (reactor, is_input) = (port.reactor, port.is_input);
        out.say(format_args!("port of {reactor}, input {is_input}"));
    }
    for link in program.links() {
        let (source, target, is_delayed) = (link.source, link.target, link.delay.is_some());
        out.say(format_args!("link {source} to {target}, delayed {is_delayed}"));
    }
    for input in program.inputs() {
        out.say(format_args!("input of {} at {}", input.origin, input.port));
    }
    for output in program.outputs() {
        out.say(format_args!("output at {output}"));
    }
}

/// Each error.
const ERRORS: [LoadError; 9] = [
    LoadError::Json,
    LoadError::Shape,
    LoadError::Limit,
    LoadError::Name,
    LoadError::Twice,
    LoadError::Backward,
    LoadError::Causality,
    LoadError::Undeclared,
    LoadError::Memory,
];

/// Tells the number and the text of each error, and of the one that want of memory becomes.
pub(crate) fn tell_errors(out: &mut Transcript) {
    for error in ERRORS {
        tell_error(out, error);
    }
    tell_error(out, LoadError::from(AllocError));
}

/// Tells the number and the text of an error.
fn tell_error(out: &mut Transcript, error: LoadError) {
    out.say(format_args!("{} {error}", error.number()));
}
