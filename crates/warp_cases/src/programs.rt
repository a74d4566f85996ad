//! Program files: their loading, copies of the program, its account and its labels, and why a file is refused. Each
//! call is made two times. Programs that are raised. And the programs and replicas that the other calls are over.
use crate::lines::{form_of, word_of};
use crate::mark::{begin, end};
use crate::transcript::{NO_MEMORY, Transcript};
use std::alloc::{AllocError, Global};
use warp_line::Timeline;
use warp_prog::{
    AccountOptions, LoadError, NamedProgram, explanation, load, load_named, program_account,
};
use warp_replica::Replica;
use warp_step::Program;

/// The program of a line: `twice`, or that of a file with this text.
pub(crate) fn program_of(alloc: Global, line: &str) -> Result<Program, LoadError> {
    if line == "twice" {
        return Ok(Program::twice(alloc)?);
    }
    load(alloc, line.as_bytes())
}

/// A new replica of the program of a line.
pub(crate) fn replica_of<T: Timeline>(alloc: Global, line: &str) -> Result<Replica<T>, LoadError> {
    let program = program_of(alloc, line)?;
    Ok(Replica::new(alloc, program)?)
}

/// Loads the program of this text, two times, and makes the calls over each; then the labels of the text.
pub(crate) fn load_twice(alloc: Global, out: &mut Transcript, text: &str) {
    load_once(alloc, out, text);
    load_once(alloc, out, text);
    label_once(alloc, out, text);
    label_once(alloc, out, text);
}

/// Loads the program of this text, and where that is one copies it.
fn load_once(alloc: Global, out: &mut Transcript, text: &str) {
    begin(alloc);
    let loaded = load(alloc, text.as_bytes());
    end(alloc);
    match loaded {
        Ok(program) => copy_twice(alloc, out, &program),
        Err(error) => explain_twice(alloc, out, text, error),
    }
}

/// Tells of a program, and copies it two times.
fn copy_twice(alloc: Global, out: &mut Transcript, program: &Program) {
    let (origins, reactions) = (program.origins(), program.reactions().len());
    out.say(format_args!("{origins} origins, {reactions} reactions"));
    copy_once(alloc, out, program);
    copy_once(alloc, out, program);
}

/// Copies a program.
fn copy_once(alloc: Global, out: &mut Transcript, program: &Program) {
    begin(alloc);
    let copy = program.copy(alloc);
    end(alloc);
    match copy {
        Ok(copy) => out.say(format_args!("copied, the same {}", copy.is_same(program))),
        Err(_) => out.say(NO_MEMORY),
    }
}

/// Tells the number for which a file is refused, and two times why.
fn explain_twice(alloc: Global, out: &mut Transcript, text: &str, error: LoadError) {
    out.say(format_args!("refused {}", error.number()));
    if error != LoadError::Memory {
        explain_once(alloc, out, text, error);
        explain_once(alloc, out, text, error);
    }
}

/// Tells why a file is refused.
fn explain_once(alloc: Global, out: &mut Transcript, text: &str, error: LoadError) {
    begin(alloc);
    let explained = explanation(alloc, text.as_bytes(), error);
    end(alloc);
    match explained {
        Ok(reason) => out.say_text(reason.as_bytes()),
        Err(_) => out.say(NO_MEMORY),
    }
}

/// Loads the program of this text with its names, and where it is one tells two times what is in it.
fn label_once(alloc: Global, out: &mut Transcript, text: &str) {
    begin(alloc);
    let named = load_named(alloc, text.as_bytes());
    end(alloc);
    match named {
        Ok(named) => tell_twice(alloc, out, &named),
        Err(error) => out.say(format_args!("refused {}", error.number())),
    }
}

/// Tells two times what is in a program.
fn tell_twice(alloc: Global, out: &mut Transcript, named: &NamedProgram) {
    tell_once(alloc, out, named);
    tell_once(alloc, out, named);
}

/// Tells what is in a program.
fn tell_once(alloc: Global, out: &mut Transcript, named: &NamedProgram) {
    let options = AccountOptions {
        numbers: true,
        rows: false,
        work: true,
        fingerprint: true,
        names: true,
    };
    begin(alloc);
    let told = program_account(alloc, named, options);
    end(alloc);
    match told {
        Ok(text) => out.say_text(text.as_bytes()),
        Err(_) => out.say(NO_MEMORY),
    }
}

/// Raises the program of the first line as each other line says, two times: to the version that is its first word, or by
/// `raise`; and tells whether the raised one is the program of the rest of the line.
pub(crate) fn raise_all(alloc: Global, out: &mut Transcript, program: &str, lines: &str) {
    match program_of(alloc, program) {
        Ok(program) => raise_each(alloc, out, &program, lines),
        Err(_) => out.fail("no program"),
    }
}

/// The same of a program that is loaded.
fn raise_each(alloc: Global, out: &mut Transcript, program: &Program, lines: &str) {
    for line in lines.lines() {
        let (word, wanted) = word_of(line);
        match program_of(alloc, wanted) {
            Ok(wanted) => raise_twice(alloc, out, program, word, &wanted),
            Err(_) => out.fail("no program"),
        }
    }
}

/// Raises a program two times, as this word says.
fn raise_twice(
    alloc: Global,
    out: &mut Transcript,
    program: &Program,
    word: &str,
    wanted: &Program,
) {
    raise_once(alloc, out, program, word, wanted);
    raise_once(alloc, out, program, word, wanted);
}

/// Raises a program.
fn raise_once(
    alloc: Global,
    out: &mut Transcript,
    program: &Program,
    word: &str,
    wanted: &Program,
) {
    begin(alloc);
    let raised = raised(alloc, program, word);
    end(alloc);
    match raised {
        Ok(raised) => {
            let (form, is_same) = (raised.form(), raised.is_same(wanted));
            out.say(format_args!("raised to {form:?}, the same {is_same}"));
        }
        Err(_) => out.say(NO_MEMORY),
    }
}

/// The program that is raised from this one to a version, or to none but `raise`.
fn raised(alloc: Global, program: &Program, word: &str) -> Result<Program, AllocError> {
    match form_of(word) {
        Some(form) => Program::raise_to(alloc, program, form),
        None => Program::raise(alloc, program),
    }
}

/// Makes the program `twice`, two times.
pub(crate) fn twice_twice(alloc: Global, out: &mut Transcript) {
    twice_once(alloc, out);
    twice_once(alloc, out);
}

/// Makes the program `twice`.
fn twice_once(alloc: Global, out: &mut Transcript) {
    begin(alloc);
    let made = Program::twice(alloc);
    end(alloc);
    match made {
        Ok(program) => out.say(format_args!("{} reactions", program.reactions().len())),
        Err(_) => out.say(NO_MEMORY),
    }
}
