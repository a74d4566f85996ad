//! What the words of a host say of the origins that it keeps and of their clock, and what that is over its program.
ghost use Rattle.std.specs.Prelude.{◌≡◌, IfErr};
ghost use Rattle.warpd.specs.Outcome.{KeepsFromHosting};

use crate::host_words::or_memory;
use crate::outcome::Outcome;
use crate::telling::{tell_unkept, tell_word};
use std::alloc::{AllocError, Global};
use std::io::Eprint;
use warp_clock::{Hertz, Pause};
use warp_keep::Keeping;
use warp_line::Timeline;
use warp_machine::{ClockOptions, TickInput};
use warp_replica::Replica;
use warp_step::Program;
use warp_words::HostJob;

/// How many inputs of an origin a tick takes where nothing is said.
const DEFAULT_INPUTS: u32 = 16;

/// An origin, or an input, has no more digits.
const MOST_DIGITS: usize = 6;

/// What is asked of kept origins and their clock.
#[derive(Drop)]
pub(crate) struct ClockPlan {
    hertz: Hertz,
    /// The origins that are to be kept; all where none are named.
    keep: Option<Vec<u32>>,
    grace: u32,
    pause: Pause,
    /// The word that names the input which gets the ticks.
    tick: Option<String>,
    most_inputs: u32,
}

/// What a host keeps of its program's origins, and by which clock.
#[derive(Clone, Copy)]
pub(crate) struct Kept {
    pub(crate) keeping: Keeping,
    pub(crate) clock: Option<ClockOptions>,
    pub(crate) most_inputs: u32,
}

/// What is asked of kept origins and their clock, if a clock is.
pub(crate) fn clock_of<X: Eprint>(
    rt: &X,
    alloc: Global,
    job: &HostJob<'_>,
) -> Result<Option<ClockPlan>, Outcome>
    ensures { IfErr result KeepsFromHosting }
{
    let Some(hertz) = hertz_of(job.clock) else {
        return without_clock(rt, job);
    };
    if let Some(peer) = job.peers.first() {
        tell_word(rt, "--peer", *peer, "a host with a clock follows nobody");
        return Err(Outcome::ClockWithPeers);
    }
    let keep = keep_of(rt, alloc, job.keep)?;
    let pause = pause_of(rt, job.pause)?;
    let tick = or_memory(word_of(alloc, job.tick))?;
    Ok(Some(ClockPlan {
        hertz,
        keep,
        grace: number_or(job.grace, quarter_of(hertz)),
        pause,
        tick,
        most_inputs: number_or(job.inputs_a_tick, DEFAULT_INPUTS),
    }))
}

/// How many ticks a second a clock has that is asked for.
fn hertz_of(asked: Option<u64>) -> Option<Hertz> {
    Hertz::new(u32::try_from(asked?).unwrap_or(0))
}

/// So many ticks are a quarter of a second, or more, and one at least.
fn quarter_of(hertz: Hertz) -> u32 {
    hertz.number().div_ceil(4)
}

/// This number, or that where none was found.
fn number_or(found: Option<u64>, other: u32) -> u32 {
    match found {
        Some(number) => u32::try_from(number).unwrap_or(other),
        None => other,
    }
}

/// This word, if there is one.
fn word_of(alloc: Global, word: Option<&str>) -> Result<Option<String>, AllocError> {
    match word {
        Some(word) => Ok(Some(String::from_str(alloc, word)?)),
        None => Ok(None),
    }
}

/// No clock is asked for: nor may anything be that wants one. The first such word is told.
fn without_clock<X: Eprint>(rt: &X, job: &HostJob<'_>) -> Result<Option<ClockPlan>, Outcome>
    ensures { IfErr result KeepsFromHosting }
{
    let Some((option, word)) = first_without(job) else {
        return Ok(None);
    };
    tell_word(rt, option, word, "there is no --clock");
    Err(Outcome::NoClock)
}

/// The first option that wants a clock, with its word; of a number no word is known.
fn first_without<'a>(job: &HostJob<'a>) -> Option<(&'static str, &'a str)> {
    if let Some(word) = job.keep {
        return Some(("--keep", word));
    }
    if job.grace.is_some() {
        return Some(("--grace", ".."));
    }
    if let Some(word) = job.pause {
        return Some(("--pause", word));
    }
    if let Some(word) = job.tick {
        return Some(("--tick", word));
    }
    if job.inputs_a_tick.is_some() {
        return Some(("--inputs-a-tick", ".."));
    }
    None
}

/// What a clock does behind a pause.
fn pause_of<X: Eprint>(rt: &X, word: Option<&str>) -> Result<Pause, Outcome>
    ensures { IfErr result KeepsFromHosting }
{
    let Some(word) = word else {
        return Ok(Pause::Stand);
    };
    if word == "stand" {
        return Ok(Pause::Stand);
    }
    if word == "jump" {
        return Ok(Pause::Jump);
    }
    tell_word(rt, "--pause", word, "no such way");
    Err(Outcome::NoPause)
}

/// The origins that are to be kept: those of a list, or all.
fn keep_of<X: Eprint>(
    rt: &X,
    alloc: Global,
    word: Option<&str>,
) -> Result<Option<Vec<u32>>, Outcome>
    ensures { IfErr result KeepsFromHosting }
{
    let word = word.unwrap_or("all");
    if word == "all" {
        return Ok(None);
    }
    let mut origins = Vec::new(alloc);
    for piece in word.as_bytes().split(|byte| *byte == b',') {
        let Some(origin) = decimal(piece) else {
            tell_word(rt, "--keep", word, "no list of origins");
            return Err(Outcome::NoKeep);
        };
        or_memory(pushed(&mut origins, origin))?;
    }
    Ok(Some(origins))
}

/// Puts this behind the others.
fn pushed(numbers: &mut Vec<u32>, number: u32) -> Result<(), AllocError> {
    numbers.push(number)?;
    Ok(())
}

/// The number that these digits spell, as it is written.
fn decimal(digits: &[u8]) -> Option<u32> {
    if digits.is_empty() || digits.len() > MOST_DIGITS || (digits.len() > 1 && digits[0] == b'0') {
        return None;
    }
    let mut number = 0u32;
    for digit in digits {
        if !digit.is_ascii_digit() {
            return None;
        }
        number = number
            .saturating_mul(10)
            .saturating_add(u32::from(*digit - b'0'));
    }
    Some(number)
}

/// What a host keeps of this program, whose inputs have these names.
pub(crate) fn kept_of<X: Eprint>(
    rt: &X,
    plan: &Option<ClockPlan>,
    program: &Program,
    names: &[String],
) -> Result<Kept, Outcome>
    ensures { IfErr result KeepsFromHosting }
{
    let Some(plan) = plan else {
        return Ok(Kept {
            keeping: Keeping::Nothing,
            clock: None,
            most_inputs: DEFAULT_INPUTS,
        });
    };
    let keeping = keeping_of(rt, &plan.keep, program)?;
    let tick = tick_of(rt, &plan.tick, &keeping, program, names)?;
    Ok(Kept {
        keeping,
        clock: Some(ClockOptions {
            hertz: plan.hertz,
            grace: plan.grace,
            pause: plan.pause,
            tick,
        }),
        most_inputs: plan.most_inputs,
    })
}

/// The origins of the program that are to be kept.
fn keeping_of<X: Eprint>(
    rt: &X,
    keep: &Option<Vec<u32>>,
    program: &Program,
) -> Result<Keeping, Outcome>
    ensures { IfErr result KeepsFromHosting }
{
    let Some(origins) = keep else {
        return Ok(Keeping::All);
    };
    let are_there = origins.iter().all(|origin| *origin < program.origins());
    match Keeping::of(origins) {
        Some(keeping) if are_there => Ok(keeping),
        _ => {
            tell_word(rt, "--keep", "O,O,..", "the program has no such origin");
            Err(Outcome::NoKeep)
        }
    }
}

/// The input that gets the ticks, if one is to: one of the program, of an origin that is kept.
fn tick_of<X: Eprint>(
    rt: &X,
    word: &Option<String>,
    keeping: &Keeping,
    program: &Program,
    names: &[String],
) -> Result<Option<TickInput>, Outcome>
    ensures { IfErr result KeepsFromHosting }
{
    let Some(word) = word else {
        return Ok(None);
    };
    let Some(found) = input_of(word.as_str(), program, names) else {
        tell_word(rt, "--tick", word.as_str(), "the program has no such input");
        return Err(Outcome::NoTick);
    };
    if !keeping.keeps(found.origin) {
        tell_word(rt, "--tick", word.as_str(), "its origin is not kept");
        return Err(Outcome::NoTick);
    }
    Ok(Some(found))
}

/// The input that this word names, by its number or by its name.
fn input_of(word: &str, program: &Program, names: &[String]) -> Option<TickInput> {
    let number = match decimal(word.as_bytes()) {
        Some(number) => number as usize,
        None => names.iter().position(|name| name.as_str() == word)?,
    };
    let input = program.inputs().get(number)?;
    Some(TickInput {
        origin: input.origin,
        input: u32::try_from(number).unwrap_or(u32::MAX),
    })
}

/// Whether the origins may be kept over the log of this replica. The first that may not is told.
pub(crate) fn check_kept<X: Eprint, T: Timeline>(
    rt: &X,
    keeping: &Keeping,
    replica: &Replica<T>,
) -> Result<(), Outcome>
    ensures { IfErr result KeepsFromHosting }
{
    match keeping.may_keep(replica) {
        Ok(()) => Ok(()),
        Err(origin) => {
            tell_unkept(rt, origin);
            Err(Outcome::NotKept(u64::from(origin)))
        }
    }
}
