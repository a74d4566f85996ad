//! Which reactions wait for each other where no order of them is admissible.
//!
//! Each reaction that never got ready waits for one that did not either. So a walk from any of them to one that it
//! waits for, and on, comes into a circle after as many steps as there are reactions, and is then along it.
ghost use Rattle.std.specs.Prelude.{◌≡◌, ◌<◌, ◌^◌, true, IfOk, IfSome, length, map, get_or, []};
ghost use Rattle.warp_step.specs.View.{program_of};
ghost use Rattle.warp_prog.specs.inner.Circle.{is_circle, turns_back};
ghost use Rattle.warp_prog.specs.Exceeds.{exceeds_limits};
ghost use Rattle.warp_prog.specs.Numbered.{unordered};
ghost use Rattle.warp_prog.specs.Order.{stands_in};
ghost use Rattle.warp_prog.specs.View.{file_tree};
ghost use Rattle.warp_prog.specs.inner.Placing.{numbers_of, awaits};

use crate::explain::trail::Trail;
use crate::file::{ProgramFile, Reactor};
use crate::limits::exceeds_limits;
use crate::numbered::numbered;
use crate::order::{is_placed, place_reactions};
use std::alloc::{AllocError, Global};
use warp_step::Parts;

/// The numbers of reactions of a file each of which waits for the next, and the last for the first, which is the least
/// numbered; none where there is no such circle.
pub(crate) fn circle_of(alloc: Global, file: &ProgramFile) -> Result<Vec<u32>, AllocError>
    ensures { IfOk result (λ circle. is_circle (unordered (file_tree file.now)) circle.items ≡ true) }
{
    if is_past_limits(file) {
        return Ok(Vec::new(alloc));
    }
    let parts = numbered(alloc, file)?;
    circle_in(alloc, &parts)
}

/// The same of the parts of a program.
fn circle_in(alloc: Global, parts: &Parts) -> Result<Vec<u32>, AllocError>
    requires { length parts.now.reactions.items < 2 ^ 32 }
    ensures { IfOk result (λ circle. is_circle (program_of parts.now) circle.items ≡ true) }
{
    let placing = place_reactions(alloc, parts)?;
    circle_among(alloc, &placing.before, &placing.placed)
}

/// Whether a file goes past a limit; nobody asks where.
fn is_past_limits(file: &ProgramFile) -> bool
    ensures { result ≡ exceeds_limits (file_tree file.now) }
{
    let mut at = Trail::new();
    exceeds_limits(file, &mut at)
}

/// A circle among the reactions that do not stand.
fn circle_among(alloc: Global, before: &[Vec<u32>], placed: &[bool]) -> Result<Vec<u32>, AllocError>
    ensures { IfOk result (λ circle. turns_back (awaits (map numbers_of before.now)) circle.items ≡ true) }
{
    let Some(left) = first_left(placed) else {
        return Ok(Vec::new(alloc));
    };
    circle_from(alloc, before, placed, least_of_circle(before, placed, left))
}

/// The least numbered reaction that does not stand.
fn first_left(placed: &[bool]) -> Option<u32> {
    for (n, flag) in placed.iter().enumerate() {
        if !*flag {
            return u32::try_from(n).ok();
        }
    }
    None
}

/// The least numbered of the reactions that one waits for, of those that do not stand.
fn awaited(before: &[Vec<u32>], placed: &[bool], n: u32) -> Option<u32>
    ensures { IfSome result (λ m. awaits (map numbers_of before.now) n m ≡ true) }
{
    let its = before.get(n as usize)?;
    first_missing(its, placed)
}

/// The first of these reactions that does not stand.
fn first_missing(reactions: &[u32], placed: &[bool]) -> Option<u32>
    ensures { IfSome result (λ m. stands_in reactions.now m ≡ true) }
{
    for m in reactions {
        if !is_placed(placed, *m as usize) {
            return Some(*m);
        }
    }
    None
}

/// The least numbered reaction of the circle into which a walk from this one comes: after as many steps as there are
/// reactions it is in there, and it sees all of it in as many more.
fn least_of_circle(before: &[Vec<u32>], placed: &[bool], first: u32) -> u32 {
    let count = before.len();
    let mut least = first;
    let mut last = first;
    for step in 0..count.saturating_mul(2) {
        let Some(next) = awaited(before, placed, last) else {
            return least;
        };
        least = if step < count { next } else { least.min(next) };
        last = next;
    }
    least
}

/// The reactions on a walk until it is back at its first; none where it does not come back.
fn circle_from(
    alloc: Global,
    before: &[Vec<u32>],
    placed: &[bool],
    first: u32,
) -> Result<Vec<u32>, AllocError>
    ensures { IfOk result (λ circle. turns_back (awaits (map numbers_of before.now)) circle.items ≡ true) }
{
    let mut circle = Vec::new(alloc);
    let mut last = first;
    for _step in 0..before.len() {
        let Some(next) = awaited(before, placed, last) else {
            return Ok(Vec::new(alloc));
        };
        circle.push(last)?;
        if next == first {
            return Ok(circle);
        }
        last = next;
    }
    Ok(Vec::new(alloc))
}

/// The place of the reactor that has the reaction of this number, the reactor, and the reaction's place in it.
pub(crate) fn seat_of(reactors: &[Reactor], number: u32) -> Option<(usize, &Reactor, usize)> {
    let mut left = number as usize;
    for (i, reactor) in reactors.iter().enumerate() {
        let count = reactor.reactions.len();
        if left < count {
            return Some((i, reactor, left));
        }
        left -= count;
    }
    None
}

/// Writes the reactions of a circle in the order in which they wait, and at the end the first again.
pub(crate) fn write_circle(
    text: &mut String,
    circle: &[u32],
    reactors: &[Reactor],
) -> Result<(), AllocError> {
    text.push_str("waits for itself through links without delay: ")?;
    for number in circle {
        write_reaction(text, *number, reactors)?;
        text.push_str(" -> ")?;
    }
    match circle.first() {
        Some(number) => write_reaction(text, *number, reactors),
        None => Ok(()),
    }
}

fn write_reaction(text: &mut String, number: u32, reactors: &[Reactor]) -> Result<(), AllocError> {
    match seat_of(reactors, number) {
        Some((_, reactor, n)) => {
            let name = reactor.name.as_str();
            write!(text, "\"{name}\" reactions[{n}]")
        }
        None => Ok(()),
    }
}
