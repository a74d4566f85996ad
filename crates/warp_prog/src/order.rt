//! The order in which a step runs the reactions of a program: the least numbered first whose predecessors all stand.
//!
//! For each reaction its predecessors are listed once, by marks on the ports that it waits for; then each turn looks
//! along the reactions for the first that does not stand while all of these do.
ghost use Rattle.std.specs.Prelude.{◌≡◌, ◌<◌, ◌^◌, true, false, ◌++◌, replicate, length, map, slice_set};
ghost use Rattle.std.specs.Prelude.{IfOk, OnOk, IfSome};
ghost use Rattle.std.specs.List.{list_any, list_all};
ghost use Rattle.warp_body.specs.declared.place.Target.TheVariants.{Port};
ghost use Rattle.warp_body.specs.Presence.{is_target};
ghost use Rattle.warp_step.specs.Named.{names};
ghost use Rattle.warp_step.specs.Program.{rule_of};
ghost use Rattle.warp_step.specs.View.{program_of};
ghost use Rattle.warp_step.specs.Order.{file_order};
ghost use Rattle.warp_prog.specs.Order.{predecessors, loader_order, stands_in};
ghost use Rattle.warp_prog.specs.inner.Placing.{numbers_of, has_flag, may_follow, first_free, placed_behind};
ghost use Rattle.warp_prog.specs.inner.Placing.{reads_by, sources_read, comes_before, with_number, AreMarks};

use crate::numbered::reaction::names;
use std::alloc::Global;
use warp_body::Target;
use warp_step::{Link, Parts, Reaction};
use warp_tag::OutOfMemory;

/// The order of the reactions in the file.
pub(crate) fn file_order(alloc: Global, parts: &Parts) -> Result<Vec<u32>, OutOfMemory>
    requires { length parts.now.reactions.items < 2 ^ 32 }
    ensures { IfOk result (λ order. order.items ≡ file_order (program_of parts.now)) }
{
    let mut order = Vec::with_capacity(alloc, parts.reactions.len())?;
    for n in 0..parts.reactions.len() {
        order.push(n as u32)?;
    }
    Ok(order)
}

/// The reactions of a program, as far as they can be put in order.
#[derive(Drop)]
pub(crate) struct Placing {
    /// For each reaction those that precede it.
    pub before: Vec<Vec<u32>>,
    /// Whether each stands.
    pub placed: Vec<bool>,
    /// Those that stand, in order.
    pub order: Vec<u32>,
}

/// The loader's order of reactions. It has fewer than there are exactly where no order is admissible.
pub(crate) fn loader_order(alloc: Global, parts: &Parts) -> Result<Vec<u32>, OutOfMemory>
    requires { length parts.now.reactions.items < 2 ^ 32 }
    ensures { IfOk result (λ order. order.items ≡ loader_order (program_of parts.now)) }
{
    let placing = place_reactions(alloc, parts)?;
    Ok(placing.order)
}

/// Puts the reactions of a program in the loader's order, as far as there is one.
pub(crate) fn place_reactions(alloc: Global, parts: &Parts) -> Result<Placing, OutOfMemory>
    requires { length parts.now.reactions.items < 2 ^ 32 }
    ensures before { let P = program_of parts.now in
        IfOk result (λ p. map numbers_of p.before.items ≡ map (predecessors P) (file_order P)) }
    ensures order { IfOk result (λ p. p.order.items ≡ loader_order (program_of parts.now)) }
{
    let before = all_predecessors(alloc, parts)?;
    let mut placed = none_placed(alloc, before.len())?;
    let mut order = Vec::with_capacity(alloc, before.len())?;
    place_all(&before, &mut placed, &mut order)?;
    Ok(Placing {
        before,
        placed,
        order,
    })
}

/// So many flags, for reactions none of which stands.
fn none_placed(alloc: Global, count: usize) -> Result<Vec<bool>, OutOfMemory>
    ensures { IfOk result (λ flags. flags.items ≡ replicate count false) }
{
    vec![in alloc; false; count]
}

/// Puts reactions behind those that stand, each the least numbered that may follow, as long as one may.
fn place_all(
    before: &[Vec<u32>],
    placed: &mut [bool],
    order: &mut Vec<u32>,
) -> Result<(), OutOfMemory>
    requires few { length before.now < 2 ^ 32 }
    requires flags { length placed.old ≡ length before.now }
    ensures { let its = map numbers_of before.now in
        OnOk result (order.new.items ≡ placed_behind (length before.now) its placed.old order.old.items) }
{
    for _turn in 0..before.len() {
        let Some(next) = first_free(before, placed) else {
            return Ok(());
        };
        placed[next as usize] = true;
        order.push(next)?;
    }
    Ok(())
}

/// The least numbered reaction that may follow those that stand.
fn first_free(before: &[Vec<u32>], placed: &[bool]) -> Option<u32>
    requires { length before.now < 2 ^ 32 }
    ensures first { result ≡ first_free placed.now 0 (map numbers_of before.now) }
    ensures within { IfSome result (λ n. n < length before.now) }
{
    for (n, its) in before.iter().enumerate() {
        if may_follow(placed, n, its) {
            return Some(n as u32);
        }
    }
    None
}

/// Whether a reaction does not stand, while those before it do.
fn may_follow(placed: &[bool], n: usize, before: &[u32]) -> bool
    ensures { result ≡ may_follow placed.now n before.now }
{
    !is_placed(placed, n) && all_placed(placed, before)
}

/// Whether a reaction stands.
pub(crate) fn is_placed(placed: &[bool], n: usize) -> bool
    ensures { result ≡ has_flag placed.now n }
{
    match placed.get(n) {
        Some(flag) => *flag,
        None => false,
    }
}

/// Whether all of these reactions stand.
fn all_placed(placed: &[bool], reactions: &[u32]) -> bool
    ensures { result ≡ list_all (has_flag placed.now) reactions.now }
{
    for n in reactions {
        if !is_placed(placed, *n as usize) {
            return false;
        }
    }
    true
}

/// For each reaction those that precede it.
fn all_predecessors(alloc: Global, parts: &Parts) -> Result<Vec<Vec<u32>>, OutOfMemory>
    requires { length parts.now.reactions.items < 2 ^ 32 }
    ensures { let P = program_of parts.now in
        IfOk result (λ all. map numbers_of all.items ≡ map (predecessors P) (file_order P)) }
{
    let mut all = Vec::with_capacity(alloc, parts.reactions.len())?;
    for n in 0..parts.reactions.len() {
        let before = predecessors(alloc, parts, n)?;
        all.push(before)?;
    }
    Ok(all)
}

/// The reactions that precede one.
fn predecessors(alloc: Global, parts: &Parts, n: usize) -> Result<Vec<u32>, OutOfMemory>
    requires few { length parts.now.reactions.items < 2 ^ 32 }
    requires within { n < length parts.now.reactions.items }
    ensures { IfOk result (λ before. before.items ≡ predecessors (program_of parts.now) n) }
{
    let reaction = &parts.reactions[n];
    let sources = sources_read(alloc, reaction, &parts.links)?;
    let marks = marked_ports(alloc, &sources, parts.ports.len())?;
    let mut before = Vec::new(alloc);
    for (m, first) in parts.reactions.iter().enumerate() {
        let is_before = comes_before(first, m, reaction, n, &sources, &marks);
        push_if(&mut before, is_before, m as u32)?;
    }
    Ok(before)
}

/// Marks for so many ports: whether each is among these.
fn marked_ports(alloc: Global, ports: &[u32], count: usize) -> Result<Vec<bool>, OutOfMemory>
    ensures { IfOk result (λ marks. AreMarks marks.items ports.now) }
{
    let mut marks = none_placed(alloc, count)?;
    for port in ports {
        mark(&mut marks, *port as usize);
    }
    Ok(marks)
}

/// Sets the mark of a number, if it has one.
fn mark(marks: &mut Vec<bool>, n: usize)
    ensures { marks.new.items ≡ slice_set marks.old.items n true }
{
    if n < marks.len() {
        marks[n] = true;
    }
}

/// Whether a reaction precedes another that reads these sources without delay, which have these marks.
fn comes_before(
    first: &Reaction,
    m: usize,
    second: &Reaction,
    n: usize,
    sources: &[u32],
    marks: &[bool],
) -> bool
    requires { AreMarks marks.now sources.now }
    ensures { result ≡ comes_before (rule_of first.now) m (rule_of second.now) n sources.now }
{
    (first.reactor == second.reactor && m < n) || writes_any(first, sources, marks)
}

/// Whether a reaction writes one of these ports, which have these marks.
fn writes_any(reaction: &Reaction, ports: &[u32], marks: &[bool]) -> bool
    requires { AreMarks marks.now ports.now }
    ensures { result ≡ list_any (λ p. names reaction.now.writes.items (Port p)) ports.now }
{
    any_is_one_of(&reaction.writes, ports, marks)
}

/// Whether some target is one of these ports, which have these marks.
fn any_is_one_of(targets: &[Target], ports: &[u32], marks: &[bool]) -> bool
    requires { AreMarks marks.now ports.now }
    ensures { result ≡ list_any (λ t. list_any (λ p. is_target (Port p) t) ports.now) targets.now }
{
    for target in targets {
        if is_one_of(*target, ports, marks) {
            return true;
        }
    }
    false
}

/// Whether a target is one of these ports, which have these marks.
fn is_one_of(target: Target, ports: &[u32], marks: &[bool]) -> bool
    requires { AreMarks marks.now ports.now }
    ensures { result ≡ list_any (λ p. is_target (Port p) target) ports.now }
{
    match target {
        Target::Port(port) => is_marked(port, ports, marks),
        _ => false,
    }
}

/// Whether a number is among these, which have these marks. Those past the marks are looked through.
fn is_marked(number: u32, numbers: &[u32], marks: &[bool]) -> bool
    requires { AreMarks marks.now numbers.now }
    ensures { result ≡ stands_in numbers.now number }
{
    match marks.get(number as usize) {
        Some(flag) => *flag,
        None => has_number(numbers, number),
    }
}

/// Whether a number is among these.
fn has_number(numbers: &[u32], number: u32) -> bool
    ensures { result ≡ stands_in numbers.now number }
{
    for one in numbers {
        if *one == number {
            return true;
        }
    }
    false
}

/// The outputs that lead without delay to an input that a reaction names.
fn sources_read(alloc: Global, reaction: &Reaction, links: &[Link]) -> Result<Vec<u32>, OutOfMemory>
    ensures { IfOk result (λ ports. ports.items ≡ sources_read (rule_of reaction.now) links.now) }
{
    let mut ports = Vec::new(alloc);
    for link in links {
        push_if(&mut ports, reads_by(reaction, link), link.source)?;
    }
    Ok(ports)
}

/// Puts a number behind others, where a test says so.
fn push_if(numbers: &mut Vec<u32>, test: bool, number: u32) -> Result<(), OutOfMemory>
    ensures { OnOk result (numbers.new.items ≡ with_number test number numbers.old.items) }
{
    if test {
        numbers.push(number)?;
    }
    Ok(())
}

/// Whether a link leads without delay to an input that a reaction names.
fn reads_by(reaction: &Reaction, link: &Link) -> bool
    ensures { result ≡ reads_by (rule_of reaction.now) link.now }
{
    link.delay.is_none() && reads_port(reaction, link.target)
}

/// Whether a reaction names a port in `on` or `reads`.
#[tactic(auto, using(crate::proofs::Anys::anys))]
fn reads_port(reaction: &Reaction, port: u32) -> bool
    ensures { result ≡ names (reaction.now.triggers.items ++ reaction.now.reads.items) (Port port) }
{
    names(&reaction.triggers, Target::Port(port)) || names(&reaction.reads, Target::Port(port))
}
