//! Reactions with numbers in the place of names.
ghost use Rattle.std.specs.Prelude.{◌≡◌, ◌++◌, ◌∷◌, [], IfOk, OnOk, false, map, if◌then◌else◌};
ghost use Rattle.warp_step.specs.Program.{rule_of};
ghost use Rattle.warp_step.specs.Valid.{names};
ghost use Rattle.warp_prog.specs.Numbered.{readable, writable, once, numbered_reaction};
ghost use Rattle.warp_prog.specs.inner.Room.{HasRoom, loops_exceed};
ghost use Rattle.warp_prog.specs.View.{reactor_tree, reaction_tree};

use crate::file::{Reaction, Reactor};
use crate::name::Name;
use crate::numbered::body::numbered_body;
use crate::numbered::place::{readable, writable};
use crate::scope::Before;
use std::alloc::Global;
use warp_body::Target;
use warp_tag::OutOfMemory;

/// Whether a target is one of these.
pub(crate) fn names(targets: &[Target], target: Target) -> bool
    ensures { result ≡ names targets.now target }
{
    for one in targets {
        if target.is_same(*one) {
            return true;
        }
    }
    false
}

/// Adds a target to these, if it is none of them.
fn add_once(targets: &mut Vec<Target>, target: Target) -> Result<(), OutOfMemory>
    ensures { let old = targets.old.items in
        OnOk result (targets.new.items ≡ (if names old target then old else old ++ target ∷ [])) }
{
    if !names(targets, target) {
        targets.push(target)?;
    }
    Ok(())
}

/// What these names stand for where something is read, each once.
fn all_readable(
    alloc: Global,
    before: &Before,
    reactor: &Reactor,
    names: &[Name],
) -> Result<Vec<Target>, OutOfMemory>
    requires { HasRoom before.now (reactor_tree reactor.now) }
    ensures { IfOk result (λ ts. ts.items ≡ once (map (readable before.now (reactor_tree reactor.now)) names.now)) }
{
    let mut targets = Vec::new(alloc);
    for name in names {
        add_once(&mut targets, readable(before, reactor, name))?;
    }
    Ok(targets)
}

/// What these names stand for where something is written, each once.
fn all_writable(
    alloc: Global,
    before: &Before,
    reactor: &Reactor,
    names: &[Name],
) -> Result<Vec<Target>, OutOfMemory>
    requires { HasRoom before.now (reactor_tree reactor.now) }
    ensures { IfOk result (λ ts. ts.items ≡ once (map (writable before.now (reactor_tree reactor.now)) names.now)) }
{
    let mut targets = Vec::new(alloc);
    for name in names {
        add_once(&mut targets, writable(before, reactor, name))?;
    }
    Ok(targets)
}

/// A reaction of a reactor.
pub(crate) fn numbered_reaction(
    alloc: Global,
    before: &Before,
    reactor: &Reactor,
    reaction: &Reaction,
) -> Result<warp_step::Reaction, OutOfMemory>
    requires room { HasRoom before.now (reactor_tree reactor.now) }
    requires loops { loops_exceed (reaction_tree reaction.now).body ≡ false }
    ensures { let r = reactor_tree reactor.now in
        IfOk result (λ n. rule_of n ≡ numbered_reaction before.now r (reaction_tree reaction.now)) }
{
    let triggers = all_readable(alloc, before, reactor, &reaction.triggers)?;
    let reads = all_readable(alloc, before, reactor, &reaction.reads)?;
    let writes = all_writable(alloc, before, reactor, &reaction.writes)?;
    let body = numbered_body(alloc, before, reactor, &reaction.body)?;
    Ok(warp_step::Reaction {
        reactor: before.reactors as u32,
        triggers,
        reads,
        writes,
        body,
    })
}
