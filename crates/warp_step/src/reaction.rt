//! Reactions, their copies and comparison.
ghost use Rattle.std.specs.Prelude.{◌≡◌, ◌↔◌, IsTrue, IfOk, map};
ghost use Rattle.std.specs.List.{list_any};
ghost use Rattle.warp_body.specs.declared.place.Target.TheVariants as to;
ghost use Rattle.warp_step.specs.Program.{rule_of};
ghost use Rattle.warp_step.specs.Valid.{names};

use std::alloc::Global;
use warp_body::{Stmt, Target, copy_body, same_body};
use warp_tag::OutOfMemory;

/// A reaction: it runs at a tag at which one of its triggers is present.
#[derive(Debug, Drop)]
pub struct Reaction {
    /// The number of its reactor.
    pub reactor: u32,
    /// What triggers it: startup, and timers, actions and inputs of its reactor.
    pub triggers: Vec<Target>,
    /// What it reads beside them.
    pub reads: Vec<Target>,
    /// The outputs and actions of its reactor that it writes.
    pub writes: Vec<Target>,
    /// What it does.
    pub body: Vec<Stmt>,
}

impl Reaction {
    /// The same reaction.
    fn copy(&self, alloc: Global) -> Result<Reaction, OutOfMemory>
        ensures { IfOk result (λ r. rule_of r ≡ rule_of self.now) }
    {
        let triggers = self.triggers.as_slice().to_vec(alloc)?;
        let reads = self.reads.as_slice().to_vec(alloc)?;
        let writes = self.writes.as_slice().to_vec(alloc)?;
        let body = copy_body(alloc, &self.body)?;
        Ok(Reaction {
            reactor: self.reactor,
            triggers,
            reads,
            writes,
            body,
        })
    }

    /// Whether two reactions are the same.
    fn is_same(&self, other: &Reaction) -> bool
        ensures { IsTrue result ↔ (rule_of self.now ≡ rule_of other.now) }
    {
        if self.reactor != other.reactor {
            return false;
        }
        same_targets(&self.triggers, &other.triggers)
            && same_targets(&self.reads, &other.reads)
            && same_targets(&self.writes, &other.writes)
            && same_body(&self.body, &other.body)
    }
}

fn same_targets(a: &[Target], b: &[Target]) -> bool
    ensures { IsTrue result ↔ (a.now ≡ b.now) }
{
    a == b
}

/// The same reactions.
pub(crate) fn copy_reactions(
    alloc: Global,
    reactions: &[Reaction],
) -> Result<Vec<Reaction>, OutOfMemory>
    ensures { IfOk result (λ copy. map rule_of copy.items ≡ map rule_of reactions.now) }
{
    let mut copy = Vec::with_capacity(alloc, reactions.len())?;
    for reaction in reactions {
        let next = reaction.copy(alloc)?;
        copy.push(next)?;
    }
    Ok(copy)
}

/// Whether two lists of reactions are the same.
pub(crate) fn same_reactions(a: &[Reaction], b: &[Reaction]) -> bool
    ensures { IsTrue result ↔ (map rule_of a.now ≡ map rule_of b.now) }
{
    if a.len() != b.len() {
        return false;
    }
    for i in 0..a.len() {
        if !a[i].is_same(&b[i]) {
            return false;
        }
    }
    true
}

/// Whether one of these reactions is triggered by startup.
pub(crate) fn begins(reactions: &[Reaction]) -> bool
    ensures { result ≡ list_any (λ r. names r.triggers to.Startup) (map rule_of reactions.now) }
{
    for reaction in reactions {
        if names(&reaction.triggers, Target::Startup) {
            return true;
        }
    }
    false
}

/// Whether the list names the target.
fn names(targets: &[Target], target: Target) -> bool
    ensures { result ≡ names targets.now target }
{
    targets.iter().any(|other| target.is_same(*other))
}
