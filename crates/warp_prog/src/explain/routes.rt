//! Where what comes to a target of a program leads: by a reaction to what that puts and schedules, by a link to its port.
ghost use Rattle.std.specs.Prelude.{◌≡◌, ◌++◌, ◌∷◌, [], IfOk, OnOk, None, map, max};
ghost use Rattle.std.specs.Option.{option_map_or};
ghost use Rattle.warp_body.specs.Effect.{statement_of, statements_of};
ghost use Rattle.warp_prog.specs.Waits.{all_ways, delay_at, link_passage, link_way, longest_in, longest_of, passage_of, passages};
ghost use Rattle.warp_prog.specs.Waits.{reaction_passage, scheduled, ways_to};
ghost use Rattle.warp_step.specs.Program.{rule_of};

use std::alloc::{AllocError, Global};
use warp_body::{Stmt, Target};
use warp_step::{Action, Link, Program, Reaction};

/// A reaction or a link: what comes to one of the first targets leads to the others.
#[derive(Drop)]
pub(crate) struct Route {
    pub from: Vec<Target>,
    pub to: Vec<Way>,
}

/// A target to which something leads, and how long after what leads there.
#[derive(Clone, Copy)]
pub(crate) struct Way {
    pub target: Target,
    pub delay: u64,
}

/// The reactions and the links of a program.
pub(crate) fn routes_of(alloc: Global, program: &Program) -> Result<Vec<Route>, AllocError>
    ensures { IfOk result (λ routes. map passage_of routes.items ≡ passages program.now) }
{
    let mut routes = Vec::new(alloc);
    add_reactions(alloc, &mut routes, program.actions(), program.reactions())?;
    add_links(alloc, &mut routes, program.links())?;
    Ok(routes)
}

/// Adds these reactions.
fn add_reactions(
    alloc: Global,
    routes: &mut Vec<Route>,
    actions: &[Action],
    reactions: &[Reaction],
) -> Result<(), AllocError>
    ensures { OnOk result (map passage_of routes.new.items
        ≡ map passage_of routes.old.items ++ map (reaction_passage actions.now) (map rule_of reactions.now)) }
{
    for reaction in reactions {
        let route = reaction_route(alloc, actions, reaction)?;
        routes.push(route)?;
    }
    Ok(())
}

/// A reaction.
fn reaction_route(
    alloc: Global,
    actions: &[Action],
    reaction: &Reaction,
) -> Result<Route, AllocError>
    ensures { IfOk result (λ route. passage_of route ≡ reaction_passage actions.now (rule_of reaction.now)) }
{
    let from = reaction.triggers.as_slice().to_vec(alloc)?;
    let to = ways(alloc, actions, &reaction.body, &reaction.writes)?;
    Ok(Route { from, to })
}

/// Where a reaction with this body leads that writes these.
fn ways(
    alloc: Global,
    actions: &[Action],
    body: &[Stmt],
    writes: &[Target],
) -> Result<Vec<Way>, AllocError>
    ensures { IfOk result (λ ways. ways.items ≡ all_ways actions.now (statements_of body.now) writes.now) }
{
    let mut ways = Vec::new(alloc);
    for target in writes {
        add_way(&mut ways, actions, body, target)?;
    }
    Ok(ways)
}

/// Adds where a reaction with this body leads that writes this target: to a port at once, to an action that the body
/// schedules after the longest delay.
fn add_way(
    ways: &mut Vec<Way>,
    actions: &[Action],
    body: &[Stmt],
    target: &Target,
) -> Result<(), AllocError>
    ensures { OnOk result (ways.new.items
        ≡ ways.old.items ++ ways_to actions.now (statements_of body.now) target.now) }
{
    match *target {
        Target::Startup | Target::Timer(_) => Ok(()),
        Target::Action(action) => {
            add_scheduled(ways, actions, action, longest_in(action, body, None))
        }
        Target::Port(_) => add(ways, *target, 0),
    }
}

/// Adds that an action is scheduled, if it is, with this delay behind its own.
fn add_scheduled(
    ways: &mut Vec<Way>,
    actions: &[Action],
    action: u32,
    longest: Option<u64>,
) -> Result<(), AllocError>
    ensures { OnOk result (ways.new.items ≡ ways.old.items ++ scheduled actions.now action longest) }
{
    match longest {
        None => Ok(()),
        Some(delay) => {
            let delay = delay_at(actions, action).saturating_add(delay);
            add(ways, Target::Action(action), delay)
        }
    }
}

/// Adds a way.
fn add(ways: &mut Vec<Way>, target: Target, delay: u64) -> Result<(), AllocError>
    ensures { OnOk result
        (ways.new.items ≡ ways.old.items ++ (record { target = target; delay = delay }) ∷ []) }
{
    ways.push(Way { target, delay })?;
    Ok(())
}

/// The minimum delay of the action with this number.
fn delay_at(actions: &[Action], action: u32) -> u64
    ensures { result ≡ delay_at actions.now action }
{
    match actions.get(action as usize) {
        Some(action) => action.delay,
        None => 0,
    }
}

/// The longest of the delays with which a body schedules an action, and of one found before; `None` where there is none.
#[cycle(longest_in)]
fn longest_in(action: u32, body: &[Stmt], found: Option<u64>) -> Option<u64>
    ensures { result ≡ longest_in action (statements_of body.now) found }
{
    let mut longest = found;
    for statement in body {
        longest = longest_of(action, statement, longest);
    }
    longest
}

/// The same of a statement.
#[cycle(longest_in)]
fn longest_of(action: u32, statement: &Stmt, found: Option<u64>) -> Option<u64>
    ensures { result ≡ longest_of action (statement_of statement.now) found }
{
    match statement {
        Stmt::Set(..) | Stmt::SetAt(..) | Stmt::Put(..) => found,
        Stmt::Schedule(scheduled, delay, _) => {
            if *scheduled == action {
                Some(longer(found, *delay))
            } else {
                found
            }
        }
        Stmt::If(_, first, second) => {
            let longest = longest_in(action, first, found);
            longest_in(action, second, longest)
        }
        Stmt::While(_, _, turn) => longest_in(action, turn, found),
    }
}

/// The longer of a delay found before, if there is one, and this one.
fn longer(found: Option<u64>, delay: u64) -> u64
    ensures { result ≡ option_map_or (max delay) found delay }
{
    match found {
        Some(before) => if before > delay { before } else { delay },
        None => delay,
    }
}

/// Adds these links.
fn add_links(alloc: Global, routes: &mut Vec<Route>, links: &[Link]) -> Result<(), AllocError>
    ensures { OnOk result (map passage_of routes.new.items
        ≡ map passage_of routes.old.items ++ map link_passage links.now) }
{
    for link in links {
        let route = link_route(alloc, link)?;
        routes.push(route)?;
    }
    Ok(())
}

/// A link.
fn link_route(alloc: Global, link: &Link) -> Result<Route, AllocError>
    ensures { IfOk result (λ route. passage_of route ≡ link_passage link.now) }
{
    let mut from = Vec::new(alloc);
    from.push(Target::Port(link.source))?;
    let mut to = Vec::new(alloc);
    to.push(link_way(link))?;
    Ok(Route { from, to })
}

/// Where a link leads.
fn link_way(link: &Link) -> Way
    ensures { result ≡ link_way link.now }
{
    Way {
        target: Target::Port(link.target),
        delay: match link.delay {
            Some(delay) => delay,
            None => 0,
        },
    }
}
