//! Bodies that use what their reactions do not declare.
ghost use Rattle.std.specs.Prelude.{◌≡◌};
ghost use Rattle.warp_prog.specs.Undeclared.{may_read, is_undeclared};
ghost use Rattle.warp_prog.specs.View.{file_tree, reactor_tree, reaction_tree};
ghost use Rattle.warp_prog.specs.inner.Rule.{declares};

use crate::explain::reason::Reason;
use crate::explain::trail::Trail;
use crate::file::{ProgramFile, Reaction, Reactor};
use crate::name::Name;
use crate::named::is_among;
use crate::names::any_reactor;
use crate::role::Role;

/// Whether a body reads or asks for what its reaction neither is on nor reads, or puts or schedules what it does not
/// write; all names are known.
pub(crate) fn is_undeclared<'f>(file: &'f ProgramFile, at: &mut Trail<'f>) -> bool
    ensures { result ≡ is_undeclared (file_tree file.now) }
{
    any_reactor(&file.reactors, true, at)
}

/// Whether a reaction declares a use of a name in this role. A variable needs no declaration, also where an input or an
/// action shares its name, and an array none.
pub(crate) fn is_declared(reactor: &Reactor, reaction: &Reaction, role: Role, name: &Name) -> bool
    ensures { result ≡ declares role (reactor_tree reactor.now) (reaction_tree reaction.now) name.now }
{
    match role {
        Role::Value => is_among(&reactor.variables, name) || may_read(reaction, name),
        Role::Cause => may_read(reaction, name),
        Role::Output | Role::Action => is_among(&reaction.writes, name),
        Role::Variable | Role::Written | Role::Input | Role::Array | Role::Thing => true,
    }
}

fn may_read(reaction: &Reaction, name: &Name) -> bool
    ensures { result ≡ may_read (reaction_tree reaction.now) name.now }
{
    is_among(&reaction.triggers, name) || is_among(&reaction.reads, name)
}

/// What is wrong with a use that is not declared.
pub(crate) fn undeclared<'f>(role: Role, name: &'f Name) -> Reason<'f> {
    let words = match role {
        Role::Value | Role::Cause => "is neither in \"on\" nor in \"reads\"",
        _ => "is not in \"writes\"",
    };
    Reason::Named(name, words)
}
