//! Links without delay that lead back.
ghost use Rattle.std.specs.Prelude.{◌≡◌, map};
ghost use Rattle.std.specs.List.{list_any};
ghost use Rattle.warp_prog.specs.Backward.{place, is_backward, leads_back};
ghost use Rattle.warp_prog.specs.View.{file_tree, reactor_tree};

use crate::explain::reason::Reason;
use crate::explain::trail::{Segment, Trail};
use crate::file::{LinkPart, ProgramFile, Reactor};
use crate::name::Name;
use crate::named::is_same;

/// Whether a link without delay leads to a reactor that does not stand later in the file than the one that it comes
/// from.
pub(crate) fn leads_back<'f>(file: &'f ProgramFile, at: &mut Trail<'f>) -> bool
    ensures { result ≡ leads_back (file_tree file.now) }
{
    for (i, link) in file.links.iter().enumerate() {
        if is_backward(&file.reactors, link) {
            let reason = Reason::Backward(&link.source.reactor, &link.target.reactor);
            return at.fault_at(Segment::Of("links", i), reason);
        }
    }
    false
}

fn is_backward(reactors: &[Reactor], link: &LinkPart) -> bool
    ensures { result ≡ is_backward (map reactor_tree reactors.now) link.now }
{
    link.delay.is_none()
        && place(reactors, &link.target.reactor) <= place(reactors, &link.source.reactor)
}

/// The place of the first reactor of a name, from 0; how many there are where there is none.
pub(crate) fn place(reactors: &[Reactor], name: &Name) -> usize
    ensures { result ≡ place (map reactor_tree reactors.now) name.now }
{
    for (i, reactor) in reactors.iter().enumerate() {
        if is_same(name, &reactor.name) {
            return i;
        }
    }
    reactors.len()
}
