//! The laws from an arena's places to the table of its entries, so that a caller needs no lemma of its own on lists.
//!
//! The bodies do nothing: a law is the contract.
ghost use Rattle.std.specs.Prelude.{◌≡◌, ℕ};
ghost use Rattle.warp_tag.specs.declared.entry.Entry.{Entry};
ghost use Rattle.warp_arena.specs.Laws.{FindsKnown, ChangesFound, ChangesNew};

use crate::arena::Arena;
use warp_tag::Tag;

/// `Arena::find` answers a handle exactly where the table of the entries knows the name, and the handle names what the
/// table knows.
pub fn finds_known(arena: &Arena, origin: u32, tag: Tag)
    ensures { FindsKnown origin tag arena.now.places }
{
    arena.ordered();
}

/// What `Arena::set_event` and `Arena::set_withdrawn` do at the handle of a name is the table's change of that name.
pub fn changes_found(arena: &Arena, origin: u32, tag: Tag)
    ensures { (change : Entry → Entry) → ChangesFound change origin tag arena.now.places }
{
    arena.ordered();
}

/// `Arena::insert` of a name that is not there, and then `Arena::set_event` or `Arena::set_withdrawn` at its handle, is
/// the table's change of that name.
pub fn changes_new(arena: &Arena, origin: u32, tag: Tag)
    ensures { (change : Entry → Entry) → ChangesNew change origin tag arena.now.places }
{}
