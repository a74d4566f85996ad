//! Where the reactions of a file are too much work.
ghost use Rattle.std.specs.Prelude.{◌≡◌, true};

use crate::explain::reason::Reason;
use crate::explain::trail::{Segment, Trail};
use crate::file::{Reaction, Reactor};
use crate::limits::work::{MOST_WORK, room_after_reaction, room_after_reactor};

/// What is wrong there.
const TOO_MUCH: &str = "the reactions up to here are more work than 2,000,000";

/// Notes the first reaction up to which the reactions are too much work, where all together are. Always true.
pub(crate) fn note_work(reactors: &[Reactor], at: &mut Trail) -> bool
    ensures { result ≡ true }
{
    let _found = at.fault(Reason::Plain(TOO_MUCH));
    note_place(reactors, at);
    true
}

/// Adds the way to the first reaction up to which they are.
fn note_place(reactors: &[Reactor], at: &mut Trail) {
    let mut room = MOST_WORK;
    for (i, reactor) in reactors.iter().enumerate() {
        match room_after_reactor(reactor, room) {
            Some(left) => room = left,
            None => {
                at.back(Segment::Of("reactions", place_past(&reactor.reactions, room)));
                at.back(Segment::Of("reactors", i));
                return;
            }
        }
    }
}

/// The place of the first reaction up to which these are more work than this; how many there are where there is none.
fn place_past(reactions: &[Reaction], most: u64) -> usize {
    let mut room = most;
    for (i, reaction) in reactions.iter().enumerate() {
        match room_after_reaction(reaction, room) {
            Some(left) => room = left,
            None => return i,
        }
    }
    reactions.len()
}
