//! Where the reactors of a file have too many things together.
ghost use Rattle.std.specs.Prelude.{◌≡◌, true};

pub(crate) mod body;
pub(crate) mod timers;
pub(crate) mod work;

use crate::explain::reason::Reason;
use crate::explain::trail::{Segment, Trail};
use crate::file::Reactor;
use crate::limits::{LimitedThings, most_of, room_after};
use warp_tag::Form;

/// Things of which all reactors together may have so many.
struct Total {
    kind: LimitedThings,
    /// What they are, in words.
    things: &'static str,
}

const TOTALS: &[Total] = &[
    Total {
        kind: LimitedThings::Variables,
        things: "variables in the reactors up to here",
    },
    Total {
        kind: LimitedThings::Arrays,
        things: "arrays in the reactors up to here",
    },
    Total {
        kind: LimitedThings::Cells,
        things: "cells of arrays in the reactors up to here",
    },
    Total {
        kind: LimitedThings::Ports,
        things: "inputs and outputs in the reactors up to here",
    },
    Total {
        kind: LimitedThings::Actions,
        things: "actions in the reactors up to here",
    },
    Total {
        kind: LimitedThings::Timers,
        things: "timers in the reactors up to here",
    },
    Total {
        kind: LimitedThings::Reactions,
        things: "reactions in the reactors up to here",
    },
];

/// Notes the first reactor up to which there are too many things of a kind for a file of this form, where all together
/// have too many. Always true.
pub(crate) fn note_totals(reactors: &[Reactor], form: Form, at: &mut Trail) -> bool
    ensures { result ≡ true }
{
    let mut first = reactors.len();
    for total in TOTALS {
        let most = most_of(&total.kind, form);
        let place = place_past(reactors, &total.kind, most);
        if place < first {
            first = place;
            let _found = at.fault(Reason::Many(total.things, most));
        }
    }
    at.back(Segment::Of("reactors", first))
}

/// The place of the first reactor up to which there are more than so many things of a kind; how many reactors there are
/// where there is none.
fn place_past(reactors: &[Reactor], kind: &LimitedThings, most: usize) -> usize {
    let mut room = most;
    for (i, reactor) in reactors.iter().enumerate() {
        match room_after(reactor, kind, room) {
            Some(left) => room = left,
            None => return i,
        }
    }
    reactors.len()
}
