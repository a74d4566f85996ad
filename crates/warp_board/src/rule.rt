//! The rule of a board's table, and the kinds of step.
//!
//! Word 0 is the count and word 1 the flag; row i has the words 2 + 2 i and 3 + 2 i.
ghost use Rattle.std.specs.Prelude.{true};
ghost use Rattle.warp_board.specs.Notes.{newcomer, no_notes, as_reader, taken_in};
ghost use Rattle.warp_board.specs.Rule.{Keeps};
ghost use Rattle.warp_board.specs.Steps.{Stages, Counts, Raises, LooksAtCount, LooksAtFlag, ReadsWord};

use crate::notes::Notes;
use atomic_table::{Join, Play, Split, TableRule};

/// What holds between any two steps; its key is the number of rows for which there is room.
pub struct BoardRule;

impl TableRule<(), Notes, usize> for BoardRule {
    ghost holds = { Keeps };

    ghost first = { newcomer true };
}

/// The writer stores a word of the row behind the count.
pub struct StoreWord;

impl Play<(), Notes> for StoreWord {
    ghost then = { Stages };
}

/// The writer stores the count, one more than before.
pub struct StoreCount;

impl Play<(), Notes> for StoreCount {
    ghost then = { Counts };
}

/// The writer stores the flag.
pub struct StoreFlag;

impl Play<(), Notes> for StoreFlag {
    ghost then = { Raises };
}

/// A reader, or the writer where it meets one, loads the count.
pub struct LoadCount;

impl Play<(), Notes> for LoadCount {
    ghost then = { LooksAtCount };
}

/// A reader loads the flag.
pub struct LoadFlag;

impl Play<(), Notes> for LoadFlag {
    ghost then = { LooksAtFlag };
}

/// A reader loads a word of a row below the count that it knows.
pub struct LoadWord;

impl Play<(), Notes> for LoadWord {
    ghost then = { ReadsWord };
}

/// A second seat comes to know what one seat knows, as a reader.
pub struct Copies;

impl Split<Notes> for Copies {
    ghost left = { λ v. v };

    ghost right = { as_reader };
}

/// A seat takes in what another knew, which is spent.
pub struct TakesIn;

impl Join<Notes> for TakesIn {
    ghost both = { taken_in };

    ghost spent = { no_notes };
}
