//! The texts that `warpd trace --help` shows.

use crate::command_line::Help;

const ABOUT: &str = "Prints the rows of the one run over the lines of standard input";

const LONG_ABOUT: &str = "\
Reads lines on standard input up to its end, as `warpd run` does, and prints then the rows of
the program's one run over the events that count: those that were not withdrawn. Lines are not
answered, and queries are passed over.

A row is a tag at which something came or was due, in the order of tags. It is one line, a JSON
object with these keys:

  tag        its time and its microstep
  events     what came: of each event its origin, its program input and its value
  due        what was pending for this tag: of each entry its target and its value
  changed    the variables that changed, each with its new value
  outputs    the program outputs that were put, each with its value
  pending    how many entries are pending behind the row
  released   whether it is before the horizon: then its outputs are released

Names are those of the program file: startup, or REACTOR.NAME.

With --steps it prints what was executed, in the order in which it was executed, where each
line was taken as it came: of each step tag, given, due, changed, outputs and pending, where
given has the values of the program inputs; and before the steps that a late line brings

  rollback   from which tag the run went back, to which (null for its start), and how many
             of the steps that follow are not after the first of the two";

pub(crate) const STEPS_HELP: &str =
    "Prints the steps in the order in which they were executed, with rollbacks";

const NOTES: &str = "\
A record that `warpd run` refuses, and a line that is none, counts for nothing. Standard error
tells how many there were, and the first of them with its reason:

  lines refused 2, first line 7: refused 3

Without memory for all records, or where reading fails, no row is printed.

Why a line or a program file is refused: warpd run --help

Example:
  printf 'event 0 5 0 0 3\\nevent 1 2 0 1 4\\n' | warpd trace builtin:twice";

/// The texts on `trace`.
pub(crate) fn help() -> Help {
    Help {
        about: ABOUT,
        long_about: LONG_ABOUT,
        notes: NOTES,
    }
}
