//! The texts that `warpd play --help` shows.

use crate::command_line::Help;

const ABOUT: &str = "Plays a schedule over replicas, and prints what each answers in the end";

const LONG_ABOUT: &str = "\
Plays the moves of a schedule file over replicas of the program, then settles each replica
and prints what it answers. Standard input is not read.

The first line of the file says how many replicas there are, 1 to 16, numbered from 0:

  replicas N

Each further line is a move:

  make R RECORD   a record comes from outside to replica R: the line of an event, a
                  withdraw or an announce, as `warpd run --help` shows them
  carry F I R     the record at place I of the log of replica F, from 1, comes to replica R
  collect R       replica R settles, and lets go of what it needs no more
  settle R        replica R executes what is not done
  restart R       replica R starts anew, with an empty log

A move does nothing where the program refuses its record, where the log has that record or
is full, and where there is no such replica or place.

Of each replica are printed, in order, with N the length of its log:

  replica R
  horizon N TIME MICROSTEP   the tag before which outputs are released
  outputs N COUNT            how many outputs there are
  released N COUNT           how many of them are released
  lost N COUNT               how much was lost
  var N VALUE                a line for each variable, from 0";

const NOTES: &str = "\
A schedule is refused where a line is not of this form, is longer than 128 bytes, or has no
line feed. Nothing is printed then but this, on standard error, for the first such line:

  schedule refused at line K   K counts from 1; 1 too for an empty file, and 0 for a file
                               of more than 1,048,576 bytes

Why a program file is refused: warpd run --help

Example:
  printf 'replicas 2\\nmake 0 event 0 5 0 0 3\\ncarry 0 1 1\\n' > two.schedule
  warpd play builtin:twice two.schedule";

/// The texts on `play`.
pub(crate) fn help() -> Help {
    Help {
        about: ABOUT,
        long_about: LONG_ABOUT,
        notes: NOTES,
    }
}
