//! The texts that `warpd run --help` shows.

use crate::command_line::Help;

const ABOUT: &str = "Answers the lines of standard input on standard output";

const LONG_ABOUT: &str = "\
Reads lines on standard input up to its end, and answers each of them with one line on
standard output, in order.

  event ORIGIN TIME MICROSTEP INPUT VALUE   an event: taken P, or known P
  withdraw ORIGIN TIME MICROSTEP            no event of this name counts: the same
  announce ORIGIN TIME MICROSTEP E W        before this tag the origin has E names with an
                                            event and W withdrawn, and adds none: the same
  var INDEX                                 a variable: var N VALUE
  outputs                                   how many outputs there are: outputs N COUNT
  output INDEX                              output N TIME MICROSTEP PORT VALUE, or none N
  horizon                                   the tag before which outputs are released:
                                            horizon N TIME MICROSTEP
  released                                  how many are released: released N COUNT
  breach ORIGIN                             whether it broke an announcement of its own:
                                            breach N 1, or breach N 0
  lost                                      how much was lost: lost N COUNT
  log P                                     log N and a record's line, or none N
  collect                                   executes all that is not done, lets go of what is not
                                            needed before the horizon: collected N
  board, row INDEX                          refused: there is no board here

P is a record's place in the log, from 1, and N the length of the log. The name of an event
is its origin with its time and microstep. A line that is not understood or not allowed is
answered by refused K, and changes nothing.

PROGRAM is the path of a program file, which docs/FORMATS.md describes, or builtin:twice.
That stops at time 100. Its variable 0 begins at 0. An event of origin 0 for input 0 doubles
it and adds the value; an event of origin 1 for input 1 takes the value from it.";

const NOTES: &str = "\
Why a line is refused:
  1  it is no line of these forms, or ends before its line feed
  2  the program has no such origin
  3  the tag is past the program's stop
  4  the program has no such input
  5  the input belongs to another origin
  6  the program has no such variable
  7  the log is full
  8  there is no memory for it
  9  it is longer than 128 bytes
 11  there is no board here

Why a program file is refused (warpd check says where):
  1  it is no JSON text, or nests too deep
  2  it has not the shape of a program file
  3  it goes past a limit
  4  a name is unknown in its place
  5  something stands twice
  6  a link without delay leads back, or reactions wait for each other
  7  a reaction uses what it doesn't declare

Example:
  printf 'event 0 5 0 0 3\\nvar 0\\n' | warpd run builtin:twice";

/// The texts on `run`.
pub(crate) fn help() -> Help {
    Help {
        about: ABOUT,
        long_about: LONG_ABOUT,
        notes: NOTES,
    }
}
