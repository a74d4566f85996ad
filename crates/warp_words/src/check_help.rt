//! The texts that `warpd check --help` shows.

use crate::command_line::Help;

const ABOUT: &str = "Tells what is in a program file, or what is wrong in it and where";

const LONG_ABOUT: &str = "\
Reads a program file as `warpd run` does, and tells in one line what is in it:

  reactors 2, reactions 3, origins 2, variables 1, stop 100

Where the file is refused, standard error says so as `warpd run` does, and in a second line
where and why:

  program refused 4
  line 4, column 12: links[0][0]: there is no reactor \"dor\" (did you mean \"door\"?)

Standard input is not read. The exit status is 0 for a good file, and 3 for one that is refused.";

pub(crate) const NUMBERS_HELP: &str = "Tells the numbers too by which lines and replies speak";

pub(crate) const ROWS_HELP: &str = "Tells too how many rows the program makes by itself";

pub(crate) const WORK_HELP: &str = "Tells too how much work its reactions are at most";

pub(crate) const FINGERPRINT_HELP: &str = "Tells the program's fingerprint too";

pub(crate) const NAMES_HELP: &str = "Tells its names too, as one line of JSON for other programs";

pub(crate) const WARN_HELP: &str = "Warns of what is allowed, and may not have been meant";

const NOTES: &str = "\
With --numbers a line follows for each variable, array, program input and program output, with
its number, of an array those of its first and its last cell, and its name:

  var K REACTOR.NAME
  vars K to L REACTOR.ARRAY
  input I REACTOR.NAME origin O
  output P REACTOR.NAME

With --rows a line says how many rows the program makes up to its stop where no line comes: one
for each time at which startup or a timer is due. Actions and links with a delay may add rows.

  own rows N, outputs of each at most C, of all at most N * C

They are executed as soon as a query comes, and where one of these is more than 1,000,000,
standard error has a warning.

With --work a line says how many nodes of expressions and statements all reactions together walk
at one tag at most, each loop's as often as it may turn, and which reaction is the most. Those of
a file of version 4 are 2,000,000 at most.

  work N, of a reaction at most M, reaction I of REACTOR

With --fingerprint a line has 64 hex digits, which are the same for two files exactly where
they are the same program: white space, the order of keys and empty lists make no difference.
With --names the last line is JSON: the names by their numbers, as warpd-compile writes them.

With --warn standard error tells what may not have been meant: an output that leads nowhere, an
origin without inputs, a variable that no reaction reads, a reaction that never runs.

Why a program file is refused: warpd run --help

Example:
  warpd check --numbers builtin:twice";

/// The texts on `check`.
pub(crate) fn help() -> Help {
    Help {
        about: ABOUT,
        long_about: LONG_ABOUT,
        notes: NOTES,
    }
}
