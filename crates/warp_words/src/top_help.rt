//! The texts that `warpd --help` shows.

use crate::command_line::Help;

const ABOUT: &str = "Runs a deterministic reactor program over events that may come late";

const LONG_ABOUT: &str = "\
warpd runs a deterministic reactor program. Events may come late and in any order: each
answer is that of the program run over all of them in the order of their tags.";

const NOTES: &str = "\
Exit status:
  0  done, or help or the version was asked for
  2  the words were not understood, or ask for too many lanes
  3  the program or the schedule was refused
  4  the program or the schedule couldn't be read, or a standard stream failed
  5  memory ran out
  6  the server couldn't listen, or couldn't have a further connection or thread";

/// The texts on `warpd`.
pub(crate) fn help() -> Help {
    Help {
        about: ABOUT,
        long_about: LONG_ABOUT,
        notes: NOTES,
    }
}
