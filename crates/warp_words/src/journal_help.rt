//! The texts that `warpd journal --help` shows.

use crate::command_line::Help;

const ABOUT: &str = "Checks or repairs the journal of a host";

const LONG_ABOUT: &str = "\
warpd journal check FILE tells the version of program files, the program's fingerprint, how many
records read well, and whether it is whole, torn at its end, or damaged, and where.

warpd journal repair FILE keeps the lines in front of the first that is none of the journal. Where
that is a sum that does not fit, a line that it is over was changed, and none knows which: then it
keeps the lines up to the last sum that fits, perhaps fewer records than check tells. It moves the
rest to the end of FILE.damaged. No host may have the journal open.

A journal is text: a first line, then a line for each record of the log, with lines between that
begin with `= ` and have a sum over all in front. A line at the end that is torn, or that a loss of
power left, is cut off by a host that starts; a line that is damaged in front of others is not, and
the host does not start.";

const NOTES: &str = "\
The status is 0 where the journal is whole, torn or cut at its end, 3 where it is damaged or none.

Example:
  warpd host builtin:twice --journal twice.journal &
  warpd journal check twice.journal
  tail -n +2 twice.journal | grep -v '^=' | warpd run builtin:twice";

pub(crate) const ACTION_HELP: &str = "check, or repair";

pub(crate) const FILE_HELP: &str = "The file of the journal";

/// The texts on `journal`.
pub(crate) fn help() -> Help {
    Help {
        about: ABOUT,
        long_about: LONG_ABOUT,
        notes: NOTES,
    }
}
