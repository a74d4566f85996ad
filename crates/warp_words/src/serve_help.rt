//! The texts that `warpd serve --help` shows.

use crate::command_line::Help;

const ABOUT: &str = "Serves sessions over TCP on this machine, and pulls from other servers";

const LONG_ABOUT: &str = "\
Listens on 127.0.0.1 at port P, prints the line `ready P` on standard output, and serves the
first K connections. Each is a session as `warpd run` has one: every line that its client
sends is answered with one line, in order, up to the end of what it sends. Standard input is
not read.

All sessions share one replica. What any client was told happened before every line that is sent
after it, by any client: the log's length and the board's count and flag never fall. A session
that waits, fails or breaks off disturbs no other: a client that doesn't read its replies waits
alone. Connections past the K sessions get no byte.

The lines are those of `warpd run --help`, and two that look at the board of released outputs
without asking the replica:

  board       how many rows there are, and whether the board is frozen:
              board COUNT 0, or board COUNT 1
  row INDEX   a row, from 0: row TIME MICROSTEP PORT VALUE, or none

A row on the board stays there. The board has room for 4,096 rows, of a program of version 3 for
1,048,576, and is frozen for good once a record takes back what was released.

From each PEER, the HOST:PORT of another server, the log is pulled in the background. Connecting
to all peers takes ten seconds at most, beside the lookup of their names. A pull ends once the
peer had nothing new for 500 times in a row, 10 milliseconds apart, and for the reasons that
docs/FORMATS.md lists; it is not begun again. A server that names itself as a peer serves that
pull as one of its sessions.

The server ends when all K sessions and all pulls have ended. Nothing is stored on disk: a
server that is started anew is empty, and gets from its peers what they have. It can be
reached from this machine alone; put a tunnel or a proxy in front of it for others.";

const NOTES: &str = "\
Beside the reasons that `warpd run --help` lists, a line may be refused for this one:
 10  the server is busy with the session's earlier lines; nothing was done, send it again
No line is refused for reason 11 here, since there is a board.

On standard error, I being the place of a PEER from 0:
  peer I failed     it can't be reached or is no HOST:PORT: told before sessions are served;
                    or its connection broke, or there was no memory for it: told when the
                    server ends. The server goes on
  peer I: WORDS     with --tell-pulls, how the pull ended: told when the server ends
  cannot listen     the port is taken or not allowed
  cannot accept     no further session could be had; those so far were served to their end
  too many lanes    there are more than 16 sessions and peers together

Why a program file is refused: warpd run --help

Example:
  warpd serve builtin:twice --port 7000 --sessions 2 127.0.0.1:7001 &
  printf 'event 0 5 0 0 3\\nvar 0\\n' | nc -N 127.0.0.1 7000";

pub(crate) const PORT_HELP: &str = "The port to listen on, 1 to 65535";

pub(crate) const SESSIONS_HELP: &str = "How many sessions to serve in all, 1 to 16";

pub(crate) const TELL_PULLS_HELP: &str = "Tell on standard error how each pull ended";

pub(crate) const PEER_TIMEOUT_HELP: &str = "Give up a peer that is silent for so long, 1 to 86400";

pub(crate) const PEER_HELP: &str = "A server to pull from: HOST:PORT";

/// The texts on `serve`.
pub(crate) fn help() -> Help {
    Help {
        about: ABOUT,
        long_about: LONG_ABOUT,
        notes: NOTES,
    }
}
