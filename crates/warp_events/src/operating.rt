//! The operator's channel as the shell knows it: what comes of a line, and the line that answers it.

use std::fmt;

/// What is wrong with a line of a file of tokens.
#[derive(Clone, Copy, Debug, PartialEq, Eq)]
pub enum TokenWhy {
    /// The file has no token.
    NoToken,
    /// The line ends with a carriage return.
    Return,
    /// There is nothing behind its token.
    Alone,
    /// It says no rights.
    NoRights,
    /// Its token is none.
    NoSuchToken,
    /// Its token stands in a line in front of it too.
    Twice,
    /// The program has no such origin.
    NoOrigin(u32),
}

/// The line of a file of tokens, from 1, that is refused, and why.
#[derive(Clone, Copy, Debug, PartialEq, Eq)]
pub struct BadTokens {
    /// Its number.
    pub line: u32,
    /// What is wrong with it.
    pub why: TokenWhy,
}

/// Why a line of an operator is not done. All is as before.
#[derive(Clone, Copy, Debug, PartialEq, Eq)]
pub enum Undone {
    /// It is none of the words.
    NoWord,
    /// It names no level.
    NoLevel,
    /// The host began without a file of tokens.
    NoTokens,
    /// The file of tokens can't be read.
    UnreadTokens,
    /// Others may read or write the file of tokens.
    ShownTokens,
    /// The file of tokens is refused.
    BadTokens(BadTokens),
    /// No memory was to be had.
    NoMemory,
}

/// How a host is.
#[derive(Clone, Copy, Debug, PartialEq, Eq)]
pub struct Status {
    /// How many clients are there.
    pub clients: u32,
    /// How many there may be.
    pub most_clients: u32,
    /// How many records the log has.
    pub records: u32,
    /// How many it takes.
    pub most_records: u32,
    /// How many of them are on the disk; none where there is no journal.
    pub synced: u32,
    /// How many peers were found and are followed.
    pub peers_found: u64,
    /// How many peers there are.
    pub peers: u64,
    /// The horizon's time, as it was when all was executed last.
    pub time: u64,
    /// The horizon's microstep.
    pub microstep: u64,
    /// Whether the log takes no further record.
    pub is_full: bool,
    /// Whether the journal can't be written now.
    pub is_failing: bool,
}

/// What answers a line of an operator. As text it is a line, without its line feed.
#[derive(Clone, Copy, Debug, PartialEq, Eq)]
pub enum OperatorAnswer {
    /// It is done.
    Done,
    /// The host is so.
    Is(Status),
    /// It is done, and so many connections are closed for it.
    Closed(u32),
    /// It is not done.
    No(Undone),
}

/// What came of a line of an operator.
#[derive(Clone, Copy, Debug, PartialEq, Eq)]
pub enum Operated {
    /// This is its answer.
    Answered(OperatorAnswer),
    /// The file of tokens is to be read; what it has is handed to `Decides::tokens_read`, which gives the answer.
    ReadTokens,
}

/// How a flag is told.
fn digit(flag: bool) -> u8 {
    if flag { 1 } else { 0 }
}

impl fmt::Display for Status {
    fn fmt<W: fmt::Write>(&self, f: &mut fmt::Formatter<W>) -> fmt::Result {
        let Status {
            clients,
            most_clients,
            records,
            most_records,
            synced,
            ..
        } = *self;
        write!(
            f,
            "clients {clients} {most_clients} records {records} {most_records} synced {synced}"
        )?;
        let Status {
            peers_found,
            peers,
            time,
            microstep,
            ..
        } = *self;
        write!(f, " peers {peers_found} {peers} horizon {time} {microstep}")?;
        let full = digit(self.is_full);
        let failing = digit(self.is_failing);
        write!(f, " full {full} failing {failing}")
    }
}

impl fmt::Display for TokenWhy {
    fn fmt<W: fmt::Write>(&self, f: &mut fmt::Formatter<W>) -> fmt::Result {
        match *self {
            TokenWhy::NoToken => f.write_str("it has no token"),
            TokenWhy::Return => f.write_str("it ends with a carriage return"),
            TokenWhy::Alone => f.write_str("there is nothing behind the token"),
            TokenWhy::NoRights => f.write_str(
                "behind the token is neither * nor read nor ORIGIN[,ORIGIN]..",
            ),
            TokenWhy::NoSuchToken => f.write_str("a token is 1 to 122 characters from ! to ~"),
            TokenWhy::Twice => f.write_str("its token stands in a line in front of it too"),
            TokenWhy::NoOrigin(origin) => write!(f, "no such origin {origin}"),
        }
    }
}

impl fmt::Display for BadTokens {
    fn fmt<W: fmt::Write>(&self, f: &mut fmt::Formatter<W>) -> fmt::Result {
        let BadTokens { line, why } = *self;
        match why {
            TokenWhy::NoToken => write!(f, "{why}"),
            _ => write!(f, "line {line}: {why}"),
        }
    }
}

impl fmt::Display for Undone {
    fn fmt<W: fmt::Write>(&self, f: &mut fmt::Formatter<W>) -> fmt::Result {
        match *self {
            Undone::NoWord => f.write_str("word: stop, status, tokens, log-level L"),
            Undone::NoLevel => f.write_str("level: error, warn or info"),
            Undone::NoTokens => f.write_str("tokens: the host began without --tokens"),
            Undone::UnreadTokens => f.write_str("tokens: their file can't be read"),
            Undone::ShownTokens => f.write_str("tokens: others may read or write their file"),
            Undone::BadTokens(bad) => write!(f, "tokens: {bad}"),
            Undone::NoMemory => f.write_str("memory"),
        }
    }
}

impl fmt::Display for OperatorAnswer {
    fn fmt<W: fmt::Write>(&self, f: &mut fmt::Formatter<W>) -> fmt::Result {
        match *self {
            OperatorAnswer::Done => f.write_str("ok"),
            OperatorAnswer::Is(status) => write!(f, "ok {status}"),
            OperatorAnswer::Closed(count) => write!(f, "ok closed {count}"),
            OperatorAnswer::No(why) => write!(f, "no {why}"),
        }
    }
}
