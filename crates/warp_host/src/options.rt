//! What a host has of the system, and what is asked of it there.

ghost use Rattle.std.specs.Prelude.{◌↔◌, IsTrue};
ghost use Rattle.warp_host.specs.Listening.{MayListen};

use mio::net::TcpListener;
use std::net::IpAddr;
use warp_disk::OpenJournal;

/// The most clients at a time, where no number is given.
pub const DEFAULT_CLIENTS: u32 = 1_024;

/// The most clients at a time that can be asked for.
pub const MOST_CLIENTS: u32 = 15_000;

/// The most peers.
pub const MOST_PEERS: usize = 64;

/// What standard input and output of a host are for.
#[derive(Drop)]
pub struct ChannelUse {
    /// Whether the host ends with its standard input.
    pub until_input_ends: bool,
    /// Whether standard input has lines of its operator, which are answered on standard output.
    pub operator: bool,
    /// The path of the file of tokens of clients, which an operator may have read again, if there is one.
    pub tokens: Option<String>,
}

/// What a host has of the system, and what is asked of it there.
#[derive(Drop)]
pub struct Outside {
    /// Where connections come in.
    pub listener: TcpListener,
    /// How many peers its machine has, at most 64.
    pub peers: u16,
    /// What its standard input and output are for.
    pub channel: ChannelUse,
    /// The journal, whose records the machine's log has.
    pub journal: Option<OpenJournal>,
}

/// Whether a host may listen on this address: on another than that of its own machine only with tokens, or where it was
/// said that this is meant.
pub fn may_listen(address: IpAddr, has_tokens: bool, is_meant: bool) -> bool
    ensures { IsTrue result ↔ MayListen address has_tokens is_meant }
{
    has_tokens || is_meant || address.is_loopback()
}
