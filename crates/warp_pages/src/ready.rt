//! Whether a host is ready for clients, and why it is not.

ghost use Rattle.std.specs.Prelude.{◌≡◌, ◌++◌, [], IfOk, OnOk, false};
ghost use Rattle.warp_pages.specs.Ready.{differing_line, differing_lines, peer_line, is_ready, line_if, ready_status, ready_text, reasons};

use crate::metrics::PeerSeen;
use std::alloc::{AllocError, Global};

/// The status of an answer that the host is ready.
const READY: u16 = 200;

/// The status of an answer that it is not.
const NOT_READY: u16 = 503;

/// What keeps a host from being ready for clients.
#[derive(Clone, Copy, Debug, PartialEq, Eq)]
pub struct Lacks {
    /// The journal can't be written: records are refused.
    pub is_failing: bool,
    /// The log is full: no further record is taken.
    pub is_full: bool,
    /// The host ends: nobody is let in.
    pub is_ending: bool,
    /// A peer is known to have many records more than were fetched.
    pub is_behind: bool,
    /// A peer was found to have other records, as many of them.
    pub is_differing: bool,
}

impl Lacks {
    /// Nothing keeps it from that.
    pub fn nothing() -> Lacks
        ensures { result ≡ record { is_failing = false; is_full = false; is_ending = false; is_behind = false; is_differing = false } }
    {
        Lacks {
            is_failing: false,
            is_full: false,
            is_ending: false,
            is_behind: false,
            is_differing: false,
        }
    }

    /// Whether the host is ready.
    pub fn is_ready(&self) -> bool
        ensures { result ≡ is_ready self.now }
    {
        !(self.is_failing || self.is_full || self.is_ending || self.is_behind || self.is_differing)
    }

    /// The status of the answer: 200 where the host is ready, else 503.
    pub fn status(&self) -> u16
        ensures { result ≡ ready_status self.now }
    {
        if self.is_ready() { READY } else { NOT_READY }
    }

    /// The text of the answer: `ready`, or a line for each reason why not, at last one for each of these peers that differs.
    pub(crate) fn text(&self, alloc: Global, peers: &[PeerSeen]) -> Result<Vec<u8>, AllocError>
        ensures { IfOk result (λ text. text.items ≡ ready_text self.now peers.now) }
    {
        let mut text = Vec::new(alloc);
        if self.is_ready() {
            text.extend_from_slice(b"ready\n")?;
            return Ok(text);
        }
        self.add_reasons(&mut text)?;
        add_differing(&mut text, peers)?;
        Ok(text)
    }

    /// Adds a line for each reason to a text that has nothing.
    fn add_reasons(&self, text: &mut Vec<u8>) -> Result<(), AllocError>
        requires { text.old.items ≡ [] }
        ensures { OnOk result (text.new.items ≡ reasons self.now) }
    {
        add_if(
            text,
            self.is_failing,
            b"the journal cannot be written: records are refused\n",
        )?;
        add_if(
            text,
            self.is_full,
            b"the log is full: no further record is taken\n",
        )?;
        add_if(text, self.is_ending, b"the host ends\n")?;
        add_if(
            text,
            self.is_behind,
            b"a peer has many records more than were fetched\n",
        )
    }
}

/// Adds a line where that is so.
fn add_if(text: &mut Vec<u8>, is_so: bool, line: &[u8]) -> Result<(), AllocError>
    ensures { OnOk result (text.new.items ≡ text.old.items ++ line_if is_so line.now) }
{
    if is_so {
        text.extend_from_slice(line)?;
    }
    Ok(())
}

/// Adds a line for each peer that differs.
fn add_differing(text: &mut Vec<u8>, peers: &[PeerSeen]) -> Result<(), AllocError>
    ensures { OnOk result (text.new.items ≡ text.old.items ++ differing_lines peers.now) }
{
    for peer in peers {
        add_if_differing(text, peer)?;
    }
    Ok(())
}

/// Adds the line of a peer, if it differs.
fn add_if_differing(text: &mut Vec<u8>, peer: &PeerSeen) -> Result<(), AllocError>
    ensures { OnOk result (text.new.items ≡ text.old.items ++ peer_line peer.now) }
{
    if peer.differs {
        add_peer(text, peer.name.as_str())?;
    }
    Ok(())
}

/// Adds the line that the peer of this name differs.
fn add_peer(text: &mut Vec<u8>, name: &str) -> Result<(), AllocError>
    ensures { OnOk result (text.new.items ≡ text.old.items ++ differing_line name.now) }
{
    text.extend_from_slice(b"peer ")?;
    text.extend_from_slice(name.as_bytes())?;
    text.extend_from_slice(b" differs\n")?;
    Ok(())
}
