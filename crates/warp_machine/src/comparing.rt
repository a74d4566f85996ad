//! Whether peers have the same records: where the log of a peer and the own one have been as long for a while, the peer is asked
//! for its digest, and that is compared with the own one once that is counted.

ghost use Rattle.std.specs.Prelude.{◌≡◌};

use crate::conn::{SECOND, is_past};
use crate::machine::Machine;
use warp_line::Timeline;
use warp_service::{Note, ToldDigest, read_digest};

/// For so many microseconds the own log has had as many records as it has, before a peer is asked for its digest.
const STEADY: u64 = 5 * SECOND;

/// For how long the log has had as many records as it has.
#[derive(Clone, Copy)]
pub(crate) struct Steady {
    len: u32,
    since: u64,
}

impl Steady {
    /// It has none, from now on.
    pub(crate) fn new(now: u64) -> Steady {
        Steady { len: 0, since: now }
    }

    /// It has so many now: how many, where that is so for a while.
    fn note(&mut self, len: u32, now: u64) -> Option<u32> {
        if len != self.len {
            self.len = len;
            self.since = now;
        }
        if is_past(now, self.since, STEADY) {
            return Some(len);
        }
        None
    }
}

impl<T: Timeline> Machine<T> {
    /// How many records the log has, where it has had just so many for a while.
    pub(crate) fn steady_len(&mut self) -> Option<u32>
        ensures { self.new.clients ≡ self.old.clients }
    {
        let len = self.clients.room().len();
        self.steady.note(len, self.now)
    }

    /// Compares what peers told of their digests with the own one, once all of the log is counted.
    pub(crate) fn compare_peers(&mut self)
        ensures { self.new.clients ≡ self.old.clients }
    {
        if !self.has_any_told() {
            return;
        }
        if self.counts_own() {
            return;
        }
        self.compare_counted();
    }

    /// Whether some peer told its digest, and that was not compared.
    fn has_any_told(&self) -> bool {
        self.peers.iter().any(|followed| followed.peer.has_told())
    }

    /// Counts some records into the own digest; whether there are more.
    fn counts_own(&mut self) -> bool
        ensures { self.new.clients ≡ self.old.clients }
    {
        if !self.clients.count_own() {
            return false;
        }
        self.has_more = true;
        true
    }

    /// Compares what peers told with the own digest, if that is there. Without memory it is compared another time.
    fn compare_counted(&mut self)
        ensures { self.new.clients ≡ self.old.clients }
    {
        match self.own_digest() {
            Some(own) => self.compare_each(&own),
            None => self.forget_told(),
        }
    }

    /// The digest of the log, if it is counted.
    fn own_digest(&self) -> Option<ToldDigest> {
        let told = self.clients.own_digest()?;
        let text = told.text.as_slice();
        read_digest(text.get(..text.len().saturating_sub(1))?)
    }

    /// Compares what peers told with this digest.
    fn compare_each(&mut self, own: &ToldDigest)
        ensures { self.new.clients ≡ self.old.clients }
    {
        for at in 0..self.peers.len() {
            self.compare_peer(at, own);
        }
    }

    /// Compares what this peer told with this digest. Where it is new that they differ, an operator is told.
    fn compare_peer(&mut self, at: usize, own: &ToldDigest)
        ensures { self.new.clients ≡ self.old.clients }
    {
        if self.differs_now(at, own) {
            self.tell_differing(at);
        }
    }

    /// Compares what this peer told with this digest: whether it is new that they differ.
    fn differs_now(&mut self, at: usize, own: &ToldDigest) -> bool
        ensures { self.new.clients ≡ self.old.clients }
    {
        match self.peers.get_mut(at) {
            Some(followed) => followed.peer.compare(own),
            None => false,
        }
    }

    /// An operator is told that this peer differs.
    fn tell_differing(&mut self, at: usize)
        ensures { self.new.clients ≡ self.old.clients }
    {
        if let Ok(peer) = u32::try_from(at) {
            self.tell(Note::PeerDiffers(peer));
        }
    }

    /// What peers told is not compared.
    fn forget_told(&mut self)
        ensures { self.new.clients ≡ self.old.clients }
    {
        for followed in self.peers.iter_mut() {
            followed.peer.forget_told();
        }
    }

    /// Whether some peer was found to have other records, as many of them.
    pub(crate) fn is_any_differing(&self) -> bool {
        self.peers.iter().any(|followed| followed.peer.differs())
    }
}
