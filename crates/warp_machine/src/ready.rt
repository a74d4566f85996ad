//! Whether a host is ready for clients, and how far it is behind its peers.

ghost use Rattle.std.specs.Prelude.{◌≡◌, ◌-◌, is_some, length, nat_le};
ghost use Rattle.warp_machine.specs.Moving.{clients_in};

use crate::machine::Machine;
use warp_line::Timeline;
use warp_pages::Lacks;

/// A host is behind a peer that is known to have more records than so many which were not taken: fewer are on their way
/// while records come.
const MOST_BEHIND: u32 = 1_024;

impl<T: Timeline> Machine<T> {
    /// Notes what keeps the host from being ready.
    pub(crate) fn note_ready(&mut self)
        ensures { self.new.clients ≡ self.old.clients }
    {
        let lacks = self.lacks();
        self.pages.lack(lacks);
    }

    /// What keeps the host from being ready.
    fn lacks(&self) -> Lacks
        ensures failing { result.is_failing ≡ self.entry.now.is_failing }
        ensures ending { result.is_ending ≡ is_some self.entry.now.ending }
        ensures full { result.is_full
            ≡ nat_le self.entry.now.most_records (length (clients_in self.entry.now).room.replica.records) }
    {
        Lacks {
            is_failing: self.is_failing,
            is_full: self.is_full(),
            is_ending: self.ending.is_some(),
            is_behind: self.is_behind(),
            is_differing: self.is_any_differing(),
        }
    }

    /// Whether the log takes no further record.
    pub(crate) fn is_full(&self) -> bool
        ensures { result ≡ nat_le self.entry.now.most_records (length (clients_in self.entry.now).room.replica.records) }
    {
        self.len() >= self.most_records
    }

    /// Whether some peer is known to have many records more than were taken.
    fn is_behind(&self) -> bool {
        self.peers
            .iter()
            .any(|followed| followed.peer.behind() > MOST_BEHIND)
    }

    /// Notes how far the host is behind each peer, and whether they differ.
    pub(crate) fn note_lags(&mut self)
        ensures { self.new.clients ≡ self.old.clients }
    {
        for at in 0..self.peers.len() {
            self.note_lag(at);
        }
    }

    /// Notes how far the host is behind this peer, and whether they differ.
    fn note_lag(&mut self, at: usize)
        ensures { self.new.clients ≡ self.old.clients }
    {
        if let Some(followed) = self.peers.get(at) {
            self.pages
                .see_peer(at, followed.peer.behind(), followed.peer.differs());
        }
    }

    /// How many records of the log may not be told yet.
    pub(crate) fn untold(&self) -> u32
        ensures { result ≡ length (clients_in self.entry.now).room.replica.records - self.entry.now.limit }
    {
        self.len().saturating_sub(self.limit)
    }
}
