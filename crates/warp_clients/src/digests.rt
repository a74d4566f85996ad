//! The digest of the log, for clients that ask for it. It is counted while somebody waits, a slice at a time.
ghost use Rattle.std.specs.Prelude.{◌≡◌, IfSome, length};
ghost use Rattle.warp_room.specs.Digested.{TellsDigest};
ghost use Rattle.warp_replica.specs.Answered.{facts_of};
ghost use Rattle.warp_clients.specs.Steps.{SomeRun};

use crate::asking::{MOST_TOLD, Waiting};
use crate::clients::{Clients, NO_MEMORY};
use warp_line::Timeline;
use warp_room::Digested;
use warp_watch::ClientId;

/// So many records are counted into the digest at once at most.
const MOST_COUNTED: u32 = 4_096;

impl<T: Timeline> Clients<T> {
    /// Whether records are to be counted into the digest, since somebody waits for it.
    pub fn is_counting(&self) -> bool {
        self.asking.wants_more(self.room.counted())
    }

    /// Counts some records into the digest, though nobody waits for it; whether more of the log are to be counted. Without
    /// memory none are.
    pub fn count_own(&mut self) -> bool
        ensures { self.new ≡ self.old }
    {
        self.room.count(MOST_COUNTED).is_ok() && self.room.counted() < self.room.len()
    }

    /// The digest of the whole log, where all of it is counted and there is memory.
    pub fn own_digest(&self) -> Option<Digested>
        ensures { IfSome result (λ told. TellsDigest self.now.room.replica.records told
            × (told.len ≡ length self.now.room.replica.records)) }
    {
        self.room.whole_digest(self.alloc)
    }

    /// Counts records into the digest, where somebody waits for it, and tells it where enough are counted; it waits until it
    /// may be told on. Without memory who asked first is refused.
    pub(crate) fn tell_digests(&mut self)
        ensures { SomeRun (facts_of T.settled T.refused T.floor T.SLACK) self.old self.new }
    {
        if !self.count_some() {
            self.refuse_digest();
            return;
        }
        self.tell_counted();
    }

    /// Counts some records into the digest, where somebody waits for it; whether there was memory.
    fn count_some(&mut self) -> bool
        ensures { self.new ≡ self.old }
    {
        if !self.is_counting() {
            return true;
        }
        self.room.count(MOST_COUNTED).is_ok()
    }

    /// Tells the digest to all for whom enough records are counted.
    fn tell_counted(&mut self)
        ensures { SomeRun (facts_of T.settled T.refused T.floor T.SLACK) self.old self.new }
    {
        for _ in 0..MOST_TOLD {
            let Some(who) = self.next_counted() else {
                return;
            };
            self.tell_digest(who);
        }
    }

    /// Who is to be told the digest next.
    fn next_counted(&mut self) -> Option<ClientId>
        ensures { self.new ≡ self.old }
    {
        self.asking.next_counted(self.room.counted())
    }

    /// Tells the digest. Without memory the word is refused.
    fn tell_digest(&mut self, who: ClientId)
        ensures { SomeRun (facts_of T.settled T.refused T.floor T.SLACK) self.old self.new }
    {
        if !self.is_digest_told(who) {
            self.refuse_word(who);
        }
    }

    /// Tells the digest; whether there was memory.
    fn is_digest_told(&mut self, who: ClientId) -> bool
        ensures { self.new ≡ self.old }
    {
        match self.room.digest(self.alloc) {
            Ok(told) => self.asking.keep(Waiting {
                who,
                len: told.len,
                text: told.text,
            }),
            Err(_) => false,
        }
    }

    /// Who asked first for the digest is refused.
    fn refuse_digest(&mut self)
        ensures { SomeRun (facts_of T.settled T.refused T.floor T.SLACK) self.old self.new }
    {
        let Some(who) = self.first_counting() else {
            return;
        };
        self.refuse_word(who);
    }

    /// Takes who asked first for the digest.
    fn first_counting(&mut self) -> Option<ClientId>
        ensures { self.new ≡ self.old }
    {
        self.asking.next_counted(u32::MAX)
    }

    /// A client's word is refused for want of memory.
    pub(crate) fn refuse_word(&mut self, who: ClientId)
        ensures { SomeRun (facts_of T.settled T.refused T.floor T.SLACK) self.old self.new }
    {
        self.speak_refusal(who);
        self.note(who);
    }

    /// A client's word is answered by the refusal for want of memory.
    fn speak_refusal(&mut self, who: ClientId)
        ensures { SomeRun (facts_of T.settled T.refused T.floor T.SLACK) self.old self.new }
    {
        self.crowd.speak_told(who, 0, NO_MEMORY);
    }
}
