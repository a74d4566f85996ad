//! What is asked for all watchers of a thing at once.

ghost use Rattle.std.specs.Prelude.{◌≡◌, ◌++◌, [], Bool, IfOk, IfSome, OnOk, false, true};
ghost use Rattle.warp_push.specs.Seats.{end_of, is_before};
ghost use Rattle.warp_push.specs.Watching.{KeepsLine};
ghost use Rattle.warp_push.specs.Texts.{SaysValue, value_in};

use crate::page::{marked_line, put_line, say_the_same};
use std::alloc::{AllocError, Global};
use warp_watch::{PAGE, Question};

/// So many full pages in a row are pushed to all watchers; then each asks for its own, as fast as it reads.
const MOST_FULL: u32 = 8;

/// Whether a page has as many lines as it may have: there may be more behind it.
fn is_full(from: u32, next: u32) -> bool {
    next.saturating_sub(from) >= PAGE
}

/// Where the watchers of pages are that have all there is.
#[derive(Clone, Copy)]
pub(crate) struct Tail {
    /// The first place that they were not told, if it is known.
    next: Option<u32>,
    /// The length of the log at which nothing more was there.
    seen: u32,
    /// So many full pages came one behind another.
    full: u32,
    /// A page for them is on its way.
    is_asked: bool,
    /// What is watched is frozen: each asks for its own last page.
    is_frozen: bool,
}

/// Nothing is known.
pub(crate) const NO_TAIL: Tail = Tail {
    next: None,
    seen: 0,
    full: 0,
    is_asked: false,
    is_frozen: false,
};

impl Tail {
    /// The place from which the next page for all is to be asked, if one is due at this length of the log.
    pub(crate) fn due(&mut self, newest: u32) -> Option<u32> {
        if self.is_asked {
            return None;
        }
        if newest == self.seen && self.full == 0 {
            return None;
        }
        let next = self.next?;
        self.is_asked = true;
        Some(next)
    }

    /// A page for all could not be told: it is asked for again.
    pub(crate) fn missed(&mut self) {
        self.is_asked = false;
    }

    /// A page for all was told. Whether each watcher is to ask for its own from now on.
    pub(crate) fn told(&mut self, from: u32, next: u32, frozen: bool, len: u32) -> bool {
        self.is_asked = false;
        if frozen {
            self.is_frozen = true;
            self.next = None;
            return true;
        }
        if self.next != Some(from) {
            return false;
        }
        self.next = Some(next);
        if !is_full(from, next) {
            self.full = 0;
            self.seen = len;
            return false;
        }
        self.full = self.full.saturating_add(1);
        if self.full < MOST_FULL {
            return false;
        }
        self.full = 0;
        self.next = None;
        true
    }

    /// A page of a watcher's own was told: where it shows the end, that is where the others go on. It moves nothing on that is
    /// known, since who stands there is told no page but the next one for all; it moves back what was learnt behind the end.
    pub(crate) fn learn(&mut self, from: u32, until: u32, next: u32, frozen: bool, len: u32) {
        if frozen {
            self.is_frozen = true;
        }
        if self.is_frozen {
            self.next = None;
            return;
        }
        if is_full(from, next) {
            return;
        }
        if until != 0 && next >= until {
            return;
        }
        if !self.is_behind(next) {
            return;
        }
        self.next = Some(next);
        self.full = 0;
        self.seen = len;
    }

    /// Whether a watcher that goes on here has to ask for a page of its own.
    pub(crate) fn is_behind(&self, next: u32) -> bool
        ensures { result ≡ is_before next self.now.next }
    {
        match self.next {
            Some(tail) => next < tail,
            None => true,
        }
    }

    /// Up to where a watcher's own page goes; 0 where there is no end to it.
    pub(crate) fn until(&self) -> u32
        ensures { result ≡ end_of self.now.next }
    {
        self.next.unwrap_or(0)
    }
}

/// The newest value of a thing, as it is pushed.
#[derive(Drop)]
pub(crate) struct Latest {
    question: Question,
    /// Its line as it was told; nothing before the first.
    text: Vec<u8>,
    /// The so-manieth value it is; 0 before the first.
    version: u64,
    /// The length of the log at which it was told.
    seen: u32,
    /// Some watcher was not pushed it, or none was told yet.
    is_wanted: bool,
    /// It is on its way.
    is_asked: bool,
}

impl Latest {
    /// Nothing was told, and nobody watches.
    pub(crate) fn new(alloc: Global, question: Question) -> Latest
        ensures { (result.version ≡ 0) × (result.text.items ≡ []) }
    {
        Latest {
            question,
            text: Vec::new(alloc),
            version: 0,
            seen: 0,
            is_wanted: false,
            is_asked: false,
        }
    }

    /// A watcher begins, if it does.
    pub(crate) fn want(&mut self, begins: bool)
        ensures { (self.new.version ≡ self.old.version) × (self.new.text.items ≡ self.old.text.items) }
    {
        self.is_wanted |= begins;
    }

    /// The question, if it is due at this length of the log.
    pub(crate) fn due(&mut self, newest: u32) -> Option<Question>
        ensures { (self.new.version ≡ self.old.version) × (self.new.text.items ≡ self.old.text.items) }
    {
        if self.is_asked {
            return None;
        }
        if newest == self.seen && !self.is_wanted {
            return None;
        }
        self.is_asked = true;
        Some(self.question)
    }

    /// It could not be told: it is asked for again.
    pub(crate) fn missed(&mut self)
        ensures { (self.new.version ≡ self.old.version) × (self.new.text.items ≡ self.old.text.items) }
    {
        self.is_asked = false;
    }

    /// It was told, at this length of the log, that there is none.
    pub(crate) fn lack(&mut self, len: u32)
        ensures { (self.new.version ≡ self.old.version) × (self.new.text.items ≡ self.old.text.items) }
    {
        self.is_asked = false;
        self.is_wanted = false;
        self.seen = len;
    }

    /// Whether some watcher was not pushed it, or none was told yet.
    pub(crate) fn is_wanted(&self) -> bool
        ensures { result ≡ self.now.is_wanted }
    {
        self.is_wanted
    }

    /// Its line as it was told; nothing before the first.
    pub(crate) fn text(&self) -> &[u8]
        ensures { result.now ≡ self.now.text.items }
    {
        &self.text
    }

    /// The number of the newest value.
    pub(crate) fn version(&self) -> u64
        ensures { result ≡ self.now.version }
    {
        self.version
    }

    /// Whether this line says another value.
    fn differs(&self, text: &[u8]) -> bool
        ensures { result ≡ false → value_in self.now.text.items ≡ value_in text.now }
    {
        self.version == 0 || !say_the_same(&self.text, text)
    }

    /// KeepsLine a new value.
    fn renew(&mut self, text: &[u8]) -> Result<(), AllocError>
        ensures kept { OnOk result (KeepsLine true self.old.version self.old.text.items self.new.version self.new.text.items text.now) }
        ensures wanted { self.new.is_wanted ≡ self.old.is_wanted }
    {
        put_line(&mut self.text, text)?;
        self.version = self.version.wrapping_add(1);
        Ok(())
    }

    /// KeepsLine a value that is another one; whether it is.
    fn take(&mut self, text: &[u8]) -> Result<bool, AllocError>
        ensures kept { IfOk result (λ is_new.
            KeepsLine is_new self.old.version self.old.text.items self.new.version self.new.text.items text.now) }
        ensures wanted { self.new.is_wanted ≡ self.old.is_wanted }
    {
        if !self.differs(text) {
            return Ok(false);
        }
        self.renew(text)?;
        Ok(true)
    }

    /// It was told. Whether there may be watchers that were not pushed it. `Err` takes nothing on.
    fn told(&mut self, len: u32, text: &[u8]) -> Result<bool, AllocError>
        ensures { IfOk result (λ is_due. (is_new : Bool)
            × KeepsLine is_new self.old.version self.old.text.items self.new.version self.new.text.items text.now
            × (is_due ≡ true → self.old.is_wanted ≡ false → is_new ≡ true)) }
    {
        self.is_asked = false;
        let is_new = self.take(text)?;
        let is_due = is_new || self.is_wanted;
        self.seen = len;
        self.is_wanted = false;
        Ok(is_due)
    }

    /// It was told: its line, where there may be watchers that were not pushed it. Without memory it is asked again.
    pub(crate) fn news(&mut self, alloc: Global, len: u32, text: &[u8]) -> Option<Vec<u8>>
        ensures says { IfSome result (λ line. SaysValue line.items text.now) }
        ensures kept { IfSome result (λ line. (is_new : Bool)
            × KeepsLine is_new self.old.version self.old.text.items self.new.version self.new.text.items text.now
            × (self.old.is_wanted ≡ false → is_new ≡ true)) }
    {
        let Ok(is_due) = self.told(len, text) else {
            return None;
        };
        if !is_due {
            return None;
        }
        let Ok(line) = marked_line(alloc, &self.text) else {
            self.is_wanted = true;
            return None;
        };
        Some(line)
    }
}
