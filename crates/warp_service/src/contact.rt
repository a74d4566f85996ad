//! The way to a peer: when it is tried, how long it is waited for, and when it counts as lost. All of it is numbers, in
//! microseconds of any one clock.
ghost use Rattle.std.specs.Prelude.{◌≡◌, ◌&&◌, ◌||◌, not, false, true, if◌then◌else◌};
ghost use Rattle.std.specs.Prelude.{Option, Some, None};
ghost use Rattle.warp_service.specs.Contact.{asked_later, begun, due_now, due_open, is_begun, is_lasting, is_number, is_open, is_quiet, is_silent};
ghost use Rattle.warp_service.specs.Contact.{has_come, is_sought, is_tried, later, losses_before, lost};
ghost use Rattle.warp_service.specs.Contact.{moment_of, next_of, next_open, opened, pause_behind, tried};

/// The last moment that there is: what is due then is never due.
pub(crate) const NEVER: u64 = u64::MAX;

const MILLISECOND: u64 = 1_000;

const SECOND: u64 = 1_000_000;

/// The first pause behind a connection that was lost, which is twice as long each time, and the longest.
const FIRST_PAUSE: u64 = 100 * MILLISECOND;

const LONGEST_PAUSE: u64 = 5 * SECOND;

/// Losses are counted up to so many: a further one makes the pause no longer.
const MOST_LOSSES: u32 = 6;

/// So long a connection lasts, if it brings a record, behind which losses are counted anew.
const LASTING: u64 = 60 * SECOND;

/// So long a connection may take to be made.
const LONGEST_MAKING: u64 = 5 * SECOND;

/// So long it is waited before a server that has nothing new is asked again.
const LEVEL_PAUSE: u64 = 50 * MILLISECOND;

/// Behind so long a silence a host is asked a question.
const LONGEST_QUIET: u64 = 5 * SECOND;

/// Behind so long a silence the connection is given up.
const LONGEST_SILENCE: u64 = 15 * SECOND;

/// Where the way to a peer stands.
#[derive(Clone, Copy, Debug)]
pub enum Way {
    /// It is tried again at this moment.
    Waits(u64),
    /// Its address is sought.
    Sought,
    /// A connection is being made, since this moment.
    Begun(u64),
    /// There is a connection, since this moment.
    Open(u64),
}

/// What is due of the way to a peer.
#[derive(Clone, Copy, Debug)]
pub enum Due {
    /// Nothing.
    Nothing,
    /// It is to be tried.
    Try,
    /// A server that had nothing new is to be asked again.
    Ask,
    /// A host that is quiet is to be asked a question.
    Question,
    /// The connection is to be given up.
    Over,
}

/// The way to a peer.
#[derive(Clone, Copy, Debug)]
pub struct Contact {
    /// The number of the connection that is there or is being made, or was last.
    pub number: u64,
    pub way: Way,
    /// How many connections were lost since one that lasted and brought something, counted up to `MOST_LOSSES`.
    pub losses: u32,
    /// Whether it brought a record.
    pub has_brought: bool,
    /// When bytes came last, or were wanted again.
    pub heard: u64,
    /// Whether its bytes are wanted: only then its silence counts.
    pub is_wanted: bool,
    /// When a server that has nothing new is asked again.
    pub asks_at: Option<u64>,
    /// Whether it is a host that is followed: it may have nothing to say for long.
    pub is_host: bool,
    /// Whether a question to it is under way.
    pub is_questioned: bool,
}

/// The moment that comes so long after another.
pub(crate) fn later(moment: u64, micros: u64) -> u64
    ensures { result ≡ later moment micros }
{
    moment.saturating_add(micros)
}

/// The moment that there is, or never.
fn moment_of(moment: Option<u64>) -> u64
    ensures { result ≡ moment_of moment }
{
    match moment {
        Some(moment) => moment,
        None => NEVER,
    }
}

/// Whether the moment has come.
fn has_come(now: u64, moment: Option<u64>) -> bool
    ensures { result ≡ has_come now moment }
{
    match moment {
        Some(moment) => moment <= now,
        None => false,
    }
}

/// The pause behind a connection that was lost, where so many were lost before it.
fn pause_behind(losses: u32) -> u64
    ensures { result ≡ pause_behind losses }
{
    if losses >= MOST_LOSSES {
        return LONGEST_PAUSE;
    }
    FIRST_PAUSE << losses
}

impl Contact {
    /// A peer that is to be tried at once.
    pub fn new(now: u64) -> Contact
        ensures { result ≡ record {
          number = 0;
          way = Way.Waits now;
          losses = 0;
          has_brought = false;
          heard = now;
          is_wanted = false;
          asks_at = None;
          is_host = false;
          is_questioned = false;
        } }
    {
        Contact {
            number: 0,
            way: Way::Waits(now),
            losses: 0,
            has_brought: false,
            heard: now,
            is_wanted: false,
            asks_at: None,
            is_host: false,
            is_questioned: false,
        }
    }

    /// The number of the connection that is there or is being made, or was last.
    pub fn number(&self) -> u64
        ensures { result ≡ self.now.number }
    {
        self.number
    }

    /// Whether its address is sought.
    pub fn is_sought(&self) -> bool
        ensures { result ≡ is_sought self.now.way }
    {
        matches!(&self.way, Way::Sought)
    }

    /// Whether a connection is being made.
    pub fn is_begun(&self) -> bool
        ensures { result ≡ is_begun self.now.way }
    {
        matches!(&self.way, Way::Begun(_))
    }

    /// Whether there is a connection.
    pub fn is_open(&self) -> bool
        ensures { result ≡ is_open self.now.way }
    {
        matches!(&self.way, Way::Open(_))
    }

    /// Whether this is the number of a connection that is there or is being made.
    pub fn is_number(&self, number: u64) -> bool
        ensures { result ≡ is_number number self.now }
    {
        number == self.number && (self.is_begun() || self.is_open())
    }

    /// Its address is sought from now on, if it is to be tried; whether it is.
    pub fn try_now(&mut self, now: u64) -> bool
        ensures is { result ≡ is_tried now self.old.way }
        ensures way { self.new ≡ tried now self.old }
    {
        let Way::Waits(until) = self.way else {
            return false;
        };
        if until > now {
            return false;
        }
        self.way = Way::Sought;
        true
    }

    /// A connection is being made since now, of the next number.
    pub fn begin(&mut self, now: u64)
        ensures { self.new ≡ begun now self.old }
    {
        self.number = self.number.wrapping_add(1);
        self.way = Way::Begun(now);
    }

    /// The connection is there.
    pub fn open(&mut self, now: u64)
        ensures { self.new ≡ opened now self.old }
    {
        self.way = Way::Open(now);
        self.heard = now;
        self.is_wanted = false;
    }

    /// The connection is lost, or none could be made.
    pub fn lose(&mut self, now: u64)
        ensures { self.new ≡ lost now self.old }
    {
        let losses = self.losses_before(now);
        self.way = Way::Waits(later(now, pause_behind(losses)));
        self.losses = losses.min(MOST_LOSSES - 1) + 1;
        self.has_brought = false;
        self.note_asked();
        self.is_questioned = false;
        self.is_host = false;
        self.is_wanted = false;
    }

    /// How many connections were lost before this one since one that lasted and brought something, with it.
    fn losses_before(&self, now: u64) -> u32
        ensures { result ≡ losses_before now self.now }
    {
        if self.has_brought && self.is_lasting(now) {
            0
        } else {
            self.losses
        }
    }

    /// Whether it is there since long.
    fn is_lasting(&self, now: u64) -> bool
        ensures { result ≡ is_lasting now self.now.way }
    {
        match self.way {
            Way::Open(since) => now.saturating_sub(since) >= LASTING,
            Way::Waits(_) | Way::Sought | Way::Begun(_) => false,
        }
    }

    /// Bytes of it came: whether they end a line. One that ends none is silent.
    pub fn note_bytes(&mut self, has_line: bool, now: u64)
        ensures { self.new ≡ record self.old { heard = if has_line then now else self.old.heard } }
    {
        if has_line {
            self.heard = now;
        }
    }

    /// It was heard: whether it brought a record.
    pub fn note_heard(&mut self, brings: bool)
        ensures { self.new ≡ record self.old { has_brought = self.old.has_brought || brings } }
    {
        self.has_brought |= brings;
    }

    /// It is followed: whether it is a host.
    pub fn note_found(&mut self, is_host: bool)
        ensures { self.new ≡ record self.old { is_host = is_host } }
    {
        self.is_host = is_host;
    }

    /// Its bytes are wanted from now on, or no longer.
    pub fn want(&mut self, is_wanted: bool, now: u64)
        ensures { self.new ≡ record self.old {
          heard = if is_wanted && not self.old.is_wanted then now else self.old.heard;
          is_wanted = is_wanted;
        } }
    {
        if is_wanted && !self.is_wanted {
            self.heard = now;
        }
        self.is_wanted = is_wanted;
    }

    /// Whether its bytes are wanted.
    pub fn is_wanted(&self) -> bool
        ensures { result ≡ self.now.is_wanted }
    {
        self.is_wanted
    }

    /// It is a server that has nothing new: it is asked again behind a pause, unless that was said.
    pub fn ask_later(&mut self, now: u64)
        ensures { self.new ≡ asked_later now self.old }
    {
        if self.asks_at.is_none() {
            self.asks_at = Some(later(now, LEVEL_PAUSE));
        }
    }

    /// It was asked again.
    pub fn note_asked(&mut self)
        ensures { self.new ≡ record self.old { asks_at = None } }
    {
        self.asks_at = None;
    }

    /// A question to it is under way, or was answered.
    pub fn question(&mut self, is_questioned: bool)
        ensures { self.new ≡ record self.old { is_questioned = is_questioned } }
    {
        self.is_questioned = is_questioned;
    }

    /// Whether a question to it is under way.
    pub fn is_questioned(&self) -> bool
        ensures { result ≡ self.now.is_questioned }
    {
        self.is_questioned
    }

    /// What is due now.
    pub fn due(&self, now: u64) -> Due
        ensures { result ≡ due_now now self.now }
    {
        match self.way {
            Way::Waits(until) if until <= now => Due::Try,
            Way::Begun(since) if later(since, LONGEST_MAKING) <= now => Due::Over,
            Way::Open(_) => self.due_open(now),
            Way::Waits(_) | Way::Sought | Way::Begun(_) => Due::Nothing,
        }
    }

    /// What is due now of a connection that is there.
    fn due_open(&self, now: u64) -> Due
        ensures { result ≡ due_open now self.now }
    {
        if self.is_silent(now) {
            return Due::Over;
        }
        if has_come(now, self.asks_at) {
            return Due::Ask;
        }
        if self.is_quiet(now) {
            return Due::Question;
        }
        Due::Nothing
    }

    /// Whether it has said nothing for so long that it is given up.
    fn is_silent(&self, now: u64) -> bool
        ensures { result ≡ is_silent now self.now }
    {
        self.is_wanted && later(self.heard, LONGEST_SILENCE) <= now
    }

    /// Whether it is to be asked a question: it has said nothing for long, and none is under way.
    fn is_quiet(&self, now: u64) -> bool
        ensures { result ≡ is_quiet now self.now }
    {
        self.is_wanted
            && self.is_host
            && !self.is_questioned
            && later(self.heard, LONGEST_QUIET) <= now
    }

    /// The moment at which something is due.
    pub fn next_moment(&self) -> u64
        ensures { result ≡ next_of self.now self.now.way }
    {
        match self.way {
            Way::Waits(until) => until,
            Way::Sought => NEVER,
            Way::Begun(since) => later(since, LONGEST_MAKING),
            Way::Open(_) => self.next_open(),
        }
    }

    /// The moment at which something is due of a connection that is there.
    fn next_open(&self) -> u64
        ensures { result ≡ next_open self.now }
    {
        let asks = moment_of(self.asks_at);
        if !self.is_wanted {
            return asks;
        }
        let longest = if self.is_host && !self.is_questioned {
            LONGEST_QUIET
        } else {
            LONGEST_SILENCE
        };
        asks.min(later(self.heard, longest))
    }
}
