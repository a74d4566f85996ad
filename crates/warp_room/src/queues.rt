//! Clients by their seats, each with the lines of its own that wait, and whose turn it is.
ghost use Rattle.std.specs.Prelude.{◌≡◌, ◌↔◌, ◌<◌, ◌≤◌, ◌++◌, ◌∷◌, [], ℕ, false, true, IfErr, IfNone, IfOk, IfSome};
ghost use Rattle.std.specs.Prelude.{Err, IsOk, IsTrue, List, OnErr, OnOk, Some, length, slice_get, slice_set, ◌^◌};
ghost use Rattle.warp_record.specs.declared.line.Line.{Line};
ghost use Rattle.warp_room.specs.Queues.{Comes, Hears, IsFirst, IsSeat, LeavesSeat, SeatState, TakesLine, has_turn, new_seat};
ghost use Rattle.warp_room.specs.Queues.{lines_of, may_answer, may_turn};
ghost use Rattle.warp_room.specs.declared.queues.Unheard.{Unheard};

use std::alloc::Global;
use std::collections::VecDeque;
use std::marker::Model;
use warp_record::Line;
use warp_tag::OutOfMemory;
use warp_watch::ClientId;

/// The most seats: each has a key of 32 bits.
const MOST_SEATS: usize = 4_294_967_295;

/// Why a line is not heard.
#[derive(Clone, Copy, Debug, PartialEq, Eq)]
pub enum Unheard {
    /// The client is not there, or no longer.
    Gone,
    /// As many lines of the client wait as may.
    Full,
    /// No memory was to be had.
    NoMemory,
}

/// A seat: the round of the client that has it, or had it last, whether one has it, and that client's lines, which wait.
#[derive(Drop)]
pub(crate) struct Seat {
    round: u64,
    taken: bool,
    lines: VecDeque<Line>,
}

impl Model for Seat {
    ghost use Rattle.warp_room.specs.Queues.{SeatState};

    ghost Value = { SeatState };

    ghost view = { λ s. record { round = s.round; taken = s.taken; lines = s.lines.items } };
}

impl Seat {
    /// The seat of this client, of which no line waits.
    fn new(alloc: Global, round: u64) -> Seat
        ensures { result ≡ record { round = round; taken = true; lines = [] } }
    {
        Seat {
            round,
            taken: true,
            lines: VecDeque::new(alloc),
        }
    }

    /// The round of the client that has it, or had it last.
    fn round(&self) -> u64
        ensures { result ≡ self.now.round }
    {
        self.round
    }

    /// Whether the client of this round has it.
    fn is_of(&self, round: u64) -> bool
        ensures { IsTrue result ↔ (IsTrue self.now.taken × (self.now.round ≡ round)) }
    {
        self.taken && self.round == round
    }

    /// Whether no client has it.
    fn is_free(&self) -> bool
        ensures { IsTrue result → self.now.taken ≡ false }
    {
        !self.taken
    }

    /// How many lines wait.
    fn waiting(&self) -> usize
        ensures { result ≡ length self.now.lines }
    {
        self.lines.len()
    }

    /// Whether its first line may be answered now.
    fn may_turn(&self, all: bool) -> bool
        ensures { result ≡ may_turn all self.now }
    {
        if !self.taken {
            return false;
        }
        match self.lines.front() {
            Some(line) => may_be_answered(all, line),
            None => false,
        }
    }

    /// The first line, if one waits.
    fn first(&self) -> Option<Line>
        ensures some { IfSome result (λ said. (rest : List Line) × (self.now.lines ≡ said ∷ rest)) }
        ensures none { IfNone result (self.now.lines ≡ []) }
    {
        let line = self.lines.front()?;
        Some(*line)
    }

    /// The first line is answered, and waits no longer.
    fn drop_first(&mut self)
        ensures some { (said : Line) (rest : List Line) → self.old.lines ≡ said ∷ rest →
            self.new ≡ record self.old { lines = rest } }
        ensures none { self.old.lines ≡ [] → self.new ≡ self.old }
    {
        let _answered = self.lines.pop_front();
    }

    /// A line waits behind the others. `Err` changes nothing.
    fn hear(&mut self, line: &Line) -> Result<(), Unheard>
        ensures ok { OnOk result (self.new ≡ record self.old { lines = self.old.lines ++ line.now ∷ [] }) }
        ensures err { IfErr result (λ why. (why ≡ Unheard.NoMemory) × (self.new ≡ self.old)) }
    {
        heard(keep(&mut self.lines, *line))
    }

    /// Its client is gone, and its lines with it.
    fn leave(&mut self)
        ensures { self.new ≡ record self.old { taken = false; lines = [] } }
    {
        self.taken = false;
        self.lines.clear();
    }

    /// A client has come.
    fn come(&mut self, round: u64)
        ensures { self.new ≡ record { round = round; taken = true; lines = [] } }
    {
        self.round = round;
        self.taken = true;
        self.lines.clear();
    }
}

/// Puts a value behind the others; whether there was memory for it.
fn keep<X: Copy>(waiting: &mut VecDeque<X>, value: X) -> bool
    ensures kept { IsTrue result → waiting.new.items ≡ waiting.old.items ++ value ∷ [] }
    ensures lost { result ≡ false → waiting.new.items ≡ waiting.old.items }
{
    waiting.push_back(value).is_ok()
}

/// What is said where a line was heard, or there was no memory for it.
fn heard(is_kept: bool) -> Result<(), Unheard>
    ensures kept { IsTrue is_kept → IsOk result }
    ensures lost { is_kept ≡ false → result ≡ Err Unheard.NoMemory }
{
    if is_kept {
        Ok(())
    } else {
        Err(Unheard::NoMemory)
    }
}

/// Whether a line may be answered now: one that needs all to be executed may where all is.
fn may_be_answered(all: bool, line: &Line) -> bool
    ensures { result ≡ may_answer all line.now }
{
    match *line {
        Line::Put(_) => true,
        Line::Ask(_) => all,
        Line::Collect => all,
        Line::Look(_) => true,
    }
}

/// Whose turn it is, and the line.
#[derive(Clone, Copy)]
pub(crate) struct Chosen {
    pub(crate) who: ClientId,
    pub(crate) line: Line,
}

/// The clients by their seats, and the key from which on the next turn is looked for.
#[derive(Drop)]
pub(crate) struct Queues {
    seats: Vec<Seat>,
    next: usize,
    came: u64,
    /// Lines wait only of seats from `low` on, before `high`, so that no others are looked at.
    low: usize,
    high: usize,
}

impl Model for Queues {
    ghost use Rattle.std.specs.Prelude.{◌≤◌, ◌<◌, ◌^◌, length};
    ghost use Rattle.warp_room.specs.Queues.{QueuesState, WaitWithin};

    ghost Value = { QueuesState };

    ghost view = { λ q. record { seats = q.seats.items; next = q.next; came = q.came } };

    ghost invariant = { λ q. (q.next ≤ length q.seats.items) × (length q.seats.items < 2 ^ 32)
        × (q.high ≤ length q.seats.items) × WaitWithin q.low q.high q.seats.items };
}

impl Queues {
    /// No client has come yet.
    pub(crate) fn new(alloc: Global) -> Queues
        ensures { result ≡ record { seats = []; next = 0; came = 0 } }
    {
        Queues {
            seats: Vec::new(alloc),
            next: 0,
            came: 0,
            low: 0,
            high: 0,
        }
    }

    /// A client has come: it has a seat that was free, or a new one. `Err` changes nothing.
    pub(crate) fn come(&mut self, alloc: Global) -> Result<ClientId, OutOfMemory>
        ensures ok { IfOk result (λ who. Comes who self.old self.new) }
        ensures err { OnErr result (self.new ≡ self.old) }
    {
        let round = self.came;
        let Some(came) = round.checked_add(1) else {
            return Err(OutOfMemory);
        };
        let key = match free_seat(&self.seats) {
            Some(key) => {
                self.take_seat(key, round);
                key
            }
            None => self.add_seat(alloc, round)?,
        };
        self.came = came;
        Ok(ClientId {
            key: key as u32,
            round,
        })
    }

    /// A client has come, and has this seat.
    fn take_seat(&mut self, key: usize, round: u64)
        requires { key < length self.old.seats }
        ensures { self.new ≡ record self.old { seats = slice_set self.old.seats key (new_seat round) } }
    {
        self.seats[key].come(round);
    }

    /// A client has come, and has a seat behind the others: its key. `Err` changes nothing.
    fn add_seat(&mut self, alloc: Global, round: u64) -> Result<usize, OutOfMemory>
        ensures ok { IfOk result (λ key. (key ≡ length self.old.seats) × (key < 2 ^ 32)
            × (self.new ≡ record self.old { seats = self.old.seats ++ new_seat round ∷ [] })) }
        ensures err { OnErr result (self.new ≡ self.old) }
    {
        let key = self.seats.len();
        if key >= MOST_SEATS {
            return Err(OutOfMemory);
        }
        self.seats.push(Seat::new(alloc, round))?;
        Ok(key)
    }

    /// Whether the client has a seat.
    pub(crate) fn is_here(&self, who: ClientId) -> bool
        ensures here { IsTrue result → (seat : SeatState) × IsSeat self.now.seats who seat }
        ensures gone { result ≡ false → (seat : SeatState) → ¬ IsSeat self.now.seats who seat }
    {
        match self.seats.get(who.key as usize) {
            Some(seat) => seat.is_of(who.round),
            None => false,
        }
    }

    /// A client is gone, and its lines with it. It has a seat.
    pub(crate) fn leave(&mut self, who: ClientId)
        requires { (seat : SeatState) × IsSeat self.old.seats who seat }
        ensures { LeavesSeat who self.old self.new }
    {
        self.seats[who.key as usize].leave();
    }

    /// How many lines of a client wait: 0 of one that is not there.
    pub(crate) fn waiting(&self, who: ClientId) -> usize
        ensures { result ≡ length (lines_of self.now.seats who) }
    {
        match self.seats.get(who.key as usize) {
            Some(seat) => {
                if seat.is_of(who.round) {
                    seat.waiting()
                } else {
                    0
                }
            }
            None => 0,
        }
    }

    /// A line of a client waits behind its others, where fewer than so many wait. `Err` changes nothing.
    pub(crate) fn hear(&mut self, who: ClientId, line: &Line, most: u32) -> Result<(), Unheard>
        ensures ok { OnOk result (Hears who line.now most self.old self.new) }
        ensures gone { result ≡ Err Unheard.Gone → (seat : SeatState) → ¬ IsSeat self.old.seats who seat }
        ensures full { result ≡ Err Unheard.Full → most ≤ length (lines_of self.old.seats who) }
        ensures err { OnErr result (self.new ≡ self.old) }
    {
        if !self.is_here(who) {
            return Err(Unheard::Gone);
        }
        if self.waiting(who) >= most as usize {
            return Err(Unheard::Full);
        }
        let key = who.key as usize;
        let low = low_with(self.low, self.high, key);
        let high = high_with(self.low, self.high, key);
        self.low = low;
        self.high = high;
        self.seats[key].hear(line)
    }

    /// Whose turn it is, and the oldest line of that client; `None` where no client has a line that may be answered.
    pub(crate) fn first(&self, all: bool) -> Option<Chosen>
        ensures found { IfSome result (λ turn. IsFirst all self.now.seats self.now.next turn.who.key
            × ((seat : SeatState) × (rest : List Line) × IsSeat self.now.seats turn.who seat
            × (seat.lines ≡ turn.line ∷ rest))) }
        ensures none { IfNone result ((key : ℕ) → has_turn all self.now.seats key ≡ false) }
    {
        let key = self.first_key(all)?;
        let seat = &self.seats[key];
        let line = seat.first()?;
        Some(Chosen {
            who: ClientId {
                key: key as u32,
                round: seat.round(),
            },
            line,
        })
    }

    /// The key of the seat whose turn it is.
    fn first_key(&self, all: bool) -> Option<usize>
        ensures found { IfSome result (λ key. IsFirst all self.now.seats self.now.next key
            × (key < length self.now.seats)) }
        ensures none { IfNone result ((key : ℕ) → has_turn all self.now.seats key ≡ false) }
    {
        match self.first_within(all, self.next, self.seats.len()) {
            Some(key) => Some(key),
            None => self.first_within(all, 0, self.next),
        }
    }

    /// The first seat from `from` on, before `until`, whose client has a line that may be answered.
    fn first_within(&self, all: bool, from: usize, until: usize) -> Option<usize>
        requires { until ≤ length self.now.seats }
        ensures found { IfSome result (λ key. (from ≤ key) × (key < until) × IsTrue (has_turn all self.now.seats key)
            × ((other : ℕ) → from ≤ other → other < key → has_turn all self.now.seats other ≡ false)) }
        ensures none { IfNone result ((other : ℕ) → from ≤ other → other < until →
            has_turn all self.now.seats other ≡ false) }
    {
        first_between(&self.seats, all, from.max(self.low), until.min(self.high))
    }

    /// The first line of this client is answered: the next turn is looked for behind its seat.
    pub(crate) fn take_line(&mut self, who: ClientId)
        requires { (seat : SeatState) × IsSeat self.old.seats who seat }
        ensures { (seat : SeatState) (said : Line) (rest : List Line) → IsSeat self.old.seats who seat →
            seat.lines ≡ said ∷ rest → TakesLine who seat rest self.old self.new }
    {
        self.drop_line(who);
        self.narrow();
    }

    /// The first line of this client is answered: the next turn is looked for behind its seat.
    fn drop_line(&mut self, who: ClientId)
        requires { (seat : SeatState) × IsSeat self.old.seats who seat }
        ensures { (seat : SeatState) (said : Line) (rest : List Line) → IsSeat self.old.seats who seat →
            seat.lines ≡ said ∷ rest → TakesLine who seat rest self.old self.new }
    {
        let key = who.key as usize;
        self.seats[key].drop_first();
        self.next = key + 1;
    }

    /// Seats of which no line waits are looked at no more.
    fn narrow(&mut self)
        ensures { self.new ≡ self.old }
    {
        self.low = first_waiting(&self.seats, self.low, self.high);
    }
}

/// Where lines wait from, once one of this key does too.
fn low_with(low: usize, high: usize, key: usize) -> usize
    ensures { (result ≤ key) × (low < high → result ≤ low) }
{
    if low >= high { key } else { low.min(key) }
}

/// Up to where lines wait, once one of this key does too.
fn high_with(low: usize, high: usize, key: usize) -> usize
    requires { key < 2 ^ 32 }
    ensures within { (key < result) × (low < high → high ≤ result) }
    ensures most { (n : ℕ) → high ≤ n → key < n → result ≤ n }
{
    if low >= high {
        key + 1
    } else {
        high.max(key + 1)
    }
}

/// The first of these seats, from `low` on, of which a line waits; `high` where there is none before that.
fn first_waiting(seats: &[Seat], low: usize, high: usize) -> usize
    requires { high ≤ length seats.now }
    ensures { (key : ℕ) (seat : SeatState) → slice_get seats.now key ≡ Some seat → low ≤ key → key < result →
        key < high → seat.lines ≡ [] }
{
    for key in low..high {
        if waits_at(seats, key) {
            return key;
        }
    }
    high
}

/// Whether a line waits of the seat of this key.
fn waits_at(seats: &[Seat], key: usize) -> bool
    requires { key < length seats.now }
    ensures { result ≡ false → (seat : SeatState) → slice_get seats.now key ≡ Some seat → seat.lines ≡ [] }
{
    seats[key].first().is_some()
}

/// A seat that no client has.
fn free_seat(seats: &[Seat]) -> Option<usize>
    ensures found { IfSome result (λ key. (seat : SeatState) × (slice_get seats.now key ≡ Some seat)
        × (seat.taken ≡ false)) }
{
    for key in 0..seats.len() {
        if seats[key].is_free() {
            return Some(key);
        }
    }
    None
}

/// The first seat from `from` on, before `until`, whose client has a line that may be answered.
fn first_between(seats: &[Seat], all: bool, from: usize, until: usize) -> Option<usize>
    requires { until ≤ length seats.now }
    ensures found { IfSome result (λ key. (from ≤ key) × (key < until) × IsTrue (has_turn all seats.now key)
        × ((other : ℕ) → from ≤ other → other < key → has_turn all seats.now other ≡ false)) }
    ensures none { IfNone result ((other : ℕ) → from ≤ other → other < until →
        has_turn all seats.now other ≡ false) }
{
    for key in from..until {
        if seats[key].may_turn(all) {
            return Some(key);
        }
    }
    None
}
