//! Laws: what turns of a clock and rounds come to, in whatever order they happen.
ghost use Rattle.std.specs.Prelude.{◌≡◌, ◌+◌, ◌-◌, ◌*◌, ◌/◌, ◌<◌, ◌≤◌, ◌↔◌, ℕ, Bool, List, None, Some, false, max, min, true};
ghost use Rattle.warp_tag.specs.Moment.{Moment, is_before};
ghost use Rattle.warp_clock.specs.declared.clock.Pause.{Pause};
ghost use Rattle.warp_clock.specs.Clock.{ClockState, IsClock, NeverStands, after_turns, due_of, end_of, furthest, heard_at, is_over};
ghost use Rattle.warp_clock.specs.Clock.{latest, millis_of, never, open_of, reached, span_of, stands, stood, tick_of, ticks_in, turned};
ghost use Rattle.warp_clock.specs.Closing.{AreRounds, ClosingState, PaceStep, Paced, after_steps, bound_of, round_of};

/// No rounding adds up. A tick is reached just at its moment, so many microseconds behind the base, rounded up once. As
/// long as a clock does not stand, it has counted the whole ticks since its base, however it was turned; one that jumps
/// never stands.
pub fn ticks_are_exact()
    ensures moment { (hertz ticks span : ℕ) → 1 ≤ hertz → (ticks ≤ ticks_in hertz span) ↔ (span_of hertz ticks ≤ span) }
    ensures count { (moments : List ℕ) (c : ClockState) → NeverStands moments c →
        reached (after_turns moments c) ≡ min (end_of c) (c.first + (latest moments c.heard - c.base) * c.hertz / 1000000) }
    ensures jump { (moments : List ℕ) (c : ClockState) → c.pause ≡ Pause.Jump → NeverStands moments c }
{}

/// Whatever the moments are, also where one is before another that was heard: no tick, no least open tick and no
/// millisecond that a clock tells is before one that it told, and it stays in its range.
pub fn ticks_never_go_back()
    ensures tick { (moments : List ℕ) (c : ClockState) → IsClock c → tick_of c ≤ tick_of (after_turns moments c) }
    ensures open { (moments : List ℕ) (c : ClockState) → IsClock c → open_of c ≤ open_of (after_turns moments c) }
    ensures milliseconds { (moments : List ℕ) (c : ClockState) → IsClock c → millis_of c ≤ millis_of (after_turns moments c) }
    ensures range { (moments : List ℕ) (c : ClockState) → IsClock c → IsClock (after_turns moments c) }
{}

/// A clock that stands behind a pause passes in no turn more ticks than its grace has, and one at least. So the tick that
/// it was at a turn is open at the next one. Behind a turn in which it stood the tick that it is was reached just then, so
/// that it stood is told once; and it stands in no turn that may pass all ticks that went by.
pub fn pauses_are_bounded()
    ensures passed { (now : ℕ) (c : ClockState) → IsClock c → c.pause ≡ Pause.Stand → reached (turned now c) ≤ furthest c }
    ensures open { (now : ℕ) (c : ClockState) → IsClock c → c.pause ≡ Pause.Stand → 1 ≤ c.grace → reached c ≤ c.last →
        open_of (turned now c) ≤ max (open_of c) (tick_of c) }
    ensures moment { (now : ℕ) (c : ClockState) → IsClock c → stands c.pause now c ≡ true →
        (turned now c).base + span_of c.hertz (reached (turned now c) - c.first) ≡ max now c.heard }
    ensures once { (now : ℕ) (c : ClockState) → IsClock c → stood now (turned now c) ≡ 0 }
    ensures short { (now : ℕ) (c : ClockState) → reached (heard_at now c) ≤ furthest c → stood now c ≡ 0 }
{}

/// A turn passes a tick from the moment on that was told as the next, and not before it; behind the end none passes any.
pub fn due_is_exact()
    ensures due { (now : ℕ) (c : ClockState) → IsClock c → reached c < end_of c → now < never →
        (reached c < reached (turned now c)) ↔ (due_of c ≤ now) }
    ensures end { (now : ℕ) (c : ClockState) → IsClock c → reached c ≡ end_of c → reached (turned now c) ≡ end_of c }
{}

/// A tick up to the last is closed just when more ticks than the grace were counted behind it, if it was open at the start;
/// and nothing past the last tick is.
pub fn grace_is_kept()
    ensures closed { (tick : ℕ) (c : ClockState) → IsClock c → c.opened ≤ tick → tick ≤ c.last →
        (tick < open_of c) ↔ (tick + c.grace < reached c) }
    ensures last { (c : ClockState) → IsClock c → open_of c ≤ c.last + 1 }
{}

/// What was announced is never before what was announced earlier, through turns and rounds in any order; and while nothing
/// is announced but by rounds that are due, all that was announced is closed.
pub fn rounds_only_grow()
    ensures grows { (steps : List PaceStep) (p : Paced) →
        is_before (after_steps steps p).closing.closed p.closing.closed ≡ false }
    ensures closed { (steps : List PaceStep) (p : Paced) → IsClock p.clock → AreRounds steps →
        is_before (bound_of p.clock) p.closing.closed ≡ false →
        is_before (bound_of (after_steps steps p).clock) (after_steps steps p).closing.closed ≡ false }
{}

/// A round that is due is one up to the least open tick, and further than all that was announced. But for the last one, two
/// are as many ticks apart as was wanted, or a second; where nothing lies open, a second.
pub fn rounds_are_apart()
    ensures bound { (lies_open : Bool) (c : ClockState) (k : ClosingState) (tag : Moment) → round_of lies_open c k ≡ Some tag →
        (tag ≡ bound_of c) × (is_before k.closed tag ≡ true) }
    ensures apart { (lies_open : Bool) (c : ClockState) (k : ClosingState) (tag : Moment) → round_of lies_open c k ≡ Some tag →
        is_over c ≡ false → k.closed.time + min k.every c.hertz ≤ tag.time }
    ensures idle { (c : ClockState) (k : ClosingState) (tag : Moment) → round_of false c k ≡ Some tag → is_over c ≡ false →
        k.closed.time + c.hertz ≤ tag.time }
{}

/// Where no round is due, what was announced is less than a second of ticks behind what is closed, where something lies open
/// less than so many ticks as was wanted; and at the end nothing is behind. So a restart loses little of a clock.
pub fn rounds_keep_up()
    ensures second { (lies_open : Bool) (c : ClockState) (k : ClosingState) → IsClock c → round_of lies_open c k ≡ None →
        open_of c < k.closed.time + c.hertz }
    ensures open { (c : ClockState) (k : ClosingState) → 1 ≤ k.every → round_of true c k ≡ None → open_of c < k.closed.time + k.every }
    ensures end { (lies_open : Bool) (c : ClockState) (k : ClosingState) → is_over c ≡ true → round_of lies_open c k ≡ None →
        is_before k.closed (record { time = c.last + 1; microstep = 0 }) ≡ false }
{}
