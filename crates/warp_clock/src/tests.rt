//! Worked moments of a clock of 30 ticks a second, in numbers that no clause has.
use crate::{Clock, Closing, Hertz, Pause, Ticks, Turned};
use warp_tag::Tag;

/// A clock that begins anew at 1,000 microseconds: 8 ticks of grace, 100 the last one.
fn clock(pause: Pause) -> Option<Clock> {
    let ticks = Ticks {
        first: 0,
        opened: 0,
        last: 100,
        grace: 8,
    };
    Some(Clock::new(Hertz::new(30)?, ticks, pause, 1_000))
}

/// Where a clock is that was turned at these moments: its last turn, its tick, its milliseconds and when it goes on.
fn turned(pause: Pause, moments: &[u64]) -> Option<(Turned, u64, u64, u64)> {
    let mut clock = clock(pause)?;
    let mut last = clock.turn(0);
    for moment in moments {
        last = clock.turn(*moment);
    }
    Some((last, clock.tick(), clock.milliseconds(), clock.due()))
}

/// What a turn told.
fn told(passed: u64, stood: u64) -> Turned {
    Turned { passed, stood }
}

#[test]
fn ticks_come_at_their_moments(rt: HostRuntime) {
    assert_eq!(rt;
        turned(Pause::Stand, &[34_333]),
        Some((told(0, 0), 0, 33, 34_334))
    );
    assert_eq!(rt;
        turned(Pause::Stand, &[34_333, 34_334, 20]),
        Some((told(0, 0), 1, 33, 67_667))
    );
    assert_eq!(rt;
        turned(Pause::Stand, &[101_000]),
        Some((told(3, 0), 3, 100, 134_334))
    );
}

#[test]
fn pauses_are_dropped_or_not(rt: HostRuntime) {
    assert_eq!(rt;
        turned(Pause::Stand, &[34_334, 10_000_000]),
        Some((told(8, 9_699_000), 9, 300, 10_033_334))
    );
    assert_eq!(rt;
        turned(Pause::Jump, &[34_334, 10_000_000]),
        Some((told(99, 0), 100, 9_999, u64::MAX))
    );
}

#[test]
fn rounds_are_due(rt: HostRuntime) {
    let mut clock = clock(Pause::Jump).expect(&rt, "30 ticks a second");
    let mut closing = Closing::new(2, Tag::beginning_of(0));
    let _ = clock.turn(301_000);
    assert!(rt; closing.due(&clock, true).is_none());
    let _ = clock.turn(334_334);
    assert!(rt; closing.due(&clock, false).is_none());
    assert!(rt; closing.due(&clock, true).is_some_and(|tag| tag.time() == 2));
    closing.closed(Tag::beginning_of(2));
    let _ = clock.turn(10_000_000);
    assert!(rt;
        closing
            .due(&clock, false)
            .is_some_and(|tag| tag.time() == 101)
    );
}
