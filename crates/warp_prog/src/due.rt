//! The rows that a program makes by itself: those of startup and of its timers, where nothing else comes.
ghost use Rattle.std.specs.Prelude.{◌≡◌, ◌+◌, ◌≤◌};
ghost use Rattle.std.specs.List.{list_any};
ghost use Rattle.warp_prog.specs.OwnRows.{is_due, is_own, own_before, own_rows};

use warp_step::{Program, Timer};

/// How many rows a program makes by itself up to its stop: one for each time at which startup or one of its timers is
/// due. By its form these are at most 1,000,001, 10,000,001 or 15,625,000.
pub fn own_rows(program: &Program) -> u64
    ensures { result ≡ own_rows program.now }
{
    program.valid();
    let stop = program.stop();
    let rows = own_before(program, stop);
    if is_own(program, stop) {
        rows + 1
    } else {
        rows
    }
}

/// At how many of the times before this one startup or a timer is due.
fn own_before(program: &Program, end: u64) -> u64
    ensures count { result ≡ own_before program.now end }
    ensures range { result ≤ end }
{
    let mut rows = 0;
    for time in 0..end {
        if is_own(program, time) {
            rows += 1;
        }
    }
    rows
}

/// Whether startup or a timer is due at a time.
fn is_own(program: &Program, time: u64) -> bool
    ensures { result ≡ is_own program.now time }
{
    (time == 0 && program.begins()) || any_is_due(program.timers(), time)
}

/// Whether one of these timers is due at a time.
fn any_is_due(timers: &[Timer], time: u64) -> bool
    ensures { result ≡ list_any (is_due time) timers.now }
{
    for timer in timers {
        if is_due(timer, time) {
            return true;
        }
    }
    false
}

/// Whether a timer is due at a time.
fn is_due(timer: &Timer, time: u64) -> bool
    ensures { result ≡ is_due time timer.now }
{
    if time < timer.offset {
        return false;
    }
    if timer.period == 0 {
        return time == timer.offset;
    }
    (time - timer.offset) % timer.period == 0
}
