//! What `warpd trace --steps` does: it executes what each record brings, as it came, and prints what was executed.
ghost use Rattle.std.specs.Prelude.{◌≡◌, ◌+◌, MatchResult};
ghost use Rattle.warp_step.specs.Counter.{IsUnused};
ghost use Rattle.warpd.specs.Outcome.{failures_with};

use std::alloc::Global;
use std::marker::Brand;
use std::sync::ledger::{Blank, Ledger};
use warp_line::Timeline;
use warp_machine::LastDone;
use warp_replica::Replica;
use warp_run::Warp;
use warp_tag::{OutOfMemory, Tag};
use warp_trace::{Labels, Printer, Recorder, StepNotes, TraceFault, print_full};

/// A timeline whose steps can be printed.
pub(crate) trait Stepping: Timeline {
    /// The tag of the last row that is done, if there is one.
    fn last_done(&self) -> Option<Tag>;
}

impl Stepping for Warp {
    fn last_done(&self) -> Option<Tag> {
        self.last()
    }
}

/// Tells how far a timeline is done whose steps can be printed.
pub(crate) struct LastRow;

impl<T: Stepping> LastDone<T> for LastRow {
    fn last_done(timeline: &T) -> Option<Tag> {
        timeline.last_done()
    }
}

/// Has a replica take the recorder's records one by one, in the order in which they came, and prints each step in the
/// order of execution, with a line where the run went back before it. Contracts say how printing ended, and nothing of
/// the text.
pub(crate) fn print_steps<O: Printer, T: Stepping>(
    alloc: Global,
    labels: Labels,
    recorder: &Recorder,
    out: &mut O,
) -> Result<(), TraceFault>
    ensures failures { MatchResult result (λ _. O.failures out.new ≡ O.failures out.old)
        (λ fault. O.failures out.new ≡ failures_with (O.failures out.old) fault) }
    ensures kept { O.kept out.new ≡ O.kept out.old }
{
    print_counted::<O, T, Brand>(alloc, labels, recorder, out, Blank::new(1))
}

/// Prints the steps, which are counted in the ledger that `blank` opens, for contracts alone.
fn print_counted<O: Printer, T: Stepping, L: Ledger>(
    alloc: Global,
    labels: Labels,
    recorder: &Recorder,
    out: &mut O,
    blank: Blank,
) -> Result<(), TraceFault>
    requires { IsUnused blank L.name L.parts }
    ensures failures { MatchResult result (λ _. O.failures out.new ≡ O.failures out.old)
        (λ fault. O.failures out.new ≡ failures_with (O.failures out.old) fault) }
    ensures kept { O.kept out.new ≡ O.kept out.old }
{
    let mut notes = StepNotes::<L>::new(alloc, labels, blank);
    match replica_for::<T>(alloc, recorder) {
        Ok(mut replica) => print_noted(alloc, recorder, &mut replica, &mut notes, out),
        Err(_) => Err(TraceFault::NoMemory),
    }
}

/// Has the replica take each record of the recorder, and prints what was executed for it.
fn print_noted<O: Printer, T: Stepping, L: Ledger>(
    alloc: Global,
    recorder: &Recorder,
    replica: &mut Replica<T>,
    notes: &mut StepNotes<L>,
    out: &mut O,
) -> Result<(), TraceFault>
    ensures failures { MatchResult result (λ _. O.failures out.new ≡ O.failures out.old)
        (λ fault. O.failures out.new ≡ failures_with (O.failures out.old) fault) }
    ensures kept { O.kept out.new ≡ O.kept out.old }
{
    let mut text = Vec::new(alloc);
    for place in 1..=recorder.len() {
        let Ok(()) = note_at(alloc, recorder, place, replica, notes, &mut text) else {
            return Err(TraceFault::NoMemory);
        };
        let Ok(()) = print_full(&mut text, out) else {
            return Err(TraceFault::Output);
        };
    }
    // Without a record nothing was executed so far.
    let stood = replica.timeline().last_done();
    let Ok(()) = settle_noted(alloc, stood, replica, notes, &mut text) else {
        return Err(TraceFault::NoMemory);
    };
    match out.print(&text) {
        Ok(()) => Ok(()),
        Err(_) => Err(TraceFault::Output),
    }
}

/// A replica of the recorder's program that took no record yet.
fn replica_for<T: Timeline>(alloc: Global, recorder: &Recorder) -> Result<Replica<T>, OutOfMemory> {
    let program = recorder.program().copy(alloc)?;
    Replica::new(alloc, program)
}

/// Has the replica take the record at this place of the recorder's log, and appends what was executed for it.
fn note_at<T: Stepping, L: Ledger>(
    alloc: Global,
    recorder: &Recorder,
    place: u32,
    replica: &mut Replica<T>,
    notes: &mut StepNotes<L>,
    text: &mut Vec<u8>,
) -> Result<(), OutOfMemory> {
    let Some(record) = recorder.entry(place) else {
        return Ok(());
    };
    let stood = replica.timeline().last_done();
    let Ok(_) = replica.take(alloc, &record) else {
        return Err(OutOfMemory);
    };
    settle_noted(alloc, stood, replica, notes, text)
}

/// Has the replica execute what is not done, and appends it, behind a line on the going back from the tag that was the
/// last, where it did.
fn settle_noted<T: Stepping, L: Ledger>(
    alloc: Global,
    stood: Option<Tag>,
    replica: &mut Replica<T>,
    notes: &mut StepNotes<L>,
    text: &mut Vec<u8>,
) -> Result<(), OutOfMemory> {
    notes.begin(stood);
    let back = replica.timeline().last_done();
    replica.settle(alloc, notes)?;
    notes.take(back, text)
}
