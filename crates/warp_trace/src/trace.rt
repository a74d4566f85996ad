//! The rows of a run, printed one JSON object a line.
ghost use Rattle.std.specs.Prelude.{◌≡◌, ◌+◌, ℕ, ◌<◌, ◌≤◌, ◌++◌, ◌∷◌, IsTrue, List, [], length, map, take, drop};
ghost use Rattle.std.specs.Prelude.{IfOk, OnOk};
ghost use Rattle.std.specs.Prelude.{Option, vec_capacity, vec_len};
ghost use Rattle.std.specs.List.{list_all, list_any};
ghost use Rattle.warp_tag.specs.Moment.{is_before, is_same};
ghost use Rattle.warp_tag.specs.Table.{IsTable, live};
ghost use Rattle.warp_step.specs.Counter.{IsUnused};
ghost use Rattle.warp_step.specs.Events.{event_fits};
ghost use Rattle.warp_step.specs.Run.{Row, Run, given_of};
ghost use Rattle.warp_step.specs.Scratch.{IsRoomOf};
ghost use Rattle.warp_step.specs.Snapshot.{IsStateOf, start_state};
ghost use Rattle.warp_step.specs.Step.{CanStep};
ghost use Rattle.warp_line.specs.inner.Replay.{HasOtherHead, is_waiting, next_of, none_before};
ghost use Rattle.warp_table.specs.Records.{set_of};
ghost use Rattle.warp_trace.specs.Printed.{PrintsText, PrintsTrace, piece};
ghost use Rattle.warp_trace.specs.Trace.{came, changed, changed_part, due, due_part, events_part, outputs_part};
ghost use Rattle.warp_trace.specs.Trace.{pending_part, put, released_part, row_lines, tag_part};
ghost use Rattle.warp_trace.specs.inner.Tracing.{TellsRow, TellsTag};

use crate::item::{Item, gather_changed, gather_due, gather_events, gather_put};
use crate::labels::Labels;
use crate::printer::{Printer, TraceFault, print_full};
use crate::recorder::Recorder;
use crate::row_text::{append_last, append_part, append_tag};
use std::alloc::Global;
use std::marker::Brand;
use std::sync::ledger::{Blank, Ledger};
use warp_replica::{Idle, names_in_order};
use warp_step::{Given, Meter, Out, Program, Scratch, State, step};
use warp_tag::{Entry, OutOfMemory, Tag};

/// What a trace works in: the state and the room of the steps, what is given to one and what it puts, the variables
/// before it, what its row tells, and the text that waits to be printed.
#[derive(Drop)]
struct Work {
    state: State,
    scratch: Scratch,
    given: Vec<Given>,
    outputs: Vec<Out>,
    before: Vec<i64>,
    items: Vec<Item>,
    text: Vec<u8>,
}

/// Prints the trace of the recorder's program over its records: of each row of the one run over the live events, in
/// order of tags, its tag, the events that came, what was due, which variables changed, what was put, how many
/// entries are pending after it, and whether it is before the horizon. It is printed in pieces. `Err` says that a
/// piece could not be written, or that memory was wanting; then a front of the text is out.
pub fn print_trace<O: Printer>(
    alloc: Global,
    labels: &Labels,
    recorder: &Recorder,
    out: &mut O,
) -> Result<(), TraceFault>
    ensures prints { PrintsTrace labels.now recorder.now.program (set_of recorder.now.records)
        (O.written out.old) (O.written out.new) (O.failures out.old) (O.failures out.new) result }
    ensures kept { O.kept out.new ≡ O.kept out.old }
{
    let program = recorder.program();
    let table = recorder.table();
    let horizon = table.horizon(program);
    let Ok(entries) = names_in_order(alloc, table) else {
        return Err(TraceFault::NoMemory);
    };
    trace_names::<O, Brand>(
        alloc,
        labels,
        program,
        &entries,
        horizon,
        out,
        Blank::new(1),
    )
}

/// Prints the trace over the live events of a sorted table of names. The rows are counted in the ledger that `blank`
/// opens, for contracts alone.
fn trace_names<O: Printer, L: Ledger>(
    alloc: Global,
    labels: &Labels,
    program: &Program,
    entries: &[Entry],
    horizon: Tag,
    out: &mut O,
    blank: Blank,
) -> Result<(), TraceFault>
    requires unused { IsUnused blank L.name L.parts }
    requires table { IsTable entries.now }
    requires events { IsTrue (list_all (event_fits program.now) (live entries.now)) }
    ensures prints { (rows : List Row) → Run program.now (live entries.now) rows →
        PrintsText (O.written out.old) (O.written out.new) (O.failures out.old) (O.failures out.new)
        (row_lines labels.now program.now horizon (live entries.now) (start_state program.now) rows) result }
    ensures kept { O.kept out.new ≡ O.kept out.old }
{
    let Ok(mut work) = begin(alloc, program) else {
        return Err(TraceFault::NoMemory);
    };
    let mut meter = Idle::<L>::new(blank);
    trace_rows(
        labels, program, entries, horizon, &mut work, out, &mut meter,
    )
}

/// What a trace of the program works in, at its start.
fn begin(alloc: Global, program: &Program) -> Result<Work, OutOfMemory>
    ensures state { IfOk result (λ work. work.state ≡ start_state program.now) }
    ensures of_program { IfOk result (λ work. IsStateOf program.now work.state) }
    ensures scratch { IfOk result (λ work. IsRoomOf program.now work.scratch) }
    ensures text { IfOk result (λ work. work.text.items ≡ []) }
{
    let state = State::start(alloc, program)?;
    let scratch = Scratch::new(alloc, program)?;
    Ok(Work {
        state,
        scratch,
        given: Vec::new(alloc),
        outputs: Vec::new(alloc),
        before: Vec::new(alloc),
        items: Vec::new(alloc),
        text: Vec::new(alloc),
    })
}

/// Prints row after row, from the program's start, while a name is left or something is pending.
fn trace_rows<O: Printer, M: Meter>(
    labels: &Labels,
    program: &Program,
    entries: &[Entry],
    horizon: Tag,
    work: &mut Work,
    out: &mut O,
    meter: &mut M,
) -> Result<(), TraceFault>
    requires table { IsTable entries.now }
    requires events { IsTrue (list_all (event_fits program.now) (live entries.now)) }
    requires start { work.old.state ≡ start_state program.now }
    requires state { IsStateOf program.now work.old.state }
    requires scratch { IsRoomOf program.now work.old.scratch }
    requires text { work.old.text.items ≡ [] }
    ensures prints { (rows : List Row) → Run program.now (live entries.now) rows →
        PrintsText (O.written out.old) (O.written out.new) (O.failures out.old) (O.failures out.new)
        (row_lines labels.now program.now horizon (live entries.now) (start_state program.now) rows) result }
    ensures kept { O.kept out.new ≡ O.kept out.old }
{
    let mut rest = entries;
    'rows: while let Some(tag) = next_tag(rest, work.state.next()) {
        let Ok(count) = gather(rest, tag, &mut work.given) else {
            return Err(TraceFault::NoMemory);
        };
        let here = front(rest, count);
        let Ok(()) = tell_tag(labels, program, horizon, tag, here, work, meter) else {
            return Err(TraceFault::NoMemory);
        };
        rest = skip(rest, count);
        let Ok(()) = print_full(&mut work.text, out) else {
            return Err(TraceFault::Output);
        };
    }
    match out.print(&work.text) {
        Ok(()) => Ok(()),
        Err(_) => Err(TraceFault::Output),
    }
}

/// Tells the row at the tag, if something is given or pending there. Less than a piece waits to be printed before it.
fn tell_tag<M: Meter>(
    labels: &Labels,
    program: &Program,
    horizon: Tag,
    tag: Tag,
    here: &[Entry],
    work: &mut Work,
    meter: &mut M,
) -> Result<(), OutOfMemory>
    requires can { IsTrue (is_waiting tag work.old.given.items work.old.state.pending) →
        CanStep program.now work.old.state tag work.old.given.items }
    requires none_before { IsTrue (none_before tag work.old.state.pending) }
    requires short { length work.old.text.items < piece }
    requires state { IsStateOf program.now work.old.state }
    requires scratch { IsRoomOf program.now work.old.scratch }
    ensures tells { OnOk result (TellsTag labels.now program.now horizon tag (live here.now) work.old.given.items
        work.old.state work.new.state work.old.text.items work.new.text.items
        (M.ticks meter.old) (M.ticks meter.new)) }
    ensures state { OnOk result (IsStateOf program.now work.new.state) }
    ensures later { OnOk result (IsTrue (list_all (λ w. is_before tag w.tag) work.new.state.pending)) }
    ensures scratch { OnOk result (work.new.scratch ≡ work.old.scratch) }
{
    if !work.given.is_empty() || is_pending_at(&work.state, tag) {
        tell_row(labels, program, horizon, tag, here, work, meter)?;
    }
    Ok(())
}

/// Makes the step at the tag, and tells its row.
fn tell_row<M: Meter>(
    labels: &Labels,
    program: &Program,
    horizon: Tag,
    tag: Tag,
    here: &[Entry],
    work: &mut Work,
    meter: &mut M,
) -> Result<(), OutOfMemory>
    requires can { CanStep program.now work.old.state tag work.old.given.items }
    requires scratch { IsRoomOf program.now work.old.scratch }
    ensures tells { OnOk result (TellsRow labels.now program.now horizon tag (live here.now) work.old.given.items
        work.old.state work.new.state work.old.text.items work.new.text.items
        (M.ticks meter.old) (M.ticks meter.new)) }
    ensures state { OnOk result (IsStateOf program.now work.new.state) }
    ensures later { OnOk result (IsTrue (list_all (λ w. is_before tag w.tag) work.new.state.pending)) }
    ensures scratch { OnOk result (work.new.scratch ≡ work.old.scratch) }
{
    tell_before(
        labels,
        program,
        &work.state,
        tag,
        here,
        &mut work.items,
        &mut work.text,
    )?;
    keep(&work.state, &mut work.before)?;
    make_room(program, &mut work.outputs)?;
    step(
        program,
        &mut work.state,
        &mut work.scratch,
        tag,
        &work.given,
        &mut work.outputs,
        meter,
    );
    tell_after(
        labels,
        &work.before,
        &work.state,
        &work.outputs,
        tag.is_before(horizon),
        &mut work.items,
        &mut work.text,
    )
}

/// Keeps the values of the variables.
fn keep(state: &State, before: &mut Vec<i64>) -> Result<(), OutOfMemory>
    ensures { OnOk result (before.new.items ≡ state.now.vars) }
{
    before.clear();
    before.extend_from_slice(state.vars())
}

/// Makes room for the outputs of a step.
fn make_room(program: &Program, outputs: &mut Vec<Out>) -> Result<(), OutOfMemory>
    ensures none { OnOk result (outputs.new.items ≡ []) }
    ensures room { OnOk result (vec_len outputs.new + length program.now.outputs ≤ vec_capacity outputs.new) }
{
    outputs.clear();
    outputs.try_reserve(program.outputs().len())
}

/// Appends what of a row is known before its step: its tag, the events that came and what is due.
fn tell_before(
    labels: &Labels,
    program: &Program,
    state: &State,
    tag: Tag,
    here: &[Entry],
    items: &mut Vec<Item>,
    text: &mut Vec<u8>,
) -> Result<(), OutOfMemory>
    ensures { OnOk result (text.new.items ≡ text.old.items ++ (tag_part tag
        ++ events_part labels.now (came program.now (live here.now)) ++ due_part labels.now (due tag state.now))) }
{
    append_tag(text, tag)?;
    gather_events(program, here, items)?;
    append_part(text, labels, b"],\"events\":[", items)?;
    gather_due(state, tag, items)?;
    append_part(text, labels, b"],\"due\":[", items)
}

/// Appends what of a row is known after its step: the variables that changed, the outputs, how many entries are
/// pending, and whether it is before the horizon.
fn tell_after(
    labels: &Labels,
    before: &[i64],
    state: &State,
    outputs: &[Out],
    released: bool,
    items: &mut Vec<Item>,
    text: &mut Vec<u8>,
) -> Result<(), OutOfMemory>
    ensures { OnOk result (text.new.items ≡ text.old.items ++ (
        changed_part labels.now (changed before.now state.now.vars) ++ outputs_part labels.now (put outputs.now)
        ++ pending_part (length state.now.pending) ++ released_part released)) }
{
    gather_changed(before, state, items)?;
    append_part(text, labels, b"],\"changed\":{", items)?;
    gather_put(outputs, items)?;
    append_part(text, labels, b"},\"outputs\":{", items)?;
    append_last(text, state, released)
}

/// Adds what a live name gives.
fn add_given(entry: &Entry, given: &mut Vec<Given>) -> Result<(), OutOfMemory>
    ensures { OnOk result (given.new.items ≡ given.old.items ++ map given_of (live (entry.now ∷ []))) }
{
    if !entry.withdrawn
        && let Some((input, value)) = entry.event
    {
        given.push(Given { input, value })?;
    }
    Ok(())
}

/// Gathers what the first names with this tag give, and says how many have it.
fn gather(rest: &[Entry], tag: Tag, given: &mut Vec<Given>) -> Result<usize, OutOfMemory>
    ensures within { IfOk result (λ n. n ≤ length rest.now) }
    ensures here { IfOk result (λ n. IsTrue (list_all (λ e. is_same tag e.tag) (take n rest.now))) }
    ensures other { IfOk result (λ n. HasOtherHead tag (drop n rest.now)) }
    ensures given { IfOk result (λ n. given.new.items ≡ map given_of (live (take n rest.now))) }
{
    given.clear();
    for (count, entry) in rest.iter().enumerate() {
        if !tag.is_same(entry.tag) {
            return Ok(count);
        }
        add_given(entry, given)?;
    }
    Ok(rest.len())
}

/// The earlier of the first name's tag and the least pending one, if there is one.
fn next_tag(rest: &[Entry], pending: Option<Tag>) -> Option<Tag>
    ensures { result ≡ next_of rest.now pending }
{
    let Some(entry) = rest.first() else {
        return pending;
    };
    match pending {
        Some(tag) if tag.is_before(entry.tag) => Some(tag),
        _ => Some(entry.tag),
    }
}

/// Whether an entry is pending at the tag, before which none is.
fn is_pending_at(state: &State, tag: Tag) -> bool
    requires { IsTrue (none_before tag state.now.pending) }
    ensures { result ≡ list_any (λ w. is_same w.tag tag) state.now.pending }
{
    match state.next() {
        Some(next) => next.is_same(tag),
        None => false,
    }
}

/// The first so many names.
fn front(entries: &[Entry], count: usize) -> &[Entry]
    requires { count ≤ length entries.now }
    ensures { result.now ≡ take count entries.now }
{
    &entries[..count]
}

/// The names behind the first so many.
fn skip(entries: &[Entry], count: usize) -> &[Entry]
    requires { count ≤ length entries.now }
    ensures { result.now ≡ drop count entries.now }
{
    &entries[count..]
}
