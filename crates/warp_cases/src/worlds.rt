//! Schedules with their worlds. Each call is made two times.
ghost use Rattle.std.specs.Prelude.{◌≤◌, IfSome};
ghost use Rattle.warp_world.specs.Moves.{most_replicas};

use crate::mark::{begin, end};
use crate::programs::program_of;
use crate::transcript::{NO_MEMORY, Transcript, outcome};
use std::alloc::Global;
use warp_line::Timeline;
use warp_record::Query;
use warp_replica::Replica;
use warp_step::Program;
use warp_tag::Form;
use warp_world::{MAX_REPLICAS, Move, World, play, play_text, read_schedule};

/// Reads the schedule, plays it over the program, and tells what each replica is then, and once all are settled.
pub(crate) fn perform_once<T: Timeline>(
    alloc: Global,
    out: &mut Transcript,
    program: &str,
    schedule: &str,
) {
    match program_of(alloc, program) {
        Ok(program) => settle_once::<T>(alloc, out, &program, schedule.as_bytes()),
        Err(_) => out.fail("no program"),
    }
}

/// The same over a program that is loaded.
fn settle_once<T: Timeline>(
    alloc: Global,
    out: &mut Transcript,
    program: &Program,
    schedule: &[u8],
) {
    read_once(alloc, out, program.form(), schedule);
    match played::<T>(alloc, program, schedule) {
        Some(mut world) => settle_between(alloc, out, &mut world),
        None => out.fail("no world"),
    }
}

/// Tells what each replica of a world is, settles all, and tells it again.
fn settle_between<T: Timeline>(alloc: Global, out: &mut Transcript, world: &mut World<T>) {
    say_replicas(out, world);
    if world.settle(alloc).is_err() {
        return out.fail(NO_MEMORY);
    }
    say_replicas(out, world);
}

/// Tells of each replica of a world its log's length, how many origins its program has, whether it is settled, and
/// whether its log has a first and a second place; and that behind the last there is none.
fn say_replicas<T: Timeline>(out: &mut Transcript, world: &World<T>) {
    for number in 0..=world.len() {
        match world.replica(number) {
            Some(replica) => say_replica(out, replica),
            None => out.say("no replica"),
        }
    }
}

/// Tells what a replica is.
fn say_replica<T: Timeline>(out: &mut Transcript, replica: &Replica<T>) {
    let (length, origins) = (replica.len(), replica.program().origins());
    let settled = replica.is_settled();
    let (first, second) = (replica.entry(1).is_some(), replica.entry(2).is_some());
    out.say(format_args!(
        "length {length}, origins {origins}, settled {settled}, first {first}, second {second}"
    ));
}

/// Reads the schedule, plays it over the program, and makes the text of it.
pub(crate) fn perform<T: Timeline>(
    alloc: Global,
    out: &mut Transcript,
    program: &str,
    schedule: &str,
) {
    match program_of(alloc, program) {
        Ok(program) => make_calls::<T>(alloc, out, &program, schedule.as_bytes()),
        Err(_) => out.fail("no program"),
    }
}

/// The same over a program that is loaded.
fn make_calls<T: Timeline>(
    alloc: Global,
    out: &mut Transcript,
    program: &Program,
    schedule: &[u8],
) {
    read_once(alloc, out, program.form(), schedule);
    read_once(alloc, out, program.form(), schedule);
    play_once::<T>(alloc, out, program, schedule);
    play_once::<T>(alloc, out, program, schedule);
    settle_twice::<T>(alloc, out, program, schedule);
    tell_once::<T>(alloc, out, program, schedule);
    tell_once::<T>(alloc, out, program, schedule);
}

/// Reads the schedule in the form of the program.
pub(crate) fn read(alloc: Global, out: &mut Transcript, program: &str, schedule: &str) {
    match program_of(alloc, program) {
        Ok(program) => read_once(alloc, out, program.form(), schedule.as_bytes()),
        Err(_) => out.fail("no program"),
    }
}

/// Reads the schedule.
fn read_once(alloc: Global, out: &mut Transcript, form: Form, schedule: &[u8]) {
    begin(alloc);
    let read = read_schedule(alloc, form, schedule);
    end(alloc);
    match read {
        Ok((count, moves)) => out.say(format_args!("{count} replicas, {} moves", moves.len())),
        Err(fault) => out.say(fault),
    }
}

/// Plays the schedule.
fn play_once<T: Timeline>(alloc: Global, out: &mut Transcript, program: &Program, schedule: &[u8]) {
    let Some((count, moves)) = moves_of(alloc, program.form(), schedule) else {
        return out.fail("no schedule");
    };
    begin(alloc);
    let played = play::<T>(alloc, program, count, &moves);
    end(alloc);
    out.say(outcome(played.is_ok()));
}

/// Plays the schedule, and settles its world two times.
fn settle_twice<T: Timeline>(
    alloc: Global,
    out: &mut Transcript,
    program: &Program,
    schedule: &[u8],
) {
    match played::<T>(alloc, program, schedule) {
        Some(mut world) => {
            settle(alloc, out, &mut world);
            settle(alloc, out, &mut world);
        }
        None => out.fail("no world"),
    }
}

/// The world behind a schedule.
fn played<T: Timeline>(alloc: Global, program: &Program, schedule: &[u8]) -> Option<World<T>> {
    let (count, moves) = moves_of(alloc, program.form(), schedule)?;
    play(alloc, program, count, &moves).ok()
}

/// How many replicas a schedule of this form names, and its moves.
fn moves_of(alloc: Global, form: Form, schedule: &[u8]) -> Option<(usize, Vec<Move>)>
    ensures { IfSome result (λ read. (1 ≤ read.0) × (read.0 ≤ most_replicas)) }
{
    let (count, moves) = read_schedule(alloc, form, schedule).ok()?;
    if count == 0 || count > MAX_REPLICAS as usize {
        return None;
    }
    Some((count, moves))
}

/// Settles all replicas of a world, and tells the total of each that is.
fn settle<T: Timeline>(alloc: Global, out: &mut Transcript, world: &mut World<T>) {
    begin(alloc);
    let settled = world.settle(alloc);
    end(alloc);
    out.say(outcome(settled.is_ok()));
    for number in 0..world.len() {
        if let Some(replica) = world.replica(number) {
            say_total(out, replica);
        }
    }
}

/// Tells the first variable of a replica that is settled.
fn say_total<T: Timeline>(out: &mut Transcript, replica: &Replica<T>) {
    if replica.is_settled() {
        out.say_reply(&replica.answer(Query::Var(0)));
    } else {
        out.say(format_args!("length {}", replica.len()));
    }
}

/// Makes the text of the schedule.
fn tell_once<T: Timeline>(alloc: Global, out: &mut Transcript, program: &Program, schedule: &[u8]) {
    begin(alloc);
    let told = play_text::<T>(alloc, program, schedule);
    end(alloc);
    match told {
        Ok(text) => out.say_bytes(&text),
        Err(fault) => out.say(fault),
    }
}
