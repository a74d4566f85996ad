//! What `warpd play` prints of a schedule.
ghost use Rattle.std.specs.Prelude.{◌≡◌, ◌++◌, All, IfErr, IfOk, IsTrue, OnOk, false, length, slice_get};
ghost use Rattle.std.specs.Option.{option_map_or};
ghost use Rattle.warp_table.specs.Records.{set_of};
ghost use Rattle.warp_replica.specs.Answers.{Answers, AreAnswers};
ghost use Rattle.warp_replica.specs.Gives.{reply_to};
ghost use Rattle.warp_world.specs.Replicas.{RunAll, logs_of};
ghost use Rattle.warp_world.specs.Schedule.{IsFault};
ghost use Rattle.warp_world.specs.Play.{PlaysSchedule, Prints, replica_lines};
ghost use Rattle.warp_record.specs.Reply.{reply_line};
ghost use Rattle.warp_world.specs.inner.Printing.{Adds, count_lines, title_line, variable_line, variable_lines};

use crate::fault::ScheduleFault;
use crate::schedule::read_schedule;
use crate::world::{World, play};
use itoa::Buffer;
use std::alloc::Global;
use warp_line::Timeline;
use warp_record::{Query, REPLY_ROOM, Reply, write_reply};
use warp_replica::{Replica, one_answer};
use warp_step::{Program, Variable};
use warp_tag::OutOfMemory;

/// What is printed of a schedule: for each replica, after all moves and settled, its number, its horizon, how many
/// outputs there are and how many are released, how much was lost, and its variables. The schedule is read in the form
/// of the program. `Err` says at which line it is refused, or that memory was wanting.
pub fn play_text<T: Timeline + Drop>(
    alloc: Global,
    program: &Program,
    schedule: &[u8],
) -> Result<Vec<u8>, ScheduleFault>
    ensures text { IfOk result (λ text. PlaysSchedule program.now schedule.now text.items) }
    ensures refused { IfErr result (IsFault program.now.form schedule.now) }
{
    let (count, moves) = read_schedule(alloc, program.form(), schedule)?;
    let mut world = play::<T>(alloc, program, count, &moves)?;
    world.settle(alloc)?;
    let text = world_text(alloc, &world)?;
    Ok(text)
}

/// The lines of each replica of a settled world.
fn world_text<T: Timeline>(alloc: Global, world: &World<T>) -> Result<Vec<u8>, OutOfMemory>
    requires { All (λ r. IsTrue (T.settled r.timeline)) world.now }
    ensures { IfOk result (λ text. (P : Program) → RunAll P world.now → Prints P 0 (logs_of world.now) text.items) }
{
    let mut text = Vec::new(alloc);
    for number in 0..world.len() {
        let Some(replica) = world.replica(number) else {
            unreachable!()
        };
        append_replica(&mut text, number, replica)?;
    }
    Ok(text)
}

/// Appends the lines of a settled replica.
fn append_replica<T: Timeline>(
    text: &mut Vec<u8>,
    number: usize,
    replica: &Replica<T>,
) -> Result<(), OutOfMemory>
    requires { IsTrue (T.settled replica.now.timeline) }
    ensures { OnOk result ((a : Answers) × AreAnswers replica.now.program (set_of replica.now.records) a
        × (text.new.items ≡ text.old.items ++ replica_lines replica.now.program number a)) }
{
    // Each program has an origin and no log has a record twice, so that there are answers.
    replica.program().valid();
    replica.valid();
    one_answer();
    append_title(text, number)?;
    append_counts(text, replica)?;
    append_variables(text, replica)?;
    Ok(())
}

/// Appends the line with the number of a replica.
fn append_title(text: &mut Vec<u8>, number: usize) -> Result<(), OutOfMemory>
    ensures { OnOk result (text.new.items ≡ text.old.items ++ title_line number) }
{
    let mut digits = Buffer::new();
    text.extend_from_slice(b"replica ")?;
    text.extend_from_slice(digits.format(number).as_bytes())?;
    text.push(b'\n')?;
    Ok(())
}

/// Appends the lines with a settled replica's horizon, how many outputs there are and how many are released, and how
/// much was lost.
fn append_counts<T: Timeline>(text: &mut Vec<u8>, replica: &Replica<T>) -> Result<(), OutOfMemory>
    requires { IsTrue (T.settled replica.now.timeline) }
    ensures { OnOk result
        (Adds replica.now.program (set_of replica.now.records) count_lines text.old.items text.new.items) }
{
    append_answer(text, replica, Query::Horizon)?;
    append_answer(text, replica, Query::Outputs)?;
    append_answer(text, replica, Query::Released)?;
    append_answer(text, replica, Query::Lost)?;
    Ok(())
}

/// Appends a line for each variable of a settled replica that is told.
fn append_variables<T: Timeline>(
    text: &mut Vec<u8>,
    replica: &Replica<T>,
) -> Result<(), OutOfMemory>
    requires { IsTrue (T.settled replica.now.timeline) }
    ensures { OnOk result
        (Adds replica.now.program (set_of replica.now.records) (variable_lines replica.now.program) text.old.items text.new.items) }
{
    for number in 0..variable_count(replica.program()) {
        append_variable(text, replica, number)?;
    }
    Ok(())
}

/// Appends the line of this variable of a settled replica, where it is told.
fn append_variable<T: Timeline>(
    text: &mut Vec<u8>,
    replica: &Replica<T>,
    number: u32,
) -> Result<(), OutOfMemory>
    requires { IsTrue (T.settled replica.now.timeline) }
    ensures { OnOk result (Adds replica.now.program (set_of replica.now.records)
        (variable_line replica.now.program replica.now.records number) text.old.items text.new.items) }
{
    if is_told(replica.program().variables(), number) {
        return append_answer(text, replica, Query::Var(number));
    }
    Ok(())
}

/// Whether the variable with this number is told.
fn is_told(variables: &[Variable], number: u32) -> bool
    ensures { result ≡ option_map_or (λ v. v.is_told) (slice_get variables.now number) false }
{
    match variables.get(number as usize) {
        Some(variable) => variable.is_told,
        None => false,
    }
}

/// How many variables the program has.
fn variable_count(program: &Program) -> u32
    ensures { result ≡ length program.now.variables }
{
    // Each program is valid, and so has few.
    program.valid();
    program.variables().len() as u32
}

/// Appends the line of what a settled replica answers.
fn append_answer<T: Timeline>(
    text: &mut Vec<u8>,
    replica: &Replica<T>,
    query: Query,
) -> Result<(), OutOfMemory>
    requires { IsTrue (T.settled replica.now.timeline) }
    ensures { OnOk result (Adds replica.now.program (set_of replica.now.records)
        (λ a. reply_line (reply_to replica.now.program replica.now.records a query)) text.old.items text.new.items) }
{
    one_answer();
    append_line(text, &replica.answer(query))?;
    Ok(())
}

/// Appends the line of a reply.
fn append_line(text: &mut Vec<u8>, reply: &Reply) -> Result<(), OutOfMemory>
    ensures { OnOk result (text.new.items ≡ text.old.items ++ reply_line reply.now) }
{
    text.reserve(REPLY_ROOM)?;
    write_reply(text, reply);
    text.push_reserved(b'\n');
    Ok(())
}
