//! The lines of what a settled replica tells.
ghost use Rattle.std.specs.Prelude.{◌≡◌, ◌≤◌, ◌-◌, [], ◌∷◌, ◌++◌, IsTrue, OnOk, ◌&&◌, decimal, drop, if◌then◌else◌, length};
ghost use Rattle.std.specs.Prelude.{take};
ghost use Rattle.std.specs.List.{flat_map};
ghost use Rattle.warp_table.specs.Records.{set_of};
ghost use Rattle.warp_replica.specs.Answers.{Answers, AreAnswers};
ghost use Rattle.warp_tag.specs.Limits.{has_joint};
ghost use Rattle.warp_tag.specs.Moment.{Moment};
ghost use Rattle.warp_table.specs.Announced.{ReachesTo};
ghost use Rattle.warp_table.specs.NameCounts.{AreCounts};
ghost use Rattle.warp_table.specs.declared.table.NameCounts.{NameCounts};
ghost use Rattle.warp_watch.specs.Lines.{breach_line, broken_below, counts_text, reached_text, record_lines};
ghost use Rattle.warp_step.specs.Program.{told_of};
ghost use Rattle.warp_watch.specs.Lines.{cells_text, vars_line};

use crate::shown::{is_broken, is_jointly_broken};
use crate::words::{add_number, add_reply, add_star, add_tag, add_told, add_values};
use warp_line::Timeline;
use warp_record::{Refusal, Reply};
use warp_replica::Replica;
use warp_tag::OutOfMemory;

/// Appends the line of the variables of a settled replica that are told.
pub(crate) fn add_vars<T: Timeline>(
    text: &mut Vec<u8>,
    replica: &Replica<T>,
) -> Result<(), OutOfMemory>
    requires { IsTrue (T.settled replica.now.timeline) }
    ensures { OnOk result
        ((a : Answers) × AreAnswers replica.now.program (set_of replica.now.records) a
        × (text.new.items ≡ text.old.items
        ++ vars_line (length replica.now.records) (told_of replica.now.program.variables a.state.vars))) }
{
    text.extend_from_slice(b"vars")?;
    add_number(text, replica.len())?;
    add_told(text, replica.program().variables(), replica.vars())?;
    text.push(b'\n')?;
    Ok(())
}

/// Appends the line of so many variables of a settled replica, from this one on, or the refusal where there is no such.
pub(crate) fn add_cells<T: Timeline>(
    text: &mut Vec<u8>,
    replica: &Replica<T>,
    first: u32,
    count: u32,
) -> Result<(), OutOfMemory>
    requires { IsTrue (T.settled replica.now.timeline) }
    ensures { OnOk result
        ((a : Answers) × AreAnswers replica.now.program (set_of replica.now.records) a
        × (text.new.items ≡ text.old.items
        ++ cells_text (length replica.now.records) first (take count (drop first a.state.vars)))) }
{
    let values = values_from(replica.vars(), first, count);
    if values.is_empty() {
        return add_reply(text, &Reply::Refused(Refusal::NoVar));
    }
    text.extend_from_slice(b"cells")?;
    add_number(text, replica.len())?;
    add_number(text, first)?;
    add_values(text, values)?;
    text.push(b'\n')?;
    Ok(())
}

/// So many of these values from this one on, as far as there are such.
fn values_from(values: &[i64], first: u32, count: u32) -> &[i64]
    ensures { result.now ≡ take count (drop first values.now) }
{
    let behind = values_behind(values, first);
    &behind[..behind.len().min(count as usize)]
}

/// The values from this one on.
fn values_behind(values: &[i64], first: u32) -> &[i64]
    ensures { result.now ≡ drop first values.now }
{
    &values[values.len().min(first as usize)..]
}

/// Appends the broken origins below this number, each behind a space, of a settled replica's program.
fn add_broken<T: Timeline>(
    text: &mut Vec<u8>,
    replica: &Replica<T>,
    end: u32,
) -> Result<(), OutOfMemory>
    requires settled { IsTrue (T.settled replica.now.timeline) }
    requires within { end ≤ replica.now.program.origins }
    ensures { OnOk result ((a : Answers) → AreAnswers replica.now.program (set_of replica.now.records) a →
        text.new.items ≡ text.old.items ++ flat_map (λ origin. 32 ∷ decimal origin) (broken_below a.broken end)) }
{
    for origin in 0..end {
        add_origin(text, origin, is_broken(replica, origin))?;
    }
    Ok(())
}

/// Appends an origin behind a space, if it is broken.
fn add_origin(text: &mut Vec<u8>, origin: u32, is_broken: bool) -> Result<(), OutOfMemory>
    ensures { OnOk result (text.new.items
        ≡ text.old.items ++ (if is_broken then 32 ∷ decimal origin else [])) }
{
    if is_broken {
        return add_number(text, origin);
    }
    Ok(())
}

/// Appends the line of the broken origins of a settled replica, and behind them a star where a joint announcement is.
pub(crate) fn add_breaches<T: Timeline>(
    text: &mut Vec<u8>,
    replica: &Replica<T>,
) -> Result<(), OutOfMemory>
    requires { IsTrue (T.settled replica.now.timeline) }
    ensures { OnOk result ((a : Answers) → AreAnswers replica.now.program (set_of replica.now.records) a →
        text.new.items ≡ text.old.items
        ++ breach_line (length replica.now.records) (broken_below a.broken replica.now.program.origins)
        (has_joint replica.now.program.form && a.broken_jointly)) }
{
    text.extend_from_slice(b"breach")?;
    add_number(text, replica.len())?;
    add_broken(text, replica, replica.program().origins())?;
    add_star(text, is_jointly_broken(replica))?;
    text.push(b'\n')?;
    Ok(())
}

/// Appends the line of how many names of an origin a replica has, or the refusal where its program has no such origin.
pub(crate) fn add_counts<T: Timeline>(
    text: &mut Vec<u8>,
    replica: &Replica<T>,
    origin: u32,
) -> Result<(), OutOfMemory>
    ensures { OnOk result ((counts : NameCounts) × AreCounts (set_of replica.now.records) origin counts
        × (text.new.items ≡ text.old.items
        ++ counts_text replica.now.program (length replica.now.records) origin counts)) }
{
    let counts = replica.counts(origin);
    if replica.program().origins() <= origin {
        return add_reply(text, &Reply::Refused(Refusal::NoOrigin));
    }
    text.extend_from_slice(b"counts")?;
    add_number(text, replica.len())?;
    add_number(text, origin)?;
    add_number(text, counts.events)?;
    add_number(text, counts.withdrawn)?;
    add_tag(text, counts.last)
}

/// Appends the line of how far an origin's announcements are reached, or the refusal where its program has no such
/// origin.
pub(crate) fn add_reached<T: Timeline>(
    text: &mut Vec<u8>,
    replica: &Replica<T>,
    origin: u32,
) -> Result<(), OutOfMemory>
    ensures { OnOk result ((end : Moment) × ReachesTo (set_of replica.now.records) origin end
        × (text.new.items ≡ text.old.items
        ++ reached_text replica.now.program (length replica.now.records) origin end)) }
{
    let end = replica.reached(origin);
    if replica.program().origins() <= origin {
        return add_reply(text, &Reply::Refused(Refusal::NoOrigin));
    }
    text.extend_from_slice(b"reached")?;
    add_number(text, replica.len())?;
    add_number(text, origin)?;
    add_tag(text, end)
}

/// Appends the lines of the records at these places of the log, from 1, the last place not among them.
pub(crate) fn add_records<T: Timeline>(
    text: &mut Vec<u8>,
    replica: &Replica<T>,
    first: u32,
    end: u32,
) -> Result<(), OutOfMemory>
    requires { 1 ≤ first }
    ensures { OnOk result (text.new.items ≡ text.old.items
        ++ record_lines first (take (end - first) (drop (first - 1) replica.now.records))) }
{
    for place in first..end {
        let Some(record) = replica.entry(place) else {
            return Ok(());
        };
        add_reply(text, &Reply::Log { log: place, record })?;
    }
    Ok(())
}
