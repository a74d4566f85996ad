//! What a replica's run came to, as values.
ghost use Rattle.std.specs.Prelude.{◌≡◌, IfOk, IsTrue, List, OnErr, OnOk, drop};
ghost use Rattle.warp_table.specs.Announced.{IsHorizon};
ghost use Rattle.warp_table.specs.Records.{set_of};
ghost use Rattle.warp_replica.specs.Answers.{AreVariables, IsReleased};
ghost use Rattle.warp_replica.specs.Desk.{local_state};
ghost use Rattle.warp_tag.specs.declared.out.Out.{Out};

use warp_exchange::Desk;
use warp_line::Timeline;
use warp_record::{Query, Reply};
use warp_replica::{Local, Replica};
use warp_tag::{Out, OutOfMemory, Tag};

/// Settles a replica.
///
/// # Errors
///
/// No memory was to be had for it.
fn settle<T: Timeline>(tab: &mut Local<T>) -> Result<(), OutOfMemory>
    ensures settled { OnOk result (IsTrue (T.settled tab.new.timeline)) }
    ensures kept { local_state tab.new ≡ local_state tab.old }
    ensures refused { OnErr result (T.refused tab.new.timeline) }
{
    tab.end_batch();
    if tab.replica().is_settled() {
        return Ok(());
    }
    Err(OutOfMemory)
}

/// Puts the values of all variables, in their order, into `values`, in the place of what is there.
///
/// # Errors
///
/// No memory was to be had to settle, or for the values.
pub fn vars<T: Timeline>(tab: &mut Local<T>, values: &mut Vec<i64>) -> Result<(), OutOfMemory>
    ensures values { OnOk result (AreVariables tab.new.program (set_of tab.new.records) values.new.items) }
    ensures kept { local_state tab.new ≡ local_state tab.old }
{
    settle(tab)?;
    values.clear();
    values.extend_from_slice(tab.replica().vars())
}

/// The tag before which outputs are released.
///
/// # Errors
///
/// No memory was to be had to settle.
pub fn horizon<T: Timeline>(tab: &mut Local<T>) -> Result<Tag, OutOfMemory>
    ensures horizon { IfOk result (λ tag. IsHorizon tab.new.program (set_of tab.new.records) tag) }
    ensures kept { local_state tab.new ≡ local_state tab.old }
{
    settle(tab)?;
    match tab.replica().answer(Query::Horizon) {
        Reply::Horizon { tag, .. } => Ok(tag),
        // A replica that is settled tells its horizon.
        _ => Err(OutOfMemory),
    }
}

/// Puts the released outputs from this number on, from 0, into `rows`, in the place of what is there: none where fewer
/// are released.
///
/// # Errors
///
/// No memory was to be had to settle, or for the outputs.
pub fn released<T: Timeline>(
    tab: &mut Local<T>,
    first: usize,
    rows: &mut Vec<Out>,
) -> Result<(), OutOfMemory>
    ensures released { OnOk result ((outputs : List Out) × IsReleased tab.new.program (set_of tab.new.records) outputs
        × (rows.new.items ≡ drop first outputs)) }
    ensures kept { local_state tab.new ≡ local_state tab.old }
{
    settle(tab)?;
    rows.clear();
    rows.extend_from_slice(behind(tab.replica(), first))
}

/// The released outputs of a settled replica from this number on.
fn behind<T: Timeline>(replica: &Replica<T>, first: usize) -> &[Out]
    requires { IsTrue (T.settled replica.now.timeline) }
    ensures { (outputs : List Out) × IsReleased replica.now.program (set_of replica.now.records) outputs
        × (result.now ≡ drop first outputs) }
{
    rest(replica.released(), first)
}

/// What stands in a list from this number on.
fn rest(list: &[Out], first: usize) -> &[Out]
    ensures { result.now ≡ drop first list.now }
{
    if list.len() <= first {
        return &[];
    }
    &list[first..]
}
