//! Several replicas of one program, and what happens to them.
ghost use Rattle.std.specs.Prelude.{◌≡◌, ◌≢◌, ◌<◌, ◌≤◌, List, [], ◌∷◌, ◌++◌};
ghost use Rattle.std.specs.Prelude.{All, IfNone, IfOk, IfSome, IsOk, IsTrue, OnErr, OnOk, Err};
ghost use Rattle.std.specs.Prelude.{Some, length, map, slice_get, slice_set, if◌then◌else◌};
ghost use Rattle.warp_step.specs.Program.{Program};
ghost use Rattle.warp_record.specs.declared.record.Record.{Record};
ghost use Rattle.warp_record.specs.declared.reply.Refusal.TheVariants.{NoMemory};
ghost use Rattle.warp_table.specs.Records.{Records};
ghost use Rattle.warp_world.specs.Moves.{most_replicas};
ghost use Rattle.warp_world.specs.Replicas.{RunAll, logs_of, world_of};
ghost use Rattle.warp_world.specs.World.{after_carry, log_entry, happens, log_of, new_world, takes_in, world_after};
ghost use Rattle.warp_world.specs.declared.moves.Move.{Move};

use crate::moves::Move;
use std::alloc::Global;
use std::marker::Model;
use warp_line::Timeline;
use warp_record::{Record, Refusal};
use warp_replica::{Replica, Took};
use warp_step::Program;
use warp_tag::OutOfMemory;

/// Some replicas of one program, numbered from 0. Contracts see the list of them.
#[derive(Drop)]
pub struct World<T: Timeline> {
    replicas: Vec<Replica<T>>,
}

impl<T: Timeline> Model for World<T> {
    ghost use Rattle.std.specs.Prelude.{List};
    ghost use Rattle.std.specs.Coded.{coded_list};
    ghost use Rattle.warp_replica.specs.Replica.{ReplicaState, replica_code};

    ghost Value = { List (ReplicaState T) };

    ghost coded = { coded_list (replica_code T.code) };

    ghost view = { λ w. w.replicas.items };
}

/// The world of `count` replicas of this program, 1 to 16, after these moves. An `Err` says that memory was wanting,
/// at whichever move; then there is no world.
pub fn play<T: Timeline + Drop>(
    alloc: Global,
    program: &Program,
    count: usize,
    moves: &[Move],
) -> Result<World<T>, OutOfMemory>
    requires { (1 ≤ count) × (count ≤ most_replicas) }
    ensures logs { IfOk result (λ w. logs_of w ≡ (world_after program.now count moves.now).logs) }
    ensures programs { IfOk result (λ w. RunAll program.now w) }
{
    let mut world = World::start(alloc, program, count)?;
    for next in moves {
        world.happen(alloc, program, next)?;
    }
    Ok(world)
}

impl<T: Timeline> World<T> {
    /// How many replicas there are.
    pub fn len(&self) -> usize
        ensures { result ≡ length self.now }
    {
        self.replicas.len()
    }

    /// The replica with this number, from 0; `None` where there are not so many.
    pub fn replica(&self, number: usize) -> Option<&Replica<T>>
        ensures found { IfSome result (λ r. slice_get self.now number ≡ Some r.now) }
        ensures none { IfNone result (length self.now ≤ number) }
    {
        self.replicas.get(number)
    }

    /// Executes in each replica what is not done, and lets go of nothing. At an `Err` memory was wanting; then some may
    /// be settled, and no log is another.
    pub fn settle(&mut self, alloc: Global) -> Result<(), OutOfMemory>
        ensures logs { logs_of self.new ≡ logs_of self.old }
        ensures programs { map (λ r. r.program) self.new ≡ map (λ r. r.program) self.old }
        ensures settled { OnOk result (All (λ r. IsTrue (T.settled r.timeline)) self.new) }
        ensures floors { map (λ r. T.floor r.timeline) self.new ≡ map (λ r. T.floor r.timeline) self.old }
    {
        settle_all(alloc, &mut self.replicas)
    }

    /// The world of so many replicas of this program before the first move.
    fn start(alloc: Global, program: &Program, count: usize) -> Result<World<T>, OutOfMemory>
    where
        T: Drop,
        ensures logs { IfOk result (λ w. logs_of w ≡ (new_world count).logs) }
        ensures programs { IfOk result (λ w. RunAll program.now w) }
    {
        let mut replicas = Vec::with_capacity(alloc, count)?;
        for _ in 0..count {
            replicas.push(new_replica(alloc, program)?)?;
        }
        Ok(World { replicas })
    }

    /// Does what a move does. An `Err` says that memory was wanting.
    fn happen(&mut self, alloc: Global, program: &Program, next: &Move) -> Result<(), OutOfMemory>
    where
        T: Drop,
        requires { RunAll program.now self.old }
        ensures logs { OnOk result ((made : Records) →
            logs_of self.new ≡ (happens program.now (world_of made self.old) next.now).logs) }
        ensures programs { RunAll program.now self.new }
    {
        match *next {
            Move::Make { replica, record } => self.bring(alloc, replica, &record),
            Move::Carry { from, place, to } => match self.entry(from, place) {
                Some(record) => self.bring(alloc, to, &record),
                None => Ok(()),
            },
            Move::Collect(replica) => self.collect(alloc, replica),
            Move::Settle(replica) => self.settle_one(alloc, replica),
            Move::Restart(replica) => self.restart(alloc, program, replica),
        }
    }

    /// The record at a place of a replica's log; `None` where there is no such replica or place.
    fn entry(&self, replica: u32, place: u32) -> Option<Record>
        ensures { (made : Records) → result ≡ log_entry (world_of made self.now) replica place }
    {
        self.replica(replica as usize)?.entry(place)
    }

    /// Lets a replica take a record, if there is such a replica. Where it is refused, nothing happens; an `Err` says
    /// that memory was wanting.
    fn bring(&mut self, alloc: Global, replica: u32, record: &Record) -> Result<(), OutOfMemory>
        ensures logs { (P : Program) → RunAll P self.old →
            OnOk result ((made : Records) → let w = world_of made self.old in
            logs_of self.new ≡ (after_carry P replica w (Some «record».now) (log_of w replica)).logs) }
        ensures programs { map (λ r. r.program) self.new ≡ map (λ r. r.program) self.old }
    {
        let Some(replica) = self.replicas.get_mut(replica as usize) else {
            return Ok(());
        };
        take_in(alloc, replica, record)
    }

    /// Collects a replica, which is settled first, if there is such a replica.
    fn collect(&mut self, alloc: Global, replica: u32) -> Result<(), OutOfMemory>
        ensures logs { logs_of self.new ≡ logs_of self.old }
        ensures programs { map (λ r. r.program) self.new ≡ map (λ r. r.program) self.old }
    {
        let Some(replica) = self.replicas.get_mut(replica as usize) else {
            return Ok(());
        };
        collect_replica(alloc, replica)
    }

    /// Settles a replica, if there is such a replica. It lets go of nothing.
    fn settle_one(&mut self, alloc: Global, replica: u32) -> Result<(), OutOfMemory>
        ensures logs { logs_of self.new ≡ logs_of self.old }
        ensures programs { map (λ r. r.program) self.new ≡ map (λ r. r.program) self.old }
        ensures floors { map (λ r. T.floor r.timeline) self.new ≡ map (λ r. T.floor r.timeline) self.old }
    {
        let Some(replica) = self.replicas.get_mut(replica as usize) else {
            return Ok(());
        };
        settle_replica(alloc, replica)
    }

    /// Puts a new replica of this program in the place of a replica, if there is such a replica.
    fn restart(&mut self, alloc: Global, program: &Program, replica: u32) -> Result<(), OutOfMemory>
    where
        T: Drop,
        ensures logs { OnOk result (logs_of self.new ≡ slice_set (logs_of self.old) replica []) }
        ensures programs { RunAll program.now self.old → RunAll program.now self.new }
    {
        let number = replica as usize;
        let Some(replica) = self.replicas.get_mut(number) else {
            return Ok(());
        };
        renew(alloc, program, replica)
    }
}

/// A new replica of this program, with an empty log.
fn new_replica<T: Timeline + Drop>(
    alloc: Global,
    program: &Program,
) -> Result<Replica<T>, OutOfMemory>
    ensures program { IfOk result (λ r. r.program ≡ program.now) }
    ensures records { IfOk result (λ r. r.records ≡ []) }
{
    let copy = program.copy(alloc)?;
    Replica::new(alloc, copy)
}

/// Puts a new replica of this program in the place of a replica. An `Err` leaves it as it was.
fn renew<T: Timeline + Drop>(
    alloc: Global,
    program: &Program,
    replica: &mut Replica<T>,
) -> Result<(), OutOfMemory>
    ensures program { replica.old.program ≡ program.now → replica.new.program ≡ program.now }
    ensures records { OnOk result (replica.new.records ≡ []) }
{
    *replica = new_replica(alloc, program)?;
    Ok(())
}

/// `Err` where memory was wanting for the taking of a record, and only there.
fn memory_of(answer: Result<Took, Refusal>) -> Result<(), OutOfMemory>
    ensures ok { OnOk result (answer ≢ Err NoMemory) }
    ensures err { OnErr result (answer ≡ Err NoMemory) }
{
    match answer {
        Err(Refusal::NoMemory) => Err(OutOfMemory),
        _ => Ok(()),
    }
}

/// Lets a replica take a record. Where the program refuses it, or the log has it or is full, nothing happens; an `Err`
/// says that memory was wanting for one that the log would take in, and then the log is as it was.
fn take_in<T: Timeline>(
    alloc: Global,
    replica: &mut Replica<T>,
    record: &Record,
) -> Result<(), OutOfMemory>
    ensures records { OnOk result (let log = replica.old.records in
        replica.new.records ≡
        (if takes_in replica.old.program log «record».now then log ++ «record».now ∷ [] else log)) }
    ensures memory { OnErr result (IsTrue (takes_in replica.old.program replica.old.records «record».now)
        × (replica.new.records ≡ replica.old.records)) }
    ensures program { replica.new.program ≡ replica.old.program }
{
    memory_of(replica.take(alloc, record))
}

/// Collects a replica, which is settled first.
fn collect_replica<T: Timeline>(alloc: Global, replica: &mut Replica<T>) -> Result<(), OutOfMemory>
    ensures program { replica.new.program ≡ replica.old.program }
    ensures records { replica.new.records ≡ replica.old.records }
{
    settle_replica(alloc, replica)?;
    let _ = replica.collect();
    Ok(())
}

/// Settles replicas, from the first to the last. They let go of nothing.
fn settle_all<T: Timeline>(alloc: Global, replicas: &mut [Replica<T>]) -> Result<(), OutOfMemory>
    ensures logs { logs_of replicas.new ≡ logs_of replicas.old }
    ensures programs { map (λ r. r.program) replicas.new ≡ map (λ r. r.program) replicas.old }
    ensures settled { OnOk result (All (λ r. IsTrue (T.settled r.timeline)) replicas.new) }
    ensures floors { map (λ r. T.floor r.timeline) replicas.new ≡ map (λ r. T.floor r.timeline) replicas.old }
{
    for each in replicas.iter_mut() {
        settle_replica(alloc, each)?;
    }
    Ok(())
}

/// Settles a replica, which lets go of nothing. Where it is settled nothing changes, and no memory is needed; at an
/// `Err` the timeline's own settling lacked memory.
fn settle_replica<T: Timeline>(alloc: Global, replica: &mut Replica<T>) -> Result<(), OutOfMemory>
    ensures settled { OnOk result (IsTrue (T.settled replica.new.timeline)) }
    ensures program { replica.new.program ≡ replica.old.program }
    ensures records { replica.new.records ≡ replica.old.records }
    ensures floor { T.floor replica.new.timeline ≡ T.floor replica.old.timeline }
    ensures refused { OnErr result (T.refused replica.new.timeline) }
    ensures idle { IsTrue (T.settled replica.old.timeline) → IsOk result × (replica.new ≡ replica.old) }
{
    replica.settle_uncounted(alloc)
}
