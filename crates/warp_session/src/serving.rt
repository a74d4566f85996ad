//! Serving many sessions at once: a thread for the replica, one for each session, and one for each pull from a peer.
ghost use Rattle.std.specs.Prelude.{◌≡◌, ◌⊎◌, ◌↔◌, ℕ, ◌+◌, ◌≤◌, [], ◌∷◌, ◌++◌, All, Err, IfErr, IfOk, IsOk, IsTrue, List, Ok, OnOk, Option};
ghost use Rattle.std.specs.Prelude.{false, length, vec_capacity, vec_len};
ghost use Rattle.warp_tag.specs.Limits.{most_rows};
ghost use Rattle.warp_board.specs.Board.{room_of};
ghost use Rattle.warp_lanes.specs.Engine.{AreFresh, IsFresh, ids_of, most_lanes};
ghost use Rattle.warp_lanes.specs.Lanes.{LaneState};
ghost use Rattle.warp_session.specs.PortDesk.{PortDeskState};
ghost use Rattle.warp_session.specs.Serve.{HasServed, Shows, lanes_of};
ghost use Rattle.warp_session.specs.Told.{ended_of, numbers_of, told_all};
ghost use Rattle.warp_session.specs.declared.pulling.PullEnd.{PullEnd};
ghost use Rattle.warp_session.specs.declared.serving.EndedPull.{EndedPull};
ghost use Rattle.warp_session.specs.inner.Room.{HasRoom, running_of};

use crate::desk_session::session;
use crate::door::{Door, Gate, Peer, ServeFault};
use crate::executor::Executor;
use crate::gated::GatedDesk;
use crate::port_desk::PortDesk;
use crate::pulling::{PullEnd, pull};
use crate::stream::{Sink, Source};
use std::alloc::{AllocError, Global};
use std::snapshot::Snapshot;
use std::sync::Wait;
use std::sync::atomic::{AtomicBool, Ordering};
use std::thread;
use std::thread::{Builder, JoinHandle, Promise, PromisedHandle, Scope, Threads};
use std::time::Clock;
use warp_board::{Board, Reader, Writer, board, split_reader};
use warp_exchange::Desk;
use warp_lanes::{Engine, Lane, lane};
use warp_line::Timeline;
use warp_replica::Replica;
use warp_step::Program;
use warp_tag::Form;

/// The stack of a session's thread, and of a pull's, in bytes.
const STACK: usize = 1 << 20;

/// What the executor hands back: the engine that it was given, after some turns.
#[derive(Drop)]
struct ServesOf<T: Timeline> {
    given: Snapshot<Engine<T>>,
}

impl<T: Timeline> Promise<Engine<T>> for ServesOf<T> {
    ghost kept_by = { λ p e. HasServed T.settled p.given.value e };
}

/// Adds a lane, and a desk at it, whose lines are of this form. Gives a reader for the next one.
fn add_desk<'a, X: Wait + Clock>(
    rt: &'a X,
    alloc: Global,
    board: &'a Board,
    reader: Reader,
    form: Form,
    desks: &mut Vec<PortDesk<'a, X>>,
    lanes: &mut Vec<Lane>,
) -> Result<Reader, AllocError>
    requires { reader.board ≡ board.now }
    ensures reader { IfOk result (λ rest. rest.board ≡ board.now) }
    ensures both { OnOk result ((desk : PortDeskState) × (lane : LaneState)
        × (desk.form ≡ form) × IsFresh lane × (desk.port.lane ≡ lane.lane)
        × (desks.new.items ≡ desks.old.items ++ desk ∷ []) × (lanes.new.items ≡ lanes.old.items ++ lane ∷ [])) }
{
    let (port, end) = lane(alloc)?;
    let Ok((rest, own)) = split_reader(board, reader) else {
        unreachable!()
    };
    desks.push(PortDesk::new(rt, board, port, own, form))?;
    lanes.push(end)?;
    Ok(rest)
}

/// Adds so many lanes, and a desk at each, where there are none yet.
fn add_desks<'a, X: Wait + Clock>(
    rt: &'a X,
    alloc: Global,
    board: &'a Board,
    reader: Reader,
    form: Form,
    count: usize,
    desks: &mut Vec<PortDesk<'a, X>>,
    lanes: &mut Vec<Lane>,
) -> Result<(), AllocError>
    requires board { reader.board ≡ board.now }
    requires none { (desks.old.items ≡ []) × (lanes.old.items ≡ []) }
    ensures desks { OnOk result (vec_len desks.new ≡ count) }
    ensures lanes { OnOk result (vec_len lanes.new ≡ count) }
    ensures fresh { OnOk result (AreFresh lanes.new.items) }
    ensures form { OnOk result (All (λ desk. desk.form ≡ form) desks.new.items) }
    ensures ports { OnOk result (lanes_of desks.new.items ≡ ids_of lanes.new.items) }
{
    let mut reader = reader;
    for _ in 0..count {
        reader = add_desk(rt, alloc, board, reader, form, desks, lanes)?;
    }
    Ok(())
}

/// So many lanes, and a desk at each, whose lines are of this form: each desk's port is that of the lane at its place.
fn make_desks<'a, X: Wait + Clock>(
    rt: &'a X,
    alloc: Global,
    board: &'a Board,
    reader: Reader,
    form: Form,
    count: usize,
) -> Result<(Vec<PortDesk<'a, X>>, Vec<Lane>), AllocError>
    requires { reader.board ≡ board.now }
    ensures desks { IfOk result (λ made. vec_len made.0 ≡ count) }
    ensures lanes { IfOk result (λ made. vec_len made.1 ≡ count) }
    ensures fresh { IfOk result (λ made. AreFresh made.1.items) }
    ensures form { IfOk result (λ made. All (λ desk. desk.form ≡ form) made.0.items) }
    ensures ports { IfOk result (λ made. lanes_of made.0.items ≡ ids_of made.1.items) }
{
    let mut desks = Vec::new(alloc);
    let mut lanes = Vec::new(alloc);
    add_desks(
        rt, alloc, board, reader, form, count, &mut desks, &mut lanes,
    )?;
    Ok((desks, lanes))
}

/// One session, from its first byte to its end.
pub(crate) fn attend<K: Desk + Drop, R: Source + Drop, W: Sink + Drop, G: Gate>(
    alloc: Global,
    desk: K,
    mut source: R,
    mut sink: W,
    gate: &G,
    number: u32,
) {
    let mut desk = GatedDesk::new(desk, gate, number);
    session(alloc, &mut source, &mut sink, &mut desk);
}

/// The handle of a thread, if it could be started.
fn started<H, E: Drop>(running: Result<H, E>) -> Result<H, ServeFault>
    ensures ok { IfOk result (λ handle. running ≡ Ok handle) }
    ensures err { IfErr result (λ fault. fault ≡ ServeFault.Accept) }
{
    match running {
        Ok(handle) => Ok(handle),
        Err(_) => Err(ServeFault::Accept),
    }
}

/// A thread for a session or a pull, whose stack is as large as theirs need be.
fn small_stack() -> Builder {
    Builder::new().stack_size(STACK)
}

/// Starts the next session that comes.
fn start_session<'s, E, K: Desk + Send + Drop + 's, D: Door, G: Gate + Sync + 's>(
    scope: &'s Scope<'s, E>,
    alloc: Global,
    desk: K,
    door: &mut D,
    gate: &'s G,
    number: u32,
) -> Result<(), ServeFault>
where
    D::R: 's,
    D::W: 's,
    ensures { IfErr result (λ fault. fault ≡ ServeFault.Accept) }
{
    let Ok((source, sink)) = door.next() else {
        return Err(ServeFault::Accept);
    };
    let running = small_stack().spawn_scoped(
        scope,
        move || attend(alloc, desk, source, sink, gate, number),
    );
    started(running)?;
    Ok(())
}

/// Starts a session for each desk, as they come.
fn start_sessions<'s, E, K: Desk + Send + Drop + 's, D: Door, G: Gate + Sync + 's>(
    scope: &'s Scope<'s, E>,
    alloc: Global,
    desks: Vec<K>,
    door: &mut D,
    gate: &'s G,
) -> Result<(), ServeFault>
where
    D::R: 's,
    D::W: 's,
    ensures { IfErr result (λ fault. fault ≡ ServeFault.Accept) }
{
    let mut number = 0u32;
    for desk in desks {
        start_session(scope, alloc, desk, door, gate, number)?;
        number = number.wrapping_add(1);
    }
    Ok(())
}

/// Pulls from a peer to an end.
fn pull_peer<X: Clock, K: Desk + Drop, R: Source + Drop, W: Sink + Drop>(
    rt: &X,
    alloc: Global,
    mut desk: K,
    peer: Peer<R, W>,
) -> PullEnd {
    let Peer {
        mut source,
        mut sink,
        quiet,
        pause,
        ..
    } = peer;
    pull(rt, alloc, &mut source, &mut sink, &mut desk, quiet, pause)
}

/// A pull in a thread of its own.
#[derive(Drop)]
struct RunningPull {
    peer: u32,
    thread: JoinHandle<PullEnd>,
}

/// How the pull from a peer ended.
#[derive(Drop)]
struct EndedPull {
    peer: u32,
    end: PullEnd,
}

/// Starts the pull from a peer.
fn start_pull<'s, E, X, K, R, W>(
    scope: &'s Scope<'s, E>,
    rt: &'s X,
    alloc: Global,
    desk: K,
    peer: Peer<R, W>,
) -> Result<RunningPull, ServeFault>
where
    X: Clock + Sync + 's,
    K: Desk + Send + Drop + 's,
    R: Source + Send + Drop + 's,
    W: Sink + Send + Drop + 's,
    ensures number { IfOk result (λ pull. pull.peer ≡ peer.number) }
    ensures err { IfErr result (λ fault. fault ≡ ServeFault.Accept) }
{
    let number = peer.number;
    let running = small_stack().spawn_scoped(scope, move || pull_peer(rt, alloc, desk, peer));
    let thread = started(running)?;
    Ok(RunningPull {
        peer: number,
        thread,
    })
}

/// Starts a pull from each peer, in their order, with one of the desks, and says which run.
fn start_pulls<'s, E, X, K, R, W>(
    scope: &'s Scope<'s, E>,
    rt: &'s X,
    alloc: Global,
    desks: &mut Vec<K>,
    peers: Vec<Peer<R, W>>,
    running: &mut Vec<RunningPull>,
) -> Result<(), ServeFault>
where
    X: Clock + Sync + 's,
    K: Desk + Send + Drop + 's,
    R: Source + Send + Drop + 's,
    W: Sink + Send + Drop + 's,
    requires desks { vec_len peers ≤ vec_len desks.old }
    requires room { vec_len peers ≤ vec_capacity running.old }
    requires none { running.old.items ≡ [] }
    ensures all { OnOk result (running_of running.new.items ≡ numbers_of peers.items) }
    ensures err { IfErr result (λ fault. fault ≡ ServeFault.Accept) }
    ensures few { vec_len running.new ≤ vec_len peers }
{
    for peer in peers {
        let Some(desk) = desks.pop() else {
            unreachable!()
        };
        let pull = start_pull(scope, rt, alloc, desk, peer)?;
        running.push_reserved(pull);
    }
    Ok(())
}

/// Waits for the pulls, in their order, and says how each ended.
fn join_pulls<X: Threads>(rt: &X, running: Vec<RunningPull>, ended: &mut Vec<EndedPull>)
    requires room { vec_len running ≤ vec_capacity ended.old }
    requires none { ended.old.items ≡ [] }
    ensures { ended_of ended.new.items ≡ running_of running.items }
{
    for pull in running {
        let RunningPull { peer, thread } = pull;
        let end = thread.join(rt);
        ended.push_reserved(EndedPull { peer, end });
    }
}

/// How the pulls ended, and what kept sessions from being served.
#[derive(Drop)]
struct Called {
    ended: Vec<EndedPull>,
    served: Result<(), ServeFault>,
}

/// Room for what is kept of so many pulls.
#[derive(Drop)]
struct Room {
    running: Vec<RunningPull>,
    ended: Vec<EndedPull>,
}

impl Room {
    fn new(alloc: Global, pulls: usize) -> Result<Room, AllocError>
        ensures { IfOk result (λ made. HasRoom pulls made) }
    {
        let running = Vec::with_capacity(alloc, pulls)?;
        let ended = Vec::with_capacity(alloc, pulls)?;
        Ok(Room { running, ended })
    }
}

/// Starts the pulls, and the sessions as they come, and waits for the pulls.
fn start_all<'s, E, X, K, D: Door, G: Gate + Sync + 's>(
    scope: &'s Scope<'s, E>,
    rt: &'s X,
    alloc: Global,
    mut desks: Vec<K>,
    door: &mut D,
    peers: Vec<Peer<D::R, D::W>>,
    gate: &'s G,
    room: Room,
) -> Called
where
    X: Threads + Wait + Clock + Sync + 's,
    K: Desk + Send + Drop + 's,
    D::R: 's,
    D::W: 's,
    requires desks { vec_len peers ≤ vec_len desks }
    requires room { HasRoom (vec_len peers) room }
    ensures all { OnOk result.served (ended_of result.ended.items ≡ numbers_of peers.items) }
    ensures err { IfErr result.served (λ fault. fault ≡ ServeFault.Accept) }
{
    let Room {
        mut running,
        mut ended,
    } = room;
    let served = match start_pulls(scope, rt, alloc, &mut desks, peers, &mut running) {
        Ok(()) => start_sessions(scope, alloc, desks, door, gate),
        Err(fault) => Err(fault),
    };
    join_pulls(rt, running, &mut ended);
    Called { ended, served }
}

/// Serves a session at each desk that no peer needs, pulls from the peers, and returns when all have ended.
fn call_in<X: Threads + Wait + Clock + Sync, K: Desk + Send + Drop, D: Door, G: Gate + Sync>(
    rt: &X,
    alloc: Global,
    desks: Vec<K>,
    door: &mut D,
    peers: Vec<Peer<D::R, D::W>>,
    gate: &G,
    room: Room,
) -> Called
    requires desks { vec_len peers ≤ vec_len desks }
    requires room { HasRoom (vec_len peers) room }
    ensures all { OnOk result.served (ended_of result.ended.items ≡ numbers_of peers.items) }
    ensures err { IfErr result.served (λ fault. fault ≡ ServeFault.Accept) }
{
    thread::scope(
        thread::scope_env(),
        rt,
        move |scope| -> Called
            requires desks { vec_len peers ≤ vec_len desks }
            requires room { HasRoom (vec_len peers) room }
            ensures all { OnOk result.served (ended_of result.ended.items ≡ numbers_of peers.items) }
            ensures err { IfErr result.served (λ fault. fault ≡ ServeFault.Accept) }
        { start_all(scope, rt, alloc, desks, door, peers, gate, room) },
    )
}

/// Tells the door how each pull ended, in this order, and says what kept sessions from being served.
fn tell_all<D: Door>(door: &mut D, called: Called) -> Result<(), ServeFault>
    ensures told { D.told door.new ≡ told_all called.ended.items (D.told door.old) }
    ensures served { result ≡ called.served }
{
    let Called { ended, served } = called;
    for pull in ended {
        door.pull_ended(pull.peer, pull.end);
    }
    served
}

/// Serves and pulls so, and tells the door how each pull ended.
fn call_all<X: Threads + Wait + Clock + Sync, K: Desk + Send + Drop, D: Door, G: Gate + Sync>(
    rt: &X,
    alloc: Global,
    desks: Vec<K>,
    door: &mut D,
    peers: Vec<Peer<D::R, D::W>>,
    gate: &G,
    room: Room,
) -> Result<(), ServeFault>
    requires desks { vec_len peers ≤ vec_len desks }
    requires room { HasRoom (vec_len peers) room }
    // What the door was told last are the ends of all pulls, one for each peer in their order.
    ensures told { OnOk result ((ended : List EndedPull) × (before : Option (List (ℕ × PullEnd)))
        × (ended_of ended ≡ numbers_of peers.items) × (D.told door.new ≡ told_all ended before)) }
    ensures err { IfErr result (λ fault. fault ≡ ServeFault.Accept) }
{
    let called = call_in(rt, alloc, desks, door, peers, gate, room);
    tell_all(door, called)
}

/// Starts the executor in a thread of its own.
fn start_executor<'s, E, X: Wait + Clock + Sync + 's, T: Timeline + Send + Drop + 's>(
    scope: &'s Scope<'s, E>,
    rt: &'s X,
    alloc: Global,
    ended: &'s AtomicBool,
    executor: Executor<'s, T>,
) -> Result<PromisedHandle<Engine<T>, ServesOf<T>>, ServeFault>
    ensures ok { IfOk result (λ h. h.promise.given.value ≡ executor.entry.engine) }
    ensures err { IfErr result (λ fault. fault ≡ ServeFault.Accept) }
{
    let promise = ServesOf {
        given: Snapshot::of(&executor.engine),
    };
    let running = scope.spawn_with(
        promise,
        move || -> Engine<T>
            ensures { HasServed T.settled executor.entry.engine result }
        { executor.run(rt, alloc, ended) },
    );
    started(running)
}

/// Tells the executor that all have ended, and gives back its engine, unless something kept sessions from being served.
fn end_executor<X: Threads, T: Timeline>(
    rt: &X,
    ended: &AtomicBool,
    running: PromisedHandle<Engine<T>, ServesOf<T>>,
    served: Result<(), ServeFault>,
) -> Result<Engine<T>, ServeFault>
    requires { IfErr served (λ fault. fault ≡ ServeFault.Accept) }
    ensures ok { IfOk result (λ engine. HasServed T.settled running.promise.given.value engine) }
    ensures served { IsOk result ↔ IsOk served }
    ensures err { IfErr result (λ fault. fault ≡ ServeFault.Accept) }
{
    ended.store(true, Ordering::SeqCst);
    let engine = running.join(rt);
    match served {
        Ok(()) => Ok(engine),
        Err(fault) => Err(fault),
    }
}

/// Starts the executor, serves the sessions and pulls, and gives its engine back once all have ended.
fn serve_in<'s, E, X, T, K, D: Door, G: Gate + Sync>(
    scope: &'s Scope<'s, E>,
    rt: &'s X,
    alloc: Global,
    ended: &'s AtomicBool,
    executor: Executor<'s, T>,
    desks: Vec<K>,
    door: &mut D,
    peers: Vec<Peer<D::R, D::W>>,
    gate: &G,
    room: Room,
) -> Result<Engine<T>, ServeFault>
where
    X: Threads + Wait + Clock + Sync + 's,
    T: Timeline + Send + Drop + 's,
    K: Desk + Send + Drop,
    requires desks { vec_len peers ≤ vec_len desks }
    requires room { HasRoom (vec_len peers) room }
    ensures ok { IfOk result (λ engine. HasServed T.settled executor.entry.engine engine) }
    ensures err { IfErr result (λ fault. fault ≡ ServeFault.Accept) }
{
    match start_executor(scope, rt, alloc, ended, executor) {
        Ok(running) => {
            let served = call_all(rt, alloc, desks, door, peers, gate, room);
            end_executor(rt, ended, running, served)
        }
        Err(fault) => Err(fault),
    }
}

/// Runs the executor beside the sessions and pulls, and gives its engine back once all have ended. The desks take lines
/// of the form of its program.
fn serve_beside<
    X: Threads + Wait + Clock + Sync,
    T: Timeline + Send + Drop,
    K: Desk + Send + Drop,
    D: Door,
    G: Gate + Sync,
>(
    rt: &X,
    alloc: Global,
    executor: Executor<'_, T>,
    desks: Vec<K>,
    door: &mut D,
    peers: Vec<Peer<D::R, D::W>>,
    gate: &G,
    room: Room,
) -> Result<Engine<T>, ServeFault>
    requires form { All (λ desk. K.form_of (K.state desk) ≡ executor.engine.replica.program.form) desks.items }
    requires desks { vec_len peers ≤ vec_len desks }
    requires room { HasRoom (vec_len peers) room }
    ensures ok { IfOk result (λ engine. HasServed T.settled executor.entry.engine engine) }
    ensures err { IfErr result (λ fault. fault ≡ ServeFault.Accept) }
{
    let ended = AtomicBool::new(false);
    let ended = &ended;
    thread::scope(
        thread::scope_env(),
        rt,
        move |scope| -> Result<Engine<T>, ServeFault>
            requires desks { vec_len peers ≤ vec_len desks }
            requires room { HasRoom (vec_len peers) room }
            ensures ok { IfOk result (λ engine. HasServed T.settled executor.entry.engine engine) }
            ensures err { IfErr result (λ fault. fault ≡ ServeFault.Accept) }
        {
            serve_in(
                scope, rt, alloc, ended, executor, desks, door, peers, gate, room,
            )
        },
    )
}

/// The executor over an engine that took no record yet, and that serves these lanes and writes this board.
fn executor_for<'a, T: Timeline>(
    alloc: Global,
    program: Program,
    lanes: Vec<Lane>,
    board: &'a Board,
    writer: Writer,
) -> Result<Executor<'a, T>, ServeFault>
    requires lanes { AreFresh lanes.items × (length lanes.items ≤ most_lanes) }
    requires writer { (writer.board ≡ board.now) × (writer.rows ≡ []) × (writer.frozen ≡ false) }
    ensures program { IfOk result (λ made. made.engine.replica.program ≡ program) }
    ensures records { IfOk result (λ made. (made.engine.replica.records ≡ []) × (made.engine.began ≡ 0)) }
    ensures parts { IfOk result (λ made. (made.engine.lanes ≡ lanes.items) × (made.engine.writer ≡ writer)) }
{
    let replica = Replica::new(alloc, program)?;
    let engine = Engine::new(replica, lanes, writer);
    Ok(Executor { engine, board })
}

/// Serves so many sessions of a replica of this program that has taken no record yet, over a timeline of this type.
/// They come to the door, and each has a thread of its own, as has each pull from a peer; sessions and peers are 16 at
/// most. One thread holds the replica and answers all their lines. It returns when all have ended, and gives back the
/// engine that served them.
pub fn serve_sessions<
    X: Threads + Wait + Clock + Sync,
    T: Timeline + Send + Drop,
    D: Door,
    G: Gate + Sync,
>(
    rt: &X,
    alloc: Global,
    program: Program,
    door: &mut D,
    sessions: usize,
    peers: Vec<Peer<D::R, D::W>>,
    gate: &G,
) -> Result<Engine<T>, ServeFault>
    requires { sessions + vec_len peers ≤ most_lanes }
    // The engine ran this program, and began with an empty log.
    ensures program { IfOk result (λ engine. engine.replica.program ≡ program) }
    ensures began { IfOk result (λ engine. engine.began ≡ 0) }
    // It had a lane for each session and each peer, and a board with room for so many rows.
    ensures lanes { IfOk result (λ engine. length engine.lanes ≡ sessions + vec_len peers) }
    ensures room { IfOk result (λ engine. room_of engine.writer.board ≡ most_rows program.form) }
    // Where the replica is settled, the board shows what is released; or there was no record to show anything of.
    ensures shown { IfOk result (λ engine. IsTrue (T.settled engine.replica.timeline) →
        (engine.replica.records ≡ []) ⊎ Shows engine) }
    // Without memory nobody was asked to come.
    ensures memory { result ≡ Err ServeFault.NoMemory → door.new ≡ door.old }
{
    let room = Room::new(alloc, peers.len())?;
    let form = program.form();
    let (board, writer, reader) = board(alloc, form.most_rows() as usize)?;
    let board = &board;
    let (desks, lanes) = make_desks(rt, alloc, board, reader, form, sessions + peers.len())?;
    let executor = executor_for(alloc, program, lanes, board, writer)?;
    let served = serve_beside(rt, alloc, executor, desks, door, peers, gate, room)?;
    Ok(served)
}
