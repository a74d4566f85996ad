//! The engine: the thread that holds the replica serves all lanes.
//!
//! What the lanes received and sent is always a linear history of the replica's program and log.
ghost use Rattle.std.specs.Prelude.{◌≡◌, ◌≢◌, ◌<◌, ◌≤◌, [], ℕ, false, IfOk, IsOk, IsTrue, List, OnErr, OnOk, Some};
ghost use Rattle.std.specs.Prelude.{length, slice_get};
ghost use Rattle.warp_tag.specs.declared.out.Out.{Out};
ghost use Rattle.warp_table.specs.Records.{set_of};
ghost use Rattle.warp_step.specs.Run.{Row};
ghost use Rattle.warp_line.specs.Timeline.{IsDone, Settles};
ghost use Rattle.warp_replica.specs.Answers.{IsReleased};
ghost use Rattle.warp_replica.specs.Replica.{Stands, standing_of};
ghost use Rattle.warp_replica.specs.Answered.{facts_of};
ghost use Rattle.warp_replica.specs.History.{IsHistory};
ghost use Rattle.warp_lanes.specs.Engine.{AreFresh, Drains, HasPlace, Turns, TurnsLane, Visits};
ghost use Rattle.warp_lanes.specs.Engine.{ids_of, most_lanes};
ghost use Rattle.warp_lanes.specs.Lanes.{places, subhistories};
ghost use Rattle.warp_lanes.specs.Publish.{AreReleased, HasNews, Publishes};
ghost use Rattle.warp_lanes.specs.declared.turn.Turn.{Turn};

use crate::draining::drain;
use crate::executor_end::Lane;
use crate::making::LANE_PLACES;
use crate::port::PortEnd;
use crate::publish::{Published, news, publish_settled, rows_before};
use crate::settling::{Settler, Uncounted};
use crate::turn::Turn;
use crate::visiting::{Unsent, visit};
use arrayvec::ArrayVec;
use std::alloc::Global;
use std::marker::Model;
use warp_board::{Board, Writer};
use warp_line::Timeline;
use warp_replica::{Answer, Replica};
use warp_tag::{OutOfMemory, Tag};

/// A replica, the lanes that it serves, and the writer of its board. Contracts see these three, and the length that the
/// log had when the engine was made.
#[derive(Drop)]
pub struct Engine<T: Timeline> {
    replica: Replica<T>,
    lanes: Vec<Lane>,
    writer: Writer,
    began: u32,
    // So many of the board's released rows are known to begin what is released now, while it is not frozen.
    known_rows: usize,
    // What a visit answered, until it is sent.
    unsent: Unsent,
}

impl<T: Timeline> Model for Engine<T> {
    ghost use Rattle.warp_lanes.specs.Codes.{engine_code};
    ghost use Rattle.warp_lanes.specs.Engine.{EngineState};
    ghost use Rattle.warp_lanes.specs.Lanes.{subhistories};
    ghost use Rattle.warp_lanes.specs.Publish.{KeepsBoard};
    ghost use Rattle.warp_replica.specs.History.{IsHistory};

    ghost Value = { EngineState T };

    ghost coded = { engine_code T.code };

    ghost view = { λ e.
        record { replica = e.replica; lanes = e.lanes.items; writer = e.writer; began = e.began } };

    ghost invariant = { λ e.
        IsHistory e.replica.program e.replica.records e.began (subhistories e.lanes.items)
        × KeepsBoard e.replica.program e.replica.records e.writer e.known_rows };
}

impl<T: Timeline> Engine<T> {
    /// An engine over this replica, 0 to 16 new lanes, and the writer of a new board. A lane is named by its place in
    /// the list, from 0.
    pub fn new(replica: Replica<T>, lanes: Vec<Lane>, writer: Writer) -> Engine<T>
        requires fresh { AreFresh lanes.items }
        requires most { length lanes.items ≤ most_lanes }
        requires rows { writer.rows ≡ [] }
        requires flag { writer.frozen ≡ false }
        ensures { result
            ≡ record { replica = replica; lanes = lanes.items; writer = writer; began = length replica.records } }
    {
        let began = replica.len();
        Engine {
            replica,
            lanes,
            writer,
            began,
            known_rows: 0,
            unsent: ArrayVec::new(),
        }
    }

    /// What is known of any engine: its lanes are a linear history of its program and log, which began with as many
    /// records as the log had when it was made; and while no origin broke an announcement, its board is not frozen, and
    /// the rows begin what the program releases over the log. It does nothing.
    pub fn valid(&self)
        ensures history { IsHistory self.now.replica.program self.now.replica.records self.now.began
            (subhistories self.now.lanes) }
        ensures board { AreReleased self.now.replica.program self.now.replica.records self.now.writer }
    {
        // A look at a field shows it.
        let _began = self.began;
    }

    /// Its replica.
    pub fn replica(&self) -> &Replica<T>
        ensures { result.now ≡ self.now.replica }
    {
        &self.replica
    }

    /// How many records the log had when the engine was made.
    pub fn began(&self) -> usize
        ensures { result ≡ self.now.began }
    {
        self.began as usize
    }

    /// How many lanes it serves, 0 to 16.
    pub fn lane_count(&self) -> usize
        ensures { result ≡ length self.now.lanes }
    {
        self.lanes.len()
    }

    /// Serves the next command of a lane, by its number from 0, as a replica without peers would, if one is found and
    /// its answer has a place: each of a lane's first 64 answers has. `alloc` is the replica's. It settles and collects
    /// as `Replica::ask` does: a line other than `collect` lets go of nothing, and where there was no memory to settle,
    /// `settle` may be called later.
    pub fn turn(&mut self, alloc: Global, lane: usize) -> Turn
        requires { lane < length self.old.lanes }
        ensures turns { Turns (facts_of T.settled T.refused T.floor T.SLACK) self.old lane result self.new }
        ensures first { HasPlace self.old.lanes lane → result ≢ Turn.Stalled }
        ensures program { self.new.replica.program ≡ self.old.replica.program }
        ensures writer { self.new.writer ≡ self.old.writer }
        ensures began { self.new.began ≡ self.old.began }
        ensures lanes { length self.new.lanes ≡ length self.old.lanes }
        ensures ids { ids_of self.new.lanes ≡ ids_of self.old.lanes }
    {
        // A program has an origin, and each record is in its log once.
        self.replica.program().valid();
        self.replica.valid();
        let (turn, news) = serve(&mut self.lanes[lane], &mut self.replica, alloc);
        self.known_rows = rows_before(self.writer.rows(), self.known_rows, news);
        turn
    }

    /// Serves the commands of a lane, by its number from 0, that wait: one at least, up to 64, and at most as many as
    /// their answers have places and as publishing once is enough for. Each is asked as a turn asks it, but that what
    /// records have executed waits for a query, for `collect`, or for the end of the visit. Then it settles, publishes
    /// on the board where that leaves it settled, which leaves there what publishing behind each command would, and
    /// sends the answers last: who fetched one finds on the board what was released by then. Where there was no memory
    /// to settle, `settle` and `publish` may be called later. `alloc` is the replica's.
    pub fn visit(&mut self, alloc: Global, lane: usize, board: &Board) -> Turn
        requires lane { lane < length self.old.lanes }
        requires board { self.old.writer.board ≡ board.now }
        ensures visits { Visits (facts_of T.settled T.refused T.floor T.SLACK) self.old lane result self.new }
        ensures first { HasPlace self.old.lanes lane → result ≢ Turn.Stalled }
        ensures program { self.new.replica.program ≡ self.old.replica.program }
        ensures board { self.new.writer.board ≡ self.old.writer.board }
        ensures began { self.new.began ≡ self.old.began }
        ensures lanes { length self.new.lanes ≡ length self.old.lanes }
        ensures ids { ids_of self.new.lanes ≡ ids_of self.old.lanes }
    {
        self.visit_with(alloc, lane, board, LANE_PLACES, &mut Uncounted)
    }

    /// Serves the next command of a lane alone, as a visit would that finds no other, but that `settler` has the replica
    /// execute what it brought.
    pub fn visit_one<S: Settler<T>>(
        &mut self,
        alloc: Global,
        lane: usize,
        board: &Board,
        settler: &mut S,
    ) -> Turn
        requires lane { lane < length self.old.lanes }
        requires board { self.old.writer.board ≡ board.now }
        ensures visits { Visits (facts_of T.settled T.refused T.floor T.SLACK) self.old lane result self.new }
        ensures first { HasPlace self.old.lanes lane → result ≢ Turn.Stalled }
        ensures program { self.new.replica.program ≡ self.old.replica.program }
        ensures board { self.new.writer.board ≡ self.old.writer.board }
        ensures began { self.new.began ≡ self.old.began }
        ensures lanes { length self.new.lanes ≡ length self.old.lanes }
        ensures ids { ids_of self.new.lanes ≡ ids_of self.old.lanes }
    {
        self.visit_with(alloc, lane, board, 1, settler)
    }

    /// Serves the commands of a lane that wait, at most so many.
    fn visit_with<S: Settler<T>>(
        &mut self,
        alloc: Global,
        lane: usize,
        board: &Board,
        most: usize,
        settler: &mut S,
    ) -> Turn
        requires some { 0 < most }
        requires lane { lane < length self.old.lanes }
        requires board { self.old.writer.board ≡ board.now }
        ensures visits { Visits (facts_of T.settled T.refused T.floor T.SLACK) self.old lane result self.new }
        ensures first { HasPlace self.old.lanes lane → result ≢ Turn.Stalled }
        ensures program { self.new.replica.program ≡ self.old.replica.program }
        ensures board { self.new.writer.board ≡ self.old.writer.board }
        ensures began { self.new.began ≡ self.old.began }
        ensures lanes { length self.new.lanes ≡ length self.old.lanes }
        ensures ids { ids_of self.new.lanes ≡ ids_of self.old.lanes }
    {
        visit(
            &mut self.lanes[lane],
            &mut self.replica,
            alloc,
            &mut self.writer,
            &mut self.known_rows,
            board,
            &mut self.unsent,
            most,
            settler,
        )
    }

    /// Executes what is not done of its replica, as `Replica::settle_uncounted` does: `Err` leaves it done through some
    /// tag, and it may be settled later. Nothing else changes, and of a settled replica nothing does.
    pub fn settle(&mut self, alloc: Global) -> Result<(), OutOfMemory>
        ensures stands { (done : List Row) → Stands T.stands_for self.old.replica done →
            (ticks : ℕ) × (after : List Row)
            × Settles T.stands_for self.new.replica.timeline (standing_of self.old.replica done) ticks after
            × OnOk result (IsDone (standing_of self.new.replica after)) }
        ensures settled { OnOk result (IsTrue (T.settled self.new.replica.timeline)) }
        ensures unsettled { OnErr result (T.settled self.new.replica.timeline ≡ false) }
        ensures refused { OnErr result (T.refused self.new.replica.timeline) }
        ensures floor { T.floor self.new.replica.timeline ≡ T.floor self.old.replica.timeline }
        ensures idle { IsTrue (T.settled self.old.replica.timeline) → IsOk result × (self.new ≡ self.old) }
        ensures others { self.new ≡ record self.old {
          replica = record self.old.replica { timeline = self.new.replica.timeline };
        } }
    {
        self.replica.settle_uncounted(alloc)
    }

    /// Ends a lane with the end of its port: receives what the port sent and no turn received, and hands out, in order,
    /// the answers that the port did not fetch, those of earlier turns and those that it makes. Of these it keeps a
    /// copy beside the lane. The room for all is taken first: at `Err` nothing was received, and the port's end is
    /// gone. `alloc` is the replica's. It settles and collects for each line as a turn does: none but `collect` lets go
    /// of anything.
    pub fn drain(
        &mut self,
        alloc: Global,
        lane: usize,
        end: PortEnd,
    ) -> Result<Vec<Answer>, OutOfMemory>
        requires { slice_get (ids_of self.old.lanes) lane ≡ Some end.lane }
        ensures drains { IfOk result
            (λ handed. Drains (facts_of T.settled T.refused T.floor T.SLACK) self.old lane end handed.items self.new) }
        ensures err { OnErr result (self.new ≡ self.old) }
        ensures program { self.new.replica.program ≡ self.old.replica.program }
        ensures writer { self.new.writer ≡ self.old.writer }
        ensures began { self.new.began ≡ self.old.began }
        ensures ids { ids_of self.new.lanes ≡ ids_of self.old.lanes }
    {
        // A program has an origin, and each record is in its log once.
        self.replica.program().valid();
        self.replica.valid();
        let handed = drain(&mut self.lanes[lane], &mut self.replica, alloc, end)?;
        // Records of any tag may have come in.
        self.known_rows = 0;
        self.replica.valid();
        Ok(handed)
    }

    /// Appends to the board the released outputs that are missing, as many as it has room for, and tells how many rows
    /// there are; or freezes it for good, where its rows no longer begin what is released. The replica is settled.
    /// At which of them it looks no clause says: those that a record since may have changed, and all once a lane was
    /// drained.
    pub fn publish(&mut self, board: &Board) -> Published
        requires settled { IsTrue (T.settled self.old.replica.timeline) }
        requires board { self.old.writer.board ≡ board.now }
        ensures published { (released : List Out)
            × IsReleased self.old.replica.program (set_of self.old.replica.records) released
            × Publishes released self.old.writer result self.new.writer }
        ensures others { self.new ≡ record self.old { writer = self.new.writer } }
    {
        publish_settled(&self.replica, &mut self.writer, &mut self.known_rows, board)
    }
}

/// Serves the next command of a lane: a place for its answer is looked for before the command is received. The tag is
/// that of the record that came in, if one did.
fn serve<T: Timeline>(
    lane: &mut Lane,
    replica: &mut Replica<T>,
    alloc: Global,
) -> (Turn, Option<Tag>)
    ensures turns { TurnsLane (facts_of T.settled T.refused T.floor T.SLACK)
        replica.old lane.old result.0 replica.new lane.new }
    ensures first { length lane.old.answers < places → result.0 ≢ Turn.Stalled }
    ensures news { HasNews replica.old.program replica.old.records result.1 replica.new.records }
{
    if lane.answers.is_full() {
        return (Turn::Stalled, None);
    }
    if !lane.last.is_empty() {
        // It was drained: its port has ended.
        return (Turn::Empty, None);
    }
    let Ok(line) = lane.commands.pop() else {
        return (Turn::Empty, None);
    };
    let reply = replica.ask(alloc, line);
    let len = replica.len();
    lane.answers.push_reserved(Answer { len, reply });
    (Turn::Served, news(&line, &reply))
}
