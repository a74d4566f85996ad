//! Visiting a lane: as many of its commands as wait are answered one after another, and the answers are sent when the
//! board shows what they released.
ghost use Rattle.std.specs.Prelude.{◌≡◌, ◌≢◌, ◌⊎◌, ◌+◌, ◌<◌, ◌≤◌, ◌++◌, ◌∷◌, [], false, IsTrue, List, None, length};
ghost use Rattle.arrayvec.specs.ArrayVec.{array_vec_len};
ghost use Rattle.rtrb.specs.Ring.{ProducerLooked, SameConsumer, known_free, known_items, received};
ghost use Rattle.warp_record.specs.declared.line.Line.{Line};
ghost use Rattle.warp_replica.specs.Answered.{EndsBatch, facts_of};
ghost use Rattle.warp_lanes.specs.Engine.{AnswersLine, AreAnswered, VisitsLane};
ghost use Rattle.warp_lanes.specs.Lanes.{places};
ghost use Rattle.warp_lanes.specs.Publish.{HasNews, IsAhead, IsOnceEnough, IsShown, KeepsBoard, MayFollow};
ghost use Rattle.warp_lanes.specs.Publish.{PublishesLog};
ghost use Rattle.warp_replica.specs.declared.answer.Answer.{Answer};
ghost use Rattle.warp_lanes.specs.declared.turn.Turn.{Turn};

use crate::answer::AnswerRule;
use crate::executor_end::Lane;
use crate::making::LANE_PLACES;
use crate::publish::{news, publish_settled, rows_before, shows_all, tag_of};
use crate::settling::Settler;
use crate::turn::Turn;
use arrayvec::ArrayVec;
use rtrb::{Consumer, Producer};
use std::alloc::Global;
use warp_board::{Board, Writer};
use warp_line::Timeline;
use warp_record::Line;
use warp_replica::{Answer, Replica};
use warp_tag::Tag;

/// The answers of a visit, before they are sent.
pub(crate) type Unsent = ArrayVec<Answer, LANE_PLACES>;

/// Answers the commands that wait, at most as many as there are places for answers and as `most`, settles, publishes
/// where that leaves the replica settled, and sends the answers. It ends before a command in front of which the board
/// would have to show what is released, so that publishing once leaves what publishing behind each command would. Of the
/// board's rows the first `known_rows` are known to begin what is released, while it is not frozen.
pub(crate) fn visit<T: Timeline, S: Settler<T>>(
    lane: &mut Lane,
    replica: &mut Replica<T>,
    alloc: Global,
    writer: &mut Writer,
    known_rows: &mut usize,
    board: &Board,
    unsent: &mut Unsent,
    most: usize,
    settler: &mut S,
) -> Turn
    requires some { 0 < most }
    requires board { writer.old.board ≡ board.now }
    requires kept { KeepsBoard replica.old.program replica.old.records writer.old known_rows.old }
    ensures visits { VisitsLane (facts_of T.settled T.refused T.floor T.SLACK)
        replica.old lane.old writer.old result replica.new lane.new writer.new }
    ensures first { length lane.old.answers < places → result ≢ Turn.Stalled }
    ensures kept { KeepsBoard replica.new.program replica.new.records writer.new known_rows.new }
{
    if lane.answers.is_full() {
        return Turn::Stalled;
    }
    if !lane.last.is_empty() {
        // It was drained: its port has ended.
        return Turn::Empty;
    }
    if lane.commands.is_empty() {
        return Turn::Empty;
    }
    let count = count_for(&lane.commands, &mut lane.answers, most);
    unsent.clear();
    answer_first(
        &mut lane.commands,
        count,
        replica,
        alloc,
        writer,
        known_rows,
        board,
        unsent,
    );
    show(replica, alloc, writer, known_rows, board, settler);
    let _sent = lane.answers.push_entire_slice(unsent.as_slice());
    Turn::Served
}

/// How many of the commands that are known to be there can be answered, at most so many: the other end is asked for more
/// places only where too few are known.
fn count_for(
    commands: &Consumer<Line, Global>,
    answers: &mut Producer<Answer, Global, AnswerRule>,
    most: usize,
) -> usize
    requires some { 0 < most }
    requires there { 0 < length (known_items commands.now) }
    requires free { 0 < known_free answers.old }
    ensures looked { ProducerLooked answers.old answers.new }
    ensures some { 0 < result }
    ensures there { result ≤ length (known_items commands.now) }
    ensures free { result ≤ known_free answers.new }
    ensures most { result ≤ places }
{
    let waiting = commands.cached_slots().min(LANE_PLACES).min(most);
    let known = answers.cached_slots();
    if waiting <= known {
        return waiting;
    }
    waiting.min(answers.slots())
}

/// Gives the replica the first of the commands that are known to be there, one at least and at most so many, and keeps
/// their answers: as many as publishing once is enough for.
fn answer_first<T: Timeline>(
    commands: &mut Consumer<Line, Global>,
    count: usize,
    replica: &mut Replica<T>,
    alloc: Global,
    writer: &Writer,
    known_rows: &mut usize,
    board: &Board,
    unsent: &mut Unsent,
)
    requires some { 0 < count }
    requires there { count ≤ length (known_items commands.old) }
    requires most { count ≤ places }
    requires empty { unsent.old.items ≡ [] }
    requires board { writer.now.board ≡ board.now }
    requires kept { KeepsBoard replica.old.program replica.old.records writer.now known_rows.old }
    ensures ring { SameConsumer commands.old commands.new }
    ensures made { (lines : List Line) × (received commands.new ≡ received commands.old ++ lines)
        × AreAnswered (AnswersLine (facts_of T.settled T.refused T.floor T.SLACK))
        replica.old lines unsent.new.items replica.new }
    ensures some { 0 < length unsent.new.items }
    ensures most { length unsent.new.items ≤ count }
    ensures once { IsOnceEnough replica.new.program replica.new.records unsent.new.items writer.now }
    ensures kept { KeepsBoard replica.new.program replica.new.records writer.now known_rows.new }
{
    // Whether the board is known to show all that is released.
    let mut is_shown = false;
    'lines: while goes_on(
        commands,
        count,
        replica,
        writer,
        *known_rows,
        board,
        unsent,
        &mut is_shown,
    ) {
        // A program has an origin, and each record is in its log once.
        replica.program().valid();
        replica.valid();
        let news = answer_next(commands, replica, alloc, unsent);
        is_shown = stays_shown(is_shown, &news);
        *known_rows = rows_before(writer.rows(), *known_rows, news);
    }
}

/// Whether one more command is to be answered: the first; or another one of at most so many, that may follow.
fn goes_on<T: Timeline>(
    commands: &Consumer<Line, Global>,
    count: usize,
    replica: &Replica<T>,
    writer: &Writer,
    known_rows: usize,
    board: &Board,
    unsent: &Unsent,
    is_shown: &mut bool,
) -> bool
    requires some { 0 < count }
    requires most { array_vec_len unsent.now ≤ count }
    requires there { count ≤ array_vec_len unsent.now + length (known_items commands.now) }
    requires board { writer.now.board ≡ board.now }
    requires kept { KeepsBoard replica.now.program replica.now.records writer.now known_rows }
    requires shown { IsTrue is_shown.old → IsShown replica.now.program replica.now.records writer.now }
    ensures shown { IsTrue is_shown.new → IsShown replica.now.program replica.now.records writer.now }
    ensures more { IsTrue result → array_vec_len unsent.now < count }
    ensures follows { IsTrue result → (unsent.now.items ≡ []) ⊎ ((next : Line) × (rest : List Line)
        × (known_items commands.now ≡ next ∷ rest)
        × MayFollow replica.now.program replica.now.records next writer.now) }
    ensures some { result ≡ false → 0 < array_vec_len unsent.now }
{
    if unsent.is_empty() {
        return true;
    }
    if unsent.len() == count {
        return false;
    }
    may_follow(
        commands.peek_known(),
        replica,
        writer,
        known_rows,
        board,
        is_shown,
    )
}

/// Whether what is released need not be published before the next line is answered: the board shows it, or is frozen;
/// or its rows begin it, and it begins what the line leaves.
fn may_follow<T: Timeline>(
    line: &Line,
    replica: &Replica<T>,
    writer: &Writer,
    known_rows: usize,
    board: &Board,
    is_shown: &mut bool,
) -> bool
    requires board { writer.now.board ≡ board.now }
    requires kept { KeepsBoard replica.now.program replica.now.records writer.now known_rows }
    requires shown { IsTrue is_shown.old → IsShown replica.now.program replica.now.records writer.now }
    ensures shown { IsTrue is_shown.new → IsShown replica.now.program replica.now.records writer.now }
    ensures follows { IsTrue result → MayFollow replica.now.program replica.now.records line.now writer.now }
{
    if writer.is_frozen() {
        return true;
    }
    if *is_shown {
        return true;
    }
    if known_rows < writer.rows().len() {
        return false;
    }
    if !comes_behind(line, replica) {
        return true;
    }
    *is_shown = shows_all(replica, writer, known_rows, board);
    *is_shown
}

/// Whether a board that showed all still does: nothing came in.
fn stays_shown(is_shown: bool, news: &Option<Tag>) -> bool
    ensures { IsTrue result → IsTrue is_shown × (news.now ≡ None) }
{
    is_shown && news.is_none()
}

/// Whether the line has a record with a tag before the horizon.
fn comes_behind<T: Timeline>(line: &Line, replica: &Replica<T>) -> bool
    ensures { result ≡ false → IsAhead replica.now.program replica.now.records line.now }
{
    match *line {
        Line::Put(record) => replica.is_before_horizon(record.origin(), tag_of(&record)),
        _ => false,
    }
}

/// Gives the replica the next command, among others, and keeps its answer. The tag is that of the record that came in,
/// if one did.
fn answer_next<T: Timeline>(
    commands: &mut Consumer<Line, Global>,
    replica: &mut Replica<T>,
    alloc: Global,
    unsent: &mut Unsent,
) -> Option<Tag>
    requires there { 0 < length (known_items commands.old) }
    requires room { array_vec_len unsent.old < places }
    ensures ring { SameConsumer commands.old commands.new }
    ensures made { (said : Line) × (answer : Answer)
        × (received commands.new ≡ received commands.old ++ said ∷ [])
        × (known_items commands.old ≡ said ∷ known_items commands.new)
        × AnswersLine (facts_of T.settled T.refused T.floor T.SLACK) replica.old said answer replica.new
        × (unsent.new.items ≡ unsent.old.items ++ answer ∷ []) }
    ensures news { HasNews replica.old.program replica.old.records result replica.new.records }
{
    let line = commands.pop_known();
    let reply = replica.ask_in_batch(alloc, line);
    let len = replica.len();
    unsent.push(Answer { len, reply });
    news(&line, &reply)
}

/// Settles, and publishes where that leaves the replica settled.
fn show<T: Timeline, S: Settler<T>>(
    replica: &mut Replica<T>,
    alloc: Global,
    writer: &mut Writer,
    known_rows: &mut usize,
    board: &Board,
    settler: &mut S,
)
    requires board { writer.old.board ≡ board.now }
    requires kept { KeepsBoard replica.old.program replica.old.records writer.old known_rows.old }
    ensures ends { EndsBatch (facts_of T.settled T.refused T.floor T.SLACK) replica.old replica.new }
    ensures published { IsTrue (T.settled replica.new.timeline) →
        PublishesLog replica.new.program replica.new.records writer.old writer.new }
    ensures unsettled { T.settled replica.new.timeline ≡ false → writer.new ≡ writer.old }
    ensures kept { KeepsBoard replica.new.program replica.new.records writer.new known_rows.new }
{
    let Ok(()) = settler.settle(alloc, replica) else {
        return;
    };
    publish_settled(replica, writer, known_rows, board);
}
