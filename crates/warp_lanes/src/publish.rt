//! Publishing released outputs on a board.
ghost use Rattle.std.specs.Prelude.{◌≡◌, ◌↔◌, ◌<◌, ◌≤◌};
ghost use Rattle.std.specs.Prelude.{All, IfNone, IfSome, IsTrue, List, drop, false, length, min, take, true};
ghost use Rattle.std.specs.List.Sorted.{IsPartitionPoint, IsPartitionedBy};
ghost use Rattle.warp_tag.specs.Limits.{most_outputs, widest};
ghost use Rattle.warp_tag.specs.Moment.{is_before};
ghost use Rattle.warp_tag.specs.Lists.{StartsWith};
ghost use Rattle.warp_tag.specs.declared.out.Out.{Out};
ghost use Rattle.warp_table.specs.Records.{set_of};
ghost use Rattle.warp_board.specs.Board.{room_of};
ghost use Rattle.warp_replica.specs.Answers.{IsReleased};
ghost use Rattle.warp_replica.specs.Gives.{tag_of};
ghost use Rattle.warp_lanes.specs.Publish.{IsShown, KeepsBoard, Publishes, news_of};

use warp_board::{Board, Writer};
use warp_line::Timeline;
use warp_record::{Line, Record, Reply};
use warp_replica::Replica;
use warp_tag::{Out, Tag};

/// What publishing came to.
#[derive(Clone, Copy, Debug, PartialEq, Eq)]
pub enum Published {
    /// So many of the released outputs stand on the board: all, or as many as it has room for.
    Rows(usize),
    /// The board is frozen, for good.
    Frozen,
}

/// Publishes what a settled replica releases. Of the board's rows the first `known_rows` are known to begin that, while
/// it is not frozen; then all are.
pub(crate) fn publish_settled<T: Timeline>(
    replica: &Replica<T>,
    writer: &mut Writer,
    known_rows: &mut usize,
    board: &Board,
) -> Published
    requires settled { IsTrue (T.settled replica.now.timeline) }
    requires board { writer.old.board ≡ board.now }
    requires kept { KeepsBoard replica.now.program replica.now.records writer.old known_rows.old }
    ensures published { (released : List Out)
        × IsReleased replica.now.program (set_of replica.now.records) released
        × Publishes released writer.old result writer.new }
    ensures kept { KeepsBoard replica.now.program replica.now.records writer.new known_rows.new }
{
    let released = replica.released();
    let published = publish(released, *known_rows, writer, board);
    *known_rows = writer.rows().len();
    published
}

/// Whether the board is full, or the replica is settled and all that it releases stands there, so that publishing would
/// change nothing. All rows are known to begin what is released, and it is not frozen.
pub(crate) fn shows_all<T: Timeline>(
    replica: &Replica<T>,
    writer: &Writer,
    known_rows: usize,
    board: &Board,
) -> bool
    requires board { writer.now.board ≡ board.now }
    requires live { writer.now.frozen ≡ false }
    requires all { length writer.now.rows ≤ known_rows }
    requires kept { KeepsBoard replica.now.program replica.now.records writer.now known_rows }
    ensures { IsTrue result → IsShown replica.now.program replica.now.records writer.now }
{
    // A program has an origin, and each record is in its log once.
    replica.program().valid();
    replica.valid();
    let count = writer.rows().len();
    if count == board.room() {
        return true;
    }
    if !replica.is_settled() {
        return false;
    }
    replica.released().len() == count
}

/// Appends the released outputs that are missing, as many as the board has room for; or freezes it, where its rows do
/// not begin them. That the first `known_rows` do is known, and they are not looked at.
fn publish(released: &[Out], known_rows: usize, writer: &mut Writer, board: &Board) -> Published
    requires board { writer.old.board ≡ board.now }
    requires ports { All (λ out. out.port < most_outputs widest) released.now }
    requires within { known_rows ≤ length writer.old.rows }
    requires known { writer.old.frozen ≡ false → StartsWith released.now (take known_rows writer.old.rows) }
    ensures { Publishes released.now writer.old result writer.new }
{
    if writer.is_frozen() {
        return Published::Frozen;
    }
    if !begins(released, writer.rows(), known_rows) {
        writer.freeze(board);
        return Published::Frozen;
    }
    append_missing(released, writer, board);
    Published::Rows(writer.rows().len())
}

/// Whether the rows begin the list, as the first `known_rows` of them do.
fn begins(released: &[Out], rows: &[Out], known_rows: usize) -> bool
    requires within { known_rows ≤ length rows.now }
    requires known { StartsWith released.now (take known_rows rows.now) }
    ensures { IsTrue result ↔ StartsWith released.now rows.now }
{
    let missing = behind(released, known_rows);
    let unknown = behind(rows, known_rows);
    missing.starts_with(unknown)
}

/// What stands behind so many of the list.
fn behind(list: &[Out], count: usize) -> &[Out]
    requires { count ≤ length list.now }
    ensures { result.now ≡ drop count list.now }
{
    &list[count..]
}

/// Appends what is missing of the list that the rows begin, up to the board's room.
fn append_missing(released: &[Out], writer: &mut Writer, board: &Board)
    requires board { writer.old.board ≡ board.now }
    requires ports { All (λ out. out.port < most_outputs widest) released.now }
    requires begins { StartsWith released.now writer.old.rows }
    ensures { writer.new
        ≡ record writer.old { rows = take (min (length released.now) (room_of board.now)) released.now } }
{
    let mut count = writer.rows().len();
    while count < released.len() {
        if writer.append(board, released[count]).is_err() {
            break;
        }
        count += 1;
    }
}

/// How many of the first `known_rows` stand before the tag of a record that came in, if one did.
pub(crate) fn rows_before(rows: &[Out], known_rows: usize, news: Option<Tag>) -> usize
    requires { known_rows ≤ length rows.now }
    ensures within { result ≤ known_rows }
    ensures none { IfNone news (result ≡ known_rows) }
    ensures before { IfSome news
        (λ tag. IsPartitionedBy (λ row. is_before row.tag tag) (take known_rows rows.now) →
        IsPartitionPoint (λ row. is_before row.tag tag ≡ true) (λ row. is_before row.tag tag ≡ false)
        (take known_rows rows.now) result) }
{
    let Some(tag) = news else {
        return known_rows;
    };
    let known = first_of(rows, known_rows);
    known.partition_point(|row| row.tag.is_before(tag))
}

/// The first so many of the list.
fn first_of(list: &[Out], count: usize) -> &[Out]
    requires { count ≤ length list.now }
    ensures { result.now ≡ take count list.now }
{
    &list[..count]
}

/// The tag of the line's record, where it was answered `taken`.
pub(crate) fn news(line: &Line, reply: &Reply) -> Option<Tag>
    ensures { result ≡ news_of line.now reply.now }
{
    match *line {
        Line::Put(record) => match *reply {
            Reply::Taken(_) => Some(tag_of(&record)),
            _ => None,
        },
        _ => None,
    }
}

/// The tag of a record.
pub(crate) fn tag_of(record: &Record) -> Tag
    ensures { result ≡ tag_of «record».now }
{
    match *record {
        Record::Event { tag, .. } => tag,
        Record::Withdraw { tag, .. } => tag,
        Record::Announce { tag, .. } => tag,
        Record::Joint { tag, .. } => tag,
    }
}
