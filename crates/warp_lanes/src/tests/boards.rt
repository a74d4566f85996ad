//! An engine's board: what is released is published, as far as there is room, until a late record freezes it.
ghost use Rattle.std.specs.Prelude.{◌≡◌, ◌≤◌, false, length};
ghost use Rattle.warp_tag.specs.Limits.{most_rows, widest};

use crate::tests::steps::{announcement, at, end, engine, engine_of_one, event, same, told};
use crate::{Engine, Port, Published, may_be_sent};
use std::alloc::Global;
use std::process::Abort;
use warp_board::{Board, Reader, board};
use warp_line::{Plain, Timeline};
use warp_record::{Line, Reply};
use warp_tag::Out;

/// Settles and publishes, with this outcome.
fn publish_once<T: Timeline>(
    rt: &impl Abort,
    alloc: Global,
    board: &Board,
    engine: &mut Engine<T>,
    published: Published,
)
    requires { engine.old.writer.board ≡ board.now }
    ensures { engine.new.writer.board ≡ board.now }
{
    engine.settle(alloc).expect(rt, "memory");
    same(rt, &engine.publish(board), &published);
}

/// Settles and publishes, two times, with the same outcome.
fn publish_twice<T: Timeline>(
    rt: &impl Abort,
    alloc: Global,
    board: &Board,
    engine: &mut Engine<T>,
    published: Published,
)
    requires { engine.old.writer.board ≡ board.now }
    ensures { engine.new.writer.board ≡ board.now }
{
    publish_once(rt, alloc, board, engine, published);
    publish_once(rt, alloc, board, engine, published);
}

/// The row at a place of the board has this time and value.
fn has_row(rt: &impl Abort, board: &Board, reader: &mut Reader, place: u64, row: (u64, i64))
    requires { reader.old.board ≡ board.now }
    ensures { reader.new.board ≡ board.now }
{
    let out = Out {
        tag: at(rt, row.0),
        port: 0,
        value: row.1,
    };
    same(rt, &reader.row(board, place), &Some(out));
}

/// The board has so many rows, and is frozen or not.
pub(crate) fn has_size(
    rt: &impl Abort,
    board: &Board,
    reader: &mut Reader,
    count: u64,
    is_frozen: bool,
)
    requires { reader.old.board ≡ board.now }
    ensures { reader.new.board ≡ board.now }
{
    same(rt, &reader.count(board), &count);
    same(rt, &reader.frozen(board), &is_frozen);
    same(rt, &reader.row(board, count), &None);
}

/// The board has these rows, the second only if it is to have two.
fn has_rows(rt: &impl Abort, board: &Board, reader: &mut Reader, count: u64, is_frozen: bool)
    requires { reader.old.board ≡ board.now }
    ensures { reader.new.board ≡ board.now }
{
    has_size(rt, board, reader, count, is_frozen);
    has_row(rt, board, reader, 0, (5, 3));
    if count > 1 {
        has_row(rt, board, reader, 1, (6, 9));
    }
}

/// The port sends a record, which is taken.
fn take<T: Timeline>(
    rt: &impl Abort,
    alloc: Global,
    engine: &mut Engine<T>,
    port: &mut Port,
    line: Line,
)
    ensures { engine.new.writer ≡ engine.old.writer }
{
    let reply = told(rt, alloc, engine, port, line);
    let is_taken = matches!(&reply, Reply::Taken(_));
    assert!(rt; is_taken);
}

/// Both origins announce what comes before time 10, and so many events of the first one come, at 5 and after.
fn take_announced<T: Timeline>(
    rt: &impl Abort,
    alloc: Global,
    engine: &mut Engine<T>,
    port: &mut Port,
    events: u32,
)
    ensures { engine.new.writer ≡ engine.old.writer }
{
    take(rt, alloc, engine, port, announcement(rt, 0, 10, events));
    take(rt, alloc, engine, port, announcement(rt, 1, 10, 0));
    for place in 0..events {
        take(
            rt,
            alloc,
            engine,
            port,
            event(rt, 0, 5 + u64::from(place), 3),
        );
    }
}

/// So many events are published on so many rows, until a late event comes.
fn publish_and_freeze<T: Timeline>(
    rt: &impl Abort,
    alloc: Global,
    board: &Board,
    reader: &mut Reader,
    engine: &mut Engine<T>,
    port: &mut Port,
    counts: (u32, usize),
)
    requires engine { engine.old.writer.board ≡ board.now }
    requires reader { reader.old.board ≡ board.now }
{
    let (events, rows) = counts;
    take_announced(rt, alloc, engine, port, events);
    publish_twice(rt, alloc, board, engine, Published::Rows(rows));
    has_rows(rt, board, reader, rows as u64, false);
    take(rt, alloc, engine, port, event(rt, 0, 1, 1));
    publish_twice(rt, alloc, board, engine, Published::Frozen);
    has_rows(rt, board, reader, rows as u64, true);
}

/// The same on a new board with room for so many rows.
fn publish_on<T: Timeline + Drop>(rt: &impl Abort, alloc: Global, room: usize, counts: (u32, usize))
    requires least { 1 ≤ room }
    requires most { room ≤ most_rows widest }
{
    let (board, writer, mut reader) = board(alloc, room).expect(rt, "memory");
    let (mut engine, mut port) = engine_of_one::<T>(rt, alloc, writer);
    publish_and_freeze(
        rt,
        alloc,
        &board,
        &mut reader,
        &mut engine,
        &mut port,
        counts,
    );
    end((engine, port));
    end((board, reader));
}

#[test]
fn a_late_event_freezes_the_board(rt: HostRuntime) {
    publish_on::<Plain>(&rt, rt.alloc(), 4, (1, 1));
}

#[test]
fn a_board_of_two_rows(rt: HostRuntime) {
    publish_on::<Plain>(&rt, rt.alloc(), 2, (3, 2));
}

/// An engine without lanes, which was sent to another thread, publishes nothing.
fn publish_nothing<T: Timeline + Send + Drop>(rt: &impl Abort, alloc: Global) {
    let (board, writer, reader) = board(alloc, 2).expect(rt, "memory");
    let mut engine = may_be_sent(engine::<T>(rt, alloc, Vec::new(alloc), writer));
    engine.valid();
    same(rt, &(engine.lane_count() + engine.began()), &0);
    publish_twice(rt, alloc, &board, &mut engine, Published::Rows(0));
    end(engine);
    end((board, reader));
}

#[test]
fn an_engine_without_lanes(rt: HostRuntime) {
    publish_nothing::<Plain>(&rt, rt.alloc());
}
