//! Spelled rows, a full board, and a writer that two readers follow from threads of their own.
ghost use Rattle.std.specs.Prelude.{◌≡◌, ◌<◌, IfSome};
ghost use Rattle.warp_tag.specs.Limits.{most_outputs, widest};

use crate::{
    Board, Full, PORTS, Reader, Writer, board, join_readers, meet, read_row, spell_row,
    split_reader,
};
use std::test::Fail;
use std::thread;
use std::thread::Threads;
use std::time::{Clock, Duration};
use warp_tag::{Out, Tag};

fn out(time: u64, micro: u32, port: u32, value: i64) -> Option<Out>
    requires { port < PORTS }
    ensures { IfSome result (λ row. row.port < most_outputs widest) }
{
    let tag = Tag::new(time, micro)?;
    Some(Out { tag, port, value })
}

#[test]
fn spells_and_reads_rows(rt: HostRuntime) -> Result<(), Fail> {
    let rows = [
        (out(2, 1, 3, -5), (131_331, 18_446_744_073_709_551_611)),
        (out(5, 0, 0, 3), (327_680, 3)),
        (out(5, 255, 255, 3), (393_215, 3)),
        (out(10_000_001, 255, 0, 3), (655_360_130_816, 3)),
        (out(15_625_000, 255, 0, 3), (1_024_000_065_280, 3)),
    ];
    for (row, words) in rows {
        let row = row.ok_or("no tag")?;
        assert_eq!(rt; read_row(words.0, words.1), Some(row));
    }
    let first = out(2, 1, 3, -5).ok_or("no tag")?;
    assert_eq!(rt; spell_row(first), (131_331, 18_446_744_073_709_551_611));
    let second = out(5, 0, 0, 3).ok_or("no tag")?;
    assert_eq!(rt; spell_row(second), (327_680, 3));
    // Times past the last.
    for word in [1_024_000_065_536, 1_024_000_131_072] {
        assert_eq!(rt; read_row(word, 3), None, "at {word}");
    }
    Ok(())
}

#[test]
fn a_board_of_one_row_is_full(rt: HostRuntime) -> Result<(), Fail> {
    let (board, mut writer, mut reader) = board(rt.alloc(), 1)?;
    let row = out(5, 0, 0, 3).ok_or("no tag")?;
    assert_eq!(rt; writer.append(&board, row), Ok(()));
    assert_eq!(rt; reader.row(&board, 0), None);
    assert_eq!(rt; reader.count(&board), 1);
    assert_eq!(rt; reader.row(&board, 0), Some(row));
    assert_eq!(rt; reader.row(&board, 1), None);
    assert_eq!(rt; writer.append(&board, row), Err(Full));
    assert_eq!(rt; reader.count(&board), 1);
    assert_eq!(rt; writer.rows().len(), 1);
    assert!(rt; !reader.frozen(&board) && !writer.is_frozen());
    writer.freeze(&board);
    assert!(rt; reader.frozen(&board) && writer.is_frozen());
    assert_eq!(rt; reader.row(&board, 0), Some(row));
    Ok(())
}

const ROWS: u64 = 1000;

// The row that the writer of the test below puts at this place.
fn row_at(place: u64) -> Option<Out>
    ensures { IfSome result (λ row. row.port < most_outputs widest) }
{
    out(
        place,
        (place % 16) as u32,
        (place % 64) as u32,
        500 - (place % ROWS) as i64,
    )
}

// Appends the rows, with a pause after every hundred, and freezes the board.
fn fill<R: Clock>(rt: &R, board: &Board, mut writer: Writer) -> Writer
    requires { writer.board ≡ board.now }
    ensures { result.board ≡ board.now }
{
    for place in 0..ROWS {
        if let Some(row) = row_at(place) {
            let _ = writer.append(board, row);
        }
        if place % 100 == 99 {
            thread::sleep(rt, Duration::from_millis(1));
        }
    }
    writer.freeze(board);
    writer
}

// Whether each of these rows is the one for its place.
fn has_rows(board: &Board, reader: &mut Reader, from: u64, to: u64) -> bool
    requires { reader.old.board ≡ board.now }
    ensures { reader.new.board ≡ board.now }
{
    for place in from..to {
        if reader.row(board, place) != row_at(place) {
            return false;
        }
    }
    true
}

// Follows the board until all rows were seen, or gives up after 10,000 turns of a millisecond; whether all were seen,
// each the one for its place.
fn follow<R: Clock>(rt: &R, board: &Board, mut reader: Reader) -> (Reader, bool)
    requires { reader.board ≡ board.now }
    ensures { result.0.board ≡ board.now }
{
    let mut seen = 0;
    let mut is_right = true;
    for _turn in 0..10_000 {
        let count = reader.count(board);
        is_right = has_rows(board, &mut reader, seen, count) && is_right;
        seen = count;
        if seen == ROWS {
            break;
        }
        thread::sleep(rt, Duration::from_millis(1));
    }
    (reader, is_right && seen == ROWS)
}

// Two readers follow the board, each in a thread of its own.
fn follow_both<R: Threads + Clock + Sync>(
    rt: &R,
    board: &Board,
    left: Reader,
    right: Reader,
) -> ((Reader, bool), (Reader, bool))
    requires left { left.board ≡ board.now }
    requires right { right.board ≡ board.now }
    ensures left { result.0.0.board ≡ board.now }
    ensures right { result.1.0.board ≡ board.now }
{
    thread::join(
        rt,
        move || follow(rt, board, left),
        move || follow(rt, board, right),
    )
}

#[test]
fn two_readers_follow_a_writer(rt: HostRuntime) -> Result<(), Fail> {
    let (board, writer, reader) = board(rt.alloc(), ROWS as usize)?;
    let Ok((left, right)) = split_reader(&board, reader) else {
        return Err(Fail::from("no memory"));
    };
    let board = &board;
    let (mut writer, (left, right)) = thread::join(
        &rt,
        move || fill(&rt, board, writer),
        || follow_both(&rt, board, left, right),
    );
    assert!(rt; left.1 && right.1);
    let mut reader = join_readers(board, left.0, right.0);
    assert_eq!(rt; meet(board, &mut writer, &mut reader), Ok(()));
    assert_eq!(rt; reader.count(board), ROWS);
    assert!(rt; has_rows(board, &mut reader, 0, ROWS) && reader.frozen(board));
    assert_eq!(rt; reader.row(board, ROWS), None);
    assert_eq!(rt; writer.rows().len(), 1000);
    Ok(())
}
