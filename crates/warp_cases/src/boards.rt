//! A board of two rows, with its writer and its readers. Each call but the making of boards takes no memory. And boards
//! with room for as many rows as a form allows, which are filled.
ghost use Rattle.std.specs.Prelude.{◌≡◌, ◌<◌};
ghost use Rattle.warp_tag.specs.Limits.{most_outputs, widest};

use crate::lines::{form_of, number_of, tag_of};
use crate::mark::{begin, end};
use crate::transcript::{NO_MEMORY, Transcript, outcome};
use std::alloc::Global;
use warp_board::{Board, Reader, Writer, board, join_readers, meet, split_reader};
use warp_tag::{Out, Tag};

/// How many rows the board has room for.
const ROOM: usize = 2;

/// A row's tag and value.
type Row = (&'static str, i64);

const FIRST: Row = ("2 1", -5);

const SECOND: Row = ("5 0", 3);

/// One more than there is room for.
const THIRD: Row = ("6 0", 9);

/// More rows than any board has room for.
const MANY: u32 = 2_000_000;

/// Fills a board with room for as many rows as programs of this version allow, and tells how many it took, how many
/// there are, and the row of each line.
pub(crate) fn fill(alloc: Global, out: &mut Transcript, version: &str, lines: &str) {
    let Some(form) = form_of(version) else {
        return out.fail("no version");
    };
    match board(alloc, form.most_rows() as usize) {
        Ok((board, writer, reader)) => fill_all(out, &board, writer, reader, lines),
        Err(_) => out.fail(NO_MEMORY),
    }
}

/// Fills this board, and tells the same.
fn fill_all(
    out: &mut Transcript,
    board: &Board,
    mut writer: Writer,
    mut reader: Reader,
    lines: &str,
)
    requires writer { writer.board ≡ board.now }
    requires reader { reader.board ≡ board.now }
{
    out.say(format_args!("{} appended", append_all(board, &mut writer)));
    out.say(format_args!("{} rows", reader.count(board)));
    for line in lines.lines() {
        say_row_of(out, board, &mut reader, line);
    }
}

/// Appends rows until there is no room for one more; how many there were. The port of each is 3, its time is its place,
/// and its value what is left of 100 from there.
fn append_all(board: &Board, writer: &mut Writer) -> u32
    requires { writer.old.board ≡ board.now }
{
    for number in 0..MANY {
        let Some(tag) = Tag::new(u64::from(number), 1) else {
            return 0;
        };
        let row = Out {
            tag,
            port: 3,
            value: 100 - i64::from(number),
        };
        if writer.append(board, row).is_err() {
            return number;
        }
    }
    MANY
}

/// Tells the row of this number.
fn say_row_of(out: &mut Transcript, board: &Board, reader: &mut Reader, line: &str)
    requires { reader.old.board ≡ board.now }
    ensures { reader.new.board ≡ board.now }
{
    match number_of(line) {
        Some(number) => say_row(out, reader.row(board, u64::from(number))),
        None => out.fail("no number"),
    }
}

/// Makes boards, and then all calls over one.
pub(crate) fn perform(alloc: Global, out: &mut Transcript) {
    make_board(alloc, out);
    make_board(alloc, out);
    match board(alloc, ROOM) {
        Ok((board, writer, reader)) => split(alloc, out, &board, writer, reader),
        Err(_) => out.fail(NO_MEMORY),
    }
}

/// Makes a board.
fn make_board(alloc: Global, out: &mut Transcript) {
    begin(alloc);
    let made = board(alloc, ROOM);
    end(alloc);
    out.say(outcome(made.is_ok()));
}

/// Splits the reader, and makes the further calls.
fn split(alloc: Global, out: &mut Transcript, board: &Board, writer: Writer, reader: Reader)
    requires writer { writer.board ≡ board.now }
    requires reader { reader.board ≡ board.now }
{
    begin(alloc);
    let halves = split_reader(board, reader);
    end(alloc);
    match halves {
        Ok((one, other)) => {
            out.say("split");
            use_all(alloc, out, board, writer, one, other);
        }
        Err(_) => out.say("the reader came back"),
    }
}

/// Appends and freezes by the writer, looks at the board by a reader, and brings all ends together.
fn use_all(
    alloc: Global,
    out: &mut Transcript,
    board: &Board,
    mut writer: Writer,
    mut one: Reader,
    other: Reader,
)
    requires writer { writer.board ≡ board.now }
    requires one { one.board ≡ board.now }
    requires other { other.board ≡ board.now }
{
    look(alloc, out, board, &mut one);
    append_one(alloc, out, board, &mut writer, &mut one, FIRST);
    append_one(alloc, out, board, &mut writer, &mut one, SECOND);
    append_one(alloc, out, board, &mut writer, &mut one, THIRD);
    freeze(alloc, out, board, &mut writer, &mut one);
    join(alloc, out, board, writer, one, other);
}

/// Appends a row, and looks at the board.
fn append_one(
    alloc: Global,
    out: &mut Transcript,
    board: &Board,
    writer: &mut Writer,
    reader: &mut Reader,
    row: Row,
)
    requires writer { writer.old.board ≡ board.now }
    requires reader { reader.old.board ≡ board.now }
    ensures writer { writer.new.board ≡ board.now }
    ensures reader { reader.new.board ≡ board.now }
{
    let Some(tag) = tag_of(row.0) else {
        return out.fail("no tag");
    };
    let row = Out {
        tag,
        port: 3,
        value: row.1,
    };
    append(alloc, out, board, writer, row);
    look(alloc, out, board, reader);
}

/// Appends a row.
fn append(alloc: Global, out: &mut Transcript, board: &Board, writer: &mut Writer, row: Out)
    requires board { writer.old.board ≡ board.now }
    requires port { row.port < most_outputs widest }
    ensures { writer.new.board ≡ board.now }
{
    begin(alloc);
    let appended = writer.append(board, row);
    end(alloc);
    match appended {
        Ok(()) => out.say("appended"),
        Err(_) => out.say("full"),
    }
}

/// Tells how many rows there are and whether the board is frozen, and then each row.
pub(crate) fn look(alloc: Global, out: &mut Transcript, board: &Board, reader: &mut Reader)
    requires { reader.old.board ≡ board.now }
    ensures { reader.new.board ≡ board.now }
{
    begin(alloc);
    let count = reader.count(board);
    let frozen = reader.frozen(board);
    let first = reader.row(board, 0);
    let second = reader.row(board, 1);
    end(alloc);
    out.say(format_args!("{count} rows, frozen {frozen}"));
    say_row(out, first);
    say_row(out, second);
}

/// Tells a row.
fn say_row(out: &mut Transcript, row: Option<Out>) {
    match row {
        Some(Out { tag, port, value }) => {
            out.say(format_args!("{} {} {port} {value}", tag.time(), tag.micro()));
        }
        None => out.say("no row"),
    }
}

/// Freezes the board, and looks at it.
fn freeze(
    alloc: Global,
    out: &mut Transcript,
    board: &Board,
    writer: &mut Writer,
    reader: &mut Reader,
)
    requires writer { writer.old.board ≡ board.now }
    requires reader { reader.old.board ≡ board.now }
    ensures writer { writer.new.board ≡ board.now }
    ensures reader { reader.new.board ≡ board.now }
{
    begin(alloc);
    writer.freeze(board);
    end(alloc);
    look(alloc, out, board, reader);
}

/// Lets a reader that saw nothing meet the writer, and joins it with the one that saw all.
fn join(
    alloc: Global,
    out: &mut Transcript,
    board: &Board,
    mut writer: Writer,
    one: Reader,
    mut other: Reader,
)
    requires writer { writer.board ≡ board.now }
    requires one { one.board ≡ board.now }
    requires other { other.board ≡ board.now }
{
    begin(alloc);
    let met = meet(board, &mut writer, &mut other);
    let mut joined = join_readers(board, one, other);
    end(alloc);
    out.say(outcome(met.is_ok()));
    let (count, frozen) = (writer.rows().len(), writer.is_frozen());
    out.say(format_args!("{count} rows, frozen {frozen}"));
    look(alloc, out, board, &mut joined);
}
