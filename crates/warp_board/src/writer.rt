//! The one writer of a board.
ghost use Rattle.std.specs.Prelude.{◌≡◌, ◌<◌, ◌≤◌, ◌++◌, [], ◌∷◌, true, IsOk, IsErr, OnOk, OnErr, ◌↔◌, length};
ghost use Rattle.warp_tag.specs.Limits.{most_outputs, widest};
ghost use Rattle.warp_tag.specs.Lists.{StartsWith};
ghost use Rattle.warp_board.specs.Board.{room_of};
ghost use Rattle.warp_board.specs.Notes.{at_rest};

use crate::reader::Reader;
use crate::rule::{Copies, LoadCount, StoreCount, StoreFlag, StoreWord, TakesIn};
use crate::shared::{Board, Seat};
use crate::spell::spell_row;
use std::marker::Model;
use std::mem;
use warp_tag::{Out, OutOfMemory};

/// The board has no room for another row.
#[derive(Clone, Copy, Debug, PartialEq, Eq)]
pub struct Full;

/// The one writer of a board, with a copy of its rows. Contracts see it as the board, all its rows, and the flag.
#[derive(Drop)]
pub struct Writer {
    pub(crate) rows: Vec<Out>,
    pub(crate) frozen: bool,
    pub(crate) seat: Seat,
}

impl Model for Writer {
    ghost use Rattle.warp_board.specs.Board.{WriterState, room_of};
    ghost use Rattle.warp_board.specs.Notes.{at_rest};
    ghost use Rattle.std.specs.Prelude.{◌≡◌, ◌≤◌, [], true, length};
    ghost use Rattle.std.specs.Vec.{vec_capacity};

    ghost Value = { WriterState };

    ghost view = { λ w. record { board = w.seat.table_id; rows = w.rows.items; frozen = w.frozen } };

    // The copy is what its seat knows, which is all, and there is room in it for every row of the board.
    ghost invariant = { λ w.
        (w.seat.me ≡ (at_rest true (room_of w.seat.table_id) w.rows.items w.frozen, []))
        × (length w.rows.items ≤ room_of w.seat.table_id)
        × (room_of w.seat.table_id ≤ vec_capacity w.rows) };
}

impl Writer {
    /// Appends the row, whose port is 0 to 255; `Full`, with nothing changed, exactly where the board has no room left.
    pub fn append(&mut self, board: &Board, row: Out) -> Result<(), Full>
        requires board { self.old.board ≡ board.now }
        requires port { row.port < most_outputs widest }
        ensures ok { OnOk result (self.new ≡ record self.old { rows = self.old.rows ++ row ∷ [] }) }
        ensures err { OnErr result (self.new ≡ self.old) }
        ensures full { IsErr result ↔ (length self.old.rows ≡ room_of board.now) }
    {
        let count = self.rows.len();
        if count == board.room() {
            return Err(Full);
        }
        store_row(board, &mut self.seat, count, &row);
        self.rows.push_reserved(row);
        Ok(())
    }

    /// Raises the flag, for good.
    pub fn freeze(&mut self, board: &Board)
        requires { self.old.board ≡ board.now }
        ensures { self.new ≡ record self.old { frozen = true } }
    {
        board.table.shared.store::<StoreFlag>(&mut self.seat, 1, 1);
        self.frozen = true;
    }

    /// All rows of the board, in their order: at most as many as it has room for.
    pub fn rows(&self) -> &[Out]
        ensures rows { result.now ≡ self.now.rows }
        ensures room { length result.now ≤ room_of self.now.board }
    {
        self.rows.as_slice()
    }

    /// Whether the flag is up.
    pub fn is_frozen(&self) -> bool
        ensures { result ≡ self.now.frozen }
    {
        self.frozen
    }
}

// Stores the words of the row behind the others, and then the count, which makes it one of them.
fn store_row(board: &Board, seat: &mut Seat, count: usize, row: &Out)
    requires board { seat.old.table_id ≡ board.now }
    requires rest { let notes = seat.old.me.0 in
        seat.old.me ≡ (at_rest true (room_of board.now) notes.rows notes.frozen, []) }
    requires count { count ≡ length seat.old.me.0.rows }
    requires room { count < room_of board.now }
    requires port { row.now.port < most_outputs widest }
    ensures board { seat.new.table_id ≡ board.now }
    ensures row { let notes = seat.old.me.0 in
        seat.new.me ≡ (at_rest true (room_of board.now) (notes.rows ++ row.now ∷ []) notes.frozen, []) }
{
    let shared = &board.table.shared;
    let place = 2 + 2 * count;
    let (first, second) = spell_row(*row);
    shared.store::<StoreWord>(seat, place, first);
    shared.store::<StoreWord>(seat, place + 1, second);
    shared.store::<StoreCount>(seat, 0, count as u64 + 1);
}

/// Ties what the reader has read to the writer's rows: all of it is so, and from now on the reader knows what the
/// writer does. `Err` is for want of memory, and never comes.
pub fn meet(board: &Board, writer: &mut Writer, reader: &mut Reader) -> Result<(), OutOfMemory>
    requires writer { writer.old.board ≡ board.now }
    requires reader { reader.old.board ≡ board.now }
    ensures ok { IsOk result }
    ensures writer { writer.new ≡ writer.old }
    ensures reader { reader.new
        ≡ record { board = board.now; rows = writer.old.rows; frozen = writer.old.frozen } }
    ensures rows { StartsWith writer.old.rows reader.old.rows }
    ensures frozen { reader.old.frozen ≡ true → writer.old.frozen ≡ true }
{
    let shared = &board.table.shared;
    let copy = shared.split_seat::<Copies>(&mut writer.seat);
    let before = mem::replace(&mut reader.seat, copy);
    shared.join_seat::<TakesIn>(&mut writer.seat, before);
    shared.load::<LoadCount>(&mut writer.seat, 0);
    reader.count = writer.rows.len() as u64;
    Ok(())
}
