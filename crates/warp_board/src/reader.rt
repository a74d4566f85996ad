//! The readers of a board.
ghost use Rattle.std.specs.Prelude.{◌≡◌, ◌<◌, ◌≤◌, true, ◌||◌, ◌↔◌};
ghost use Rattle.std.specs.Prelude.{IfSome, IsNone, IsOk, MatchResult, slice_get, length};
ghost use Rattle.warp_tag.specs.Limits.{most_outputs, most_rows, widest};
ghost use Rattle.warp_tag.specs.Lists.{StartsWith};
ghost use Rattle.warp_board.specs.Board.{room_of};

use crate::rule::{Copies, LoadCount, LoadFlag, LoadWord, TakesIn};
use crate::shared::{Board, Seat};
use crate::spell::read_row;
use std::marker::Model;
use warp_tag::Out;

/// A reader of a board. What it has seen never changes. Contracts see it as the board, the rows below the count that it
/// knows, and whether it saw the flag up.
#[derive(Drop)]
pub struct Reader {
    pub(crate) count: u64,
    pub(crate) seat: Seat,
}

impl Model for Reader {
    ghost use Rattle.warp_board.specs.Board.{ReaderState, room_of};
    ghost use Rattle.warp_board.specs.Notes.{at_rest};
    ghost use Rattle.std.specs.Prelude.{◌≡◌, ◌≤◌, [], false, length};

    ghost Value = { ReaderState };

    ghost view = { λ r.
        record { board = r.seat.table_id; rows = r.seat.me.0.rows; frozen = r.seat.me.0.frozen } };

    ghost invariant = { λ r. let notes = r.seat.me.0 in
        (r.seat.me ≡ (at_rest false (room_of r.seat.table_id) notes.rows notes.frozen, []))
        × (r.count ≡ length notes.rows)
        × (r.count ≤ room_of r.seat.table_id) };
}

impl Reader {
    /// Loads how many rows there are, 0 to the board's room, which the reader knows from then on.
    pub fn count(&mut self, board: &Board) -> u64
        requires { self.old.board ≡ board.now }
        ensures count { result ≡ length self.new.rows }
        ensures rows { StartsWith self.new.rows self.old.rows }
        ensures least { length self.old.rows ≤ result }
        ensures most { result ≤ room_of board.now }
        ensures bound { result ≤ most_rows widest }
        ensures others { self.new ≡ record self.old { rows = self.new.rows } }
    {
        let count = board.table.shared.load::<LoadCount>(&mut self.seat, 0);
        self.count = count;
        count
    }

    /// Loads whether the board is frozen. Once it was, it is.
    pub fn frozen(&mut self, board: &Board) -> bool
        requires { self.old.board ≡ board.now }
        ensures frozen { result ≡ self.new.frozen }
        ensures stays { self.old.frozen ≡ true → result ≡ true }
        ensures others { self.new ≡ record self.old { frozen = self.new.frozen } }
    {
        board.table.shared.load::<LoadFlag>(&mut self.seat, 1) == 1
    }

    /// Row i, counted from 0; `None` exactly where i is not below the count that the reader knows. Its port is 0 to 255.
    pub fn row(&mut self, board: &Board, i: u64) -> Option<Out>
        requires { self.old.board ≡ board.now }
        ensures row { result ≡ slice_get self.old.rows i }
        ensures none { IsNone result ↔ (length self.old.rows ≤ i) }
        ensures port { IfSome result (λ row. row.port < most_outputs widest) }
        ensures same { self.new ≡ self.old }
    {
        if i >= self.count {
            return None;
        }
        let shared = &board.table.shared;
        let place = 2 + 2 * i as usize;
        let first = shared.load::<LoadWord>(&mut self.seat, place);
        let second = shared.load::<LoadWord>(&mut self.seat, place + 1);
        read_row(first, second)
    }
}

/// Two readers that know what the one knew. `Err`, which gives the reader back, is for want of memory, and never comes.
pub fn split_reader(board: &Board, mut reader: Reader) -> Result<(Reader, Reader), Reader>
    requires { reader.board ≡ board.now }
    ensures ok { IsOk result }
    ensures same { MatchResult result
        (λ halves. (halves.0 ≡ reader) × (halves.1 ≡ reader))
        (λ back. back ≡ reader) }
{
    let seat = board.table.shared.split_seat::<Copies>(&mut reader.seat);
    let other = Reader {
        count: reader.count,
        seat,
    };
    Ok((reader, other))
}

/// One reader that knows what both knew, which agrees, and the count as it is then.
pub fn join_readers(board: &Board, mut left: Reader, right: Reader) -> Reader
    requires left { left.board ≡ board.now }
    requires right { right.board ≡ board.now }
    ensures board { result.board ≡ board.now }
    ensures left { StartsWith result.rows left.rows }
    ensures right { StartsWith result.rows right.rows }
    ensures frozen { result.frozen ≡ (left.frozen || right.frozen) }
{
    let Reader { count: _, seat } = right;
    let shared = &board.table.shared;
    shared.join_seat::<TakesIn>(&mut left.seat, seat);
    left.count = shared.load::<LoadCount>(&mut left.seat, 0);
    left
}
