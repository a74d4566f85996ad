//! A board, made with its writer and a first reader.
ghost use Rattle.std.specs.Prelude.{◌≡◌, ◌≤◌, [], false, IfOk};
ghost use Rattle.warp_tag.specs.Limits.{most_rows, widest};
ghost use Rattle.warp_board.specs.Board.{room_of};

use crate::reader::Reader;
use crate::rule::Copies;
use crate::shared::Board;
use crate::writer::Writer;
use atomic_table::Table;
use std::alloc::Global;
use warp_tag::OutOfMemory;

/// A board with room for so many rows, 1 to 1,048,576, empty and not frozen, with its writer and a first reader. Every
/// word, and the room of the writer's copy, is taken here.
pub fn board(alloc: Global, rows: usize) -> Result<(Board, Writer, Reader), OutOfMemory>
    requires least { 1 ≤ rows }
    requires most { rows ≤ most_rows widest }
    ensures room { IfOk result (λ made. room_of made.0 ≡ rows) }
    ensures writer { IfOk result
        (λ made. made.1 ≡ record { board = made.0; rows = []; frozen = false }) }
    ensures reader { IfOk result
        (λ made. made.2 ≡ record { board = made.0; rows = []; frozen = false }) }
{
    let words = vec![in alloc; 0u64; 2 + 2 * rows]?;
    let copy = Vec::with_capacity(alloc, rows)?;
    let (table, mut seat) = Table::of_words(alloc, &words, &rows)?;
    let reader = table.shared.split_seat::<Copies>(&mut seat);
    Ok((
        Board { table },
        Writer {
            rows: copy,
            frozen: false,
            seat,
        },
        Reader {
            count: 0,
            seat: reader,
        },
    ))
}
