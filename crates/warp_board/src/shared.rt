//! The words that the seats of one board share.
ghost use Rattle.std.specs.Prelude.{◌≡◌, ◌≤◌};
ghost use Rattle.warp_tag.specs.Limits.{most_rows, widest};
ghost use Rattle.warp_board.specs.Board.{room_of};

use crate::notes::Notes;
use crate::rule::BoardRule;
use atomic_table::Table;
use std::alloc::Global;
use std::marker::Model;

pub(crate) type Seat = atomic_table::Seat<(), Notes>;

/// The words that the writer and the readers of one board share: the count, the flag, and two words for each row.
/// Contracts see only which board it is, and for how many rows it has room.
#[derive(Drop)]
pub struct Board {
    pub(crate) table: Table<(), Notes, usize, BoardRule, Global>,
}

impl Model for Board {
    ghost use Rattle.std.specs.Prelude.{◌≡◌, ◌≤◌, ◌+◌, ◌*◌};
    ghost use Rattle.atomic_table.specs.Seated.{TableId, table_id_coded};
    ghost use Rattle.warp_tag.specs.Limits.{most_rows, widest};

    ghost Value = { TableId };

    ghost coded = { table_id_coded };

    ghost view = { λ b. b.table.shared.table_id };

    ghost invariant = { λ b. let rows = b.table.shared.key in
        (b.table.shared.table_id.words ≡ 2 + 2 * rows) × (1 ≤ rows) × (rows ≤ most_rows widest) };
}

impl Board {
    /// For how many rows there is room.
    pub fn room(&self) -> usize
        ensures room { result ≡ room_of self.now }
        ensures least { 1 ≤ result }
        ensures most { result ≤ most_rows widest }
    {
        (self.table.word_count() - 2) / 2
    }
}
