//! What one seat at a board's table knows.
use warp_tag::Out;

/// What a seat knows of its board. No value of it is made. A clause reads an array as a list, of any length.
pub struct Notes {
    /// Whether it is the writer's seat.
    pub writes: bool,
    /// For how many rows the board has room; 0 once the seat is spent.
    pub room: u64,
    /// The rows that it knows, from the first on. The writer's seat knows all.
    pub rows: [Out; 0],
    /// Whether it knows the flag to be up.
    pub frozen: bool,
    /// Of the writer's seat: the words of the next row that are stored already.
    pub staged: [u64; 0],
    /// The rows that a seat knew which was joined into this one.
    pub joined_rows: [Out; 0],
    /// Whether that seat knew the flag to be up.
    pub joined_frozen: bool,
}
