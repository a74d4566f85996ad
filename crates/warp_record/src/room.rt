//! The room that writing a spelling asks for.

/// The room that writing one record or one reply asks for, in bytes; a line feed behind it has room too.
pub const REPLY_ROOM: usize = 128;

/// The most bytes of a record's spelling, which are those of an event: `event`, three numbers of 32 bits and two of 64
/// bits, each with the space in front of it.
pub(crate) const RECORD_ROOM: usize = 80;
