//! Marks round a call, for whoever refuses memory from outside: a request for so many bytes, which nothing else makes,
//! tells that a call begins or has ended. Its room is given back at once, where what comes back goes, since a request
//! that is given back where it is made need not be made at all.
use std::alloc::Global;

/// The size of a request that tells that a call begins.
const BEGINNING: usize = 40_009;

/// The size of one that tells that it has ended.
const END: usize = 40_013;

/// Tells that a call begins.
#[inline(never)]
pub(crate) fn begin(alloc: Global) -> Vec<u8> {
    room(alloc, BEGINNING)
}

/// Tells that a call has ended.
#[inline(never)]
pub(crate) fn end(alloc: Global) -> Vec<u8> {
    room(alloc, END)
}

/// So much room, or none.
fn room(alloc: Global, size: usize) -> Vec<u8> {
    match Vec::with_capacity(alloc, size) {
        Ok(room) => room,
        Err(_) => Vec::new(alloc),
    }
}
