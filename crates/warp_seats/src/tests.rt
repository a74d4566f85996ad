//! The text of seats, word for word, with ample memory.
use crate::Seats;
use std::alloc::Global;
use std::process::Abort;
use warp_watch::ClientId;

/// All origins are offered, and allowed.
const ALL: [bool; 64] = [true; 64];

/// The text of two seats.
const TEXT: &[u8] = b"\
seat 0 1 0101010101010101010101010101010101010101010101010101010101010101
seat 2 1 abababababababababababababababababababababababababababababababab
";

/// A client with this key.
fn client(key: u32) -> ClientId {
    ClientId { key, round: 0 }
}

/// Three clients join, and one leaves.
fn two() -> Seats {
    let mut seats = Seats::new(&ALL);
    let _ = seats.join(client(3), &ALL, &[1; 32]);
    let _ = seats.join(client(4), &ALL, &[2; 32]);
    let _ = seats.join(client(5), &ALL, &[0xab; 32]);
    let _ = seats.leave(client(4));
    seats
}

/// The text of these seats.
fn spelled(rt: &impl Abort, alloc: Global, seats: &Seats) -> Vec<u8> {
    let mut text = Vec::new(alloc);
    seats.write(&mut text).expect(rt, "memory");
    text
}

/// When the first of the seats that this text has is to be freed, where they are kept for a second from the tenth on.
fn due_of(text: &[u8]) -> Option<u64> {
    let seats = Seats::read(&ALL, text, 10_000_000)?;
    Some(seats.due(1_000_000))
}

#[test]
fn text_is_written(rt: HostRuntime) {
    let text = spelled(&rt, rt.alloc(), &two());
    assert!(rt; text.as_slice() == TEXT);
}

#[test]
fn text_is_read(rt: HostRuntime) {
    assert_eq!(rt; due_of(TEXT), Some(11_000_000));
    assert_eq!(rt; due_of(&TEXT[1..]), None);
    assert_eq!(rt; due_of(&TEXT[..TEXT.len() - 1]), None);
}
