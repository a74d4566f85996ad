//! Bytes that come in two pieces and are cut into lines; records and replies, read and written.
ghost use Rattle.warp_tag.specs.Limits.{widest};
ghost use Rattle.warp_record.specs.Reply.{IsReply};

use crate::lines::record_of;
use crate::mark::{begin, end};
use crate::transcript::{NO_MEMORY, Transcript};
use std::alloc::{AllocError, Global};
use warp_record::{Fed, Feed, REPLY_ROOM, Record, Reply, read_reply, write_record, write_reply};
use warp_tag::Form;

/// Feeds these bytes in two pieces, cut at each place in turn, and tells what lines that gives.
pub(crate) fn feed_cuts(alloc: Global, out: &mut Transcript, bytes: &[u8]) {
    for cut in 0..=bytes.len() {
        match fed_in_two(alloc, &bytes[..cut], &bytes[cut..]) {
            Ok(fed) => out.say_bytes(&fed),
            Err(_) => out.fail(NO_MEMORY),
        }
    }
}

/// What is fed of two pieces, a line each.
fn fed_in_two(alloc: Global, first: &[u8], second: &[u8]) -> Result<Vec<u8>, AllocError> {
    let mut feed = Feed::new();
    let mut fed = Vec::new(alloc);
    feed_piece(&mut feed, &mut fed, first)?;
    feed_piece(&mut feed, &mut fed, second)?;
    append(&mut fed, feed.end())?;
    Ok(fed)
}

/// Feeds all of a piece, and appends what is fed.
fn feed_piece(feed: &mut Feed, fed: &mut Vec<u8>, piece: &[u8]) -> Result<(), AllocError> {
    let mut rest = piece;
    for _ in 0..piece.len() {
        let (taken, next) = feed.push(rest);
        append(fed, next)?;
        rest = &rest[taken..];
    }
    Ok(())
}

/// Appends a line that was fed, as a text of one line.
fn append(fed: &mut Vec<u8>, next: Option<Fed>) -> Result<(), AllocError> {
    match next {
        None => Ok(()),
        Some(Fed::Text(line)) => {
            fed.extend_from_slice(line.as_slice())?;
            fed.extend_from_slice(b"\n")
        }
        Some(Fed::TooLong) => fed.extend_from_slice(b"(too long)\n"),
        Some(Fed::Torn) => fed.extend_from_slice(b"(torn)\n"),
    }
}

/// Reads a record from each line, tells it, and writes it.
pub(crate) fn read_records(alloc: Global, out: &mut Transcript, lines: &str) {
    for line in lines.lines() {
        match record_of(line) {
            Some(record) => say_record(alloc, out, &record),
            None => out.fail("no record"),
        }
    }
}

/// Tells a record, and writes it, where there is room.
fn say_record(alloc: Global, out: &mut Transcript, record: &Record) {
    out.say(format_args!("{record:?}"));
    let Ok(mut text) = Vec::with_capacity(alloc, REPLY_ROOM) else {
        return out.fail(NO_MEMORY);
    };
    begin(alloc);
    write_record(&mut text, record);
    end(alloc);
    out.say_bytes(&text);
}

/// Reads a reply from each line, tells it, and writes it.
pub(crate) fn read_replies(alloc: Global, out: &mut Transcript, lines: &str) {
    for line in lines.lines() {
        match read_reply(Form::Four, line.as_bytes()) {
            Some(reply) => say_reply(alloc, out, &reply),
            None => out.say("no reply"),
        }
    }
}

/// Tells a reply, and writes it, where there is room.
fn say_reply(alloc: Global, out: &mut Transcript, reply: &Reply)
    requires { IsReply widest reply.now }
{
    out.say(format_args!("{reply:?}"));
    let Ok(mut text) = Vec::with_capacity(alloc, REPLY_ROOM) else {
        return out.fail(NO_MEMORY);
    };
    begin(alloc);
    write_reply(&mut text, reply);
    end(alloc);
    out.say_bytes(&text);
}
