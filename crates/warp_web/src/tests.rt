//! Bytes of a connection, cut in many ways, and what is written for them.

use crate::{Answers, Said, Wire};
use bytes::Bytes;
use http::{HeaderName, HeaderValue, Request, StatusCode};
use http_server::{Response, Service};
use std::alloc::{AllocError, Global};
use std::hash::RandomState;
use std::test::Fail;
use warp_record::Fed;

/// Answers each request with its path, and one for `/ws` with an upgrade.
#[derive(Drop)]
struct Echo {
    alloc: Global,
    answered: u64,
}

impl Service for Echo {
    ghost answers = { λ _ _ _ _. Unit {0} };

    fn call(
        &mut self,
        request: &Request<Bytes>,
        response: &mut Response,
    ) -> Result<(), AllocError> {
        let path = request.uri().path();
        if path == "/ws" {
            response.status = StatusCode::SWITCHING_PROTOCOLS;
            response.add_header(
                HeaderName::from_static("connection"),
                HeaderValue::from_static("upgrade"),
            )?;
            response.add_header(
                HeaderName::from_static("upgrade"),
                HeaderValue::from_static("websocket"),
            )?;
        } else {
            let text = Vec::from_slice(self.alloc, path.as_bytes())?;
            response.body.push(Bytes::from_vec(text)?)?;
        }
        self.answered = self.answered.wrapping_add(1);
        Ok(())
    }
}

impl Answers for Echo {
    fn answered(&self) -> u64 {
        self.answered
    }
}

/// Puts a line with a bar in front behind what was said before.
fn note(heard: &mut Vec<u8>, line: &Fed) -> Result<(), AllocError> {
    heard.extend_from_slice(b"|")?;
    match line {
        Fed::Text(line) => heard.extend_from_slice(line.as_slice()),
        Fed::TooLong => heard.extend_from_slice(b"(long)"),
        Fed::Torn => heard.extend_from_slice(b"(torn)"),
    }
}

/// One thing that the wire says: whether there may be more.
fn listen_once(wire: &mut Wire, echo: &mut Echo, heard: &mut Vec<u8>) -> Result<bool, Fail> {
    match wire.said().map_err(|_| "it is to go")? {
        Said::Line(line) => {
            note(heard, &line)?;
            wire.tell(b"ok").map_err(|_| "not told")?;
            Ok(true)
        }
        Said::Requests => {
            wire.answer(echo);
            Ok(true)
        }
        Said::Upgrade => {
            wire.upgrade().map_err(|_| "not upgraded")?;
            Ok(true)
        }
        Said::More => Ok(true),
        Said::Nothing => Ok(false),
        Said::End => Ok(false),
    }
}

/// All that the wire says, and all that it writes.
fn listen(
    wire: &mut Wire,
    echo: &mut Echo,
    heard: &mut Vec<u8>,
    written: &mut Vec<u8>,
) -> Result<(), Fail> {
    for _ in 0..64 {
        if !listen_once(wire, echo, heard)? && wire.output().is_empty() {
            return Ok(());
        }
        let output = wire.output();
        let count = output.len().min(7);
        written.extend_from_slice(&output[..count])?;
        wire.written(count);
    }
    Ok(())
}

/// What is said of these bytes, which come in pieces of so many, and what is written for them.
fn heard_and_written(
    alloc: Global,
    keys: RandomState,
    bytes: &[u8],
    piece: usize,
) -> Result<(Vec<u8>, Vec<u8>), Fail> {
    let mut wire = Wire::new(alloc, keys);
    let mut echo = Echo { alloc, answered: 0 };
    let mut heard = Vec::new(alloc);
    let mut written = Vec::new(alloc);
    for part in bytes.chunks(piece.max(1)) {
        if wire.hear(part) != Ok(part.len()) {
            return Err("not all was heard".into());
        }
        listen(&mut wire, &mut echo, &mut heard, &mut written)?;
    }
    wire.end().map_err(|_| "no memory")?;
    listen(&mut wire, &mut echo, &mut heard, &mut written)?;
    Ok((heard, written))
}

/// A long line, a whole one, an empty one, and one that is torn.
const LINES: &[u8] =
    b"xxxxxxxxxxxxxxxxxxxxxxxxxxxxxxxxxxxxxxxxxxxxxxxxxxxxxxxxxxxxxxxxxxxxxxxxxxxxxxxxxxxxxxxxx\
xxxxxxxxxxxxxxxxxxxxxxxxxxxxxxxxxxxxxxxxxxxxxxxx\nserve\n\nlo";

#[test]
fn lines_are_those_of_the_bytes(rt: HostRuntime) -> Result<(), Fail> {
    let keys = RandomState::new(&rt)?;
    for piece in [1, 2, 7, 1_000] {
        let (heard, written) = heard_and_written(rt.alloc(), keys, LINES, piece)?;
        assert!(rt;
            heard.as_slice() == &b"|(long)|serve||(torn)"[..],
            "in pieces of {piece}"
        );
        assert!(rt;
            written.as_slice() == &b"ok\nok\nok\nok\n"[..],
            "in pieces of {piece}"
        );
    }
    Ok(())
}

/// Two requests and an upgrade, behind which come two lines in one text, two pings and a frame that has no mask.
const WEB: &[u8] = b"GET /a HTTP/1.1\r\nHost: x\r\n\r\nGET /b HTTP/1.1\r\nHost: x\r\n\r\n\
GET /ws HTTP/1.1\r\nHost: x\r\nConnection: upgrade\r\nUpgrade: websocket\r\n\r\n\
\x81\x83\0\0\0\0a\nb\x89\x82\0\0\0\0hi\x89\x82\0\0\0\0ho\x81\x01x";

/// Two texts, the answers to two pings, and a close for what broke the protocol.
const ANSWERS: &[u8] = b"\x81\x02ok\x81\x02ok\x8a\x02hi\x8a\x02ho\x88\x02\x03\xea";

#[test]
fn upgrades_and_answers(rt: HostRuntime) -> Result<(), Fail> {
    let keys = RandomState::new(&rt)?;
    for piece in [1, 3, 1_000] {
        let (heard, written) = heard_and_written(rt.alloc(), keys, WEB, piece)?;
        assert!(rt; heard.as_slice() == &b"|a|b"[..], "in pieces of {piece}");
        assert!(rt;
            written.starts_with(b"HTTP/1.1 200 OK\r\n"),
            "in pieces of {piece}"
        );
        assert!(rt; written.ends_with(ANSWERS), "in pieces of {piece}");
    }
    Ok(())
}
