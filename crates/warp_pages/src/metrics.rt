//! What is measured, as text for Prometheus.

use crate::histogram::{BOUNDS, Histogram};
use itoa::Buffer;
use std::alloc::{AllocError, Global};
use std::slice;
use warp_clients::{MOST_REFUSALS, Refusals};

/// Whether the program was proved. What `.ci/unproved` builds has the other word here.
const IS_PROVED: bool = true;

/// How far a host is behind a peer, and whether they differ.
#[derive(Drop)]
pub(crate) struct PeerSeen {
    /// The peer's name, as it was given.
    pub(crate) name: String,
    /// So many records it is known to have that were not taken.
    pub(crate) behind: u32,
    /// It was found to have other records, as many of them.
    pub(crate) differs: bool,
}

/// What is measured of a host, as it is at some moment.
#[derive(Clone, Copy)]
pub struct Seen {
    /// The version of the program.
    pub version: &'static str,
    /// Connections of clients.
    pub clients: u64,
    /// The most of them at a time.
    pub most_clients: u64,
    /// Lines that were taken of clients.
    pub lines: u64,
    /// Replies to them.
    pub replies: u64,
    /// Pieces that were pushed to who watches.
    pub pushes: u64,
    /// Refusals among the replies, by their numbers.
    pub refusals: Refusals,
    /// Records of the log.
    pub log: u64,
    /// The most of them.
    pub most_records: u64,
    /// Records of the log that may not be told yet.
    pub untold: u64,
    /// The time of the horizon.
    pub horizon_time: u64,
    /// The microstep of the horizon.
    pub horizon_microstep: u64,
    /// Rows that were executed though a later one had been.
    pub rows_again: u64,
    /// Peers to follow.
    pub peers: u64,
    /// Those that are followed now.
    pub peers_connected: u64,
    /// Connections that were refused.
    pub clients_refused: u64,
    /// Connections that were closed since they had brought no token.
    pub tokenless: u64,
    /// Requests that brought no token, or a wrong one, where one is wanted.
    pub unauthorized: u64,
    /// Requests of a page, or to a name, that is not allowed.
    pub forbidden: u64,
    /// Records on the disk.
    pub journal_records: u64,
    /// Records that are not on the disk.
    pub journal_unsynced: u64,
    /// For how many milliseconds the oldest of these waits.
    pub journal_waits: u64,
    /// Whether the journal cannot be written: 1.
    pub journal_failing: u64,
    /// For how many microseconds the oldest line waits that has no answer.
    pub waits: u64,
    /// How long lines took.
    pub histogram: Histogram,
}

impl Seen {
    /// Nothing happened yet in a program of this version, where there may be so many clients and records.
    pub fn nothing(version: &'static str, most_clients: u64, most_records: u64) -> Seen {
        Seen {
            version,
            clients: 0,
            most_clients,
            lines: 0,
            replies: 0,
            pushes: 0,
            refusals: Refusals::NONE,
            log: 0,
            most_records,
            untold: 0,
            horizon_time: 0,
            horizon_microstep: 0,
            rows_again: 0,
            peers: 0,
            peers_connected: 0,
            clients_refused: 0,
            tokenless: 0,
            unauthorized: 0,
            forbidden: 0,
            journal_records: 0,
            journal_unsynced: 0,
            journal_waits: 0,
            journal_failing: 0,
            waits: 0,
            histogram: Histogram::new(),
        }
    }
}

/// A number that is told.
#[derive(Clone, Copy)]
struct Row<'a> {
    name: &'a [u8],
    kind: &'a [u8],
    help: &'a [u8],
    value: u64,
}

const GAUGE: &[u8] = b"gauge";

const COUNTER: &[u8] = b"counter";

/// The number as it is.
fn number<'a>(name: &'a [u8], kind: &'a [u8], help: &'a [u8], value: u64) -> Row<'a> {
    Row {
        name,
        kind,
        help,
        value,
    }
}

/// Writes the head of a number: what it is, and of what kind.
fn write_head(text: &mut Vec<u8>, name: &[u8], kind: &[u8], help: &[u8]) -> Result<(), AllocError> {
    for piece in [
        b"# HELP ".as_slice(),
        name,
        b" ",
        help,
        b"\n# TYPE ",
        name,
        b" ",
        kind,
        b"\n",
    ] {
        text.extend_from_slice(piece)?;
    }
    Ok(())
}

/// Writes a line: a name with its labels, and a number.
fn write_value(text: &mut Vec<u8>, name: &[u8], value: u64) -> Result<(), AllocError> {
    let mut digits = Buffer::new();
    text.extend_from_slice(name)?;
    text.extend_from_slice(b" ")?;
    text.extend_from_slice(digits.format(value).as_bytes())?;
    text.extend_from_slice(b"\n")
}

/// Writes a number with its head.
fn write_row(text: &mut Vec<u8>, row: &Row<'_>) -> Result<(), AllocError> {
    write_head(text, row.name, row.kind, row.help)?;
    write_value(text, row.name, row.value)
}

/// Writes a number of microseconds as seconds with six places.
fn write_seconds(text: &mut Vec<u8>, micros: u64) -> Result<(), AllocError> {
    let mut digits = Buffer::new();
    text.extend_from_slice(digits.format(micros / 1_000_000).as_bytes())?;
    text.extend_from_slice(b".")?;
    let mut rest = Buffer::new();
    // One more digit in front keeps the zeros.
    let places = rest.format(micros % 1_000_000 + 1_000_000).as_bytes();
    text.extend_from_slice(places.get(1..).unwrap_or(b""))
}

/// Writes the histogram of how long lines take.
fn write_histogram(text: &mut Vec<u8>, histogram: &Histogram) -> Result<(), AllocError> {
    write_head(
        text,
        b"warpd_line_seconds",
        b"histogram",
        b"How long lines took from their taking to their answer.",
    )?;
    let mut so_far = 0u64;
    for (bound, count) in BOUNDS.iter().zip(histogram.counts.iter()) {
        so_far = so_far.saturating_add(*count);
        text.extend_from_slice(b"warpd_line_seconds_bucket{le=\"")?;
        write_seconds(text, *bound)?;
        write_value(text, b"\"}", so_far)?;
    }
    so_far = so_far.saturating_add(histogram.counts[12]);
    write_value(text, b"warpd_line_seconds_bucket{le=\"+Inf\"}", so_far)?;
    text.extend_from_slice(b"warpd_line_seconds_sum ")?;
    write_seconds(text, histogram.micros)?;
    text.extend_from_slice(b"\n")?;
    write_value(text, b"warpd_line_seconds_count", so_far)
}

/// The numbers of clients and lines.
fn traffic(seen: &Seen) -> [Row<'static>; 9] {
    [
        number(
            b"warpd_clients",
            GAUGE,
            b"Connections of clients.",
            seen.clients,
        ),
        number(
            b"warpd_clients_limit",
            GAUGE,
            b"The most connections of clients at a time.",
            seen.most_clients,
        ),
        number(
            b"warpd_clients_refused_total",
            COUNTER,
            b"Connections that were refused for want of room.",
            seen.clients_refused,
        ),
        number(
            b"warpd_clients_tokenless_total",
            COUNTER,
            b"Connections that were closed since they had brought no token in time.",
            seen.tokenless,
        ),
        number(
            b"warpd_lines_total",
            COUNTER,
            b"Lines that were taken of clients.",
            seen.lines,
        ),
        number(
            b"warpd_replies_total",
            COUNTER,
            b"Replies to lines.",
            seen.replies,
        ),
        number(
            b"warpd_pushes_total",
            COUNTER,
            b"Pieces of one or more lines that were pushed to who watches.",
            seen.pushes,
        ),
        number(
            b"warpd_http_unauthorized_total",
            COUNTER,
            b"Requests over HTTP that brought no token, or a wrong one, where one is wanted.",
            seen.unauthorized,
        ),
        number(
            b"warpd_http_forbidden_total",
            COUNTER,
            b"Requests over HTTP of a page, or to a name, that is not allowed.",
            seen.forbidden,
        ),
    ]
}

/// The numbers of the replica and of peers.
fn state(seen: &Seen) -> [Row<'static>; 8] {
    [
        number(
            b"warpd_log_records",
            GAUGE,
            b"Records of the log, as the last reply told.",
            seen.log,
        ),
        number(
            b"warpd_log_records_limit",
            GAUGE,
            b"The most records of the log.",
            seen.most_records,
        ),
        number(
            b"warpd_log_untold_records",
            GAUGE,
            b"Records of the log that nobody may be told of yet: they wait for the journal.",
            seen.untold,
        ),
        number(
            b"warpd_horizon_time",
            GAUGE,
            b"The time of the horizon.",
            seen.horizon_time,
        ),
        number(
            b"warpd_horizon_microstep",
            GAUGE,
            b"The microstep of the horizon.",
            seen.horizon_microstep,
        ),
        number(
            b"warpd_rows_again_total",
            COUNTER,
            b"Rows that were executed though a later one had been executed before.",
            seen.rows_again,
        ),
        number(b"warpd_peers", GAUGE, b"Peers to follow.", seen.peers),
        number(
            b"warpd_peers_connected",
            GAUGE,
            b"Peers that are followed now.",
            seen.peers_connected,
        ),
    ]
}

/// The numbers of the journal: each 0 where there is none.
fn journal(seen: &Seen) -> [Row<'static>; 3] {
    [
        number(
            b"warpd_journal_records",
            GAUGE,
            b"Records of the journal that are on the disk.",
            seen.journal_records,
        ),
        number(
            b"warpd_journal_unsynced_records",
            GAUGE,
            b"Records of the journal that are not on the disk.",
            seen.journal_unsynced,
        ),
        number(
            b"warpd_journal_failing",
            GAUGE,
            b"Whether the journal cannot be written: 1, and records are refused.",
            seen.journal_failing,
        ),
    ]
}

/// Writes a time with its head: it is so many microseconds.
fn write_time(text: &mut Vec<u8>, name: &[u8], help: &[u8], micros: u64) -> Result<(), AllocError> {
    write_head(text, name, GAUGE, help)?;
    text.extend_from_slice(name)?;
    text.extend_from_slice(b" ")?;
    write_seconds(text, micros)?;
    text.extend_from_slice(b"\n")
}

/// Writes what runs.
fn write_build(text: &mut Vec<u8>, version: &str) -> Result<(), AllocError> {
    write_head(
        text,
        b"warpd_build_info",
        GAUGE,
        b"What runs: its version, and whether it was proved.",
    )?;
    text.extend_from_slice(b"warpd_build_info{version=\"")?;
    write_label(text, version)?;
    let proved: &[u8] = if IS_PROVED { b"true" } else { b"false" };
    text.extend_from_slice(b"\",proved=\"")?;
    text.extend_from_slice(proved)?;
    write_value(text, b"\"}", 1)
}

/// Writes the value of a label.
fn write_label(text: &mut Vec<u8>, value: &str) -> Result<(), AllocError> {
    for byte in value.as_bytes() {
        let shown: &[u8] = match *byte {
            b'\\' => b"\\\\",
            b'"' => b"\\\"",
            b'\n' => b"\\n",
            _ => slice::from_ref(byte),
        };
        text.extend_from_slice(shown)?;
    }
    Ok(())
}

/// Writes how many lines were refused, by the number of the refusal; none of a number that did not occur, and nothing where none did.
fn write_refusals(text: &mut Vec<u8>, refusals: &Refusals) -> Result<(), AllocError> {
    if refusals.are_none() {
        return Ok(());
    }
    write_head(
        text,
        b"warpd_refused_total",
        COUNTER,
        b"Replies that refused a line, by the number of the refusal.",
    )?;
    for number in 1..MOST_REFUSALS {
        let count = refusals.of(number);
        if count > 0 {
            write_refused(text, number as u64, count)?;
        }
    }
    Ok(())
}

/// Writes how many lines were refused by this number.
fn write_refused(text: &mut Vec<u8>, number: u64, count: u64) -> Result<(), AllocError> {
    let mut digits = Buffer::new();
    text.extend_from_slice(b"warpd_refused_total{number=\"")?;
    text.extend_from_slice(digits.format(number).as_bytes())?;
    write_value(text, b"\"}", count)
}

/// Writes how far the host is behind each peer, and which of them differ; nothing where it has none.
fn write_peers(text: &mut Vec<u8>, peers: &[PeerSeen]) -> Result<(), AllocError> {
    if peers.is_empty() {
        return Ok(());
    }
    write_head(
        text,
        b"warpd_peer_lag_records",
        GAUGE,
        b"Records that a peer is known to have and that were not taken yet: it may have more.",
    )?;
    for peer in peers {
        let behind = u64::from(peer.behind);
        write_of_peer(text, b"warpd_peer_lag_records", peer, behind)?;
    }
    write_head(
        text,
        b"warpd_peer_differs",
        GAUGE,
        b"Whether a peer was found to have other records, as many of them: 1.",
    )?;
    for peer in peers {
        let differs = u64::from(peer.differs);
        write_of_peer(text, b"warpd_peer_differs", peer, differs)?;
    }
    Ok(())
}

/// Writes a number of a peer.
fn write_of_peer(
    text: &mut Vec<u8>,
    name: &[u8],
    peer: &PeerSeen,
    value: u64,
) -> Result<(), AllocError> {
    text.extend_from_slice(name)?;
    text.extend_from_slice(b"{peer=\"")?;
    write_label(text, peer.name.as_str())?;
    write_value(text, b"\"}", value)
}

/// Writes how long answers took at most, and how long the oldest line waits for one.
fn write_longest(text: &mut Vec<u8>, seen: &Seen) -> Result<(), AllocError> {
    write_time(
        text,
        b"warpd_line_longest_seconds",
        b"The longest that a line took from its taking to its answer, since the host began.",
        seen.histogram.longest,
    )?;
    write_time(
        text,
        b"warpd_line_waiting_seconds",
        b"How long the oldest line waits that has no answer yet.",
        seen.waits,
    )
}

/// All that is measured, in the text format of Prometheus.
pub(crate) fn metrics_text(
    alloc: Global,
    seen: &Seen,
    peers: &[PeerSeen],
) -> Result<Vec<u8>, AllocError> {
    let mut text = Vec::new(alloc);
    write_build(&mut text, seen.version)?;
    for row in &traffic(seen) {
        write_row(&mut text, row)?;
    }
    write_refusals(&mut text, &seen.refusals)?;
    for row in &state(seen) {
        write_row(&mut text, row)?;
    }
    write_peers(&mut text, peers)?;
    for row in &journal(seen) {
        write_row(&mut text, row)?;
    }
    write_time(
        &mut text,
        b"warpd_journal_unsynced_seconds",
        b"How long the oldest record waits that is not on the disk.",
        seen.journal_waits.saturating_mul(1_000),
    )?;
    write_longest(&mut text, seen)?;
    write_histogram(&mut text, &seen.histogram)?;
    Ok(text)
}
