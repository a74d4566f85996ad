//! What a line of standard input spells, in the widest form.
use warp_record::{Line, Query, Record, read_line, read_u32};
use warp_tag::{Form, Tag};

/// The largest time.
const MOST: u32 = 15_625_000;

/// The first word of a line, and what stands behind it.
pub(crate) fn word_of(line: &str) -> (&str, &str) {
    line.split_once(' ').unwrap_or((line, ""))
}

/// The form of this version of programs.
pub(crate) fn form_of(version: &str) -> Option<Form> {
    match version {
        "1" => Some(Form::One),
        "2" => Some(Form::Two),
        "3" => Some(Form::Three),
        "4" => Some(Form::Four),
        _ => None,
    }
}

/// The line of a session that a text spells.
pub(crate) fn line_of(text: &str) -> Option<Line> {
    read_line(Form::Four, text.as_bytes())
}

/// The record of a line that spells one.
pub(crate) fn record_of(text: &str) -> Option<Record> {
    match read_line(Form::Four, text.as_bytes()) {
        Some(Line::Put(record)) => Some(record),
        _ => None,
    }
}

/// The query of a line that is one.
pub(crate) fn query_of(text: &str) -> Option<Query> {
    match read_line(Form::Four, text.as_bytes()) {
        Some(Line::Ask(query)) => Some(query),
        _ => None,
    }
}

/// The number up to 15,625,000 that a text spells.
pub(crate) fn number_of(text: &str) -> Option<u32> {
    read_u32(text.as_bytes(), MOST)
}

/// The tag of a text that is a time and a microstep.
pub(crate) fn tag_of(text: &str) -> Option<Tag> {
    let (time, micro) = text.split_once(' ').unwrap_or((text, ""));
    let time = read_u32(time.as_bytes(), MOST)?;
    let micro = read_u32(micro.as_bytes(), MOST)?;
    Tag::new(u64::from(time), micro)
}
