//! Where something is wrong in a program file, and what.

use crate::explain::place::{after_white, item_place, member_place, position};
use crate::explain::reason::Reason;
use crate::explain::text::push_all;
use crate::name::Name;
use crate::shape::json::items;
use crate::shape::reactor::name;
use arrayvec::ArrayVec;
use serde_json::Value;
use std::alloc::AllocError;

/// More segments than a JSON text has levels.
const MOST_SEGMENTS: usize = 136;

/// A segment of a path: from a value of the file to a part of it.
#[derive(Clone, Copy)]
pub(crate) enum Segment {
    /// The value under this key of an object.
    Key(&'static str),
    /// The item at this place, from 0, of the list under this key of an object.
    Of(&'static str, usize),
    /// The item at this place, from 0, of a list.
    Item(usize),
}

impl Default for Segment {
    fn default() -> Segment {
        Segment::Item(0)
    }
}

/// The way to a fault: the segments from the file to the part that has it, the last of them first, and what is wrong
/// there.
#[derive(Drop)]
pub(crate) struct Trail<'f> {
    segments: ArrayVec<Segment, MOST_SEGMENTS>,
    reason: Option<Reason<'f>>,
}

impl<'f> Trail<'f> {
    ghost use Rattle.std.specs.Prelude.{◌≡◌, true};

    /// The trail of a file in which no fault was found so far.
    pub(crate) fn new() -> Trail<'f> {
        Trail {
            segments: ArrayVec::new(),
            reason: None,
        }
    }

    /// Notes what is wrong at the part that is looked at. Always true: a fault was found.
    pub(crate) fn fault(&mut self, reason: Reason<'f>) -> bool
        ensures { result ≡ true }
    {
        self.reason = Some(reason);
        true
    }

    /// Notes what is wrong behind this segment. Always true.
    pub(crate) fn fault_at(&mut self, segment: Segment, reason: Reason<'f>) -> bool
        ensures { result ≡ true }
    {
        self.reason = Some(reason);
        self.back(segment)
    }

    /// Adds the segment before those that are there, since a fault was found behind it. Always true.
    pub(crate) fn back(&mut self, segment: Segment) -> bool
        ensures { result ≡ true }
    {
        if !self.segments.is_full() {
            self.segments.push(segment);
        }
        true
    }

    /// The same of the item at this place, from 0, of the list behind this segment.
    pub(crate) fn back_to_item(&mut self, segment: Segment, place: usize) -> bool
        ensures { result ≡ true }
    {
        self.back(Segment::Item(place));
        self.back(segment)
    }

    /// What is wrong, if a fault was found.
    pub(crate) fn reason(&self) -> Option<Reason<'f>> {
        self.reason
    }

    /// Writes the line and the column at which the part begins, in these bytes of the file, and the segments from the
    /// first on, with the names of the reactors of the file.
    pub(crate) fn write(
        &self,
        text: &mut String,
        bytes: &[u8],
        file: &Value,
    ) -> Result<(), AllocError> {
        let at = position(bytes, self.place(bytes));
        let line = at.line;
        let column = at.column;
        write!(text, "line {line}, column {column}: ")?;
        self.write_segments(text, file)
    }

    /// Where the part begins in these bytes of the file.
    fn place(&self, bytes: &[u8]) -> usize {
        let mut place = after_white(bytes, 0);
        for segment in self.segments.as_slice().iter().rev() {
            place = part_place(bytes, place, *segment);
        }
        place
    }

    /// Writes the segments from the first on.
    fn write_segments(&self, text: &mut String, file: &Value) -> Result<(), AllocError> {
        if self.segments.is_empty() {
            return text.push_str("the file");
        }
        let mut is_first = true;
        for segment in self.segments.as_slice().iter().rev() {
            write_segment(text, is_first, *segment, file)?;
            is_first = false;
        }
        Ok(())
    }
}

/// Where the part to which a segment leads begins, from the part at this place.
fn part_place(bytes: &[u8], place: usize, segment: Segment) -> usize {
    match segment {
        Segment::Key(key) => member_place(bytes, place, key),
        Segment::Of(key, number) => item_place(bytes, member_place(bytes, place, key), number),
        Segment::Item(number) => item_place(bytes, place, number),
    }
}

/// Writes a segment behind those that are there, if it is not the first.
fn write_segment(
    text: &mut String,
    is_first: bool,
    segment: Segment,
    file: &Value,
) -> Result<(), AllocError> {
    match segment {
        Segment::Key(key) => {
            write_comma(text, is_first)?;
            push_all(text, &["\"", key, "\""])
        }
        Segment::Of(key, place) => {
            write_comma(text, is_first)?;
            write_part(text, key, place, file)
        }
        Segment::Item(place) => write!(text, "[{place}]"),
    }
}

/// Writes the segment to an item of the list under a key.
fn write_part(text: &mut String, key: &str, place: usize, file: &Value) -> Result<(), AllocError> {
    write!(text, "{key}[{place}]")?;
    if key == "reactors" {
        return write_name(text, place, file);
    }
    Ok(())
}

/// Writes a comma, but before the first segment.
fn write_comma(text: &mut String, is_first: bool) -> Result<(), AllocError> {
    if is_first {
        return Ok(());
    }
    text.push_str(", ")
}

/// Writes the name of the reactor at this place, if it has one.
fn write_name(text: &mut String, place: usize, file: &Value) -> Result<(), AllocError> {
    match reactor_name(file, place) {
        Some(name) => push_all(text, &[" \"", name.as_str(), "\""]),
        None => Ok(()),
    }
}

/// The name of the reactor at this place of the file, if it has one.
fn reactor_name(file: &Value, place: usize) -> Option<Name> {
    let Some(reactors) = items(file, "reactors") else {
        return None;
    };
    match reactors.get(place) {
        Some(reactor) => name(reactor),
        None => None,
    }
}
