//! Telling what was asked.
ghost use Rattle.std.specs.Prelude.{◌≡◌, ◌≤◌, ◌-◌, ◌++◌, [], IfOk, IsTrue, OnOk, drop, if◌then◌else◌, length, slice_get};
ghost use Rattle.std.specs.Prelude.{take};
ghost use Rattle.warp_tag.specs.Limits.{most_records, widest};
ghost use Rattle.warp_table.specs.Records.{set_of};
ghost use Rattle.warp_replica.specs.Answers.{Answers, AreAnswers};
ghost use Rattle.warp_watch.specs.Lines.{frozen_line, output_lines, page_count, release_line};
ghost use Rattle.warp_watch.specs.Telling.{IsOfAsked, OfOrigin, Tells, next_of, releases_line, tells_frozen, text_of};

use crate::lines::{add_breaches, add_cells, add_counts, add_reached, add_records, add_vars};
use crate::question::{PAGE, Question, Told};
use crate::shown::Shown;
use crate::words::{add_flag, add_frozen, add_number, add_output, add_reply, add_rows};
use std::alloc::Global;
use warp_line::Timeline;
use warp_record::{Query, Reply};
use warp_replica::{Replica, one_answer};
use warp_tag::OutOfMemory;

/// Tells what was asked, of a settled replica and of what was shown. The text is that of the records' set and places,
/// and of what was shown.
pub fn tell<T: Timeline>(
    alloc: Global,
    replica: &Replica<T>,
    shown: &Shown,
    question: Question,
) -> Result<Told, OutOfMemory>
    requires settled { IsTrue (T.settled replica.now.timeline) }
    ensures { IfOk result (λ told. Tells replica.now.program replica.now.records shown.now question told) }
{
    let len = replica.len();
    let page = page_of(len, shown, &question);
    let mut text = Vec::new(alloc);
    append(&mut text, replica, shown, &question, &page)?;
    Ok(Told {
        question,
        len,
        next: page.next,
        frozen: page.is_last,
        text,
    })
}

/// Where a page ends.
#[derive(Clone, Copy)]
struct Page {
    /// The first place or number that it does not tell; 0 where no page is asked for.
    next: u32,
    /// Whether its last line is `frozen`.
    is_last: bool,
}

/// Where the page that is asked for ends, of a log of this length.
fn page_of(len: u32, shown: &Shown, question: &Question) -> Page
    requires { len ≤ most_records widest }
    ensures next { result.next ≡ next_of len shown.now question.now }
    ensures last { result.is_last ≡ tells_frozen shown.now question.now }
{
    match *question {
        Question::Log { from, until } => {
            let first = from.max(1);
            Page {
                next: first + page_count(len + 1, first, until),
                is_last: false,
            }
        }
        Question::Released { from, until } => {
            let next = from + page_count(shown.len(), from, until);
            Page {
                next,
                is_last: shown.is_frozen() && shown.len() <= next,
            }
        }
        _ => Page {
            next: 0,
            is_last: false,
        },
    }
}

/// How many lines a page has that begins at this place, where what is there ends at `end`.
fn page_count(end: u32, first: u32, until: u32) -> u32
    ensures value { result ≡ page_count end first until }
    ensures within { result ≤ end - first }
{
    let limit = if until == 0 { end } else { end.min(until) };
    PAGE.min(limit.saturating_sub(first))
}

/// Appends what is told, where the page ends there.
fn append<T: Timeline>(
    text: &mut Vec<u8>,
    replica: &Replica<T>,
    shown: &Shown,
    question: &Question,
    page: &Page,
) -> Result<(), OutOfMemory>
    requires settled { IsTrue (T.settled replica.now.timeline) }
    requires next { page.now.next ≡ next_of (length replica.now.records) shown.now question.now }
    requires last { page.now.is_last ≡ tells_frozen shown.now question.now }
    ensures { OnOk result
        ((a : Answers) × AreAnswers replica.now.program (set_of replica.now.records) a
        × ((o : OfOrigin) × IsOfAsked (set_of replica.now.records) question.now o
        × (text.new.items
        ≡ text.old.items ++ text_of replica.now.program replica.now.records shown.now a o question.now))) }
{
    // A program has an origin, and each record is in its log once, so that there are answers.
    replica.program().valid();
    replica.valid();
    one_answer();
    match *question {
        Question::Vars => add_vars(text, replica),
        Question::Cells { first, count } => add_cells(text, replica, first, count),
        Question::Releases => add_releases(text, replica.len(), shown),
        Question::Release(number) => add_release(text, replica.len(), shown, number),
        Question::Horizon => add_reply(text, &replica.answer(Query::Horizon)),
        Question::Breaches => add_breaches(text, replica),
        Question::Counts(origin) => add_counts(text, replica, origin),
        Question::Reached(origin) => add_reached(text, replica, origin),
        Question::Log { from, .. } => add_records(text, replica, from.max(1), page.next),
        Question::Released { from, .. } => add_page(text, shown, from, page),
    }
}

/// Appends the line of how many outputs were shown, at a log of this length.
fn add_releases(text: &mut Vec<u8>, len: u32, shown: &Shown) -> Result<(), OutOfMemory>
    ensures { OnOk result (text.new.items ≡ text.old.items ++ releases_line len shown.now) }
{
    text.extend_from_slice(b"releases")?;
    add_number(text, len)?;
    add_number(text, shown.len())?;
    add_flag(text, shown.is_frozen())
}

/// Appends the line of the shown output of this number, or that there is none, at a log of this length.
fn add_release(text: &mut Vec<u8>, len: u32, shown: &Shown, number: u32) -> Result<(), OutOfMemory>
    ensures { OnOk result (text.new.items ≡ text.old.items ++ release_line len (slice_get shown.now.rows number)) }
{
    match shown.rows().get(number as usize) {
        Some(out) => add_output(text, b"release", len, out),
        None => add_reply(text, &Reply::Nothing { log: len }),
    }
}

/// Appends a page of the shown outputs, and `frozen` where it is the last line.
fn add_page(text: &mut Vec<u8>, shown: &Shown, first: u32, page: &Page) -> Result<(), OutOfMemory>
    ensures { OnOk result (text.new.items ≡ text.old.items
        ++ (output_lines first (take (page.now.next - first) (drop first shown.now.rows))
        ++ (if page.now.is_last then frozen_line else []))) }
{
    add_rows(text, shown.rows(), first, page.next)?;
    if page.is_last {
        add_frozen(text)?;
    }
    Ok(())
}
