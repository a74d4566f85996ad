//! A journal that was written is read again, whole, cut at each byte, and with a byte changed.

use crate::{
    Disk, Ending, Failed, Fault, Found, Front, Journal, Keeper, NotRead, Reading, first_line,
    old_first_line,
};
use std::alloc::Global;
use std::test::Fail;
use warp_record::Record;
use warp_tag::{Form, Tag};

const FINGERPRINT: &[u8] = b"0123456789abcdef0123456789abcdef0123456789abcdef0123456789abcdef";

fn event(time: u64) -> Option<Record> {
    let tag = Tag::new(time, 0)?;
    Some(Record::Event {
        origin: 0,
        tag,
        input: 0,
        value: 31,
    })
}

/// The second in which the sums of these tests are written.
const SECOND: u64 = 1_795_881_600;

/// The first line of a journal of this form.
fn first_of(alloc: Global, is_old: bool) -> Result<Vec<u8>, Fail> {
    if is_old {
        Ok(old_first_line(alloc, 2, FINGERPRINT)?)
    } else {
        Ok(first_line(alloc, 2, FINGERPRINT)?)
    }
}

/// So many records, two and a sum each time, behind this first line.
fn journal(alloc: Global, first: &[u8], count: u64) -> Result<Vec<u8>, Fail> {
    let mut journal = Journal::begin(first);
    let mut text = Vec::from_slice(alloc, first)?;
    text.push(b'\n')?;
    for time in 0..count {
        let record = event(time).ok_or("no tag")?;
        journal
            .write(&record, &mut text)
            .map_err(|_| "not written")?;
        if time % 2 == 1 {
            journal.write_sum(alloc, SECOND, &mut text)?;
        }
    }
    Ok(text)
}

/// What is read of these bytes, in pieces of so many.
fn read(
    alloc: Global,
    first: &[u8],
    bytes: &[u8],
    piece: usize,
) -> Result<(Found, Vec<Record>), Fail> {
    let mut records = Vec::new(alloc);
    let mut reading = Reading::new(alloc, Form::Two, first)?;
    for part in bytes.chunks(piece.max(1)) {
        reading
            .take(alloc, part, &mut records)
            .map_err(|_| "not read")?;
    }
    let found = reading.end().map_err(|_| "no journal")?;
    Ok((found, records))
}

#[test]
fn is_text(rt: HostRuntime) -> Result<(), Fail> {
    let alloc = rt.alloc();
    let old = journal(alloc, &first_of(alloc, true)?, 2)?;
    let begin =
        b"warpd journal 1 2 0123456789abcdef0123456789abcdef0123456789abcdef0123456789abcdef\n\
          event 0 0 0 0 31\nevent 0 1 0 0 31\n= 2 389e5dc99db91f5b433862a6843b241b";
    assert!(rt; old.starts_with(begin));
    let new = journal(alloc, &first_of(alloc, false)?, 2)?;
    let begin =
        b"warpd journal 2 2 0123456789abcdef0123456789abcdef0123456789abcdef0123456789abcdef\n\
          event 0 0 0 0 31\nevent 0 1 0 0 31\n= 2 ";
    assert!(rt; new.starts_with(begin));
    assert!(rt; new.ends_with(b" 1795881600\n"));
    Ok(())
}

#[test]
fn is_read_again(rt: HostRuntime) -> Result<(), Fail> {
    let alloc = rt.alloc();
    for is_old in [false, true] {
        let first = first_of(alloc, is_old)?;
        let text = journal(alloc, &first, 4)?;
        for piece in [1, 7, 128, 129, 1_000] {
            let (found, records) = read(alloc, &first, &text, piece)?;
            assert_eq!(rt; found.ending, Ending::Whole);
            assert_eq!(rt; found.kept, text.len() as u64);
            assert_eq!(rt; found.lines, 7);
            assert_eq!(rt;
                found.sound(),
                Front {
                    bytes: found.kept,
                    records: 4
                }
            );
            assert_eq!(rt; found.journal.len(), 4);
            assert_eq!(rt; records.len(), 4);
            assert_eq!(rt; records.last().copied(), event(3));
        }
        let other = first_of(alloc, !is_old)?;
        let mut reading = Reading::new(alloc, Form::Two, &other)?;
        let mut records = Vec::new(alloc);
        let taken = reading.take(alloc, &text, &mut records);
        assert_eq!(rt; taken, Err(NotRead::OtherFirst));
        let reading = Reading::new(alloc, Form::Two, &other)?;
        assert!(rt; matches!(&reading.end(), Err(NotRead::OtherFirst)));
    }
    Ok(())
}

#[test]
fn cut_anywhere_its_front_is_read(rt: HostRuntime) -> Result<(), Fail> {
    let alloc = rt.alloc();
    let first = first_of(alloc, false)?;
    let text = journal(alloc, &first, 4)?;
    for cut in first.len() + 1..text.len() {
        let bytes = text.get(..cut).ok_or("too long")?;
        let (found, _) = read(alloc, &first, bytes, 11)?;
        let is_whole = bytes.ends_with(b"\n");
        assert_eq!(rt; found.ending == Ending::Whole, is_whole, "cut at {cut}");
        assert_eq!(rt; found.kept == cut as u64, is_whole, "cut at {cut}");
        assert!(rt; found.kept <= cut as u64, "cut at {cut}");
    }
    Ok(())
}

#[test]
fn a_changed_byte_is_found(rt: HostRuntime) -> Result<(), Fail> {
    let alloc = rt.alloc();
    let first = first_of(alloc, false)?;
    let mut text = journal(alloc, &first, 4)?;
    // Of the last sum, which is `= 4 ` and 64 digits and a space and 10 digits and a line feed.
    let sum = text.len().saturating_sub(80);
    for at in first.len() + 1..text.len() {
        let was = text.get(at).copied().ok_or("too far")?;
        *text.get_mut(at).ok_or("too far")? = b'x';
        let (found, _) = read(alloc, &first, &text, 100)?;
        // It or a line behind it has an equals sign, unless that of the last sum is what was changed.
        let is_damage = matches!(found.ending, Ending::Damaged(_));
        let hides = at == sum;
        // Another digit of the second would be as good, but no `x` is.
        let is_last = at.saturating_add(1) == text.len();
        assert_eq!(rt; is_damage, !hides && !is_last, "at {at}");
        assert!(rt; found.kept <= at as u64 || is_last, "at {at}");
        assert!(rt; found.sound().bytes <= found.kept, "at {at}");
        *text.get_mut(at).ok_or("too far")? = was;
    }
    Ok(())
}

/// How a journal with one record ends behind which these bytes stand.
fn ending_of(alloc: Global, rest: &[u8]) -> Result<Ending, Fail> {
    let first = first_of(alloc, false)?;
    let mut text = journal(alloc, &first, 1)?;
    let kept = text.len() as u64;
    text.extend_from_slice(rest)?;
    let (found, records) = read(alloc, &first, &text, 61)?;
    let sound = found.sound().bytes;
    if records.len() == 1 && found.kept == kept && sound <= kept {
        Ok(found.ending)
    } else {
        Err(Fail::from("a line too many"))
    }
}

/// How a journal with one record ends behind which so many lines like this stand.
fn ending_with(alloc: Global, line: &[u8], count: usize) -> Result<Ending, Fail> {
    let mut rest = Vec::new(alloc);
    for _ in 0..count {
        rest.extend_from_slice(line)?;
        rest.push(b'\n')?;
    }
    ending_of(alloc, &rest)
}

#[test]
fn no_more_than_a_torn_batch_is_cut(rt: HostRuntime) -> Result<(), Fail> {
    let alloc = rt.alloc();
    let none = Fault::NoRecord;
    assert_eq!(rt; ending_with(alloc, b"x", 1_025)?, Ending::Cut(none));
    assert_eq!(rt; ending_with(alloc, b"x", 1_026)?, Ending::Damaged(none));
    assert_eq!(rt;
        ending_with(alloc, b"= x", 1)?,
        Ending::Damaged(Fault::WrongSum)
    );
    assert_eq!(rt; ending_with(alloc, b"x\n= x", 1)?, Ending::Damaged(none));
    // A line that is longer than one may be can hide sums: no start drops it.
    assert_eq!(rt; ending_with(alloc, &[0u8; 128], 1)?, Ending::Cut(none));
    assert_eq!(rt; ending_with(alloc, &[0u8; 129], 1)?, Ending::Damaged(none));
    assert_eq!(rt;
        ending_with(alloc, &[0u8; 5_000], 1)?,
        Ending::Damaged(none)
    );
    let mut later = Vec::from_slice(alloc, b"x\n")?;
    later.extend_from_slice(&[0u8; 129])?;
    assert_eq!(rt; ending_with(alloc, &later, 1)?, Ending::Damaged(none));
    Ok(())
}

#[test]
fn no_more_than_a_line_is_torn(rt: HostRuntime) -> Result<(), Fail> {
    let alloc = rt.alloc();
    let none = Fault::NoRecord;
    for many in [1, 61, 128] {
        let torn = vec![in alloc; 0u8; many]?;
        assert_eq!(rt; ending_of(alloc, &torn)?, Ending::Torn, "{many}");
    }
    for many in [129, 130, 5_000] {
        let torn = vec![in alloc; 0u8; many]?;
        assert_eq!(rt; ending_of(alloc, &torn)?, Ending::Damaged(none), "{many}");
    }
    let mut sum = Vec::from_slice(alloc, b"= ")?;
    sum.extend_from_slice(&[b'1'; 126])?;
    assert_eq!(rt; ending_of(alloc, &sum)?, Ending::Torn);
    sum.push(b'1')?;
    assert_eq!(rt; ending_of(alloc, &sum)?, Ending::Damaged(Fault::WrongSum));
    let mut behind = Vec::from_slice(alloc, b"x\n")?;
    behind.extend_from_slice(&[0u8; 128])?;
    assert_eq!(rt; ending_of(alloc, &behind)?, Ending::Cut(none));
    behind.push(0)?;
    assert_eq!(rt; ending_of(alloc, &behind)?, Ending::Damaged(none));
    Ok(())
}

#[test]
fn a_repair_keeps_what_is_sound(rt: HostRuntime) -> Result<(), Fail> {
    let alloc = rt.alloc();
    let first = first_of(alloc, false)?;
    let batch = journal(alloc, &first, 2)?.len() as u64;
    let mut text = journal(alloc, &first, 3)?;
    text.extend_from_slice(b"= 3 0\n")?;
    let (found, _) = read(alloc, &first, &text, 64)?;
    assert_eq!(rt; found.ending.damage(), Some(Fault::WrongSum));
    assert_eq!(rt;
        found.sound(),
        Front {
            bytes: batch,
            records: 2
        }
    );
    let mut text = journal(alloc, &first, 3)?;
    let kept = text.len() as u64;
    text.extend_from_slice(b"x\n= 3 0\n")?;
    let (found, _) = read(alloc, &first, &text, 64)?;
    assert_eq!(rt; found.ending.damage(), Some(Fault::NoRecord));
    assert_eq!(rt;
        found.sound(),
        Front {
            bytes: kept,
            records: 3
        }
    );
    Ok(())
}

/// A file in memory, which tells its bytes.
#[derive(Drop)]
struct Tape {
    bytes: Vec<u8>,
    on_disk: Vec<u8>,
    is_full: bool,
}

impl Disk for Tape {
    ghost use Rattle.std.specs.Prelude.{Some};

    ghost written = { λ s. Some s.bytes.items };

    ghost synced = { λ s. Some s.on_disk.items };

    fn append(&mut self, bytes: &[u8]) -> Result<(), Failed> {
        if self.is_full {
            return Err(Failed);
        }
        match self.bytes.extend_from_slice(bytes) {
            Ok(()) => Ok(()),
            Err(_) => Err(Failed),
        }
    }

    fn sync(&mut self) -> Result<(), Failed> {
        match self.bytes.clone() {
            Ok(bytes) => {
                self.on_disk = bytes;
                Ok(())
            }
            Err(_) => Err(Failed),
        }
    }
}

/// A keeper of a new file.
fn keeper(alloc: Global, is_full: bool) -> Result<Keeper<Tape>, Fail> {
    let first = first_line(alloc, 2, FINGERPRINT)?;
    let journal = Journal::begin(&first);
    let mut bytes = first;
    bytes.push(b'\n')?;
    let tape = Tape {
        bytes,
        on_disk: Vec::new(alloc),
        is_full,
    };
    Ok(Keeper::new(alloc, tape, journal))
}

#[test]
fn a_file_has_what_was_taken(rt: HostRuntime) -> Result<(), Fail> {
    let alloc = rt.alloc();
    let mut keeper = keeper(alloc, false)?;
    for time in 0..4u32 {
        let record = event(u64::from(time)).ok_or("no tag")?;
        assert_eq!(rt; keeper.take(&record, SECOND), Ok(()));
        assert!(rt; keeper.waiting() > 0);
        if time % 2 == 1 {
            assert_eq!(rt; keeper.sync(SECOND), Ok(time + 1));
        } else {
            assert_eq!(rt; keeper.write(), Ok(time + 1));
        }
        assert_eq!(rt; keeper.waiting(), 0);
    }
    let text = journal(alloc, &first_of(alloc, false)?, 4)?;
    assert_eq!(rt; keeper.len(), 4);
    assert_eq!(rt; keeper.disk().bytes.as_slice(), text.as_slice());
    assert_eq!(rt; keeper.disk().on_disk.as_slice(), text.as_slice());
    Ok(())
}

#[test]
fn a_sum_stands_behind_each_1024(rt: HostRuntime) -> Result<(), Fail> {
    let alloc = rt.alloc();
    let mut keeper = keeper(alloc, false)?;
    for time in 0..2_050u64 {
        let record = event(time).ok_or("no tag")?;
        assert_eq!(rt; keeper.take(&record, SECOND), Ok(()));
    }
    assert_eq!(rt; keeper.end_batch(SECOND), Ok(2_050));
    let mut number = 0usize;
    let mut sums = 0usize;
    for line in keeper.disk().bytes.split(|byte| *byte == b'\n') {
        if line.starts_with(b"= ") {
            sums = sums.saturating_add(1);
            assert!(rt;
                number == 1_025 || number == 2_050 || number == 2_053,
                "a sum in line {number}"
            );
        }
        number = number.saturating_add(1);
    }
    assert_eq!(rt; sums, 3);
    Ok(())
}

#[test]
fn a_full_file_is_told(rt: HostRuntime) -> Result<(), Fail> {
    let mut keeper = keeper(rt.alloc(), true)?;
    let record = event(1).ok_or("no tag")?;
    assert_eq!(rt; keeper.take(&record, SECOND), Ok(()));
    assert_eq!(rt; keeper.write(), Err(Failed));
    assert_eq!(rt; keeper.end_batch(SECOND), Err(Failed));
    assert_eq!(rt; keeper.sync(SECOND), Err(Failed));
    assert!(rt; keeper.disk().on_disk.is_empty());
    Ok(())
}
