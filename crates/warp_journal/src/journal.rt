//! The text of a journal, written and read a line at a time.
ghost use Rattle.std.specs.Prelude.{◌≡◌, ◌⊎◌, ◌≤◌, ◌<◌, [], ◌∷◌, ◌++◌, List, ℕ, IfOk, IfErr, IfSome, IfNone, OnOk, OnErr};
ghost use Rattle.std.specs.Prelude.{◌^◌, None, Option, length, codes, decimal};
ghost use Rattle.warp_tag.specs.declared.form.Form.{Form};
ghost use Rattle.warp_record.specs.Record.{IsRecord, record_spelling};
ghost use Rattle.warp_record.specs.declared.record.Record.{Record};
ghost use Rattle.sha2.specs.Hashers.{Holds256};
ghost use Rattle.warp_journal.specs.Journal.{IsFaultOf, IsNext, IsWrong, Keeps, begins_sum, first_text, line_of};
ghost use Rattle.warp_journal.specs.Journal.{most_written, old_first_text, plain_sum, sum_text, tells_seconds};
ghost use Rattle.warp_journal.specs.Journal.{with_found, with_second};

use itoa::Buffer;
use sha2::{Digest, Sha256};
use std::alloc::{AllocError, Global};
use std::str;
use warp_record::{Line, REPLY_ROOM, Record, one_spelling, read_line, wider_line, write_record};
use warp_tag::Form;

/// The most records of a journal.
const MOST_WRITTEN: u32 = 4_000_000_000;

/// What a journal's next line depends on: the sum over all of its text, how many records it has, and its form.
#[derive(Drop)]
pub struct Journal {
    sum: Sha256,
    count: u32,
    tells_seconds: bool,
}

/// Why a line does not go on with a journal.
#[derive(Clone, Copy, Debug, PartialEq, Eq)]
pub enum Fault {
    /// It is neither a record of the form nor a sum.
    NoRecord,
    /// It begins as a sum does, and is not that of what stands before it.
    WrongSum,
    /// The journal has the most records that it may have.
    TooMany,
    /// No memory was to be had.
    NoMemory,
}

impl From<AllocError> for Fault {
    ghost use Rattle.std.specs.Prelude.{◌≡◌};
    ghost use Rattle.warp_journal.specs.declared.journal.Fault.TheVariants.{NoMemory};

    ghost from_gives = { λ _ fault. fault ≡ NoMemory };

    fn from(_refused: AllocError) -> Fault {
        Fault::NoMemory
    }
}

/// The text of a first line, without its line feed: the version of program files, 1 to 3, and the program's fingerprint.
pub fn first_line(alloc: Global, version: u32, fingerprint: &[u8]) -> Result<Vec<u8>, AllocError>
    ensures { IfOk result (λ made. made.items ≡ first_text version fingerprint.now) }
{
    let mut number = Buffer::new();
    let mut text = Vec::from_slice(alloc, b"warpd journal 2 ")?;
    text.extend_from_slice(number.format(version).as_bytes())?;
    text.extend_from_slice(b" ")?;
    text.extend_from_slice(fingerprint)?;
    Ok(text)
}

/// So for a journal of form 1, which is read and gone on with, and begun no more.
pub fn old_first_line(
    alloc: Global,
    version: u32,
    fingerprint: &[u8],
) -> Result<Vec<u8>, AllocError>
    ensures { IfOk result (λ made. made.items ≡ old_first_text version fingerprint.now) }
{
    let mut number = Buffer::new();
    let mut text = Vec::from_slice(alloc, b"warpd journal 1 ")?;
    text.extend_from_slice(number.format(version).as_bytes())?;
    text.extend_from_slice(b" ")?;
    text.extend_from_slice(fingerprint)?;
    Ok(text)
}

/// The text of a sum that tells no second, without its line feed.
fn sum_line(alloc: Global, sum: &Sha256, count: u32) -> Result<Vec<u8>, AllocError>
    ensures { (before : List ℕ) → Holds256 sum.now before → IfOk result (λ made. made.items ≡ plain_sum count before) }
{
    let digest = sum.clone()?.finalize();
    let digits = hex::encode(alloc, digest)?;
    let mut number = Buffer::new();
    let mut text = Vec::from_slice(alloc, b"= ")?;
    text.extend_from_slice(number.format(count).as_bytes())?;
    text.extend_from_slice(b" ")?;
    text.extend_from_slice(digits.as_bytes())?;
    Ok(text)
}

/// Puts the second behind the text of a sum.
fn add_second(text: &mut Vec<u8>, second: u64) -> Result<(), AllocError>
    ensures { OnOk result (text.new.items ≡ text.old.items ++ (codes " " ++ decimal second)) }
{
    let mut number = Buffer::new();
    text.extend_from_slice(b" ")?;
    text.extend_from_slice(number.format(second).as_bytes())?;
    Ok(())
}

/// The number of at most 64 bits that these bytes spell.
fn read_number(bytes: &[u8]) -> Option<u64>
    ensures found { IfSome result (λ number. (number < 2 ^ 64) × (bytes.now ≡ decimal number)) }
    ensures none { IfNone result ((number : ℕ) → number < 2 ^ 64 → bytes.now ≡ decimal number → ⊥) }
{
    let Ok(text) = str::from_utf8(bytes) else {
        return None;
    };
    let Ok(number) = text.parse::<u64>() else {
        return None;
    };
    let mut spelled = Buffer::new();
    if spelled.format(number).as_bytes() == bytes {
        Some(number)
    } else {
        None
    }
}

/// The second of which this is the number, behind a space.
fn read_second(text: &[u8]) -> Option<u64>
    ensures found { IfSome result (λ second. (second < 2 ^ 64) × (text.now ≡ codes " " ++ decimal second)) }
    ensures none { IfNone result ((second : ℕ) → second < 2 ^ 64 → text.now ≡ codes " " ++ decimal second → ⊥) }
{
    read_number(text.strip_prefix(b" ")?)
}

/// The second that this text tells behind that of a sum, where it tells one; if not, 0 where it is that.
fn second_of(plain: &[u8], tells_second: bool, text: &[u8]) -> Option<u64>
    ensures found { IfSome result (λ second. (second < 2 ^ 64) × (text.now ≡ with_second tells_second plain.now second)) }
    ensures none { IfNone result ((second : ℕ) → second < 2 ^ 64 →
        text.now ≡ with_second tells_second plain.now second → ⊥) }
{
    if tells_second {
        return read_second(text.strip_prefix(plain)?);
    }
    if text == plain { Some(0) } else { None }
}

/// Whether the text of a line begins as that of a sum does.
pub(crate) fn is_sum(text: &[u8]) -> bool
    ensures { result ≡ begins_sum text.now }
{
    text.starts_with(b"= ")
}

/// The record of this form whose spelling this is.
fn read_said(form: Form, text: &[u8]) -> Option<Record>
    ensures found { IfSome result (λ said. IsRecord form said × (text.now ≡ record_spelling said)) }
    ensures none { IfNone result ((said : Record) → IsRecord form said → text.now ≡ record_spelling said → ⊥) }
{
    // Two lines with one spelling are one line.
    one_spelling();
    wider_line();
    match read_line(form, text) {
        Some(Line::Put(record)) => Some(record),
        Some(Line::Ask(_)) => None,
        Some(Line::Collect) => None,
        Some(Line::Look(_)) => None,
        None => None,
    }
}

/// Why a line with this text does not go on with a journal that it does not go on with.
pub(crate) fn fault_of(text: &[u8]) -> Fault
    ensures { IsFaultOf text.now result }
{
    if is_sum(text) {
        Fault::WrongSum
    } else {
        Fault::NoRecord
    }
}

impl Journal {
    /// The journal that has this first line, without its line feed, and no record yet. It is of form 2 where that line
    /// says so.
    pub fn begin(first: &[u8]) -> Journal
        ensures { Keeps first.now result (line_of first.now) [] }
    {
        let mut sum = Sha256::new();
        sum.update(first);
        sum.update(b"\n");
        Journal {
            sum,
            count: 0,
            tells_seconds: first.starts_with(b"warpd journal 2 "),
        }
    }

    /// How many records it has.
    pub fn len(&self) -> u32
        ensures { result ≡ self.now.count }
    {
        self.count
    }

    /// Takes a line that goes on with it.
    fn go_on(&mut self, text: &[u8])
        ensures sum { (before : List ℕ) → Holds256 self.old.sum before →
            Holds256 self.new.sum (before ++ line_of text.now) }
        ensures count { self.new.count ≡ self.old.count }
        ensures seconds { self.new.tells_seconds ≡ self.old.tells_seconds }
    {
        self.sum.update(text);
        self.sum.update(b"\n");
    }

    /// Writes a record's line behind what waits to be written. At an `Err` nothing was written.
    pub fn write(&mut self, record: &Record, out: &mut Vec<u8>) -> Result<(), Fault>
        ensures line { OnOk result (out.new.items ≡ out.old.items ++ line_of (record_spelling «record».now)) }
        ensures journal { OnOk result ((first text : List ℕ) (records : List Record) →
            Keeps first self.old text records →
            Keeps first self.new (text ++ line_of (record_spelling «record».now)) (records ++ «record».now ∷ [])) }
        ensures kept { OnErr result ((self.new ≡ self.old) × (out.new.items ≡ out.old.items)) }
        ensures err { IfErr result (λ fault. (fault ≡ Fault.NoMemory)
            ⊎ ((fault ≡ Fault.TooMany) × (most_written ≤ self.old.count))) }
    {
        if self.count >= MOST_WRITTEN {
            return Err(Fault::TooMany);
        }
        out.reserve(REPLY_ROOM)?;
        let start = out.len();
        write_record(out, record);
        self.go_on(&out[start..]);
        self.count += 1;
        out.push_reserved(b'\n');
        Ok(())
    }

    /// The text of the sum over all that stands before it, without its line feed, if it is written in this second of UTC.
    fn sum_of(&self, alloc: Global, second: u64) -> Result<Vec<u8>, AllocError>
        ensures { (before : List ℕ) → Holds256 self.now.sum before → IfOk result (λ made.
            made.items ≡ sum_text self.now.tells_seconds self.now.count before second) }
    {
        let mut text = sum_line(alloc, &self.sum, self.count)?;
        if self.tells_seconds {
            add_second(&mut text, second)?;
        }
        Ok(text)
    }

    /// Writes the line of the sum over all that stands before it, in this second of UTC. At an `Err` nothing was
    /// written.
    pub fn write_sum(
        &mut self,
        alloc: Global,
        second: u64,
        out: &mut Vec<u8>,
    ) -> Result<(), AllocError>
        ensures line { OnOk result ((text : List ℕ) → Holds256 self.old.sum text →
            out.new.items ≡ out.old.items ++ line_of (sum_text self.old.tells_seconds self.old.count text second)) }
        ensures journal { OnOk result ((first text : List ℕ) (records : List Record) →
            Keeps first self.old text records →
            Keeps first self.new (text ++ line_of (sum_text (tells_seconds first) (length records) text second)) records) }
        ensures kept { OnErr result ((self.new ≡ self.old) × (out.new.items ≡ out.old.items)) }
    {
        let mut line = self.sum_of(alloc, second)?;
        line.reserve(1)?;
        out.reserve(line.len() + 1)?;
        self.go_on(&line);
        line.push_reserved(b'\n');
        out.extend_from_slice(&line)?;
        Ok(())
    }

    /// Takes the text of a line, without its line feed, that stands behind what it has: a record of this form, or
    /// `None` for a sum. At an `Err` it is as before; unless that is want of memory or of room, the line goes on with no
    /// journal of this form. It is `WrongSum` exactly where the line begins as a sum does.
    pub fn read(&mut self, alloc: Global, form: Form, text: &[u8]) -> Result<Option<Record>, Fault>
        ensures next { IfOk result (λ found. (before : List ℕ) → Holds256 self.old.sum before →
            IsNext form self.old.tells_seconds self.old.count before text.now found) }
        ensures journal { IfOk result (λ found. (first before : List ℕ) (records : List Record) →
            Keeps first self.old before records →
            Keeps first self.new (before ++ line_of text.now) (with_found records found)) }
        ensures kept { OnErr result (self.new ≡ self.old) }
        ensures err { IfErr result (λ fault. (fault ≡ Fault.NoMemory)
            ⊎ ((before : List ℕ) → Holds256 self.old.sum before →
            IsWrong form self.old.tells_seconds self.old.count before text.now fault)) }
    {
        let Some(record) = read_said(form, text) else {
            return self.read_sum(alloc, text);
        };
        if self.count >= MOST_WRITTEN {
            return Err(Fault::TooMany);
        }
        self.go_on(text);
        self.count += 1;
        Ok(Some(record))
    }

    /// Takes the text of a sum so.
    fn read_sum(&mut self, alloc: Global, text: &[u8]) -> Result<Option<Record>, Fault>
        ensures found { IfOk result (λ found. (found ≡ None) × ((before : List ℕ) → Holds256 self.old.sum before →
            ((second : ℕ) × (second < 2 ^ 64)
            × (text.now ≡ sum_text self.old.tells_seconds self.old.count before second))
            × Holds256 self.new.sum (before ++ line_of text.now))) }
        ensures same { (self.new.count ≡ self.old.count) × (self.new.tells_seconds ≡ self.old.tells_seconds) }
        ensures kept { OnErr result (self.new ≡ self.old) }
        ensures err { IfErr result (λ fault. (fault ≡ Fault.NoMemory)
            ⊎ (((before : List ℕ) (second : ℕ) → Holds256 self.old.sum before → second < 2 ^ 64 →
            text.now ≡ sum_text self.old.tells_seconds self.old.count before second → ⊥)
            × IsFaultOf text.now fault)) }
    {
        let line = sum_line(alloc, &self.sum, self.count)?;
        let Some(_second) = second_of(&line, self.tells_seconds, text) else {
            return Err(fault_of(text));
        };
        self.go_on(text);
        Ok(None)
    }
}
