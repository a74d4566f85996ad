//! Reading what a journal's file has, in pieces: which of its bytes are kept, and why the rest is not.
ghost use Rattle.std.specs.Prelude.{◌≡◌, ◌+◌, ◌^◌, ◌<◌, ◌≤◌, ◌||◌, ℕ, suc, ◌++◌, [], List, IfOk, IfErr, IfSome, IfNone, OnOk, OnErr};
ghost use Rattle.std.specs.Prelude.{◌⊎◌, ◌↔◌, IsTrue, Err, Option, Some, None, length, take, drop, min, OnSome, MatchOption};
ghost use Rattle.warp_tag.specs.declared.form.Form.{Form};
ghost use Rattle.warp_record.specs.Lines.{IsOneLine};
ghost use Rattle.warp_record.specs.declared.record.Record.{Record};
ghost use Rattle.sha2.specs.Hashers.{Holds256};
ghost use Rattle.warp_journal.specs.Journal.{IsWrong, line_of};
ghost use Rattle.warp_journal.specs.Reading.{IsRead, IsRepaired, IsRest, damage_of, has_equals, most_torn, shows_more};
ghost use Rattle.warp_journal.specs.Pieces.{IsAt, IsKept, IsSaid, IsWhole, Reads, most_held};

use crate::journal::{Fault, Journal, fault_of};
use memchr::memchr;
use std::alloc::{AllocError, Global};
use warp_record::{MAX_LINE, Record};
use warp_tag::Form;

/// Of a torn batch so many lines may stand behind the one that does not go on.
const MOST_TORN: u32 = 1_024;

/// So many bytes are kept of a line that is not whole: one more than a line may have.
const MOST_HELD: usize = MAX_LINE + 1;

/// What is behind the bytes of a journal that are kept.
#[derive(Clone, Copy, Debug, PartialEq, Eq)]
pub enum Ending {
    /// Nothing.
    Whole,
    /// A torn line: at most 128 bytes, which have no line feed.
    Torn,
    /// A line that does not go on with the journal, for this reason, and no more than a torn batch: no whole line there
    /// has an equals sign, none has more than 128 bytes, also not a torn last one, and at most 1,024 stand behind that one. A
    /// loss of power may leave that.
    Cut(Fault),
    /// Such a line, and more than a torn batch: a whole line there has an equals sign, one has more than 128 bytes, or more of
    /// them stand behind. Or more than 128 bytes alone that have no line feed, for this reason.
    Damaged(Fault),
}

/// A front of a journal's bytes, of whole lines.
#[derive(Clone, Copy, Debug, PartialEq, Eq)]
pub struct Front {
    /// How many bytes it has.
    pub bytes: u64,
    /// How many records.
    pub records: u32,
}

/// What was read.
#[derive(Drop)]
pub struct Found {
    /// How many bytes are kept: whole lines.
    pub kept: u64,
    /// How many lines these are, the first among them.
    pub lines: u64,
    /// Those of them up to the last sum; where there is none, the first line.
    pub summed: Front,
    /// The journal that they are, to go on with.
    pub journal: Journal,
    /// What stands behind them.
    pub ending: Ending,
}

/// Why nothing was read.
#[derive(Clone, Copy, Debug, PartialEq, Eq)]
pub enum NotRead {
    /// The first line is another, or not whole.
    OtherFirst,
    /// No memory was to be had, or there are 2^64 bytes or more.
    NoMemory,
}

impl From<AllocError> for NotRead {
    ghost use Rattle.std.specs.Prelude.{◌≡◌};
    ghost use Rattle.warp_journal.specs.declared.reading.NotRead.TheVariants.{NoMemory};

    ghost from_gives = { λ _ fault. fault ≡ NoMemory };

    fn from(_refused: AllocError) -> NotRead {
        NotRead::NoMemory
    }
}

/// The first line of these bytes, without its line feed; `None` where they have no line feed.
#[tactic(auto, using(crate::proofs::Lines::found_line, crate::proofs::Lines::found_none))]
fn next_line(bytes: &[u8]) -> Option<&[u8]>
    ensures line { IfSome result (λ text. IsOneLine text.now
        × ((behind : List ℕ) × (bytes.now ≡ line_of text.now ++ behind))) }
    ensures none { IfNone result (IsOneLine bytes.now) }
{
    let end = memchr(b'\n', bytes)?;
    Some(&bytes[..end])
}

/// Whether this text has an equals sign, as each sum has and no record.
fn shows_sum(text: &[u8]) -> bool
    ensures { result ≡ has_equals text.now }
{
    match memchr(b'=', text) {
        Some(_) => true,
        None => false,
    }
}

/// Whether no torn batch has this line, of which these are the first 129 bytes: a sum may stand in it, or it is longer than
/// a line may be.
fn is_beyond(text: &[u8]) -> bool
    ensures { result ≡ shows_more text.now }
{
    shows_sum(text) || text.len() > MAX_LINE
}

/// What came of the lines behind those that are kept.
#[derive(Clone, Copy, Drop)]
struct Rest {
    /// Why the first of them does not go on.
    fault: Fault,
    /// How many whole ones stand behind that one; more than 1,024 are 1,025.
    behind: u32,
    /// Whether one of them is in no torn batch.
    is_more: bool,
}

impl Rest {
    /// Takes a whole line more, of which these are the first 129 bytes.
    fn take(&mut self, text: &[u8])
        ensures behind { (count : ℕ) → self.old.behind ≡ min count (suc most_torn) →
            self.new.behind ≡ min (suc count) (suc most_torn) }
        ensures more { self.new.is_more ≡ (self.old.is_more || shows_more text.now) }
        ensures fault { self.new.fault ≡ self.old.fault }
    {
        if self.behind <= MOST_TORN {
            self.behind += 1;
        }
        let more = is_beyond(text);
        self.is_more = self.is_more || more;
    }

    /// What is said of them, where so many bytes are held of a torn line behind them.
    fn ending(&self, torn: usize) -> Ending
        ensures { IsSaid self.now torn result }
    {
        if self.is_more || self.behind > MOST_TORN || torn > MAX_LINE {
            Ending::Damaged(self.fault)
        } else {
            Ending::Cut(self.fault)
        }
    }
}

/// The whole lines of a journal that came.
#[derive(Drop)]
struct Lines {
    form: Form,
    kept: u64,
    lines: u64,
    summed: Front,
    journal: Journal,
    rest: Option<Rest>,
}

impl Lines {
    /// Takes a line, if it goes on with the journal. At an `Err` all is as before.
    fn go_on(&mut self, alloc: Global, text: &[u8], records: &mut Vec<Record>) -> Result<(), Fault>
        ensures goes { OnOk result ((first before : List ℕ) (given : List Record) → IsOneLine text.now →
            IsKept first before (given ++ records.old.items) self.old →
            IsKept first (before ++ line_of text.now) (given ++ records.new.items) self.new) }
        ensures other { (self.new.form ≡ self.old.form) × (self.new.rest ≡ self.old.rest) }
        ensures same { OnErr result ((self.new ≡ self.old) × (records.new.items ≡ records.old.items)) }
        ensures err { IfErr result (λ fault. (fault ≡ Fault.NoMemory)
            ⊎ ((before : List ℕ) → Holds256 self.old.journal.sum before →
            IsWrong self.old.form self.old.journal.tells_seconds self.old.journal.count before text.now fault)) }
    {
        records.reserve(1)?;
        let kept = bytes_with(self.kept, text)?;
        let lines = one_more(self.lines)?;
        let found = self.journal.read(alloc, self.form, text)?;
        self.kept = kept;
        self.lines = lines;
        let Some(record) = found else {
            self.summed = Front {
                bytes: kept,
                records: self.journal.len(),
            };
            return Ok(());
        };
        records.push_reserved(record);
        Ok(())
    }

    /// Takes a whole line of which these are the first 129 bytes, if it goes on with the journal; why it does not.
    fn go_on_with(
        &mut self,
        alloc: Global,
        text: &[u8],
        records: &mut Vec<Record>,
    ) -> Result<Option<Fault>, NotRead>
        ensures goes { IfOk result (λ why. why ≡ None →
            (first before line : List ℕ) (given : List Record) → IsOneLine line → text.now ≡ take most_held line →
            IsKept first before (given ++ records.old.items) self.old →
            IsKept first (before ++ line_of line) (given ++ records.new.items) self.new) }
        ensures other { (self.new.form ≡ self.old.form) × (self.new.rest ≡ self.old.rest) }
        ensures same { IfOk result (λ why. OnSome why
            ((self.new ≡ self.old) × (records.new.items ≡ records.old.items))) }
        ensures wrong { IfOk result (λ why. IfSome why (λ fault. (before line : List ℕ) →
            text.now ≡ take most_held line → Holds256 self.old.journal.sum before →
            IsWrong self.old.form self.old.journal.tells_seconds self.old.journal.count before line fault)) }
        ensures err { IfErr result (λ why. why ≡ NotRead.NoMemory) }
    {
        if text.len() > MAX_LINE {
            return Ok(Some(fault_of(text)));
        }
        let Err(fault) = self.go_on(alloc, text, records) else {
            return Ok(None);
        };
        if fault == Fault::NoMemory {
            return Err(NotRead::NoMemory);
        }
        Ok(Some(fault))
    }

    /// Takes a whole line of which these are the first 129 bytes.
    fn take_line(
        &mut self,
        alloc: Global,
        text: &[u8],
        records: &mut Vec<Record>,
    ) -> Result<(), NotRead>
        ensures takes { OnOk result ((first before line : List ℕ) (given : List Record) → IsOneLine line →
            text.now ≡ take most_held line → IsWhole first before (given ++ records.old.items) self.old →
            IsWhole first (before ++ line_of line) (given ++ records.new.items) self.new) }
        ensures form { self.new.form ≡ self.old.form }
        ensures err { IfErr result (λ why. why ≡ NotRead.NoMemory) }
    {
        if let Some(rest) = &mut self.rest {
            rest.take(text);
            return Ok(());
        }
        if let Some(fault) = self.go_on_with(alloc, text, records)? {
            self.rest = Some(Rest {
                fault,
                behind: 0,
                is_more: is_beyond(text),
            });
        }
        Ok(())
    }
}

/// So many bytes, and those of a line with this text.
fn bytes_with(kept: u64, text: &[u8]) -> Result<u64, AllocError>
    ensures { IfOk result (λ bytes. bytes ≡ kept + length (line_of text.now)) }
{
    match kept.checked_add(text.len() as u64 + 1) {
        Some(bytes) => Ok(bytes),
        None => Err(AllocError),
    }
}

/// One more than so many lines.
fn one_more(lines: u64) -> Result<u64, AllocError>
    ensures { IfOk result (λ more. more ≡ lines + 1) }
{
    match lines.checked_add(1) {
        Some(more) => Ok(more),
        None => Err(AllocError),
    }
}

/// Whether nothing is held of a line.
fn is_fresh(held: &Vec<u8>) -> bool
    ensures { IsTrue result ↔ (length held.now.items ≡ 0) }
{
    held.is_empty()
}

/// Holds more bytes of a line that is not whole yet, as long as there are few of it.
fn hold(held: &mut Vec<u8>, bytes: &[u8]) -> Result<(), AllocError>
    ensures { OnOk result ((line : List ℕ) → held.old.items ≡ take most_held line →
        held.new.items ≡ take most_held (line ++ bytes.now)) }
{
    let room = MOST_HELD.saturating_sub(held.len());
    held.extend_from_slice(first_bytes(bytes, room))?;
    Ok(())
}

/// So many of these bytes, or all where there are fewer.
fn first_bytes(bytes: &[u8], count: usize) -> &[u8]
    ensures { result.now ≡ take count bytes.now }
{
    if count < bytes.len() {
        &bytes[..count]
    } else {
        bytes
    }
}

/// What stands behind so many of these bytes.
fn behind(bytes: &[u8], count: usize) -> &[u8]
    ensures { result.now ≡ drop count bytes.now }
{
    if count < bytes.len() {
        &bytes[count..]
    } else {
        b""
    }
}

/// How many of these bytes are of the first line, of which this is left; `None` where they are of another.
fn front_of(left: &[u8], bytes: &[u8]) -> Option<usize>
    ensures some { IfSome result (λ many. (many ≡ min (length left.now) (length bytes.now))
        × (take many left.now ≡ take many bytes.now)) }
    ensures none { IfNone result ((more behind : List ℕ) → bytes.now ++ more ≡ left.now ++ behind → ⊥) }
{
    let many = left.len().min(bytes.len());
    if left[..many] == bytes[..many] {
        Some(many)
    } else {
        None
    }
}

/// Reads a journal of a program of this form in pieces.
#[derive(Drop)]
pub struct Reading {
    /// The first line, with its line feed.
    first: Vec<u8>,
    /// How many bytes of it came.
    came: usize,
    lines: Lines,
    /// The first bytes of the line that is not whole.
    held: Vec<u8>,
}

impl Reading {
    /// The reading of a journal of a program of this form, whose first line this is, without its line feed, and of which
    /// nothing came yet.
    pub fn new(alloc: Global, form: Form, first: &[u8]) -> Result<Reading, AllocError>
        ensures { IfOk result (λ reading. Reads form first.now [] [] reading) }
    {
        let mut line = Vec::from_slice(alloc, first)?;
        line.push(b'\n')?;
        let kept = line.len() as u64;
        let summed = Front {
            bytes: kept,
            records: 0,
        };
        Ok(Reading {
            first: line,
            came: 0,
            lines: Lines {
                form,
                kept,
                lines: 1,
                summed,
                journal: Journal::begin(first),
                rest: None,
            },
            held: Vec::new(alloc),
        })
    }

    /// Takes what ends the line that is not whole, up to its line feed.
    fn take_end(
        &mut self,
        alloc: Global,
        text: &[u8],
        records: &mut Vec<Record>,
    ) -> Result<(), NotRead>
        ensures takes { OnOk result ((first before : List ℕ) (given : List Record) → IsOneLine text.now →
            IsAt first before (given ++ records.old.items) self.old →
            IsAt first (before ++ line_of text.now) (given ++ records.new.items) self.new) }
        ensures same { OnOk result ((self.new.first ≡ self.old.first) × (self.new.came ≡ self.old.came)
            × (self.new.lines.form ≡ self.old.lines.form)) }
        ensures err { IfErr result (λ why. why ≡ NotRead.NoMemory) }
    {
        if is_fresh(&self.held) {
            let line = first_bytes(text, MOST_HELD);
            self.lines.take_line(alloc, line, records)?;
            return Ok(());
        }
        hold(&mut self.held, text)?;
        self.lines.take_line(alloc, &self.held, records)?;
        self.held.clear();
        Ok(())
    }

    /// Takes bytes that stand behind those that came.
    fn take_behind(
        &mut self,
        alloc: Global,
        bytes: &[u8],
        records: &mut Vec<Record>,
    ) -> Result<(), NotRead>
        ensures takes { OnOk result ((first before : List ℕ) (given : List Record) →
            IsAt first before (given ++ records.old.items) self.old →
            IsAt first (before ++ bytes.now) (given ++ records.new.items) self.new) }
        ensures same { OnOk result ((self.new.first ≡ self.old.first) × (self.new.came ≡ self.old.came)
            × (self.new.lines.form ≡ self.old.lines.form)) }
        ensures err { IfErr result (λ why. why ≡ NotRead.NoMemory) }
    {
        let mut at = 0;
        while let Some(text) = next_line(&bytes[at..]) {
            self.take_end(alloc, text, records)?;
            at += text.len() + 1;
        }
        hold(&mut self.held, &bytes[at..])?;
        Ok(())
    }

    /// Takes the next piece of the file, and puts the records of its whole lines that are kept behind these. At an `Err`
    /// it is of no more use.
    pub fn take(
        &mut self,
        alloc: Global,
        bytes: &[u8],
        records: &mut Vec<Record>,
    ) -> Result<(), NotRead>
        ensures takes { OnOk result ((form : Form) (first before : List ℕ) (given : List Record) →
            Reads form first before (given ++ records.old.items) self.old →
            Reads form first (before ++ bytes.now) (given ++ records.new.items) self.new) }
        ensures other { result ≡ Err NotRead.OtherFirst → (form : Form) (first before : List ℕ) (given : List Record) →
            Reads form first before given self.old →
            (more behind : List ℕ) → (before ++ bytes.now) ++ more ≡ line_of first ++ behind → ⊥ }
    {
        let left = behind(&self.first, self.came);
        let Some(many) = front_of(left, bytes) else {
            return Err(NotRead::OtherFirst);
        };
        self.came += many;
        self.take_behind(alloc, &bytes[many..], records)?;
        Ok(())
    }

    /// What is said of what stands behind what is kept.
    fn ending(&self) -> Ending
        ensures { (first bytes : List ℕ) (records : List Record) → IsAt first bytes records self.now →
            IsRest self.now.lines.form self.now.lines.journal (take self.now.lines.kept bytes)
            (drop self.now.lines.kept bytes) result }
    {
        let torn = self.held.len();
        if let Some(rest) = self.lines.rest {
            return rest.ending(torn);
        }
        if torn > MAX_LINE {
            return Ending::Damaged(fault_of(&self.held));
        }
        if is_fresh(&self.held) {
            Ending::Whole
        } else {
            Ending::Torn
        }
    }

    /// What was read, where no more comes: the only error is another first line, or one that is not whole.
    pub fn end(self) -> Result<Found, NotRead>
        ensures read { IfOk result (λ found. (form : Form) (first bytes : List ℕ) (records : List Record) →
            Reads form first bytes records self → IsRead form first bytes records found) }
        ensures other { IfErr result (λ why. (why ≡ NotRead.OtherFirst) × ((form : Form) (first bytes : List ℕ)
            (records : List Record) → Reads form first bytes records self →
            (behind : List ℕ) → bytes ≡ line_of first ++ behind → ⊥)) }
    {
        if self.came < self.first.len() {
            return Err(NotRead::OtherFirst);
        }
        let ending = self.ending();
        let Lines {
            kept,
            lines,
            summed,
            journal,
            ..
        } = self.lines;
        Ok(Found {
            kept,
            lines,
            summed,
            journal,
            ending,
        })
    }
}

impl Ending {
    /// Why the journal is damaged, if it is: then no start drops what stands behind what is kept, but a repair alone.
    pub fn damage(self) -> Option<Fault>
        ensures { result ≡ damage_of self }
    {
        match self {
            Ending::Damaged(fault) => Some(fault),
            Ending::Whole | Ending::Torn | Ending::Cut(_) => None,
        }
    }
}

impl Found {
    /// What a repair keeps: what is kept; and where a sum does not fit, of that what stands in front of its last sum, and
    /// that, since what the wrong one is over may be what was changed.
    pub fn sound(&self) -> Front
        ensures { (form : Form) (first bytes : List ℕ) (records : List Record) →
            IsRead form first bytes records self.now →
            IsRepaired first (take self.now.kept bytes) records self.now.ending result }
    {
        match self.ending {
            Ending::Cut(Fault::WrongSum) | Ending::Damaged(Fault::WrongSum) => self.summed,
            _ => Front {
                bytes: self.kept,
                records: self.journal.len(),
            },
        }
    }
}
