//! The file of a journal: it is locked, read and mended before a host begins.
ghost use Rattle.std.specs.Prelude.{◌≡◌, ◌++◌, ℕ, List, OnOk};
ghost use Rattle.warp_record.specs.declared.record.Record.{Record};
ghost use Rattle.warp_journal.specs.Keeping.{KeepsAll};
ghost use Rattle.warp_disk.specs.Telling.{IsInterval, IsSynced, told_with};

use crate::durable::Tells;
use crate::fresh_file::{
    JournalPlace, OWNER_ALONE, PIECE, begin, begin_beside, id_of, is_left, keep_aside, length_of,
    lock_file, open_left, open_regular, real_path, refuse_special_file, sync_folder, take_place,
};
use crate::journal_faults::{FileFault, OpenFault, tell_file_fault};
use crate::operator::plural;
use crate::renewal::take_in_batches;
use crate::scribe::second_now;
use std::alloc::Global;
use std::fs::{self, File, Files, OpenOptions};
use std::io::{self, Eprint, Read, Seek, Write};
use std::os::unix::fs::OpenOptionsExt;
use std::time::{Clock, Duration};
use warp_journal::{Disk, Ending, Failed, Fault, Found, Journal, Keeper, NotRead, Reading};
use warp_line::Timeline;
use warp_record::{Record, Refusal};
use warp_replica::{Replica, Took};

/// When a journal is brought to the disk.
#[derive(Clone, Copy, Debug, PartialEq, Eq)]
pub enum SyncWhen {
    /// Before it is told of.
    Always,
    /// So many milliseconds after it came.
    Every(u64),
    /// When the system does it.
    Never,
}

impl SyncWhen {
    /// How long a record may wait to be brought to the disk by this host.
    pub(crate) fn interval(self) -> Duration
        ensures { IsInterval «self» result }
    {
        match self {
            SyncWhen::Always => Duration::from_millis(0),
            SyncWhen::Every(milliseconds) => Duration::from_millis(milliseconds),
            SyncWhen::Never => Duration::MAX,
        }
    }

    /// Of which records may be told.
    pub(crate) fn tells(self) -> Tells
        ensures { result ≡ told_with «self» }
    {
        match self {
            SyncWhen::Always => Tells::Synced,
            SyncWhen::Every(_) | SyncWhen::Never => Tells::Written,
        }
    }
}

/// A file of a journal that is written to.
#[derive(Drop)]
pub struct JournalFile {
    pub(crate) file: File,
    // How many bytes it has.
    len: u64,
    fault: Option<io::Error>,
}

impl Disk for JournalFile {
    ghost use Rattle.std.specs.Prelude.{None};

    ghost written = { λ _. None };

    ghost synced = { λ _. None };

    fn append(&mut self, bytes: &[u8]) -> Result<(), Failed> {
        match self.file.write_all(bytes) {
            Ok(()) => {
                self.len = self.len.saturating_add(bytes.len() as u64);
                Ok(())
            }
            Err(error) => {
                self.fault = Some(error);
                Err(Failed)
            }
        }
    }

    fn sync(&mut self) -> Result<(), Failed> {
        match self.file.sync_data() {
            Ok(()) => Ok(()),
            Err(error) => {
                self.fault = Some(error);
                Err(Failed)
            }
        }
    }
}

impl JournalFile {
    /// This file, which has so many bytes.
    pub(crate) fn new(file: File, len: u64) -> JournalFile {
        JournalFile {
            file,
            len,
            fault: None,
        }
    }

    /// How many bytes it has.
    pub(crate) fn len(&self) -> u64 {
        self.len
    }

    /// Why it could not be written, if the system said so.
    pub(crate) fn fault(&self) -> Option<io::Error> {
        self.fault
    }
}

/// The journal of a host that begins.
#[derive(Drop)]
pub struct OpenJournal {
    pub(crate) keeper: Keeper<JournalFile>,
    /// A second handle of its file.
    pub(crate) handle: JournalFile,
    pub(crate) place: JournalPlace,
    pub(crate) when: SyncWhen,
    pub(crate) lock: File,
}

/// The first lines that a journal of a program may have, without their line feeds.
#[derive(Clone, Copy)]
pub struct FirstLines<'a> {
    /// That of a new journal.
    pub new: &'a [u8],
    /// That of one of form 1.
    pub old: &'a [u8],
}

/// Takes the lock of the journal at this path, which stands beside it. All paths that lead to the journal, but for hard
/// links, have one lock. Who may read its file may hold it: one that is made is for its owner alone.
pub fn lock_journal<F: Files<File = File>>(
    files: &F,
    alloc: Global,
    path: &str,
) -> Result<File, FileFault> {
    let mut name = real_path(files, alloc, path)?;
    name.push_str(".lock")?;
    let lock = open_regular(files, name.as_str(), OWNER_ALONE, FileFault::NoLock)?;
    lock_file(&lock)?;
    Ok(lock)
}

/// Counts lines and records of a journal in front of a record.
#[derive(Clone, Copy)]
struct Count {
    line: u64,
    records: u32,
    begins: bool,
}

impl Count {
    /// Goes on over these bytes, up to the record at this place, from 0; whether it is reached.
    fn reaches(&mut self, bytes: &[u8], place: u32) -> bool {
        for byte in bytes {
            if self.begins {
                self.line = self.line.saturating_add(1);
                if self.line > 1 && *byte != b'=' {
                    if self.records == place {
                        return true;
                    }
                    self.records = self.records.saturating_add(1);
                }
            }
            self.begins = *byte == b'\n';
        }
        false
    }
}

/// The number of the line, from 1, that has the record at this place, from 0.
fn line_of_record(alloc: Global, file: &mut File, place: u32) -> Result<u64, FileFault> {
    let mut piece = vec![in alloc; 0u8; PIECE]?;
    let mut count = Count {
        line: 0,
        records: 0,
        begins: true,
    };
    file.rewind()?;
    for _ in 0..u64::MAX {
        let len = file.read(&mut piece)?;
        if len == 0 || count.reaches(piece.get(..len).unwrap_or(b""), place) {
            break;
        }
    }
    Ok(count.line)
}

/// What is said of a line that does not go on with a journal.
pub fn words_of(fault: Fault) -> &'static str {
    match fault {
        Fault::NoRecord => "is no record of this program's form, and no sum",
        Fault::WrongSum => "is not the sum of what stands before it",
        Fault::TooMany => "is one record too many",
        Fault::NoMemory => "found no memory",
    }
}

/// Tells that this line is damaged, and what to do.
fn tell_damage<X: Eprint>(rt: &X, fault: Fault, line: u64) {
    let why = words_of(fault);
    let kept = "what is in front of it, and where it is a wrong sum only up to the last right one";
    let _ = eprintln!(rt; "journal: line {line} {why}; `warpd journal repair FILE` keeps {kept}");
}

/// Tells what was at the end of a journal that was read, how many bytes of it were cut off, and the path of the file that
/// has them.
fn tell_ending<X: Eprint>(rt: &X, ending: Ending, line: u64, cut: u64, aside: &str) {
    let (s, are) = plural(cut);
    let why = match ending {
        Ending::Whole => return,
        Ending::Torn => "is torn",
        Ending::Cut(fault) | Ending::Damaged(fault) => words_of(fault),
    };
    let _ = eprintln!(rt;
        "journal: line {line} {why}; {cut} byte{s} {are} cut off, and kept in {aside}"
    );
}

/// Tells that the fresh file that was left had what the journal has not, that is kept at the end of the file at this path.
fn tell_left<X: Eprint>(rt: &X, len: u64, aside: &str) {
    let (s, are) = plural(len);
    let _ = eprintln!(rt;
        "journal: FILE.new had what FILE has not; its {len} byte{s} {are} kept at the end of {aside}"
    );
}

/// Tells how many records a journal has that is gone on with, or that it is begun.
fn tell_opened<X: Eprint>(rt: &X, count: u32, was_there: bool) {
    let (s, _) = plural(u64::from(count));
    let _ = if was_there {
        eprintln!(rt; "journal: {count} record{s}")
    } else {
        rt.eprintln("journal: begun, since it was empty or not there")
    };
}

/// Has the replica take these records, all of which are new to it; else why it did not take one, `None` for one that it
/// has.
fn replay<T: Timeline>(
    alloc: Global,
    replica: &mut Replica<T>,
    records: &[Record],
) -> Result<(), Option<Refusal>>
    ensures { OnOk result (replica.new.records ≡ replica.old.records ++ records.now) }
{
    for record in records {
        match replica.take(alloc, record) {
            Ok(Took::New(_)) => {}
            Ok(Took::Known(_)) => return Err(None),
            Err(refusal) => return Err(Some(refusal)),
        }
    }
    Ok(())
}

/// Tells which record a replica did not take, and gives why the journal can't be gone on with.
fn tell_refused<X: Eprint>(rt: &X, line: u64, refusal: Option<Refusal>) -> FileFault {
    let _ = match refusal {
        Some(refusal) => {
            let number = refusal.number();
            eprintln!(rt; "journal: the record of line {line} is refused {number}")
        }
        None => eprintln!(rt; "journal: the record of line {line} stands in front of it too"),
    };
    FileFault::Open(OpenFault::Refused(line))
}

/// The fault of a reading that ended.
fn not_read(why: NotRead) -> FileFault {
    match why {
        NotRead::OtherFirst => FileFault::Open(OpenFault::OtherFirst),
        NotRead::NoMemory => FileFault::Open(OpenFault::NoMemory),
    }
}

/// Reads this file to its end, a piece at a time, and has the replica take its records.
fn read_all<X: Eprint, T: Timeline>(
    rt: &X,
    alloc: Global,
    file: &mut File,
    reading: &mut Reading,
    replica: &mut Replica<T>,
) -> Result<(), FileFault> {
    let mut piece = vec![in alloc; 0u8; PIECE]?;
    let mut records = Vec::new(alloc);
    file.rewind()?;
    for _ in 0..u64::MAX {
        let len = file.read(&mut piece)?;
        if len == 0 {
            break;
        }
        let bytes = piece.get(..len).unwrap_or(b"");
        if let Err(why) = reading.take(alloc, bytes, &mut records) {
            return Err(not_read(why));
        }
        match replay(alloc, replica, &records) {
            Ok(()) => records.clear(),
            Err(Some(Refusal::NoMemory)) => return Err(FileFault::Open(OpenFault::NoMemory)),
            Err(refusal) => {
                let line = line_of_record(alloc, file, replica.len())?;
                return Err(tell_refused(rt, line, refusal));
            }
        }
    }
    Ok(())
}

/// Reads the journal in this file, which begins with this first line, cuts off what is torn, and has the replica take
/// its records. What is cut off is kept aside: it is on the disk there before it goes.
fn go_on<X: Files<File = File> + Eprint, T: Timeline>(
    rt: &X,
    alloc: Global,
    path: &str,
    mut file: File,
    first: &[u8],
    replica: &mut Replica<T>,
) -> Result<(JournalFile, Journal), FileFault> {
    let mut reading = Reading::new(alloc, replica.program().form(), first)?;
    read_all(rt, alloc, &mut file, &mut reading, replica)?;
    let found = match reading.end() {
        Ok(found) => found,
        Err(why) => return Err(not_read(why)),
    };
    let Found {
        kept,
        lines,
        journal,
        ending,
        ..
    } = found;
    let line = lines.saturating_add(1);
    if let Some(fault) = ending.damage() {
        tell_damage(rt, fault, line);
        return Err(FileFault::Open(OpenFault::Damaged(line)));
    }
    let cut = file.metadata()?.len().saturating_sub(kept);
    if ending != Ending::Whole {
        let aside = keep_aside(rt, alloc, path, &mut file, kept)?;
        file.set_len(kept)?;
        tell_ending(rt, ending, line, cut, aside.as_str());
    }
    Ok((JournalFile::new(file, kept), journal))
}

/// Makes the file at this path where none is there. From then on all paths that lead to it have one lock. What is there
/// and no file of bytes is no journal.
fn make_file<F: Files<File = File>>(files: &F, path: &str) -> Result<(), FileFault> {
    refuse_special_file(files, path)?;
    let _file = OpenOptions::new()
        .append(true)
        .create(true)
        .mode(OWNER_ALONE)
        .open(files, path)?;
    Ok(())
}

/// The file at this path, locked.
fn open_file<F: Files<File = File>>(files: &F, path: &str) -> Result<File, FileFault> {
    let file = OpenOptions::new()
        .read(true)
        .append(true)
        .create(true)
        .open(files, path)?;
    lock_file(&file)?;
    Ok(file)
}

/// Begins a journal in this file, which has nothing but a front of its first line, unless what was told may be beside it.
fn begun<F: Files<File = File>>(
    files: &F,
    alloc: Global,
    file: File,
    place: &JournalPlace,
) -> Result<(JournalFile, Journal), FileFault> {
    let _is_left = is_left(files, alloc, place.path.as_str(), &place.first, 0)?;
    begin(alloc, file, &place.first)
}

/// Where nothing stands at this path, refuses what stands beside it where that may be the only copy of what was told. No
/// file is made then, but that of the lock, nor where another host has the lock: it writes its journal anew just now.
fn refuse_lost<F: Files<File = File>>(
    files: &F,
    alloc: Global,
    path: &str,
    first: &[u8],
) -> Result<(), FileFault> {
    if fs::symlink_metadata(files, path).is_ok() {
        return Ok(());
    }
    let _lock = lock_journal(files, alloc, path)?;
    let _is_left = is_left(files, alloc, path, first, 0)?;
    Ok(())
}

/// Where the journal of this file stands, that was opened by this path: no other took its place since.
fn place_of<F: Files<File = File>>(
    files: &F,
    alloc: Global,
    path: &str,
    file: &File,
    first: &[u8],
) -> Result<JournalPlace, FileFault> {
    let place = JournalPlace {
        path: real_path(files, alloc, path)?,
        first: Vec::from_slice(alloc, first)?,
        id: id_of(&file.metadata()?),
    };
    match length_of(files, &place) {
        Ok(_) => Ok(place),
        Err(FileFault::Gone) => Err(FileFault::Open(OpenFault::InUse)),
        Err(fault) => Err(fault),
    }
}

/// The front of this file, as much as there is room for; how many bytes that is.
fn read_front(file: &mut File, room: &mut [u8]) -> Result<usize, FileFault> {
    let mut len = 0usize;
    for _ in 0..room.len() {
        let Some(rest) = room.get_mut(len..) else {
            break;
        };
        let count = file.read(rest)?;
        if count == 0 {
            break;
        }
        len = len.saturating_add(count);
    }
    Ok(len)
}

/// The first line of this file, if it has one of these; `None` where it has a front of one, or nothing.
fn first_of<'a>(
    alloc: Global,
    file: &mut File,
    lines: FirstLines<'a>,
) -> Result<Option<&'a [u8]>, FileFault> {
    let FirstLines { new, old } = lines;
    let room = new.len().max(old.len()).saturating_add(1);
    let mut buffer = vec![in alloc; 0u8; room]?;
    let len = read_front(file, &mut buffer)?;
    let front = buffer.get(..len).unwrap_or(b"");
    if new.starts_with(front) || old.starts_with(front) {
        return Ok(None);
    }
    for first in [new, old] {
        if front.starts_with(first) && front.get(first.len()) == Some(&b'\n') {
            return Ok(Some(first));
        }
    }
    Err(FileFault::Open(OpenFault::OtherFirst))
}

/// Whether the replica's log has these records behind so many others.
fn has_records<T: Timeline>(replica: &Replica<T>, before: u32, records: &[Record]) -> bool {
    let mut place = before;
    for record in records {
        place = place.saturating_add(1);
        if replica.entry(place) != Some(*record) {
            return false;
        }
    }
    true
}

/// Whether the replica's log begins with all records of this file, which begins with this first line, and nothing else
/// stands there but sums and a torn line.
fn is_front_of_log<T: Timeline>(
    alloc: Global,
    left: &mut File,
    first: &[u8],
    replica: &Replica<T>,
) -> Result<bool, FileFault> {
    let mut reading = Reading::new(alloc, replica.program().form(), first)?;
    let mut piece = vec![in alloc; 0u8; PIECE]?;
    let mut records = Vec::new(alloc);
    let mut before = 0u32;
    left.rewind()?;
    for _ in 0..u64::MAX {
        let len = left.read(&mut piece)?;
        if len == 0 {
            break;
        }
        if let Err(why) = reading.take(alloc, piece.get(..len).unwrap_or(b""), &mut records) {
            return Err(not_read(why));
        }
        if !has_records(replica, before, &records) {
            return Ok(false);
        }
        before = before.saturating_add(u32::try_from(records.len()).unwrap_or(u32::MAX));
        records.clear();
    }
    match reading.end() {
        Ok(found) => Ok(matches!(found.ending, Ending::Whole | Ending::Torn)),
        Err(why) => Err(not_read(why)),
    }
}

/// Whether a file that was left has nothing that the replica's log has not at the same place.
fn has_nothing_more<T: Timeline>(
    alloc: Global,
    left: &mut File,
    lines: FirstLines<'_>,
    replica: &Replica<T>,
) -> Result<bool, FileFault> {
    match first_of(alloc, left, lines) {
        Ok(Some(first)) => is_front_of_log(alloc, left, first, replica),
        // It has a front of a first line, or nothing.
        Ok(None) => Ok(true),
        Err(FileFault::Open(OpenFault::OtherFirst)) => Ok(false),
        Err(fault) => Err(fault),
    }
}

/// Moves aside what a host left in the fresh file beside the journal at this path, where that has what the journal has
/// not: it is on the disk there before it goes. The file stays, as a mark.
fn keep_left<X: Files<File = File> + Eprint, T: Timeline>(
    rt: &X,
    alloc: Global,
    path: &str,
    place: &JournalPlace,
    lines: FirstLines<'_>,
    replica: &Replica<T>,
) -> Result<(), FileFault> {
    let Some(mut left) = open_left(rt, alloc, place)? else {
        return Ok(());
    };
    if has_nothing_more(alloc, &mut left, lines, replica)? {
        return Ok(());
    }
    let len = left.metadata()?.len();
    let aside = keep_aside(rt, alloc, path, &mut left, 0)?;
    left.set_len(0)?;
    tell_left(rt, len, aside.as_str());
    Ok(())
}

/// Writes the replica's log to this journal, and brings it to the disk.
fn write_log<D: Disk, T: Timeline>(
    fresh: &mut Keeper<D>,
    replica: &Replica<T>,
    second: u64,
) -> Result<(), Failed>
    ensures { OnOk result ((first : List ℕ) (records : List Record) → KeepsAll D.written first fresh.old records →
        IsSynced D.synced first fresh.new (records ++ replica.now.records)) }
{
    take_log(fresh, replica, second)?;
    fresh.sync(second)?;
    Ok(())
}

/// Has this journal take the replica's log.
fn take_log<D: Disk, T: Timeline>(
    fresh: &mut Keeper<D>,
    replica: &Replica<T>,
    second: u64,
) -> Result<(), Failed>
    ensures { OnOk result ((first : List ℕ) (records : List Record) → KeepsAll D.written first fresh.old records →
        KeepsAll D.written first fresh.new (records ++ replica.now.records)) }
{
    for place in 0..replica.len() {
        let Some(said) = replica.entry(place + 1) else {
            return Err(Failed);
        };
        take_in_batches(fresh, &said, second)?;
    }
    Ok(())
}

/// Writes a journal anew, of which the replica has all records, and whose file is open.
fn write_again<X: Files<File = File> + Clock, T: Timeline>(
    rt: &X,
    alloc: Global,
    place: &mut JournalPlace,
    old: &JournalFile,
    replica: &Replica<T>,
) -> Result<Keeper<JournalFile>, FileFault> {
    let (disk, journal) = begin_beside(rt, alloc, place, old)?;
    let mut fresh = Keeper::new(alloc, disk, journal);
    if write_log(&mut fresh, replica, second_now(rt)).is_err() {
        return Err(FileFault::of_system(fresh.disk().fault()));
    }
    take_place(rt, alloc, place, fresh.disk())?;
    Ok(fresh)
}

/// Brings what was read of a journal's file to the disk, where it may not be yet: it is told from now on. What was left
/// while the disk failed, and what is of an old form, is written anew.
fn keep_on<X: Files<File = File> + Eprint + Clock, T: Timeline>(
    rt: &X,
    alloc: Global,
    disk: JournalFile,
    journal: Journal,
    place: &mut JournalPlace,
    is_old: bool,
    replica: &Replica<T>,
) -> Result<Keeper<JournalFile>, FileFault> {
    let is_left = is_left(rt, alloc, place.path.as_str(), &place.first, journal.len())?;
    if is_left || is_old {
        // What was read of the old file may not be on the disk, where a sync of it failed.
        let keeper = write_again(rt, alloc, place, &disk, replica)?;
        let _ = rt.eprintln(if is_left {
            "journal: it could not be written when a host ended; it was written anew"
        } else {
            "journal: it was of form 1; it was written anew, of form 2"
        });
        return Ok(keeper);
    }
    disk.file.sync_all()?;
    sync_folder(rt, place.path.as_str())?;
    Ok(Keeper::new(alloc, disk, journal))
}

/// Opens the journal at this path, which begins with one of these lines, or begins it; and has the replica take its
/// records. What is torn or cut at its end is cut off. That is told on standard error, and why it can't be opened.
pub fn open_journal<X: Files<File = File> + Eprint + Clock, T: Timeline>(
    rt: &X,
    alloc: Global,
    path: &str,
    when: SyncWhen,
    lines: FirstLines<'_>,
    replica: &mut Replica<T>,
) -> Result<OpenJournal, OpenFault> {
    match opened(rt, alloc, path, when, lines, replica) {
        Ok(journal) => Ok(journal),
        Err(fault) => Err(tell_file_fault(rt, path, fault)),
    }
}

/// The journal at this path, as said above.
fn opened<X: Files<File = File> + Eprint + Clock, T: Timeline>(
    rt: &X,
    alloc: Global,
    path: &str,
    when: SyncWhen,
    lines: FirstLines<'_>,
    replica: &mut Replica<T>,
) -> Result<OpenJournal, FileFault> {
    refuse_lost(rt, alloc, path, lines.new)?;
    make_file(rt, path)?;
    let lock = lock_journal(rt, alloc, path)?;
    // It is opened behind the lock: the file may have been written anew until then.
    let mut file = open_file(rt, path)?;
    let mut place = place_of(rt, alloc, path, &file, lines.new)?;
    let first = first_of(alloc, &mut file, lines)?;
    let (disk, journal) = match first {
        Some(first) => go_on(rt, alloc, path, file, first, replica)?,
        None => begun(rt, alloc, file, &place)?,
    };
    if journal.len() > 0 {
        keep_left(rt, alloc, path, &place, lines, replica)?;
    }
    let is_old = first == Some(lines.old);
    let keeper = keep_on(rt, alloc, disk, journal, &mut place, is_old, replica)?;
    let handle = JournalFile::new(keeper.disk().file.try_clone()?, 0);
    tell_opened(rt, keeper.len(), first.is_some());
    Ok(OpenJournal {
        keeper,
        handle,
        place,
        when,
        lock,
    })
}
