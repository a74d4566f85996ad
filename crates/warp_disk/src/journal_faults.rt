//! What goes wrong with the file of a journal, and how it is told.
ghost use Rattle.std.specs.Prelude.{◌≡◌, ◌⊎◌};
ghost use Rattle.warp_disk.specs.Telling.{IsToldAs};
ghost use Rattle.warp_disk.specs.declared.journal_faults.OpenFault.{OpenFault};

use std::alloc::AllocError;
use std::io::{self, Eprint, ErrorKind};

/// Why a journal can't be gone on with.
#[derive(Clone, Copy, Debug, PartialEq, Eq)]
pub enum OpenFault {
    /// Another process has it.
    InUse,
    /// It can't be opened, read or written.
    Unusable,
    /// Its first line is that of another program, or none.
    OtherFirst,
    /// This line, from 1, does not go on with it, and others stand behind it.
    Damaged(u64),
    /// The program refuses the record of this line, from 1, or it stands there twice.
    Refused(u64),
    /// No memory was to be had.
    NoMemory,
}

impl From<io::Error> for OpenFault {
    fn from(error: io::Error) -> OpenFault
        ensures { (result ≡ OpenFault.NoMemory) ⊎ (result ≡ OpenFault.Unusable) }
    {
        match error.kind() {
            ErrorKind::OutOfMemory => OpenFault::NoMemory,
            _ => OpenFault::Unusable,
        }
    }
}

/// Why a step with the file of a journal failed.
#[derive(Clone, Copy)]
pub enum FileFault {
    /// For this reason.
    Open(OpenFault),
    /// The system says this.
    System(io::Error),
    /// It stands no more under its name: it was removed, renamed or replaced.
    Gone,
    /// It is shorter than it was written.
    Short,
    /// It is longer than it was written: another wrote to it.
    Long,
    /// Another file stands under its name.
    Other,
    /// What stands beside it with `.lock` behind its name is no regular file.
    NoLock,
    /// What stands beside it with `.damaged` behind its name is no regular file.
    NoAside,
    /// What stands beside it with `.damaged` behind its name has a second name, or is another user's.
    OtherAside,
    /// What stands beside it with `.new` behind its name is a folder.
    NoFresh,
    /// What stands beside it with `.new` behind its name is neither its owner's nor the host's user's.
    OtherFresh,
    /// It has no record, and the fresh file beside it may have some.
    OnlyCopy,
}

impl From<AllocError> for FileFault {
    fn from(_refused: AllocError) -> FileFault {
        FileFault::Open(OpenFault::NoMemory)
    }
}

impl From<io::Error> for FileFault {
    fn from(error: io::Error) -> FileFault {
        FileFault::System(error)
    }
}

impl FileFault {
    /// What the system says, or want of memory where it says nothing.
    pub(crate) fn of_system(error: Option<io::Error>) -> FileFault {
        match error {
            Some(error) => FileFault::System(error),
            None => FileFault::Open(OpenFault::NoMemory),
        }
    }

    /// What is wrong with where the file stands, if that is it.
    pub(crate) fn words(self) -> Option<&'static str> {
        match self {
            FileFault::Gone => Some("it was removed, renamed or replaced"),
            FileFault::Short => Some("it was cut short"),
            FileFault::Long => Some("another wrote to it"),
            FileFault::Other => Some("another file stands under its name"),
            FileFault::NoLock => Some("FILE.lock is no regular file"),
            FileFault::NoAside => Some("FILE.damaged is no regular file"),
            FileFault::OtherAside => Some("FILE.damaged has a second name, or is another user's"),
            FileFault::NoFresh => Some("FILE.new is a folder"),
            FileFault::OtherFresh => Some("FILE.new is another user's: move it away"),
            FileFault::OnlyCopy => Some(
                "it has no record, and FILE.new may have some: put that in its place, or move it away",
            ),
            FileFault::Open(_) | FileFault::System(_) => None,
        }
    }

    /// Whether an operator would be told the same of both.
    pub(crate) fn is_as(self, other: FileFault) -> bool {
        match (self, other) {
            (FileFault::System(error), FileFault::System(before)) => error.kind() == before.kind(),
            (FileFault::Open(_), FileFault::Open(_)) => true,
            (FileFault::Gone, FileFault::Gone) => true,
            (FileFault::Short, FileFault::Short) => true,
            (FileFault::Long, FileFault::Long) => true,
            (FileFault::Other, FileFault::Other) => true,
            (FileFault::NoFresh, FileFault::NoFresh) => true,
            _ => false,
        }
    }
}

/// Tells on standard error what is wrong with the journal at this path, and gives it without what the system says.
pub fn tell_file_fault<X: Eprint>(rt: &X, path: &str, fault: FileFault) -> OpenFault
    ensures { IsToldAs fault result }
{
    match fault {
        FileFault::Open(fault) => {
            tell_open_fault(rt, path, fault);
            fault
        }
        FileFault::System(error) => {
            let _ = eprintln!(rt; "journal {path}: {error}");
            OpenFault::from(error)
        }
        FileFault::Gone
        | FileFault::Short
        | FileFault::Long
        | FileFault::Other
        | FileFault::NoLock
        | FileFault::NoAside
        | FileFault::OtherAside
        | FileFault::NoFresh
        | FileFault::OtherFresh
        | FileFault::OnlyCopy => {
            let why = fault.words().unwrap_or("");
            let _ = eprintln!(rt; "journal {path}: {why}");
            OpenFault::Unusable
        }
    }
}

/// Tells this of the journal at this path, unless it is told already, or is no fault of the journal.
fn tell_open_fault<X: Eprint>(rt: &X, path: &str, fault: OpenFault) {
    let _ = match fault {
        OpenFault::InUse => eprintln!(rt; "journal {path}: another process has it"),
        OpenFault::OtherFirst => eprintln!(rt;
            "journal {path}: its first line is none, or another program's"
        ),
        OpenFault::Damaged(_) | OpenFault::Refused(_) => Ok(()),
        OpenFault::Unusable | OpenFault::NoMemory => Ok(()),
    };
}
