//! Rights: whose records a client may send.

ghost use Rattle.std.specs.Prelude.{◌≡◌, ◌↔◌, IsTrue};
ghost use Rattle.warp_record.specs.Record.{origin_of};
ghost use Rattle.warp_hub.specs.Rights as spec;

use warp_record::{Line, Record};

/// The most origins of a program in any form.
pub const MOST_ORIGINS: usize = 64;

/// What a client may send.
#[derive(Clone, Copy)]
pub enum Rights {
    /// Nothing but a token: it has said none, and the host has tokens.
    Nothing,
    /// `read`: queries, looks and words, but neither records nor `collect`.
    Read,
    /// These origins' records, and all other lines. The flag at a place says it of the origin with that number.
    Origins([bool; MOST_ORIGINS]),
    /// `*`: all lines.
    All,
}

impl Rights {
    /// Whether the same may be sent with these.
    pub fn is_same(&self, other: &Rights) -> bool
        ensures { IsTrue result ↔ (self.now ≡ other.now) }
    {
        match (self, other) {
            (Rights::Origins(mine), Rights::Origins(others)) => mine == others,
            (Rights::Nothing, Rights::Nothing)
            | (Rights::Read, Rights::Read)
            | (Rights::All, Rights::All) => true,
            _ => false,
        }
    }

    /// Whether it may send anything but a token.
    pub fn is_known(&self) -> bool
        ensures { result ≡ spec.is_known self.now }
    {
        match self {
            Rights::Nothing => false,
            _ => true,
        }
    }

    /// Whether it may send this origin's records.
    pub fn may_send_for(&self, origin: u32) -> bool
        ensures { result ≡ spec.may_send_for self.now origin }
    {
        match self {
            Rights::Nothing => false,
            Rights::Read => false,
            Rights::Origins(origins) => match origins.get(origin as usize) {
                Some(may) => *may,
                None => false,
            },
            Rights::All => true,
        }
    }

    /// Whether it may collect.
    fn may_collect(&self) -> bool
        ensures { result ≡ spec.may_collect self.now }
    {
        match self {
            Rights::Nothing => false,
            Rights::Read => false,
            Rights::Origins(_) => true,
            Rights::All => true,
        }
    }

    /// Whether it may do whatever there is.
    fn is_all(&self) -> bool
        ensures { result ≡ spec.is_all self.now }
    {
        match self {
            Rights::Nothing => false,
            Rights::Read => false,
            Rights::Origins(_) => false,
            Rights::All => true,
        }
    }

    /// Whether it may send this record: one of all origins together wants all rights.
    fn may_put(&self, said: &Record) -> bool
        ensures { result ≡ spec.may_put self.now (origin_of said.now) }
    {
        match said.origin() {
            Some(origin) => self.may_send_for(origin),
            None => self.is_all(),
        }
    }

    /// Whether it may send this line.
    #[inline(always)]
    pub fn may_send(&self, line: &Line) -> bool
        ensures { result ≡ spec.may_send self.now «line».now }
    {
        match line {
            Line::Put(said) => self.may_put(said),
            Line::Collect => self.may_collect(),
            _ => self.is_known(),
        }
    }
}
