//! Counting records into a digest.
ghost use Rattle.std.specs.Prelude.{◌≡◌, ◌<◌, ◌+◌, ◌-◌, ◌^◌, ◌++◌, ◌∷◌, [], IfOk, List, OnErr, OnOk};
ghost use Rattle.warp_record.specs.declared.record.Record.{Record};
ghost use Rattle.sha2.specs.Sha256.{sha256};
ghost use Rattle.warp_digest.specs.Digest.{IsDigestOf, digest_line, front_number};

use itoa::Buffer;
use sha2::{Digest as _, Sha256};
use std::alloc::Global;
use std::marker::Model;
use warp_record::{REPLY_ROOM, Record, write_record};
use warp_tag::OutOfMemory;

/// The digest of records that were counted. Contracts see how many they are, and their digest.
#[derive(Drop)]
pub struct Digest {
    count: u32,
    sum: u128,
    /// The line of a record.
    text: Vec<u8>,
}

impl Model for Digest {
    ghost use Rattle.warp_digest.specs.Digest.{DigestState};

    ghost Value = { DigestState };

    ghost view = { λ d. record { count = d.count; sum = d.sum } };
}

impl Digest {
    /// No record was counted.
    pub fn new(alloc: Global) -> Digest
        ensures { IsDigestOf [] result }
    {
        Digest {
            count: 0,
            sum: 0,
            text: Vec::new(alloc),
        }
    }

    /// How many records were counted.
    pub fn count(&self) -> u32
        ensures { result ≡ self.now.count }
    {
        self.count
    }

    /// Counts one more record. `Err` says that no memory was to be had, and changes nothing.
    pub fn take(&mut self, said: &Record) -> Result<(), OutOfMemory>
        requires { self.old.count < 2 ^ 32 - 1 }
        ensures ok { OnOk result ((records : List Record) → IsDigestOf records self.old →
            IsDigestOf (records ++ «said».now ∷ []) self.new) }
        ensures count { OnOk result (self.new.count ≡ self.old.count + 1) }
        ensures err { OnErr result (self.new ≡ self.old) }
    {
        self.text.clear();
        if self.text.reserve(REPLY_ROOM).is_err() {
            return Err(OutOfMemory);
        }
        write_record(&mut self.text, said);
        let number = number_of(&self.text);
        self.count += 1;
        self.sum = self.sum.wrapping_add(number);
        Ok(())
    }

    /// The line that tells it, with its line feed: `digest N D`, N how many records were counted, D the digest in 32 hex
    /// digits of small letters. `Err` says that no memory was to be had.
    pub fn line(&self, alloc: Global) -> Result<Vec<u8>, OutOfMemory>
        ensures { IfOk result (λ text. text.items ≡ digest_line self.now.count self.now.sum) }
    {
        let digits = hex::encode(alloc, self.sum.to_be_bytes())?;
        let mut number = Buffer::new();
        let mut text = Vec::from_slice(alloc, b"digest ")?;
        text.extend_from_slice(number.format(self.count).as_bytes())?;
        text.extend_from_slice(b" ")?;
        text.extend_from_slice(digits.as_bytes())?;
        text.push(b'\n')?;
        Ok(text)
    }
}

/// The number of a record with this line: the first 16 bytes of its SHA-256, the most significant first.
fn number_of(line: &[u8]) -> u128
    ensures { result ≡ front_number (sha256 line.now) }
{
    let sum = Sha256::digest(line);
    let mut front = [0u8; 16];
    front.copy_from_slice(&sum[..16]);
    u128::from_be_bytes(front)
}
