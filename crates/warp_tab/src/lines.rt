//! Lines in memory, as a session's source.
ghost use Rattle.std.specs.Prelude.{◌≡◌, Some};

use warp_session::{Failed, Source};

/// Bytes that stand in memory: no read of them fails.
#[derive(Drop)]
pub(crate) struct Lines<'a> {
    rest: &'a [u8],
}

impl<'a> Lines<'a> {
    /// All of these bytes.
    pub(crate) fn new(bytes: &'a [u8]) -> Lines<'a>
        ensures { result.rest.now ≡ bytes.now }
    {
        Lines { rest: bytes }
    }
}

impl Source for Lines<'_> {
    ghost left = { λ s. Some s.rest.now };

    ghost failures = { λ _. 0 };

    fn read(&mut self, buffer: &mut [u8]) -> Result<usize, Failed> {
        let count = self.rest.len().min(buffer.len());
        let (front, rest) = self.rest.split_at(count);
        buffer[..count].copy_from_slice(front);
        self.rest = rest;
        Ok(count)
    }
}
