//! Standard input and output, or what stands for them.
ghost use Rattle.std.specs.Prelude.{◌≡◌};

use std::marker::Model;
use warp_session::{Sink, Source, write_all};
use warp_trace::{Printer, Unprinted};

/// Standard input and output, or what stands for them.
#[derive(Drop)]
pub(crate) struct Streams<R: Source, W: Sink> {
    pub(crate) source: R,
    pub(crate) sink: W,
    // What standard error tells behind the line of the outcome.
    pub(crate) remark: String,
}

impl<R: Source, W: Sink> Model for Streams<R, W> {
    ghost use Rattle.warpd.specs.Outcome.{Seen};

    ghost Value = { Seen };

    ghost view = { λ s. record {
      left = R.left s.source;
      written = W.written s.sink;
      failed_reads = R.failures s.source;
      failed_writes = W.failures s.sink;
    } };
}

impl<R: Source, W: Sink> Printer for Streams<R, W> {
    ghost use Rattle.std.specs.Prelude.{ℕ, List, Option};

    ghost Kept = { Option (List ℕ) × ℕ };

    ghost kept = { λ s. (s.left, s.failed_reads) };

    ghost written = { λ s. s.written };

    ghost failures = { λ s. s.failed_writes };

    fn print(&mut self, piece: &[u8]) -> Result<(), Unprinted> {
        match write_all(&mut self.sink, piece) {
            Ok(()) => Ok(()),
            Err(_) => Err(Unprinted),
        }
    }
}
