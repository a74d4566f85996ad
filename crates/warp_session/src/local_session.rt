//! A session of one replica without peers.
ghost use Rattle.std.specs.Prelude.{◌≡◌, ◌≤◌, IfSome, length};
ghost use Rattle.warp_tag.specs.Limits.{most_reads};
ghost use Rattle.warp_step.specs.Counter.{IsUnused};
ghost use Rattle.warp_session.specs.LocalSession.{TranscribesAll, TranscribesSoFar, TranscribesSome};
ghost use Rattle.warp_session.specs.Session.{FailsSo, ReadsSo};

use crate::desk_session::{SessionEnd, session};
use crate::stream::{Sink, Source};
use std::alloc::Global;
use warp_line::Timeline;
use warp_replica::{Local, Replica};
use warp_step::Program;

/// A session of a replica of this program that has taken no record yet, over a timeline of this type.
pub fn run_session<T: Timeline + Drop, R: Source, W: Sink>(
    alloc: Global,
    program: Program,
    source: &mut R,
    sink: &mut W,
) -> SessionEnd
    // At the end all bytes were read, and their transcript from the empty log was written.
    ensures bytes { result ≡ SessionEnd.End →
        TranscribesAll program (R.left source.old) (W.written sink.old) (W.written sink.new) }
    // Before a failed read the lines so far were answered, and no torn one.
    ensures lines { result ≡ SessionEnd.ReadFault →
        TranscribesSoFar program (R.left source.old) (R.left source.new) (W.written sink.old) (W.written sink.new) }
    // So they were where too many reads came to no end.
    ensures long { result ≡ SessionEnd.TooManyReads →
        TranscribesSoFar program (R.left source.old) (R.left source.new) (W.written sink.old) (W.written sink.new) }
    // At a failed write a front of the replies to some first lines of what was read is out.
    ensures front { result ≡ SessionEnd.WriteFault →
        TranscribesSome program (R.left source.old) (R.left source.new) (W.written sink.old) (W.written sink.new) }
    // One read has failed, or one write, where it ended for that, and else none.
    ensures failures { FailsSo result (R.failures source.old) (R.failures source.new)
        (W.failures sink.old) (W.failures sink.new) }
    // It gave up at the last of the most reads that it may have: no earlier, and no later.
    ensures reads { ReadsSo result (R.reads source.old) (R.reads source.new) }
    ensures many { result ≡ SessionEnd.TooManyReads → IfSome (R.left source.old) (λ input. most_reads ≤ length input) }
    // Without memory nothing was read or written.
    ensures memory { result ≡ SessionEnd.NoMemory → (source.new ≡ source.old) × (sink.new ≡ sink.old) }
{
    match Replica::<T>::new(alloc, program) {
        Ok(replica) => session(alloc, source, sink, &mut Local::new(alloc, replica)),
        Err(_) => SessionEnd::NoMemory,
    }
}
