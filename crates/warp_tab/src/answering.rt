//! Lines in, replies out.
ghost use Rattle.std.specs.Prelude.{◌≡◌, ◌≢◌, ◌<◌, ◌≤◌, Err, IfOk, length};
ghost use Rattle.warp_tag.specs.Limits.{most_reads};
ghost use Rattle.warp_step.specs.Counter.{IsUnused};
ghost use Rattle.warp_replica.specs.Desk.{LocalGives, local_state};
ghost use Rattle.warp_session.specs.Session.{Session};
ghost use Rattle.warp_tab.specs.Tab.{AnswersFront};

use crate::lines::Lines;
use std::alloc::Global;
use std::marker::Brand;
use std::sync::ledger::{Blank, Ledger};
use warp_line::Timeline;
use warp_replica::Local;
use warp_session::{SessionEnd, Stream, session};

/// So many bytes, or more, are too many for one call.
pub const LONGEST: usize = 1_000_000_000;

/// Why lines were not all answered.
#[derive(Clone, Copy, Debug, PartialEq, Eq)]
pub enum AnswerFault {
    /// There are 1,000,000,000 bytes or more. None of them was looked at.
    TooLong,
    /// No memory was to be had to begin. None of them was looked at.
    NoMemory,
    /// No memory was to be had for the replies. Some first lines were answered, and no other; what was replied is lost.
    Cut,
}

/// The replies of a replica to lines, one a line, as `session` gives them: what has no line feed at the end is refused.
/// Records are settled behind the last line, if there is memory for it; where there is none, whatever needs it next
/// settles them.
///
/// # Errors
///
/// Where not all lines were answered; `AnswerFault` says which were.
pub fn answer<T: Timeline>(
    alloc: Global,
    tab: &mut Local<T>,
    lines: &[u8],
) -> Result<Vec<u8>, AnswerFault>
    ensures answered { IfOk result (λ replies. Session tab.old.program.form LocalGives (local_state tab.old) lines.now
        replies.items (local_state tab.new)) }
    ensures long { result ≡ Err AnswerFault.TooLong → (most_reads ≤ length lines.now) × (tab.new ≡ tab.old) }
    ensures memory { result ≡ Err AnswerFault.NoMemory → tab.new ≡ tab.old }
    ensures cut { result ≡ Err AnswerFault.Cut →
        AnswersFront tab.old.program.form (local_state tab.old) lines.now (local_state tab.new) }
{
    if lines.len() >= LONGEST {
        return Err(AnswerFault::TooLong);
    }
    answer_in::<T, Brand>(alloc, tab, lines, Blank::new(1))
}

/// The same, of fewer bytes. What could not be kept is counted in this ledger, which nobody asks for.
fn answer_in<T: Timeline, L: Ledger>(
    alloc: Global,
    tab: &mut Local<T>,
    lines: &[u8],
    blank: Blank,
) -> Result<Vec<u8>, AnswerFault>
    requires unused { IsUnused blank L.name L.parts }
    requires short { length lines.now < most_reads }
    ensures answered { IfOk result (λ replies. Session tab.old.program.form LocalGives (local_state tab.old) lines.now
        replies.items (local_state tab.new)) }
    ensures long { result ≢ Err AnswerFault.TooLong }
    ensures memory { result ≡ Err AnswerFault.NoMemory → tab.new ≡ tab.old }
    ensures cut { result ≡ Err AnswerFault.Cut →
        AnswersFront tab.old.program.form (local_state tab.old) lines.now (local_state tab.new) }
{
    let mut source = Lines::new(lines);
    let mut sink = Stream::<Vec<u8>, L>::new(Vec::new(alloc), blank);
    match session(alloc, &mut source, &mut sink, tab) {
        SessionEnd::End => Ok(sink.into_inner()),
        SessionEnd::NoMemory => Err(AnswerFault::NoMemory),
        SessionEnd::WriteFault => Err(AnswerFault::Cut),
        // No read fails, and fewer bytes want no such number of them.
        SessionEnd::ReadFault => Err(AnswerFault::Cut),
        SessionEnd::TooManyReads => Err(AnswerFault::Cut),
    }
}
