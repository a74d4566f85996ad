//! What a long text is printed on, piece by piece.
ghost use Rattle.std.specs.Prelude.{◌≡◌, ◌<◌, ◌+◌, ◌++◌, ℕ, List, Option, MatchResult, OnErr, OnOk, length};
ghost use Rattle.std.specs.Io.KnownBytes.{Appends};
ghost use Rattle.warp_trace.specs.Printed.{PrintsFront, piece};

/// How many bytes are gathered before they are printed.
const PIECE: usize = 65_536;

/// What a write tells that failed: nothing more.
#[derive(Clone, Copy, Debug, PartialEq, Eq)]
pub struct Unprinted;

/// Why a trace was not printed to its end.
#[derive(Clone, Copy, Debug, PartialEq, Eq)]
pub enum TraceFault {
    /// A piece could not be written.
    Output,
    /// A growth was refused.
    NoMemory,
}

/// Takes the pieces of a text, in order.
pub trait Printer {
    /// What there is to it beside its output, which printing leaves as it is.
    ghost Kept: { Type 0 };

    /// All that.
    ghost kept: { Self → Kept };

    /// The bytes that were written; `None` where it doesn't tell.
    ghost written: { Self → Option (List ℕ) };

    /// How many writes have failed.
    ghost failures: { Self → ℕ };

    /// Writes all of the piece; where a write fails, a front of it was written.
    fn print(&mut self, piece: &[u8]) -> Result<(), Unprinted>
        ensures all { OnOk result (Appends (written self.old) (written self.new) piece.now) }
        ensures front { OnErr result (PrintsFront (written self.old) (written self.new) piece.now) }
        ensures failures { MatchResult result (λ _. failures self.new ≡ failures self.old)
            (λ _. failures self.new ≡ failures self.old + 1) }
        ensures kept { kept self.new ≡ kept self.old };
}

/// Prints the text and empties it, where 65,536 bytes or more are gathered, so that fewer are left. `Err` says that a
/// front of it was written.
pub fn print_full<O: Printer>(text: &mut Vec<u8>, out: &mut O) -> Result<(), Unprinted>
    ensures sent { OnOk result ((sent : List ℕ) × Appends (O.written out.old) (O.written out.new) sent
        × (sent ++ text.new.items ≡ text.old.items)) }
    ensures short { OnOk result (length text.new.items < piece) }
    ensures front { OnErr result (PrintsFront (O.written out.old) (O.written out.new) text.old.items) }
    ensures failures { MatchResult result (λ _. O.failures out.new ≡ O.failures out.old)
        (λ _. O.failures out.new ≡ O.failures out.old + 1) }
    ensures kept { O.kept out.new ≡ O.kept out.old }
{
    if text.len() < PIECE {
        return Ok(());
    }
    out.print(text)?;
    text.clear();
    Ok(())
}
