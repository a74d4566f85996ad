//! A session: lines come in as bytes, in any pieces, and their replies go out as bytes.
//!
//! It knows neither who answers them, a `Desk`, nor where bytes come from and go to, a `Source` and a `Sink`.
ghost use Rattle.std.specs.Prelude.{◌≡◌, ◌≢◌, ◌⊎◌, ℕ, ◌+◌, ◌<◌, ◌≤◌, List, [], ◌∷◌, ◌++◌, All, Option, IfOk, OnErr, OnOk, IfSome};
ghost use Rattle.std.specs.Prelude.{OnSome, false, length, take, vec_len};
ghost use Rattle.std.specs.List.{before_first};
ghost use Rattle.std.specs.Io.KnownBytes.{Appends};
ghost use Rattle.std.specs.Option.{option_map};
ghost use Rattle.warp_tag.specs.Limits.{longest_line, most_reads};
ghost use Rattle.warp_tag.specs.declared.form.Form.{Form};
ghost use Rattle.warp_step.specs.Counter.{IsUnused};
ghost use Rattle.warp_record.specs.declared.line.Line.{Line};
ghost use Rattle.warp_record.specs.Line.{IsLine, spelling};
ghost use Rattle.warp_record.specs.Lines.{Piece, first_end, is_end, kept_of, piece_of, unended};
ghost use Rattle.warp_record.specs.Lines.Piece.{Whole};
ghost use Rattle.warp_record.specs.Reply.{reply_line};
ghost use Rattle.warp_exchange.specs.Batch.{most_lines};
ghost use Rattle.warp_session.specs.Session.{FailsSo, ReadsSo, Transcribes, TranscribesFront};
ghost use Rattle.warp_session.specs.Session.{SpellsLine, TranscribesLines};
ghost use Rattle.warp_session.specs.Stream.{CountsFailures, WritesFront};
ghost use Rattle.warp_session.specs.inner.Turns.{Replied, BreaksAtEnd, BreaksBytes, Broken, Ends, TakesBytes, Turn};
ghost use Rattle.warp_session.specs.inner.Turns.{Finds, IsFound, IsRefusedFor, MayWait, at, nothing_held, pieces_fed};

use crate::batch::{Batch, Outbox};
use crate::stream::{Failed, Sink, Source};
use std::alloc::{AllocError, Global};
use std::marker::Model;
use std::mem;
use warp_exchange::Desk;
use warp_record::{Fed, Feed, Line, Refusal, Reply, read_front, read_line};
use warp_tag::Form;

/// The most reads of a session.
const MAX_READS: u32 = 1_000_000_000;

/// How many bytes a read asks for.
const PIECE: usize = 65_536;

/// How a session ended.
#[derive(Clone, Copy, Debug, PartialEq, Eq)]
pub enum SessionEnd {
    /// All that came was answered.
    End,
    /// A read failed. The answers to all whole lines before it are out.
    ReadFault,
    /// A write failed. Some first lines were answered, and no other was put to the desk; a front of their replies is
    /// out.
    WriteFault,
    /// 1,000,000,000 reads came to no end. The answers to all whole lines are out.
    TooManyReads,
    /// No memory was to be had; nothing was read.
    NoMemory,
}

/// What some bytes end, where that is to be answered.
#[derive(Clone, Copy, Debug, PartialEq, Eq)]
enum Found {
    /// They end no line.
    Nothing,
    /// They end this line.
    Asked(Line),
    /// They end one that spells none, or is too long.
    Bad(Refusal),
}

/// Cuts what comes in into lines, which wait for their answers, and gathers the replies that wait to be written.
#[derive(Drop)]
struct Transcriber {
    feed: Feed,
    batch: Batch,
    outbox: Outbox,
}

impl Model for Transcriber {
    ghost use Rattle.warp_session.specs.inner.Turns.{Held};

    ghost Value = { Held };

    ghost view = { λ t. record { kept = t.feed; waits = t.batch; gathered = t.outbox } };
}

/// The line of this form that a whole line spells, without its line feed, or its refusal.
#[inline(never)]
fn read_text(form: Form, text: &[u8]) -> Found
    ensures { IsFound form (Whole text.now ∷ []) result }
{
    match read_line(form, text) {
        Some(line) => Found::Asked(line),
        None => Found::Bad(Refusal::Syntax),
    }
}

/// The line that was cut from the stream, or its refusal, if there is one.
fn read_fed(form: Form, fed: Option<Fed>) -> Found
    ensures { IsFound form (pieces_fed fed) result }
{
    match fed {
        None => Found::Nothing,
        Some(Fed::Text(bytes)) => read_text(form, &bytes),
        Some(Fed::TooLong) => Found::Bad(Refusal::TooLong),
        Some(Fed::Torn) => Found::Bad(Refusal::Syntax),
    }
}

impl Transcriber {
    /// Nothing was taken yet.
    fn new(alloc: Global) -> Result<Transcriber, AllocError>
        ensures { IfOk result (λ made. made ≡ nothing_held) }
    {
        let outbox = Outbox::new(alloc)?;
        Ok(Transcriber {
            feed: Feed::new(),
            batch: Batch::new(),
            outbox,
        })
    }

    /// Writes what was gathered.
    fn flush<W: Sink>(&mut self, sink: &mut W) -> Result<(), Failed>
        ensures written { OnOk result (Appends (W.written sink.old) (W.written sink.new) self.old.gathered) }
        ensures empty { OnOk result (self.new.gathered ≡ []) }
        ensures front { OnErr result (WritesFront (W.written sink.old) (W.written sink.new) self.old.gathered) }
        ensures kept { self.new.kept ≡ self.old.kept }
        ensures waits { self.new.waits ≡ self.old.waits }
        ensures failures { CountsFailures (W.failures sink.old) (W.failures sink.new) result }
    {
        self.outbox.flush(sink)
    }

    /// Gathers a reply behind the others.
    #[inline(always)]
    fn gather<W: Sink>(&mut self, sink: &mut W, reply: &Reply) -> Result<(), Failed>
        ensures gathered { OnOk result ((sent : List ℕ) × Appends (W.written sink.old) (W.written sink.new) sent
            × (sent ++ self.new.gathered ≡ self.old.gathered ++ reply_line «reply».now)) }
        ensures front { OnErr result (WritesFront (W.written sink.old) (W.written sink.new)
            (self.old.gathered ++ reply_line «reply».now)) }
        ensures kept { self.new.kept ≡ self.old.kept }
        ensures waits { self.new.waits ≡ self.old.waits }
        ensures failures { CountsFailures (W.failures sink.old) (W.failures sink.new) result }
    {
        self.outbox.gather(sink, reply)
    }

    /// Answers the lines that wait, and gathers the replies. At a desk that is not asked together none waits.
    #[inline(never)]
    fn answer_waiting<D: Desk, W: Sink>(
        &mut self,
        desk: &mut D,
        sink: &mut W,
        together: bool,
    ) -> Result<(), Failed>
        requires alone { together ≡ false → self.old.waits ≡ [] }
        ensures turn { (f : Form) → All (IsLine f) self.old.waits →
            Turn (λ _. Replied f D.gives []) (Broken f D.gives [])
            (at (D.state desk.old) self.old (W.written sink.old) (W.failures sink.old))
            (at (D.state desk.new) self.new (W.written sink.new) (W.failures sink.new)) result }
        ensures none { self.new.waits ≡ [] }
        ensures kept { self.new.kept ≡ self.old.kept }
    {
        if !together {
            return Ok(());
        }
        self.batch.answer(desk, sink, &mut self.outbox)
    }

    /// Asks `collect` alone, and gathers the reply.
    // (Apart from the other lines: its reply comes from a function kept out of line, by memory that would be cleared
    // for each of them.)
    #[inline(never)]
    fn answer_collect<D: Desk, W: Sink>(&mut self, desk: &mut D, sink: &mut W) -> Result<(), Failed>
        requires { self.old.waits ≡ [] }
        ensures turn { (f : Form) →
            Turn (λ _. Replied f D.gives (Whole (spelling Line.Collect) ∷ [])) (Broken f D.gives (Whole (spelling Line.Collect) ∷ []))
            (at (D.state desk.old) self.old (W.written sink.old) (W.failures sink.old))
            (at (D.state desk.new) self.new (W.written sink.new) (W.failures sink.new)) result }
        ensures waits { self.new.waits ≡ [] }
        ensures kept { self.new.kept ≡ self.old.kept }
    {
        let reply = desk.ask_in_batch(Line::Collect);
        self.gather(sink, &reply)
    }

    /// Asks a line alone, and gathers the reply.
    #[inline(always)]
    fn answer_line<D: Desk, W: Sink>(
        &mut self,
        desk: &mut D,
        sink: &mut W,
        line: Line,
    ) -> Result<(), Failed>
        requires { self.old.waits ≡ [] }
        ensures turn { (f : Form) → IsLine f «line» →
            Turn (λ _. Replied f D.gives (Whole (spelling «line») ∷ [])) (Broken f D.gives (Whole (spelling «line») ∷ []))
            (at (D.state desk.old) self.old (W.written sink.old) (W.failures sink.old))
            (at (D.state desk.new) self.new (W.written sink.new) (W.failures sink.new)) result }
        ensures waits { self.new.waits ≡ [] }
        ensures kept { self.new.kept ≡ self.old.kept }
    {
        if let Line::Collect = line {
            return self.answer_collect(desk, sink);
        }
        let reply = desk.ask_in_batch(line);
        self.gather(sink, &reply)
    }

    /// Puts a line behind those that wait; where that makes as many as a desk is asked at once, they are answered.
    #[inline(always)]
    fn add_waiting<D: Desk, W: Sink>(
        &mut self,
        desk: &mut D,
        sink: &mut W,
        line: Line,
    ) -> Result<(), Failed>
        requires room { length self.old.waits < most_lines }
        ensures turn { (f : Form) → All (IsLine f) self.old.waits → IsLine f «line» →
            Turn (λ _. Replied f D.gives (Whole (spelling «line») ∷ [])) (Broken f D.gives (Whole (spelling «line») ∷ []))
            (at (D.state desk.old) self.old (W.written sink.old) (W.failures sink.old))
            (at (D.state desk.new) self.new (W.written sink.new) (W.failures sink.new)) result }
        ensures room { length self.new.waits < most_lines }
        ensures lines { (f : Form) → All (IsLine f) self.old.waits → IsLine f «line» → All (IsLine f) self.new.waits }
        ensures kept { self.new.kept ≡ self.old.kept }
    {
        self.batch.push(line);
        if self.batch.is_full() {
            return self.answer_waiting(desk, sink, true);
        }
        Ok(())
    }

    /// Has a line answered: alone, or with those that wait.
    #[inline(always)]
    fn add<D: Desk, W: Sink>(
        &mut self,
        desk: &mut D,
        sink: &mut W,
        line: Line,
        together: bool,
    ) -> Result<(), Failed>
        requires { MayWait together self.old.waits }
        ensures turn { (f : Form) → All (IsLine f) self.old.waits → IsLine f «line» →
            Turn (λ _. Replied f D.gives (Whole (spelling «line») ∷ [])) (Broken f D.gives (Whole (spelling «line») ∷ []))
            (at (D.state desk.old) self.old (W.written sink.old) (W.failures sink.old))
            (at (D.state desk.new) self.new (W.written sink.new) (W.failures sink.new)) result }
        ensures room { MayWait together self.new.waits }
        ensures lines { (f : Form) → All (IsLine f) self.old.waits → IsLine f «line» → All (IsLine f) self.new.waits }
        ensures kept { self.new.kept ≡ self.old.kept }
    {
        if together {
            return self.add_waiting(desk, sink, line);
        }
        self.answer_line(desk, sink, line)
    }

    /// Gathers a refusal behind the replies to the lines that wait.
    #[inline(never)]
    fn refuse<D: Desk, W: Sink>(
        &mut self,
        desk: &mut D,
        sink: &mut W,
        refusal: Refusal,
        together: bool,
    ) -> Result<(), Failed>
        requires alone { together ≡ false → self.old.waits ≡ [] }
        ensures turn { (f : Form) → (piece : Piece) → All (IsLine f) self.old.waits → IsRefusedFor f piece refusal →
            Turn (λ _. Replied f D.gives (piece ∷ [])) (λ a b. Broken f D.gives [] a b ⊎ Broken f D.gives (piece ∷ []) a b)
            (at (D.state desk.old) self.old (W.written sink.old) (W.failures sink.old))
            (at (D.state desk.new) self.new (W.written sink.new) (W.failures sink.new)) result }
        ensures none { self.new.waits ≡ [] }
        ensures kept { self.new.kept ≡ self.old.kept }
    {
        self.answer_waiting(desk, sink, together)?;
        self.gather(sink, &Reply::Refused(refusal))
    }

    /// The line of those that come most that these bytes begin with, and how many bytes it has with its line feed,
    /// where nothing came of it before. It is read with no look for its end.
    #[inline(always)]
    fn read_fresh(&self, form: Form, bytes: &[u8]) -> Option<(Line, usize)>
        ensures front { IfSome result (λ front. SpellsLine form (before_first is_end bytes.now) front.0
            × (front.1 ≡ first_end bytes.now + 1) × (first_end bytes.now < length bytes.now)
            × (first_end bytes.now ≤ longest_line)) }
        ensures fresh { OnSome result (self.now.kept ≡ kept_of []) }
    {
        if !self.feed.is_fresh() {
            return None;
        }
        read_front(form, bytes)
    }

    /// Takes bytes up to and with the first line feed, or all where there is none, and gives how many it took. What they
    /// end comes into `found`.
    // (A result that holds the line would lie in memory that is cleared for each line of the frequent kind too.)
    #[inline(never)]
    fn find_line(&mut self, form: Form, bytes: &[u8], found: &mut Found) -> usize
        requires { 0 < length bytes.now }
        ensures count { (0 < result) × (result ≤ length bytes.now) }
        ensures finds { Finds form self.old.kept bytes.now result found.new self.new.kept }
        ensures waits { self.new.waits ≡ self.old.waits }
        ensures gathered { self.new.gathered ≡ self.old.gathered }
    {
        // A line of which nothing came before is read where it stands.
        if let Some(text) = self.feed.whole(bytes) {
            *found = read_text(form, text);
            return text.len() + 1;
        }
        let (count, fed) = self.feed.push(bytes);
        *found = read_fed(form, fed);
        count
    }

    /// Takes bytes up to and with the first line feed, or all where there is none. The line that it ends waits for its
    /// answer, or is refused. Gives how many bytes it took.
    #[inline(always)]
    fn take_line<D: Desk, W: Sink>(
        &mut self,
        form: Form,
        desk: &mut D,
        sink: &mut W,
        bytes: &[u8],
        found: &mut Found,
        together: bool,
    ) -> Result<usize, Failed>
        requires some { 0 < length bytes.now }
        requires room { MayWait together self.old.waits }
        requires lines { All (IsLine form) self.old.waits }
        ensures count { IfOk result (λ n. (0 < n) × (n ≤ length bytes.now)) }
        ensures turn { Turn (λ n. TakesBytes form D.gives (take n bytes.now)) (BreaksBytes form D.gives bytes.now)
            (at (D.state desk.old) self.old (W.written sink.old) (W.failures sink.old))
            (at (D.state desk.new) self.new (W.written sink.new) (W.failures sink.new)) result }
        ensures room { OnOk result (MayWait together self.new.waits) }
        ensures lines { OnOk result (All (IsLine form) self.new.waits) }
    {
        let (line, count) = match self.read_fresh(form, bytes) {
            Some(front) => front,
            None => {
                let count = self.find_line(form, bytes, found);
                match *found {
                    Found::Asked(line) => (line, count),
                    Found::Bad(refusal) => {
                        self.refuse(desk, sink, refusal, together)?;
                        return Ok(count);
                    }
                    Found::Nothing => return Ok(count),
                }
            }
        };
        self.add(desk, sink, line, together)?;
        Ok(count)
    }

    /// Takes bytes, answers the lines that they end, and writes all that was gathered. What the replies did not need is
    /// done behind them.
    fn take<D: Desk, W: Sink>(
        &mut self,
        form: Form,
        desk: &mut D,
        sink: &mut W,
        bytes: &[u8],
    ) -> Result<(), Failed>
        requires { self.old.waits ≡ [] }
        ensures turn { Turn (λ _. TakesBytes form D.gives bytes.now) (BreaksBytes form D.gives bytes.now)
            (at (D.state desk.old) self.old (W.written sink.old) (W.failures sink.old))
            (at (D.state desk.new) self.new (W.written sink.new) (W.failures sink.new)) result }
        ensures none { OnOk result (self.new.waits ≡ []) }
        ensures empty { OnOk result (self.new.gathered ≡ []) }
    {
        let answered = self.answer_piece(form, desk, sink, bytes);
        desk.end_batch();
        answered
    }

    /// Takes bytes, answers the lines that they end, and writes all that was gathered.
    fn answer_piece<D: Desk, W: Sink>(
        &mut self,
        form: Form,
        desk: &mut D,
        sink: &mut W,
        bytes: &[u8],
    ) -> Result<(), Failed>
        requires { self.old.waits ≡ [] }
        ensures turn { Turn (λ _. TakesBytes form D.gives bytes.now) (BreaksBytes form D.gives bytes.now)
            (at (D.state desk.old) self.old (W.written sink.old) (W.failures sink.old))
            (at (D.state desk.new) self.new (W.written sink.new) (W.failures sink.new)) result }
        ensures none { OnOk result (self.new.waits ≡ []) }
        ensures empty { OnOk result (self.new.gathered ≡ []) }
    {
        let together = D::asks_together();
        let mut at = 0;
        let mut found = Found::Nothing;
        while at < bytes.len() {
            at += self.take_line(form, desk, sink, &bytes[at..], &mut found, together)?;
        }
        self.answer_waiting(desk, sink, together)?;
        self.flush(sink)?;
        Ok(())
    }

    /// Refuses the last line of a stream, if there is one.
    fn refuse_last<D: Desk, W: Sink>(
        &mut self,
        form: Form,
        sink: &mut W,
        fed: Option<Fed>,
    ) -> Result<(), Failed>
        ensures turn { (state : D.State) → (line : List ℕ) → option_map piece_of fed ≡ unended line → self.old.waits ≡ [] →
            Turn (λ _. Replied form D.gives (pieces_fed fed)) (Broken form D.gives (pieces_fed fed))
            (at state self.old (W.written sink.old) (W.failures sink.old))
            (at state self.new (W.written sink.new) (W.failures sink.new)) result }
        ensures waits { self.new.waits ≡ self.old.waits }
        ensures failures { CountsFailures (W.failures sink.old) (W.failures sink.new) result }
    {
        match read_fed(form, fed) {
            Found::Bad(refusal) => self.gather(sink, &Reply::Refused(refusal)),
            // It has no line feed, and so spells none.
            Found::Asked(_) | Found::Nothing => Ok(()),
        }
    }

    /// Refuses the last line, which has no line feed, if there is one, and writes all that was gathered.
    fn finish<D: Desk, W: Sink>(&mut self, form: Form, sink: &mut W) -> Result<(), Failed>
        requires { self.old.waits ≡ [] }
        ensures { (state : D.State) → Turn (λ _. Ends form D.gives) (BreaksAtEnd form D.gives)
            (at state self.old (W.written sink.old) (W.failures sink.old))
            (at state self.new (W.written sink.new) (W.failures sink.new)) result }
    {
        let last = mem::replace(&mut self.feed, Feed::new()).end();
        self.refuse_last::<D, W>(form, sink, last)?;
        self.flush(sink)?;
        Ok(())
    }

    /// Reads lines of this form to the end of `source` by way of `buffer`, and writes to `sink` what `desk` replies to
    /// each.
    fn answer_all<R: Source, W: Sink, D: Desk>(
        &mut self,
        form: Form,
        source: &mut R,
        sink: &mut W,
        desk: &mut D,
        buffer: &mut [u8],
    ) -> SessionEnd
        requires room { 0 < length buffer.old }
        requires new { self.old ≡ nothing_held }
        ensures bytes { result ≡ SessionEnd.End →
            Transcribes form D.gives (D.state desk.old) (R.left source.old)
            (W.written sink.old) (W.written sink.new) (D.state desk.new) }
        ensures lines { result ≡ SessionEnd.ReadFault →
            TranscribesLines form D.gives (D.state desk.old) (R.left source.old) (R.left source.new)
            (W.written sink.old) (W.written sink.new) (D.state desk.new) }
        ensures long { result ≡ SessionEnd.TooManyReads →
            TranscribesLines form D.gives (D.state desk.old) (R.left source.old) (R.left source.new)
            (W.written sink.old) (W.written sink.new) (D.state desk.new) }
        ensures front { result ≡ SessionEnd.WriteFault →
            TranscribesFront form D.gives (D.state desk.old) (R.left source.old) (R.left source.new)
            (W.written sink.old) (W.written sink.new) (D.state desk.new) }
        ensures failures { FailsSo result (R.failures source.old) (R.failures source.new)
            (W.failures sink.old) (W.failures sink.new) }
        ensures many { result ≡ SessionEnd.TooManyReads →
            IfSome (R.left source.old) (λ input. most_reads ≤ length input) }
        ensures reads { ReadsSo result (R.reads source.old) (R.reads source.new) }
        ensures memory { result ≢ SessionEnd.NoMemory }
    {
        'reads: for _read in 0..MAX_READS {
            let Ok(count) = source.read(buffer) else {
                return SessionEnd::ReadFault;
            };
            let has_ended = count == 0;
            if has_ended {
                let Ok(()) = self.finish::<D, W>(form, sink) else {
                    return SessionEnd::WriteFault;
                };
                return SessionEnd::End;
            }
            let Ok(()) = self.take(form, desk, sink, &buffer[..count]) else {
                return SessionEnd::WriteFault;
            };
        }
        SessionEnd::TooManyReads
    }
}

/// The buffer for a read, and the session's beginning.
fn begin(alloc: Global) -> Result<(Vec<u8>, Transcriber), AllocError>
    ensures piece { IfOk result (λ made. 0 < vec_len made.0) }
    ensures empty { IfOk result (λ made. made.1 ≡ nothing_held) }
{
    let buffer = vec![in alloc; 0; PIECE]?;
    let transcriber = Transcriber::new(alloc)?;
    Ok((buffer, transcriber))
}

/// Reads lines to the end of `source`, in the form of the desk's program, and writes to `sink` what `desk` replies to
/// each, in order. Replies are gathered, and written before the next read. A last line without a line feed is refused
/// 1, as is one that is no line of that form; a line of more than 128 bytes refused 9.
pub fn session<R: Source, W: Sink, D: Desk>(
    alloc: Global,
    source: &mut R,
    sink: &mut W,
    desk: &mut D,
) -> SessionEnd
    // At the end all bytes were read, and their transcript was written.
    ensures bytes { result ≡ SessionEnd.End →
        Transcribes (D.form_of (D.state desk.old)) D.gives (D.state desk.old)
        (R.left source.old) (W.written sink.old) (W.written sink.new) (D.state desk.new) }
    // Before a failed read the lines so far were answered, and no torn one.
    ensures lines { result ≡ SessionEnd.ReadFault →
        TranscribesLines (D.form_of (D.state desk.old)) D.gives (D.state desk.old)
        (R.left source.old) (R.left source.new) (W.written sink.old) (W.written sink.new) (D.state desk.new) }
    // So they were where too many reads came to no end.
    ensures long { result ≡ SessionEnd.TooManyReads →
        TranscribesLines (D.form_of (D.state desk.old)) D.gives (D.state desk.old)
        (R.left source.old) (R.left source.new) (W.written sink.old) (W.written sink.new) (D.state desk.new) }
    // At a failed write some first lines of what was read were answered, no other was put to the desk, and a front of
    // their replies is out.
    ensures front { result ≡ SessionEnd.WriteFault →
        TranscribesFront (D.form_of (D.state desk.old)) D.gives (D.state desk.old)
        (R.left source.old) (R.left source.new) (W.written sink.old) (W.written sink.new) (D.state desk.new) }
    // One read has failed, or one write, where it ended for that, and else none.
    ensures failures { FailsSo result (R.failures source.old) (R.failures source.new)
        (W.failures sink.old) (W.failures sink.new) }
    // It gave up at the last of the most reads that it may have: no earlier, and no later.
    ensures reads { ReadsSo result (R.reads source.old) (R.reads source.new) }
    ensures many { result ≡ SessionEnd.TooManyReads → IfSome (R.left source.old) (λ input. most_reads ≤ length input) }
    // Without memory nothing was read or written.
    ensures memory { result ≡ SessionEnd.NoMemory →
        (source.new ≡ source.old) × (sink.new ≡ sink.old) × (desk.new ≡ desk.old) }
{
    let Ok((mut buffer, mut transcriber)) = begin(alloc) else {
        return SessionEnd::NoMemory;
    };
    let form = desk.form();
    transcriber.answer_all(form, source, sink, desk, buffer.as_mut_slice())
}
