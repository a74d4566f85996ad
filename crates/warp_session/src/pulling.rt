//! Pulling the log of another replica over a connection, into a desk.
ghost use Rattle.std.specs.Prelude.{◌≡◌, ◌≢◌, ℕ, ◌+◌, ◌<◌, ◌≤◌, ◌++◌, [], false, true, IfErr, IfNone, IfOk, IfSome};
ghost use Rattle.std.specs.Prelude.{List, MatchBool, OnErr, OnOk, Option, is_none};
ghost use Rattle.std.specs.Io.KnownBytes.{Appends, Consumes, IsAtEnd};
ghost use Rattle.warp_tag.specs.Lists.{StartsWith};
ghost use Rattle.warp_tag.specs.Limits.{widest};
ghost use Rattle.warp_record.specs.Lines.{piece_of};
ghost use Rattle.warp_record.specs.declared.reply.Reply.{Reply};
ghost use Rattle.warp_record.specs.Reply.{IsReply};
ghost use Rattle.warp_exchange.specs.Pulls.{Pulls};
ghost use Rattle.warp_session.specs.Pull.{GoesOn, IsBegun, PullFails, PullsTo, SpellsReply, levels_with, most_turns};
ghost use Rattle.warp_session.specs.Pull.{question};
ghost use Rattle.warp_session.specs.Stream.{CountsFailures, reads_more};
ghost use Rattle.warp_session.specs.inner.Inbox.{CutsMore, InboxState, Moves, empty_inbox, pending, waiting};
ghost use Rattle.warp_session.specs.inner.Pulling.{EndsBehind, IsCut, Rests};

use crate::inbox::Inbox;
use crate::stream::{Failed, Sink, Source, write_all};
use arrayvec::ArrayVec;
use itoa::Buffer;
use std::alloc::{AllocError, Global};
use std::thread;
use std::time::{Clock, Duration};
use warp_exchange::{Desk, Pulled, Puller, is_passing};
use warp_record::{Fed, Refusal, Reply, read_reply};
use warp_tag::Form;

/// The most turns of a pull of any form.
const MAX_TURNS: u32 = 100_000_000;

/// The most turns of a pull of this form: one is a question to the other replica, or a read.
fn most_turns(form: Form) -> u32
    ensures value { result ≡ most_turns form }
    ensures range { result ≤ MAX_TURNS }
{
    match form {
        Form::One | Form::Two => 1_000_000,
        Form::Three | Form::Four => MAX_TURNS,
    }
}

/// How a pull ended.
#[derive(Clone, Copy, Debug, PartialEq, Eq)]
pub enum PullEnd {
    /// The other log had nothing new, as often in a row as was asked for.
    Quiet,
    /// A reply of the other replica answers no question of a pull, or does not read; or the desk's own does.
    Strange,
    /// The desk refused the record for this reason, which does not pass.
    Held(Refusal),
    /// A read or a write failed.
    Fault,
    /// The bytes ended before a whole reply.
    End,
    /// As many turns as the form of the desk's program allows came to no other end: 1,000,000, or 100,000,000 for
    /// version 3.
    TooManyTurns,
    /// No memory was to be had; nothing was read or written.
    NoMemory,
}

/// The reply of this form that a line spells, if it does; one of more than 128 bytes spells none.
fn reply_of(form: Form, fed: &Fed) -> Option<Reply>
    ensures reply { IfSome result (IsReply widest) }
    ensures spells { SpellsReply form (piece_of fed.now) result }
{
    match fed {
        Fed::Text(bytes) => read_reply(form, bytes),
        _ => None,
    }
}

/// The most bytes of a question.
const QUESTION_ROOM: usize = 32;

/// The question for a place of the log, with its line feed.
fn question_for(place: u32) -> ArrayVec<u8, QUESTION_ROOM>
    ensures { result.items ≡ question place }
{
    let mut digits = Buffer::new();
    let mut line = ArrayVec::new();
    // There is room, so nothing can be refused.
    let _ = line.try_extend_from_slice(b"log ");
    let _ = line.try_extend_from_slice(digits.format(place).as_bytes());
    let _ = line.try_extend_from_slice(b"\n");
    line
}

/// How pulling ends behind an outcome, of which so many of the last were level, if it does.
fn end_of(pulled: Pulled, levels: u32, quiet: u32) -> Option<PullEnd>
    ensures some { IfSome result (EndsBehind quiet levels «pulled») }
    ensures none { IfNone result (GoesOn quiet levels «pulled») }
{
    match pulled {
        Pulled::Got => None,
        Pulled::Level if levels >= quiet => Some(PullEnd::Quiet),
        Pulled::Level => None,
        Pulled::Held(refusal) if is_passing(refusal) => None,
        Pulled::Held(refusal) => Some(PullEnd::Held(refusal)),
        Pulled::Strange => Some(PullEnd::Strange),
    }
}

/// Whether the same question is asked again behind this outcome, and so after a pause.
fn rests(pulled: Pulled) -> bool
    ensures { MatchBool result (Rests «pulled») (Rests «pulled» → ⊥) }
{
    match pulled {
        Pulled::Level => true,
        Pulled::Held(refusal) => is_passing(refusal),
        Pulled::Got | Pulled::Strange => false,
    }
}

/// Asks for the next place.
fn ask<W: Sink>(puller: &Puller, sink: &mut W) -> Result<(), Failed>
    ensures asked { OnOk result (Appends (W.written sink.old) (W.written sink.new) (question puller.now)) }
    ensures front { OnErr result ((front : List ℕ) × StartsWith (question puller.now) front
        × Appends (W.written sink.old) (W.written sink.new) front) }
    ensures failures { CountsFailures (W.failures sink.old) (W.failures sink.new) result }
{
    let question = question_for(puller.next());
    write_all(sink, &question)
}

/// Reads more of a reply.
fn hear_more<R: Source>(inbox: &mut Inbox, source: &mut R) -> Result<(), PullEnd>
    requires { inbox.old.came ≡ [] }
    ensures read { Consumes (R.left source.old) (R.left source.new) inbox.new.came }
    ensures kept { inbox.new.kept ≡ inbox.old.kept }
    ensures reads { R.reads source.new ≡ reads_more 1 (R.reads source.old) }
    ensures ok { OnOk result (R.failures source.new ≡ R.failures source.old) }
    ensures cut { IfErr result (λ end. IsCut end
        × ((writes : ℕ) → PullFails end (R.failures source.old) (R.failures source.new) writes writes)) }
    ensures none { OnErr result (inbox.new.came ≡ []) }
    ensures end { IfErr result (λ end. end ≡ PullEnd.End → IsAtEnd (R.left source.new)) }
{
    let Ok(came) = inbox.read(source) else {
        return Err(PullEnd::Fault);
    };
    if !came {
        return Err(PullEnd::End);
    }
    Ok(())
}

/// Asks for the next place, or reads where it waits for the reply.
fn go_on<R: Source, W: Sink>(
    waits: bool,
    puller: &Puller,
    inbox: &mut Inbox,
    source: &mut R,
    sink: &mut W,
) -> Result<(), PullEnd>
    requires { waits ≡ true → inbox.old.came ≡ [] }
    ensures ok { OnOk result
        ((R.failures source.new ≡ R.failures source.old) × (W.failures sink.new ≡ W.failures sink.old)) }
    ensures cut { IfErr result (λ end. IsCut end
        × PullFails end (R.failures source.old) (R.failures source.new) (W.failures sink.old) (W.failures sink.new)) }
    ensures asked { OnOk result ((text : List ℕ) × (pending waits puller.now ++ text ≡ question puller.now)
        × Moves (R.left source.old) (R.left source.new) (W.written sink.old) (W.written sink.new)
        text inbox.old inbox.new) }
    ensures reads { R.reads source.new ≡ reads_more (waiting waits) (R.reads source.old) }
    ensures front { IfErr result (λ end. (text : List ℕ)
        × IsBegun end (question puller.now) 1 (pending waits puller.now ++ text)
        × Moves (R.left source.old) (R.left source.new) (W.written sink.old) (W.written sink.new)
        text inbox.old inbox.new) }
    ensures none { OnErr result (waits ≡ true → inbox.new.came ≡ []) }
    ensures end { IfErr result (λ end. end ≡ PullEnd.End → (inbox.new.came ≡ []) × IsAtEnd (R.left source.new)) }
{
    if waits {
        return hear_more(inbox, source);
    }
    let Ok(()) = ask(puller, sink) else {
        return Err(PullEnd::Fault);
    };
    Ok(())
}

/// A pull under way: what another replica is asked, and what it replied.
#[derive(Drop)]
struct Conversation {
    puller: Puller,
    inbox: Inbox,
    // A question was asked, and its reply did not come yet.
    waits: bool,
    // So many of the last replies in a row were level.
    levels: u32,
    ghost looked: { waits ≡ true → inbox.came ≡ [] },
}

impl Conversation {
    /// Nothing was asked yet.
    fn new(alloc: Global) -> Result<Conversation, AllocError>
        ensures started { IfOk result (λ made. (made.puller ≡ 1) × (made.levels ≡ 0)) }
        ensures silent { IfOk result (λ made. (made.inbox ≡ empty_inbox) × (made.waits ≡ false)) }
    {
        let inbox = Inbox::new(alloc)?;
        Ok(Conversation {
            puller: Puller::new(),
            inbox,
            waits: false,
            levels: 0,
        })
    }

    /// Asks for the next place, or reads where it waits for the reply. Gives the reply's line, if all of it came.
    fn turn<R: Source, W: Sink>(
        &mut self,
        source: &mut R,
        sink: &mut W,
    ) -> Result<Option<Fed>, PullEnd>
        ensures ok { OnOk result
            ((R.failures source.new ≡ R.failures source.old) × (W.failures sink.new ≡ W.failures sink.old)) }
        ensures cut { IfErr result (λ end. IsCut end
            × PullFails end (R.failures source.old) (R.failures source.new)
            (W.failures sink.old) (W.failures sink.new)) }
        ensures asked { IfOk result (λ fed. (text : List ℕ) × (mid : InboxState)
            × (pending self.old.waits self.old.puller ++ text ≡ question self.old.puller)
            × Moves (R.left source.old) (R.left source.new) (W.written sink.old) (W.written sink.new)
            text self.old.inbox mid × CutsMore fed mid self.new.inbox) }
        ensures waits { IfOk result (λ fed. self.new.waits ≡ is_none fed) }
        ensures reads { R.reads source.new ≡ reads_more (waiting self.old.waits) (R.reads source.old) }
        ensures front { IfErr result (λ end. (text : List ℕ)
            × IsBegun end (question self.old.puller) 1 (pending self.old.waits self.old.puller ++ text)
            × Moves (R.left source.old) (R.left source.new) (W.written sink.old) (W.written sink.new)
            text self.old.inbox self.new.inbox) }
        ensures end { IfErr result (λ end. end ≡ PullEnd.End →
            (self.new.inbox.came ≡ []) × IsAtEnd (R.left source.new)) }
        ensures puller { self.new.puller ≡ self.old.puller }
        ensures levels { self.new.levels ≡ self.old.levels }
    {
        go_on(self.waits, &self.puller, &mut self.inbox, source, sink)?;
        let fed = self.inbox.line();
        self.waits = fed.is_none();
        Ok(fed)
    }

    /// Does what the reply leads to, and counts levels.
    fn hear<D: Desk>(&mut self, form: Form, fed: &Fed, desk: &mut D) -> Pulled
        requires { self.old.levels < MAX_TURNS }
        ensures pulls { (reply : Option Reply) × SpellsReply form (piece_of fed.now) reply
            × Pulls D.gives (D.state desk.old) self.old.puller reply
            (record { pulled = result; next = self.new.puller }) (D.state desk.new) }
        ensures others { (self.new.inbox ≡ self.old.inbox) × (self.new.waits ≡ self.old.waits) }
        ensures levels { self.new.levels ≡ levels_with self.old.levels result }
    {
        let pulled = self.puller.on_reply(reply_of(form, fed), desk);
        self.levels = if pulled == Pulled::Level {
            self.levels + 1
        } else {
            0
        };
        pulled
    }

    /// Pulls to an end, by replies of this form.
    fn run<X: Clock, R: Source, W: Sink, D: Desk>(
        &mut self,
        form: Form,
        rt: &X,
        source: &mut R,
        sink: &mut W,
        desk: &mut D,
        quiet: u32,
        pause: Duration,
    ) -> PullEnd
        requires started { (self.old.puller ≡ 1) × (self.old.levels ≡ 0) }
        requires silent { (self.old.inbox ≡ empty_inbox) × (self.old.waits ≡ false) }
        ensures pulls { PullsTo form D.gives (D.state desk.old) quiet result (D.state desk.new)
            (R.left source.old) (R.left source.new) (W.written sink.old) (W.written sink.new)
            (R.reads source.old) (R.reads source.new) }
        ensures failures { PullFails result (R.failures source.old) (R.failures source.new)
            (W.failures sink.old) (W.failures sink.new) }
        ensures memory { result ≢ PullEnd.NoMemory }
    {
        'turns: for _turn in 0..most_turns(form) {
            let fed = match self.turn(source, sink) {
                Ok(fed) => fed,
                Err(end) => return end,
            };
            let Some(fed) = fed else {
                continue;
            };
            let pulled = self.hear(form, &fed, desk);
            if rests(pulled) {
                thread::sleep(rt, pause);
            }
            match end_of(pulled, self.levels, quiet) {
                Some(end) => return end,
                None => continue,
            }
        }
        PullEnd::TooManyTurns
    }
}

/// Asks the other replica, whose replies come by `source` and whose lines go by `sink`, for its log, place after place,
/// and puts its records to `desk`. It reads the replies in the form of the desk's program: one that is none of that
/// form ends it as any other that does not read. It ends where so many replies in a row, `quiet`, were that the other
/// log has no more, at least one; behind each of these, and behind a refusal that passes, it sleeps for `pause`.
pub fn pull<X: Clock, R: Source, W: Sink, D: Desk>(
    rt: &X,
    alloc: Global,
    source: &mut R,
    sink: &mut W,
    desk: &mut D,
    quiet: u32,
    pause: Duration,
) -> PullEnd
    // The replies are what the lines that were read spell, and the questions that they answer were written. The desk
    // was asked what the replies led to and nothing else. The last of them are why it ended, or its turns were over.
    ensures pulls { PullsTo (D.form_of (D.state desk.old)) D.gives
        (D.state desk.old) quiet result (D.state desk.new)
        (R.left source.old) (R.left source.new) (W.written sink.old) (W.written sink.new)
        (R.reads source.old) (R.reads source.new) }
    // One read has failed, or one write, where it ended for that, and else none.
    ensures failures { PullFails result (R.failures source.old) (R.failures source.new)
        (W.failures sink.old) (W.failures sink.new) }
    // Without memory nothing was read or written.
    ensures memory { result ≡ PullEnd.NoMemory →
        (source.new ≡ source.old) × (sink.new ≡ sink.old) × (desk.new ≡ desk.old) }
{
    let Ok(mut conversation) = Conversation::new(alloc) else {
        return PullEnd::NoMemory;
    };
    let form = desk.form();
    conversation.run(form, rt, source, sink, desk, quiet, pause)
}
