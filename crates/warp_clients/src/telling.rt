//! What a client is told, and what of that goes to its connection.
ghost use Rattle.std.specs.Prelude.{◌≡◌, ◌<◌, [], None, Some, false, true, IfSome, length, slice_index};
ghost use Rattle.warp_room.specs.Gate.{outcome_line};
ghost use Rattle.warp_web.specs.Wire.{IsOutput};
ghost use Rattle.warp_clients.specs.Client.{Closes, Ends, IsNext, MayCarry, MayEnd, MayGrant, MayRefuse, MaySpeak, MayWrite, Misses};
ghost use Rattle.warp_clients.specs.Client.{Pushes, Replies, with_text};
ghost use Rattle.warp_clients.specs.Sayings.{IsOwn, refused_13};
ghost use Rattle.warp_clients.specs.declared.saying.Saying.TheVariants.{Token};

use crate::client::{Client, MOST_CARRIED, MOST_WRONG};
use crate::saying::Saying;
use crate::sending::ClockTold;
use warp_hub::{Facts, Rights};
use warp_room::AnsweredLine;
use websocket::protocol::CloseCode;

impl Client {
    /// It is told these whole lines, where it is told anything; whether it was. Without memory it is over.
    fn tell(&mut self, text: &[u8]) -> bool
        ensures yes { result ≡ true → (self.old.over ≡ false) × (self.new ≡ with_text text.now self.old) }
        ensures no { result ≡ false → Ends self.old self.new }
    {
        if self.over {
            return false;
        }
        if self.out.extend_from_slice(text).is_err() {
            self.over = true;
            return false;
        }
        true
    }

    /// It is told the room's answer to its first line there, which has this text.
    pub(crate) fn reply(&mut self, one: &AnsweredLine, text: &[u8]) -> bool
        requires { text.now ≡ outcome_line one.now.answer.outcome }
        ensures yes { result ≡ true → Replies one.now self.old self.new }
        ensures no { result ≡ false → Misses self.old self.new }
    {
        let owed = self.owed;
        self.owed = owed.saturating_sub(1);
        self.tell(text)
    }

    /// The room's answer to its first line there is not told to it: there was no memory.
    pub(crate) fn miss(&mut self)
        ensures { Misses self.old self.new }
    {
        self.owed = self.owed.saturating_sub(1);
        self.over = true;
    }

    /// What it said that is to be answered here, where all before it is answered.
    pub(crate) fn waiting(&self) -> Option<Saying>
        ensures { IfSome result (λ said. IsNext said self.now) }
    {
        if self.over || self.owed > 0 {
            return None;
        }
        self.slot
    }

    /// What it said is answered by this text. Without memory it is over.
    pub(crate) fn speak(
        &mut self,
        facts: &Facts,
        clock: Option<ClockTold>,
        said: &Saying,
        text: &[u8],
    )
        requires next { IsNext said.now self.old }
        requires own { IsOwn facts.now clock said.now text.now }
        ensures { MaySpeak facts.now clock said.now text.now self.old self.new }
    {
        if self.tell(text) {
            self.slot = None;
        }
    }

    /// Its token is refused by this text; behind a few of these it is over, as it is without memory.
    pub(crate) fn refuse(&mut self, text: &[u8])
        requires next { IsNext (Token None) self.old }
        requires text { text.now ≡ refused_13 }
        ensures { MayRefuse text.now self.old self.new }
    {
        if !self.tell(text) {
            return;
        }
        self.slot = None;
        self.wrong = self.wrong.saturating_add(1);
        self.over = self.wrong >= MOST_WRONG;
    }

    /// It takes on the rights of its token, and is told so by this text. Without memory it is over.
    pub(crate) fn grant(&mut self, rights: &Rights, text: &[u8])
        requires { IsNext (Token (Some rights.now)) self.old }
        ensures { MayGrant rights.now text.now self.old self.new }
    {
        if !self.tell(text) {
            return;
        }
        self.rights = *rights;
        self.slot = None;
    }

    /// These whole lines are pushed to it; whether they were.
    pub(crate) fn push(&mut self, text: &[u8]) -> bool
        ensures yes { result ≡ true → Pushes text.now self.old self.new }
        ensures no { result ≡ false → Ends self.old self.new }
    {
        self.tell(text)
    }

    /// Its connection is told what fits of what it was told, up to the end of a line.
    pub(crate) fn carry(&mut self)
        ensures { MayCarry self.old self.new }
    {
        if self.gone {
            return;
        }
        if self.wire.is_behind() {
            return;
        }
        let Some(end) = carried(self.out.as_slice()) else {
            return;
        };
        match self.wire.tell(&self.out.as_slice()[..end]) {
            Ok(()) => self.out.advance(end + 1),
            Err(_) => self.lose(),
        }
    }

    /// All is answered of a client that says nothing more: it is over.
    pub(crate) fn finish(&mut self)
        ensures { MayEnd self.old self.new }
    {
        if self.has_ended && self.owed == 0 && self.slot.is_none() {
            self.over = true;
        }
    }

    /// Where it is told nothing more its connection is closed behind what it was told.
    pub(crate) fn close(&mut self)
        ensures { Closes self.old self.new }
    {
        if self.gone || self.is_closed || !self.over || !self.out.is_empty() {
            return;
        }
        self.is_closed = true;
        let Ok(()) = self.wire.close(CloseCode::Away) else {
            self.lose();
            return;
        };
    }

    /// The next bytes to be written to it.
    pub(crate) fn output(&self) -> &[u8]
        ensures open { self.now.gone ≡ false → IsOutput result.now self.now.wire }
        ensures gone { self.now.gone ≡ true → result.now ≡ [] }
    {
        if self.gone {
            return b"";
        }
        self.wire.output()
    }

    /// The first so many of these were written.
    pub(crate) fn written(&mut self, count: usize)
        ensures { MayWrite count self.old self.new }
    {
        if self.gone {
            return;
        }
        self.wire.written(count);
    }

    /// Whether its connection is to be closed now: all is written of what it was told, and it is told nothing more; or it
    /// is lost.
    pub(crate) fn is_over(&self) -> bool {
        if self.gone {
            return true;
        }
        self.over && self.out.is_empty() && self.wire.output().is_empty()
    }
}

/// How many bytes are told at once of these, without the line feed behind them: up to the last line feed of the first so
/// many, or to the first one behind these. `None` where there is no line feed.
fn carried(bytes: &[u8]) -> Option<usize>
    ensures { IfSome result (λ end. (end < length bytes.now) × (slice_index bytes.now end ≡ 10)) }
{
    let most = bytes.len().min(MOST_CARRIED);
    match bytes[..most].iter().rposition(|byte| *byte == b'\n') {
        Some(end) => Some(end),
        None => bytes.iter().position(|byte| *byte == b'\n'),
    }
}
