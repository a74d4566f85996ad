//! What was executed and waits until it may be told.

ghost use Rattle.std.specs.Prelude.{◌≡◌, ◌≤◌, ◌++◌, ◌∷◌, [], IfNone, IfSome, false, if◌then◌else◌, true};
ghost use Rattle.warp_push.specs.Marks.{sum_64};
ghost use Rattle.warp_push.specs.Noted.{AreLater, IsStepsOf, Keeps, LeavesOut, PutsLeftOut, TakesNext, no_steps, put_on, room_of};
ghost use Rattle.warp_push.specs.Texts.{lines_in};

use crate::marks::News;
use crate::page::{STEP_MARK, lines_in, marked};
use crate::watchers::Pushing;
use std::alloc::Global;
use std::collections::VecDeque;
use std::marker::Model;
use warp_hub::Subject;

/// Once so many bytes of steps wait to be told, none more are noted.
const MOST_WAITING: usize = 262_144;

/// So many times steps wait to be told at most.
const MOST_TIMES: usize = 1_024;

/// What was executed for a line.
#[derive(Drop)]
pub struct Executed {
    /// The length that the log had.
    len: u32,
    /// How many lines were left out before these.
    left_out: u64,
    /// Whole lines of JSON.
    text: Vec<u8>,
}

impl Model for Executed {
    ghost use Rattle.warp_push.specs.Noted.{Noted};

    ghost Value = { Noted };

    ghost view = { λ e. record { len = e.len; left_out = e.left_out; text = e.text.items } };
}

/// What was executed and waits until it may be told.
#[derive(Drop)]
pub struct Steps {
    alloc: Global,
    waiting: VecDeque<Executed>,
    /// How many bytes wait.
    bytes: usize,
    /// How many lines were left out since the last that were noted.
    left_out: u64,
    is_noting: bool,
}

impl Model for Steps {
    ghost use Rattle.warp_push.specs.Noted.{StepsState};

    ghost Value = { StepsState };

    ghost view = { λ s. record { waiting = s.waiting.items; bytes = s.bytes; left_out = s.left_out; noting = s.is_noting } };
}

impl Steps {
    /// Nothing was noted.
    pub fn new(alloc: Global) -> Steps
        ensures { result ≡ no_steps }
    {
        Steps {
            alloc,
            waiting: VecDeque::new(alloc),
            bytes: 0,
            left_out: 0,
            is_noting: false,
        }
    }

    /// Nobody watches: what was left out is no matter.
    pub fn forget(&mut self)
        ensures { self.new ≡ record self.old { left_out = 0; noting = false } }
    {
        self.left_out = 0;
        self.is_noting = false;
    }

    /// Whether steps are noted.
    pub fn is_noting(&self) -> bool
        ensures { result ≡ self.now.noting }
    {
        self.is_noting
    }

    /// Steps are noted from now on.
    pub fn begin(&mut self)
        ensures { self.new ≡ record self.old { noting = true } }
    {
        self.is_noting = true;
    }

    /// How many bytes more may wait; none where there is no place for them.
    pub fn room(&self) -> usize
        ensures { result ≡ room_of self.now }
    {
        if self.waiting.len() >= MOST_TIMES {
            return 0;
        }
        MOST_WAITING.saturating_sub(self.bytes)
    }

    /// So many lines more are left out.
    pub fn leave_out(&mut self, lines: u64)
        ensures { LeavesOut lines self.old self.new }
    {
        self.left_out = self.left_out.saturating_add(lines);
    }

    /// Keeps what was noted of a line, at this length of the log, behind which so many lines were left out. Where there
    /// was no room for it, or there is no memory, it is left out too.
    pub fn keep(&mut self, len: u32, has_room: bool, text: Vec<u8>, behind: u64)
        ensures { Keeps len text.items behind self.old self.new }
    {
        let lines = lines_in(&text);
        if text.is_empty() || !has_room {
            self.leave_out(lines.saturating_add(behind));
            return;
        }
        if !self.put(len, text, behind) {
            self.leave_out(lines.saturating_add(behind));
        }
    }

    /// Puts these lines behind what waits, behind which so many were left out; whether there was memory.
    fn put(&mut self, len: u32, text: Vec<u8>, behind: u64) -> bool
        ensures put { result ≡ true → self.new ≡ put_on len text.items behind self.old }
        ensures not { result ≡ false → self.new ≡ self.old }
    {
        let bytes = text.len();
        let executed = Executed {
            len,
            left_out: self.left_out,
            text,
        };
        if !add(&mut self.waiting, executed) {
            return false;
        }
        self.bytes = self.bytes.saturating_add(bytes);
        self.left_out = behind;
        true
    }

    /// How many lines were left out last is to be told by itself, where some were and there is room for that.
    pub fn put_left_out(&mut self, len: u32)
        ensures { PutsLeftOut len self.old self.new }
    {
        if self.left_out == 0 || self.room() == 0 {
            return;
        }
        let _is_put = self.put(len, Vec::new(self.alloc), 0);
    }

    /// What was noted first, if it is of a log of no more records than so many.
    pub fn next_within(&mut self, limit: u32) -> Option<Executed>
        ensures within { IfSome result (λ one. one.len ≤ limit) }
        ensures first { IfSome result (λ one. TakesNext one self.old self.new) }
        ensures none { IfNone result (self.new ≡ self.old) }
        ensures later { IfNone result (AreLater limit self.old.waiting) }
    {
        let first = self.waiting.front()?;
        if first.len > limit {
            return None;
        }
        let executed = self.waiting.pop_front()?;
        self.bytes = self.bytes.saturating_sub(executed.text.len());
        Some(executed)
    }

    /// What is pushed of this to all that watch steps. Without memory it is left out too.
    pub fn pushing(&mut self, executed: &Executed) -> Option<Pushing>
        ensures of { IfSome result (λ one. IsStepsOf executed.now one) }
        ensures same { IfSome result (λ one. self.new ≡ self.old) }
        ensures none { IfNone result (LeavesOut (sum_64 executed.now.left_out (lines_in executed.now.text)) self.old self.new) }
    {
        let count = lines_in(&executed.text);
        let Ok(text) = marked(self.alloc, STEP_MARK, &executed.text) else {
            self.leave_out(executed.left_out.saturating_add(count));
            return None;
        };
        let news = News::Steps {
            left_out: executed.left_out,
            count,
        };
        Some(Pushing::to_all(Subject::Steps, news, executed.len, text))
    }
}

/// One more waits behind the others; whether there was memory.
fn add(waiting: &mut VecDeque<Executed>, executed: Executed) -> bool
    ensures { waiting.new.items ≡ (if result then waiting.old.items ++ executed ∷ [] else waiting.old.items) }
{
    waiting.push_back(executed).is_ok()
}
