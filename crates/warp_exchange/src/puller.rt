//! Pulling the log of another replica, place by place.
ghost use Rattle.std.specs.Prelude.{◌≡◌, ◌≤◌, ◌+◌, IfSome, MatchBool};
ghost use Rattle.warp_tag.specs.Limits.{most_records, widest};
ghost use Rattle.warp_record.specs.declared.line.Query.{Query};
ghost use Rattle.warp_record.specs.declared.line.Line.{Line};
ghost use Rattle.warp_record.specs.declared.reply.Reply.{Reply};
ghost use Rattle.warp_record.specs.declared.reply.Refusal.{Refusal};
ghost use Rattle.warp_record.specs.Record.{IsRecord};
ghost use Rattle.warp_record.specs.Reply.{IsReply};
ghost use Rattle.warp_exchange.specs.Pulls.{Pulls, after_put, passes};

use crate::desk::Desk;
use std::marker::Model;
use warp_record::{Line, Query, Record, Refusal, Reply};

/// What a reply led to.
#[derive(Clone, Copy, Debug, PartialEq, Eq)]
pub enum Pulled {
    /// The record is there now: it was taken, or known. The next place comes next.
    Got,
    /// Not now, for this reason: the other replica's, or the desk's own.
    Held(Refusal),
    /// All of the other log is there.
    Level,
    /// It is no reply to the question, or no reply at all; or the desk's own reply is none to a record.
    Strange,
}

/// Pulls the log of another replica into a desk: it asks for place after place, from 1. Contracts see the place that
/// it asks for next.
#[derive(Debug, Drop)]
pub struct Puller {
    next: u32,
}

impl Model for Puller {
    ghost use Rattle.std.specs.Prelude.{ℕ, ◌≤◌, ◌+◌};
    ghost use Rattle.warp_tag.specs.Limits.{most_records, widest};

    ghost Value = { ℕ };

    ghost view = { λ p. p.next };

    ghost invariant = { λ p. (1 ≤ p.next) × (p.next ≤ most_records widest + 1) };
}

impl Puller {
    /// One that has pulled nothing yet.
    pub fn new() -> Puller
        ensures { result ≡ 1 }
    {
        Puller { next: 1 }
    }

    /// The place that it asks for next, 1 to 10,000,001.
    pub fn next(&self) -> u32
        ensures value { result ≡ self.now }
        ensures range { (1 ≤ self.now) × (self.now ≤ most_records widest + 1) }
    {
        self.next
    }

    /// The question to ask the other replica.
    pub fn ask(&self) -> Query
        ensures { result ≡ Query.Log self.now }
    {
        Query::Log(self.next)
    }

    /// Does what the other replica's reply leads to; `None` is no reply that reads. The desk is asked at most one
    /// line, to take the record that came.
    pub fn on_reply<D: Desk>(&mut self, reply: Option<Reply>, desk: &mut D) -> Pulled
        requires { IfSome reply (IsReply widest) }
        ensures { Pulls D.gives (D.state desk.old) self.old reply (record { pulled = result; next = self.new })
            (D.state desk.new) }
    {
        match reply {
            Some(Reply::Log { log, record }) if log >= self.next => self.put(record, desk),
            Some(Reply::Refused(refusal)) if is_passing(refusal) => Pulled::Held(refusal),
            Some(Reply::Nothing { log }) if log + 1 == self.next => Pulled::Level,
            _ => Pulled::Strange,
        }
    }

    /// Asks the desk to take the record from the place that was asked for.
    fn put<D: Desk>(&mut self, record: Record, desk: &mut D) -> Pulled
        requires { self.old ≤ most_records widest }
        ensures { (answer : Reply) × D.gives (D.state desk.old) (Line.Put «record») answer (D.state desk.new)
            × (record { pulled = result; next = self.new } ≡ after_put self.old answer) }
    {
        match desk.ask(Line::Put(record)) {
            Reply::Taken(_) | Reply::Known(_) => {
                self.next += 1;
                Pulled::Got
            }
            Reply::Refused(refusal) => Pulled::Held(refusal),
            _ => Pulled::Strange,
        }
    }
}

/// Whether a refusal passes: there was no memory, or the one that was asked was busy.
pub fn is_passing(refusal: Refusal) -> bool
    ensures { MatchBool result (passes refusal) (passes refusal → ⊥) }
{
    matches!(refusal, Refusal::NoMemory | Refusal::Busy)
}
