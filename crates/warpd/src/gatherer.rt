//! The desk of a trace: it takes records, and notes whether memory was wanting for one.
ghost use Rattle.std.specs.Prelude.{◌≡◌, []};
ghost use Rattle.std.specs.Prelude.{false};
ghost use Rattle.warp_record.specs.declared.line.Line.{Line};
ghost use Rattle.warp_record.specs.declared.reply.Reply.{Reply};
ghost use Rattle.warpd.specs.Gathered.{brings_record, is_want};

use std::alloc::Global;
use std::marker::Model;
use warp_exchange::Desk;
use warp_record::{Line, Refusal, Reply};
use warp_step::Program;
use warp_tag::Form;
use warp_trace::Recorder;

/// A recorder, and whether it refused a record for want of memory.
#[derive(Drop)]
pub(crate) struct Gatherer {
    pub(crate) recorder: Recorder,
    pub(crate) has_lacked: bool,
}

impl Model for Gatherer {
    ghost use Rattle.warpd.specs.Gathered.{Gathered, gathered_code};

    ghost Value = { Gathered };

    ghost coded = { gathered_code };

    ghost view = { λ g. record { taken = g.recorder; lacked = g.has_lacked } };
}

impl Gatherer {
    /// A desk for this program that took no record yet.
    pub(crate) fn new(alloc: Global, program: Program) -> Gatherer
        ensures { result ≡ record { taken = record { program = program; records = [] }; lacked = false } }
    {
        Gatherer {
            recorder: Recorder::new(alloc, program),
            has_lacked: false,
        }
    }
}

impl Desk for Gatherer {
    ghost use Rattle.warpd.specs.Gathered.{Gathered, Gathers};

    ghost State = { Gathered };

    ghost state = { λ g. g };

    ghost gives = { Gathers };

    ghost form_of = { λ g. g.taken.program.form };

    /// What the recorder replies: it takes a record, and refuses all else.
    fn ask(&mut self, line: Line) -> Reply {
        let is_record = brings_record(&line);
        let reply = self.recorder.ask(line);
        self.has_lacked |= is_record & is_want(&reply);
        reply
    }

    /// The form of the recorder's program.
    fn form(&self) -> Form {
        self.recorder.form()
    }
}

/// Whether the line brings a record.
fn brings_record(line: &Line) -> bool
    ensures { result ≡ brings_record «line».now }
{
    matches!(*line, Line::Put(_))
}

/// Whether the reply is a refusal for want of memory.
fn is_want(reply: &Reply) -> bool
    ensures { result ≡ is_want «reply».now }
{
    matches!(*reply, Reply::Refused(Refusal::NoMemory))
}
