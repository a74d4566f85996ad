//! A replica raised to a wider form: the raised program over the same log.
ghost use Rattle.std.specs.Prelude.{◌≡◌, [], None, IfOk, IfErr, OnOk, OnErr};
ghost use Rattle.warp_record.specs.declared.reply.Refusal.{Refusal};
ghost use Rattle.warp_step.specs.Program.{raised, raised_to};

use crate::replica::Replica;
use std::alloc::Global;
use warp_line::Timeline;
use warp_record::Refusal;
use warp_step::Program;
use warp_tag::Form;

impl<T: Timeline> Replica<T> {
    /// A replica of this one's program raised to version 2 (`Program::raise`), with the same log in the same order, of
    /// which nothing is done yet. `Err` is want of memory alone. Where this one, settled, lost nothing, the raised one,
    /// settled, gives the same reply to every query (`raised_replies`).
    pub fn raise(&self, alloc: Global) -> Result<Replica<T>, Refusal>
        ensures program { IfOk result (λ r. r.program ≡ raised self.now.program) }
        ensures records { IfOk result (λ r. r.records ≡ self.now.records) }
        ensures floor { IfOk result (λ r. T.floor r.timeline ≡ None) }
        ensures refusal { IfErr result (λ why. why ≡ Refusal.NoMemory) }
    {
        self.raise_to(alloc, Form::Two)
    }

    /// A replica of this one's program raised to this form (`Program::raise_to`), with the same log in the same order,
    /// of which nothing is done yet. `Err` is want of memory alone. Where this one, settled, lost nothing, or is raised
    /// from version 2 to version 3, the raised one, settled, gives the same reply to every query (`raised_to_replies`).
    pub fn raise_to(&self, alloc: Global, form: Form) -> Result<Replica<T>, Refusal>
        ensures program { IfOk result (λ r. r.program ≡ raised_to form self.now.program) }
        ensures records { IfOk result (λ r. r.records ≡ self.now.records) }
        ensures floor { IfOk result (λ r. T.floor r.timeline ≡ None) }
        ensures refusal { IfErr result (λ why. why ≡ Refusal.NoMemory) }
    {
        let Ok(program) = Program::raise_to(alloc, self.program(), form) else {
            return Err(Refusal::NoMemory);
        };
        let Ok(mut fresh) = Replica::new(alloc, program) else {
            return Err(Refusal::NoMemory);
        };
        match fresh.take_all(alloc, form, self) {
            Ok(()) => Ok(fresh),
            Err(refusal) => Err(refusal),
        }
    }

    /// Takes all records of a replica whose program this one's is raised from, in the order of its log. It has taken
    /// none yet. `Err` is want of memory.
    fn take_all(&mut self, alloc: Global, form: Form, other: &Replica<T>) -> Result<(), Refusal>
        requires program { self.old.program ≡ raised_to form other.now.program }
        requires empty { self.old.records ≡ [] }
        requires floor { T.floor self.old.timeline ≡ None }
        ensures program { self.new.program ≡ self.old.program }
        ensures records { OnOk result (self.new.records ≡ other.now.records) }
        ensures floor { T.floor self.new.timeline ≡ None }
        ensures refusal { IfErr result (λ why. why ≡ Refusal.NoMemory) }
    {
        // None of its records is there twice, and its program has no reason against one of them.
        other.valid();
        let mut count = 0;
        while let Some(record) = other.entry(count + 1) {
            if let Err(refusal) = self.take(alloc, &record) {
                return Err(refusal);
            }
            count += 1;
        }
        Ok(())
    }
}
