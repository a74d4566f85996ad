//! Laws: what an answer in a linear history says of the log.
ghost use Rattle.std.specs.Prelude.{◌≡◌, ◌⊎◌, ◌++◌, ◌∷◌, [], ℕ, List, length};
ghost use Rattle.warp_step.specs.Program.{Program};
ghost use Rattle.warp_record.specs.declared.line.Line.{Line};
ghost use Rattle.warp_record.specs.declared.record.Record.{Record};
ghost use Rattle.warp_record.specs.declared.reply.Reply.{Reply};
ghost use Rattle.warp_table.specs.Log.{IsAt};
ghost use Rattle.warp_replica.specs.Gives.{Gives};
ghost use Rattle.warp_replica.specs.declared.answer.Answer.{Answer};
ghost use Rattle.warp_replica.specs.History.{IsGiven};

/// A line leaves the log as it found it, or with one record more, and is answered `taken` with its place then. An
/// answer `taken` with a place is to the record that stands there.
pub fn taken_is_there()
    ensures one_more { (P : Program) (found after : List Record) (said : Line) (answer : Reply) →
        Gives P found said answer after →
        (after ≡ found) ⊎ ((last : Record) × (after ≡ found ++ last ∷ []) × (answer ≡ Reply.Taken (length after))) }
    ensures there { (P : Program) (log : List Record) (said : Line) (answer : Answer) (place : ℕ) →
        IsGiven P log said answer → answer.reply ≡ Reply.Taken place →
        (taken : Record) × (said ≡ Line.Put taken) × IsAt log place taken × (place ≡ answer.len) }
{}
