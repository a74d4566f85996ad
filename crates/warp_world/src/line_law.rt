//! Laws of lines: what a replica does with a line is one move of a world, or an answer at its present log.
ghost use Rattle.std.specs.Prelude.{◌≡◌, ◌≢◌, ◌⊎◌, ◌++◌, ◌∷◌, [], ℕ, List, Some, fold, slice_get, slice_set};
ghost use Rattle.warp_step.specs.Program.{Program};
ghost use Rattle.warp_record.specs.declared.line.Line.{Line};
ghost use Rattle.warp_record.specs.declared.line.Line.TheVariants.{Put};
ghost use Rattle.warp_record.specs.declared.record.Record.{Record};
ghost use Rattle.warp_record.specs.declared.reply.Refusal.TheVariants.{NoMemory};
ghost use Rattle.warp_record.specs.declared.reply.Reply.{Reply};
ghost use Rattle.warp_record.specs.declared.reply.Reply.TheVariants.{Refused, Taken};
ghost use Rattle.warp_table.specs.Records.{IsIn, set_of, union};
ghost use Rattle.warp_replica.specs.Gives.{Gives};
ghost use Rattle.warp_world.specs.Lines.{GiveAll, LineAt, moves_of, moves_of_all};
ghost use Rattle.warp_world.specs.World.{World, happens, log_entry, log_of, with_log, world_after};
ghost use Rattle.warp_world.specs.declared.moves.Move.{Move};
ghost use Rattle.warp_world.specs.declared.moves.Move.TheVariants.{Carry, Collect, Make};

/// A law: what a line leaves of a replica's log, its moves leave of it in every world where the replica has that log,
/// and they leave all other logs as they were.
///
/// A record that is taken comes behind the log, and is made there; where it was made before, only the log changes, as
/// where it is carried there from any log that has it. Every other reply leaves the log, and the world, as it was; and
/// but for want of memory neither making nor carrying the record would have changed that world. Collecting changes
/// no world.
pub fn line_is_event()
    ensures logs { (P : Program) (w : World) (replica : ℕ) (log after : List Record) (said : Line) (answer : Reply) →
        log_of w replica ≡ Some log → Gives P log said answer after →
        (fold (happens P) w (moves_of replica said answer)).logs ≡ slice_set w.logs replica after }
    ensures taken { (P : Program) (w : World) (replica place : ℕ) (log after : List Record) (said : Record) →
        log_of w replica ≡ Some log → Gives P log (Put said) (Taken place) after →
        (after ≡ log ++ said ∷ [])
        × (happens P w (Make replica said)
        ≡ with_log replica after (record w { made = union w.made (set_of (said ∷ [])) })) }
    ensures again { (P : Program) (w : World) (replica place : ℕ) (log after : List Record) (said : Record) →
        log_of w replica ≡ Some log → Gives P log (Put said) (Taken place) after → IsIn w.made said →
        happens P w (Make replica said) ≡ with_log replica after w }
    ensures carried { (P : Program) (w : World) (replica place from at : ℕ) (log after : List Record) (said : Record) →
        log_of w replica ≡ Some log → Gives P log (Put said) (Taken place) after →
        log_entry w from at ≡ Some said → happens P w (Carry from at replica) ≡ with_log replica after w }
    ensures answered { (P : Program) (w : World) (replica : ℕ) (log after : List Record) (said : Line)
        (answer : Reply) →
        Gives P log said answer after → ((place : ℕ) → answer ≢ Taken place) →
        (after ≡ log) × (fold (happens P) w (moves_of replica said answer) ≡ w) }
    ensures void { (P : Program) (w : World) (replica : ℕ) (log after : List Record) (said : Record) (answer : Reply) →
        log_of w replica ≡ Some log → Gives P log (Put said) answer after → ((place : ℕ) → answer ≢ Taken place) →
        answer ≢ Refused NoMemory →
        (happens P w (Make replica said) ≡ w)
        × ((from at : ℕ) → log_entry w from at ≡ Some said → happens P w (Carry from at replica) ≡ w) }
    ensures collected { (P : Program) (w : World) (replica : ℕ) → happens P w (Collect replica) ≡ w }
{}

/// A law: whatever lines replicas are given, one after another and at whichever of them, their logs are those of a
/// world, after the moves that these lines are; and each record that was made by then was made before, or is in one of
/// these logs. So what is promised of worlds holds of replicas that are given lines.
pub fn lines_are_moves()
    ensures logs { (P : Program) (count : ℕ) (moves : List Move) (lines : List LineAt) (after : List (List Record)) →
        GiveAll P (world_after P count moves).logs lines after →
        (world_after P count (moves ++ moves_of_all lines)).logs ≡ after }
    ensures made { (P : Program) (count : ℕ) (moves : List Move) (lines : List LineAt) (after : List (List Record))
        (said : Record) →
        GiveAll P (world_after P count moves).logs lines after →
        IsIn (world_after P count (moves ++ moves_of_all lines)).made said →
        IsIn (world_after P count moves).made said
        ⊎ ((replica : ℕ) × (log : List Record) × (slice_get after replica ≡ Some log) × IsIn (set_of log) said) }
{}

/// A law: a record may be put at every replica of a world, and answered otherwise than for want of memory; then that
/// leaves of the logs what making the record there does, and what carrying it there does.
pub fn moves_are_lines()
    ensures { (P : Program) (count : ℕ) (moves : List Move) (replica : ℕ) (log : List Record) (said : Record) →
        log_of (world_after P count moves) replica ≡ Some log →
        (answer : Reply) × (after : List Record) × Gives P log (Put said) answer after × (answer ≢ Refused NoMemory)
        × ((happens P (world_after P count moves) (Make replica said)).logs
        ≡ slice_set (world_after P count moves).logs replica after)
        × ((from at : ℕ) → log_entry (world_after P count moves) from at ≡ Some said →
        (happens P (world_after P count moves) (Carry from at replica)).logs
        ≡ slice_set (world_after P count moves).logs replica after) }
{}
