//! Laws: what holds of the logs of every world, whatever the moves.
ghost use Rattle.std.specs.Prelude.{◌≡◌, ◌≤◌, ◌++◌, ℕ, List, None, Some, Contains, length};
ghost use Rattle.warp_tag.specs.Limits.{most_records};
ghost use Rattle.warp_tag.specs.Lists.{StartsWith};
ghost use Rattle.warp_step.specs.Program.{Program};
ghost use Rattle.warp_record.specs.declared.record.Record.{Record};
ghost use Rattle.warp_table.specs.Announced.{IsWithin};
ghost use Rattle.warp_table.specs.Check.{refusal_of};
ghost use Rattle.warp_table.specs.Log.{EachOnce};
ghost use Rattle.warp_table.specs.Records.{IsIn, set_of};
ghost use Rattle.warp_world.specs.World.{log_of, world_after};
ghost use Rattle.warp_world.specs.declared.moves.Move.{Move};

/// In every world each log has each record once and at most as many as the program's form allows, each of them one
/// that was made; and the program takes each record that was made.
pub fn logs_are_made()
    ensures once { (P : Program) (count : ℕ) (moves : List Move) (replica : ℕ) (log : List Record) →
        log_of (world_after P count moves) replica ≡ Some log → EachOnce log }
    ensures few { (P : Program) (count : ℕ) (moves : List Move) (replica : ℕ) (log : List Record) →
        log_of (world_after P count moves) replica ≡ Some log → length log ≤ most_records P.form }
    ensures within { (P : Program) (count : ℕ) (moves : List Move) (replica : ℕ) (log : List Record) →
        log_of (world_after P count moves) replica ≡ Some log → IsWithin (set_of log) (world_after P count moves).made }
    ensures taken { (P : Program) (count : ℕ) (moves : List Move) (said : Record) →
        IsIn (world_after P count moves).made said → refusal_of P said ≡ None }
{}

/// No record is ever unmade, a log only grows until its replica is restarted, and there are always the same replicas.
pub fn worlds_grow()
    ensures made { (P : Program) (count : ℕ) (front rest : List Move) →
        IsWithin (world_after P count front).made (world_after P count (front ++ rest)).made }
    ensures logs { (P : Program) (count : ℕ) (front rest : List Move) (replica : ℕ) (early late : List Record) →
        ¬ Contains rest (Move.Restart replica) → log_of (world_after P count front) replica ≡ Some early →
        log_of (world_after P count (front ++ rest)) replica ≡ Some late → StartsWith late early }
    ensures replicas { (P : Program) (count : ℕ) (moves : List Move) → length (world_after P count moves).logs ≡ count }
{}
