//! Laws of fronts: what replicas answer and release after the first moves of a schedule, and after more of them.
ghost use Rattle.std.specs.Prelude.{◌≡◌, ◌⊎◌, ◌≤◌, ℕ, Some, List, Contains, drop, take};
ghost use Rattle.warp_tag.specs.Lists.{StartsWith};
ghost use Rattle.warp_step.specs.Program.{Program};
ghost use Rattle.warp_record.specs.declared.record.Record.{Record};
ghost use Rattle.warp_table.specs.Announced.{IsHonest};
ghost use Rattle.warp_table.specs.Records.{set_of};
ghost use Rattle.warp_replica.specs.Answers.{Answers, AreAnswers};
ghost use Rattle.warp_world.specs.World.{log_of, world_after};
ghost use Rattle.warp_world.specs.declared.moves.Move.{Move};
ghost use Rattle.warp_world.specs.declared.moves.Move.TheVariants.{Restart};

/// After any moves, replicas whose logs have the same records have the same answers.
pub fn equal_sets()
    ensures { (P : Program) (count : ℕ) (front : List Move) (one other : ℕ) (left right : List Record) (a b : Answers) →
        log_of (world_after P count front) one ≡ Some left → log_of (world_after P count front) other ≡ Some right →
        set_of left ≡ set_of right → AreAnswers P (set_of left) a → AreAnswers P (set_of right) b → a ≡ b }
{}

/// While no origin broke an announcement in all that was made by the end, of what any two replicas release, each
/// after some of the moves, the one list begins the other; and what a replica releases begins what it releases later,
/// unless it was restarted between.
pub fn released_fronts()
    ensures agree { (P : Program) (count : ℕ) (moves : List Move) (i j one other : ℕ) (left right : List Record)
        (a b : Answers) →
        IsHonest (world_after P count moves).made →
        log_of (world_after P count (take i moves)) one ≡ Some left →
        log_of (world_after P count (take j moves)) other ≡ Some right →
        AreAnswers P (set_of left) a → AreAnswers P (set_of right) b →
        StartsWith b.released a.released ⊎ StartsWith a.released b.released }
    ensures stays { (P : Program) (count : ℕ) (moves : List Move) (i j replica : ℕ) (early late : List Record)
        (a b : Answers) →
        IsHonest (world_after P count moves).made → i ≤ j → ¬ Contains (drop i (take j moves)) (Restart replica) →
        log_of (world_after P count (take i moves)) replica ≡ Some early →
        log_of (world_after P count (take j moves)) replica ≡ Some late →
        AreAnswers P (set_of early) a → AreAnswers P (set_of late) b → StartsWith b.released a.released }
{}
