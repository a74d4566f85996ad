//! The law of schedule files: what one spells, or the line at which it is refused in a form, is one thing alone.
ghost use Rattle.std.specs.Prelude.{◌≡◌, ℕ, List};
ghost use Rattle.warp_tag.specs.declared.form.Form.{Form};
ghost use Rattle.warp_world.specs.Schedule.{IsRefusedAt, SpellsSchedule};
ghost use Rattle.warp_world.specs.declared.moves.Move.{Move};

/// No file spells two schedules, also in two forms; in one form it is not refused at two lines, nor does it both spell
/// a schedule and get refused.
pub fn one_schedule()
    ensures schedule { (f g : Form) (bytes : List ℕ) (count other : ℕ) (moves others : List Move) →
        SpellsSchedule f bytes count moves → SpellsSchedule g bytes other others → (count ≡ other) × (moves ≡ others) }
    ensures line { (f : Form) (bytes : List ℕ) (one other : ℕ) →
        IsRefusedAt f bytes one → IsRefusedAt f bytes other → one ≡ other }
    ensures either { (f : Form) (bytes : List ℕ) (count : ℕ) (moves : List Move) (number : ℕ) →
        SpellsSchedule f bytes count moves → IsRefusedAt f bytes number → ⊥ }
{}
