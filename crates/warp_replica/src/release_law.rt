//! Laws: what is released. While no origin breaks an announcement, what was released stays, at every replica.
ghost use Rattle.std.specs.Prelude.{◌≡◌, ◌⊎◌, List, length, take};
ghost use Rattle.warp_tag.specs.Lists.{StartsWith};
ghost use Rattle.warp_tag.specs.Moment.{Moment};
ghost use Rattle.warp_tag.specs.Table.{Event};
ghost use Rattle.warp_step.specs.Program.{Program};
ghost use Rattle.warp_step.specs.Run.{Row, Run, events_until, rows_until};
ghost use Rattle.warp_table.specs.Announced.{IsHonest, IsWithin};
ghost use Rattle.warp_table.specs.Records.{Records};
ghost use Rattle.warp_replica.specs.Answers.{Answers, AreAnswers};
ghost use Rattle.warp_replica.specs.Release.{AreTaken};

/// The rows of a trace before a tag follow from the live events before it alone.
pub fn rows_before_a_tag()
    ensures { (P : Program) (D E : List Event) (rows other : List Row) (end : Moment) → Run P D rows → Run P E other →
        events_until end D ≡ events_until end E → rows_until end rows ≡ rows_until end other }
{}

/// Every set within an honest one is honest.
pub fn honest_subsets()
    ensures { (S U : Records) → IsHonest U → IsWithin S U → IsHonest S }
{}

/// Within an honest set of records that the program takes, what a smaller set releases begins what a larger one
/// releases.
pub fn released_stays()
    ensures { (P : Program) (S T U : Records) (a b : Answers) → IsHonest U → AreTaken P U →
        IsWithin S T → IsWithin T U → AreAnswers P S a → AreAnswers P T b → StartsWith b.released a.released }
{}

/// Of any two sets within an honest set of records that the program takes one released list begins the other.
pub fn released_agree()
    ensures { (P : Program) (S T U : Records) (a b : Answers) → IsHonest U → AreTaken P U →
        IsWithin S U → IsWithin T U → AreAnswers P S a → AreAnswers P T b →
        StartsWith b.released a.released ⊎ StartsWith a.released b.released }
{}

/// What is released is the first of the outputs, as many as there are released.
pub fn released_are_first()
    ensures { (P : Program) (S : Records) (a : Answers) → AreAnswers P S a →
        a.released ≡ take (length a.released) a.outputs }
{}

/// Sets with the same records have the same horizon, released list and broken origins.
pub fn same_release()
    ensures horizon { (P : Program) (S : Records) (a b : Answers) →
        AreAnswers P S a → AreAnswers P S b → a.horizon ≡ b.horizon }
    ensures released { (P : Program) (S : Records) (a b : Answers) →
        AreAnswers P S a → AreAnswers P S b → a.released ≡ b.released }
    ensures broken { (P : Program) (S : Records) (a b : Answers) →
        AreAnswers P S a → AreAnswers P S b → a.broken ≡ b.broken }
{}
