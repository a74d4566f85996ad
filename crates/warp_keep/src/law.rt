//! Laws of kept origins: that no announcement of theirs is ever broken, and what follows from it for all who have a part of the log.
ghost use Rattle.std.specs.Prelude.{◌≡◌, ◌↔◌, ◌⊎◌, ◌+◌, ◌<◌, ◌++◌, [], ℕ, ℤ, Bool, List, IsTrue, Result, Ok};
ghost use Rattle.warp_tag.specs.Lists.{StartsWith};
ghost use Rattle.warp_tag.specs.Moment.{Moment, is_before};
ghost use Rattle.warp_step.specs.Program.{Program};
ghost use Rattle.warp_record.specs.declared.record.Record.{Record};
ghost use Rattle.warp_record.specs.declared.reply.Refusal.{Refusal};
ghost use Rattle.warp_table.specs.Announced.{HasReached, IsBroken, IsHonest, IsWithin};
ghost use Rattle.warp_table.specs.Closed.{AreCountsBefore, AreJointCountsBefore, ClosesAt, IsClosed, IsDoubled};
ghost use Rattle.warp_table.specs.Joint.{IsBrokenJointly};
ghost use Rattle.warp_table.specs.Names.{HasTwoPayloads};
ghost use Rattle.warp_table.specs.Records.{IsIn, Records, set_of};
ghost use Rattle.warp_replica.specs.Answers.{Answers, AreAnswers};
ghost use Rattle.warp_replica.specs.Gives.{IsNew, Takes};
ghost use Rattle.warp_replica.specs.Release.{AreTaken};
ghost use Rattle.warp_replica.specs.declared.taking.Took.{Took};
ghost use Rattle.warp_keep.specs.Judging.{IsClosing, IsJointClosing, Judges, MayBeKept};
ghost use Rattle.warp_keep.specs.Kept.{GoesOn, HasFrom, AreAllKept, MayCome, NoneBehind, SaysJust, SaysJustJointly, SpeaksOfKept};
ghost use Rattle.warp_keep.specs.Stamps.{IsStamp};
ghost use Rattle.warp_keep.specs.declared.judging.Judgement.{Judgement};

/// A kept origin that broke no announcement in a log broke none with what came behind it. Where all origins are kept, no joint
/// announcement is broken either. A set with nothing of an origin but from a log breaks none that the log does not.
pub fn kept_unbroken()
    ensures own { (keeps : ℕ → Bool) (log more : List Record) (origin : ℕ) → IsTrue (keeps origin) →
        ¬ IsBroken (set_of log) origin → NoneBehind keeps log more → ¬ IsBroken (set_of (log ++ more)) origin }
    ensures jointly { (P : Program) (keeps : ℕ → Bool) (log more : List Record) → AreAllKept P keeps →
        AreTaken P (set_of (log ++ more)) → ¬ IsBrokenJointly (set_of log) → NoneBehind keeps log more →
        ¬ IsBrokenJointly (set_of (log ++ more)) }
    ensures part { (S : Records) (log : List Record) (origin : ℕ) → ¬ IsBroken (set_of log) origin →
        HasFrom S origin log → ¬ IsBroken S origin }
{}

/// A log that goes on with all origins kept from an honest one is honest. So is a set of records of several hosts that each keep
/// some origins, where it has no joint announcement and each origin's records are from its keeper's log. A log is honest in which
/// all origins may be kept.
pub fn kept_honest()
    ensures log { (P : Program) (keeps : ℕ → Bool) (first log : List Record) → AreAllKept P keeps →
        AreTaken P (set_of log) → IsHonest (set_of first) → GoesOn keeps first log → IsHonest (set_of log) }
    ensures keepers { (P : Program) (U : Records) (keeps : ℕ → ℕ → Bool) (first log : ℕ → List Record) → AreTaken P U →
        ((end : Moment) (events withdrawn : ℕ) → ¬ IsIn U (Record.Joint end events withdrawn)) →
        ((origin : ℕ) → origin < P.origins → IsTrue (keeps origin origin)) →
        ((origin : ℕ) → origin < P.origins → ¬ IsBroken (set_of (first origin)) origin) →
        ((origin : ℕ) → origin < P.origins → GoesOn (keeps origin) (first origin) (log origin)) →
        ((origin : ℕ) → origin < P.origins → HasFrom U origin (log origin)) → IsHonest U }
    ensures start { (P : Program) (S : Records) → AreTaken P S →
        ((origin : ℕ) → origin < P.origins → MayBeKept S origin) → IsHonest S }
{}

/// With all origins kept, what any part of a log releases begins what each larger part of it releases, then or later, and of any
/// two parts one released list begins the other: whatever clients sent.
pub fn kept_released()
    ensures stays { (P : Program) (keeps : ℕ → Bool) (first log : List Record) (S T : Records) (a b : Answers) →
        AreAllKept P keeps → IsHonest (set_of first) → GoesOn keeps first log → AreTaken P (set_of log) →
        IsWithin S T → IsWithin T (set_of log) → AreAnswers P S a → AreAnswers P T b → StartsWith b.released a.released }
    ensures agree { (P : Program) (keeps : ℕ → Bool) (first log : List Record) (S T : Records) (a b : Answers) →
        AreAllKept P keeps → IsHonest (set_of first) → GoesOn keeps first log → AreTaken P (set_of log) →
        IsWithin S (set_of log) → IsWithin T (set_of log) → AreAnswers P S a → AreAnswers P T b →
        StartsWith b.released a.released ⊎ StartsWith a.released b.released }
    ensures anew { (P : Program) (keeps : ℕ → Bool) (log : List Record) (S T : Records) (a b : Answers) →
        AreAllKept P keeps → NoneBehind keeps [] log → AreTaken P (set_of log) → IsWithin S T → IsWithin T (set_of log) →
        AreAnswers P S a → AreAnswers P T b → StartsWith b.released a.released }
{}

/// A tag is closed where it is before the greatest tag of the announcements that speak of the origin: one comparison tells it.
pub fn closed_by_greatest()
    ensures { (S : Records) (origin : ℕ) (end tag : Moment) → ClosesAt S origin end →
        IsClosed S origin tag ↔ IsTrue (is_before tag end) }
{}

/// No name of a kept origin has two payloads, so an announcement with the log's counts may always come, up to any tag, and is
/// reached at once.
pub fn kept_may_close()
    ensures single { (keeps : ℕ → Bool) (first log : List Record) (origin : ℕ) (tag : Moment) → IsTrue (keeps origin) →
        GoesOn keeps first log → ¬ HasTwoPayloads (set_of first) origin tag → ¬ HasTwoPayloads (set_of log) origin tag }
    ensures own { (keeps : ℕ → Bool) (first log : List Record) (origin : ℕ) (end : Moment) (events withdrawn : ℕ) →
        IsTrue (keeps origin) → GoesOn keeps first log → ¬ IsDoubled (set_of first) origin →
        AreCountsBefore (set_of log) origin end events withdrawn → SaysJust (set_of log) origin end events withdrawn }
    ensures jointly { (P : Program) (keeps : ℕ → Bool) (first log : List Record) (end : Moment) (events withdrawn : ℕ) →
        AreAllKept P keeps → AreTaken P (set_of log) → GoesOn keeps first log →
        ((origin : ℕ) → origin < P.origins → ¬ IsDoubled (set_of first) origin) →
        AreJointCountsBefore (set_of log) end events withdrawn → SaysJustJointly (set_of log) end events withdrawn }
{}

/// What came in two pieces came in one, and the other way round: a journal's front, and what a host takes behind it.
pub fn behind_in_pieces()
    ensures { (keeps : ℕ → Bool) (log more rest : List Record) →
        NoneBehind keeps log (more ++ rest) ↔ (NoneBehind keeps log more × NoneBehind keeps (log ++ more) rest) }
{}

/// A stamped event may come, its name is new, and there is at most one stamp.
pub fn stamped()
    ensures may { (room : ℕ) (S : Records) (origin : ℕ) (asked tag : Moment) (input : ℕ) (value : ℤ) →
        IsStamp room S origin asked tag →
        MayCome S (Record.Event origin tag input value) × (¬ IsIn S (Record.Event origin tag input value)) }
    ensures one { (room : ℕ) (S : Records) (origin : ℕ) (asked tag other : Moment) → IsStamp room S origin asked tag →
        IsStamp room S origin asked other → tag ≡ other }
{}

/// A record is judged to be one thing. A new one that speaks of a kept origin is left to the log exactly if it may come and is no
/// announcement.
pub fn one_judgement()
    ensures one { (keeps : ℕ → Bool) (P : Program) (log : List Record) (said : Record) (a b : Judgement) →
        Judges keeps P log said a → Judges keeps P log said b → a ≡ b }
    ensures open { (keeps : ℕ → Bool) (P : Program) (log : List Record) (said : Record) → IsNew P log said →
        SpeaksOfKept keeps said → Judges keeps P log said Judgement.Open → MayCome (set_of log) said }
    ensures late { (keeps : ℕ → Bool) (P : Program) (log : List Record) (said : Record) →
        Judges keeps P log said Judgement.Late → ¬ MayCome (set_of log) said }
    ensures differs { (keeps : ℕ → Bool) (P : Program) (log : List Record) (said : Record) →
        Judges keeps P log said Judgement.Differs → ¬ MayCome (set_of log) said }
{}

/// A log that goes on goes on with a client's record that is left to it, with what the host says to close tags, and with a stamped
/// input. What the host said is reached at once, and a stamped input is never one that is known.
pub fn lines_keep()
    ensures takes { (keeps : ℕ → Bool) (first : List Record) (P : Program) (log : List Record) (said : Record)
        (result : Result Took Refusal) (after : List Record) → GoesOn keeps first log →
        Judges keeps P log said Judgement.Open → Takes P log said result after → GoesOn keeps first after }
    ensures closes { (keeps : ℕ → Bool) (first : List Record) (P : Program) (log : List Record) (origin : ℕ) (end : Moment)
        (said : Record) (result : Result Took Refusal) (after : List Record) → GoesOn keeps first log →
        IsClosing (set_of log) origin end said → Takes P log said result after → GoesOn keeps first after }
    ensures closes_jointly { (keeps : ℕ → Bool) (first : List Record) (P : Program) (log : List Record) (end : Moment)
        (said : Record) (result : Result Took Refusal) (after : List Record) → GoesOn keeps first log →
        IsJointClosing (set_of log) end said → Takes P log said result after → GoesOn keeps first after }
    ensures sends { (keeps : ℕ → Bool) (first : List Record) (P : Program) (log : List Record) (room origin input : ℕ)
        (value : ℤ) (asked tag : Moment) (result : Result Took Refusal) (after : List Record) → GoesOn keeps first log →
        IsStamp room (set_of log) origin asked tag → Takes P log (Record.Event origin tag input value) result after →
        GoesOn keeps first after }
    ensures reached { (P : Program) (log : List Record) (origin : ℕ) (end : Moment) (said : Record) (took : Took)
        (after : List Record) → IsClosing (set_of log) origin end said → Takes P log said (Ok took) after →
        HasReached (set_of after) origin end }
    ensures reached_jointly { (P : Program) (log : List Record) (origin : ℕ) (end : Moment) (said : Record) (took : Took)
        (after : List Record) → IsJointClosing (set_of log) end said → Takes P log said (Ok took) after →
        HasReached (set_of after) origin end }
    ensures new { (P : Program) (log : List Record) (room origin input : ℕ) (value : ℤ) (asked tag : Moment) (place : ℕ)
        (after : List Record) → IsStamp room (set_of log) origin asked tag →
        ¬ Takes P log (Record.Event origin tag input value) (Ok (Took.Known place)) after }
{}
