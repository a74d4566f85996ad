//! Laws: what a query gives, but for one that asks for a place of the log, follows from the set of the records,
//! whatever the order and repeats of taking.
ghost use Rattle.std.specs.Prelude.{◌≡◌, ◌≢◌, ◌≤◌, ◌<◌, ◌⊎◌, ◌++◌, ◌∷◌, [], ℕ, List, length, Option, Some, None};
ghost use Rattle.std.specs.Prelude.{Result, Err};
ghost use Rattle.warp_tag.specs.Limits.{most_records};
ghost use Rattle.warp_tag.specs.declared.form.Form.{Form};
ghost use Rattle.warp_step.specs.Program.{Program, raised, raised_to};
ghost use Rattle.warp_record.specs.declared.line.Query.{Query};
ghost use Rattle.warp_record.specs.declared.record.Record.{Record};
ghost use Rattle.warp_record.specs.declared.reply.Refusal.{Refusal};
ghost use Rattle.warp_record.specs.declared.reply.Reply.{Reply};
ghost use Rattle.warp_exchange.specs.Pulls.{Pulls, Turned};
ghost use Rattle.warp_table.specs.Check.{refusal_of};
ghost use Rattle.warp_table.specs.Log.{EachOnce};
ghost use Rattle.warp_table.specs.Records.{Records, set_of, union};
ghost use Rattle.warp_replica.specs.Answers.{Answers, AreAnswers};
ghost use Rattle.warp_replica.specs.Desk.{LocalState, LocalGives};
ghost use Rattle.warp_replica.specs.Gives.{GivesQuery, AsksPlace, KeepsAsked, KeepsReplies, Takes};
ghost use Rattle.warp_replica.specs.Merge.{merged};
ghost use Rattle.warp_replica.specs.declared.taking.Took.{Took};

/// A program that has an origin, as each valid one, has exactly one answer over the set of a log.
pub fn one_answer()
    ensures some { (P : Program) (records : List Record) → 0 < P.origins → EachOnce records →
        (a : Answers) × AreAnswers P (set_of records) a }
    ensures one { (P : Program) (S : Records) (a b : Answers) → AreAnswers P S a → AreAnswers P S b → a ≡ b }
{}

/// On one log a query gives one reply.
pub fn one_reply()
    ensures { (P : Program) (records : List Record) (query : Query) (a b : Reply) →
        GivesQuery P records query a → GivesQuery P records query b → a ≡ b }
{}

/// Logs of one set give a query the same replies, but for a query that asks for a place. The set is all that a
/// program's answers see of a log: records taken in another order, or some of them again, have the same answers.
pub fn same_replies()
    ensures { (P : Program) (records other : List Record) (query : Query) (reply : Reply) →
        set_of records ≡ set_of other → ¬ AsksPlace query → GivesQuery P records query reply →
        GivesQuery P other query reply }
{}

/// What merging makes of two logs has the records of both, and none twice where none of them had.
pub fn merging_joins()
    ensures set { (records other : List Record) →
        set_of (merged records other) ≡ union (set_of records) (set_of other) }
    ensures once { (records other : List Record) → EachOnce records → EachOnce other → EachOnce (merged records other) }
{}

/// In what a program answers, joining two sets is commutative, associative and idempotent, and so is merging logs; a
/// log that was merged brings nothing more.
pub fn merging_laws()
    ensures commutes { (P : Program) (S T : Records) (a b : Answers) → AreAnswers P (union S T) a →
        AreAnswers P (union T S) b → a ≡ b }
    ensures associates { (P : Program) (S T U : Records) (a b : Answers) →
        AreAnswers P (union (union S T) U) a → AreAnswers P (union S (union T U)) b → a ≡ b }
    ensures idempotent { (P : Program) (S : Records) (a b : Answers) → AreAnswers P (union S S) a → AreAnswers P S b →
        a ≡ b }
    ensures logs_commute { (P : Program) (records other : List Record) (query : Query) (reply : Reply) →
        ¬ AsksPlace query →
        GivesQuery P (merged records other) query reply → GivesQuery P (merged other records) query reply }
    ensures logs_associate { (P : Program) (records other third : List Record) (query : Query) (reply : Reply) →
        ¬ AsksPlace query →
        GivesQuery P (merged (merged records other) third) query reply →
        GivesQuery P (merged records (merged other third)) query reply }
    ensures logs_again { (records other : List Record) → merged (merged records other) other ≡ merged records other }
{}

/// A record is taken in one way, but that memory may be wanting; and want of memory apart there is a way.
pub fn one_taking()
    ensures one { (P : Program) (records : List Record) (said : Record) (a b : Result Took Refusal)
        (left right : List Record) →
        EachOnce records → Takes P records said a left → Takes P records said b right →
        a ≢ Err Refusal.NoMemory → b ≢ Err Refusal.NoMemory → (a ≡ b) × (left ≡ right) }
    ensures some { (P : Program) (records : List Record) (said : Record) → length records ≤ most_records P.form →
        (a : Result Took Refusal) × (after : List Record) × Takes P records said a after × (a ≢ Err Refusal.NoMemory) }
{}

/// What a puller does with a replica as its desk: the replica's log grows by the record that was replied, or not at
/// all.
pub fn pulled_record()
    ensures { (s s' : LocalState) (place : ℕ) (said : Option Reply) (turned : Turned) →
        Pulls LocalGives s place said turned s' →
        (s'.program ≡ s.program) × ((s'.records ≡ s.records)
        ⊎ ((log : ℕ) × (new : Record) × (said ≡ Some (Reply.Log log new)) × (s'.records ≡ s.records ++ new ∷ []))) }
{}

/// A program raised to version 2 has no reason against a record that the program had none against. And where the old
/// program lost nothing over a log, the raised one gives the same reply to every query over it, and no other.
pub fn raised_replies()
    ensures allowed { (P : Program) (said : Record) → refusal_of P said ≡ None → refusal_of (raised P) said ≡ None }
    ensures same { (P : Program) (records : List Record) (log : ℕ) (query : Query) (reply : Reply) →
        GivesQuery P records Query.Lost (Reply.Lost log 0) → GivesQuery P records query reply →
        GivesQuery (raised P) records query reply }
    ensures only { (P : Program) (records : List Record) (log : ℕ) (query : Query) (reply other : Reply) →
        GivesQuery P records Query.Lost (Reply.Lost log 0) → GivesQuery P records query reply →
        GivesQuery (raised P) records query other → other ≡ reply }
{}

/// A program raised to a form has no reason against a record that the program had none against. And where the old
/// program lost nothing over a log, or its times have as many microsteps as the raised one's (as from version 2 to
/// version 3), the raised one gives the same reply to every query over it, and no other; but that one of version 4 tells
/// whether a joint announcement is broken, and older ones refuse it.
pub fn raised_to_replies()
    ensures allowed { (f : Form) (P : Program) (said : Record) → refusal_of P said ≡ None →
        refusal_of (raised_to f P) said ≡ None }
    ensures same { (f : Form) (P : Program) (records : List Record) (query : Query) (reply : Reply) →
        KeepsReplies f P records → KeepsAsked f P query → GivesQuery P records query reply →
        GivesQuery (raised_to f P) records query reply }
    ensures only { (f : Form) (P : Program) (records : List Record) (query : Query) (reply other : Reply) →
        KeepsReplies f P records → KeepsAsked f P query → GivesQuery P records query reply →
        GivesQuery (raised_to f P) records query other → other ≡ reply }
{}
