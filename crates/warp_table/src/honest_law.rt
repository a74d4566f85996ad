//! Laws of announcements.
ghost use Rattle.std.specs.Prelude.{◌≡◌, ◌↔◌, ℕ, ℤ, Bool, false, None, List, IsTrue};
ghost use Rattle.warp_tag.specs.Moment.{Moment, is_before};
ghost use Rattle.warp_tag.specs.Table.{Event};
ghost use Rattle.warp_step.specs.Program.{Program};
ghost use Rattle.warp_step.specs.Run.{events_until};
ghost use Rattle.warp_record.specs.declared.record.Record.{Record};
ghost use Rattle.warp_table.specs.Announced.{IsBroken, IsHonest, IsHorizon, IsWithin, ReachesTo};
ghost use Rattle.warp_table.specs.Check.{refusal_of};
ghost use Rattle.warp_table.specs.Horizons.{IsHorizonAlone, ReachesJointly, later};
ghost use Rattle.warp_table.specs.Joint.{HasReachedJointly, IsBrokenJointly};
ghost use Rattle.warp_table.specs.Names.{HasEvent, HasWithdrawal, IsLive};
ghost use Rattle.warp_table.specs.Records.{IsIn, Records, set_of};

/// Every set within an honest one is honest.
pub fn honest_within()
    ensures { (S U : Records) → IsHonest U → IsWithin S U → IsHonest S }
{}

/// A set has at most one horizon.
pub fn one_horizon()
    ensures { (P : Program) (S : Records) (a b : Moment) → IsHorizon P S a → IsHorizon P S b → a ≡ b }
{}

/// A larger set has no earlier horizon.
pub fn later_horizon()
    ensures { (P : Program) (S T : Records) (a b : Moment) → IsWithin S T → IsHorizon P S a → IsHorizon P T b →
        is_before b a ≡ false }
{}

/// Below its horizon a set within an honest one, of records that the program takes, has the live events of that one.
pub fn same_below()
    ensures { (P : Program) (S U : Records) (end : Moment) (D E : List Event) →
        IsHonest U → ((said : Record) → IsIn U said → refusal_of P said ≡ None) → IsWithin S U → IsHorizon P S end →
        IsLive S D → IsLive U E → events_until end D ≡ events_until end E }
{}

/// The horizon is the later one of what the origins' own announcements give and of the greatest tag of a joint one that is
/// reached.
pub fn horizon_of_both()
    ensures { (P : Program) (S : Records) (own joint : Moment) → IsHorizonAlone P S own → ReachesJointly S joint →
        IsHorizon P S (later own joint) }
{}

/// Without a joint announcement the horizon is what the origins' own announcements give.
pub fn horizon_without_joint()
    ensures { (P : Program) (S : Records) (end : Moment) →
        ((until : Moment) (events withdrawn : ℕ) → ¬ IsIn S (Record.Joint until events withdrawn)) →
        IsHorizon P S end ↔ IsHorizonAlone P S end }
{}

/// Where a joint announcement is reached in a set within an honest one, the set has each event and each withdrawal of all
/// names before its tag that the honest one has.
pub fn joint_tells()
    ensures events { (S U : Records) (end : Moment) → IsHonest U → IsWithin S U → HasReachedJointly S end →
        (origin : ℕ) (tag : Moment) (payload : ℕ × ℤ) → IsTrue (is_before tag end) → HasEvent U origin tag payload →
        HasEvent S origin tag payload }
    ensures withdrawals { (S U : Records) (end : Moment) → IsHonest U → IsWithin S U → HasReachedJointly S end →
        (origin : ℕ) (tag : Moment) → IsTrue (is_before tag end) → HasWithdrawal U origin tag →
        HasWithdrawal S origin tag }
{}

/// In every set of a list joint announcements reach to some tag, and one of them is broken or none is.
pub fn some_joint_reach()
    ensures reach { (records : List Record) → (end : Moment) × ReachesJointly (set_of records) end }
    ensures breach { (records : List Record) → (broken : Bool) × (IsTrue broken ↔ IsBrokenJointly (set_of records)) }
{}

/// In every set of a list the announcements that speak of an origin reach to some tag, and each origin either broke one of
/// its own or did not.
pub fn some_reach()
    ensures reach { (records : List Record) (origin : ℕ) → (end : Moment) × ReachesTo (set_of records) origin end }
    ensures breach { (records : List Record) (origin : ℕ) → (broken : Bool) ×
        (IsTrue broken ↔ IsBroken (set_of records) origin) }
{}
