//! Laws: what any calls of a host come to, one after another, for the origins that it keeps.
ghost use Rattle.std.specs.Prelude.{◌≡◌, ℕ, IsTrue, List};
ghost use Rattle.warp_tag.specs.Lists.{StartsWith};
ghost use Rattle.warp_table.specs.Announced.{IsBroken, IsWithin};
ghost use Rattle.warp_table.specs.Records.{Records, set_of};
ghost use Rattle.warp_keep.specs.Keeping.{keeps};
ghost use Rattle.warp_keep.specs.Kept.{AreAllKept};
ghost use Rattle.warp_replica.specs.Answered.{facts_of};
ghost use Rattle.warp_replica.specs.Answers.{Answers, AreAnswers};
ghost use Rattle.warp_replica.specs.Replica.{AreAllowed};
ghost use Rattle.warp_room.specs.Room.{AreKept};
ghost use Rattle.warp_watch.specs.declared.client_id.ClientId.{ClientId};
ghost use Rattle.warp_clients.specs.Steps.{ClientsState, Step};
ghost use Rattle.warp_machine.specs.Moving.{HearsOf, IsFollowing, IsHearing, IsPassing, Lived, MayWriteOf, Moved, MovedWith};
ghost use Rattle.warp_machine.specs.Moving.{Stepped, TurnsAway};

use warp_clients::what_is_told;
use warp_line::Timeline;
use warp_room::kept_stays;

/// Whatever a call of a host comes to, by its clause, is a life of its clients; and lives, one after another, are one.
pub fn calls_are_lived<T: Timeline>()
    ensures moved { (s s' : ClientsState T) → Moved (facts_of T.settled T.refused T.floor T.SLACK) s s' →
        Lived (facts_of T.settled T.refused T.floor T.SLACK) s s' }
    ensures hearing { (s s' : ClientsState T) →
        MovedWith (facts_of T.settled T.refused T.floor T.SLACK) IsHearing s s' →
        Lived (facts_of T.settled T.refused T.floor T.SLACK) s s' }
    ensures passing { (s s' : ClientsState T) →
        MovedWith (facts_of T.settled T.refused T.floor T.SLACK) IsPassing s s' →
        Lived (facts_of T.settled T.refused T.floor T.SLACK) s s' }
    ensures following { (s s' : ClientsState T) →
        MovedWith (facts_of T.settled T.refused T.floor T.SLACK) IsFollowing s s' →
        Lived (facts_of T.settled T.refused T.floor T.SLACK) s s' }
    ensures stepped { (step : Step) (s s' : ClientsState T) →
        Stepped (facts_of T.settled T.refused T.floor T.SLACK) step s s' →
        Lived (facts_of T.settled T.refused T.floor T.SLACK) s s' }
    ensures heard { (who : ClientId) (bytes : List ℕ) (s s' : ClientsState T) →
        HearsOf (facts_of T.settled T.refused T.floor T.SLACK) who bytes s s' →
        Lived (facts_of T.settled T.refused T.floor T.SLACK) s s' }
    ensures written { (who : ClientId) (count : ℕ) (s s' : ClientsState T) →
        MayWriteOf (facts_of T.settled T.refused T.floor T.SLACK) who count s s' →
        Lived (facts_of T.settled T.refused T.floor T.SLACK) s s' }
    ensures turned_away { (s s' : ClientsState T) → TurnsAway (facts_of T.settled T.refused T.floor T.SLACK) s s' →
        Lived (facts_of T.settled T.refused T.floor T.SLACK) s s' }
    ensures joined { (s between s' : ClientsState T) → Lived (facts_of T.settled T.refused T.floor T.SLACK) s between →
        Lived (facts_of T.settled T.refused T.floor T.SLACK) between s' →
        Lived (facts_of T.settled T.refused T.floor T.SLACK) s s' }
{}

/// Whatever comes to a host, it keeps what it kept, of the same program; a kept origin that broke no announcement breaks
/// none; and where it keeps all, what any part of its log releases begins what each larger part of it releases, then or
/// later. Nothing is asked of its clients. Its log has no record against which the program has a reason, as no replica's has.
pub fn kept_at_host<T: Timeline>()
    ensures same { (s s' : ClientsState T) → Lived (facts_of T.settled T.refused T.floor T.SLACK) s s' →
        (s'.room.keeping ≡ s.room.keeping) × (s'.room.replica.program ≡ s.room.replica.program) }
    ensures unbroken { (s s' : ClientsState T) (origin : ℕ) →
        Lived (facts_of T.settled T.refused T.floor T.SLACK) s s' → IsTrue (keeps s.room.keeping origin) →
        ¬ IsBroken (set_of s.room.replica.records) origin → ¬ IsBroken (set_of s'.room.replica.records) origin }
    ensures released { (s s' : ClientsState T) (S U : Records) (a b : Answers) →
        Lived (facts_of T.settled T.refused T.floor T.SLACK) s s' →
        AreKept (keeps s.room.keeping) s.room.replica.program s.room.replica.records →
        AreAllKept s.room.replica.program (keeps s.room.keeping) →
        AreAllowed s'.room.replica.program s'.room.replica.records → IsWithin S U →
        IsWithin U (set_of s'.room.replica.records) → AreAnswers s.room.replica.program S a →
        AreAnswers s.room.replica.program U b → StartsWith b.released a.released }
{
    what_is_told::<T>();
    kept_stays::<T>();
}
