//! Convergence: what two replicas of one program answer and release, however each came to its records.
//!
//! The two calls take any two settled replicas, over any two timelines: what they did before (which records they took
//! in which order and how often, what they merged, when they settled, collected or started anew) is nowhere in their
//! contracts.
ghost use Rattle.std.specs.Prelude.{◌≡◌, ◌⊎◌, IsTrue};
ghost use Rattle.warp_tag.specs.Lists.{StartsWith};
ghost use Rattle.warp_table.specs.Announced.{IsHonest, IsWithin};
ghost use Rattle.warp_table.specs.Records.{Records, set_of};
ghost use Rattle.warp_replica.specs.Answers.{IsReleased};
ghost use Rattle.warp_replica.specs.Gives.{AsksPlace, GivesQuery};
ghost use Rattle.warp_replica.specs.Release.{AreTaken};

use warp_line::Timeline;
use warp_record::{Query, Reply};
use warp_replica::Replica;
use warp_step::Out;

/// The replies of two settled replicas of one program whose logs have the same records, in whatever order: they are
/// the same, but where the query asks for a place of the log. Each is the reply by the one run of the program over
/// the live events of these records.
pub fn replies<T: Timeline, U: Timeline>(
    one: &Replica<T>,
    other: &Replica<U>,
    query: Query,
) -> (Reply, Reply)
    requires settled { IsTrue (T.settled one.now.timeline) × IsTrue (U.settled other.now.timeline) }
    requires program { one.now.program ≡ other.now.program }
    requires records { set_of one.now.records ≡ set_of other.now.records }
    ensures one { GivesQuery one.now.program one.now.records query result.0 }
    ensures other { GivesQuery other.now.program other.now.records query result.1 }
    ensures alike { ¬ AsksPlace query → result.0 ≡ result.1 }
{
    (one.answer(query), other.answer(query))
}

/// What two settled replicas of one program release. Where their logs have the same records, that is the same. Where
/// the records of both are among some records that the program takes and in which no origin broke an announcement,
/// the one list begins the other, and that of the smaller set begins that of the larger one.
pub fn releases<'a, T: Timeline, U: Timeline>(
    one: &'a Replica<T>,
    other: &'a Replica<U>,
) -> (&'a [Out], &'a [Out])
    requires settled { IsTrue (T.settled one.now.timeline) × IsTrue (U.settled other.now.timeline) }
    requires program { one.now.program ≡ other.now.program }
    ensures one { IsReleased one.now.program (set_of one.now.records) result.0.now }
    ensures other { IsReleased other.now.program (set_of other.now.records) result.1.now }
    ensures alike { set_of one.now.records ≡ set_of other.now.records → result.0.now ≡ result.1.now }
    ensures agree { (all : Records) → IsHonest all → AreTaken one.now.program all →
        IsWithin (set_of one.now.records) all → IsWithin (set_of other.now.records) all →
        StartsWith result.1.now result.0.now ⊎ StartsWith result.0.now result.1.now }
    ensures later { (all : Records) → IsHonest all → AreTaken one.now.program all →
        IsWithin (set_of one.now.records) (set_of other.now.records) → IsWithin (set_of other.now.records) all →
        StartsWith result.1.now result.0.now }
{
    (one.released(), other.released())
}
