//! The order of records: by tag, then by origin, then by what else they say. A joint announcement stands
//! where one of origin 0 would, and its kind tells the two apart. Maps keep records in it.
ghost use Rattle.std.specs.Prelude.{◌≡◌};
ghost use Rattle.std.proofs.Common.{refl};
ghost use Rattle.std.specs.Ordering.{as_partial_cmp};
ghost use Rattle.warp_record.specs.Order.{cmp_at_tag, first_of, kind_of, origin_or_first, record_cmp, second_of};
ghost use Rattle.warp_record.specs.Order.{record_partial, record_total, same_by_cmp};

use crate::record::Record;
use std::cmp::Ordering;

/// The kind of a record, and the two numbers behind its tag.
fn numbers(record: &Record) -> (u32, u32, i64)
    ensures kind { result.0 ≡ kind_of «record».now }
    ensures first { result.1 ≡ first_of «record».now }
    ensures second { result.2 ≡ second_of «record».now }
{
    match *record {
        Record::Event { input, value, .. } => (0, input, value),
        Record::Withdraw { .. } => (1, 0, 0),
        Record::Announce {
            events,
            withdrawn,
            ..
        } => (2, events.get(), i64::from(withdrawn.get())),
        Record::Joint {
            events,
            withdrawn,
            ..
        } => (3, events.get(), i64::from(withdrawn.get())),
    }
}

/// Whose it is, where it is one origin's, and else 0.
fn origin_or_first(record: &Record) -> u32
    ensures { result ≡ origin_or_first «record».now }
{
    record.origin().unwrap_or(0)
}

/// The order of two records of one tag.
fn cmp_at_tag(one: &Record, other: &Record) -> Ordering
    ensures { result ≡ cmp_at_tag one.now other.now }
{
    let (kind, first, second) = numbers(one);
    let (other_kind, other_first, other_second) = numbers(other);
    let numbers = first.cmp(&other_first).then(second.cmp(&other_second));
    let origins = origin_or_first(one).cmp(&origin_or_first(other));
    origins.then(kind.cmp(&other_kind).then(numbers))
}

impl Ord for Record {
    ghost cmp = { record_cmp };

    ghost total = { record_total };

    ghost matches_partial_cmp = { λ x y. refl };

    ghost matches_eq = { same_by_cmp };

    fn cmp(&self, other: &Record) -> Ordering {
        if self.tag().is_before(other.tag()) {
            return Ordering::Less;
        }
        if other.tag().is_before(self.tag()) {
            return Ordering::Greater;
        }
        cmp_at_tag(self, other)
    }
}

impl PartialOrd for Record {
    ghost partial_cmp = { as_partial_cmp record_cmp };

    ghost laws = { record_partial };

    fn partial_cmp(&self, other: &Record) -> Option<Ordering> {
        Some(self.cmp(other))
    }
}
