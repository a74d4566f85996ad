//! The way of a record through what a table keeps: to its name, to the places of the records that no name keeps, and to
//! its origin.
//!
//! Each function notes one kind of record, or gives it to the one that does, and says whether it is new and at which
//! place. An event behind all of its origin's has a way of its own (`note_last`), which makes all its tests first and
//! then only writes; all others go by `note`. Where memory is wanting, nothing has changed.
ghost use Rattle.std.specs.Prelude.{◌≡◌, ◌↔◌, ◌⊎◌, ℕ, ℤ, ◌+◌, ◌<◌, ◌≤◌, [], ◌∷◌, ◌++◌, None, Some, false};
ghost use Rattle.std.specs.Prelude.{All, length, nat_lt, vec_len, Contains, IsTrue, IfOk, OnOk, ◌^◌};
ghost use Rattle.std.specs.Prelude.{IfNone, IfSome, OnErr};
ghost use Rattle.std.specs.Map.{lookup};
ghost use Rattle.warp_tag.specs.Limits.{most_origins, most_records, widest};
ghost use Rattle.warp_record.specs.declared.record.Record.{Record};
ghost use Rattle.warp_table.specs.Log.{IsAt};
ghost use Rattle.warp_record.specs.Order.{kind_of};
ghost use Rattle.warp_table.specs.Names.{origin_of, origin_or_first};
ghost use Rattle.warp_table.specs.Records.{same_record, set_of};
ghost use Rattle.warp_table.specs.inner.Heard.{Announced, AreHeard, IsHeard, heard_at, with_tag};
ghost use Rattle.warp_table.specs.inner.Kept.{HoldsEvent, IsAdded, Keeps, NotesEvent};
ghost use Rattle.warp_table.specs.inner.Kept.{event_place, is_named, known_of, other_place};
ghost use Rattle.warp_table.specs.inner.Kept.{put_known, put_other, with_event_at};
ghost use Rattle.warp_table.specs.inner.Kept.{with_withdrawal_at, withdrawal_place};
ghost use Rattle.warp_table.specs.inner.Joint.{KeepsJoint, joint_with};
ghost use Rattle.warp_table.specs.inner.Others.{places};
ghost use Rattle.warp_table.specs.inner.Tally.{AreInOrder, IsJudged, before_of};
ghost use Rattle.warp_table.specs.declared.tally.EventOrWithdrawal.{EventOrWithdrawal};

use crate::announcer::Announcer;
use crate::joint::{JointAnnouncer, least_doubled, tally_of};
use crate::names::{Name, Names};
use crate::others::Others;
use crate::rows::Known;
use crate::table::{Added, Parted, part, stands};
use crate::tally::EventOrWithdrawal;
use warp_record::Record;
use warp_tag::{OutOfMemory, Tag};

/// What came of an event: where it stands and whether it is new, and the place of the event that its name keeps.
#[derive(Clone, Copy)]
struct Noted {
    added: Added,
    event: u32,
}

/// Whether two records are one.
fn is_same(one: &Record, other: &Record) -> bool
    ensures { result ≡ same_record one.now other.now }
{
    *one == *other
}

/// The place of the new event of these two among the others, where it is there; or else notes the place of the one that
/// its name does not keep. An `Err` changes nothing.
fn note_parted(
    others: &mut Others,
    new: &Record,
    parted: &Parted,
) -> Result<Option<u32>, OutOfMemory>
    requires { (kind_of new.now ≡ 0) × (kind_of parted.now.other ≡ 0) }
    ensures known { IfOk result (λ found. IfSome found (λ at. (places others.new ≡ places others.old) ×
        (other_place (places others.old) new.now ≡ Some at))) }
    ensures new { IfOk result (λ found. IfNone found ((other_place (places others.old) new.now ≡ None) ×
        (places others.new ≡ put_other (places others.old) parted.now.other parted.now.at))) }
    ensures err { OnErr result (places others.new ≡ places others.old) }
{
    if is_same(&parted.other, new) {
        return others.enter_event(parted.other, parted.at);
    }
    if let Some(place) = others.place(new) {
        return Ok(Some(place));
    }
    others.put_event(parted.other, parted.at)?;
    Ok(None)
}

/// Notes an event of a name that has one, at the place `kept`: known where it stands there or among the others, and
/// else a second payload, which is told to its origin. An `Err` changes nothing.
fn note_further_event(
    records: &[Record],
    others: &mut Others,
    announcer: &mut Announcer,
    kept: u32,
    name: &Name,
    payload: (u32, i64),
) -> Result<Noted, OutOfMemory>
    requires room { length records.now < most_records widest }
    requires kept { (before : ℕ × ℤ) ×
        IsAt records.now kept (Record.Event name.now.origin name.now.tag before.0 before.1) }
    ensures new { IfOk result (λ noted. IsTrue noted.added.is_new → (noted.added.place ≡ length records.now + 1) ×
        NotesEvent records.now name.now payload kept noted.event (places others.old) (places others.new)
        announcer.old announcer.new) }
    ensures known { IfOk result
        (λ noted. noted.added.is_new ≡ false → (places others.new ≡ places others.old) ×
        (announcer.new ≡ announcer.old) ×
        (event_place records.now kept (places others.old)
        (Record.Event name.now.origin name.now.tag payload.0 payload.1) ≡ Some noted.added.place)) }
    ensures err { OnErr result ((places others.new ≡ places others.old) × (announcer.new ≡ announcer.old)) }
{
    let record = Record::Event {
        origin: name.origin,
        tag: name.tag,
        input: payload.0,
        value: payload.1,
    };
    if stands(records, kept, &record) {
        return Ok(noted_known(kept, kept));
    }
    let parted = part(records, kept, &record, payload);
    let found = note_parted(others, &record, &parted)?;
    if let Some(place) = found {
        return Ok(noted_known(place, kept));
    }
    announcer.note_two_payloads(name.tag);
    let added = Added {
        place: records.len() as u32 + 1,
        is_new: true,
    };
    Ok(Noted {
        added,
        event: parted.event,
    })
}

/// What comes of an event that was known before.
fn noted_known(place: u32, event: u32) -> Noted
    ensures { (result.added.is_new ≡ false) × (result.added.place ≡ place) × (result.event ≡ event) }
{
    let added = Added {
        place,
        is_new: false,
    };
    Noted { added, event }
}

/// What comes of the first event of a name, which goes behind these records.
fn noted_first(records: &[Record]) -> Noted
    requires { length records.now < most_records widest }
    ensures { (result.added.place ≡ length records.now + 1) × (result.event ≡ length records.now + 1) ×
        IsTrue result.added.is_new }
{
    let place = records.len() as u32 + 1;
    let added = Added {
        place,
        is_new: true,
    };
    Noted {
        added,
        event: place,
    }
}

/// Notes the first event of a name that was withdrawn before, and tells it to its origin. An `Err` changes nothing.
#[inline(always)]
fn note_first_event(
    records: &[Record],
    announcer: &mut Announcer,
    tag: Tag,
) -> Result<Noted, OutOfMemory>
    requires room { length records.now < most_records widest }
    requires fresh { ¬ Contains announcer.old.events tag }
    ensures ok { IfOk result
        (λ noted. (noted.added.place ≡ length records.now + 1) × (noted.event ≡ length records.now + 1) ×
        IsTrue noted.added.is_new) }
    ensures heard { OnOk result (announcer.new ≡ record announcer.old { events = with_tag tag announcer.old.events }) }
    ensures err { OnErr result (announcer.new ≡ announcer.old) }
{
    announcer.note_event(tag)?;
    Ok(noted_first(records))
}

/// Has a name of which this is known keep the event at this place.
#[tactic(auto, using(crate::proofs::EventPlaces::kept_same))]
fn keep_event(names: &mut Names, name: Name, known: Known, event: u32)
    requires { lookup (is_named name.origin name.tag) names.old ≡ Some known }
    ensures { names.new ≡ put_known names.old name (with_event_at event known) }
{
    if known.event != event {
        names.set(name, known.with_event(event));
    }
}

/// Adds an event: known where its name keeps it or the others have it, and else noted and told to its origin. An
/// `Err` changes nothing.
fn add_event(
    records: &[Record],
    names: &mut Names,
    others: &mut Others,
    announcer: &mut Announcer,
    name: &Name,
    payload: (u32, i64),
) -> Result<Noted, OutOfMemory>
    requires room { length records.now < most_records widest }
    requires kept { HoldsEvent records.now name.now (known_of name.now names.old).event }
    requires fresh { (known_of name.now names.old).event ≡ 0 → ¬ Contains announcer.old.events name.now.tag }
    ensures new { IfOk result (λ noted. IsTrue noted.added.is_new → (noted.added.place ≡ length records.now + 1) ×
        (names.new ≡ put_known names.old name.now (with_event_at noted.event (known_of name.now names.old))) ×
        NotesEvent records.now name.now payload (known_of name.now names.old).event noted.event
        (places others.old) (places others.new) announcer.old announcer.new) }
    ensures known { IfOk result (λ noted. noted.added.is_new ≡ false → (names.new ≡ names.old) ×
        (places others.new ≡ places others.old) × (announcer.new ≡ announcer.old) ×
        (event_place records.now (known_of name.now names.old).event (places others.old)
        (Record.Event name.now.origin name.now.tag payload.0 payload.1) ≡ Some noted.added.place)) }
    ensures err { OnErr result
        ((names.new ≡ names.old) × (places others.new ≡ places others.old) × (announcer.new ≡ announcer.old)) }
{
    match names.seek(*name) {
        Some(known) => {
            let noted = note_event(records, others, announcer, known.event, name, payload)?;
            if noted.added.is_new {
                keep_event(names, *name, known, noted.event);
            }
            Ok(noted)
        }
        None => {
            let noted = noted_first(records);
            let known = Known::nothing().with_event(noted.event);
            names.insert(*name, known, EventOrWithdrawal::Event, announcer)?;
            Ok(noted)
        }
    }
}

/// Notes an event of a name that keeps the event at the place `kept`, 0 where it has none. An `Err` changes nothing.
#[inline(never)]
fn note_event(
    records: &[Record],
    others: &mut Others,
    announcer: &mut Announcer,
    kept: u32,
    name: &Name,
    payload: (u32, i64),
) -> Result<Noted, OutOfMemory>
    requires room { length records.now < most_records widest }
    requires kept { HoldsEvent records.now name.now kept }
    requires fresh { kept ≡ 0 → ¬ Contains announcer.old.events name.now.tag }
    ensures new { IfOk result (λ noted. IsTrue noted.added.is_new → (noted.added.place ≡ length records.now + 1) ×
        NotesEvent records.now name.now payload kept noted.event (places others.old) (places others.new)
        announcer.old announcer.new) }
    ensures known { IfOk result
        (λ noted. noted.added.is_new ≡ false → (places others.new ≡ places others.old) ×
        (announcer.new ≡ announcer.old) ×
        (event_place records.now kept (places others.old)
        (Record.Event name.now.origin name.now.tag payload.0 payload.1) ≡ Some noted.added.place)) }
    ensures err { OnErr result ((places others.new ≡ places others.old) × (announcer.new ≡ announcer.old)) }
{
    if kept == 0 {
        return note_first_event(records, announcer, name.tag);
    }
    note_further_event(records, others, announcer, kept, name, payload)
}

/// Adds a withdrawal, which goes to `next`: known where its name keeps one, and else noted and told to its origin. An
/// `Err` changes nothing.
fn add_withdrawal(
    names: &mut Names,
    announcer: &mut Announcer,
    name: &Name,
    next: u32,
) -> Result<Added, OutOfMemory>
    requires { (known_of name.now names.old).withdrawal ≡ 0 → ¬ Contains announcer.old.withdrawn name.now.tag }
    ensures new { IfOk result
        (λ added. IsTrue added.is_new → (added.place ≡ next) × ((known_of name.now names.old).withdrawal ≡ 0) ×
        (names.new ≡ put_known names.old name.now (with_withdrawal_at next (known_of name.now names.old))) ×
        (announcer.new ≡ record announcer.old { withdrawn = with_tag name.now.tag announcer.old.withdrawn })) }
    ensures known { IfOk result
        (λ added. added.is_new ≡ false → (names.new ≡ names.old) × (announcer.new ≡ announcer.old) ×
        (withdrawal_place (known_of name.now names.old).withdrawal ≡ Some added.place)) }
    ensures err { OnErr result ((names.new ≡ names.old) × (announcer.new ≡ announcer.old)) }
{
    match names.seek(*name) {
        Some(known) => {
            if known.withdrawal != 0 {
                return Ok(Added {
                    place: known.withdrawal,
                    is_new: false,
                });
            }
            announcer.note_withdrawal(name.tag)?;
            names.set(*name, known.with_withdrawal(next));
        }
        None => {
            let known = Known::nothing().with_withdrawal(next);
            names.insert(*name, known, EventOrWithdrawal::Withdrawal, announcer)?;
        }
    }
    Ok(Added {
        place: next,
        is_new: true,
    })
}

/// Adds an announcement, which goes to `next`: known where the others have it, and else noted and told to its origin.
/// An `Err` changes nothing.
fn add_announcement(
    others: &mut Others,
    announcer: &mut Announcer,
    said: &Record,
    tag: Tag,
    events: u32,
    withdrawn: u32,
    next: u32,
) -> Result<Added, OutOfMemory>
    requires { kind_of said.now ≡ 2 }
    ensures new { IfOk result (λ added. IsTrue added.is_new → (added.place ≡ next) ×
        (other_place (places others.old) said.now ≡ None) ×
        (places others.new ≡ put_other (places others.old) said.now next) ×
        (announcer.new ≡ record announcer.old { announced = announcer.new.announced }) ×
        ((a : Announced) → Contains announcer.new.announced a ↔
        Contains announcer.old.announced a ⊎ (a ≡ record { tag = tag; events = events; withdrawn = withdrawn }))) }
    ensures known { IfOk result
        (λ added. added.is_new ≡ false → (places others.new ≡ places others.old) × (announcer.new ≡ announcer.old) ×
        (other_place (places others.old) said.now ≡ Some added.place)) }
    ensures err { OnErr result ((places others.new ≡ places others.old) × (announcer.new ≡ announcer.old)) }
{
    match others.enter_announcement(announcer, said, tag, events, withdrawn, next)? {
        Some(place) => Ok(Added {
            place,
            is_new: false,
        }),
        None => Ok(Added {
            place: next,
            is_new: true,
        }),
    }
}

/// Keeps an announcer for each origin up to this one. What is heard stays, also on an `Err`.
fn keep_up_to(announcers: &mut Vec<Announcer>, origin: u32) -> Result<(), OutOfMemory>
    requires origin { origin < most_origins widest }
    requires few { length announcers.old.items ≤ most_origins widest }
    ensures few { length announcers.new.items ≤ most_origins widest }
    ensures same { (other : ℕ) → heard_at announcers.new.items other ≡ heard_at announcers.old.items other }
    ensures ok { OnOk result (origin < vec_len announcers.new) }
{
    let alloc = *announcers.allocator();
    while announcers.len() <= origin as usize {
        announcers.push(Announcer::new(alloc))?;
    }
    Ok(())
}

/// Adds a record, behind those that there are where it is new, to what is kept of names and places, and tells it to
/// its origin. An `Err` changes nothing.
fn note_own(
    records: &[Record],
    names: &mut Names,
    others: &mut Others,
    announcer: &mut Announcer,
    record: &Record,
) -> Result<Added, OutOfMemory>
    requires room { length records.now < most_records widest }
    requires keeps { Keeps records.now names.old (places others.old) }
    requires own { kind_of «record».now < 3 }
    requires heard { IsHeard (set_of records.now) (origin_or_first «record».now) announcer.old }
    ensures new { IfOk result
        (λ added. IsTrue added.is_new → IsAdded records.now «record».now added.place names.new (places others.new) ×
        IsHeard (set_of (records.now ++ «record».now ∷ [])) (origin_or_first «record».now) announcer.new) }
    ensures known { IfOk result (λ added. added.is_new ≡ false → IsAt records.now added.place «record».now ×
        (names.new ≡ names.old) × (places others.new ≡ places others.old) × (announcer.new ≡ announcer.old)) }
    ensures err { OnErr result
        ((names.new ≡ names.old) × (places others.new ≡ places others.old) × (announcer.new ≡ announcer.old)) }
{
    let next = records.len() as u32 + 1;
    match *record {
        Record::Event {
            origin,
            tag,
            input,
            value,
        } => {
            let name = Name { origin, tag };
            let noted = add_event(records, names, others, announcer, &name, (input, value))?;
            Ok(noted.added)
        }
        Record::Withdraw { origin, tag } => {
            add_withdrawal(names, announcer, &Name { origin, tag }, next)
        }
        Record::Announce {
            tag,
            events,
            withdrawn,
            ..
        } => {
            let (events, withdrawn) = (events.get(), withdrawn.get());
            add_announcement(others, announcer, record, tag, events, withdrawn, next)
        }
        Record::Joint { .. } => unreachable!(),
    }
}

/// Counts a new record's name in the joint announcements beyond it, where it is the first record of the name of its kind, or
/// else notes that the name has two payloads.
fn count_jointly(joint: &mut JointAnnouncer, record: &Record, is_first: bool)
    requires in_order { AreInOrder joint.old.announced }
    requires events { All (λ t. before_of EventOrWithdrawal.Event t + 1 < 2 ^ 64) joint.old.announced }
    requires withdrawn { All (λ t. before_of EventOrWithdrawal.Withdrawal t + 1 < 2 ^ 64) joint.old.announced }
    requires judged { All (IsJudged joint.old.verdict) joint.old.announced }
    ensures { joint.new ≡ joint_with «record».now is_first joint.old }
{
    match *record {
        Record::Event { tag, .. } => {
            if is_first {
                joint.count_name(tag, EventOrWithdrawal::Event);
            } else {
                joint.note_two_payloads(tag);
            }
        }
        Record::Withdraw { tag, .. } => joint.count_name(tag, EventOrWithdrawal::Withdrawal),
        Record::Announce { .. } => {}
        Record::Joint { .. } => {}
    }
}

/// Adds a record of this origin, behind those that there are where it is new, to what is kept and heard. What is kept
/// stays on an `Err`, and what is heard.
fn note_of(
    records: &[Record],
    names: &mut Names,
    others: &mut Others,
    announcers: &mut Vec<Announcer>,
    record: &Record,
    origin: u32,
) -> Result<Added, OutOfMemory>
    requires of { origin ≡ origin_or_first «record».now }
    requires own { kind_of «record».now < 3 }
    requires origin { origin < most_origins widest }
    requires room { length records.now < most_records widest }
    requires keeps { Keeps records.now names.old (places others.old) }
    requires heard { AreHeard records.now announcers.old.items }
    ensures new { IfOk result
        (λ added. IsTrue added.is_new → IsAdded records.now «record».now added.place names.new (places others.new) ×
        AreHeard (records.now ++ «record».now ∷ []) announcers.new.items) }
    ensures known { IfOk result (λ added. added.is_new ≡ false → IsAt records.now added.place «record».now ×
        (names.new ≡ names.old) × (places others.new ≡ places others.old) ×
        AreHeard records.now announcers.new.items) }
    ensures err { OnErr result ((names.new ≡ names.old) × (places others.new ≡ places others.old) ×
        AreHeard records.now announcers.new.items) }
{
    keep_up_to(announcers, origin)?;
    let announcer = &mut announcers[origin as usize];
    note_own(records, names, others, announcer, record)
}

/// How many names of the origin that have an event are heard of.
fn events_of(announcers: &[Announcer], origin: u32) -> usize
    ensures { result ≡ length (heard_at announcers.now origin).events }
{
    match announcers.get(origin as usize) {
        Some(announcer) => announcer.event_count(),
        None => 0,
    }
}

/// Counts the name of a new record of an origin in the joint announcements, where there are some.
fn count_where_some(joint: &mut JointAnnouncer, record: &Record, is_first: bool)
    requires in_order { AreInOrder joint.old.announced }
    requires events { All (λ t. before_of EventOrWithdrawal.Event t + 1 < 2 ^ 64) joint.old.announced }
    requires withdrawn { All (λ t. before_of EventOrWithdrawal.Withdrawal t + 1 < 2 ^ 64) joint.old.announced }
    requires judged { All (IsJudged joint.old.verdict) joint.old.announced }
    ensures { joint.new ≡ joint_with «record».now is_first joint.old }
{
    if joint.is_empty() {
        return;
    }
    count_jointly(joint, record, is_first);
}

/// Whether the record came in.
fn is_new(added: &Added) -> bool
    ensures { result ≡ added.now.is_new }
{
    added.is_new
}

/// Whether the one number is less than the other.
fn is_less(one: usize, other: usize) -> bool
    ensures { result ≡ nat_lt one other }
{
    one < other
}

/// `note_of`, and counts the name of a new record in the joint announcements.
fn note_counted(
    records: &[Record],
    names: &mut Names,
    others: &mut Others,
    announcers: &mut Vec<Announcer>,
    joint: &mut JointAnnouncer,
    record: &Record,
    origin: u32,
) -> Result<Added, OutOfMemory>
    requires of { origin ≡ origin_or_first «record».now }
    requires own { kind_of «record».now < 3 }
    requires origin { origin < most_origins widest }
    requires room { length records.now < most_records widest }
    requires keeps { Keeps records.now names.old (places others.old) }
    requires heard { AreHeard records.now announcers.old.items }
    requires joint { KeepsJoint records.now announcers.old.items joint.old }
    ensures new { IfOk result
        (λ added. IsTrue added.is_new → IsAdded records.now «record».now added.place names.new (places others.new) ×
        AreHeard (records.now ++ «record».now ∷ []) announcers.new.items ×
        KeepsJoint (records.now ++ «record».now ∷ []) announcers.new.items joint.new) }
    ensures known { IfOk result (λ added. added.is_new ≡ false → IsAt records.now added.place «record».now ×
        (names.new ≡ names.old) × (places others.new ≡ places others.old) ×
        AreHeard records.now announcers.new.items × KeepsJoint records.now announcers.new.items joint.new) }
    ensures err { OnErr result ((names.new ≡ names.old) × (places others.new ≡ places others.old) ×
        AreHeard records.now announcers.new.items × KeepsJoint records.now announcers.new.items joint.new) }
{
    let before = events_of(announcers, origin);
    let added = note_of(records, names, others, announcers, record, origin)?;
    if !is_new(&added) {
        return Ok(added);
    }
    let after = events_of(announcers, origin);
    count_where_some(joint, record, is_less(before, after));
    Ok(added)
}

/// What comes of a record that stands at this place, and else goes to the next one.
fn added_at(found: Option<u32>, next: u32) -> Added
    ensures known { IfSome found (λ at. (result.place ≡ at) × (result.is_new ≡ false)) }
    ensures new { IfNone found ((result.place ≡ next) × IsTrue result.is_new) }
{
    match found {
        Some(place) => Added {
            place,
            is_new: false,
        },
        None => Added {
            place: next,
            is_new: true,
        },
    }
}

/// Adds a joint announcement, behind the records that there are where it is new, to the places of the others, and to what
/// is kept of joint ones. What is kept stays on an `Err`, and what is heard.
fn note_joint(
    records: &[Record],
    others: &mut Others,
    announcers: &mut Vec<Announcer>,
    joint: &mut JointAnnouncer,
    record: &Record,
) -> Result<Added, OutOfMemory>
    requires of { kind_of «record».now ≡ 3 }
    requires room { length records.now < most_records widest }
    requires heard { AreHeard records.now announcers.old.items }
    requires joint { KeepsJoint records.now announcers.old.items joint.old }
    ensures same { announcers.new.items ≡ announcers.old.items }
    ensures new { IfOk result
        (λ added. IsTrue added.is_new → (other_place (places others.old) «record».now ≡ None) ×
        (added.place ≡ length records.now + 1) ×
        (places others.new ≡ put_other (places others.old) «record».now (length records.now + 1)) ×
        KeepsJoint (records.now ++ «record».now ∷ []) announcers.old.items joint.new) }
    ensures known { IfOk result (λ added. added.is_new ≡ false →
        (other_place (places others.old) «record».now ≡ Some added.place) ×
        (places others.new ≡ places others.old) × (joint.new ≡ joint.old)) }
    ensures err { OnErr result ((places others.new ≡ places others.old) × (joint.new ≡ joint.old)) }
{
    let Record::Joint {
        tag,
        events,
        withdrawn,
    } = *record
    else {
        unreachable!()
    };
    let (events, withdrawn) = (events.get(), withdrawn.get());
    let next = records.len() as u32 + 1;
    let tally = tally_of(announcers, tag, events, withdrawn)?;
    let doubled = least_doubled(announcers);
    let found = others.enter_joint(joint, record, tally, doubled, next)?;
    Ok(added_at(found, next))
}

/// Adds a record, behind those that there are where it is new, to what is kept and heard. What is kept stays on an
/// `Err`, and what is heard.
pub(crate) fn note(
    records: &[Record],
    names: &mut Names,
    others: &mut Others,
    announcers: &mut Vec<Announcer>,
    joint: &mut JointAnnouncer,
    record: &Record,
) -> Result<Added, OutOfMemory>
    requires origin { IfSome (origin_of «record».now) (λ origin. origin < most_origins widest) }
    requires room { length records.now < most_records widest }
    requires keeps { Keeps records.now names.old (places others.old) }
    requires heard { AreHeard records.now announcers.old.items }
    requires joint { KeepsJoint records.now announcers.old.items joint.old }
    ensures new { IfOk result
        (λ added. IsTrue added.is_new → IsAdded records.now «record».now added.place names.new (places others.new) ×
        AreHeard (records.now ++ «record».now ∷ []) announcers.new.items ×
        KeepsJoint (records.now ++ «record».now ∷ []) announcers.new.items joint.new) }
    ensures known { IfOk result (λ added. added.is_new ≡ false → IsAt records.now added.place «record».now ×
        (names.new ≡ names.old) × (places others.new ≡ places others.old) ×
        AreHeard records.now announcers.new.items × KeepsJoint records.now announcers.new.items joint.new) }
    ensures err { OnErr result ((names.new ≡ names.old) × (places others.new ≡ places others.old) ×
        AreHeard records.now announcers.new.items × KeepsJoint records.now announcers.new.items joint.new) }
{
    match record.origin() {
        Some(origin) => { note_counted(records, names, others, announcers, joint, record, origin) }
        None => note_joint(records, others, announcers, joint, record),
    }
}

/// Adds an event of a name that comes behind all of its origin's and that no announcement is beyond, where there is
/// room for it at once, and tells it to its origin: whether it did. What is heard stays where it did not.
#[inline(always)]
fn note_last(
    records: &[Record],
    names: &mut Names,
    others: &Others,
    announcers: &mut Vec<Announcer>,
    record: &Record,
) -> bool
    requires room { length records.now < most_records widest }
    requires keeps { Keeps records.now names.old (places others.now) }
    requires heard { AreHeard records.now announcers.old.items }
    ensures came { IsTrue result →
        IsAdded records.now «record».now (length records.now + 1) names.new (places others.now) ×
        AreHeard (records.now ++ «record».now ∷ []) announcers.new.items }
    ensures event { IsTrue result → kind_of «record».now ≡ 0 }
    ensures other { result ≡ false → (names.new ≡ names.old) × AreHeard records.now announcers.new.items }
{
    let Record::Event { origin, tag, .. } = *record else {
        return false;
    };
    if announcers.len() <= origin as usize {
        return false;
    }
    let noted = noted_first(records);
    let known = Known::nothing().with_event(noted.event);
    let announcer = &mut announcers[origin as usize];
    names.insert_last(Name { origin, tag }, known, announcer)
}

/// `note_last` where there is no joint announcement; with one nothing is done.
#[inline(always)]
pub(crate) fn note_last_alone(
    records: &[Record],
    names: &mut Names,
    others: &Others,
    announcers: &mut Vec<Announcer>,
    joint: &JointAnnouncer,
    record: &Record,
) -> bool
    requires room { length records.now < most_records widest }
    requires keeps { Keeps records.now names.old (places others.now) }
    requires heard { AreHeard records.now announcers.old.items }
    requires joint { KeepsJoint records.now announcers.old.items joint.now }
    ensures came { IsTrue result →
        IsAdded records.now «record».now (length records.now + 1) names.new (places others.now) ×
        AreHeard (records.now ++ «record».now ∷ []) announcers.new.items ×
        KeepsJoint (records.now ++ «record».now ∷ []) announcers.new.items joint.now }
    ensures other { result ≡ false → (names.new ≡ names.old) × AreHeard records.now announcers.new.items ×
        KeepsJoint records.now announcers.new.items joint.now }
{
    if !joint.is_empty() {
        return false;
    }
    note_last(records, names, others, announcers, record)
}
