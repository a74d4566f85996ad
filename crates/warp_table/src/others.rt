//! Where the records stand that no name keeps: announcements, joint ones too, and events of a name that has one with a
//! greater payload.
//!
//! Announcements come nearly in the order of records, or newest first, so one that is behind all others, or before them,
//! goes to an end of a list, and costs a comparison. All else stands in a map in that order, so that no choice of
//! records makes it slow.
ghost use Rattle.std.specs.Prelude.{◌≡◌, ◌↔◌, ◌⊎◌, ◌<◌, ◌≤◌, All, AllPairs, Contains, None, Some, IfNone, IfOk, IfSome};
ghost use Rattle.std.specs.Prelude.{OnErr, OnOk, length, true};
ghost use Rattle.std.specs.BTreeMap.{insert_entry, is_at};
ghost use Rattle.std.specs.Map.{lookup};
ghost use Rattle.std.specs.declared.cmp.Ordering.TheVariants.{Less};
ghost use Rattle.warp_record.specs.Order.{kind_of, record_cmp};
ghost use Rattle.warp_table.specs.inner.Heard.{Announced};
ghost use Rattle.warp_table.specs.inner.Joint.{joint_noted};
ghost use Rattle.warp_table.specs.inner.Kept.{place_if};
ghost use Rattle.warp_table.specs.inner.Tally.{AreInOrder};

use crate::announcer::Announcer;
use crate::joint::JointAnnouncer;
use crate::tally::Tally;
use std::alloc::Global;
use std::collections::btree_map::Entry;
use std::collections::{BTreeMap, VecDeque};
use warp_record::Record;
use warp_tag::{OutOfMemory, Tag};

/// The place that is kept of the record, where this is it.
fn place_if(kept: &(Record, u32), record: &Record) -> Option<u32>
    ensures { result ≡ place_if «record».now kept.now }
{
    if kept.0.cmp(record).is_eq() {
        Some(kept.1)
    } else {
        None
    }
}

/// The place of the record among these, which stand in order, sought by halves; `None` where it is not there.
fn find(listed: &VecDeque<(Record, u32)>, record: &Record) -> Option<u32>
    requires { AllPairs (λ a b. record_cmp a.0 b.0 ≡ Less) listed.now.items }
    ensures { result ≡ lookup (is_at (record_cmp «record».now)) listed.now.items }
{
    let at = listed.partition_point(|kept| kept.0.cmp(record).is_lt());
    match listed.get(at) {
        Some(kept) => place_if(kept, record),
        None => None,
    }
}

/// Whether the record is behind all of these, which stand in order.
fn is_behind_list(listed: &VecDeque<(Record, u32)>, record: &Record) -> bool
    requires { AllPairs (λ a b. record_cmp a.0 b.0 ≡ Less) listed.now.items }
    ensures { result ≡ true → All (λ e. record_cmp e.0 «record».now ≡ Less) listed.now.items }
{
    match listed.back() {
        Some(last) => last.0.cmp(record).is_lt(),
        None => true,
    }
}

/// Whether the record is before all of these, which stand in order.
fn is_before_list(listed: &VecDeque<(Record, u32)>, record: &Record) -> bool
    requires { AllPairs (λ a b. record_cmp a.0 b.0 ≡ Less) listed.now.items }
    ensures { result ≡ true → All (λ e. record_cmp «record».now e.0 ≡ Less) listed.now.items }
{
    match listed.front() {
        Some(first) => record.cmp(&first.0).is_lt(),
        None => true,
    }
}

/// Whether the record is behind all that the map has, so that it is not there.
fn is_behind_map(map: &BTreeMap<Record, u32>, record: &Record) -> bool
    ensures { result ≡ true → lookup (is_at (record_cmp «record».now)) map.now.entries ≡ None }
{
    match map.last_key_value() {
        Some((last, _)) => last.cmp(record).is_lt(),
        None => true,
    }
}

/// Whether the record is before all that the map has, so that it is not there.
fn is_before_map(map: &BTreeMap<Record, u32>, record: &Record) -> bool
    ensures { result ≡ true → lookup (is_at (record_cmp «record».now)) map.now.entries ≡ None }
{
    match map.first_key_value() {
        Some((first, _)) => record.cmp(first).is_lt(),
        None => true,
    }
}

/// The place of the record in the map, where it is there; or else notes it at this one. An `Err` changes nothing.
fn enter(
    map: &mut BTreeMap<Record, u32>,
    record: Record,
    place: u32,
) -> Result<Option<u32>, OutOfMemory>
    ensures known { IfOk result (λ found. IfSome found (λ at. (map.new.entries ≡ map.old.entries) ×
        (lookup (is_at (record_cmp «record»)) map.old.entries ≡ Some at))) }
    ensures new { IfOk result (λ found. IfNone found
        ((lookup (is_at (record_cmp «record»)) map.old.entries ≡ None) ×
        (map.new.entries ≡ insert_entry record_cmp map.old.entries «record» place))) }
    ensures err { OnErr result (map.new.entries ≡ map.old.entries) }
{
    match map.entry(record)? {
        Entry::Occupied(kept) => Ok(Some(*kept.get())),
        Entry::Vacant(gap) => {
            gap.insert(place);
            Ok(None)
        }
    }
}

/// The place of an announcement in the map, where it is there; or else notes it at this one, and tells it to its origin.
/// An `Err` changes nothing.
fn enter_told(
    map: &mut BTreeMap<Record, u32>,
    announcer: &mut Announcer,
    said: &Record,
    tag: Tag,
    events: u32,
    withdrawn: u32,
    place: u32,
) -> Result<Option<u32>, OutOfMemory>
    ensures known { IfOk result (λ found. IfSome found (λ at. (map.new.entries ≡ map.old.entries) ×
        (announcer.new ≡ announcer.old) × (lookup (is_at (record_cmp said.now)) map.old.entries ≡ Some at))) }
    ensures new { IfOk result (λ found. IfNone found
        ((lookup (is_at (record_cmp said.now)) map.old.entries ≡ None) ×
        (map.new.entries ≡ insert_entry record_cmp map.old.entries said.now place) ×
        (announcer.new ≡ record announcer.old { announced = announcer.new.announced }) ×
        ((a : Announced) → Contains announcer.new.announced a ↔
        Contains announcer.old.announced a ⊎ (a ≡ record { tag = tag; events = events; withdrawn = withdrawn })))) }
    ensures err { OnErr result ((map.new.entries ≡ map.old.entries) × (announcer.new ≡ announcer.old)) }
{
    match map.entry(*said)? {
        Entry::Occupied(kept) => Ok(Some(*kept.get())),
        Entry::Vacant(gap) => {
            announcer.note_announcement(tag, events, withdrawn)?;
            gap.insert(place);
            Ok(None)
        }
    }
}

/// The place of a joint announcement in the map, where it is there; or else notes it at this one, and tells it to those
/// that are kept. An `Err` changes nothing.
fn enter_joint(
    map: &mut BTreeMap<Record, u32>,
    joint: &mut JointAnnouncer,
    said: &Record,
    tally: Tally,
    doubled: Option<Tag>,
    place: u32,
) -> Result<Option<u32>, OutOfMemory>
    requires { AreInOrder joint.old.announced }
    ensures known { IfOk result (λ found. IfSome found (λ at. (map.new.entries ≡ map.old.entries) ×
        (joint.new ≡ joint.old) × (lookup (is_at (record_cmp said.now)) map.old.entries ≡ Some at))) }
    ensures new { IfOk result (λ found. IfNone found
        ((lookup (is_at (record_cmp said.now)) map.old.entries ≡ None) ×
        (map.new.entries ≡ insert_entry record_cmp map.old.entries said.now place) ×
        (joint.new ≡ joint_noted tally doubled joint.old))) }
    ensures err { OnErr result ((map.new.entries ≡ map.old.entries) × (joint.new ≡ joint.old)) }
{
    match map.entry(*said)? {
        Entry::Occupied(kept) => Ok(Some(*kept.get())),
        Entry::Vacant(gap) => {
            joint.note(tally, doubled)?;
            gap.insert(place);
            Ok(None)
        }
    }
}

/// Records that no name keeps, each with its place. Contracts see where each record stands (`places`).
#[derive(Drop)]
pub(crate) struct Others {
    /// Announcements, of which each came behind all others, or before them. They stand in order.
    listed: VecDeque<(Record, u32)>,
    map: BTreeMap<Record, u32>,
    ghost in_order: { AllPairs (λ a b. record_cmp a.0 b.0 ≡ Less) listed.items },
    ghost announced: { All (λ e. kind_of e.0 ≡ 2) listed.items },
}

impl Others {
    ghost use Rattle.warp_table.specs.inner.Kept.{no_others, other_place, put_other};
    ghost use Rattle.warp_table.specs.inner.Others.{places};

    /// None yet. They grow in `alloc`.
    pub(crate) fn new(alloc: Global) -> Others
        ensures { places result ≡ no_others }
    {
        Others {
            listed: VecDeque::new(alloc),
            map: BTreeMap::new(alloc),
        }
    }

    /// The place of the record; `None` where it is not there.
    pub(crate) fn place(&self, record: &Record) -> Option<u32>
        ensures { result ≡ other_place (places self.now) «record».now }
    {
        match find(&self.listed, record) {
            Some(place) => Some(place),
            None => self.map.get(record).copied(),
        }
    }

    /// Notes the place of an event, also where it has one. An `Err` changes nothing.
    pub(crate) fn put_event(&mut self, record: Record, place: u32) -> Result<(), OutOfMemory>
        requires { kind_of «record» ≡ 0 }
        ensures ok { OnOk result (places self.new ≡ put_other (places self.old) «record» place) }
        ensures err { OnErr result (places self.new ≡ places self.old) }
    {
        self.map.insert(record, place)?;
        Ok(())
    }

    /// The place of an event, where it has one; or else notes it at this one. An `Err` changes nothing.
    pub(crate) fn enter_event(
        &mut self,
        record: Record,
        place: u32,
    ) -> Result<Option<u32>, OutOfMemory>
        requires { kind_of «record» ≡ 0 }
        ensures known { IfOk result (λ found. IfSome found (λ at. (places self.new ≡ places self.old) ×
            (other_place (places self.old) «record» ≡ Some at))) }
        ensures new { IfOk result (λ found. IfNone found ((other_place (places self.old) «record» ≡ None) ×
            (places self.new ≡ put_other (places self.old) «record» place))) }
        ensures err { OnErr result (places self.new ≡ places self.old) }
    {
        let found = enter(&mut self.map, record, place)?;
        Ok(found)
    }

    /// Whether a record is behind all others, so that it goes to the end of the list.
    fn is_last(&self, record: &Record) -> bool
        ensures list { result ≡ true → All (λ e. record_cmp e.0 «record».now ≡ Less) self.now.listed.items }
        ensures map { result ≡ true → lookup (is_at (record_cmp «record».now)) self.now.map.entries ≡ None }
    {
        is_behind_list(&self.listed, record) && is_behind_map(&self.map, record)
    }

    /// Whether a record is before all others, so that it goes to the front of the list.
    fn is_first(&self, record: &Record) -> bool
        ensures list { result ≡ true → All (λ e. record_cmp «record».now e.0 ≡ Less) self.now.listed.items }
        ensures map { result ≡ true → lookup (is_at (record_cmp «record».now)) self.now.map.entries ≡ None }
    {
        is_before_list(&self.listed, record) && is_before_map(&self.map, record)
    }

    /// The place of a joint announcement, where it has one; or else notes it at this one, and tells it to those that are
    /// kept. An `Err` changes nothing.
    #[inline(never)]
    pub(crate) fn enter_joint(
        &mut self,
        joint: &mut JointAnnouncer,
        said: &Record,
        tally: Tally,
        doubled: Option<Tag>,
        place: u32,
    ) -> Result<Option<u32>, OutOfMemory>
        requires kind { kind_of said.now ≡ 3 }
        requires in_order { AreInOrder joint.old.announced }
        ensures known { IfOk result (λ found. IfSome found (λ at. (places self.new ≡ places self.old) ×
            (joint.new ≡ joint.old) × (other_place (places self.old) said.now ≡ Some at))) }
        ensures new { IfOk result (λ found. IfNone found ((other_place (places self.old) said.now ≡ None) ×
            (places self.new ≡ put_other (places self.old) said.now place) ×
            (joint.new ≡ joint_noted tally doubled joint.old))) }
        ensures err { OnErr result ((places self.new ≡ places self.old) × (joint.new ≡ joint.old)) }
    {
        let found = enter_joint(&mut self.map, joint, said, tally, doubled, place)?;
        Ok(found)
    }

    /// The place of an announcement, where it has one; or else notes it at this one, and tells it to its origin. An
    /// `Err` changes nothing.
    #[inline(never)]
    pub(crate) fn enter_announcement(
        &mut self,
        announcer: &mut Announcer,
        said: &Record,
        tag: Tag,
        events: u32,
        withdrawn: u32,
        place: u32,
    ) -> Result<Option<u32>, OutOfMemory>
        requires { kind_of said.now ≡ 2 }
        ensures known { IfOk result (λ found. IfSome found (λ at. (places self.new ≡ places self.old) ×
            (announcer.new ≡ announcer.old) × (other_place (places self.old) said.now ≡ Some at))) }
        ensures new { IfOk result (λ found. IfNone found ((other_place (places self.old) said.now ≡ None) ×
            (places self.new ≡ put_other (places self.old) said.now place) ×
            (announcer.new ≡ record announcer.old { announced = announcer.new.announced }) ×
            ((a : Announced) → Contains announcer.new.announced a ↔
            Contains announcer.old.announced a ⊎ (a ≡ record { tag = tag; events = events; withdrawn = withdrawn })))) }
        ensures err { OnErr result ((places self.new ≡ places self.old) × (announcer.new ≡ announcer.old)) }
    {
        if self.is_last(said) {
            self.listed.reserve(1)?;
            announcer.note_announcement(tag, events, withdrawn)?;
            self.listed.push_back_reserved((*said, place));
            return Ok(None);
        }
        if self.is_first(said) {
            self.listed.reserve(1)?;
            announcer.note_announcement(tag, events, withdrawn)?;
            self.listed.push_front_reserved((*said, place));
            return Ok(None);
        }
        if let Some(at) = find(&self.listed, said) {
            return Ok(Some(at));
        }
        let map = &mut self.map;
        let found = enter_told(map, announcer, said, tag, events, withdrawn, place)?;
        Ok(found)
    }
}
