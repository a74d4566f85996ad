//! The records that were taken, in order, what is known of the names that they speak of, and what is heard of each
//! origin.
//!
//! Names are found by origin and tag, and a name keeps the places of its event that counts and of its withdrawal. So a
//! new record in order of tags costs a look at the last name of its origin; only announcements, and events of a name
//! with a lesser payload, are found in a map, which is ordered, so that no choice of keys makes it slow. What an origin
//! announced is kept by its `Announcer`, so that in order of tags no record costs a pass over all announcements or
//! names. A horizon costs a look at each origin of the program.
ghost use Rattle.std.specs.Prelude.{◌≡◌, ◌↔◌, ℕ, ℤ, ◌+◌, ◌<◌, ◌≤◌, List, [], ◌∷◌, ◌++◌, ◌||◌, nat_lt, None, Some, true, false};
ghost use Rattle.std.specs.Prelude.{length, slice_get, Contains, IsTrue, IfSome, IfNone, IfOk};
ghost use Rattle.std.specs.Prelude.{OnErr, MatchResult};
ghost use Rattle.std.specs.Option.{option_copied};
ghost use Rattle.warp_tag.specs.Limits.{most_origins, most_records, widest};
ghost use Rattle.warp_step.specs.Events.{is_declared};
ghost use Rattle.warp_record.specs.declared.record.Record.{Record};
ghost use Rattle.warp_record.specs.declared.reply.Refusal.{Refusal};
ghost use Rattle.warp_tag.specs.Moment.{is_before};
ghost use Rattle.warp_step.specs.Program.{top_of};
ghost use Rattle.warp_table.specs.Announced.{IsBroken, IsHorizon, ReachesTo};
ghost use Rattle.warp_table.specs.Check.{end_of, refusal_of};
ghost use Rattle.warp_table.specs.Horizons.{IsHorizonAlone, ReachesAlone, later};
ghost use Rattle.warp_table.specs.Joint.{IsBrokenJointly};
ghost use Rattle.warp_table.specs.Log.{IsAt};
ghost use Rattle.warp_table.specs.NameCounts.{AreCounts, AreSoMany, HasSomeEvent, IsLastName};
ghost use Rattle.warp_table.specs.Names.{HasWithdrawal, Tells, origin_of};
ghost use Rattle.warp_table.specs.Records.{set_of};
ghost use Rattle.warp_table.specs.LogNames.{names_of};
ghost use Rattle.warp_table.specs.inner.Heard.{AreHeard};
ghost use Rattle.warp_table.specs.inner.Joint.{KeepsJoint};
ghost use Rattle.warp_table.specs.inner.Kept.{Keeps, counts_less, entry_of};
ghost use Rattle.warp_table.specs.inner.Kept.{event_place, known_of, parted_of, payload_at};
ghost use Rattle.warp_table.specs.inner.Kept.{place_in};
ghost use Rattle.warp_table.specs.inner.Kept.{record_at, stands};
ghost use Rattle.warp_table.specs.inner.Others.{places};

use crate::announcer::Announcer;
use crate::joint::JointAnnouncer;
use crate::names::{Name, Names};
use crate::noting::{note, note_last_alone};
use crate::others::Others;
use crate::rows::Known;
use std::alloc::Global;
use std::marker::Model;
use warp_record::{Record, Refusal};
use warp_step::Program;
use warp_tag::{Entry, Form, OutOfMemory, Tag, is_lesser};

/// Where a record stands that was added: its place, from 1, and whether it came in there or was there before.
#[derive(Clone, Copy)]
pub struct Added {
    /// The place.
    pub place: u32,
    /// Whether it is new.
    pub is_new: bool,
}

/// How many names of an origin there are, and how far they go. A name is an origin and a tag.
#[derive(Clone, Copy)]
pub struct NameCounts {
    /// How many of them have an event, withdrawn or not.
    pub events: u64,
    /// How many of them have a withdrawal, with an event or without.
    pub withdrawn: u64,
    /// The greatest tag of them, the beginning where there are none.
    pub last: Tag,
}

/// Of two events of a name the one that the name does not keep, with its place, and the place of the one that it keeps.
#[derive(Clone, Copy)]
pub(crate) struct Parted {
    pub(crate) other: Record,
    pub(crate) at: u32,
    pub(crate) event: u32,
}

/// Records in the order of taking, each once, at most as many as a log of the widest form has. It is seen as their
/// list. Beside them it keeps what is known of each name, the places of the records that no name keeps, and for each
/// origin up to the greatest of a record an `Announcer`: which of its names came, what it announced, and how far that
/// is reached. Joint announcements have one of their own.
#[derive(Drop)]
pub struct Table {
    pub(crate) records: Vec<Record>,
    pub(crate) names: Names,
    /// Of announcements, and of the events of a name that has one with a greater payload.
    others: Others,
    pub(crate) announcers: Vec<Announcer>,
    pub(crate) joint: JointAnnouncer,
}

impl Model for Table {
    ghost use Rattle.std.specs.Prelude.{List, length, ◌≤◌};
    ghost use Rattle.warp_record.specs.declared.record.Record.{Record};
    ghost use Rattle.warp_tag.specs.Limits.{most_records, widest};
    ghost use Rattle.warp_table.specs.inner.Heard.{AreHeard};
    ghost use Rattle.warp_table.specs.inner.Joint.{KeepsJoint};
    ghost use Rattle.warp_table.specs.inner.Kept.{Keeps};
    ghost use Rattle.warp_table.specs.inner.Others.{places};

    ghost Value = { List Record };

    ghost view = { λ t. t.records.items };

    ghost invariant = { λ t. (length t.records.items ≤ most_records widest) × Keeps t.records.items t.names (places t.others)
        × AreHeard t.records.items t.announcers.items × KeepsJoint t.records.items t.announcers.items t.joint };
}

impl Table {
    ghost use Rattle.warp_table.specs.Log.{EachOnce, IsAt};

    /// Whether the program takes such a record, and else the first reason why not: no such origin, past its stop or the
    /// last microstep of its times, no such input, an input of another origin. An announcement's tag may be the first
    /// one behind the stop. Of a program whose form has no joint announcements one is of no origin of it.
    #[inline(always)]
    pub fn check(program: &Program, record: &Record) -> Result<(), Refusal>
        ensures { MatchResult result (λ _. refusal_of program.now «record».now ≡ None)
            (λ k. refusal_of program.now «record».now ≡ Some k) }
    {
        match *record {
            Record::Event {
                origin,
                tag,
                input,
                ..
            } => check_event(program, origin, tag, input),
            Record::Withdraw { origin, tag } => check_name(program, origin, tag),
            Record::Announce { origin, tag, .. } => check_end(program, origin, tag),
            Record::Joint { tag, .. } => check_joint(program, tag),
        }
    }

    /// A table of no records, which grows in `alloc`.
    pub fn new(alloc: Global) -> Table
        ensures { result ≡ [] }
    {
        Table {
            records: Vec::new(alloc),
            names: Names::new(alloc),
            others: Others::new(alloc),
            announcers: Vec::new(alloc),
            joint: JointAnnouncer::new(alloc),
        }
    }

    /// How many records there are, at most those of a log of the widest form.
    pub fn len(&self) -> u32
        ensures value { result ≡ length self.now }
        ensures bound { result ≤ most_records widest }
        ensures once { EachOnce self.now }
    {
        self.records.len() as u32
    }

    /// Whether a log of this form takes no further record: it has as many as the form allows, or more.
    pub fn is_full(&self, form: Form) -> bool
        ensures full { IsTrue result ↔ (most_records form ≤ length self.now) }
        ensures bound { length self.now ≤ most_records widest }
    {
        form.most_records() <= self.len()
    }

    /// The place of the record, from 1; `None` where it is not there.
    pub fn position(&self, record: &Record) -> Option<u32>
        ensures found { IfSome result (λ place. IsAt self.now place «record».now × (place ≤ most_records widest)) }
        ensures none { IfNone result (¬ Contains self.now «record».now) }
    {
        place_of(&self.records, &self.names, &self.others, record)
    }

    /// Adds a record where it is not there yet, notes what it says of its name and to its origin, and tells its place
    /// and whether it is new. A record that was there stays in its place. An `Err` changes nothing. The table has
    /// fewer than a log of the widest form can, and the origin, if the record is one origin's, is one of the widest form.
    #[inline(always)]
    pub fn add(&mut self, record: &Record) -> Result<Added, OutOfMemory>
        requires room { length self.old < most_records widest }
        requires origin { IfSome (origin_of «record».now) (λ origin. origin < most_origins widest) }
        ensures new { IfOk result (λ added. IsTrue added.is_new →
            (¬ Contains self.old «record».now) × (added.place ≡ length self.old + 1) ×
            (self.new ≡ self.old ++ «record».now ∷ [])) }
        ensures known { IfOk result
            (λ added. added.is_new ≡ false → IsAt self.old added.place «record».now × (self.new ≡ self.old)) }
        ensures err { OnErr result (self.new ≡ self.old) }
    {
        if self.records.len() < self.records.capacity() {
            let is_last = note_last_alone(
                &self.records,
                &mut self.names,
                &self.others,
                &mut self.announcers,
                &self.joint,
                record,
            );
            if is_last {
                self.records.push_reserved(*record);
                return Ok(Added {
                    place: self.records.len() as u32,
                    is_new: true,
                });
            }
        }
        self.add_anywhere(record)
    }

    /// `add`, wherever the record goes.
    #[inline(never)]
    fn add_anywhere(&mut self, record: &Record) -> Result<Added, OutOfMemory>
        requires room { length self.old < most_records widest }
        requires origin { IfSome (origin_of «record».now) (λ origin. origin < most_origins widest) }
        ensures new { IfOk result (λ added. IsTrue added.is_new →
            (¬ Contains self.old «record».now) × (added.place ≡ length self.old + 1) ×
            (self.new ≡ self.old ++ «record».now ∷ [])) }
        ensures known { IfOk result
            (λ added. added.is_new ≡ false → IsAt self.old added.place «record».now × (self.new ≡ self.old)) }
        ensures err { OnErr result (self.new ≡ self.old) }
    {
        self.records.reserve(1)?;
        let added = note(
            &self.records,
            &mut self.names,
            &mut self.others,
            &mut self.announcers,
            &mut self.joint,
            record,
        )?;
        if added.is_new {
            self.records.push_reserved(*record);
        }
        Ok(added)
    }

    /// The record at this place, from 1; `None` where there is no such place.
    pub fn entry(&self, place: u32) -> Option<Record>
        ensures found { IfSome result (λ said. IsAt self.now place said) }
        ensures none { IfNone result ((said : Record) → ¬ IsAt self.now place said) }
    {
        record_at(&self.records, place).copied()
    }

    /// What is known of a name, by the number of its first coming, from 0; `None` where there are not so many names.
    pub fn name_at(&self, number: u32) -> Option<Entry>
        ensures name { IfSome result (λ e. slice_get (names_of self.now) number ≡ Some (e.origin, e.tag)) }
        ensures told { IfSome result (λ e. Tells (set_of self.now) e.origin e.tag (Some e)) }
        ensures none { IfNone result (length (names_of self.now) ≤ number) }
    {
        let (name, known) = self.names.get_index(number)?;
        Some(entry_of(&self.records, &name, &known))
    }

    /// Up to which tag announcements are reached: the later one of the least, over the program's origins, of the greatest
    /// tag of a reached announcement of its own, the beginning for an origin where none is, and of the greatest tag of a
    /// joint one that is reached. Outputs before it are released.
    pub fn horizon(&self, program: &Program) -> Tag
        ensures { IsHorizon program.now (set_of self.now) result }
    {
        later(self.horizon_alone(program), self.joint.reached())
    }

    /// The least tag up to which one of the program's origins has its own announcements reached.
    fn horizon_alone(&self, program: &Program) -> Tag
        ensures { IsHorizonAlone program.now (set_of self.now) result }
    {
        // Each program is valid, and so has an origin.
        program.valid();
        let mut end = self.reached_alone(0);
        for origin in 1..program.origins() {
            let own = self.reached_alone(origin);
            if own.is_before(end) {
                end = own;
            }
        }
        end
    }

    /// Up to which tag the origin's own announcements are reached, the beginning where none is.
    fn reached_alone(&self, origin: u32) -> Tag
        ensures { ReachesAlone (set_of self.now) origin result }
    {
        match self.announcers.get(origin as usize) {
            Some(announcer) => announcer.reached(),
            None => Tag::default(),
        }
    }

    /// Up to which tag the announcements that speak of the origin are reached, its own and joint ones, the beginning
    /// where none is.
    pub fn reached(&self, origin: u32) -> Tag
        ensures { ReachesTo (set_of self.now) origin result }
    {
        later(self.reached_alone(origin), self.joint.reached())
    }

    /// Whether the origin broke an announcement of its own: more of its names before the announced tag have an event,
    /// or a withdrawal, than it said, or one of them has two payloads.
    pub fn broken(&self, origin: u32) -> bool
        ensures { IsTrue result ↔ IsBroken (set_of self.now) origin }
    {
        let Some(announcer) = self.announcers.get(origin as usize) else {
            return false;
        };
        announcer.is_broken()
    }

    /// Whether a joint announcement is broken: more names of all origins before its tag have an event, or a withdrawal,
    /// than it said, or one of them has two payloads.
    pub fn joint_broken(&self) -> bool
        ensures { IsTrue result ↔ IsBrokenJointly (set_of self.now) }
    {
        self.joint.is_broken()
    }

    /// How many names of the origin have an event, how many have a withdrawal, and the greatest tag of these names. It
    /// looks at no name but the last one.
    pub fn counts(&self, origin: u32) -> NameCounts
        ensures { AreCounts (set_of self.now) origin result }
    {
        NameCounts {
            events: self.event_count(origin),
            withdrawn: self.withdrawal_count(origin),
            last: self.last(origin),
        }
    }

    /// How many names of the origin have an event.
    fn event_count(&self, origin: u32) -> u64
        ensures { AreSoMany result (HasSomeEvent (set_of self.now) origin) }
    {
        match self.announcers.get(origin as usize) {
            Some(announcer) => announcer.event_count() as u64,
            None => 0,
        }
    }

    /// How many names of the origin have a withdrawal.
    fn withdrawal_count(&self, origin: u32) -> u64
        ensures { AreSoMany result (HasWithdrawal (set_of self.now) origin) }
    {
        match self.announcers.get(origin as usize) {
            Some(announcer) => announcer.withdrawal_count() as u64,
            None => 0,
        }
    }

    /// The greatest tag of the origin's names, the beginning where it has none.
    fn last(&self, origin: u32) -> Tag
        ensures { IsLastName (set_of self.now) origin result }
    {
        let Some(tag) = self.names.last(origin) else {
            return Tag::default();
        };
        tag
    }
}

/// The later one of two tags.
pub(crate) fn later(one: Tag, other: Tag) -> Tag
    ensures { result ≡ later one other }
{
    if one.is_before(other) { other } else { one }
}

/// The record at a place, from 1; `None` where there is no such place.
fn record_at(records: &[Record], place: u32) -> Option<&Record>
    ensures { option_copied result ≡ record_at records.now place }
{
    if place == 0 {
        return None;
    }
    records.get(place as usize - 1)
}

/// The payload of the event at a place, from 1; `None` where no event stands there.
fn payload_at(records: &[Record], place: u32) -> Option<(u32, i64)>
    ensures { result ≡ payload_at records.now place }
{
    match *record_at(records, place)? {
        Record::Event { input, value, .. } => Some((input, value)),
        Record::Withdraw { .. } => None,
        Record::Announce { .. } => None,
        Record::Joint { .. } => None,
    }
}

/// Whether the record stands at this place.
pub(crate) fn stands(records: &[Record], place: u32, record: &Record) -> bool
    ensures { result ≡ stands records.now place «record».now }
{
    match record_at(records, place) {
        Some(other) => *other == *record,
        None => false,
    }
}

/// What is known of the name.
pub(crate) fn entry_of(records: &[Record], name: &Name, known: &Known) -> Entry
    ensures { result ≡ entry_of records.now name.now known.now }
{
    Entry {
        origin: name.origin,
        tag: name.tag,
        event: payload_at(records, known.event),
        withdrawn: known.withdrawal != 0,
    }
}

/// What is known of a name among these; of one that is not there, nothing.
fn known_of(names: &Names, name: Name) -> Known
    ensures { result ≡ known_of name names.now }
{
    names.known(name).unwrap_or(Known::nothing())
}

/// The place of an event whose name keeps the event at the place `kept`.
fn event_place(records: &[Record], kept: u32, others: &Others, record: &Record) -> Option<u32>
    ensures { result ≡ event_place records.now kept (places others.now) «record».now }
{
    if stands(records, kept, record) {
        Some(kept)
    } else {
        others.place(record)
    }
}

/// The place of a record; `None` where it is not there.
#[inline(never)]
fn place_of(records: &[Record], names: &Names, others: &Others, record: &Record) -> Option<u32>
    ensures { result ≡ place_in records.now names.now (places others.now) «record».now }
{
    match *record {
        Record::Event { origin, tag, .. } => {
            let kept = known_of(names, Name { origin, tag }).event;
            event_place(records, kept, others, record)
        }
        Record::Withdraw { origin, tag } => {
            let kept = known_of(names, Name { origin, tag }).withdrawal;
            if kept == 0 { None } else { Some(kept) }
        }
        Record::Announce { .. } => others.place(record),
        Record::Joint { .. } => others.place(record),
    }
}

/// Whether a payload, if there is one, counts less than another: by input, then by value.
fn counts_less(one: Option<(u32, i64)>, other: (u32, i64)) -> bool
    ensures { result ≡ counts_less one other }
{
    match one {
        Some(payload) => is_lesser(payload, other),
        None => false,
    }
}

/// Of the event at the place `kept` and a new one of the same name with this payload the one that counts less, which
/// goes to the others.
pub(crate) fn part(records: &[Record], kept: u32, record: &Record, payload: (u32, i64)) -> Parted
    requires { length records.now < most_records widest }
    ensures { result ≡ parted_of records.now kept «record».now payload }
{
    let place = records.len() as u32 + 1;
    if counts_less(payload_at(records, kept), payload) {
        Parted {
            other: *record_at(records, kept).unwrap_or(record),
            at: kept,
            event: place,
        }
    } else {
        Parted {
            other: *record,
            at: place,
            event: kept,
        }
    }
}

/// Why the program takes no event of this origin, at this tag, for this input.
fn check_event(program: &Program, origin: u32, tag: Tag, input: u32) -> Result<(), Refusal>
    ensures { (value : ℤ) →
        MatchResult result (λ _. refusal_of program.now (Record.Event origin tag input value) ≡ None)
        (λ k. refusal_of program.now (Record.Event origin tag input value) ≡ Some k) }
{
    check_name(program, origin, tag)?;
    let inputs = program.inputs();
    if inputs.len() <= input as usize {
        return Err(Refusal::NoInput);
    }
    if inputs[input as usize].origin == origin {
        Ok(())
    } else {
        Err(Refusal::NotYours)
    }
}

/// Why the program takes no withdrawal of this origin, at this tag.
fn check_name(program: &Program, origin: u32, tag: Tag) -> Result<(), Refusal>
    ensures { MatchResult result (λ _. refusal_of program.now (Record.Withdraw origin tag) ≡ None)
        (λ k. refusal_of program.now (Record.Withdraw origin tag) ≡ Some k) }
{
    check_origin(program, origin)?;
    if program.stop() < tag.time() || program.top() < tag.micro() {
        return Err(Refusal::PastStop);
    }
    Ok(())
}

/// Why the program takes no announcement of this origin, up to this tag.
fn check_end(program: &Program, origin: u32, tag: Tag) -> Result<(), Refusal>
    ensures { (events withdrawn : ℕ) →
        MatchResult result (λ _. refusal_of program.now (Record.Announce origin tag events withdrawn) ≡ None)
        (λ k. refusal_of program.now (Record.Announce origin tag events withdrawn) ≡ Some k) }
{
    check_origin(program, origin)?;
    check_last(program, tag)
}

/// Why the program takes no joint announcement up to this tag.
fn check_joint(program: &Program, tag: Tag) -> Result<(), Refusal>
    ensures { (events withdrawn : ℕ) →
        MatchResult result (λ _. refusal_of program.now (Record.Joint tag events withdrawn) ≡ None)
        (λ k. refusal_of program.now (Record.Joint tag events withdrawn) ≡ Some k) }
{
    if !program.form().has_joint() {
        return Err(Refusal::NoOrigin);
    }
    check_last(program, tag)
}

/// Why the program takes no announcement up to this tag, whoever announces.
fn check_last(program: &Program, tag: Tag) -> Result<(), Refusal>
    ensures { MatchResult result
        (λ _. (is_before (end_of program.now) tag || nat_lt (top_of program.now) tag.microstep) ≡ false)
        (λ k. ((is_before (end_of program.now) tag || nat_lt (top_of program.now) tag.microstep) ≡ true)
        × (k ≡ Refusal.PastStop)) }
{
    // Each program is valid, and so its stop is in range.
    program.valid();
    let end = Tag::beginning_of(program.stop() + 1);
    if end.is_before(tag) || program.top() < tag.micro() {
        return Err(Refusal::PastStop);
    }
    Ok(())
}

/// Why the program takes nothing of this origin.
fn check_origin(program: &Program, origin: u32) -> Result<(), Refusal>
    ensures { MatchResult result (λ _. is_declared program.now origin ≡ true)
        (λ k. (is_declared program.now origin ≡ false) × (k ≡ Refusal.NoOrigin)) }
{
    if program.origins() <= origin {
        return Err(Refusal::NoOrigin);
    }
    Ok(())
}
