//! The list of the pending entries. The earliest are taken out at its front without moving the rest, and a new one
//! moves those on its shorter side, where there is room.
ghost use Rattle.std.specs.Prelude.{◌≡◌, ℕ, ◌+◌, ◌-◌, ◌<◌, ◌≤◌, ◌++◌, [], true, false, length, take, drop};
ghost use Rattle.std.specs.Prelude.{slice_index_or, slice_set, if◌then◌else◌, IsTrue, map};
ghost use Rattle.std.specs.List.{insert, list_all};
ghost use Rattle.arrayvec.specs.ArrayVec.{array_vec_len};
ghost use Rattle.warp_tag.specs.Limits.{most_pending};
ghost use Rattle.warp_body.specs.Presence.{places_of, target_fits};
ghost use Rattle.warp_step.specs.Step.{arrived_entries, sources_of};
ghost use Rattle.warp_step.specs.Valid.{program_places};
ghost use Rattle.warp_step.specs.inner.Again.{is_alike, later_entry};
ghost use Rattle.warp_step.specs.inner.Due.{AreDue};
ghost use Rattle.warp_step.specs.inner.Plan.{plan_of, shared_period};
ghost use Rattle.warp_step.specs.inner.TriggeredTurn.{IsTriggeredTurn};

use crate::arrive::put;
use crate::marks::Marks;
use crate::pending::{Waiting, is_alike};
use crate::plan::Plan;
use crate::program::Program;
use arrayvec::ArrayVec;
use std::fmt;
use std::marker::Model;
use warp_body::{Present, Target};
use warp_tag::Tag;

/// How many entries may be pending.
pub(crate) const MOST_PENDING: usize = 256;

/// How many the list has room for: with twice as many, they move to its front once in 256 insertions at most.
const ROOM: usize = 512;

/// The pending entries, in order: those from `start` on.
#[derive(Drop)]
pub(crate) struct Entries {
    items: ArrayVec<Waiting, ROOM>,
    start: usize,
}

impl Model for Entries {
    ghost use Rattle.std.specs.Prelude.{◌≤◌, ◌+◌, List, drop};
    ghost use Rattle.arrayvec.specs.ArrayVec.{array_vec_len};
    ghost use Rattle.warp_tag.specs.Limits.{most_pending};
    ghost use Rattle.warp_step.specs.declared.pending.Waiting.{Waiting as Entry};

    ghost Value = { List Entry };

    ghost view = { λ e. drop e.start e.items.items };

    ghost invariant = { λ e. (e.start ≤ array_vec_len e.items) × (array_vec_len e.items ≤ e.start + most_pending) };
}

impl Entries {
    /// None.
    pub(crate) fn new() -> Entries
        ensures { result ≡ [] }
    {
        Entries {
            items: ArrayVec::new(),
            start: 0,
        }
    }

    /// The entries, in order.
    #[inline(always)]
    pub(crate) fn as_slice(&self) -> &[Waiting]
        ensures value { result.now ≡ self.now }
        ensures few { length result.now ≤ most_pending }
    {
        let all = self.items.as_slice();
        &all[self.start..]
    }

    /// The last entry.
    #[inline(always)]
    pub(crate) fn last(&self) -> &Waiting
        requires { 0 < length self.now }
        ensures { result.now ≡ slice_index_or self.now (length self.now - 1) result.now }
    {
        let all = self.items.as_slice();
        &all[all.len() - 1]
    }

    /// How many there are.
    #[inline(always)]
    pub(crate) fn len(&self) -> usize
        ensures value { result ≡ length self.now }
        ensures few { result ≤ most_pending }
    {
        self.items.len() - self.start
    }

    /// The same entries.
    pub(crate) fn copy(&self) -> Entries
        ensures { result ≡ self.now }
    {
        let mut copy = Entries::new();
        copy.replace_all(self.as_slice());
        copy
    }

    /// Puts an entry in the place of the one there.
    #[inline(always)]
    pub(crate) fn set(&mut self, at: usize, entry: Waiting)
        requires { at < length self.old }
        ensures { self.new ≡ slice_set self.old at entry }
    {
        let start = self.start;
        let all = self.items.as_mut_slice();
        all[start + at] = entry;
    }

    /// Puts an entry behind all others, if the places behind them are not used up. Answers whether it is in.
    #[inline(always)]
    pub(crate) fn push(&mut self, entry: Waiting) -> bool
        requires room { length self.old < most_pending }
        ensures { self.new ≡ (if result then insert self.old (length self.old) entry else self.old) }
    {
        if self.items.is_full() {
            return false;
        }
        self.items.push(entry);
        true
    }

    /// Inserts an entry at its place. Those in front of it move where they are fewer and there is room, else those
    /// behind it. The entry comes in its parts, which need no place in memory.
    #[inline(never)]
    pub(crate) fn insert(&mut self, tag: Tag, target: Target, value: i64, at: usize)
        requires within { at ≤ length self.old }
        requires room { length self.old < most_pending }
        ensures { self.new ≡ insert self.old at (record { tag = tag; target = target; value = value }) }
    {
        let entry = Waiting { tag, target, value };
        if self.start > 0 && at < self.len() - at {
            insert_in_front(&mut self.items, self.start, at, entry);
            self.start -= 1;
            return;
        }
        if self.items.is_full() {
            move_to_front(&mut self.items, self.start);
            self.start = 0;
        }
        insert_behind(&mut self.items, self.start + at, entry);
    }

    /// Makes the targets of the first entries present, as long as they are at the tag and have this period, and puts
    /// these entries behind all others, at a later tag and without a value. Answers how many they are: none where there
    /// may be no room for them. Whom they concern is due, and the first reaction that the last one triggers is noted.
    #[inline(always)]
    pub(crate) fn take_alike(
        &mut self,
        program: &Program,
        plan: &Plan,
        due: &mut Marks,
        triggered_turn: &mut usize,
        tag: Tag,
        period: u64,
        later: Tag,
        present: &mut Present,
    ) -> usize
        requires fits { IsTrue (list_all (λ w. target_fits (program_places program.now) w.target) self.old) }
        requires places { places_of present.old ≡ program_places program.now }
        requires plan { plan.now ≡ plan_of program.now }
        requires some { 0 < period }
        requires shared { period ≡ shared_period program.now.timers }
        requires own { present.old.sources ≡ sources_of program.now }
        ensures bound { length self.old ≤ most_pending }
        ensures few { result ≤ length self.old }
        ensures entries { self.new ≡ drop result self.old ++ map (later_entry later) (take result self.old) }
        ensures alike { IsTrue (list_all (is_alike program.now tag period) (take result self.old)) }
        ensures present { present.new ≡ arrived_entries (take result self.old) present.old }
        ensures places { places_of present.new ≡ places_of present.old }
        ensures sources { present.new.sources ≡ present.old.sources }
        ensures due { AreDue program.now present.old due.old.word → AreDue program.now present.new due.new.word }
        ensures triggered_turn { IsTriggeredTurn program.now present.old triggered_turn.old →
            IsTriggeredTurn program.now present.new triggered_turn.new }
    {
        let start = self.start;
        let end = self.items.len();
        if end + (end - start) > ROOM {
            return 0;
        }
        let count = shift_alike(
            &mut self.items,
            start,
            program,
            plan,
            due,
            triggered_turn,
            tag,
            period,
            later,
            present,
        );
        self.start = start + count;
        count
    }

    /// Takes the first so many entries out. The others stay where they are.
    #[inline(always)]
    pub(crate) fn drop_front(&mut self, count: usize)
        requires { count ≤ length self.old }
        ensures { self.new ≡ drop count self.old }
    {
        // A look at how many there are shows that the sum fits.
        let _end = self.items.len();
        self.start += count;
    }

    /// Puts these entries, for which there is room, in the place of all.
    pub(crate) fn replace_all(&mut self, others: &[Waiting])
        requires { length others.now ≤ most_pending }
        ensures { self.new ≡ others.now }
    {
        self.items.clear();
        self.start = 0;
        let _ = self.items.try_extend_from_slice(others);
    }
}

impl fmt::Debug for Entries {
    fn fmt<W: fmt::Write>(&self, f: &mut fmt::Formatter<W>) -> fmt::Result {
        f.debug_list().entries(self.as_slice()).finish()
    }
}

/// Makes the targets of the entries from a place on present, as long as they are at the tag and have this period, and
/// puts these entries behind all others, at a later tag and without a value. Answers how many they are. Whom they
/// concern is due, and the first reaction that the last one triggers is noted.
#[inline(always)]
fn shift_alike(
    items: &mut ArrayVec<Waiting, ROOM>,
    start: usize,
    program: &Program,
    plan: &Plan,
    due: &mut Marks,
    triggered_turn: &mut usize,
    tag: Tag,
    period: u64,
    later: Tag,
    present: &mut Present,
) -> usize
    requires order { start ≤ array_vec_len items.old }
    requires room { array_vec_len items.old + (array_vec_len items.old - start) ≤ ROOM }
    requires fits { IsTrue (list_all (λ w. target_fits (program_places program.now) w.target)
        (drop start items.old.items)) }
    requires places { places_of present.old ≡ program_places program.now }
    requires plan { plan.now ≡ plan_of program.now }
    requires some { 0 < period }
    requires shared { period ≡ shared_period program.now.timers }
    requires own { present.old.sources ≡ sources_of program.now }
    ensures few { result ≤ array_vec_len items.old - start }
    ensures entries { drop start items.new.items ≡
        drop start items.old.items ++ map (later_entry later) (take result (drop start items.old.items)) }
    ensures alike { IsTrue (list_all (is_alike program.now tag period) (take result (drop start items.old.items))) }
    ensures present { present.new ≡ arrived_entries (take result (drop start items.old.items)) present.old }
    ensures places { places_of present.new ≡ places_of present.old }
    ensures sources { present.new.sources ≡ present.old.sources }
    ensures due { AreDue program.now present.old due.old.word → AreDue program.now present.new due.new.word }
    ensures triggered_turn { IsTriggeredTurn program.now present.old triggered_turn.old →
        IsTriggeredTurn program.now present.new triggered_turn.new }
    ensures len { array_vec_len items.new ≡ array_vec_len items.old + result }
{
    let end = items.len();
    let mut count = 0;
    while start + count < end {
        let entry = items[start + count];
        if !is_alike(program, &entry, tag, period) {
            return count;
        }
        items.push(Waiting {
            tag: later,
            target: entry.target,
            value: 0,
        });
        put(
            program,
            plan,
            due,
            triggered_turn,
            present,
            entry.target,
            entry.value,
        );
        count += 1;
    }
    count
}

/// Inserts an entry among those from a place on, of which the front moves down by one.
#[inline(always)]
fn insert_in_front(items: &mut [Waiting], start: usize, at: usize, entry: Waiting)
    requires room { 0 < start }
    requires within { start + at ≤ length items.old }
    ensures entries { drop (start - 1) items.new ≡ insert (drop start items.old) at entry }
    ensures len { length items.new ≡ length items.old }
{
    items.copy_within(start..start + at, start - 1);
    items[start - 1 + at] = entry;
}

/// Inserts an entry at a place of a list that is not full. Those from there on move up by one.
#[inline(always)]
fn insert_behind(items: &mut ArrayVec<Waiting, ROOM>, at: usize, entry: Waiting)
    requires within { at ≤ array_vec_len items.old }
    requires room { array_vec_len items.old < ROOM }
    ensures { items.new.items ≡ insert items.old.items at entry }
{
    items.push(Waiting::default());
    move_up(items, at, entry);
}

/// Moves all from a place on but the last up by one, over it, and writes an entry there.
#[inline(always)]
fn move_up(items: &mut [Waiting], at: usize, entry: Waiting)
    requires { at < length items.old }
    ensures { items.new ≡ insert (take (length items.old - 1) items.old) at entry }
{
    items.copy_within(at..items.len() - 1, at + 1);
    items[at] = entry;
}

/// Moves the entries from a place on to the front. Those before them go.
#[inline(never)]
fn move_to_front(items: &mut ArrayVec<Waiting, ROOM>, start: usize)
    requires { start ≤ array_vec_len items.old }
    ensures { items.new.items ≡ drop start items.old.items }
{
    let end = items.len();
    items.copy_within(start..end, 0);
    items.truncate(end - start);
}
