//! Stretches of tags at which no event counts, so that a walk need not pass the same withdrawn names each time.
//!
//! What is kept of one is a fact, that no event counts between two tags, and guesses of places at its ends, which are
//! tested where they are used. A name whose event counts cuts the stretches that have its tag.
ghost use Rattle.std.specs.Prelude.{◌≡◌, ◌<◌, ◌⊎◌, ◌&&◌, false, true, IfSome, IsSome, IsSomeAnd, None, Some};
ghost use Rattle.std.specs.Prelude.{length, map};
ghost use Rattle.warp_tag.specs.Moment.{Moment, is_before};
ghost use Rattle.warp_tag.specs.Table.{live_event};
ghost use Rattle.warp_step.specs.Run.{is_after};
ghost use Rattle.warp_arena.specs.Places.{Reaches, entry_of, left_at, places_from};
ghost use Rattle.warp_run.specs.Walk.{live_of};
ghost use Rattle.warp_run.specs.Skips.{AreFree, IsCut, IsStretch, covers, cut_at, spans, spanned};

use crate::walk::is_after;
use arrayvec::ArrayVec;
use warp_arena::{Arena, NodeId};
use warp_tag::Tag;

/// So many stretches are kept at most: two for each of the rows that a rollback executes again, and some more.
const MOST_KEPT: usize = 40;

/// So many places at the end of a stretch are passed by each walk. A shorter stretch is not kept.
const PASSED_EACH_TIME: u32 = 16;

/// So many names have one tag at most.
const MOST_AT_A_TAG: u32 = 64;

/// A stretch: no event counts at the tags between two others.
#[derive(Clone, Copy, Default)]
pub(crate) struct Skip {
    /// It begins behind this tag, or before all tags.
    after: Option<Tag>,
    /// It ends before this one.
    to: Tag,
    /// The tag at which the walk began that passed it,
    from: Tag,
    /// and the place.
    first: Option<NodeId>,
    /// A place near its end.
    last: Option<NodeId>,
}

impl Skip {
    /// Whether the stretch has this tag.
    fn spans(&self, tag: Tag) -> bool
        ensures { result ≡ spans self.now tag }
    {
        is_after(self.after, tag) && tag.is_before(self.to)
    }

    /// Keeps one side of the stretch, where it has this tag: what is behind the tag, if the walk began there, and else
    /// what is before it, near whose end this place is.
    fn cut(&mut self, tag: Tag, place: &Option<NodeId>)
        ensures { self.new ≡ cut_at tag place.now self.old }
    {
        if !self.spans(tag) {
            return;
        }
        if tag.is_before(self.from) {
            self.after = Some(tag);
        } else {
            self.to = tag;
            self.last = *place;
        }
    }

    /// The place near the stretch's end, where it and this tag are in the stretch, and it is after the tag.
    fn target(&self, arena: &Arena, tag: Tag) -> Option<NodeId>
        ensures { IfSome result
            (λ to. IsSomeAnd (entry_of to arena.now.places) (λ e. IsStretch (spans self.now) tag e.tag)) }
    {
        let last = self.last?;
        if !is_after(self.after, tag) || !arena.is_after(last, tag) {
            return None;
        }
        if arena.entry(last).tag.is_before(self.to) {
            return Some(last);
        }
        None
    }
}

/// The place so many before this one that a walk is to pass them each time, or the next one back that is before the
/// tag; none where there are fewer, or where the first one comes before.
fn place_back(arena: &Arena, node: NodeId, first: Option<NodeId>, tag: Tag) -> Option<NodeId>
    requires { IsSome (entry_of node arena.now.places) }
{
    let mut at = node;
    for passed in 0..PASSED_EACH_TIME + MOST_AT_A_TAG {
        at = arena.prev(at)?;
        if Some(at) == first {
            return None;
        }
        if passed >= PASSED_EACH_TIME && arena.entry(at).tag.is_before(tag) {
            return Some(at);
        }
    }
    None
}

/// Cuts each of these stretches that has the tag.
fn cut_each(skips: &mut [Skip], tag: Tag, place: &Option<NodeId>)
    ensures { skips.new ≡ map (cut_at tag place.now) skips.old }
{
    for skip in skips.iter_mut() {
        skip.cut(tag, place);
    }
}

/// The place near its end to which one of these stretches leads from this tag, if one does.
fn target_of(skips: &[Skip], arena: &Arena, tag: Tag) -> Option<NodeId>
    ensures { IfSome result
        (λ to. IsSomeAnd (entry_of to arena.now.places) (λ e. IsStretch (spanned skips.now) tag e.tag)) }
{
    for skip in skips {
        let target = skip.target(arena, tag);
        if target.is_some() {
            return target;
        }
    }
    None
}

/// The earliest place at which one of these stretches began and that is after the last row, if it is before this place;
/// else this one.
fn start_of(skips: &[Skip], arena: &Arena, node: NodeId, last: Tag) -> NodeId
    requires { IsSomeAnd (entry_of node arena.now.places) (λ e. is_after (Some last) e.tag ≡ true) }
    ensures { IsSomeAnd (entry_of result arena.now.places) (λ e. is_after (Some last) e.tag ≡ true) }
{
    let mut start = node;
    for skip in skips {
        if let Some(first) = skip.first
            && arena.is_after(first, last)
            && arena.entry(first).tag.is_before(arena.entry(start).tag)
        {
            start = first;
        }
    }
    start
}

/// Which of these stretches the new one stands for.
fn replaced(skips: &[Skip], new: &Skip) -> Option<usize>
    ensures { IfSome result (λ place. place < length skips.now) }
{
    for (place, skip) in skips.iter().enumerate() {
        if skip.first == new.first || (new.spans(skip.from) && !new.to.is_before(skip.to)) {
            return Some(place);
        }
    }
    None
}

/// Puts a stretch at this place, if there is one.
fn set_at(skips: &mut [Skip], place: usize, skip: Skip)
    ensures { (t : Moment) → spanned skips.new t ≡ true → (spanned skips.old t ≡ true) ⊎ (spans skip t ≡ true) }
{
    if place < skips.len() {
        skips[place] = skip;
    }
}

/// The stretches that are kept. Contracts see at which tags they are.
#[derive(Drop)]
pub(crate) struct Skips {
    kept: ArrayVec<Skip, MOST_KEPT>,
    /// Where all places are taken, the next one goes here.
    next: usize,
}

impl Skips {
    /// No stretch.
    pub fn new() -> Skips
        ensures { (t : Moment) → covers result t ≡ false }
    {
        Skips {
            kept: ArrayVec::new(),
            next: 0,
        }
    }

    /// Cuts the stretches that have the tag of this place.
    #[inline(always)]
    #[tactic(auto, using(crate::proofs::SkipsKept::none_cut))]
    pub fn cut(&mut self, arena: &Arena, node: NodeId, tag: Tag)
        requires { IsSome (entry_of node arena.now.places) }
        ensures { IsCut tag self.old self.new }
    {
        if !self.kept.is_empty() {
            self.cut_some(arena, node, tag);
        }
    }

    /// Cuts the stretches that have the tag of this place, where there are stretches.
    #[inline(never)]
    fn cut_some(&mut self, arena: &Arena, node: NodeId, tag: Tag)
        requires { IsSome (entry_of node arena.now.places) }
        ensures { IsCut tag self.old self.new }
    {
        let place = place_back(arena, node, None, tag);
        cut_each(self.kept.as_mut_slice(), tag, &place);
    }

    /// Keeps a stretch between these tags, where it is long: from this place, at which a walk began, up to another.
    #[inline(never)]
    pub fn note(&mut self, arena: &Arena, after: Option<Tag>, to: Tag, first: NodeId, node: NodeId)
        requires first { IsSome (entry_of first arena.now.places) }
        requires node { IsSome (entry_of node arena.now.places) }
        ensures { (t : Moment) → covers self.new t ≡ true →
            (covers self.old t ≡ true) ⊎ ((is_after after t && is_before t to) ≡ true) }
    {
        let last = place_back(arena, node, Some(first), to);
        if last.is_none() {
            return;
        }
        let skip = Skip {
            after,
            to,
            from: arena.entry(first).tag,
            first: Some(first),
            last,
        };
        self.keep(skip);
    }

    /// Keeps a stretch: in the place of one that it replaces, or at a free one, or in turn.
    fn keep(&mut self, skip: Skip)
        ensures { (t : Moment) → covers self.new t ≡ true → (covers self.old t ≡ true) ⊎ (spans skip t ≡ true) }
    {
        if self.kept.len() < MOST_KEPT && replaced(&self.kept, &skip).is_none() {
            self.kept.push(skip);
            return;
        }
        let place = replaced(&self.kept, &skip).unwrap_or(self.next);
        self.next = place.wrapping_add(1) % MOST_KEPT;
        set_at(self.kept.as_mut_slice(), place, skip);
    }

    /// Where a walk goes on behind a place of which no event counts: behind the stretch in which it is, or else at the
    /// next place.
    pub fn behind(&self, arena: &Arena, node: NodeId, tag: Tag) -> Option<NodeId>
        requires here { IsSomeAnd (entry_of node arena.now.places) (λ e. (e.tag ≡ tag) × (live_event e ≡ None)) }
        requires free { AreFree self.now (live_of (places_from node arena.now.places)) }
        ensures reaches { Reaches arena.now.places (left_at result arena.now.places) result }
        ensures events { live_of (left_at result arena.now.places) ≡ live_of (places_from node arena.now.places) }
        ensures fewer { length (left_at result arena.now.places) < length (places_from node arena.now.places) }
    {
        arena.ordered();
        match target_of(&self.kept, arena, tag) {
            Some(to) => arena.next(to),
            None => arena.next(node),
        }
    }

    /// A place after the last row from which to seek back the first one that is: this one, or an earlier one.
    pub fn start(&self, arena: &Arena, node: NodeId, last: Option<Tag>) -> NodeId
        requires { IsSomeAnd (entry_of node arena.now.places) (λ e. is_after last e.tag ≡ true) }
        ensures { IsSomeAnd (entry_of result arena.now.places) (λ e. is_after last e.tag ≡ true) }
    {
        match last {
            Some(last) => start_of(&self.kept, arena, node, last),
            None => node,
        }
    }
}
