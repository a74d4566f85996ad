//! The arena: entries of names, in order, each at a handle.
use crate::hints::{
    back_by_tag, back_of_origin, keep_later, leads_back, near_hint, own_hint, place_of_hint,
    place_of_own_hint, reserve_hints, stands_behind, tag_hint,
};
use crate::links::{
    add_node, handle, is_passed, next_by_tag, next_of_origin, thread_node, unthread_node,
};
use crate::node::{Cursor, Gap, HINTED, Links, MOST_PASSED, NO_NODE, Node, NodeId, Origin, Walk};
use crate::packed::Packed;
use std::alloc::Global;
use std::marker::Model;
use warp_tag::{Entry, OutOfMemory, Tag};

/// Entries of names, in order of tag, then of origin, each at a handle. Contracts see it as its `Contents`: the
/// number of its origins, its places (a handle and its entry) in order, the number of its free nodes, and its room: for
/// how many nodes in all, and for how many hints of either kind, memory was taken.
///
/// `reserve_one` alone changes the room.
///
/// How it seeks a name, of which no clause speaks: `find`, `insert` and `enter` walk back along the list of its origin,
/// from the entry of the origin that was touched last (that came in, or that `enter` found), where that is
/// after the name, and else from the list's end; but where a hint of the origin is nearer, from there. Where the name
/// comes in, a walk back along the tag list follows, from the origin's first entry after the name or from the end, or
/// from a hint that is nearer.
///
/// Hints are found by halving. The entry at each `HINTED`th node is one; and `insert` and `enter`, where a walk of
/// theirs passed more than `MOST_PASSED` entries, make the one in its middle a hint. So a walk may be long where no
/// hint is near, as among names that were put in one behind the other before some that are far ahead; but it halves
/// the stretch that the next one there passes. Among the next `MOST_SEEN` hints one of the origin is looked for; where
/// there is none, the middle goes into the list of origins' own hints. `find` leaves none. A hint that finds no room is
/// left out. No proof asks of hints more than that they are nodes: an unused node has the least of all names, so that
/// each hint whose name is after another's is used.
#[derive(Drop)]
pub struct Arena {
    nodes: Vec<Node>,
    by_origin: Vec<Origin>,
    ends: Links,
    free: u32,
    used: usize,
    /// Nodes from which a walk may start, in order.
    hints: Vec<u32>,
    /// Nodes from which a walk along the list of their origin may start, in order of origin, then of tag.
    own_hints: Vec<u32>,
}

impl Model for Arena {
    ghost use Rattle.warp_arena.specs.Places.{Contents};

    ghost Value = { Contents };

    ghost use Rattle.std.specs.Vec.{vec_capacity};
    ghost use Rattle.warp_arena.specs.Shape.{threads_of, contents_of, IsHinted};

    ghost view = { λ a.
        contents_of (threads_of a.nodes.items a.by_origin.items a.ends a.free) a.used (record {
          nodes = vec_capacity a.nodes;
          hints = vec_capacity a.hints;
          own_hints = vec_capacity a.own_hints;
        }) };

    ghost invariant = { λ a.
        IsHinted (threads_of a.nodes.items a.by_origin.items a.ends a.free) a.used a.hints.items a.own_hints.items };
}

impl Arena {
    ghost use Rattle.std.specs.Prelude.{◌≡◌, ◌≢◌, ℕ, true, ◌↔◌, ◌<◌, ◌≤◌, ◌+◌, ◌-◌, [], ◌∷◌, IsTrue, IsOk, IsSome};
    ghost use Rattle.std.specs.Prelude.{MatchOption, IfSome, IsSomeAnd, IfOk, OnOk, OnErr, None, Some, length, map};
    ghost use Rattle.std.specs.Prelude.{drop, ◌==◌, ◌%◌, filter};
    ghost use Rattle.std.specs.Option.{option_map};
    ghost use Rattle.warp_tag.specs.Limits.{most_names};
    ghost use Rattle.warp_tag.specs.Moment.{is_before};
    ghost use Rattle.warp_tag.specs.Table.{name_before, has_name, fresh, with_event, with_withdrawal};
    ghost use Rattle.warp_tag.specs.declared.entry.Entry.{Entry};
    ghost use Rattle.warp_arena.specs.Places.{places_of, named, node_of, entry_of, first_node, last_node, Reaches};
    ghost use Rattle.warp_arena.specs.Places.{places_from, places_after, places_before, with_place, with_change};
    ghost use Rattle.warp_arena.specs.Places.{GrowsForHints, no_room, with_free, places_past, places_through};
    ghost use Rattle.warp_arena.specs.Places.{origin_of, IsBehindAll, IsOrdered};
    ghost use Rattle.warp_arena.specs.Shape.{IsGap, last_not_after, IsAfter, IsBehind};

    /// An arena without entries, for origins below this number. The only error is want of memory.
    pub fn start(alloc: Global, origins: u32) -> Result<Arena, OutOfMemory>
        ensures { IfOk result (λ a. a ≡ record { origins = origins; places = []; free = 0; room = no_room }) }
    {
        let mut by_origin = Vec::with_capacity(alloc, origins as usize)?;
        for _ in 0..origins {
            by_origin.push(Origin::EMPTY)?;
        }
        Ok(Arena {
            nodes: Vec::new(alloc),
            by_origin,
            ends: Links::EMPTY,
            free: NO_NODE,
            used: 0,
            hints: Vec::new(alloc),
            own_hints: Vec::new(alloc),
        })
    }

    /// Makes sure that a node is free, so that one `insert` can follow. Where one is, nothing changes. Else it makes
    /// one, and takes memory only where no room is left: for twice as many nodes as before, and four more at least, and
    /// for more hints. The only error is want of memory, where no node is free and no room is left; then all is as
    /// before, but that there may be more room for hints.
    #[inline(always)]
    pub fn reserve_one(&mut self, _alloc: Global) -> Result<(), OutOfMemory>
        requires { length self.old.places < most_names }
        ensures ok { OnOk result (self.new ≡ with_free self.new.room self.old) }
        ensures err { OnErr result (self.new ≡ record self.old {
          room = record self.new.room { nodes = self.old.room.nodes };
        }) }
        ensures hints { GrowsForHints self.old self.new }
        ensures spare { 0 < self.old.free → IsOk result }
        ensures room { length self.old.places < self.old.room.nodes → IsOk result }
    {
        if self.free == NO_NODE {
            reserve_hints(&mut self.hints, &mut self.own_hints, &self.nodes)?;
            let index = self.nodes.len() as u32;
            add_node(&mut self.nodes)?;
            self.free = index;
        }
        Ok(())
    }

    /// The handle of this name, or none where the arena does not hold it.
    pub fn find(&self, origin: u32, tag: Tag) -> Option<NodeId>
        ensures handle { result ≡ node_of origin tag self.now.places }
        ensures named { IfSome result
            (λ node. IsSomeAnd (entry_of node self.now.places) (λ e. IsTrue (has_name origin tag e))) }
    {
        if origin as usize >= self.by_origin.len() {
            return None;
        }
        let found = self.last_of_origin_through(origin, tag);
        self.named_at(origin, tag, found.at)
    }

    /// The handle of this name, where it is known which of its origin's nodes is the last that is not after it.
    fn named_at(&self, origin: u32, tag: Tag, at: u32) -> Option<NodeId>
        requires origin { origin < self.now.origins }
        requires at { at ≡ last_not_after origin tag (places_of origin self.now.places) }
        ensures handle { result ≡ node_of origin tag self.now.places }
        ensures named { IfSome result
            (λ node. IsSomeAnd (entry_of node self.now.places) (λ e. IsTrue (has_name origin tag e))) }
    {
        if at != NO_NODE && self.nodes[at as usize].entry.is_of(origin, tag) {
            Some(NodeId::new(at))
        } else {
            None
        }
    }

    /// Takes in this name, of which nothing is known yet, and answers its handle. Every other handle keeps naming
    /// its entry.
    pub fn insert(&mut self, origin: u32, tag: Tag) -> NodeId
        requires origin { origin < self.old.origins }
        requires reserved { 0 < self.old.free }
        requires absent { node_of origin tag self.old.places ≡ None }
        ensures places { self.new ≡ record self.old {
          places = with_place (record { node = result; entry = fresh origin tag }) self.old.places;
          free = self.old.free - 1;
        } }
        ensures new_handle { entry_of result self.old.places ≡ None }
        ensures entry { entry_of result self.new.places ≡ Some (fresh origin tag) }
        ensures others { (node : ℕ) → node ≢ result → entry_of node self.new.places ≡ entry_of node self.old.places }
    {
        let own_before = self.seek_own(origin, tag);
        self.insert_behind(origin, tag, own_before)
    }

    /// The handle of this name, which comes in where the arena does not hold it: what `find` answers, and else
    /// `insert`. A node is free.
    #[inline(never)]
    pub fn enter(&mut self, origin: u32, tag: Tag) -> NodeId
        requires origin { origin < self.old.origins }
        requires reserved { 0 < self.old.free }
        ensures known { (node : ℕ) → node_of origin tag self.old.places ≡ Some node → (result ≡ node) ×
            (self.new ≡ self.old) }
        ensures places { node_of origin tag self.old.places ≡ None → self.new ≡ record self.old {
          places = with_place (record { node = result; entry = fresh origin tag }) self.old.places;
          free = self.old.free - 1;
        } }
        ensures new_handle { node_of origin tag self.old.places ≡ None → entry_of result self.old.places ≡ None }
        ensures entry { node_of origin tag self.old.places ≡ None →
            entry_of result self.new.places ≡ Some (fresh origin tag) }
        ensures others { node_of origin tag self.old.places ≡ None
            → (node : ℕ) → node ≢ result → entry_of node self.new.places ≡ entry_of node self.old.places }
        ensures named { IsSomeAnd (entry_of result self.new.places) (λ e. IsTrue (has_name origin tag e)) }
    {
        let own_before = self.seek_own(origin, tag);
        if let Some(node) = self.named_at(origin, tag, own_before) {
            self.touch(node);
            return node;
        }
        self.insert_behind(origin, tag, own_before)
    }

    /// Where this name comes in, where it comes behind the last entry of all, and so behind the last one of its origin.
    #[inline(always)]
    pub fn gap_at_end(&self, origin: u32, tag: Tag) -> Option<Gap>
        requires { origin < self.now.origins }
        ensures gap { IfSome result (λ gap. IsGap origin tag self.now.places gap) }
        ensures absent { IfSome result (λ gap. node_of origin tag self.now.places ≡ None) }
        ensures behind { IfSome result (λ gap. IsBehindAll origin tag self.now.places) }
    {
        let before = self.ends.prev;
        if is_passed(&self.nodes, before, origin, tag) {
            let own_before = self.by_origin[origin as usize].ends.prev;
            Some(Gap {
                before,
                after: NO_NODE,
                own_before,
                own_after: NO_NODE,
            })
        } else {
            None
        }
    }

    /// Takes in this name behind the last of the origin's nodes that are not after it.
    fn insert_behind(&mut self, origin: u32, tag: Tag, own_before: u32) -> NodeId
        requires origin { origin < self.old.origins }
        requires reserved { 0 < self.old.free }
        requires absent { node_of origin tag self.old.places ≡ None }
        requires own_before { own_before ≡ last_not_after origin tag (places_of origin self.old.places) }
        ensures places { self.new ≡ record self.old {
          places = with_place (record { node = result; entry = fresh origin tag }) self.old.places;
          free = self.old.free - 1;
        } }
        ensures new_handle { entry_of result self.old.places ≡ None }
        ensures entry { entry_of result self.new.places ≡ Some (fresh origin tag) }
        ensures others { (node : ℕ) → node ≢ result → entry_of node self.new.places ≡ entry_of node self.old.places }
    {
        let before = self.seek_by_tag(origin, tag, own_before);
        let gap = self.gap_behind(origin, tag, before, own_before);
        self.insert_into(origin, tag, &gap)
    }

    /// Where this name comes in, where it is known which of all nodes, and which of the origin's, is the last that is
    /// not after it.
    fn gap_behind(&self, origin: u32, tag: Tag, before: u32, own_before: u32) -> Gap
        requires origin { origin < self.now.origins }
        requires before { before ≡ last_not_after origin tag self.now.places }
        requires own_before { own_before ≡ last_not_after origin tag (places_of origin self.now.places) }
        ensures { IsGap origin tag self.now.places result }
    {
        let own_ends = self.by_origin[origin as usize].ends;
        Gap {
            before,
            after: next_by_tag(&self.nodes, &self.ends, before),
            own_before,
            own_after: next_of_origin(&self.nodes, &own_ends, own_before),
        }
    }

    /// Takes in this name at this gap.
    #[inline(always)]
    fn insert_into(&mut self, origin: u32, tag: Tag, gap: &Gap) -> NodeId
        requires origin { origin < self.old.origins }
        requires reserved { 0 < self.old.free }
        requires absent { node_of origin tag self.old.places ≡ None }
        requires gap { IsGap origin tag self.old.places gap.now }
        ensures places { self.new ≡ record self.old {
          places = with_place (record { node = result; entry = fresh origin tag }) self.old.places;
          free = self.old.free - 1;
        } }
        ensures new_handle { entry_of result self.old.places ≡ None }
        ensures entry { entry_of result self.new.places ≡ Some (fresh origin tag) }
        ensures others { (node : ℕ) → node ≢ result → entry_of node self.new.places ≡ entry_of node self.old.places }
    {
        let node = self.thread_in(origin, tag, None, gap);
        self.note_hint(node, origin, tag)
    }

    /// Takes in this name at this gap, with an event where one is given, and notes no hint.
    #[inline(always)]
    pub fn thread_in(
        &mut self,
        origin: u32,
        tag: Tag,
        event: Option<(u32, i64)>,
        gap: &Gap,
    ) -> NodeId
        requires origin { origin < self.old.origins }
        requires reserved { 0 < self.old.free }
        requires absent { node_of origin tag self.old.places ≡ None }
        requires gap { IsGap origin tag self.old.places gap.now }
        ensures places { self.new ≡ record self.old {
          places = with_place (record { node = result; entry = named origin tag event }) self.old.places;
          free = self.old.free - 1;
        } }
        ensures new_handle { entry_of result self.old.places ≡ None }
        ensures entry { entry_of result self.new.places ≡ Some (named origin tag event) }
        ensures others { (node : ℕ) → node ≢ result → entry_of node self.new.places ≡ entry_of node self.old.places }
    {
        let at = self.free;
        self.free = self.nodes[at as usize].by_tag.next;
        let own = &mut self.by_origin[origin as usize];
        let entry = Packed::named(origin, tag, event);
        thread_node(
            &mut self.nodes,
            &mut self.ends,
            &mut own.ends,
            gap,
            at,
            entry,
        );
        own.touched = at;
        self.used += 1;
        NodeId::new(at)
    }

    /// Records an event of the handle's name: of several payloads the greatest counts, by input, then by value.
    pub fn set_event(&mut self, node: NodeId, input: u32, value: i64)
        requires { IsSome (entry_of node self.old.places) }
        ensures places { self.new ≡
            record self.old { places = with_change (with_event input value) node self.old.places } }
        ensures entry { entry_of node self.new.places ≡
            option_map (with_event input value) (entry_of node self.old.places) }
        ensures others { (other : ℕ) → other ≢ node → entry_of other self.new.places ≡ entry_of other self.old.places }
    {
        self.nodes[node.index() as usize]
            .entry
            .note_event(input, value);
    }

    /// Records that the handle's name is withdrawn, which holds for good.
    pub fn set_withdrawn(&mut self, node: NodeId)
        requires { IsSome (entry_of node self.old.places) }
        ensures places { self.new ≡ record self.old { places = with_change with_withdrawal node self.old.places } }
        ensures entry { entry_of node self.new.places ≡ option_map with_withdrawal (entry_of node self.old.places) }
        ensures others { (other : ℕ) → other ≢ node → entry_of other self.new.places ≡ entry_of other self.old.places }
    {
        self.nodes[node.index() as usize].entry.withdraw();
    }

    /// The entry that the handle names.
    pub fn entry(&self, node: NodeId) -> Entry
        requires { IsSome (entry_of node self.now.places) }
        ensures entry { entry_of node self.now.places ≡ Some result }
        ensures head { places_from node self.now.places
            ≡ record { node = node; entry = result } ∷ places_after node self.now.places }
    {
        self.nodes[node.index() as usize].entry.entry()
    }

    /// The handle of the first entry, or none where there is no entry.
    pub fn first(&self) -> Option<NodeId>
        ensures { Reaches self.now.places self.now.places result }
    {
        handle(self.ends.next)
    }

    /// The handle of the entry after the handle's, or none at the last one.
    pub fn next(&self, node: NodeId) -> Option<NodeId>
        requires { IsSome (entry_of node self.now.places) }
        ensures { Reaches self.now.places (places_after node self.now.places) result }
    {
        handle(self.nodes[node.index() as usize].by_tag.next)
    }

    /// The handle of the entry before the handle's, or none at the first one.
    pub fn prev(&self, node: NodeId) -> Option<NodeId>
        requires { IsSome (entry_of node self.now.places) }
        ensures handle { result ≡ last_node (places_before node self.now.places) }
        ensures used { IfSome result (λ at. IsSome (entry_of at self.now.places)) }
        ensures left { MatchOption result
            (places_from node self.now.places ≡ self.now.places)
            (λ at. places_after at self.now.places ≡ places_from node self.now.places) }
    {
        handle(self.nodes[node.index() as usize].by_tag.prev)
    }

    /// The handle of the next entry of the same origin, or none at its last one.
    pub fn next_of_origin(&self, node: NodeId) -> Option<NodeId>
        requires { IsSome (entry_of node self.now.places) }
        ensures handle { result ≡
            first_node (places_of (origin_of node self.now.places) (places_after node self.now.places)) }
        ensures used { IfSome result (λ at. IsSome (entry_of at self.now.places)) }
    {
        handle(self.nodes[node.index() as usize].of_origin.next)
    }

    /// Whether the handle names an entry now, and one whose tag is after this one. So a handle may be kept past the
    /// time when its node is freed, and be asked for when it is used.
    pub fn is_after(&self, node: NodeId, tag: Tag) -> bool
        ensures { IsTrue result ↔ IsSomeAnd (entry_of node self.now.places) (λ e. is_before tag e.tag ≡ true) }
    {
        match self.nodes.get(node.index() as usize) {
            Some(node) => tag.is_before(node.entry.tag()),
            None => false,
        }
    }

    /// Where a walk stands at this handle's entry, or behind the last one where there is none.
    #[inline(always)]
    pub fn cursor_at(&self, node: Option<NodeId>) -> Cursor
        requires { IfSome node (λ at. IsSome (entry_of at self.now.places)) }
        ensures { result ≡ node }
    {
        let _ = &self.nodes;
        match node {
            Some(node) => Cursor::new(node.index()),
            None => Cursor::end(),
        }
    }

    /// How many entries the arena holds.
    pub fn len(&self) -> usize
        ensures { result ≡ length self.now.places }
    {
        self.used
    }

    /// What is known of any arena: its entries are in order of tag, then of origin, each name once, each has a handle
    /// of its own, and there is room for all nodes.
    pub fn ordered(&self)
        ensures order { IsOrdered self.now }
        ensures room { length self.now.places + self.now.free ≤ self.now.room.nodes }
    {
        let _ = &self.used;
    }

    /// Frees every node whose tag is not after this one, and says how many they were. Every handle of an entry
    /// that stays keeps naming it.
    pub fn free_through(&mut self, tag: Tag) -> usize
        ensures places { self.new ≡ record self.old {
          places = places_past tag self.old.places;
          free = self.old.free + result;
        } }
        ensures count { result ≡ length (places_through tag self.old.places) }
        ensures front { self.new.places ≡ drop result self.old.places }
        ensures handles { (node : ℕ) → IsSome (entry_of node self.new.places)
            → entry_of node self.new.places ≡ entry_of node self.old.places }
        ensures later { (node : ℕ) (e : Entry) → entry_of node self.old.places ≡ Some e
            → is_before tag e.tag ≡ true → entry_of node self.new.places ≡ Some e }
    {
        self.ordered();
        let before = self.len();
        while let Some(first) = self.first() {
            if tag.is_before(self.entry(first).tag) {
                break;
            }
            self.free_first();
        }
        let freed = before - self.len();
        self.forget_hints_through(tag, freed);
        freed
    }

    /// Forgets the hints of nodes that were freed, of which there are so many: their tags were not after this one.
    fn forget_hints_through(&mut self, tag: Tag, freed: usize)
        ensures { self.new ≡ self.old }
    {
        if freed > 0 {
            keep_later(&mut self.hints, &self.nodes, tag);
            keep_later(&mut self.own_hints, &self.nodes, tag);
        }
    }

    /// Frees the first node of the tag list, which is the first of its origin's list too.
    fn free_first(&mut self)
        requires { 0 < length self.old.places }
        ensures { self.new ≡ record self.old { places = drop 1 self.old.places; free = self.old.free + 1 } }
    {
        let at = self.ends.next;
        let origin = self.nodes[at as usize].entry.origin() as usize;
        let own = self.by_origin[origin];
        let mut own_ends = own.ends;
        let free = self.free;
        unthread_node(&mut self.nodes, &mut self.ends, &mut own_ends, at, free);
        self.by_origin[origin] = Origin {
            ends: own_ends,
            touched: own.touched_without(at),
        };
        self.free = at;
        self.used -= 1;
    }

    /// Notes that the handle's node is the one of its origin that was touched last.
    fn touch(&mut self, node: NodeId)
        requires { IsSome (entry_of node self.old.places) }
        ensures { self.new ≡ self.old }
    {
        let at = node.index();
        let origin = self.nodes[at as usize].entry.origin() as usize;
        self.by_origin[origin].touched = at;
    }

    /// Notes that the node of this name is a hint, where its index says so and there is room, and gives its handle
    /// back.
    #[inline(always)]
    pub fn note_hint(&mut self, node: NodeId, origin: u32, tag: Tag) -> NodeId
        requires { IsSome (entry_of node self.old.places) }
        ensures same { self.new ≡ self.old }
        ensures node { result ≡ node }
    {
        if node.index() % HINTED == 0 {
            return self.put_hint(node, origin, tag);
        }
        node
    }

    /// Puts the handle's node, which has this name, among the hints where there is room, and gives its handle back.
    #[inline(never)]
    fn put_hint(&mut self, node: NodeId, origin: u32, tag: Tag) -> NodeId
        ensures same { self.new ≡ self.old }
        ensures node { result ≡ node }
    {
        if self.hints.len() < self.hints.capacity() && (node.index() as usize) < self.nodes.len() {
            let place = place_of_hint(&self.hints, &self.nodes, origin, tag);
            let _ = self.hints.insert(place, node.index());
        }
        node
    }

    /// Puts the handle's node, which has this name, among its origin's hints where there is room.
    #[inline(never)]
    fn put_own_hint(&mut self, node: NodeId, origin: u32, tag: Tag)
        ensures { self.new ≡ self.old }
    {
        if self.own_hints.len() < self.own_hints.capacity()
            && (node.index() as usize) < self.nodes.len()
        {
            let place = place_of_own_hint(&self.own_hints, &self.nodes, origin, tag);
            let _ = self.own_hints.insert(place, node.index());
        }
    }

    /// After a long walk back to this name along the list of its origin: notes the node that is so many before its
    /// start.
    #[inline(never)]
    fn note_on_own_way(&mut self, origin: u32, tag: Tag, back: u32)
        requires { origin < self.old.origins }
        ensures { self.new ≡ self.old }
    {
        let last = self.by_origin[origin as usize].ends.prev;
        let start = self.start_near(origin, tag, last);
        let at = back_of_origin(&self.nodes, start, back);
        let is_hinted = own_hint(&self.hints, &self.nodes, origin, tag) != NO_NODE;
        let Some(node) = self.nodes.get(at as usize) else {
            return;
        };
        let tag = node.entry.tag();
        if is_hinted {
            self.put_hint(NodeId::new(at), origin, tag);
        } else {
            self.put_own_hint(NodeId::new(at), origin, tag);
        }
    }

    /// After a long walk back to this name along the tag list: notes the node that is so many before its start.
    #[inline(never)]
    fn note_on_way(&mut self, origin: u32, tag: Tag, own_before: u32, back: u32)
        requires origin { origin < self.old.origins }
        requires own_before { own_before ≡ last_not_after origin tag (places_of origin self.old.places) }
        ensures { self.new ≡ self.old }
    {
        let start = self.start_near_beside(origin, tag, own_before, self.ends.prev);
        let at = back_by_tag(&self.nodes, start, back);
        let Some(node) = self.nodes.get(at as usize) else {
            return;
        };
        let (origin, tag) = (node.entry.origin(), node.entry.tag());
        self.put_hint(NodeId::new(at), origin, tag);
    }

    /// Where a walk back to this name starts: where `start_of_walk` says, where the name is next to that, or at a hint
    /// that is nearer.
    #[inline(always)]
    fn start_near(&self, origin: u32, tag: Tag, end: u32) -> u32
        requires { origin < self.now.origins }
        ensures { result ≢ end → IsAfter origin tag result self.now.places }
    {
        let near = self.start_of_walk(origin, tag, end);
        if leads_back(&self.nodes, near, origin, tag) {
            return near;
        }
        let hint = near_hint(&self.hints, &self.own_hints, &self.nodes, origin, tag);
        if hint == NO_NODE {
            return near;
        }
        let touched = self.start_of_walk(origin, tag, hint);
        let hinted = &self.nodes[hint as usize].entry;
        if hinted.comes_after(origin, self.nodes[touched as usize].entry.tag()) {
            touched
        } else {
            hint
        }
    }

    /// Where a walk back to this name starts: at the node of its origin that was touched last, where that is after the
    /// name, since then all behind it are too, and else at this end of the list.
    fn start_of_walk(&self, origin: u32, tag: Tag, end: u32) -> u32
        requires { origin < self.now.origins }
        ensures { result ≢ end → IsAfter origin tag result self.now.places }
    {
        let touched = self.by_origin[origin as usize].touched;
        if touched != NO_NODE && self.nodes[touched as usize].entry.comes_after(origin, tag) {
            touched
        } else {
            end
        }
    }

    /// Where the walk back along the tag list starts, where it is known which of the origin's nodes is the last that
    /// is not after the name: at the next one of the origin, since all behind that are after the name too, and else
    /// at this end.
    fn start_beside(&self, origin: u32, tag: Tag, own_before: u32, end: u32) -> u32
        requires origin { origin < self.now.origins }
        requires own_before { own_before ≡ last_not_after origin tag (places_of origin self.now.places) }
        ensures { result ≢ end → IsAfter origin tag result self.now.places }
    {
        let own_ends = self.by_origin[origin as usize].ends;
        let own_after = next_of_origin(&self.nodes, &own_ends, own_before);
        if own_after == NO_NODE { end } else { own_after }
    }

    /// Where the walk back along the tag list starts: where `start_beside` says, where that is next to the origin's
    /// node before the name, or at a hint that is nearer.
    #[inline(always)]
    fn start_near_beside(&self, origin: u32, tag: Tag, own_before: u32, end: u32) -> u32
        requires origin { origin < self.now.origins }
        requires own_before { own_before ≡ last_not_after origin tag (places_of origin self.now.places) }
        ensures { result ≢ end → IsBehind origin tag result self.now.places }
    {
        let beside = self.start_beside(origin, tag, own_before, end);
        if stands_behind(&self.nodes, beside, own_before) {
            return beside;
        }
        let hint = tag_hint(&self.hints, &self.nodes, origin, tag);
        if hint == NO_NODE {
            return beside;
        }
        let own_after = self.start_beside(origin, tag, own_before, hint);
        let hinted = &self.nodes[hint as usize].entry;
        if hinted.comes_after(origin, self.nodes[own_after as usize].entry.tag()) {
            own_after
        } else {
            hint
        }
    }

    /// The last node of the tag list whose name is not after this one, or `NO_NODE`, where it is known which of the
    /// origin's nodes is. Where the walk was long, it leaves a hint in its middle.
    fn seek_by_tag(&mut self, origin: u32, tag: Tag, own_before: u32) -> u32
        requires origin { origin < self.old.origins }
        requires own_before { own_before ≡ last_not_after origin tag (places_of origin self.old.places) }
        ensures same { self.new ≡ self.old }
        ensures last { result ≡ last_not_after origin tag self.old.places }
    {
        let walk = self.last_through(origin, tag, own_before);
        if walk.passed > MOST_PASSED {
            self.note_on_way(origin, tag, own_before, walk.passed / 2);
        }
        walk.at
    }

    /// The last node of the origin's list whose name is not after this one, or `NO_NODE`. Where the walk was long, it
    /// leaves a hint in its middle.
    fn seek_own(&mut self, origin: u32, tag: Tag) -> u32
        requires { origin < self.old.origins }
        ensures same { self.new ≡ self.old }
        ensures last { result ≡ last_not_after origin tag (places_of origin self.old.places) }
    {
        let walk = self.last_of_origin_through(origin, tag);
        if walk.passed > MOST_PASSED {
            self.note_on_own_way(origin, tag, walk.passed / 2);
        }
        walk.at
    }

    /// The last node of the tag list whose name is not after this one, or `NO_NODE`, where it is known which of the
    /// origin's nodes is.
    fn last_through(&self, origin: u32, tag: Tag, own_before: u32) -> Walk
        requires origin { origin < self.now.origins }
        requires own_before { own_before ≡ last_not_after origin tag (places_of origin self.now.places) }
        ensures { result.at ≡ last_not_after origin tag self.now.places }
    {
        let mut at = self.start_near_beside(origin, tag, own_before, self.ends.prev);
        let mut passed = 0_u32;
        while at != NO_NODE && self.nodes[at as usize].entry.comes_after(origin, tag) {
            at = self.nodes[at as usize].by_tag.prev;
            passed = passed.wrapping_add(1);
        }
        Walk { at, passed }
    }

    /// The last node of the origin's list whose name is not after this one, or `NO_NODE`.
    fn last_of_origin_through(&self, origin: u32, tag: Tag) -> Walk
        requires { origin < self.now.origins }
        ensures { result.at ≡ last_not_after origin tag (places_of origin self.now.places) }
    {
        let last = self.by_origin[origin as usize].ends.prev;
        let mut at = self.start_near(origin, tag, last);
        let mut passed = 0_u32;
        while at != NO_NODE && self.nodes[at as usize].entry.comes_after(origin, tag) {
            at = self.nodes[at as usize].of_origin.prev;
            passed = passed.wrapping_add(1);
        }
        Walk { at, passed }
    }
}
