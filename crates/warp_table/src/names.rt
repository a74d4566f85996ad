//! What is known of each name, found by its origin and its tag, and the names in the order in which they came first.
ghost use Rattle.std.specs.Prelude.{◌≡◌, ℕ, ◌<◌, OnOk, vec_len};
ghost use Rattle.warp_table.specs.inner.NamesByOrigin.{rows_at};

use crate::announcer::Announcer;
use crate::rows::{Known, Rows};
use crate::tally::EventOrWithdrawal;
use std::alloc::Global;
use std::marker::Model;
use warp_tag::{OutOfMemory, Tag};

/// A name: an origin and a tag.
#[derive(Clone, Copy)]
pub(crate) struct Name {
    pub(crate) origin: u32,
    pub(crate) tag: Tag,
}

/// Keeps rows for each origin up to this one. The rows that there are stay, also on an `Err`.
fn keep_up_to(origins: &mut Vec<Rows>, origin: u32) -> Result<(), OutOfMemory>
    ensures same { (other : ℕ) → rows_at origins.new.items other ≡ rows_at origins.old.items other }
    ensures ok { OnOk result (origin < vec_len origins.new) }
{
    let alloc = *origins.allocator();
    while origins.len() <= origin as usize {
        origins.push(Rows::new(alloc))?;
    }
    Ok(())
}

/// Names, each once with what is known of it, in the order in which they came first. They are seen as that list.
#[derive(Drop)]
pub(crate) struct Names {
    origins: Vec<Rows>,
    order: Vec<Name>,
}

impl Model for Names {
    ghost use Rattle.std.specs.Prelude.{List};
    ghost use Rattle.warp_table.specs.declared.names.Name.{Name};
    ghost use Rattle.warp_table.specs.declared.rows.Known.{Known};
    ghost use Rattle.warp_table.specs.inner.NamesByOrigin.{AreListed, known_in, listed};

    ghost Value = { List (Name × Known) };

    ghost view = { λ n. listed (known_in n.origins.items) n.order.items };

    ghost invariant = { λ n. AreListed (known_in n.origins.items) n.order.items };
}

impl Names {
    ghost use Rattle.std.specs.Prelude.{◌≡◌, [], None, Some, IsTrue, is_some, Contains, IfNone, IfSome, OnOk, OnErr};
    ghost use Rattle.std.specs.Prelude.{false, slice_get};
    ghost use Rattle.warp_tag.specs.Moment.{Moment, is_before};
    ghost use Rattle.warp_table.specs.inner.Heard.{with_tag};
    ghost use Rattle.std.specs.Map.{lookup};
    ghost use Rattle.warp_table.specs.inner.Kept.{is_named, put_known};
    ghost use Rattle.warp_table.specs.inner.Tally.{tags_of, with_noted};

    /// None yet. They grow in `alloc`.
    pub(crate) fn new(alloc: Global) -> Names
        ensures { result ≡ [] }
    {
        Names {
            origins: Vec::new(alloc),
            order: Vec::new(alloc),
        }
    }

    /// What is known of a name; `None` where it is not there.
    pub(crate) fn known(&self, name: Name) -> Option<Known>
        ensures { result ≡ lookup (is_named name.origin name.tag) self.now }
    {
        let rows = self.origins.get(name.origin as usize)?;
        rows.known(name.tag)
    }

    /// The greatest tag of the origin's names; `None` where it has none.
    pub(crate) fn last(&self, origin: u32) -> Option<Tag>
        ensures there { IfSome result (λ tag. IsTrue (is_some (lookup (is_named origin tag) self.now))) }
        ensures greatest { IfSome result (λ tag. (other : Moment) → IsTrue (is_before tag other) →
            lookup (is_named origin other) self.now ≡ None) }
        ensures none { IfNone result ((other : Moment) → lookup (is_named origin other) self.now ≡ None) }
    {
        let rows = self.origins.get(origin as usize)?;
        rows.last()
    }

    /// What is known of a name, which may change next; `None` where it is not there.
    pub(crate) fn seek(&mut self, name: Name) -> Option<Known>
        ensures known { result ≡ lookup (is_named name.origin name.tag) self.old }
        ensures same { self.new ≡ self.old }
    {
        if self.origins.len() <= name.origin as usize {
            return None;
        }
        let rows = &mut self.origins[name.origin as usize];
        rows.seek(name.tag)
    }

    /// A name by the number of its first coming, from 0, and what is known of it; `None` where there are not so many.
    pub(crate) fn get_index(&self, number: u32) -> Option<(Name, Known)>
        ensures entry { result ≡ slice_get self.now number }
        ensures value { IfSome result (λ kept. lookup (is_named kept.0.origin kept.0.tag) self.now ≡ Some kept.1) }
    {
        let name = *self.order.get(number as usize)?;
        let known = self.known(name)?;
        Some((name, known))
    }

    /// Has this known of a name that is there.
    pub(crate) fn set(&mut self, name: Name, known: Known)
        requires { IsTrue (is_some (lookup (is_named name.origin name.tag) self.old)) }
        ensures { self.new ≡ put_known self.old name known }
    {
        self.origins[name.origin as usize].set(name.tag, known);
    }

    /// Puts in a name of which this is known, where it comes behind all of its origin's and there is room at once, and
    /// tells its origin that it has an event: whether it did.
    #[inline(always)]
    pub(crate) fn insert_last(
        &mut self,
        name: Name,
        known: Known,
        announcer: &mut Announcer,
    ) -> bool
        requires fresh { lookup (is_named name.origin name.tag) self.old ≡ None →
            ¬ Contains announcer.old.events name.tag }
        ensures new { IsTrue result → lookup (is_named name.origin name.tag) self.old ≡ None }
        ensures with { IsTrue result → self.new ≡ put_known self.old name known }
        ensures heard { IsTrue result →
            announcer.new ≡ record announcer.old { events = with_tag name.tag announcer.old.events } }
        ensures other { result ≡ false → (self.new ≡ self.old) × (announcer.new ≡ announcer.old) }
    {
        if self.order.len() == self.order.capacity() {
            return false;
        }
        if self.origins.len() <= name.origin as usize {
            return false;
        }
        let rows = &mut self.origins[name.origin as usize];
        if !rows.insert_last(name.tag, known, announcer) {
            return false;
        }
        self.order.push_reserved(name);
        true
    }

    /// Puts in a new name of which this is known, and tells its origin that it has an event or a withdrawal. An `Err`
    /// changes nothing.
    #[inline(always)]
    pub(crate) fn insert(
        &mut self,
        name: Name,
        known: Known,
        kind: EventOrWithdrawal,
        announcer: &mut Announcer,
    ) -> Result<(), OutOfMemory>
        requires new { lookup (is_named name.origin name.tag) self.old ≡ None }
        requires fresh { ¬ Contains (tags_of kind announcer.old) name.tag }
        ensures ok { OnOk result (self.new ≡ put_known self.old name known) }
        ensures heard { OnOk result (announcer.new ≡ with_noted kind name.tag announcer.old) }
        ensures err { OnErr result ((self.new ≡ self.old) × (announcer.new ≡ announcer.old)) }
    {
        keep_up_to(&mut self.origins, name.origin)?;
        self.order.reserve(1)?;
        let rows = &mut self.origins[name.origin as usize];
        rows.insert(name.tag, known, kind, announcer)?;
        self.order.push_reserved(name);
        Ok(())
    }
}
