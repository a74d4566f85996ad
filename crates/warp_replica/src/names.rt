//! What is known of the names of a table, in their order.
ghost use Rattle.std.specs.Prelude.{◌≡◌, ℕ, ◌≤◌, length, map, Some, All, Contains, IfOk};
ghost use Rattle.warp_tag.specs.Limits.{most_records, widest};
ghost use Rattle.warp_tag.specs.Moment.{Moment};
ghost use Rattle.warp_tag.specs.declared.entry.Entry.{Entry};
ghost use Rattle.warp_table.specs.LogNames.{names_of, table_of};
ghost use Rattle.warp_table.specs.Names.{Tells};
ghost use Rattle.warp_table.specs.Records.{set_of};

use std::alloc::Global;
use warp_table::Table;
use warp_tag::{Entry, OutOfMemory};

/// What is known of each name of a table, in order of tag, then of origin. A timeline takes each in at its end then, and
/// does not seek where it belongs, in whichever order the names came.
pub fn names_in_order(alloc: Global, table: &Table) -> Result<Vec<Entry>, OutOfMemory>
    ensures ordered { IfOk result (λ names. names.items ≡ table_of table.now) }
    ensures told { IfOk result (λ names. All (λ e. Tells (set_of table.now) e.origin e.tag (Some e)) names.items) }
    ensures all { IfOk result
        (λ names. (origin : ℕ) (tag : Moment) (e : Entry) → Tells (set_of table.now) origin tag (Some e) →
        Contains names.items e) }
    ensures few { IfOk result (λ names. length names.items ≤ most_records widest) }
{
    let mut names = all_names(alloc, table)?;
    names.sort_unstable_by_key(|name| (name.tag.time(), name.tag.micro(), name.origin));
    Ok(names)
}

/// What is known of each name of a table, in the order of their first coming.
fn all_names(alloc: Global, table: &Table) -> Result<Vec<Entry>, OutOfMemory>
    ensures named { IfOk result (λ names. map (λ e. (e.origin, e.tag)) names.items ≡ names_of table.now) }
    ensures told { IfOk result (λ names. All (λ e. Tells (set_of table.now) e.origin e.tag (Some e)) names.items) }
    ensures all { IfOk result
        (λ names. (origin : ℕ) (tag : Moment) (e : Entry) → Tells (set_of table.now) origin tag (Some e) →
        Contains names.items e) }
    ensures few { IfOk result (λ names. length names.items ≤ most_records widest) }
{
    let mut names = Vec::new(alloc);
    for number in 0..table.len() {
        let Some(name) = table.name_at(number) else {
            return Ok(names);
        };
        names.push(name)?;
    }
    Ok(names)
}
