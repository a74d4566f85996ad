//! A sorted table of names in a `Vec`.
ghost use Rattle.std.specs.Prelude.{◌≡◌, ◌<◌, ◌≤◌, false, IsTrue, length, slice_get, slice_set, unwrap_or, vec_len};
ghost use Rattle.std.specs.Prelude.{vec_capacity};
ghost use Rattle.std.specs.List.{prefix_len};
ghost use Rattle.warp_tag.specs.declared.entry.Entry.{Entry};
ghost use Rattle.warp_tag.specs.Table.{IsTable, name_before, fresh, known, changed, with_event, with_withdrawal, live};

use warp_tag::{Entry, Tag};

/// How many entries of a table are ahead of the name, sought from the tail, where a record in tag order lands.
fn place(entries: &[Entry], origin: u32, tag: Tag) -> usize
    requires { IsTable entries.now }
    ensures place { result ≡ prefix_len (λ e. name_before e.origin e.tag (fresh origin tag)) entries.now }
    ensures within { result ≤ length entries.now }
{
    let mut at = entries.len();
    while at > 0 && !entries[at - 1].comes_before(origin, tag) {
        at -= 1;
    }
    at
}

/// The place of the name in a sorted table, for which there is room: a name of which nothing is known comes in there.
fn enter_name(entries: &mut Vec<Entry>, origin: u32, tag: Tag) -> usize
    requires room { vec_len entries.old < vec_capacity entries.old }
    requires table { IsTable entries.old.items }
    ensures within { result < vec_len entries.new }
    ensures entry { slice_get entries.new.items result ≡
        Some (unwrap_or (known origin tag entries.old.items) (fresh origin tag)) }
    ensures change { (change : Entry → Entry) →
        slice_set entries.new.items result
        (change (unwrap_or (known origin tag entries.old.items) (fresh origin tag))) ≡
        changed change origin tag entries.old.items }
    ensures capacity { vec_capacity entries.new ≡ vec_capacity entries.old }
{
    let at = place(entries, origin, tag);
    if at == entries.len() || !entries[at].is_of(origin, tag) {
        let _ = entries.insert(at, Entry::fresh(origin, tag));
    }
    at
}

/// Notes an event in a sorted table, for which there is room; answers whether the live events changed.
///
/// Of several payloads of one name the greatest counts, by input, then by value.
pub(crate) fn note_event(
    entries: &mut Vec<Entry>,
    origin: u32,
    tag: Tag,
    input: u32,
    value: i64,
) -> bool
    requires room { vec_len entries.old < vec_capacity entries.old }
    requires table { IsTable entries.old.items }
    ensures table { entries.new.items ≡ changed (with_event input value) origin tag entries.old.items }
    ensures ordered { IsTable entries.new.items }
    ensures same { result ≡ false → live entries.new.items ≡ live entries.old.items }
    ensures changes { IsTrue result → live entries.new.items ≡ live entries.old.items → ⊥ }
    ensures capacity { vec_capacity entries.new ≡ vec_capacity entries.old }
{
    let at = enter_name(entries, origin, tag);
    entries[at].note_event(input, value)
}

/// Notes a withdrawal in a sorted table, for which there is room; answers whether the live events changed.
pub(crate) fn note_withdrawal(entries: &mut Vec<Entry>, origin: u32, tag: Tag) -> bool
    requires room { vec_len entries.old < vec_capacity entries.old }
    requires table { IsTable entries.old.items }
    ensures table { entries.new.items ≡ changed with_withdrawal origin tag entries.old.items }
    ensures ordered { IsTable entries.new.items }
    ensures same { result ≡ false → live entries.new.items ≡ live entries.old.items }
    ensures changes { IsTrue result → live entries.new.items ≡ live entries.old.items → ⊥ }
    ensures capacity { vec_capacity entries.new ≡ vec_capacity entries.old }
{
    let at = enter_name(entries, origin, tag);
    entries[at].withdraw()
}
