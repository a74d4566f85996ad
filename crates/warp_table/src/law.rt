//! Laws: what records say of names follows from their set, in whatever order they came.
ghost use Rattle.std.specs.Prelude.{◌≡◌, ◌≢◌, ◌↔◌, ◌++◌, ℕ, List, Option, Contains, AllPairs};
ghost use Rattle.warp_tag.specs.Moment.{Moment};
ghost use Rattle.warp_tag.specs.Table.{Event, IsTable, known, live};
ghost use Rattle.warp_tag.specs.declared.entry.Entry.{Entry};
ghost use Rattle.warp_record.specs.declared.record.Record.{Record};
ghost use Rattle.warp_table.specs.NameCounts.{AreCounts};
ghost use Rattle.warp_table.specs.Names.{IsLive, IsOf, Tells};
ghost use Rattle.warp_table.specs.Records.{HasSize, IsIn, Records, set_of, union};
ghost use Rattle.warp_table.specs.LogNames.{names_of, table_of};
ghost use Rattle.warp_table.specs.declared.table.NameCounts.{NameCounts};

/// The set of a list has just the list's records.
pub fn in_set()
    ensures { (records : List Record) (said : Record) → Contains records said ↔ IsIn (set_of records) said }
{}

/// Lists of the same records, in whatever order and however often each, have one set.
pub fn one_set()
    ensures { (a b : List Record) → ((said : Record) → Contains a said ↔ Contains b said) → set_of a ≡ set_of b }
{}

/// A set has at most one size.
pub fn one_size()
    ensures { (S : Records) (m n : ℕ) → HasSize S m → HasSize S n → m ≡ n }
{}

/// Joining sets is commutative, associative and idempotent, and joins what two lists have.
pub fn joined()
    ensures commutes { (S T : Records) → union S T ≡ union T S }
    ensures associates { (S T U : Records) → union (union S T) U ≡ union S (union T U) }
    ensures idempotent { (S : Records) → union S S ≡ S }
    ensures lists { (a b : List Record) → set_of (a ++ b) ≡ union (set_of a) (set_of b) }
{}

/// The table of any list of records has each name once, in order.
pub fn is_table()
    ensures { (records : List Record) → IsTable (table_of records) }
{}

/// What the table knows of a name is what the set of the records tells of it: the greatest payload of its events, and
/// whether it is withdrawn.
pub fn known_by_set()
    ensures { (records : List Record) (origin : ℕ) (tag : Moment) →
        Tells (set_of records) origin tag (known origin tag (table_of records)) }
{}

/// A set tells at most one thing of a name.
pub fn told_once()
    ensures { (S : Records) (origin : ℕ) (tag : Moment) (a b : Option Entry) → Tells S origin tag a →
        Tells S origin tag b → a ≡ b }
{}

/// Lists with one set have one table.
pub fn one_table()
    ensures { (a b : List Record) → set_of a ≡ set_of b → table_of a ≡ table_of b }
{}

/// The live events of the table are those of the set.
pub fn live_by_set()
    ensures { (records : List Record) → IsLive (set_of records) (live (table_of records)) }
{}

/// A set has at most one list of live events.
pub fn live_once()
    ensures { (S : Records) (D E : List Event) → IsLive S D → IsLive S E → D ≡ E }
{}

/// The names of a log are those of its events and withdrawals, each once.
pub fn names_once()
    ensures once { (records : List Record) → AllPairs (λ a b. a ≢ b) (names_of records) }
    ensures each { (records : List Record) (origin : ℕ) (tag : Moment) →
        Contains (names_of records) (origin, tag) ↔
        ((said : Record) × IsIn (set_of records) said × IsOf origin tag said) }
{}

/// A set has one count of an origin's names.
pub fn one_count()
    ensures { (S : Records) (origin : ℕ) (a b : NameCounts) → AreCounts S origin a → AreCounts S origin b → a ≡ b }
{}
