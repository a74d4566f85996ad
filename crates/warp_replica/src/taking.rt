//! How a record was taken.
ghost use Rattle.std.specs.Prelude.{◌≡◌, ℕ, ◌≤◌, Contains, IfErr, IfOk};
ghost use Rattle.warp_tag.specs.Limits.{most_records, widest};
ghost use Rattle.warp_table.specs.Log.{IsAt};

use warp_record::{Record, Refusal};
use warp_table::Table;

/// How a record was taken.
#[derive(Clone, Copy, Debug, PartialEq, Eq)]
pub enum Took {
    /// It is new, and stands at this place of the log, 1 to the most records of the program's form.
    New(u32),
    /// It was there before, at this place of the log, 1 to the most records of the program's form.
    Known(u32),
}

impl Took {
    /// The place of a record that the table has, which needs neither room nor memory; of another one this refusal.
    pub fn known_or(table: &Table, record: &Record, refusal: Refusal) -> Result<Took, Refusal>
        ensures known { IfOk result
            (λ took. (place : ℕ) × (took ≡ Took.Known place) × IsAt table.now place «record».now ×
            (place ≤ most_records widest)) }
        ensures lacking { IfErr result (λ why. (why ≡ refusal) × (¬ Contains table.now «record».now)) }
    {
        match table.position(record) {
            Some(place) => Ok(Took::Known(place)),
            None => Err(refusal),
        }
    }
}
