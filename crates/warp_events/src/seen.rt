//! What is measured of a host outside of its machine.

/// What the system knows that is measured.
#[derive(Clone, Copy)]
pub struct JournalSeen {
    /// How many records are on the disk; none where there is no journal.
    pub records: u32,
    /// How many are written and not on the disk.
    pub unsynced: u32,
    /// For how many milliseconds the oldest of these waits.
    pub waits: u64,
    /// How many connections were refused for want of a descriptor, in all.
    pub undescribed: u64,
}
