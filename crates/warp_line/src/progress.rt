//! How far settling came.

/// How far settling came, where it may execute so many rows and no more.
#[derive(Clone, Copy, Debug, PartialEq, Eq)]
pub enum Progress {
    /// All rows are done.
    Settled,
    /// So many rows were executed, and one more waits.
    Paused,
}
