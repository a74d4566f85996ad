//! That a connection is to go.

/// The connection is to be closed at once: there is no memory for what it holds, or the other end broke the protocol in a
/// way that is not answered.
#[derive(Clone, Copy, Debug, PartialEq, Eq)]
pub struct Gone;
