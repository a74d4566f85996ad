//! How many bytes a connection holds at most.

/// While more bytes than these wait to be written, nothing more is told.
pub(crate) const MOST_BEFORE: usize = 16_384;

/// The most bytes of a text that is told at once. No line is longer.
pub(crate) const LONGEST_TEXT: usize = 1 << 20;

/// The most bytes that wait to be written: those before the last text, that text, and what stands around it.
pub(crate) const MOST_TOLD: usize = MOST_BEFORE + LONGEST_TEXT + 512;

/// The most bytes of a message of WebSocket with its fragments.
pub(crate) const LONGEST_MESSAGE: usize = 16_384;

/// The most bytes of a frame: those of a message, and its head.
pub(crate) const LONGEST_FRAME: usize = LONGEST_MESSAGE + 14;

/// The most bytes of lines that were not said: a message, and the line feed of its last line.
pub(crate) const MOST_HEARD: usize = LONGEST_MESSAGE + 1;

/// The most bytes of a frame that answers another.
pub(crate) const LONGEST_ANSWER: usize = 139;

/// The most bytes of a head, of a body, of the extensions and of the trailers of one over HTTP.
pub(crate) const MOST_PART: usize = 16_384;

/// How many bytes are heard at once over HTTP: a connection has room for so many.
pub(crate) const READ_SIZE: usize = 2_048;

/// The most bytes that come over HTTP behind the last answer: those of a head and of a body with all that stands between
/// its parts, and what came behind the request that was answered.
pub(crate) const MOST_UNANSWERED: usize = 4 * MOST_PART + READ_SIZE;
