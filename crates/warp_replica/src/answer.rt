//! Answers: a reply, and the log that it is of.
use warp_record::Reply;

/// A reply, and the log's length at which it was given.
#[derive(Clone, Copy, Debug)]
pub struct Answer {
    /// The length of the log, at most the most records of the program's form.
    pub len: u32,
    /// The reply.
    pub reply: Reply,
}

/// What stands at a place that no answer was put into: `none` of an empty log.
impl Default for Answer {
    fn default() -> Answer {
        Answer {
            len: 0,
            reply: Reply::Nothing { log: 0 },
        }
    }
}
