//! How many bytes came behind the last answer, of which there is a most.

ghost use Rattle.std.specs.Prelude.{◌≡◌, ◌+◌, ◌-◌, ◌≤◌};
ghost use Rattle.warp_web.specs.Bounds.{most_unanswered};

use crate::bounds::{MOST_UNANSWERED, READ_SIZE};

/// How many bytes came behind the last answer, or since the connection began.
#[derive(Drop)]
pub(crate) struct Unanswered {
    count: usize,
    ghost few: { count ≤ most_unanswered },
}

impl Unanswered {
    /// None came.
    pub(crate) fn new() -> Unanswered {
        Unanswered { count: 0 }
    }

    /// How many came.
    pub(crate) fn count(&self) -> usize
        ensures value { result ≡ self.now.count }
        ensures most { result ≤ most_unanswered }
    {
        self.count
    }

    /// How many more may come.
    pub(crate) fn left(&self) -> usize
        ensures { result ≡ most_unanswered - self.now.count }
    {
        MOST_UNANSWERED - self.count
    }

    /// So many more came.
    pub(crate) fn add(&mut self, more: usize)
        requires { self.old.count + more ≤ most_unanswered }
        ensures { self.new.count ≡ self.old.count + more }
    {
        self.count += more;
    }

    /// Requests were answered: what is left came with the last read, which completed one.
    pub(crate) fn answer(&mut self)
        ensures { self.new.count ≤ self.old.count }
    {
        self.count = self.count.min(READ_SIZE);
    }
}
