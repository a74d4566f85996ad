//! A count without an upper end, for proofs alone: it takes no bytes, and costs nothing at run time.
ghost use Rattle.std.specs.Prelude.{◌≡◌, ℕ, ◌+◌};
ghost use Rattle.warp_step.specs.Counter.{IsUnused};

use std::marker::Model;
use std::sync::ledger::{Blank, Book, Ledger, Share};

/// A count that only grows, kept in a ledger of its own. Contracts see it as the number.
#[derive(Drop)]
pub struct Counter<L: Ledger> {
    book: Book<L>,
    share: Share<L>,
}

impl<L: Ledger> Model for Counter<L> {
    ghost use Rattle.std.specs.Prelude.{ℕ, ◌<◌};

    ghost Value = { ℕ };

    ghost view = { λ c. c.book.total };

    ghost invariant = { λ c. 0 < c.share.parts };
}

impl<L: Ledger> Counter<L> {
    /// A count of nothing yet, in the ledger that `blank` opens.
    pub fn new(blank: Blank) -> Counter<L>
        requires { IsUnused blank L.name L.parts }
        ensures { result ≡ 0 }
    {
        let (book, share) = blank.open::<L>();
        Counter { book, share }
    }

    /// One more.
    pub fn grow(&mut self)
        ensures { self.new ≡ self.old + 1 }
    {
        self.book.add(&mut self.share, 1);
    }
}
