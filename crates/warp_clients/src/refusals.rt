//! How many refusals were told, by their numbers.
ghost use Rattle.std.specs.Prelude.{◌≡◌, ◌≤◌, slice_index_or};
ghost use Rattle.warp_clients.specs.Refusals.{one_more};

/// Refusals have numbers below this one.
pub const MOST_REFUSALS: usize = 23;

/// How many refusals of each number were told.
#[derive(Clone, Copy, Debug)]
pub struct Refusals {
    counts: [u64; MOST_REFUSALS],
}

impl Refusals {
    /// None was told.
    pub const NONE: Refusals = Refusals {
        counts: [0; MOST_REFUSALS],
    };

    /// How many of this number were told.
    pub fn of(&self, number: usize) -> u64
        ensures { result ≡ slice_index_or self.now.counts number 0 }
    {
        match self.counts.get(number) {
            Some(count) => *count,
            None => 0,
        }
    }

    /// Whether none was told.
    pub fn are_none(&self) -> bool {
        self.counts.iter().all(|count| *count == 0)
    }

    /// One more of this number was told. One that no refusal has is not counted.
    pub(crate) fn note(&mut self, number: usize)
        ensures { self.new.counts ≡ one_more number self.old.counts }
    {
        if number < MOST_REFUSALS {
            self.counts[number] = self.counts[number].wrapping_add(1);
        }
    }
}

/// The number of a refusal, if that is what this line is: `refused K` and a line feed, K of one digit or two; else 0 or a number
/// that none has.
pub(crate) fn number_in(line: &[u8]) -> usize {
    let Some(rest) = line.strip_prefix(b"refused ") else {
        return 0;
    };
    match rest {
        [digit, b'\n'] => digit_of(*digit),
        [tens, digit, b'\n'] => digit_of(*tens) * 10 + digit_of(*digit),
        _ => 0,
    }
}

/// The digit that the byte spells; where it spells none a number above 9.
fn digit_of(byte: u8) -> usize
    ensures { result ≤ 255 }
{
    usize::from(byte.wrapping_sub(b'0'))
}
