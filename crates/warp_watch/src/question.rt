//! What can be asked beside lines, and what is told.

/// How many lines a page has at most, beside `frozen`.
pub const PAGE: u32 = 256;

/// What the executor is asked beside lines.
#[derive(Clone, Copy, Debug, PartialEq, Eq)]
pub enum Question {
    /// The variables that are told, which are neither hidden nor cells: `vars N v0 v1 ..`.
    Vars,
    /// So many variables from this one on, hidden ones and cells of arrays too, as far as there are such: `cells N K v v ..`.
    /// `refused 6` where the program has no variable of the first number.
    Cells {
        /// The number of the first.
        first: u32,
        /// How many, 1 to 4,096.
        count: u32,
    },
    /// How many released outputs are shown, and whether they are frozen, 0 or 1: `releases N C F`.
    Releases,
    /// The shown released output of this number, from 0: `release N T M P V`, or `none N`.
    Release(u32),
    /// The horizon: `horizon N T M`.
    Horizon,
    /// The broken origins, in rising order: `breach N O O ..`, and ` *` where a joint announcement is broken.
    Breaches,
    /// How many names of this origin have an event, how many have a withdrawal, and the greatest tag of these names, 0 0
    /// where there is none: `counts N O E W T M`. `refused 2` where the program has no such origin.
    Counts(u32),
    /// Up to which tag this origin's announcements are reached, 0 0 where none is: `reached N O T M`. `refused 2` where
    /// the program has no such origin.
    Reached(u32),
    /// A page of the log: a line `log P RECORD` for each record from this place on, 256 at most.
    Log {
        /// The first place, from 1; 0 is as 1.
        from: u32,
        /// Only the places below this one, where it is not 0.
        until: u32,
    },
    /// A page of the shown released outputs: a line `released I T M P V` for each from this number on, 256 at most; and
    /// where none is left and they are frozen, a line `frozen`.
    Released {
        /// The first number, from 0.
        from: u32,
        /// Only the numbers below this one, where it is not 0.
        until: u32,
    },
}

/// What was told to a question.
#[derive(Debug, Drop)]
pub struct Told {
    /// The question.
    pub question: Question,
    /// How many records the log had: N in the lines.
    pub len: u32,
    /// Of a page: the first place or number from where it began that it does not tell. Else 0.
    pub next: u32,
    /// Whether the last line is `frozen`.
    pub frozen: bool,
    /// Whole lines, each with its line feed.
    pub text: Vec<u8>,
}
