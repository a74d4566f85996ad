//! How long lines take.

ghost use Rattle.std.specs.Prelude.{◌≡◌, max};

use std::alloc::Global;
use std::collections::VecDeque;

/// The upper bounds of the histogram, in microseconds. Behind the last is what takes longer.
pub(crate) const BOUNDS: [u64; 12] = [
    100, 250, 500, 1_000, 2_500, 5_000, 10_000, 25_000, 100_000, 500_000, 1_000_000, 5_000_000,
];

/// How many lines took at most so long, each by its least bound, what all took together, and what one took at most.
#[derive(Clone, Copy)]
pub struct Histogram {
    pub(crate) counts: [u64; 13],
    pub(crate) micros: u64,
    /// What the line took that took longest.
    pub(crate) longest: u64,
}

impl Histogram {
    /// No line was seen.
    pub(crate) fn new() -> Histogram {
        Histogram {
            counts: [0; 13],
            micros: 0,
            longest: 0,
        }
    }

    /// So many lines took so long.
    fn note(&mut self, lines: u64, took: u64)
        ensures { self.new.longest ≡ max self.old.longest took }
    {
        let place = place_of(took);
        if place < self.counts.len() {
            self.counts[place] = self.counts[place].wrapping_add(lines);
        }
        self.micros = self.micros.saturating_add(took.saturating_mul(lines));
        self.longest = self.longest.max(took);
    }
}

/// The place of the least bound that is not exceeded.
fn place_of(took: u64) -> usize {
    for (place, bound) in BOUNDS.iter().enumerate() {
        if took <= *bound {
            return place;
        }
    }
    BOUNDS.len()
}

/// Lines on their way: how many were taken in all by some moment.
#[derive(Clone, Copy)]
struct Taken {
    lines: u64,
    at: u64,
}

/// Measures how long lines take, all of a round as one. Lines are answered about in the order of their taking; where
/// they are not, one is measured in the place of another. Moments are microseconds.
#[derive(Drop)]
pub struct Stopwatch {
    histogram: Histogram,
    waiting: VecDeque<Taken>,
    begun: u64,
    done: u64,
}

/// So many rounds wait at most: what is taken behind them counts with the last.
const MOST_ROUNDS: usize = 4_096;

impl Stopwatch {
    /// Nothing was measured.
    pub fn new(alloc: Global) -> Stopwatch {
        Stopwatch {
            histogram: Histogram::new(),
            waiting: VecDeque::new(alloc),
            begun: 0,
            done: 0,
        }
    }

    /// What was measured.
    pub fn histogram(&self) -> Histogram {
        self.histogram
    }

    /// For how long the oldest line waits now that has no answer.
    pub fn waits(&self, now: u64) -> u64 {
        match self.waiting.front() {
            Some(first) => now.saturating_sub(first.at),
            None => 0,
        }
    }

    /// So many lines were taken in all by now.
    pub fn begin(&mut self, lines: u64, now: u64) {
        if lines > self.begun && self.waiting.len() < MOST_ROUNDS {
            // Without memory these lines count with later ones.
            if self.waiting.push_back(Taken { lines, at: now }).is_ok() {
                self.begun = lines;
            }
        }
    }

    /// So many lines were answered in all by now.
    pub fn end(&mut self, replies: u64, now: u64) {
        for _ in 0..MOST_ROUNDS {
            let Some(first) = self.waiting.front() else {
                return;
            };
            let first = *first;
            if first.lines > replies {
                return;
            }
            self.histogram.note(
                first.lines.saturating_sub(self.done),
                now.saturating_sub(first.at),
            );
            self.done = first.lines;
            self.waiting.pop_front();
        }
    }
}
