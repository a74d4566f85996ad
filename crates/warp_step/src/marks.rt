//! Marks: sets of numbers in one word, by which a step knows whom it may have to look at.
ghost use Rattle.std.specs.Prelude.{◌≡◌, ℕ, ◌+◌, ◌≤◌, ◌<◌, false, length};
ghost use Rattle.std.specs.Int.RustNames.{bit_or};
ghost use Rattle.warp_step.specs.inner.Marks.{first_link, first_output, mark_at, marks_from, most_marks};
ghost use Rattle.warp_step.specs.inner.Marks.{no_marks, with_mark};

use crate::program::Program;

/// The number that marks a program's first output; the turns of reactions are the numbers before it.
#[inline(always)]
pub(crate) fn first_output(program: &Program) -> usize
    ensures first { result ≡ first_output program.now }
    ensures room { result + length program.now.outputs ≤ most_marks }
{
    program.valid();
    program.reactions().len()
}

/// The number that marks a program's first link; outputs have the numbers before it.
#[inline(always)]
pub(crate) fn first_link(program: &Program) -> usize
    ensures first { result ≡ first_link program.now }
    ensures room { result + length program.now.links ≤ most_marks }
{
    program.valid();
    first_output(program) + program.outputs().len()
}

/// A set of numbers, in one word. Numbers that are 64 apart share a bit: they are in together, and where one of them is
/// to be looked at, the others are looked at in vain.
#[derive(Clone, Copy)]
pub(crate) struct Marks {
    word: u64,
}

impl Marks {
    /// No number.
    #[inline(always)]
    pub fn none() -> Marks
        ensures { result.word ≡ no_marks }
    {
        Marks { word: 0 }
    }

    /// So many numbers, from one on.
    pub fn range(first: usize, count: usize) -> Marks
        requires { first + count ≤ most_marks }
        ensures { result.word ≡ marks_from first count }
    {
        let mut marks = Marks::none();
        for number in 0..count {
            marks.add(first + number);
        }
        marks
    }

    /// Puts a number in.
    pub fn add(&mut self, number: usize)
        ensures { self.new.word ≡ with_mark number self.old.word }
    {
        self.word |= 1 << (number % 64);
    }

    /// Puts all numbers of another set in.
    #[inline(always)]
    pub fn add_all(&mut self, other: Marks)
        ensures { self.new.word ≡ bit_or self.old.word other.word }
    {
        self.word |= other.word;
    }

    /// Whether some number may be in both sets.
    #[inline(always)]
    pub fn meets(&self, other: Marks) -> bool
        ensures { result ≡ false → (m : ℕ) → mark_at other.word m ≡ 1 → mark_at self.now.word m ≡ 0 }
    {
        self.word & other.word != 0
    }

    /// The least number that may be in the set from one on: none from there to before it is in the set. It may be past
    /// all.
    #[inline(always)]
    pub fn next(&self, from: usize) -> usize
        requires { from ≤ most_marks }
        ensures from { from ≤ result }
        ensures between { (m : ℕ) → from ≤ m → m < result → mark_at self.now.word m ≡ 0 }
    {
        let ahead = self.word.rotate_right((from % 64) as u32);
        from + ahead.trailing_zeros() as usize
    }

    /// The least number that may be in the set after one: no number between them is in the set. It may be past all.
    #[inline(always)]
    pub fn after(&self, number: usize) -> usize
        requires { number < most_marks }
        ensures from { number + 1 ≤ result }
        ensures between { (m : ℕ) → number + 1 ≤ m → m < result → mark_at self.now.word m ≡ 0 }
    {
        let ahead = self.word.rotate_right((number % 64) as u32) & !1;
        number + ahead.trailing_zeros() as usize
    }
}
