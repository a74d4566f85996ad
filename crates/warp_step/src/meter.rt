//! What counts the steps of a program.
ghost use Rattle.std.specs.Prelude.{◌≡◌, ℕ, ◌+◌};

use crate::given_input::Given;
use crate::state::State;
use warp_tag::{Out, Tag};

/// Counts steps. To contracts it is a number without an upper end; what it keeps at run time is its own affair.
/// The trait makes no meter, so generic code counts on the one that its caller gave.
///
/// A meter may look at each step that it counts, before and after it. By itself it does not.
pub trait Meter {
    /// How often it was ticked.
    ghost ticks: { Self → ℕ };

    /// One more.
    fn tick(&mut self)
        ensures { ticks self.new ≡ ticks self.old + 1 };

    /// Looks at a step that is about to be made: at which tag, in which state, and what is given.
    #[inline(always)]
    fn look_before(&mut self, _tag: Tag, _state: &State, _given: &[Given])
        ensures { ticks self.new ≡ ticks self.old }
    {}

    /// Looks at a step that was made: the state after it, and a list whose last entries, those at the step's tag, are
    /// its outputs.
    #[inline(always)]
    fn look_after(&mut self, _state: &State, _outputs: &[Out])
        ensures { ticks self.new ≡ ticks self.old }
    {}
}
