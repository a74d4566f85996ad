//! Why a schedule could not be had.

use std::alloc::{AllocError, AllocFailed};
use thiserror::Error;

/// Why a schedule is none, or could not be played.
#[derive(Clone, Copy, Debug, PartialEq, Eq, Error)]
pub enum ScheduleFault {
    /// The line with this number, from 1, is not of the form; at 0 the file is too long.
    #[error("refused at line {0}")]
    Line(u64),
    /// A growth was refused.
    #[error("out of memory")]
    NoMemory,
}

impl From<AllocError> for ScheduleFault {
    ghost use Rattle.std.specs.Prelude.{◌≡◌};
    ghost use Rattle.warp_world.specs.declared.fault.ScheduleFault.TheVariants.{NoMemory};

    ghost from_gives = { λ _ e. e ≡ NoMemory };

    fn from(_: AllocError) -> ScheduleFault {
        ScheduleFault::NoMemory
    }
}

impl<T: Drop> From<AllocFailed<T>> for ScheduleFault {
    ghost use Rattle.std.specs.Prelude.{◌≡◌};
    ghost use Rattle.warp_world.specs.declared.fault.ScheduleFault.TheVariants.{NoMemory};

    ghost from_gives = { λ _ e. e ≡ NoMemory };

    fn from(_: AllocFailed<T>) -> ScheduleFault {
        ScheduleFault::NoMemory
    }
}
