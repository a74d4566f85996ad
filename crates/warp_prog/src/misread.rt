//! Why a file was not read as a tree.

use std::alloc::{AllocError, AllocFailed};

/// Why a part of a file was not read.
#[derive(Clone, Copy)]
pub(crate) enum Misread {
    /// It is not what its table says.
    Shape,
    /// A growth was refused.
    Memory,
}

impl From<AllocError> for Misread {
    ghost use Rattle.std.specs.Prelude.{◌≡◌};
    ghost use Rattle.warp_prog.specs.declared.misread.Misread.TheVariants.{Memory};

    ghost from_gives = { λ _ e. e ≡ Memory };

    fn from(_error: AllocError) -> Misread {
        Misread::Memory
    }
}

impl<T: Drop> From<AllocFailed<T>> for Misread {
    ghost use Rattle.std.specs.Prelude.{◌≡◌};
    ghost use Rattle.warp_prog.specs.declared.misread.Misread.TheVariants.{Memory};

    ghost from_gives = { λ _ e. e ≡ Memory };

    fn from(_error: AllocFailed<T>) -> Misread {
        Misread::Memory
    }
}
