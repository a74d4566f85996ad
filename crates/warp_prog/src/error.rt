//! Why a file is no program.

use std::alloc::AllocError;
use thiserror::Error;

/// Why a file is no program: the first of these faults that it has.
#[derive(Clone, Copy, Debug, PartialEq, Eq, Error)]
pub enum LoadError {
    /// It is no JSON text in UTF-8.
    #[error("no JSON text")]
    Json,
    /// A key or a value is not one that the tables of the format have there.
    #[error("not in the shape of a program file")]
    Shape,
    /// It is too long, or something in it is past a limit.
    #[error("past a limit")]
    Limit,
    /// A name is not known where it stands.
    #[error("a name is not known")]
    Name,
    /// Something is there twice.
    #[error("something is there twice")]
    Twice,
    /// A link without delay leads back, in a file of version 1.
    #[error("a link without delay leads back")]
    Backward,
    /// No order of the reactions is admissible, in a file of version 2 or 3.
    #[error("reactions wait for each other")]
    Causality,
    /// A body reads or writes what its reaction does not name.
    #[error("a body uses what its reaction does not declare")]
    Undeclared,
    /// A growth was refused.
    #[error("out of memory")]
    Memory,
}

impl LoadError {
    ghost use Rattle.std.specs.Prelude.{◌≡◌};
    ghost use Rattle.warp_prog.specs.Refusal.{number_of};

    /// Its number, 1 to 8: 6 for the two faults of order, which no version has both.
    pub fn number(self) -> u8
        ensures { result ≡ number_of self }
    {
        match self {
            LoadError::Json => 1,
            LoadError::Shape => 2,
            LoadError::Limit => 3,
            LoadError::Name => 4,
            LoadError::Twice => 5,
            LoadError::Backward | LoadError::Causality => 6,
            LoadError::Undeclared => 7,
            LoadError::Memory => 8,
        }
    }
}

impl From<AllocError> for LoadError {
    ghost use Rattle.std.specs.Prelude.{◌≡◌};
    ghost use Rattle.warp_prog.specs.declared.error.LoadError.TheVariants.{Memory};

    ghost from_gives = { λ _ e. e ≡ Memory };

    fn from(_error: AllocError) -> LoadError {
        LoadError::Memory
    }
}
