//! Why a text of HTML was not converted.

ghost use Rattle.std.specs.Prelude.{◌≡◌};
ghost use Rattle.htmd.specs.Conversions.{conversion_error};
ghost use Rattle.htmd.specs.declared.convert_error.ConvertError.TheVariants.{Memory};

use htmd_tree::{FaultKind, ReadError};
use std::alloc::{AllocError, AllocFailed};
use thiserror::Error;

/// Why a text of HTML was not converted.
#[derive(Debug, PartialEq, Eq, Drop, Error)]
pub enum ConvertError {
    /// The text is outside the grammar: the byte place of its first fault, and the fault's kind.
    #[error("refused at byte {place}: {kind}")]
    Refused { place: usize, kind: FaultKind },
    /// Out of memory.
    #[error("out of memory")]
    Memory,
}

impl From<ReadError> for ConvertError {
    ghost from_gives = { λ e error. error ≡ conversion_error e };

    fn from(e: ReadError) -> ConvertError {
        match e {
            ReadError::Refused { place, kind } => ConvertError::Refused { place, kind },
            ReadError::Memory => ConvertError::Memory,
        }
    }
}

impl From<AllocError> for ConvertError {
    ghost from_gives = { λ _ error. error ≡ Memory };

    fn from(_e: AllocError) -> ConvertError {
        ConvertError::Memory
    }
}

impl<T: Drop> From<AllocFailed<T>> for ConvertError {
    ghost from_gives = { λ _ error. error ≡ Memory };

    fn from(_e: AllocFailed<T>) -> ConvertError {
        ConvertError::Memory
    }
}
