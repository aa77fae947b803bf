//! Why a page was not converted.

ghost use Rattle.std.specs.Prelude.{◌≡◌};
ghost use Rattle.htmd.specs.PageFailures.{conversion_fault};
ghost use Rattle.htmd.specs.declared.page_error.PageError.TheVariants.{Memory};

use crate::convert_error::ConvertError;
use htmd_tree::FaultKind;
use std::alloc::AllocError;
use thiserror::Error;

/// Why a page was not converted by settings.
#[derive(Debug, PartialEq, Eq, Drop, Error)]
pub enum PageError {
    /// The page is HTML outside the grammar: the byte place of its first fault, and the fault's kind.
    #[error("refused at byte {place}: {kind}")]
    Refused { place: usize, kind: FaultKind },
    /// The bytes are not UTF-8.
    #[error("not UTF-8")]
    NotUtf8,
    /// No element of the page is selected.
    #[error("no element of the page is selected by --select")]
    NothingSelected,
    /// Out of memory.
    #[error("out of memory")]
    Memory,
}

impl From<AllocError> for PageError {
    ghost from_gives = { λ _ error. error ≡ Memory };

    fn from(_error: AllocError) -> PageError {
        PageError::Memory
    }
}

impl From<ConvertError> for PageError {
    ghost from_gives = { λ e error. error ≡ conversion_fault e };

    fn from(e: ConvertError) -> PageError {
        match e {
            ConvertError::Refused { place, kind } => PageError::Refused { place, kind },
            ConvertError::Memory => PageError::Memory,
        }
    }
}
