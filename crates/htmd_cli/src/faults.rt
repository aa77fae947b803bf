//! What can go wrong in a run.
ghost use Rattle.std.specs.Prelude.{◌≡◌};
ghost use Rattle.htmd.specs.declared.page_error.PageError.TheVariants.{Memory as NoMemory};
ghost use Rattle.htmd_cli.specs.declared.faults.RunError.TheVariants.{Memory};
ghost use Rattle.htmd_cli.specs.declared.faults.StreamError.TheVariants.{Page};
ghost use Rattle.htmd_cli.specs.Failures.{run_error, stream_error};

use htmd::{ConvertError, FaultKind, PageError};
use std::alloc::AllocError;
use thiserror::Error;

/// Why a run by a mode did not succeed.
#[derive(Debug, PartialEq, Eq, Drop, Error)]
pub enum RunError {
    /// The input is HTML outside the grammar: the byte place of its first fault, and the fault's kind.
    #[error("refused at byte {place}: {kind}")]
    Refused { place: usize, kind: FaultKind },
    /// The input is not UTF-8.
    #[error("not UTF-8")]
    NotUtf8,
    /// Out of memory.
    #[error("out of memory")]
    Memory,
    /// The source failed.
    #[error("read failed")]
    Read,
    /// The sink failed.
    #[error("write failed")]
    Write,
}

/// Why the page that a source gives was not converted into a sink.
#[derive(Debug, PartialEq, Eq, Drop, Error)]
pub enum StreamError {
    /// The page was not converted.
    #[error(transparent)]
    Page(PageError),
    /// The source failed.
    #[error("read failed")]
    Read,
    /// The sink failed.
    #[error("write failed")]
    Write,
}

/// Why a batch did not succeed, and the number of the row at which it ended, from 1.
#[derive(Debug, PartialEq, Eq, Drop, Error)]
#[error("row {row}: {error}")]
pub struct RowFault {
    pub row: u64,
    pub error: RunError,
}

impl From<AllocError> for RunError {
    ghost from_gives = { λ _ error. error ≡ Memory };

    fn from(_error: AllocError) -> RunError {
        RunError::Memory
    }
}

impl From<ConvertError> for RunError {
    ghost from_gives = { λ e error. error ≡ run_error e };

    fn from(e: ConvertError) -> RunError {
        match e {
            ConvertError::Refused { place, kind } => RunError::Refused { place, kind },
            ConvertError::Memory => RunError::Memory,
        }
    }
}

impl From<PageError> for StreamError {
    ghost from_gives = { λ e error. error ≡ Page e };

    fn from(e: PageError) -> StreamError {
        StreamError::Page(e)
    }
}

impl From<AllocError> for StreamError {
    ghost from_gives = { λ _ error. error ≡ Page NoMemory };

    fn from(_error: AllocError) -> StreamError {
        StreamError::Page(PageError::Memory)
    }
}

impl From<RunError> for StreamError {
    ghost from_gives = { λ e error. error ≡ stream_error e };

    fn from(e: RunError) -> StreamError {
        match e {
            RunError::Refused { place, kind } => {
                StreamError::Page(PageError::Refused { place, kind })
            }
            RunError::NotUtf8 => StreamError::Page(PageError::NotUtf8),
            RunError::Memory => StreamError::Page(PageError::Memory),
            RunError::Read => StreamError::Read,
            RunError::Write => StreamError::Write,
        }
    }
}
