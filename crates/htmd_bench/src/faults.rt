//! Why a run has no figures.

use htmd::ConvertError;
use htmd_cli::RowFault;
use htmd_tree::ReadError;
use std::alloc::AllocError;
use std::io;
use std::num::ParseIntError;
use thiserror::Error;

/// What stopped a run.
#[derive(Debug, Drop, Error)]
pub(crate) enum Fault {
    #[error("out of memory")]
    Memory(#[from] AllocError),
    #[error("{0}")]
    Io(#[from] io::Error),
    #[error("{0}")]
    Read(#[from] ReadError),
    #[error("{0}")]
    Convert(#[from] ConvertError),
    #[error("{0}")]
    Rows(#[from] RowFault),
    #[error("a number of registrations: {0}")]
    Registrations(#[from] ParseIntError),
}
