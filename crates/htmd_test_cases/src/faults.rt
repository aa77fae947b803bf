//! Why a line isn't a case, or has no answer.
ghost use Rattle.htmd_test_cases.specs.declared.faults.LineFault.TheVariants.{Memory};
ghost use Rattle.std.specs.Prelude.{◌≡◌};

use std::alloc::{AllocError, AllocFailed};
use thiserror::Error;

/// A line without an answer, counted from 1.
#[derive(Debug, Drop, Error)]
#[error("line {line}: {reason}")]
pub(crate) struct Fault {
    pub(crate) line: usize,
    pub(crate) reason: LineFault,
}

/// What is wrong with a line.
#[derive(Debug, Drop, Error)]
pub(crate) enum LineFault {
    #[error("no tab")]
    NoTab,
    #[error("unknown setting `{0}`")]
    UnknownSetting(String),
    #[error("a backslash before none of \\ n r t 0")]
    UnknownEscape,
    #[error("out of memory")]
    Memory,
    #[error("the run failed")]
    Run,
    #[error("a node of the outline has no place in a tree")]
    NoTree,
    #[error("the tree of the page gives other Markdown")]
    TreeDiffers,
    #[error("it gives `{0}`")]
    Wrong(String),
}

impl From<AllocError> for LineFault {
    ghost from_gives = { λ _ fault. fault ≡ Memory };

    fn from(_error: AllocError) -> LineFault {
        LineFault::Memory
    }
}

impl<T: Drop> From<AllocFailed<T>> for LineFault {
    ghost from_gives = { λ _ fault. fault ≡ Memory };

    fn from(_error: AllocFailed<T>) -> LineFault {
        LineFault::Memory
    }
}
