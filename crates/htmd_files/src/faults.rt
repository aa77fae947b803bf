//! Why there is no job, or no plan.
ghost use Rattle.std.specs.Prelude.{◌≡◌};
ghost use Rattle.htmd_files.specs.declared.faults.PlanFault.TheVariants.{Memory};

use std::alloc::{AllocError, AllocFailed};
use thiserror::Error;

/// Why the words of a command line are no job.
#[derive(Debug, PartialEq, Eq, Clone, Copy, Drop, Error)]
pub enum WordFault<'a> {
    /// Out of memory.
    #[error("out of memory")]
    Memory,
    /// No value follows the option, or the empty one.
    #[error("{word} needs the name of a file or a folder")]
    NoValue { word: &'a str },
    /// The option is given a second time.
    #[error("there are two outputs, {first} and {second}")]
    Twice { first: &'a str, second: &'a str },
    /// Where addresses of pages lead is told by another value, or none.
    #[error("'{word}': the values of --links are md and text")]
    Links { word: &'a str },
    /// The option counts only for outputs, and none is named.
    #[error("{option} needs -o")]
    NeedsOutput { option: &'a str },
    /// The option says where links lead, and the HTML of Markdown is written, in which they stay as they are.
    #[error("{option} has no effect with --html, which keeps links as they are")]
    LinksStay { option: &'a str },
}

/// Why operands and a listing of them are no plan.
#[derive(Debug, PartialEq, Eq, Drop, Error)]
pub enum PlanFault {
    /// Out of memory.
    #[error("out of memory")]
    Memory,
    /// Only one file can be written to standard output.
    #[error("{first} and {second} are several inputs, which need -o with a folder")]
    Several {
        first: String,
        second: String,
    },
    /// A folder can't be written to standard output.
    #[error("{folder} is a folder, which needs -o with a folder")]
    Folder {
        folder: String,
    },
    /// An input has no name that its output in a folder could have.
    #[error("{input} has no name for a file in a folder: give -o with a file")]
    NoName {
        input: String,
    },
    /// An output is not below the folder.
    #[error("{input} would be written to {output}, which is outside {folder}")]
    Outside {
        input: String,
        output: String,
        folder: String,
    },
    /// Two inputs have one output.
    #[error("{first} and {second} would both be written to {output}")]
    Shared {
        first: String,
        second: String,
        output: String,
    },
    /// An output is an input.
    #[error("{output} would be written over the input {input}")]
    Overwritten {
        input: String,
        output: String,
    },
}

impl From<AllocError> for PlanFault {
    ghost from_gives = { λ _ fault. fault ≡ Memory };

    fn from(_error: AllocError) -> PlanFault {
        PlanFault::Memory
    }
}

impl<T: Drop> From<AllocFailed<T>> for PlanFault {
    ghost from_gives = { λ _ fault. fault ≡ Memory };

    fn from(_error: AllocFailed<T>) -> PlanFault {
        PlanFault::Memory
    }
}
