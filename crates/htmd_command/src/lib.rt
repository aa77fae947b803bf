//! The program as one function: its words, the files of a store, its standard streams, and its status.
#![tactic(auto)]

mod leads;
mod program;
mod requested;

pub use htmd_cli::{Failed, Input, Output, RunError, Sink, Source};
pub use htmd_folders::{HostStore, Listing, Store, StoreFault, Unread};
pub use program::run_program;
