//! Runs a plan of pages over a store of files: each page is read from its input, and what it becomes is written beside
//! its output and brought there by one renaming, so that nothing half written is ever under an output's name.
//!
//! `Store` is the files, `HostStore` those of the operating system, and `Conversion` what pages become.
//! `convert_to_file`
//! takes one page and `run_pages` all of a plan, each after the other whether it failed or not.
#![tactic(auto)]

mod conversion;
mod copies;
mod faults;
mod host;
mod lines;
mod listing;
mod memory;
mod operands;
mod page;
mod plans;
mod progress;
mod run;
mod store;
mod streams;
mod walk;

pub use conversion::Conversion;
pub use faults::{CopyFault, PageFault, StoreFault, Unopened};
pub use host::HostStore;
pub use lines::{Lines, ShownName};
pub use listing::{Listing, Unread};
pub use memory::MemoryStore;
pub use operands::{Cause, Missed};
pub use page::convert_to_file;
pub use plans::find_plan;
pub use progress::{Progress, write_total};
pub use run::{RunOptions, Tally, run_pages};
pub use store::Store;
pub use streams::MemoryWriter;
