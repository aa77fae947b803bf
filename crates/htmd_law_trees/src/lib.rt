//! The laws of trees that no code calls: of what a text denotes, and of the Markdown of a tree. Each is the contract of
//! a function that does nothing; so are those of a run of the program.
#![tactic(auto)]

pub mod conversion;
pub mod grammar;
pub mod program_runs;
