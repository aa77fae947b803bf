//! The laws of documents: what the document of a tree keeps. Each is the contract of a function that does nothing.
#![tactic(auto)]

pub mod normal;
pub mod texts;
pub mod wrappers;
