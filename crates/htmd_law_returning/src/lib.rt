//! The document of the page of what is read of Markdown is what was read.
#![tactic(auto)]

pub mod coming_back;
pub mod returning;
