//! What the documents of pages are like, and Markdown needn't be, and that they come back.
#![tactic(auto)]

pub mod pages;
pub mod rounds;
pub mod settled;
