//! The HTML of what a reader of CommonMark reads in Markdown is that of a tree, and any reader of HTML reads that tree
//! in it. Each law is the contract of a function that does nothing.
#![tactic(auto)]

pub mod documents;
pub mod rendering;
