//! The laws of the Markdown of documents: a reader of CommonMark (`htmd_commonmark_reading`) reads the blocks of a
//! document back. Each is the contract of a function that does nothing.
#![tactic(auto)]

pub mod blocks;
