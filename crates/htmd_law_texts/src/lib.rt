//! What is written of a document's texts are lines of texts and nothing else to a reader of CommonMark
//! (`htmd_commonmark_reading`), and so its blocks are read back. Each law is the contract of a function that does
//! nothing.
#![tactic(auto)]

pub mod texts;
