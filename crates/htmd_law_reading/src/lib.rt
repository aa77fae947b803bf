//! What a reader of CommonMark sees of the Markdown of a document is the document. Each law is the contract of a
//! function that does nothing.
#![tactic(auto)]

pub mod reading;
