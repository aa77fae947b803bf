//! How long the Markdown of a document is, and how big the document of a tree. A law is the contract of a function that
//! does nothing.
#![tactic(auto)]

pub mod bounds;
