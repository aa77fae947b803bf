//! The laws of the lenient reader, which no code calls: what holds for the tree that a page is read as. Each is the
//! contract of a function that does nothing.
#![tactic(auto)]

pub mod ends;
pub mod letters;
pub mod strict;
