//! Which texts of a page are in its document. Each law is the contract of a function that does nothing, and all three
//! are that of the call which makes the document of a page.
#![tactic(auto)]

pub mod texts;
