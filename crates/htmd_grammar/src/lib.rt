//! The strict grammar of HTML: which texts it has, what tree each denotes, what the first fault of any other text is,
//! and the laws of these definitions that a reader calls.
#![tactic(auto)]

mod fault;
pub mod laws;

pub use fault::FaultKind;
