//! The law of anchors: where the links of a document to a part of its page lead. Each law is the contract of a function
//! that does nothing.
#![tactic(auto)]

pub mod anchors;
