//! The document that a reader sees of a tree.
#![tactic(auto)]

mod anchors;
mod first_pieces;
mod inserted;
mod leadings;
mod limits;
mod pieces;
mod placing;
mod seen;
mod targets;
mod tree_document;

pub use anchors::Anchors;
pub use tree_document::OfTree;
