//! Trees of HTML nodes. A tree is its nodes in order of addition; a node denotes a value tree and a list of ancestors,
//! and nodes are only added, each as the last child of its parent. A node is written as HTML by the serialisation of
//! its value tree, and as a block of raw HTML, in which references stand for the line ends that would make blank lines.
#![tactic(auto, using(std::proofs::lemmas::Grind::common_steps))]

mod attributes;
mod frequent_tags;
pub mod laws;
mod levels;
mod names;
mod serialiser;
mod tag;
mod tree;

pub use attributes::value_of;
pub use htmd_lexical::Attribute;
pub use names::Name;
pub use serialiser::{is_void, push_end_tag, push_start_tag, raw_block, serialize};
pub use tag::Tag;
pub use tree::{MAX_DEPTH, NodeData, NodeId, Tree, TreeError, number_of};
