//! The strict reader of HTML: the tree that a text denotes by the grammar, or the first fault of any other text.
//! `body_of` takes the body from a whole page, and `line_and_column` says in which line and column a place is. Trees
//! and their serialisation, which `htmd_nodes` has, are re-exported.
#![tactic(auto, using(std::proofs::lemmas::Grind::common_steps))]

pub mod laws;
mod lines;
mod raw_blocks;
mod reader;

pub use htmd_grammar::FaultKind;
pub use htmd_nodes::{
    Attribute, MAX_DEPTH, Name, NodeData, NodeId, Tag, Tree, TreeError, is_void, push_end_tag,
    push_start_tag, serialize,
};
pub use lines::line_and_column;
pub use raw_blocks::raw_block;
pub use reader::{ReadError, body_of, read_html};
