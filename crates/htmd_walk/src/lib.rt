//! The walk over a tree, and the handlers: which handlers an element has, what they give, and how that is put together.
//! What a tree becomes is defined over value trees and lists of ancestors (`specs/Rendering.antt`,
//! `specs/Markdown.antt`); `tree_to_markdown` gives it. `htmd` is built on it, with a converter that reads HTML too.
#![tactic(auto)]

mod block_tags;
mod dom_walker;
pub mod element_handler;
mod group;
mod node_util;
pub mod options;
mod seam;
mod spare_texts;
mod text_node;

pub use dom_walker::tree_to_markdown;
