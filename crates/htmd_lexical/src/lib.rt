//! Characters, names and the lexical words of HTML: what all readers know of a text before they read it by a grammar.
#![tactic(auto)]

mod attribute;
mod content_model;

pub use attribute::Attribute;
pub use content_model::{ContentModel, RawElement};
