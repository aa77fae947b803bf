//! Parts of a page: the elements that a selector names, or the page without them, as functions from trees to trees; and
//! a page with other attributes. A selector is read from a text, by the syntax of Selectors Level 4, and matched by its
//! rules.
#![tactic(auto)]

mod caseless_names;
mod copying;
mod matching;
mod reader;
mod selection;
mod selectors;
mod series;
mod signs;
mod types;

pub use copying::{Rewrite, rewritten};
pub use reader::parse_selectors;
pub use selection::{drop_elements, select_elements};
pub use selectors::{SelectorError, Selectors};
