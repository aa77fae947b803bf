//! The Markdown of a document, which a reader of CommonMark reads back as that document.
#![tactic(auto)]

mod address;
mod blocks;
mod character_kind;
mod code_span;
mod columns;
mod fence;
mod inline_ends;
mod inlines;
mod line;
mod line_mark;
mod lines;
mod markers;
mod marks;
mod options;
mod parts;
mod reference;
mod table;
mod text_escape;

pub use blocks::{blocks_to_markdown, to_markdown};
pub use character_kind::{first_character, is_space, last_character};
pub use columns::width_of;
pub use options::DocumentOptions;
pub use parts::{cell_text, paragraph_text};
