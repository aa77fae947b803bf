//! The texts of the converter: escapes, white space, texts put together and cut, names of block elements and the
//! beginnings of list items. A text is UTF-8, a place in it counts bytes, and each answer is a definition of `specs/`
//! on the bytes of the text that is handed in.
#![tactic(auto, using(std::proofs::lemmas::Grind::common_steps))]

mod blank_lines;
mod blocks;
mod escape;
mod indent;
mod join;
mod list_markers;
mod numbers;
pub mod repeats;
mod repetition;
mod trim;
mod white_space;

pub use self::blank_lines::{surround_with_blank_lines, with_blank_lines};
pub use self::blocks::is_block_element;
pub use self::escape::{escape_html, escape_if_needed, escape_pre_text_if_needed};
pub use self::indent::{indent_text_except_first_line, push_indented};
pub use self::join::{JoinOnStringIterator, concat, join_blocks};
pub use self::list_markers::{index_of_markdown_ordered_item_dot, is_markdown_atx_heading};
pub use self::numbers::digits;
pub use self::repetition::push_repeated;
pub use self::trim::{
    StripWhitespace, TrimDocumentWhitespace, trim_end_document_white_space, trim_end_line_feeds,
    trim_end_spaces, trim_newlines,
};
pub use self::white_space::{compress_whitespace, is_squeezed, push_squeezed};
