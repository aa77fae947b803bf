//! Documents: the blocks and inlines that a reader sees, their normal form, and their form in JSON. Whoever wants
//! another document changes the value.
#![tactic(auto)]

mod document;
mod flat;
mod mdast;
mod tags;

pub use document::{
    Alignment, AttributeName, Block, BlockAttribute, BlockElement, CellContent, Document, Format,
    Inline, InlineElement, ItemContent, RowContent,
};
pub use flat::{FlatBlock, flattened, text_in_line};
pub use tags::{
    END_OF_ABBREVIATION, END_OF_ANCHOR, end_of_inline, inline_tag, push_abbreviation, push_anchor,
};
