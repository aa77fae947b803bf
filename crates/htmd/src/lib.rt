//! Markdown of HTML. The grammar of `htmd_grammar` says which texts are HTML and what tree each denotes; the definition
//! `markdown` of `htmd_walk` says what a tree becomes. `convert` refuses every other text, and gives:
//!
//! ```text
//! let markdown = convert(alloc, "<h1>Hello, <i>world</i></h1>")?;
//! ```
//!
//! answers `# Hello, *world*`. `HtmlToMarkdown` has options, skipped tags and handlers of your own, and reads any page
//! as browsers do; its `tree_to_markdown` converts trees that are built by calls. Its `document` is what a reader sees
//! of a page, and `to_markdown` writes that so that a reader of CommonMark reads it back.
#![tactic(auto)]

mod convert_error;
mod converter;
mod documents;
mod markdown_documents;
mod page_changes;
mod page_converter;
mod page_error;
mod page_output;
mod page_settings;
pub mod page_values;
mod paragraph;
mod skipped_tags;

/// Markdown that is read as a list of parts, and the HTML of such a list.
pub mod parts {
    pub use htmd_commonmark_reader::read_markdown;
    pub use htmd_parts::{Part, Tag, TagEnd, to_html};
}

/// The writers of pieces that read back: what they promise of a piece holds for what a handler writes.
pub mod laws {
    pub use htmd_markdown::{write_fence, write_row, write_span, write_table};
}

pub use convert_error::ConvertError;
pub use converter::{
    AddFnRefused, AddRefused, HtmlToMarkdown, HtmlToMarkdownBuilder, SkipRefused, convert,
};
pub use documents::document_options;
pub use htmd_addresses::{Page, Pages, RunPage};
pub use htmd_article::{Article, Chosen};
pub use htmd_commonmark::{DocumentOptions, to_markdown};
pub use htmd_commonmark_reader::markdown_to_html;
pub use htmd_document::{
    Alignment, AttributeName, Block, BlockAttribute, BlockElement, CellContent, Document, Format,
    Inline, InlineElement, ItemContent, RowContent,
};
pub use htmd_document_of_tree::{Anchors, OfTree};
pub use htmd_encodings::{Encoding, encoding_named};
pub use htmd_nodes::{Attribute, Name, NodeData, NodeId, Tag, Tree, TreeError};
pub use htmd_selectors::{SelectorError, Selectors, parse_selectors};
pub use htmd_tree::{FaultKind, ReadError, body_of, line_and_column};
pub use htmd_trimming::Images;
pub use htmd_walk::element_handler::Element;
pub use htmd_walk::{element_handler, options};
pub use markdown_documents::OfMarkdown;
pub use page_converter::{PageConverter, convert_page, main_content};
pub use page_error::PageError;
pub use page_settings::{PageInRun, PageSettings};
pub use paragraph::paragraph_of;
