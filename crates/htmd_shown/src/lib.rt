//! What shows of a page: a simpler tree, of which its document is made.
#![tactic(auto)]

pub mod attributes;
mod below;
mod classes;
mod embedded;
mod facts;
mod formula;
pub mod image_source;
mod page;
mod repeats;
pub mod role;
mod role_at;
pub mod showing;
pub mod shown_text;
mod sight;
mod sign;
pub mod simple;
pub mod spaces;
pub mod texts;

pub use classes::is_of_wiki;
pub use facts::Facts;
pub use role::{Role, is_among, role_of};
pub use sight::shown;
pub use sign::is_usual_sign;
pub use simple::{
    Embedded, Simple, are_blank, content_of, has_header, has_table, is_blank, is_caption, is_cell,
    is_figure_caption, is_head, is_header_cell, is_image, is_item, is_meaning, is_paragraph,
    is_part, is_row, is_row_or_part, is_summary, is_term, is_text, is_title, role_in,
};
pub use texts::{all_text, with_line_feeds, without_last_line_feed};
