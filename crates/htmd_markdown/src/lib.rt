//! The pieces of Markdown: each has a writer here, a definition in `specs/`, and if the piece is read back, a
//! definition of its reader that shares nothing with the writer.
#![tactic(auto)]

mod address;
mod code_block;
mod code_span;
mod emphasis;
mod fence;
mod heading;
mod indented_code;
mod line_break;
mod link;
mod list;
mod quote;
mod runs;
mod table;
mod thematic_break;
mod title;

pub use self::code_span::{smallest_unused_len, write_span};
pub use self::emphasis::{Emphasis, write_emphasis};
pub use self::fence::{CodeBlockFence, push_between_fences, write_fence};
pub use self::heading::{HeadingStyle, write_heading};
pub use self::indented_code::write_indented_code;
pub use self::line_break::{BrStyle, write_line_break};
pub use self::link::{
    LinkReferenceStyle, LinkStyle, write_autolink, write_definition, write_image,
    write_inline_link, write_reference,
};
pub use self::list::{
    BulletListMarker, ListBlock, aligned_spaces, first_number, write_bullet_item, write_list_block,
    write_ordered_list, write_unnumbered_item,
};
pub use self::quote::write_quote;
pub use self::table::{write_row, write_table};
pub use self::thematic_break::{HrStyle, write_thematic_break};
