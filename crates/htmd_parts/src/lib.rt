//! What is read of Markdown as a flat list of parts, and the HTML of that, as the specifications of CommonMark and of
//! GitHub write it.
#![tactic(auto)]

mod html;
mod parts;
mod tags;
mod texts;

pub use html::to_html;
pub use parts::{Part, Tag, TagEnd};
