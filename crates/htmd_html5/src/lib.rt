//! Any page as browsers read it: the parsing of the HTML Standard (13.2). No text is refused, and each tree has at most
//! 1,024 levels.
#![tactic(auto)]

mod after_body;
mod after_head;
mod before_head;
mod before_html;
mod body_ends;
mod body_starts;
mod feeding;
mod foreign_content;
mod in_body;
mod in_caption;
mod in_cell;
mod in_column_group;
mod in_frameset;
mod in_head;
mod in_head_noscript;
mod in_row;
mod in_select;
mod in_table;
mod in_table_body;
mod in_template;
mod initial;
mod layout;
mod modes;
mod processing;
mod reader;
mod shared_rules;
mod texts;
mod tokens;

pub use reader::parse_html5;
