//! What the simpler tree gives: blocks and inlines, in order.
#![tactic(auto)]

mod around;
mod blocks;
mod descriptions;
mod flow;
mod grid;
mod items;
mod language;
mod leaves;
mod list;
mod nest;
mod node;
mod paragraphs;
mod place;
mod table_element;
mod table_form;
mod table_pieces;
mod terms;
mod titles;

pub use flow::{document_of, is_grid};
