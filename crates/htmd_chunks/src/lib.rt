//! A document cut into pieces of at most so many bytes of Markdown, each with the headings that it is under. Pieces are
//! documents: joined in order, those of a normal document are that document.
#![tactic(auto)]

mod bounds;
mod code_lines;
mod copies;
mod cut;
mod cut_list;
mod filling;
mod joint;
mod json_lines;
mod kinds;
pub mod laws;
mod least;
mod list_filling;
mod measures;
mod numbers;
mod pieces;
mod rows;
mod sections;
mod size;
mod units;
mod words;

pub use joint::Joint;
pub use json_lines::to_json_lines;
pub use pieces::{Piece, chunks};
