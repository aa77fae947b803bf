//! The main content of a page: what the page says itself (`main`, the body of an article, an article), else by where
//! most of its prose is; without the page's frame, and without the links of headings to themselves.
#![tactic(auto)]

mod choices;
mod density;
mod facts;
mod frame;
mod letters;
mod main_content;
mod names;
mod outermost;
mod parts;
mod sayings;
mod top_links;
mod writing;

pub use choices::Chosen;
pub use main_content::{Article, article_of};
