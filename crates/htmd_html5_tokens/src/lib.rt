//! The tokens of any page, by the HTML Standard (13.2.5): its preprocessing, tags, texts with references, comments,
//! doctypes and raw texts. Every text has tokens, and no text is refused; only memory may run out.
#![tactic(auto, using(std::proofs::lemmas::Grind::common_steps))]

mod attributes;
mod classes;
mod comments;
mod contents;
mod distinct;
mod doctypes;
mod markup;
mod names;
mod preprocessing;
mod raw_texts;
mod references;
mod sections;
mod tags;
mod tokenizer;
mod tokens;

pub use htmd_lexical::{ContentModel, RawElement};
pub use names::named;
pub use preprocessing::preprocess;
pub use tokenizer::Tokenizer;
pub use tokens::{Tag, Token};
