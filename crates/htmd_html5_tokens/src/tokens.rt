//! The tokens of a page.
use htmd_lexical::Attribute;
use std::borrow::CowStr;

/// A start tag or end tag. Of attributes with one name it has only the first. Its name is borrowed if the text has it
/// in lower case.
#[derive(Debug, PartialEq, Eq, Drop)]
pub struct Tag<'a> {
    pub name: CowStr<'a>,
    pub attributes: Vec<Attribute>,
    pub self_closing: bool,
}

/// What a page is made of.
#[derive(Debug, PartialEq, Eq, Drop)]
pub enum Token<'a> {
    StartTag(Tag<'a>),
    EndTag(Tag<'a>),
    Text(String),
    Comment(String),
    Doctype { quirks: bool },
    EndOfFile,
}
