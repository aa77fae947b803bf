//! How the text after a start tag is read.

/// An element that holds only text.
#[derive(Debug, Clone, Copy, PartialEq, Eq)]
pub enum RawElement {
    Title,
    Textarea,
    Style,
    Xmp,
    Iframe,
    Noembed,
    Noframes,
    Noscript,
    Script,
    Plaintext,
}

/// What is being read: pieces of all kinds, or the text of such an element and its end tag.
#[derive(Debug, Clone, Copy, PartialEq, Eq)]
pub enum ContentModel {
    Normal,
    Raw(RawElement),
}
