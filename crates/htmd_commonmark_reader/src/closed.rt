//! What is closed, as a flat list: of a container its beginning, its content and its end (CommonMark 0.31.2, appendix,
//! phase 1).
use htmd_document::Alignment;

/// A container: a block quote, or a list item with its marker's sign, its number if it has one, and the columns before
/// its content.
#[derive(Clone, Copy, Drop)]
pub(crate) enum Container {
    Quote,
    Item {
        sign: u8,
        number: Option<u32>,
        columns: usize,
    },
}

/// A leaf that is closed; texts and cells are raw.
#[derive(Drop)]
pub(crate) enum ClosedLeaf {
    Text(String),
    Heading {
        level: u8,
        text: String,
    },
    Code {
        language: Option<String>,
        text: String,
    },
    Rule,
    Html(String),
    Table {
        alignments: Vec<Alignment>,
        header: Vec<String>,
        rows: Vec<Vec<String>>,
    },
}

/// A part of what is closed; the gap: a blank line stands before it.
#[derive(Drop)]
pub(crate) enum Closed {
    Begin { gap: bool, kind: Container },
    End,
    /// A link reference definition, which stands in a list of its own.
    Definition { gap: bool },
    Leaf { gap: bool, leaf: ClosedLeaf },
}
