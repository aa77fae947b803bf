//! What is read of Markdown as a flat list of parts.
use htmd_document::{Alignment, Format};

/// A part of what is read. What begins ends too, before what is around it.
#[derive(Drop)]
pub enum Part {
    Start(Tag),
    End(TagEnd),
    Text(String),
    /// A code span.
    Code(String),
    /// A tag, a comment or the like in a line.
    Html(String),
    /// A hard line break.
    LineBreak,
    /// The box at the beginning of a task, and whether it is checked.
    Task(bool),
    /// A text that keeps its lines, without a last line end, and the language that it is in.
    CodeBlock {
        language: Option<String>,
        text: String,
    },
    /// Lines of HTML, without a last line end.
    HtmlBlock(String),
    ThematicBreak,
}

/// What begins.
#[derive(Drop)]
pub enum Tag {
    /// In a tight list a paragraph has no tags in HTML.
    Paragraph {
        tight: bool,
    },
    /// A heading of level 1 to 6.
    Heading(u8),
    Quote,
    /// A list with a start is numbered from it, and one without has bullets.
    List {
        start: Option<u32>,
        tight: bool,
    },
    Item,
    Table,
    /// The row of the header is in it.
    Head,
    /// The rows below the header are in it, if there are any.
    Body,
    Row,
    HeaderCell(Alignment),
    Cell(Alignment),
    Formatted(Format),
    Link {
        address: String,
        title: Option<String>,
    },
    /// An image; the text of what is in it stands in its place where it isn't shown.
    Image {
        address: String,
    },
}

/// What ends.
#[derive(Drop)]
pub enum TagEnd {
    Paragraph { tight: bool },
    Heading(u8),
    Quote,
    List { numbered: bool },
    Item,
    Table,
    Head,
    Body,
    Row,
    HeaderCell,
    Cell,
    Formatted(Format),
    Link,
    /// The title of an image comes at its end, as in HTML.
    Image { title: Option<String> },
}
