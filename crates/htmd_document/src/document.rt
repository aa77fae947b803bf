//! Documents, their blocks and their inlines.

/// What a reader sees of a page, from top to bottom.
#[derive(Drop)]
pub struct Document {
    pub blocks: Vec<Block>,
}

/// A block of a document.
#[derive(Drop)]
pub enum Block {
    /// Text that flows.
    Paragraph(Vec<Inline>),
    /// A heading of level 1 to 6, in one line.
    Heading {
        level: u8,
        content: Vec<Inline>,
    },
    /// A text that keeps its lines, without a last line end, and the language that it is in.
    CodeBlock {
        language: Option<String>,
        text: String,
    },
    /// A block quote.
    Quote(Vec<Block>),
    /// A thematic break.
    ThematicBreak,
    /// Items, each of blocks. A list with a start is numbered from it, and one without has bullets. The items of a
    /// tight list have no blank lines between them.
    List {
        start: Option<u32>,
        tight: bool,
        items: Vec<ItemContent>,
    },
    /// A header and rows of cells, and how the columns are aligned. The header has one cell for each column. A row ends
    /// with its last cell that isn't empty.
    Table {
        alignments: Vec<Alignment>,
        header: RowContent,
        rows: Vec<RowContent>,
    },
    /// What an element of HTML says of the blocks in it. Only rich documents have these.
    Element {
        name: BlockElement,
        attributes: Vec<BlockAttribute>,
        content: Vec<Block>,
    },
}

/// An element of HTML that can be around blocks.
#[derive(Debug, Clone, Copy, PartialEq, Eq)]
pub enum BlockElement {
    /// `details`
    Details,
    /// `summary`
    Summary,
    /// `dl`
    Terms,
    /// `dt`
    Term,
    /// `dd`
    Meaning,
    /// `figure`
    Figure,
    /// `figcaption`
    FigureCaption,
    /// `table`
    Table,
    /// `caption`
    Caption,
    /// `tr`
    Row,
    /// `td`
    Cell,
    /// `th`
    HeaderCell,
}

/// An attribute of an element, and its value.
#[derive(Drop)]
pub struct BlockAttribute {
    pub name: AttributeName,
    pub value: String,
}

/// A name of an attribute, in the order in which an element has them.
#[derive(Debug, Clone, Copy, PartialEq, Eq)]
pub enum AttributeName {
    /// `open`
    Open,
    /// `border`
    Border,
    /// `colspan`
    ColumnSpan,
    /// `rowspan`
    RowSpan,
    /// `align`
    Align,
}

/// What is in an item of a list.
pub type ItemContent = Vec<Block>;

/// What is in a cell of a table.
pub type CellContent = Vec<Inline>;

/// What is in the cells of a row of a table.
pub type RowContent = Vec<CellContent>;

/// A part of a line of text.
#[derive(Drop)]
pub enum Inline {
    Text(String),
    Code(String),
    Formatted(Format, Vec<Inline>),
    /// What an element of HTML says of its content.
    Element(InlineElement, Vec<Inline>),
    /// What a shorter form stands for is the title.
    Abbreviation {
        title: String,
        content: Vec<Inline>,
    },
    /// A place that links with `#` and this id lead to.
    Anchor(String),
    Link {
        address: String,
        title: Option<String>,
        content: Vec<Inline>,
    },
    /// An image; the description stands in its place where it isn't shown.
    Image {
        address: String,
        title: Option<String>,
        description: String,
    },
    LineBreak,
    /// The box at the beginning of a task, and whether it is checked.
    Task(bool),
}

/// What can be around inlines and has marks in Markdown.
#[derive(Debug, Clone, Copy, PartialEq, Eq)]
pub enum Format {
    Emphasis,
    Strong,
    Deleted,
}

/// What can be around inlines and has no marks in Markdown: an element of HTML. Only rich documents have others than
/// the first two.
#[derive(Debug, Clone, Copy, PartialEq, Eq)]
pub enum InlineElement {
    /// `sup`
    Superscript,
    /// `sub`
    Subscript,
    /// `ins`
    Inserted,
    /// `u`
    Underlined,
    /// `mark`
    Marked,
    /// `small`
    Small,
    /// `kbd`
    Keyboard,
}

/// How the cells of a column are aligned.
#[derive(Debug, Clone, Copy, PartialEq, Eq)]
pub enum Alignment {
    None,
    Left,
    Center,
    Right,
}
