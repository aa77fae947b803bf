//! How a piece goes on with the one before it.
ghost use Rattle.std.specs.Prelude.{◌≡◌};
ghost use Rattle.htmd_chunks.specs.JointNames as spec;

/// How two blocks are one.
#[derive(Debug, Clone, Copy, PartialEq, Eq)]
pub enum Joint {
    /// The items of two lists are those of a tight one.
    List,
    /// The items of two lists are those of a loose one.
    LooseList,
    /// Two items are one. It comes after one of the two above.
    Item,
    /// Two quotes are one.
    Quote,
    /// The rows of two tables are those of one.
    Table,
    /// Two code blocks are one, with a line feed between them.
    Code,
    /// Two paragraphs are one, with a space between them.
    Paragraph,
}

impl Joint {
    /// What it is called.
    pub fn name(self) -> &'static str
        ensures { result.now ≡ spec.name_of self }
    {
        match self {
            Joint::List => "list",
            Joint::LooseList => "loose list",
            Joint::Item => "item",
            Joint::Quote => "quote",
            Joint::Table => "table",
            Joint::Code => "code",
            Joint::Paragraph => "paragraph",
        }
    }
}
