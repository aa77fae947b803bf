//! Open leaves and the lines that they take (CommonMark 0.31.2, 4.4 to 4.6 and 4.8; GFM 0.29, 4.10).
ghost use Rattle.std.specs.Prelude.{◌≡◌, ◌∷◌, ◌++◌, ℕ, [], List, IfOk, OnOk, string_bytes};
ghost use Rattle.htmd_document.specs.declared.document.Alignment as alignment;
ghost use Rattle.htmd_commonmark_reading.specs.Boxes.{joined_lines, in_paragraph, Open};
ghost use Rattle.htmd_commonmark_reading.specs.Characters.{past_blanks};
ghost use Rattle.htmd_commonmark_reading.specs.Containers.{is_nothing};
ghost use Rattle.htmd_commonmark_reading.specs.LeafBlocks as spec;
ghost use Rattle.htmd_commonmark_reader.specs.LineViews.{line_of, IsLine};
ghost use Rattle.htmd_commonmark_reader.specs.OpenLeaves.{IsParagraph, IsIndented, IsFenced, IsGrid, IsLeaf};

use crate::block_starts::Fence;
use crate::html_blocks::HtmlEnd;
use crate::leaf_rows::Rows;
use crate::leaf_texts::language;
use crate::lines::Line;
use crate::tables::{cell_count, fitted_cells};
use htmd_document::Alignment;
use std::alloc::{AllocError, Global};

/// A paragraph: its last line may be the header of a table.
#[derive(Drop)]
pub(crate) struct Paragraph<'a> {
    pub(crate) earlier: Rows,
    pub(crate) last: &'a str,
}

impl<'a> Paragraph<'a> {
    pub(crate) fn new(alloc: Global, line: Line<'a>) -> Paragraph<'a>
        requires { IsLine line }
        ensures { IsParagraph [] (past_blanks (line_of line.entry).text) result }
    {
        Paragraph {
            earlier: Rows::new(alloc),
            last: line.content,
        }
    }

    /// Takes one more line.
    pub(crate) fn push(&mut self, line: Line<'a>) -> Result<(), AllocError>
        requires { IsLine line }
        ensures { OnOk result ((ls : List (List ℕ)) (s : List ℕ) → IsParagraph ls s self.old
            → IsParagraph (ls ++ (s ∷ [])) (past_blanks (line_of line.entry).text) self.new) }
    {
        self.earlier.push_text(self.last)?;
        self.last = line.content;
        Ok(())
    }

    /// Its lines as one text.
    pub(crate) fn text(&self, alloc: Global) -> Result<String, AllocError>
        ensures { IfOk result (λ t. (ls : List (List ℕ)) (s : List ℕ) → IsParagraph ls s self.now
            → string_bytes t ≡ joined_lines (ls ++ (s ∷ []))) }
    {
        let mut whole = self.earlier.copied(alloc)?;
        whole.push_text(self.last)?;
        Ok(whole.text)
    }

    /// Whether the last line is the header of a table with this delimiter row.
    pub(crate) fn is_header(&self, alignments: &[Alignment]) -> bool
        ensures { result ≡ spec.is_header self.now.last.now alignments.now }
    {
        !alignments.is_empty() && cell_count(self.last) == alignments.len()
    }
}

/// Indented code, without the blank lines at its end, and those.
#[derive(Drop)]
pub(crate) struct IndentedCode {
    pub(crate) rows: Rows,
    pub(crate) blanks: Rows,
}

impl IndentedCode {
    pub(crate) fn new(alloc: Global) -> IndentedCode
        ensures { IsIndented [] result }
    {
        IndentedCode {
            rows: Rows::new(alloc),
            blanks: Rows::new(alloc),
        }
    }

    /// Takes one more line.
    pub(crate) fn push(&mut self, line: Line<'_>) -> Result<(), AllocError>
        requires { IsLine line }
        ensures { OnOk result ((ls : List (List ℕ)) → IsIndented ls self.old
            → IsIndented (ls ++ ((line_of line.entry).text ∷ [])) self.new) }
    {
        if line.is_blank() {
            return self.blanks.push(line);
        }
        self.rows.take_all(&mut self.blanks)?;
        self.rows.push(line)
    }
}

/// Fenced code: the columns before the opening fence, its sign and how often that stands there.
#[derive(Drop)]
pub(crate) struct FencedCode {
    pub(crate) columns: usize,
    pub(crate) sign: u8,
    pub(crate) count: usize,
    pub(crate) language: Option<String>,
    pub(crate) rows: Rows,
}

impl FencedCode {
    pub(crate) fn new(alloc: Global, fence: Fence<'_>) -> Result<FencedCode, AllocError>
        ensures { IfOk result (λ code.
            IsFenced fence.entry.columns fence.entry.sign fence.entry.count fence.entry.info.now [] code) }
    {
        let language = language(alloc, fence.info)?;
        Ok(FencedCode {
            columns: fence.columns,
            sign: fence.sign,
            count: fence.count,
            language,
            rows: Rows::new(alloc),
        })
    }
}

/// Raw HTML.
#[derive(Drop)]
pub(crate) struct HtmlBlock {
    pub(crate) end: HtmlEnd,
    pub(crate) rows: Rows,
}

/// The rows of a table, and its header.
#[derive(Drop)]
pub(crate) struct Table {
    pub(crate) alignments: Vec<Alignment>,
    pub(crate) header: Vec<String>,
    pub(crate) rows: Vec<Vec<String>>,
}

impl Table {
    /// Takes one more row.
    pub(crate) fn push(&mut self, alloc: Global, line: Line<'_>) -> Result<(), AllocError>
        ensures { OnOk result ((alignments : List alignment.Alignment) (header ls : List (List ℕ))
            → IsGrid alignments header ls self.old
            → IsGrid alignments header (ls ++ ((line_of line.entry).text ∷ [])) self.new) }
    {
        let row = fitted_cells(alloc, line.text, self.alignments.len())?;
        self.rows.push(row)?;
        Ok(())
    }
}

/// The leaf that is open in the innermost container.
#[derive(Drop)]
pub(crate) enum Leaf<'a> {
    Nothing,
    Paragraph(Paragraph<'a>),
    Indented(IndentedCode),
    Fenced(FencedCode),
    Html(HtmlBlock),
    Table(Table),
}

impl<'a> Leaf<'a> {
    pub(crate) fn is_nothing(&self) -> bool
        ensures { (o : Open) → IsLeaf self.now o → result ≡ is_nothing o }
    {
        matches!(self, Leaf::Nothing)
    }

    pub(crate) fn is_paragraph(&self) -> bool
        ensures { (o : Open) → IsLeaf self.now o → result ≡ in_paragraph o }
    {
        matches!(self, Leaf::Paragraph(_))
    }
}
