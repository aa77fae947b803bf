//! Laws of a run: of the program's options `--text` and `--rows`.
ghost use Rattle.htmd_law_trees.specs.FieldLaws.{FieldsReadBack};
ghost use Rattle.htmd_law_trees.specs.OneParagraphLaws.{ParagraphReadsBack};

/// What a run writes for the text of one paragraph, without its final line feed, reads back: without the backslashes
/// that escape, it is the text, its white space squeezed and cut at both ends. It is nothing if that is empty.
pub fn paragraph_reads_back()
    ensures { ParagraphReadsBack }
{}

/// A text that is written as a field of a row is read as that text.
pub fn fields_read_back()
    ensures { FieldsReadBack }
{}
