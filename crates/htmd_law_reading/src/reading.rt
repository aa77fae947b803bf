//! Documents, and the documents of pages, are read back.
ghost use Rattle.htmd_law_reading.specs.ReadingLaws.{ReadsBack, FilesReadBack, DefinitionsAreLines, PagesReadBack};
ghost use Rattle.htmd_law_reading.specs.ReadingLaws.{PagesAreSeen, AnswersAreSeen};
ghost use Rattle.htmd_law_reading.specs.PieceLaws.{PiecesReadBack, PagePiecesReadBack};

/// What a reader of CommonMark sees of what is written of a normal document is the document, for all options.
pub fn reads_back()
    ensures { ReadsBack }
{}

/// So it is with a line feed at the end, as in a file.
pub fn files_read_back()
    ensures { FilesReadBack }
{}

/// Each link definition is a line of the Markdown.
pub fn definitions_are_lines()
    ensures { DefinitionsAreLines }
{}

/// What a reader sees of the Markdown of a page is the page's document.
pub fn pages_read_back()
    ensures { PagesReadBack }
{}

/// What a reader sees of the file that is written of a page is the page's document, and has each visible character of
/// the page, in order, and no other, with the formats, the link and the code around it that it has there.
pub fn pages_are_seen()
    ensures { PagesAreSeen }
{}

/// So it is for all Markdown that is answered.
pub fn answers_are_seen()
    ensures { AnswersAreSeen }
{}

/// What a reader sees of the Markdown of a piece of a normal document is the piece.
pub fn pieces_read_back()
    ensures { PiecesReadBack }
{}

/// So it is with the pieces of a page.
pub fn page_pieces_read_back()
    ensures { PagePiecesReadBack }
{}
