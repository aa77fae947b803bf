//! What pieces are to their document. Each law is the contract of a function that does nothing.
ghost use Rattle.htmd_chunks.specs.ChunkLaws.{PiecesAreNormal, PiecesJoin};
ghost use Rattle.htmd_chunks.specs.SizeLaws.{SizeBehind, SizeApart, SizeQuoted, SizeIndented, DocumentsFit};
ghost use Rattle.htmd_chunks.specs.SizeLaws.{PiecesAreShort};

/// Joined in order, the pieces of a normal document are the document.
pub fn pieces_join()
    ensures { PiecesJoin }
{}

/// Each of them is a normal document, and none is empty.
pub fn pieces_are_normal()
    ensures { PiecesAreNormal }
{}

/// Sizes add up as texts are put together: behind a line's end, behind a blank line, in a quote and in an item.
pub fn sizes_add_up()
    ensures behind { SizeBehind }
    ensures apart { SizeApart }
    ensures quoted { SizeQuoted }
    ensures indented { SizeIndented }
{}

/// The Markdown of a normal document is no longer than its blocks are measured.
pub fn documents_fit()
    ensures { DocumentsFit }
{}

/// No piece of a normal document has more bytes of Markdown than asked, except for those that may be longer.
pub fn pieces_are_short()
    ensures { PiecesAreShort }
{}
