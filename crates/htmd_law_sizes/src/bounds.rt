//! How long the Markdown of a document is at most, and how big the document of a tree.
ghost use Rattle.htmd_law_sizes.specs.SizeLaws.{DocumentIsBounded, FlowIsBounded, MarginIsBounded, MarkdownIsBounded};
ghost use Rattle.htmd_law_sizes.specs.SizeLaws.{NormalMarkdownIsBounded, PagesAreBounded, PreparedIsBounded};
ghost use Rattle.htmd_law_sizes.specs.SizeLaws.{ShownIsBounded};

/// The Markdown of any document, whatever the options, has at most as many times its size as the margin says: 256, and
/// 4 more for each byte that the quotes and items around a line can put before it.
pub fn markdown_is_bounded()
    ensures { MarkdownIsBounded }
{}

/// That of a normal document has at most 2,048 times its size.
pub fn normal_markdown_is_bounded()
    ensures { NormalMarkdownIsBounded }
{}

/// What shows of a tree, whether scripts run or not, whatever names are skipped, and whether the document is to be
/// rich, is at most 16 times as big as the tree.
pub fn shown_is_bounded()
    ensures { ShownIsBounded }
{}

/// Within its budget, with its anchors, and with each link around its first pieces, a simpler tree is at most 26 times
/// as big.
pub fn prepared_is_bounded()
    ensures { PreparedIsBounded }
{}

/// The document of a simpler tree, rich or not, is at most 400 times as big as the tree, but for the addresses and
/// titles of its links, the titles of its abbreviations and the languages of its code, which a page can say once and a
/// document many times.
pub fn flow_is_bounded()
    ensures { FlowIsBounded }
{}

/// The quotes and items of the document of a simpler tree, rich or not, put at most 2,208 bytes before a line.
pub fn margin_is_bounded()
    ensures { MarginIsBounded }
{}

/// So the document of any tree, with all that is repeated, is at most 1,275,392 times as big as the tree, and 262,151.
pub fn document_is_bounded()
    ensures { DocumentIsBounded }
{}

/// And its Markdown, whatever the options, has at most 9,088 bytes for each unit of that: no page's Markdown grows with
/// the square of its tree. The numbers are what a proof with one price for each node and each byte needs, and by far
/// not the least.
pub fn pages_are_bounded()
    ensures { PagesAreBounded }
{}
