//! What leaves of documents of pages are like.
ghost use Rattle.htmd_law_settled.specs.NeatLeaves.{LeavesAreNeat, NoBlockIsElement, NumbersFit, HeadersShow};
ghost use Rattle.htmd_law_settled.specs.StandingElements.{ElementsStand};

/// In the document of a tree, rich or not, with its addresses encoded, all characters of texts and codes show, HTML
/// encodes nothing in addresses again, titles and descriptions are one line, code blocks are in named languages or none
/// and not blank, no white space stands at an end of a line, a format, a link or a code, nor beside a break or behind
/// an anchor, no format comes after itself with white space, breaks and anchors alone between, anchors in headings,
/// summaries, terms and captions stand at their beginning, lists show whether they are loose, something shows in the
/// last column of each table, and elements have such attributes and content.
pub fn leaves_are_neat()
    ensures { LeavesAreNeat }
{}

/// If it isn't rich, no block of it is an element of HTML.
pub fn no_block_is_element()
    ensures { NoBlockIsElement }
{}

/// In eight lists and quotes the numbers of its lists are below 100, or from 1 on.
pub fn numbers_fit()
    ensures { NumbersFit }
{}

/// If it is rich, something shows in the header of each of its tables.
pub fn headers_show()
    ensures { HeadersShow }
{}

/// Its elements stand where HTML has them: rows and captions in tables alone, cells in rows, terms and meanings in
/// lists of these, nothing else in tables, rows and these lists; summaries in `details` alone, captions of figures in
/// these; and no attribute comes twice.
pub fn elements_stand()
    ensures { ElementsStand }
{}
