//! From the texts of a page's tokens to its document.
ghost use Rattle.std.specs.Prelude.{IfOk};
ghost use Rattle.htmd_document.specs.DocumentViews.{document_of};
ghost use Rattle.htmd_shown.specs.SightViews.{sight_with};
ghost use Rattle.htmd_law_pages.specs.PageTexts.{PiecesShow, PageTextIsWritten, PageTextStandsInOrder};
ghost use Rattle.htmd_law_pages.specs.PageTexts.{AllTextIsWritten};
ghost use Rattle.htmd_law_pages.specs.PageTexts.{CountsLetters, KeepsOrder, HasAllText};

use htmd_document::Document;
use htmd_document_of_tree::{Anchors, OfTree};
use htmd_html5::parse_html5;
use std::alloc::{AllocError, Global};

/// Every text of a tree is a piece of it, shown or hidden by a rule, and what shows is what the pieces say.
pub fn pieces_show()
    ensures { PiecesShow }
{}

/// Each letter is in the document of a page as often as in the texts of the page's tokens, but for texts that are
/// hidden, and for what is said that is no text of the page, if no start tag is named `frameset` or `template`.
pub fn page_text_is_written()
    ensures { PageTextIsWritten }
{}

/// Without a start tag of `table` too, the letters stand there in the page's order.
pub fn page_text_stands_in_order()
    ensures { PageTextStandsInOrder }
{}

/// And where no letter is hidden, and nothing that is said has one, they are those of the page's tokens, all and no
/// others.
pub fn all_text_is_written()
    ensures { AllTextIsWritten }
{}

/// The document of any page, as browsers read it, has the page's text. Elements with one of the names in `skip` give
/// nothing. A rich document keeps elements that Markdown has no form for. No page is refused; `Err` means out of
/// memory.
pub fn document_of_page(
    alloc: Global,
    page: &str,
    scripting: bool,
    skip: &[&str],
    anchors: Anchors,
    rich: bool,
) -> Result<Document, AllocError>
    ensures letters { IfOk result (λ d. CountsLetters (sight_with scripting skip.now rich) page.now (document_of d)) }
    ensures order { IfOk result (λ d. KeepsOrder (sight_with scripting skip.now rich) page.now (document_of d)) }
    ensures all { IfOk result (λ d. HasAllText (sight_with scripting skip.now rich) page.now (document_of d)) }
{
    let tree = parse_html5(alloc, page, scripting)?;
    let _root = tree.root();
    Document::of_tree(alloc, &tree, scripting, skip, anchors, rich)
}
