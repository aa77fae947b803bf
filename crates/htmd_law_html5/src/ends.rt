//! What is open while a page is read, and in how many modes a token is processed.
ghost use Rattle.htmd_law_html5.specs.EndedElements.{OpenElementsEnd};
ghost use Rattle.htmd_law_html5.specs.EndedTurns.{MarkupIsDone, RunIsDone};

/// Open elements end in `html`: after each token of a page, the end of the file too, it is the outermost open element
/// from the token that opens it on, and before that nothing is open.
pub fn open_elements_end()
    ensures { OpenElementsEnd }
{}

/// Tokens are done with: in any state a tag, a comment or a doctype is processed again only so often that the turns
/// which a token has are enough.
pub fn markup_is_done()
    ensures { MarkupIsDone }
{}

/// So is the first run of any text.
pub fn run_is_done()
    ensures { RunIsDone }
{}
