//! What is read comes back from its page.
ghost use Rattle.htmd_law_returning.specs.ReturningLaws.{SettledReturns};

/// The document of the page of what is read is what one sees in it, with its addresses encoded, if that is a normal
/// document, settled with these, whose anchors stay and whose formats, elements and tables show, and no raw tag stands
/// in the description of an image.
pub fn settled_returns()
    ensures { SettledReturns }
{}
