//! The HTML of the Markdown of documents.
ghost use Rattle.htmd_law_rendering.specs.DocumentLaws.{DocumentsAreSpelled, DocumentsAreParsed};

/// The HTML of the Markdown of a document in normal form is what its trees are spelled as.
pub fn documents_are_spelled()
    ensures { DocumentsAreSpelled }
{}

/// The reader of any page reads it as the document of these trees, if the document's elements of HTML may stand where
/// they do.
pub fn documents_are_parsed()
    ensures { DocumentsAreParsed }
{}
