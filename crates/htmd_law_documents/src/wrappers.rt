//! What a document keeps of what is around the texts of the simpler tree.
ghost use Rattle.htmd_law_documents.specs.WrapperLaws.{WrappersOfDocument, WrappersOfTree};

/// Each visible character has in the document the formats, the link and the code around it that it has in the simpler
/// tree, whether the document is rich or not.
pub fn wrappers_of_document()
    ensures { WrappersOfDocument }
{}

/// So it is for the document of every tree of the source, with whatever anchors.
pub fn wrappers_of_tree()
    ensures { WrappersOfTree }
{}
