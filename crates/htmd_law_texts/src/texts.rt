//! The texts of a document are what they are, and nothing else.
ghost use Rattle.htmd_law_texts.specs.TextLaws.{TextsAreLines, DefinitionsAreRead, FlatBlocksReadBack};
ghost use Rattle.htmd_law_texts.specs.TextLaws.{FlatListsReadBack, ElementsAreFlat, ElementsAreNested};

/// What is written of normal inlines is nothing but the lines of a paragraph, a heading or a cell.
pub fn texts_are_lines()
    ensures { TextsAreLines }
{}

/// The lines of link definitions are read as those.
pub fn definitions_are_read()
    ensures { DefinitionsAreRead }
{}

/// What is written of a flat document has its blocks, with the texts that were written of its inlines.
pub fn blocks_read_back()
    ensures { FlatBlocksReadBack }
{}

/// What is read is the flat document, with what a reader who knows its link definitions takes those texts for in the
/// place of its inlines: lists have their items, starts and tightness.
pub fn lists_read_back()
    ensures { FlatListsReadBack }
{}

/// What a document's elements are written as is a flat document.
pub fn elements_are_flat()
    ensures { ElementsAreFlat }
{}

/// A reader who pairs its lines of tags has the document's elements again.
pub fn elements_are_nested()
    ensures { ElementsAreNested }
{}
