//! The blocks of a document are read back.
ghost use Rattle.htmd_law_blocks.specs.BlockLaws.{BlocksReadBack, ListsReadBack};

/// What is written of a normal document has its blocks, with the texts that were written of its inlines.
pub fn blocks_read_back()
    ensures { BlocksReadBack }
{}

/// What is read is the document, with what a reader who knows its link definitions takes those texts for in the place
/// of its inlines: lists have their items, starts and tightness.
pub fn lists_read_back()
    ensures { ListsReadBack }
{}
