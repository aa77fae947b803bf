//! What is written of the inlines of a document is what a reader of CommonMark sees there. Each law is the contract of
//! a function that does nothing.
#![tactic(auto)]

ghost use Rattle.htmd_law_inlines.specs.ReadBack.{InlinesReadBack, ItemsReadBack, TextsReadBack, InlinesArePlain};
ghost use Rattle.htmd_law_inlines.specs.ReadBack.{ItemsArePlain};

/// A text alone is read back, in a paragraph, a heading and a cell, whatever is defined.
pub fn texts_read_back()
    ensures { TextsReadBack }
{}

/// Normal inlines are read back, in a paragraph, a heading and a cell, with all options.
pub fn inlines_read_back()
    ensures { InlinesReadBack }
{}

/// The paragraph that an item begins with is read back, also where it begins with a task.
pub fn items_read_back()
    ensures { ItemsReadBack }
{}

/// What is read of normal inlines has text alone in descriptions of images, and a break is a tag only in a line that
/// has to be one.
pub fn inlines_are_plain()
    ensures { InlinesArePlain }
{}

/// So has what is read of the paragraph that an item begins with.
pub fn items_are_plain()
    ensures { ItemsArePlain }
{}
