//! A document comes back from the HTML of its Markdown.
ghost use Rattle.htmd_law_returning.specs.ComingBack.{SettledComeBack};

/// The document of the HTML of a document's Markdown, as the reader of any page reads it, is that document with its
/// addresses encoded, if it is normal and with these settled, its anchors stay, its elements may stand where they do,
/// and its formats, elements and tables show.
pub fn settled_come_back()
    ensures { SettledComeBack }
{}
